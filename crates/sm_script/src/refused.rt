ghost use Rattle.std.specs.Prelude.{◌≡◌};
ghost use Rattle.sm_script.specs.Answers.{command_fault_name, admit_fault_name};

use sm_desk::command::CommandFault;
use sm_ownership::admit_fault::AdmitFault;
use sm_ownership::change_fault::ChangeFault;
use sm_place::PlaceFault;
use thiserror::Error;

/// Why a call of a script was refused.
#[derive(Clone, Copy, Debug, PartialEq, Eq, Drop, Error)]
pub enum Refused {
    /// There is no such shard.
    #[error("there is no such shard")]
    UnknownShard,
    /// There is no such server.
    #[error("there is no such server")]
    UnknownServer,
    /// The server isn't reached: it is stopped, or has failed.
    #[error("the server isn't reached")]
    Unreachable,
    /// No server holds the shard without a request.
    #[error("no server holds the shard without a request")]
    NotHeld,
    /// The shard's generation isn't above the generation of its last published route.
    #[error("the route is not newer than the published one")]
    OldRoute,
    /// The shard is vacant, so it has no route.
    #[error("the shard is vacant")]
    WrongPhase,
    /// A client follows the published route of its key's shard, but there is no such route.
    #[error("no route is known")]
    NoRoute,
    /// The key doesn't belong to the shard to which its request came.
    #[error("the request is not for this shard")]
    WrongShard,
    /// Another thread changed the shard's record first.
    #[error("another thread was first")]
    Raced,
    /// The request was dropped with no reply.
    #[error("no reply will come")]
    Closed,
    /// Why a command of the control was refused.
    #[error(transparent)]
    Command(CommandFault),
    /// Why a server was not admitted to a shard.
    #[error(transparent)]
    Admit(AdmitFault),
    /// The server forwards requests for the shard, but this one was already forwarded as often as it may be.
    #[error("the request was forwarded too often")]
    TooManyHops,
    /// The shard keeps as many requests as it may.
    #[error("the shard keeps as many requests as it may")]
    KeptFull,
}

impl Refused {
    ghost use Rattle.sm_script.specs.Answers.{refused_name, refused_number};

    /// Returns the name of the refusal in an answer.
    pub fn name(self) -> &'static str
        ensures { result.now ≡ refused_name self }
    {
        match self {
            Refused::UnknownShard => "UnknownShard",
            Refused::UnknownServer => "UnknownServer",
            Refused::Unreachable => "Unreachable",
            Refused::NotHeld => "NotHeld",
            Refused::OldRoute => "OldRoute",
            Refused::WrongPhase => "WrongPhase",
            Refused::NoRoute => "NoRoute",
            Refused::WrongShard => "WrongShard",
            Refused::Raced => "Raced",
            Refused::Closed => "Closed",
            Refused::Command(fault) => command_fault_name(fault),
            Refused::Admit(fault) => admit_fault_name(fault),
            Refused::TooManyHops => "TooManyHops",
            Refused::KeptFull => "KeptFull",
        }
    }

    /// Returns the number that an answer gives after the name, if it gives one: of the shard, group or domain at which
    /// the refusal came.
    pub fn number(self) -> Option<u16>
        ensures { result ≡ refused_number self }
    {
        match self {
            Refused::Command(CommandFault::Restart(fault)) => fault.number(),
            _ => None,
        }
    }
}

// Returns the name of a command's refusal in an answer.
fn command_fault_name(fault: CommandFault) -> &'static str
    ensures { result.now ≡ command_fault_name fault }
{
    match fault {
        CommandFault::UnknownServer => "UnknownServer",
        CommandFault::Change(ChangeFault::UnknownShard) => "UnknownShard",
        CommandFault::Change(ChangeFault::WrongPhase) => "WrongPhase",
        CommandFault::Change(ChangeFault::SameServer) => "SameServer",
        CommandFault::Change(ChangeFault::Spent(_)) => "Spent",
        CommandFault::Change(ChangeFault::Busy(_)) => "Busy",
        CommandFault::Place(PlaceFault::Leaving) => "Leaving",
        CommandFault::Place(PlaceFault::NoCapacity) => "NoCapacity",
        CommandFault::Place(PlaceFault::DomainLimit) => "DomainLimit",
        CommandFault::Restart(fault) => fault.name(),
        CommandFault::Raced { .. } => "Raced",
    }
}

// Returns the name of an admission's refusal in an answer.
fn admit_fault_name(fault: AdmitFault) -> &'static str
    ensures { result.now ≡ admit_fault_name fault }
{
    match fault {
        AdmitFault::Vacant => "Vacant",
        AdmitFault::Paused => "Paused",
        AdmitFault::NotExecutor => "NotExecutor",
        AdmitFault::NotYet => "NotYet",
        AdmitFault::Admitted => "Admitted",
        AdmitFault::Spent => "Spent",
    }
}
