use sm_desk::command::CommandFault;
use sm_ownership::admit_fault::AdmitFault;
use thiserror::Error;

/// Why a step was refused. A step that is refused changes nothing.
#[derive(Clone, Copy, Debug, PartialEq, Eq, Drop, Error)]
pub enum WorldFault {
    /// The command was refused.
    #[error("{0}")]
    Command(CommandFault),
    /// The server was not admitted to the shard.
    #[error("{0}")]
    Admit(AdmitFault),
    /// There is no such shard.
    #[error("there is no such shard")]
    UnknownShard,
    /// There is no such server.
    #[error("there is no such server")]
    UnknownServer,
    /// The server isn't reached: it is stopped, or has failed.
    #[error("the server isn't reached")]
    Unreachable,
    /// There is no envelope at this place.
    #[error("there is no envelope at this place")]
    NoEnvelope,
    /// No server has the shard in hand as the step needs it: `Finish` ends an admission with a request, and `Free` one
    /// without.
    #[error("no server has the shard in hand so")]
    NotHeld,
    /// The shard's generation isn't above the generation of its last published route.
    #[error("the route is not newer than the published one")]
    OldRoute,
    /// The shard is vacant, so it has no route.
    #[error("the shard is vacant")]
    WrongPhase,
    /// Memory for the step was refused.
    #[error("out of memory")]
    NoMemory,
}

impl From<CommandFault> for WorldFault {
    ghost use Rattle.std.specs.Prelude.{◌≡◌};
    ghost use Rattle.sm_table.specs.declared.world_fault.WorldFault.TheVariants.{Command};

    ghost from_gives = { λ fault world. world ≡ Command fault };

    fn from(fault: CommandFault) -> WorldFault {
        WorldFault::Command(fault)
    }
}
