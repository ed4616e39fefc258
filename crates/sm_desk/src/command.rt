use sm_ownership::change::Change;
use sm_ownership::change_fault::ChangeFault;
use sm_ownership::record::Record;
use sm_place::PlaceFault;
use sm_ranges::server_id::ServerId;
use sm_ranges::shard_id::ShardId;
use sm_tasks::RestartFault;
use thiserror::Error;

/// A command of the control.
#[derive(Clone, Copy, PartialEq, Eq, Drop)]
pub enum Command {
    /// Changes the stand of the shard.
    Change(ShardId, Change),
    /// Asks for a restart of the server.
    Ask(ServerId),
    /// Approves the restart of the server.
    Approve(ServerId),
    /// Notes that the server was stopped for its restart.
    Stopped(ServerId),
    /// Notes that the server is up again.
    Back(ServerId),
    /// Notes that the server failed.
    Fail(ServerId),
}

/// Why a command was refused: the first reason that applies. For a change the order is: an unknown shard, an unknown
/// server, the other reasons of the shard's stand, then those of the server that the change newly names or that
/// executes again. The desk finds these. If a board makes the change too, `Spent` or `Busy` of the record read come
/// next, and then `Raced`.
#[derive(Clone, Copy, Debug, PartialEq, Eq, Drop, Error)]
pub enum CommandFault {
    /// There is no such server.
    #[error("there is no such server")]
    UnknownServer,
    /// The ownership table doesn't allow the change.
    #[error("{0}")]
    Change(ChangeFault),
    /// The server has no room for the shard, or is leaving.
    #[error("{0}")]
    Place(PlaceFault),
    /// The server's restart doesn't allow the step.
    #[error("{0}")]
    Restart(RestartFault),
    /// The record read allows the change, but the board found another record when it made the change.
    #[error("another thread was first")]
    Raced { read: Record, found: Record },
}

impl From<ChangeFault> for CommandFault {
    ghost use Rattle.std.specs.Prelude.{◌≡◌};
    ghost use Rattle.sm_desk.specs.declared.command.CommandFault.TheVariants.{Change as ChangeRefused};

    ghost from_gives = { λ fault command. command ≡ ChangeRefused fault };

    fn from(fault: ChangeFault) -> CommandFault {
        CommandFault::Change(fault)
    }
}

impl From<RestartFault> for CommandFault {
    ghost use Rattle.std.specs.Prelude.{◌≡◌};
    ghost use Rattle.sm_desk.specs.declared.command.CommandFault.TheVariants.{Restart};

    ghost from_gives = { λ fault command. command ≡ Restart fault };

    fn from(fault: RestartFault) -> CommandFault {
        CommandFault::Restart(fault)
    }
}
