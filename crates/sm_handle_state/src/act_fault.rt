use sm_desk::CommandFault;
use sm_rule::ToldRefusal;
use sm_server::CheckpointFault;
use thiserror::Error;

/// Why a call did nothing.
#[derive(Debug, Drop, Error)]
pub enum ActFault {
    /// The handle keeps nothing, or nothing that the call is for.
    #[error("the handle keeps nothing that the call is for")]
    WrongHandle,
    /// The board has no such shard.
    #[error("there is no such shard")]
    UnknownShard,
    /// The control has no such server.
    #[error("there is no such server")]
    UnknownServer,
    /// Memory was refused.
    #[error("out of memory")]
    NoMemory,
    /// The caller's room is shorter than the result.
    #[error("what would be written is longer than the room for it")]
    TooShort,
    /// No envelope comes so.
    #[error("no envelope has this mode with this many hops")]
    NotSent,
    /// The plan has no such line, or the reply no such pair.
    #[error("the plan has no such line, or the reply no such pair")]
    NoMore,
    /// The pass isn't admitted.
    #[error(transparent)]
    Admit(ToldRefusal),
    /// There is no checkpoint.
    #[error(transparent)]
    Checkpoint(CheckpointFault),
    /// The command is refused.
    #[error(transparent)]
    Command(CommandFault),
}
