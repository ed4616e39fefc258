use crate::record::Record;
use thiserror::Error;

/// Why the ownership table refused a change: the first reason that applies, in this order.
#[derive(Clone, Copy, Debug, PartialEq, Eq, Drop, Error)]
pub enum ChangeFault {
    /// There is no such shard.
    #[error("there is no such shard")]
    UnknownShard,
    /// The change doesn't begin from the shard's stand.
    #[error("the change doesn't begin from the shard's stand")]
    WrongPhase,
    /// The change names the shard's owner as its new server.
    #[error("the change names the shard's owner as its new server")]
    SameServer,
    /// The shard's generation in this record has reached the ceiling.
    #[error("the shard's generations are spent")]
    Spent(Record),
    /// The shard is admitted in this record.
    #[error("the shard is admitted")]
    Busy(Record),
}
