use sm_ownership::record::Record;
use thiserror::Error;

/// Why a change that the shard's stand allows was not made.
#[derive(Clone, Copy, Debug, PartialEq, Eq, Drop, Error)]
pub enum ChangeRefusal {
    /// The shard's generation has reached the ceiling.
    #[error("the shard's generations are spent")]
    Spent(Record),
    /// The shard is admitted.
    #[error("the shard is admitted")]
    Busy(Record),
    /// The record read allows the change, but another one was found when it was to be made.
    #[error("another thread was first")]
    Raced { read: Record, found: Record },
}
