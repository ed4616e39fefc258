use sm_rule::admit_refusal::AdmitRefusal;
use thiserror::Error;

/// Why a server refused an envelope.
#[derive(Clone, Copy, Debug, PartialEq, Eq, Drop, Error)]
pub enum Refusal {
    /// The board has no such shard, or the request's key is another shard's.
    #[error("the request is not for this shard")]
    WrongShard,
    /// The server forwards requests on the shard, and this one was forwarded as often as it may be.
    #[error("the request was forwarded too often")]
    TooManyHops,
    /// The server was not admitted to the shard.
    #[error("{0}")]
    Admit(AdmitRefusal),
    /// The shard keeps as many requests as it may.
    #[error("the shard keeps as many requests as it may")]
    KeptFull,
    /// Memory for the request was refused.
    #[error("out of memory")]
    NoMemory,
}
