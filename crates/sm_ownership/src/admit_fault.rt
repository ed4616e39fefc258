use thiserror::Error;

/// Why a server is not admitted to a shard, by the shard's record: the first reason that applies, in this order.
#[derive(Clone, Copy, Debug, PartialEq, Eq, Drop, Error)]
pub enum AdmitFault {
    /// Nobody owns the shard.
    #[error("nobody owns the shard")]
    Vacant,
    /// The shard is paused.
    #[error("the shard is paused")]
    Paused,
    /// Another server executes the shard's requests.
    #[error("another server executes the shard's requests")]
    NotExecutor,
    /// The server is the next owner, and so far executes only requests that the owner forwards.
    #[error("the server executes only what the owner forwards")]
    NotYet,
    /// The shard has an admission that hasn't ended.
    #[error("the shard is admitted")]
    Admitted,
    /// An admission and its end would take the shard's generation above the ceiling.
    #[error("the shard's generations are spent")]
    Spent,
}
