use sm_ownership::admit_fault::AdmitFault;
use thiserror::Error;

/// Why a request was refused.
#[derive(Clone, Copy, Debug, PartialEq, Eq, Drop, Error)]
pub enum Refusal {
    /// The server forwards requests on the shard, but this one was forwarded as often as it may be.
    #[error("the request was forwarded too often")]
    TooManyHops,
    /// The server was not admitted to the shard.
    #[error("{0}")]
    Admit(AdmitFault),
    /// The shard keeps as many requests as it may.
    #[error("the shard keeps as many requests as it may")]
    KeptFull,
    /// The server to which the request is forwarded can't be reached.
    #[error("the server isn't reached")]
    Unreachable,
    /// Memory for the request was refused.
    #[error("out of memory")]
    NoMemory,
}
