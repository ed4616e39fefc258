use thiserror::Error;

/// Why a shard does not fit a server: the first reason that applies, in this order.
#[derive(Clone, Copy, Debug, PartialEq, Eq, Drop, Error)]
pub enum PlaceFault {
    /// The server was approved to restart, is stopped or failed.
    #[error("the server is leaving")]
    Leaving,
    /// With the shard's load, the server's shards would exceed its capacity.
    #[error("the server has no capacity for the shard")]
    NoCapacity,
    /// With the shard, its group would exceed its limit in the server's domain.
    #[error("the shard's group is at its limit in the server's domain")]
    DomainLimit,
}
