use thiserror::Error;

/// Why a shard has no route, or its route is not published: the first reason that applies, in this order.
#[derive(Clone, Copy, Debug, PartialEq, Eq, Drop, Error)]
pub enum RouteFault {
    /// There is no such shard.
    #[error("there is no such shard")]
    UnknownShard,
    /// The shard is vacant, so it has no route.
    #[error("the shard is vacant")]
    WrongPhase,
    /// The route's generation is not above that of the shard's last published route.
    #[error("the route is not newer than the published one")]
    OldRoute,
    /// The route may be published, but memory for it was refused.
    #[error("out of memory")]
    NoMemory,
}
