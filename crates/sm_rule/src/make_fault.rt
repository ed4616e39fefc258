use thiserror::Error;

/// Why there is no such board. The first that applies is answered, in this order.
#[derive(Clone, Copy, Debug, PartialEq, Eq, Drop, Error)]
pub enum MakeFault {
    /// A board has at least one shard.
    #[error("a board has at least one shard")]
    NoShard,
    /// A board has at most 4,096 shards.
    #[error("a board has at most 4,096 shards")]
    TooMany,
    /// The ceiling of the generations is 3 to 2^36 - 1.
    #[error("the ceiling of generations is 3 to 68,719,476,735")]
    BadCeiling,
    /// Memory for the board was refused.
    #[error("out of memory")]
    NoMemory,
}
