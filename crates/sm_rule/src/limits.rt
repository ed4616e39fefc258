use std::collections::LinkedList;

/// The sizes of a board. They exist only in contracts and proofs: no value of this type is made.
pub struct Limits {
    /// How many shards the board has.
    pub count: u64,
    /// No generation of its shards passes it.
    pub ceiling: u64,
    /// The most requests that the body of each shard keeps.
    pub bodies: LinkedList<u64>,
}
