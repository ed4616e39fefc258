use std::snapshot::Snapshot;

/// The origin of a board, as its rule reads it: how many shards it has, the ceiling of their generations, and their
/// bodies.
#[derive(Drop)]
pub(crate) struct Origin<S> {
    pub(crate) count: u64,
    pub(crate) ceiling: u64,
    // The bodies before any request, as proofs see them. It takes no memory.
    pub(crate) bodies: Snapshot<Vec<S>>,
}
