use sm_ownership::route::Route;
use std::collections::LinkedList;

/// The knowledge of a publisher or a router of words. It exists only in contracts and proofs: no value of it is made.
pub struct WordView {
    /// The number of shards.
    pub count: usize,
    /// The publications that it has seen, in order.
    pub seen: LinkedList<Route>,
}
