/// The head of a shard's log as C sees it: how many batches there are, how many of them, from the first on, the base
/// replaces, and how many parts the base has; 0 for no base.
#[repr(C)]
#[derive(Clone, Copy, Drop)]
pub struct LogHead {
    pub batches: u64,
    pub base: u64,
    pub parts: u64,
}
