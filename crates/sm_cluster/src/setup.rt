use sm_desk::Desk;
use sm_ranges::layout::Layout;

/// The configuration of a cluster, beside the bodies of its shards.
#[derive(Drop)]
pub struct Setup {
    /// Which shard a key belongs to.
    pub layout: Layout,
    /// The desk that checks commands. It has a vacant shard for each range of the layout.
    pub desk: Desk,
    /// The greatest generation of a shard, 3 to 2^36 - 1.
    pub ceiling: u64,
}
