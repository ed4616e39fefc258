use crate::block::Block;

// Room for one more entry.
#[derive(Drop)]
pub(crate) enum Room {
    // The block has room.
    Inside,
    // The block is full, and this block, which has no entries, takes its lower half.
    Beside(Block),
    // The place is behind the last block, and this block has no entries.
    Behind(Block),
}
