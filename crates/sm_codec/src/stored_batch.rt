use sm_ranges::server_id::ServerId;
use sm_store::item::Item;

/// The value of a batch: the server that executed it, and its requests as bytes.
#[derive(Drop)]
pub struct StoredBatch {
    pub server: ServerId,
    pub items: Vec<Item<Vec<u8>>>,
}
