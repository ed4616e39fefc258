use sm_store::item::Item;

/// The value of a part of a base: bytes of the machine, and last requests of clients, each with its reply in place of
/// the request.
#[derive(Drop)]
pub struct StoredPart {
    /// The number below which clients are forgotten.
    pub floor: u64,
    pub state: Vec<u8>,
    pub lasts: Vec<Item<Vec<u8>>>,
}
