/// An answer as C sees it: whose request it is, its number, and its place among the shard's requests. For a read that
/// is how many requests were made before it.
#[repr(C)]
#[derive(Clone, Copy, Drop)]
pub struct PlaceAnswer {
    pub client: u64,
    pub number: u64,
    pub place: u64,
}
