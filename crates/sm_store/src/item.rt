use sm_ownership::mode::Mode;

/// A request in a batch: its client, its number among that client's requests, how it came, how often it was forwarded,
/// and the number below which it makes its shard forget clients, or 0 if it makes it forget none.
#[derive(Drop)]
pub struct Item<Q> {
    pub client: u64,
    pub number: u64,
    pub mode: Mode,
    pub hops: u8,
    pub forgets: u64,
    pub request: Q,
}
