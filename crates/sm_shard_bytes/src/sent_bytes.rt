/// The compares and writes of a server's transaction. It compares the revision of the shard's record with `stood`, and
/// that of the head with `logged`.
#[derive(Drop)]
pub struct SentBytes {
    pub stood: u64,
    pub logged: u64,
    /// The number of the batch that is written, or 0 for none.
    pub number: u64,
    /// The bytes for the head; none if it isn't written.
    pub head: Vec<u8>,
    /// The bytes for the batch.
    pub batch: Vec<u8>,
}
