use sm_body::bytes::Bytes;

/// A job: the key at which it waits, and its work as bytes.
#[derive(Clone, Drop)]
pub struct Job {
    /// This key's shard executes all requests for the key.
    pub key: Bytes,
    /// The work to do, which the queue doesn't read.
    pub work: Bytes,
}
