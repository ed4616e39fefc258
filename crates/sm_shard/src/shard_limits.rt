/// The most that a server sends and keeps.
#[derive(Clone, Copy, Drop)]
pub struct ShardLimits {
    /// The bytes that the requests of a batch take, and so a request.
    pub batch_bytes: u64,
    /// The requests of a batch. Even if this is 0, one request goes.
    pub batch_requests: usize,
    /// The requests that wait, and the reads that do.
    pub waiting: usize,
    /// The clients whose last request is kept. If there are so many, another client comes in only if its request lets
    /// enough of them be forgotten. The clients of requests that wait or were sent may be in addition.
    pub clients: usize,
}
