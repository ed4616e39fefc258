use sm_ranges::server_id::ServerId;

/// The result of an answer that a client has learned.
#[derive(Clone, Copy, PartialEq, Eq, Drop)]
pub struct Told<R> {
    /// The number of the call.
    pub number: u64,
    /// The server that executed the request.
    pub server: ServerId,
    /// The reply.
    pub reply: R,
    /// How many requests of the shard were executed before this one.
    pub place: u64,
}
