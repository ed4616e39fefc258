use sm_ranges::server_id::ServerId;

/// How a request came to a server.
#[derive(Clone, Copy, PartialEq, Eq, Drop)]
pub enum Mode {
    /// From a client.
    Direct,
    /// From another server, which forwarded it. Any number from 1 to 4,095 may be here. It matters only at a shard
    /// whose owner forwards, because only there it is compared with the owner.
    Forwarded(ServerId),
}
