use sm_ranges::server_id::ServerId;

/// The contents of bytes that are handed over: the server, and the process of it that let go by handing over.
#[derive(Clone, Copy, Drop)]
pub struct HandOver {
    pub server: ServerId,
    /// The revision at which the process put its server's key into the store.
    pub joined: u64,
    /// The generation of the record up to which the process has let go.
    pub generation: u64,
}
