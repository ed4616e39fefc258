use sm_ranges::server_id::ServerId;
use sm_server::Refusal;

/// The outcome of an envelope at a server, which a handle keeps.
#[derive(Clone, Copy, Drop)]
pub enum ServedAs {
    /// The request was executed: the handle keeps the answer.
    Answered,
    /// The handle keeps the envelope, with one hop more, which goes on to this server.
    Forward(ServerId),
    /// The handle keeps the envelope that came back.
    Refused(Refusal),
}
