use crate::refusal::Refusal;
use sm_ranges::server_id::ServerId;

/// The outcome of an envelope at a server.
#[derive(Drop)]
pub enum Outcome<A, E> {
    /// The request was executed.
    Answered(A),
    /// The envelope goes on to this server, with one hop more.
    Forward(ServerId, E),
    /// The envelope comes back with its request.
    Refused(Refusal, E),
}
