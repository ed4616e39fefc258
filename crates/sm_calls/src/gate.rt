use sm_ranges::server_id::ServerId;
use std::sync::Wait;

/// A gate that a worker passes before it serves a request. It may wait there.
pub trait Gate {
    /// Lets the worker of this server through with the request of this number.
    fn pass<R: Wait>(&self, rt: &R, server: ServerId, number: u64);
}

/// A gate that stops nobody.
#[derive(Clone, Copy, Drop)]
pub struct Open;

impl Gate for Open {
    fn pass<R: Wait>(&self, _rt: &R, _server: ServerId, _number: u64) {}
}
