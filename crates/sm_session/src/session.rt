ghost use Rattle.std.specs.Prelude.{◌≡◌, IfOk};

use crate::backend::Backend;
use crate::writing::{write_line, write_long_line};
use sm_lines::Responder;
use sm_script::{Call, LineAnswer, ParseFault, parse};
use std::alloc::{AllocError, Global};
use std::marker::Model;

/// A script's session on a backend. In contracts it is its backend.
#[derive(Drop)]
pub struct Session<B> {
    alloc: Global,
    backend: B,
}

impl<B> Model for Session<B> {
    ghost Value = { B };

    ghost view = { λ session. session.backend };
}

impl<B> Session<B> {
    /// Makes a session on this backend. It reads its lines in memory of the allocator.
    pub fn new(alloc: Global, backend: B) -> Session<B>
        ensures { result ≡ backend }
    {
        Session { alloc, backend }
    }

    /// Returns the session's backend.
    pub fn backend(&self) -> &B
        ensures { result.now ≡ self.now }
    {
        &self.backend
    }

    /// Ends the session, and returns the backend.
    pub fn into_backend(self) -> B
        ensures { result ≡ self }
    {
        let Session { alloc: _, backend } = self;
        backend
    }
}

impl<B: Backend> Session<B> {
    /// Has the backend make the call, and returns its answer. It fails only for lack of memory.
    pub fn answer(&mut self, call: Call) -> Result<LineAnswer, AllocError>
        requires ready { B.ready self.old }
        ensures ready { B.ready self.new }
        ensures answers { IfOk result (λ answer. B.answers self.old call answer self.new) }
    {
        match call {
            Call::Control(command) => self.backend.command(command),
            Call::Hold(shard, server) => self.backend.hold(shard, server),
            Call::Free(shard) => self.backend.free(shard),
            Call::Checkpoint(shard, server) => self.backend.checkpoint(shard, server),
            Call::Publish(shard) => self.backend.publish(shard),
            Call::Route(key) => self.backend.route(key),
            Call::Look(shard) => self.backend.look(shard),
            Call::Load { key, clients, each } => self.backend.load(key, clients, each),
            Call::Place => self.backend.place(),
            Call::Drain(server) => self.backend.drain(server),
            Call::Request(request) => self.backend.request(request),
            Call::RequestAt(server, request) => self.backend.request_at(server, request),
            Call::RequestByRoute(request) => self.backend.request_by_route(request),
        }
    }
}

impl<B: Backend> Responder for Session<B> {
    ghost use Rattle.sm_session.specs.LongLines.{RespondsLong};
    ghost use Rattle.sm_session.specs.Responses.{Responds};

    ghost ready = { λ session. B.ready session };

    ghost gives = { Responds B.answers };

    ghost gives_long = { λ _ start text. RespondsLong start text };

    fn respond(&mut self, line: &[u8], out: &mut Vec<u8>) -> Result<(), AllocError> {
        match parse(self.alloc, line) {
            Ok(None) => Ok(()),
            Ok(Some(call)) => {
                let answer = self.answer(call)?;
                write_line(&answer, out)
            }
            Err(ParseFault::Line(fault)) => write_line(&LineAnswer::Error(fault), out),
            Err(ParseFault::NoMemory) => Err(AllocError),
        }
    }

    fn respond_long(&self, start: &[u8], out: &mut Vec<u8>) -> Result<(), AllocError> {
        write_long_line(start, out)
    }
}
