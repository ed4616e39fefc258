use crate::explained_session::ExplainedSession;
use crate::listener::Listener;
use sm_lines::{BeginFault, Engine};
use std::alloc::Global;
use std::marker::Model;

/// An engine whose sessions answer like those of another engine, and tell a listener why lines were refused. Contracts
/// see it as that other engine.
#[derive(Drop)]
pub struct Explained<E, L> {
    engine: E,
    listener: L,
}

impl<E, L> Model for Explained<E, L> {
    ghost Value = { E };

    ghost view = { λ explained. explained.engine };
}

impl<E, L> Explained<E, L> {
    ghost use Rattle.std.specs.Prelude.{◌≡◌};

    /// Returns the engine, whose sessions tell this listener.
    pub fn new(engine: E, listener: L) -> Explained<E, L>
        ensures { result ≡ engine }
    {
        Explained { engine, listener }
    }
}

impl<E: Engine, L: Listener + Copy + Drop> Engine for Explained<E, L> {
    type Session = ExplainedSession<E::Session, L>;

    const MAX_LINE: usize = E::MAX_LINE;

    ghost MAX_LINE = { E.MAX_LINE };

    ghost ready = { λ engine. E.ready engine };

    ghost begins = { λ first session. E.begins first session };

    ghost refuses = { λ first fault. E.refuses first fault };

    fn begin(&mut self, alloc: Global, first: &[u8]) -> Result<Self::Session, BeginFault> {
        match self.engine.begin(alloc, first) {
            Ok(inner) => Ok(ExplainedSession::new(inner, self.listener)),
            Err(fault) => Err(fault),
        }
    }

    fn end(&mut self, session: Self::Session) {
        self.engine.end(session.into_inner());
    }
}
