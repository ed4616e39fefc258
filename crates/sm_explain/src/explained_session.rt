use crate::listener::Listener;
use crate::sentence::Sentence;
use crate::sentences::{refusal_of, sentence_of};
use sm_lines::Responder;
use std::alloc::AllocError;
use std::cell::Cell;
use std::marker::Model;

/// A session that answers like another one, and tells a listener why lines were refused, each with its number: the
/// settings are line 1. Contracts see it as that other session.
pub struct ExplainedSession<S, L> {
    inner: S,
    listener: L,
    /// The number of the line that was answered last.
    line: Cell<u64>,
}

impl<S, L> Model for ExplainedSession<S, L> {
    ghost Value = { S };

    ghost view = { λ session. session.inner };
}

impl<S, L> ExplainedSession<S, L> {
    ghost use Rattle.std.specs.Prelude.{◌≡◌};

    /// Returns the session, before its first line.
    pub(crate) fn new(inner: S, listener: L) -> ExplainedSession<S, L>
        ensures { result ≡ inner }
    {
        ExplainedSession {
            inner,
            listener,
            line: Cell::new(1),
        }
    }
}

impl<S, L: Drop> ExplainedSession<S, L> {
    ghost use Rattle.std.specs.Prelude.{◌≡◌};

    /// Returns the session that answers.
    pub(crate) fn into_inner(self) -> S
        ensures { result ≡ self }
    {
        let ExplainedSession {
            inner,
            listener: _,
            line: _,
        } = self;
        inner
    }
}

impl<S, L: Listener> ExplainedSession<S, L> {
    /// Counts a line, and tells the sentence about it and its answer.
    fn explain(&self, line: &[u8], answer: &[u8]) {
        let number = self.line.get().saturating_add(1);
        self.line.set(number);
        if let Some(refusal) = refusal_of(answer) {
            self.listener
                .hear(number, refusal, sentence_of(refusal, line));
        }
        if line.ends_with(b"\r") && !line.starts_with(b"#") {
            self.listener.hear(
                number,
                "carriage return",
                Sentence::Text("the line ends with one, which is a byte of its last word"),
            );
        }
    }
}

impl<S: Responder, L: Listener> Responder for ExplainedSession<S, L> {
    ghost ready = { λ session. S.ready session };

    ghost gives = { λ before line text after. S.gives before line text after };

    ghost gives_long = { λ session start text. S.gives_long session start text };

    fn respond(&mut self, line: &[u8], out: &mut Vec<u8>) -> Result<(), AllocError> {
        self.inner.respond(line, out)?;
        self.explain(line, out.as_slice());
        Ok(())
    }

    fn respond_long(&self, start: &[u8], out: &mut Vec<u8>) -> Result<(), AllocError> {
        self.inner.respond_long(start, out)?;
        self.explain(b"", out.as_slice());
        Ok(())
    }
}
