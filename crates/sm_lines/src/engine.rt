ghost use Rattle.std.specs.Prelude.{ℕ, IfErr, IfOk};

use crate::Responder;
use crate::begin_fault::BeginFault;
use std::alloc::Global;

/// A thing that runs scripts: from a script's first line it makes a session, which responds to the other lines until it
/// is ended.
pub trait Engine {
    ghost use Rattle.std.specs.Prelude.{⊤, List};
    ghost use Rattle.sm_lines.specs.declared.begin_fault.BeginFault.{BeginFault};

    /// A run of one script. It must be ended, because it may hold values that can't be dropped.
    type Session: Responder;

    /// The most bytes that a line may have; a longer one is answered by its first bytes.
    const MAX_LINE: usize;

    ghost MAX_LINE: { ℕ };

    /// A fact that an engine must know while it is used, and that no field of it can hold: for example, that the
    /// machine which it was handed may start threads. The caller must prove it once, and every call keeps it.
    ghost ready: { Self → Type 0 } = { λ _. ⊤ };

    /// The sessions that may be made from this first line.
    ghost begins: { List ℕ → Self.Session → Type 0 };

    /// Why no session may be made from this first line.
    ghost refuses: { List ℕ → BeginFault → Type 0 };

    /// Returns a session as a script's first line asks for it, before the second is read, or why there is none. The
    /// line has at most [`MAX_SETTINGS`](sm_settings::MAX_SETTINGS) bytes; [`read_settings`](crate::read_settings)
    /// reads it.
    fn begin(&mut self, alloc: Global, first: &[u8]) -> Result<Self::Session, BeginFault>
        requires ready { ready self.old }
        ensures ready { ready self.new }
        ensures begun { IfOk result (begins first.now) }
        ensures session_ready { IfOk result Self.Session.ready }
        ensures refused { IfErr result (refuses first.now) };

    /// Ends a session.
    fn end(&mut self, session: Self::Session)
        requires ready { ready self.old }
        requires session_ready { Self.Session.ready session }
        ensures { ready self.new };
}
