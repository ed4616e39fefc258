use crate::note::Note;
use crate::view::View;
use atomic_table::Seat;
use sm_body::service::Service;
use sm_ranges::server_id::ServerId;
use std::marker::Model;

/// A thread's handle on a board: a fixed number and server, and the history that it has seen.
#[derive(Drop)]
pub struct Pass<S: Service> {
    pub(crate) seat: Seat<Option<S>, View<S::Request>>,
    pub(crate) server: Option<ServerId>,
}

impl<S: Service> Model for Pass<S> {
    ghost use Rattle.std.specs.Prelude.{◌≡◌};
    ghost use Rattle.sm_rule.specs.Passes.{IsPassView, PassValue, pass_value, slots_of};

    ghost Value = { PassValue S.Request };

    ghost view = { λ pass. pass_value pass.seat.table_id pass.seat.me.0 };

    ghost invariant = { λ pass. IsPassView pass.server pass.seat.me.0
        × (pass.seat.me.1 ≡ slots_of pass.seat.me.0.held) };
}

impl<S: Service> Pass<S> {
    ghost use Rattle.std.specs.Prelude.{◌≡◌, None};
    ghost use Rattle.sm_rule.specs.Passes.{HasLegalFront};

    /// Tells proofs that the history which a pass has seen is legal. It does nothing.
    pub fn soundness(&self)
        ensures { HasLegalFront self.now }
    {
        // This opens the value, whose invariant the proof cites.
        let _ = &self.server;
    }

    /// Returns the pass, which must hold nothing, as a note. The note keeps everything that the pass has seen, and
    /// takes no memory.
    pub fn into_note(self) -> Note<S>
        requires { self.held ≡ None }
        ensures { result ≡ self }
    {
        let Pass { seat, server: _ } = self;
        Note { seat }
    }

    /// Returns the server that the pass is admitted as; a pass without one is never admitted.
    pub fn server(&self) -> Option<ServerId>
        ensures { result ≡ self.now.server }
    {
        self.server
    }
}
