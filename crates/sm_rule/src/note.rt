use crate::view::View;
use atomic_table::Seat;
use sm_body::service::Service;
use std::marker::Model;

/// A note (a causality token), by which one caller tells another how much it has seen: a pass that holds nothing and
/// acts no more. It has no bytes.
#[derive(Drop)]
pub struct Note<S: Service> {
    pub(crate) seat: Seat<Option<S>, View<S::Request>>,
}

impl<S: Service> Model for Note<S> {
    ghost use Rattle.std.specs.Prelude.{◌≡◌, []};
    ghost use Rattle.sm_rule.specs.Passes.{IsNoteView, PassValue, pass_value};

    ghost Value = { PassValue S.Request };

    ghost view = { λ note. pass_value note.seat.table_id note.seat.me.0 };

    ghost invariant = { λ note. IsNoteView note.seat.me.0 × (note.seat.me.1 ≡ []) };
}

impl<S: Service> Note<S> {
    ghost use Rattle.sm_rule.specs.Passes.{HasLegalFront};

    /// Tells proofs that the history in a note is legal. It does nothing.
    pub fn soundness(&self)
        ensures { HasLegalFront self.now }
    {
        // This opens the value, whose invariant the proof cites.
        let _ = &self.seat;
    }
}
