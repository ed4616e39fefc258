//! Notes of the history that the chair has seen.
ghost use Rattle.std.specs.Prelude.{◌≡◌, ◌≢◌, None};
ghost use Rattle.sm_ownership.specs.History.{NoneBy};
ghost use Rattle.sm_rule.specs.Passes.{HasLegalFront};
ghost use Rattle.sm_rule.specs.Views.{Begins};

use super::Control;
use sm_body::service::Service;
use sm_rule::{Board, Note};

impl<S: Service> Control<S> {
    /// Returns a note of all that the chair has seen, its changes among it. It can't be refused.
    pub fn note(&mut self, board: &Board<S>) -> Note<S>
        requires { self.old.chair.board ≡ board.now }
        ensures unchanged { self.new ≡ self.old }
        ensures board { result.board ≡ board.now }
        ensures held { result.held ≡ None }
        ensures number { (result.number ≢ 0) × NoneBy result.number result.seen }
        ensures seen { Begins self.old.chair.seen result.seen }
        ensures legal { HasLegalFront result }
    {
        board.chair_note(&mut self.chair)
    }
}
