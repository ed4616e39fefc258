//! How one caller tells another how much it has seen.
ghost use Rattle.std.specs.Prelude.{◌≡◌, ◌≢◌, ◌≤◌, [], None, Some};
ghost use Rattle.sm_ownership.specs.History.{NoneBy};
ghost use Rattle.sm_rule.specs.declared.view.Parent.{Parent};
ghost use Rattle.sm_rule.specs.declared.view.Stage.TheVariants.{Acting};
ghost use Rattle.sm_rule.specs.Passes.{HasLegalFront, PassLooks};
ghost use Rattle.sm_rule.specs.Rule.{ViewHolds};
ghost use Rattle.sm_rule.specs.Steps.{IsHalf};
ghost use Rattle.sm_rule.specs.Views.{Begins, IsMet, Looks, cutting, informed, parent_of};

use super::Board;
use crate::chair::Chair;
use crate::note::Note;
use crate::pass::Pass;
use crate::rule::{Enroll, Halves, Meet};
use crate::view::View;
use atomic_table::Seat;
use sm_body::service::Service;

impl<S: Service> Board<S> {
    /// Returns a new pass with another number and the same server, which has seen all that this one has. It can't be
    /// refused.
    pub fn split(&self, pass: &mut Pass<S>) -> Pass<S>
        requires board { pass.old.board ≡ self.now }
        ensures unchanged { pass.new ≡ pass.old }
        ensures board { result.board ≡ self.now }
        ensures server { result.server ≡ pass.old.server }
        ensures held { result.held ≡ None }
        ensures number { (result.number ≢ 0) × (result.number ≢ pass.old.number) × NoneBy result.number result.seen }
        ensures seen { Begins pass.old.seen result.seen }
        ensures legal { HasLegalFront result }
    {
        let seat = self.cut(&mut pass.seat);
        Pass {
            seat,
            server: pass.server,
        }
    }

    /// Returns a note of everything that the pass has seen: a note that is split from the pass. It can't be refused.
    pub fn note(&self, pass: &mut Pass<S>) -> Note<S>
        requires board { pass.old.board ≡ self.now }
        ensures unchanged { pass.new ≡ pass.old }
        ensures board { result.board ≡ self.now }
        ensures server { result.server ≡ pass.old.server }
        ensures held { result.held ≡ None }
        ensures number { (result.number ≢ 0) × (result.number ≢ pass.old.number) × NoneBy result.number result.seen }
        ensures seen { Begins pass.old.seen result.seen }
        ensures legal { HasLegalFront result }
    {
        self.split(pass).into_note()
    }

    /// Returns a note of all that the chair has seen. It can't be refused.
    pub fn chair_note(&self, chair: &mut Chair<S>) -> Note<S>
        requires board { chair.old.board ≡ self.now }
        ensures unchanged { chair.new ≡ chair.old }
        ensures board { result.board ≡ self.now }
        ensures held { result.held ≡ None }
        ensures number { (result.number ≢ 0) × NoneBy result.number result.seen }
        ensures seen { Begins chair.old.seen result.seen }
        ensures legal { HasLegalFront result }
    {
        Note {
            seat: self.cut(&mut chair.seat),
        }
    }

    /// Tells the pass everything that the note had seen. The pass has then seen that, too, and no more entries of the
    /// note's number. It can't be refused.
    pub fn meet(&self, pass: &mut Pass<S>, note: Note<S>)
        requires board { pass.old.board ≡ self.now }
        requires note { note.board ≡ self.now }
        ensures looks { PassLooks pass.old pass.new }
        ensures met { IsMet note.number note.seen pass.new.seen }
    {
        let Note { seat } = note;
        self.take_in(&mut pass.seat, seat);
    }

    // A new seat with a number of its own, which has seen all that this one has, and names this one as its parent.
    pub(super) fn cut(
        &self,
        seat: &mut Seat<Option<S>, View<S::Request>>,
    ) -> Seat<Option<S>, View<S::Request>>
        requires table { seat.old.table_id ≡ self.now.id }
        requires live { seat.old.me.0.stage ≡ Acting }
        ensures table { seat.new.table_id ≡ seat.old.table_id }
        ensures cutting { seat.new.me ≡ (cutting seat.old.me.0, seat.old.me.1) }
        ensures new_table { result.table_id ≡ self.now.id }
        ensures slots { result.me.1 ≡ [] }
        ensures half { IsHalf seat.old.me.0 (Some (parent_of seat.old.me.0)) result.me.0 }
    {
        let mut new = self.table.shared.split_seat::<Halves>(seat);
        let _ = self.table.shared.load::<Enroll>(&mut new, 0);
        new
    }

    // Takes in another seat, and looks. If that one was cut from this one, no fewer were cut from this one since.
    pub(super) fn take_in(
        &self,
        seat: &mut Seat<Option<S>, View<S::Request>>,
        other: Seat<Option<S>, View<S::Request>>,
    )
        requires table { seat.old.table_id ≡ self.now.id }
        requires other_table { other.table_id ≡ self.now.id }
        requires live { seat.old.me.0.stage ≡ Acting }
        requires other_live { other.me.0.stage ≡ Acting }
        requires other_slots { other.me.1 ≡ [] }
        ensures table { seat.new.table_id ≡ seat.old.table_id }
        ensures slots { seat.new.me.1 ≡ seat.old.me.1 }
        ensures seen { Looks (informed seat.old.me.0 other.me.0) seat.new.me.0 }
        ensures met { IsMet other.me.0.number other.me.0.seen seat.new.me.0.seen }
        ensures holds { ViewHolds seat.new.me.0 }
        ensures cuts { (parent : Parent) → other.me.0.parent ≡ Some parent → parent.number ≡ seat.old.me.0.number
            → parent.cuts ≤ seat.old.me.0.cuts }
    {
        self.table.shared.join_seat::<Halves>(seat, other);
        let _ = self.table.shared.load::<Meet>(seat, 0);
    }
}
