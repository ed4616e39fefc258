use crate::view::View;
use atomic_table::Seat;
use sm_body::service::Service;
use sm_ownership::record::Record;
use sm_ranges::shard_id::ShardId;
use sm_ranges::stand::Stand;
use std::marker::Model;

/// The control's own pass on a board. Only the chair changes stands. Its number is 0.
#[derive(Drop)]
pub struct Chair<S: Service> {
    pub(crate) seat: Seat<Option<S>, View<S::Request>>,
    pub(crate) stands: Vec<Stand>,
    // Room for the result of the board's end.
    pub(crate) room: Vec<(Record, Option<S>)>,
}

impl<S: Service> Model for Chair<S> {
    ghost use Rattle.std.specs.Prelude.{◌≡◌, ◌≤◌, [], vec_capacity};
    ghost use Rattle.sm_rule.specs.Changes.{ChairValue, IsChairView, chair_value};

    ghost Value = { ChairValue S.Request };

    ghost view = { λ chair. chair_value chair.seat.table_id chair.seat.me.0 };

    ghost invariant = { λ chair. IsChairView chair.stands.items chair.seat.me.0 × (chair.seat.me.1 ≡ [])
        × (chair.room.items ≡ []) × (chair.seat.me.0.limits.count ≤ vec_capacity chair.room) };
}

impl<S: Service> Chair<S> {
    ghost use Rattle.std.specs.Prelude.{◌≡◌, ◌<◌, ◌++◌, List};
    ghost use Rattle.sm_ownership.specs.declared.entry.Entry.{Entry};
    ghost use Rattle.sm_ownership.specs.History.{IsLegal, NoneBy};
    ghost use Rattle.sm_rule.specs.Changes.{record_at_chair};
    ghost use Rattle.sm_rule.specs.Views.{record_in};

    /// Tells proofs that the history which a chair has seen is legal. It does nothing.
    pub fn soundness(&self)
        ensures { IsLegal self.now.board.limits.count self.now.board.limits.ceiling self.now.seen }
    {
        // This opens the value, whose invariant the proof cites.
        let _ = &self.room;
    }

    /// Returns the shard's stand, which nobody else changes: it is the shard's stand in every legal history that
    /// extends the one the chair has seen by entries of passes.
    pub fn stand(&self, k: ShardId) -> Stand
        requires { k < self.now.board.limits.count }
        ensures seen { result ≡ (record_at_chair self.now k).stand }
        ensures stays { (later : List (Entry S.Request))
            → let history = self.now.seen ++ later in
            IsLegal self.now.board.limits.count self.now.board.limits.ceiling history → NoneBy 0 later
            → result ≡ (record_in self.now.board.limits history k).stand }
    {
        self.kept_stand(k)
    }

    fn kept_stand(&self, k: ShardId) -> Stand
        requires { k < self.now.board.limits.count }
        ensures { result ≡ (record_at_chair self.now k).stand }
    {
        self.stands[k.index()]
    }
}
