ghost use Rattle.std.specs.Prelude.{◌≡◌, ◌<◌, IfOk, IfSome, None, Some, replicate, slice_set};
ghost use Rattle.sm_rule.specs.Views.{Begins};
ghost use Rattle.sm_cluster.specs.Holding.{AreEndedIn, AreHoldsOn, HasEndedIn, HoldsShard, hold_at};

use crate::hold::Hold;
use sm_body::service::Service;
use sm_ranges::shard_id::ShardId;
use sm_rule::board::Board;
use sm_rule::pass::Pass;
use std::alloc::{AllocError, Global};
use std::marker::Model;

/// The admissions without a request of all shards, at most one each. They must be ended: they can't be dropped.
/// Contracts see the pass of each.
pub(crate) struct Holds<S: Service> {
    slots: Vec<Option<Hold<S>>>,
}

impl<S: Service> Model for Holds<S> {
    ghost use Rattle.std.specs.Prelude.{List, Option};
    ghost use Rattle.sm_rule.specs.Passes.{PassValue};

    ghost Value = { List (Option (PassValue S.Request)) };

    ghost view = { λ holds. holds.slots.items };
}

impl<S: Service> Holds<S> {
    /// Makes an empty list, with room for one hold of each shard of the board.
    pub(crate) fn new(alloc: Global, board: &Board<S>) -> Result<Holds<S>, AllocError>
        ensures none { IfOk result (λ holds. holds ≡ replicate board.now.limits.count None) }
        ensures theirs { IfOk result (λ holds. AreHoldsOn board.now holds) }
    {
        let count = board.count();
        let mut slots = Vec::with_capacity(alloc, count as usize)?;
        for _ in 0..count {
            slots.push_reserved(None);
        }
        Ok(Holds { slots })
    }

    /// Puts the shard's hold in its place.
    pub(crate) fn put(&mut self, board: &Board<S>, k: ShardId, hold: Hold<S>)
        requires theirs { AreHoldsOn board.now self.old }
        requires board { hold.board ≡ board.now }
        requires shard { k < board.now.limits.count }
        requires holds { HoldsShard hold k }
        ensures put { self.new ≡ slice_set self.old k (Some hold) }
        ensures theirs { AreHoldsOn board.now self.new }
    {
        // No shard is admitted twice, so nothing lies there; no clause of the board says so.
        if let Some(other) = self.slots[k.index()].replace(hold) {
            other.end(board);
        }
    }

    /// Takes the shard's hold out of its place, if there is one.
    pub(crate) fn take(&mut self, board: &Board<S>, k: ShardId) -> Option<Hold<S>>
        requires theirs { AreHoldsOn board.now self.old }
        requires shard { k < board.now.limits.count }
        ensures taken { result ≡ hold_at self.old k }
        ensures held { IfSome result (λ hold. (hold.board ≡ board.now) × HoldsShard hold k) }
        ensures left { self.new ≡ slice_set self.old k None }
        ensures theirs { AreHoldsOn board.now self.new }
    {
        self.slots[k.index()].take()
    }

    /// Ends all without a request, and tells a pass everything that each then has seen.
    pub(crate) fn end(self, board: &Board<S>, closer: &mut Pass<S>)
        requires theirs { AreHoldsOn board.now self }
        requires board { closer.old.board ≡ board.now }
        ensures board { closer.new.board ≡ closer.old.board }
        ensures held { closer.new.held ≡ closer.old.held }
        ensures seen { Begins closer.old.seen closer.new.seen }
        ensures ended { AreEndedIn closer.new.seen self }
    {
        let Holds { mut slots } = self;
        while let Some(slot) = slots.pop() {
            let_go(slot, board, closer);
        }
        slots.destroy_empty();
    }
}

// Ends the hold at a place, if there is one, and tells a pass everything that it then has seen.
fn let_go<S: Service>(slot: Option<Hold<S>>, board: &Board<S>, closer: &mut Pass<S>)
    requires hold { IfSome slot (λ hold. hold.board ≡ board.now) }
    requires board { closer.old.board ≡ board.now }
    ensures board { closer.new.board ≡ closer.old.board }
    ensures held { closer.new.held ≡ closer.old.held }
    ensures seen { Begins closer.old.seen closer.new.seen }
    ensures ended { IfSome slot (HasEndedIn closer.new.seen) }
{
    match slot {
        Some(hold) => board.meet(closer, hold.end(board)),
        None => {}
    }
}
