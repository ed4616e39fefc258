ghost use Rattle.std.specs.Prelude.{◌≡◌, ◌<◌, if◌then◌else◌, None, IfOk, is_some, length, replicate, slice_index_or};
ghost use Rattle.std.specs.Prelude.{slice_set};
ghost use Rattle.sm_table.specs.Hands.{is_alone, work_of};

use sm_ranges::server_id::ServerId;
use sm_ranges::shard_id::ShardId;
use std::alloc::{AllocError, Global};
use std::marker::Model;

/// The hand of the server that is admitted to a shard: a request, or none if the server only holds the shard.
#[derive(Drop)]
pub struct InHand<Q: Drop> {
    pub server: ServerId,
    pub work: Option<Work<Q>>,
}

/// A request that a server has begun, and its number.
#[derive(Drop)]
pub struct Work<Q: Drop> {
    pub number: u64,
    pub request: Q,
}

/// By shard, the hand of the server that is admitted to it.
#[derive(Drop)]
pub struct Hands<Q: Drop> {
    hands: Vec<Option<InHand<Q>>>,
}

impl<Q: Drop> Model for Hands<Q> {
    ghost use Rattle.std.specs.Prelude.{Option, List};
    ghost use Rattle.sm_table.specs.declared.hands.InHand.{InHand as InHandOf};

    ghost Value = { List (Option (InHandOf Q)) };

    ghost view = { λ all. all.hands.items };
}

impl<Q: Drop> Hands<Q> {
    /// Returns the hands of this many shards that no server has in hand.
    pub fn none(alloc: Global, count: usize) -> Result<Hands<Q>, AllocError>
        ensures { IfOk result (λ hands. hands ≡ replicate count None) }
    {
        let mut hands = Vec::with_capacity(alloc, count)?;
        for _ in 0..count {
            hands.push(None)?;
        }
        Ok(Hands { hands })
    }

    /// Puts the shard in hand.
    pub fn put(&mut self, k: ShardId, hand: InHand<Q>)
        requires { k < length self.old }
        ensures { self.new ≡ slice_set self.old k (Some hand) }
    {
        self.hands[k.index()] = Some(hand);
    }

    /// Takes the request that a server has begun on the shard, and that server; the shard's hand is empty then. If no
    /// server has begun a request, nothing changes.
    pub fn take_work(&mut self, k: ShardId) -> Option<(ServerId, Work<Q>)>
        ensures work { result ≡ work_of (slice_index_or self.old k None) }
        ensures hands { self.new ≡ (if is_some result then slice_set self.old k None else self.old) }
    {
        if k.index() >= self.hands.len() {
            return None;
        }
        let hand = &mut self.hands[k.index()];
        let InHand { server, work } = hand.take()?;
        let Some(work) = work else {
            *hand = Some(InHand { server, work: None });
            return None;
        };
        Some((server, work))
    }

    /// Lets the shard go if a server holds it without a request, and returns whether one did.
    pub fn let_go(&mut self, k: ShardId) -> bool
        requires { k < length self.old }
        ensures alone { result ≡ is_alone (slice_index_or self.old k None) }
        ensures hands { self.new ≡ (if result then slice_set self.old k None else self.old) }
    {
        let hand = &mut self.hands[k.index()];
        let is_alone = matches!(hand, Some(InHand { work: None, .. }));
        if is_alone {
            *hand = None;
        }
        is_alone
    }
}
