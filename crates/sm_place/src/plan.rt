ghost use Rattle.std.specs.Prelude.{◌≡◌, Some, None, OnOk};
ghost use Rattle.sm_place.specs.Plans.{joined, no_plan, turn};

use sm_ranges::server_id::ServerId;
use sm_ranges::shard_id::ShardId;
use std::alloc::{AllocError, Global};
use std::marker::Model;

/// A shard and the server to which it goes.
#[derive(Clone, Copy, PartialEq, Eq, Drop)]
pub struct Move {
    /// The shard that moves.
    pub shard: ShardId,
    /// The server that will serve it.
    pub to: ServerId,
}

/// The moves of shards, and the shards that fit none of the plan's servers in their turn. Both lists are in the order
/// of the shards.
#[derive(Drop)]
pub struct Plan {
    moves: Vec<Move>,
    left: Vec<ShardId>,
}

impl Model for Plan {
    ghost use Rattle.sm_place.specs.Plans.{PlanView};

    ghost Value = { PlanView };

    ghost view = { λ p. record { moves = p.moves.items; left = p.left.items } };
}

impl Plan {
    /// Makes an empty plan.
    pub(crate) fn new(alloc: Global) -> Plan
        ensures { result ≡ no_plan }
    {
        Plan {
            moves: Vec::new(alloc),
            left: Vec::new(alloc),
        }
    }

    /// Returns the moves.
    pub fn moves(&self) -> &[Move]
        ensures { result.now ≡ self.now.moves }
    {
        &self.moves
    }

    /// Returns the shards that fit none of the plan's servers in their turn.
    pub fn left(&self) -> &[ShardId]
        ensures { result.now ≡ self.now.left }
    {
        &self.left
    }

    /// Adds the move of the shard to the server.
    pub(crate) fn add_move(&mut self, shard: ShardId, to: ServerId) -> Result<(), AllocError>
        ensures { OnOk result (self.new ≡ joined self.old (turn shard (Some to))) }
    {
        self.moves.push(Move { shard, to })?;
        Ok(())
    }

    /// Adds the shard to those that fit none of the plan's servers in their turn.
    pub(crate) fn add_left(&mut self, shard: ShardId) -> Result<(), AllocError>
        ensures { OnOk result (self.new ≡ joined self.old (turn shard None)) }
    {
        self.left.push(shard)?;
        Ok(())
    }
}
