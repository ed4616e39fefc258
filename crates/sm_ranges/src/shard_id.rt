ghost use Rattle.std.specs.Prelude.{◌≡◌, ◌↔◌, IsSome, IfSome};

use crate::limits::MAX_SHARD;
use std::fmt;
use std::marker::Model;

/// The number of a shard, 0 to 4,095.
#[derive(Clone, Copy, Debug, PartialEq, Eq, PartialOrd, Ord, Drop)]
pub struct ShardId {
    number: u16,
}

impl Model for ShardId {
    ghost use Rattle.std.specs.Prelude.{ℕ};
    ghost use Rattle.sm_ranges.specs.ShardId.{IsShard};

    ghost Value = { ℕ };

    ghost view = { λ shard. shard.number };

    ghost invariant = { λ shard. IsShard shard.number };

    ghost inverse = { λ number. record { number = number } };
}

impl ShardId {
    ghost use Rattle.sm_ranges.specs.ShardId.{IsShard};

    /// Returns the shard with this number, if it is at most 4,095.
    pub fn new(number: u16) -> Option<ShardId>
        ensures known { IsSome result ↔ IsShard number }
        ensures value { IfSome result (λ shard. shard ≡ number) }
    {
        if number <= MAX_SHARD {
            Some(ShardId { number })
        } else {
            None
        }
    }

    /// Returns the number of the shard.
    pub fn number(self) -> u16
        ensures value { result ≡ self }
        ensures in_range { IsShard self }
    {
        self.number
    }

    /// Returns the shard's place in a list with an element for each shard.
    pub fn index(self) -> usize
        ensures value { result ≡ self }
        ensures in_range { IsShard self }
    {
        usize::from(self.number)
    }
}

impl fmt::Display for ShardId {
    fn fmt<W: fmt::Write>(&self, f: &mut fmt::Formatter<W>) -> fmt::Result {
        write!(f, "{}", self.number)
    }
}
