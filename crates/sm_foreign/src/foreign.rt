ghost use Rattle.std.specs.Prelude.{◌≡◌, IfOk};
ghost use Rattle.sm_foreign.specs.Chiefs.{foreign_of};

use sm_body::service::{ApplyFault, Service};
use sm_ranges::server_id::ServerId;
use std::alloc::{AllocError, Global};

/// A body that another program owns, by the number under which that program knows it. It answers no request here. The
/// number takes the place of the limit that a board keeps for each shard, so contracts of the board tell it.
#[derive(Clone, Copy, Drop)]
pub struct Foreign {
    pub number: u64,
}

impl Foreign {
    /// Returns the bodies with these numbers. It fails only if memory is refused.
    pub fn all(alloc: Global, numbers: &[u64]) -> Result<Vec<Foreign>, AllocError>
        ensures { IfOk result (λ bodies. bodies.items ≡ foreign_of numbers.now) }
    {
        numbers
            .iter()
            .map(|number| Foreign { number: *number })
            .collect(alloc)
    }
}

impl Service for Foreign {
    ghost use Rattle.std.specs.Prelude.{[], ℕ};

    type Request = ();

    type Reply = ();

    ghost State = { ℕ };

    ghost initial = { 0 };

    ghost next = { λ state request. state };

    ghost answer = { λ state request. tt };

    ghost key_of = { λ request. [] };

    ghost base = { λ body. 0 };

    ghost before = { λ body. 0 };

    ghost requests = { λ body. [] };

    ghost limit = { λ body. body.number };

    fn key(_: &()) -> &[u8] {
        &[]
    }

    fn kept(&self) -> usize {
        0
    }

    fn first(&self) -> u64 {
        0
    }

    fn apply(&mut self, request: ()) -> Result<(), ((), ApplyFault)> {
        if self.number == 0 {
            Err((request, ApplyFault::KeptFull))
        } else {
            Err((request, ApplyFault::NoMemory))
        }
    }

    fn settle(&mut self, _: ServerId) {}

    fn checkpoint(&mut self) -> Result<(), AllocError> {
        Ok(())
    }
}
