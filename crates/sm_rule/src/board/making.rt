//! Making a board.
ghost use Rattle.std.specs.Prelude.{◌≡◌, ◌<◌, ◌≤◌, ◌^◌, All, IfOk, IfSome, IfNone, IsOkUnless, [], Some, length, map};
ghost use Rattle.std.specs.Prelude.{replicate};
ghost use Rattle.sm_ranges.specs.declared.limits.TheConstants.{MAX_SHARDS};
ghost use Rattle.sm_rule.specs.Boards.{make_fault};

use super::Board;
use crate::chair::Chair;
use crate::make_fault::MakeFault;
use crate::origin::Origin;
use atomic_table::Table;
use sm_body::service::Service;
use sm_ownership::record::MAX_GENERATION;
use sm_ranges::limits::MAX_SHARDS;
use sm_ranges::stand::Stand;
use std::alloc::{AllocError, Global};
use std::snapshot::Snapshot;

impl<S: Service> Board<S> {
    /// Makes a board with a vacant shard for each body (1 to 4,096 bodies), and its chair. The bodies must not have
    /// applied anything yet. Generations stay at or below the ceiling (3 to 2^36 - 1). On a fault returns the first one
    /// that applies, and drops the bodies; `NoMemory` comes only if no other fault applies. Each shard has the limit of
    /// the body at its place in the list.
    pub fn make(
        alloc: Global,
        bodies: Vec<S>,
        ceiling: u64,
    ) -> Result<(Board<S>, Chair<S>), MakeFault>
        requires initial { All (λ body. S.base body ≡ S.initial) bodies.items }
        requires before { All (λ body. S.before body ≡ 0) bodies.items }
        requires empty { All (λ body. S.requests body ≡ []) bodies.items }
        ensures count { IfOk result (λ made. made.0.limits.count ≡ length bodies.items) }
        ensures ceiling { IfOk result (λ made. made.0.limits.ceiling ≡ ceiling) }
        ensures bodies { IfOk result (λ made. made.0.limits.bodies ≡ map S.limit bodies.items) }
        ensures chair { IfOk result (λ made. made.1 ≡ record { board = made.0; seen = [] }) }
        ensures fault { IfSome (make_fault (length bodies.items) ceiling) (λ fault. result ≡ Err fault) }
        ensures no_fault { IfNone (make_fault (length bodies.items) ceiling) (IsOkUnless result MakeFault.NoMemory) }
    {
        if let Some(fault) = first_fault(bodies.len(), ceiling) {
            return Err(fault);
        }
        match Board::made(alloc, bodies, ceiling) {
            Ok(made) => Ok(made),
            Err(_) => Err(MakeFault::NoMemory),
        }
    }

    // Makes the board and its chair. The sizes must have no fault.
    fn made(alloc: Global, bodies: Vec<S>, ceiling: u64) -> Result<(Board<S>, Chair<S>), AllocError>
        requires initial { All (λ body. S.base body ≡ S.initial) bodies.items }
        requires before { All (λ body. S.before body ≡ 0) bodies.items }
        requires empty { All (λ body. S.requests body ≡ []) bodies.items }
        requires count { (1 ≤ length bodies.items) × (length bodies.items ≤ MAX_SHARDS) }
        requires ceiling { ceiling < 2 ^ 36 }
        ensures count { IfOk result (λ made. made.0.limits.count ≡ length bodies.items) }
        ensures ceiling { IfOk result (λ made. made.0.limits.ceiling ≡ ceiling) }
        ensures bodies { IfOk result (λ made. made.0.limits.bodies ≡ map S.limit bodies.items) }
        ensures chair { IfOk result (λ made. made.1 ≡ record { board = made.0; seen = [] }) }
    {
        let count = bodies.len();
        let shards = count as u64;
        let origin = Origin {
            count: shards,
            ceiling,
            bodies: Snapshot::of(&bodies),
        };
        let stands = vec![in alloc; Stand::Vacant; count]?;
        let room = Vec::with_capacity(alloc, count)?;
        let words = zeros(alloc, count)?;
        let slots = homes(alloc, bodies)?;
        let Ok((table, seat)) = Table::new(alloc, words.as_slice(), slots, &origin) else {
            return Err(AllocError);
        };
        let board = Board {
            table,
            count: shards,
            ceiling,
        };
        Ok((board, Chair { seat, stands, room }))
    }
}

// Returns the first reason, other than a lack of memory, for which there is no board of so many shards below this
// ceiling.
fn first_fault(count: usize, ceiling: u64) -> Option<MakeFault>
    ensures fault { result ≡ make_fault count ceiling }
    ensures sizes { IfNone result ((1 ≤ count) × (count ≤ MAX_SHARDS) × (ceiling < 2 ^ 36)) }
{
    if count == 0 {
        return Some(MakeFault::NoShard);
    }
    if count > MAX_SHARDS {
        return Some(MakeFault::TooMany);
    }
    if ceiling < 3 || ceiling > MAX_GENERATION {
        return Some(MakeFault::BadCeiling);
    }
    None
}

fn zeros(alloc: Global, count: usize) -> Result<Vec<u64>, AllocError>
    ensures { IfOk result (λ words. words.items ≡ replicate count 0) }
{
    Ok(vec![in alloc; 0; count]?)
}

// The bodies, each in a slot of its own.
fn homes<S: Drop>(alloc: Global, bodies: Vec<S>) -> Result<Vec<Option<S>>, AllocError>
    ensures { IfOk result (λ slots. slots.items ≡ map Some bodies.items) }
{
    bodies.into_iter().map(Some).collect(alloc)
}
