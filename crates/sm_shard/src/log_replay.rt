ghost use Rattle.std.specs.Prelude.{◌≡◌, ◌==◌, ◌<◌, ◌+◌, ◌++◌, List, [], length, map, IfOk, OnOk};
ghost use Rattle.sm_store.specs.declared.item.Item.{Item as ItemValue};
ghost use Rattle.sm_store.specs.Clients.{AreNext};
ghost use Rattle.sm_store.specs.Whole.{all_items};
ghost use Rattle.sm_shard.specs.Bases.{base_of};
ghost use Rattle.sm_shard.specs.Replicas.{IsReplica};

use crate::base::replica_of;
use crate::base_part::BasePart;
use crate::replica::{ReplayFault, Replica, empty, make_all};
use crate::store_machine::StoreMachine;
use sm_store::head::Head;
use sm_store::item::Item;
use std::alloc::Global;

// Returns the replica of the requests that the base named by the head replaces, or of no requests.
fn based<Q: Drop, R: Copy + Drop, M: StoreMachine<Q, R>>(
    alloc: Global,
    head: &Head,
    parts: &[BasePart<R>],
) -> Result<Replica<M, R>, ReplayFault>
    ensures replica { (first : List (ItemValue Q)) → AreNext [] first → (head.now.base ≡ 0 → first ≡ [])
        → (0 < head.now.base → parts.now ≡ base_of M.service first)
        → IfOk result (λ replica. IsReplica M.service first replica) }
    ensures parts { OnOk result (0 < head.now.base → length parts.now ≡ head.now.parts) }
{
    if head.base == 0 {
        return Ok(empty::<Q, R, M>(alloc));
    }
    if parts.len() as u64 != head.parts {
        return Err(ReplayFault::Missing);
    }
    replica_of::<Q, R, M>(alloc, parts)
}

// Makes the requests of batches, one after the other.
fn make_batches<Q: Drop, R: Copy + Drop, M: StoreMachine<Q, R>>(
    alloc: Global,
    replica: &mut Replica<M, R>,
    batches: &[Vec<Item<Q>>],
) -> Result<(), ReplayFault>
    ensures { OnOk result ((before : List (ItemValue Q)) → IsReplica M.service before replica.old
        → IsReplica M.service (before ++ all_items (map (λ batch. batch.items) batches.now)) replica.new) }
{
    for batch in batches {
        make_all(alloc, replica, batch)?;
    }
    Ok(())
}

// Returns whether so many batches after the first ones are as many as all.
fn are_all(first: u64, batches: usize, all: u64) -> bool
    ensures { result ≡ (first + batches == all) }
{
    match first.checked_add(batches as u64) {
        Some(count) => count == all,
        None => false,
    }
}

/// Returns the replica of a shard's log, from the head, the parts of the base that it names, and the batches after it.
/// Returns `Missing` if those aren't as many as the head says; then the log must be read again.
pub fn replay<Q: Drop, R: Copy + Drop, M: StoreMachine<Q, R>>(
    alloc: Global,
    head: &Head,
    parts: &[BasePart<R>],
    batches: &[Vec<Item<Q>>],
) -> Result<Replica<M, R>, ReplayFault>
    ensures replica { (first : List (ItemValue Q)) → AreNext [] first → (head.now.base ≡ 0 → first ≡ [])
        → (0 < head.now.base → parts.now ≡ base_of M.service first) → IfOk result (λ replica.
        IsReplica M.service (first ++ all_items (map (λ batch. batch.items) batches.now)) replica) }
    ensures parts { OnOk result (0 < head.now.base → length parts.now ≡ head.now.parts) }
    ensures batches { OnOk result (head.now.base + length batches.now ≡ head.now.batches) }
{
    if !are_all(head.base, batches.len(), head.batches) {
        return Err(ReplayFault::Missing);
    }
    let mut replica = based::<Q, R, M>(alloc, head, parts)?;
    make_batches(alloc, &mut replica, batches)?;
    Ok(replica)
}

/// Makes the replica of the first batches, so many, catch up with the head by the batches in between. Returns `Missing`
/// if those aren't as many as the head says. After an error nothing is said about the replica.
pub fn catch_up<Q: Drop, R: Copy + Drop, M: StoreMachine<Q, R>>(
    alloc: Global,
    replica: &mut Replica<M, R>,
    first: u64,
    head: &Head,
    batches: &[Vec<Item<Q>>],
) -> Result<(), ReplayFault>
    ensures replica { OnOk result ((before : List (ItemValue Q)) → IsReplica M.service before replica.old
        → IsReplica M.service (before ++ all_items (map (λ batch. batch.items) batches.now)) replica.new) }
    ensures batches { OnOk result (first + length batches.now ≡ head.now.batches) }
{
    if !are_all(first, batches.len(), head.batches) {
        return Err(ReplayFault::Missing);
    }
    make_batches(alloc, replica, batches)
}
