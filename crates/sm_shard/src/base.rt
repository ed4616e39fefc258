ghost use Rattle.std.specs.Prelude.{◌≡◌, List, [], take, drop, IfOk, OnOk};
ghost use Rattle.sm_store.specs.declared.item.Item.{Item as ItemValue};
ghost use Rattle.sm_store.specs.Clients.{AreNext};
ghost use Rattle.sm_shard.specs.Bases.{base_of, cut, floor_in, part_count, parts_holding, put_in};
ghost use Rattle.sm_shard.specs.Replicas.{IsReplica};

use crate::base_part::{BasePart, PART_BYTES, PART_CLIENTS};
use crate::replica::{LastRequest, ReplayFault, Replica};
use crate::store_machine::StoreMachine;
use std::alloc::{AllocError, Global};
use std::collections::BTreeMap;

// The last requests, by client.
fn entries_of<R: Copy + Drop>(
    alloc: Global,
    lasts: &BTreeMap<u64, LastRequest<R>>,
) -> Result<Vec<(u64, LastRequest<R>)>, AllocError>
    ensures { IfOk result (λ entries. entries.items ≡ lasts.now.entries) }
{
    let mut entries = Vec::new(alloc);
    for (client, last) in lasts {
        entries.push((*client, *last))?;
    }
    Ok(entries)
}

// Returns the first elements, at most so many.
#[tactic(auto, using(std::proofs::lemmas::List::take_min))]
fn first_of<T>(items: &[T], most: usize) -> &[T]
    ensures { result.now ≡ take most items.now }
{
    let (first, _) = items.split_at(most.min(items.len()));
    first
}

// The elements after the first ones.
#[tactic(auto, using(std::proofs::lemmas::List::drop_min))]
fn rest_of<T>(items: &[T], most: usize) -> &[T]
    ensures { result.now ≡ drop most items.now }
{
    let (_, rest) = items.split_at(most.min(items.len()));
    rest
}

// The part with the first bytes and last requests.
fn first_part<R: Copy + Drop>(
    alloc: Global,
    floor: u64,
    state: &[u8],
    lasts: &[(u64, LastRequest<R>)],
) -> Result<BasePart<R>, AllocError>
    ensures { IfOk result (λ part. part
        ≡ record { state = take PART_BYTES state.now; lasts = take PART_CLIENTS lasts.now; floor = floor }) }
{
    let bytes = Vec::from_slice(alloc, first_of(state, PART_BYTES))?;
    let clients = Vec::from_slice(alloc, first_of(lasts, PART_CLIENTS))?;
    Ok(BasePart::new(bytes, clients, floor))
}

// Divides bytes and last requests into so many parts.
fn cut<R: Copy + Drop>(
    alloc: Global,
    floor: u64,
    count: usize,
    state: &[u8],
    lasts: &[(u64, LastRequest<R>)],
) -> Result<Vec<BasePart<R>>, AllocError>
    ensures { IfOk result (λ parts. parts.items ≡ cut floor count state.now lasts.now) }
{
    let mut parts = Vec::new(alloc);
    let mut state = state;
    let mut lasts = lasts;
    for _ in 0..count {
        let part = first_part(alloc, floor, state, lasts)?;
        parts.push(part)?;
        let more = rest_of(state, PART_BYTES);
        let others = rest_of(lasts, PART_CLIENTS);
        state = more;
        lasts = others;
    }
    Ok(parts)
}

// How many parts hold bytes and last requests.
fn part_count<R: Copy + Drop>(state: &[u8], lasts: &[(u64, LastRequest<R>)]) -> usize
    ensures { result ≡ part_count state.now lasts.now }
{
    (state.len() / PART_BYTES).max(lasts.len() / PART_CLIENTS) + 1
}

// The parts that hold bytes and last requests.
fn parts_holding<R: Copy + Drop>(
    alloc: Global,
    floor: u64,
    state: &[u8],
    lasts: &[(u64, LastRequest<R>)],
) -> Result<Vec<BasePart<R>>, AllocError>
    ensures { IfOk result (λ parts. parts.items ≡ parts_holding floor state.now lasts.now) }
{
    let count = part_count(state, lasts);
    cut(alloc, floor, count, state, lasts)
}

/// Returns the parts of the base that replaces a replica's requests, each with at most [`PART_BYTES`] bytes of the
/// machine and [`PART_CLIENTS`] clients.
pub fn base_of<Q: Drop, R: Copy + Drop, M: StoreMachine<Q, R>>(
    alloc: Global,
    replica: &Replica<M, R>,
) -> Result<Vec<BasePart<R>>, AllocError>
    ensures { IfOk result (λ parts. (items : List (ItemValue Q)) → IsReplica M.service items replica.now
        → parts.items ≡ base_of M.service items) }
{
    let state = replica.machine.save(alloc)?;
    let lasts = entries_of(alloc, &replica.lasts)?;
    parts_holding(alloc, replica.floor, &state, &lasts)
}

// Puts last requests into a table.
fn put_all<R: Copy + Drop>(
    lasts: &mut BTreeMap<u64, LastRequest<R>>,
    more: &[(u64, LastRequest<R>)],
) -> Result<(), ReplayFault>
    ensures { OnOk result (lasts.new.entries ≡ put_in lasts.old.entries more.now) }
{
    for (client, last) in more {
        lasts.insert(*client, *last)?;
    }
    Ok(())
}

// The number below which clients are forgotten, by the parts of a base.
fn floor_in<R: Copy + Drop>(parts: &[BasePart<R>]) -> u64
    ensures { result ≡ floor_in parts.now }
{
    match parts {
        [part, ..] => part.floor(),
        [] => 0,
    }
}

/// Returns the replica of the requests that a base of these parts replaces, or why the parts aren't a base.
pub fn replica_of<Q: Drop, R: Copy + Drop, M: StoreMachine<Q, R>>(
    alloc: Global,
    parts: &[BasePart<R>],
) -> Result<Replica<M, R>, ReplayFault>
    ensures { (items : List (ItemValue Q)) → AreNext [] items → parts.now ≡ base_of M.service items
        → IfOk result (λ replica. IsReplica M.service items replica) }
{
    let mut state = Vec::new(alloc);
    let mut lasts = BTreeMap::new(alloc);
    for part in parts {
        state.extend_from_slice(part.state())?;
        put_all(&mut lasts, part.lasts())?;
    }
    match M::load(alloc, &state)? {
        Some(machine) => Ok(Replica {
            machine,
            lasts,
            floor: floor_in(parts),
        }),
        None => Err(ReplayFault::Unreadable),
    }
}
