ghost use Rattle.std.specs.Prelude.{◌≡◌, ◌≤◌, ◌++◌, List, [], ◌∷◌, map, max, IfNone, IfOk, IfSome, OnOk};
ghost use Rattle.std.specs.BTreeMap.{get, insert_entry};
ghost use Rattle.std.specs.Ordering.{nat_cmp};
ghost use Rattle.sm_store.specs.declared.item.Item.{Item as ItemValue};
ghost use Rattle.sm_store.specs.Clients.{floor_of, last_of, AreNext, ComesNext, reply_in, state_after};
ghost use Rattle.sm_shard.specs.Bases.{kept_from};
ghost use Rattle.sm_shard.specs.Replicas.{IsReplica, last_number, read_of, replies_of, told_read};

use crate::store_machine::{ReadAnswer, StoreMachine};
use sm_store::item::Item;
use std::alloc::{AllocError, AllocFailed, Global};
use std::collections::BTreeMap;
use thiserror::Error;

/// Why a shard's requests can't be followed.
#[derive(Clone, Copy, Debug, PartialEq, Eq, Drop, Error)]
pub enum ReplayFault {
    /// Memory was refused.
    #[error("out of memory")]
    Memory,
    /// The number of a request isn't above those of its client's earlier requests, or the client was forgotten.
    #[error("a request's number isn't above those of its client, or the client is forgotten")]
    OutOfOrder,
    /// There are as many batches as a head can count.
    #[error("there are as many batches as a head can count")]
    TooMany,
    /// A batch, or a part of the base, is missing. The log must be read again.
    #[error("a batch, or a part of the base, isn't there")]
    Missing,
    /// The bytes of a base don't encode a machine.
    #[error("the bytes of a base stand for no machine")]
    Unreadable,
    /// The store doesn't have so many shards.
    #[error("there is no such shard")]
    UnknownShard,
}

impl From<AllocError> for ReplayFault {
    ghost use Rattle.sm_shard.specs.declared.replica.ReplayFault.TheVariants.{Memory};

    ghost from_gives = { λ _ e. e ≡ Memory };

    fn from(_: AllocError) -> ReplayFault {
        ReplayFault::Memory
    }
}

/// A client's last request: its number and its reply.
#[derive(Clone, Copy, Drop)]
pub struct LastRequest<R> {
    pub number: u64,
    pub reply: R,
}

/// The reply to a client's request.
#[derive(Clone, Copy, Drop)]
pub struct MadeReply<R> {
    pub client: u64,
    pub number: u64,
    pub reply: R,
}

/// The answer to a client's request that only reads. There is none if the request changes something.
#[derive(Drop)]
pub struct ReadReply<R> {
    pub client: u64,
    pub number: u64,
    pub answer: Option<ReadAnswer<R>>,
}

impl<T: Drop> From<AllocFailed<T>> for ReplayFault {
    ghost use Rattle.sm_shard.specs.declared.replica.ReplayFault.TheVariants.{Memory};

    ghost from_gives = { λ _ e. e ≡ Memory };

    fn from(_: AllocFailed<T>) -> ReplayFault {
        ReplayFault::Memory
    }
}

/// The machine after a shard's requests, the last request of each client, and the number below which clients are
/// forgotten.
#[derive(Drop)]
pub struct Replica<M, R> {
    pub machine: M,
    pub lasts: BTreeMap<u64, LastRequest<R>>,
    pub floor: u64,
}

/// Returns the replica of no requests.
pub fn empty<Q: Drop, R: Copy + Drop, M: StoreMachine<Q, R>>(alloc: Global) -> Replica<M, R>
    ensures { IsReplica M.service [] result }
{
    Replica {
        machine: M::new(alloc),
        lasts: BTreeMap::new(alloc),
        floor: 0,
    }
}

// The client's last request in the table, if it has one.
fn found_in<R: Copy + Drop>(
    lasts: &BTreeMap<u64, LastRequest<R>>,
    client: u64,
) -> Option<LastRequest<R>>
    ensures { result ≡ get nat_cmp lasts.now client }
{
    lasts.get(&client).copied()
}

/// Returns the client's last request, if it has one.
pub fn last_request<Q: Drop, R: Copy + Drop, M: StoreMachine<Q, R>>(
    replica: &Replica<M, R>,
    client: u64,
) -> Option<LastRequest<R>>
    ensures exact { result ≡ get nat_cmp replica.now.lasts client }
    ensures some { IfSome result (λ last. (before : List (ItemValue Q)) → IsReplica M.service before replica.now
        → floor_of before ≤ client → (last_of client before ≡ last.number)
        × (reply_in M.service M.service.start before client last.number ≡ Some last.reply)) }
    ensures none { IfNone result ((before : List (ItemValue Q)) → IsReplica M.service before replica.now
        → floor_of before ≤ client → last_of client before ≡ 0) }
{
    let last = found_in(&replica.lasts, client);
    last
}

// Returns the number of the client's last request, or 0 if it has none.
fn last_number<Q: Drop, R: Copy + Drop, M: StoreMachine<Q, R>>(
    replica: &Replica<M, R>,
    client: u64,
) -> u64
    ensures { result ≡ last_number (get nat_cmp replica.now.lasts client) }
{
    match last_request::<Q, R, M>(replica, client) {
        Some(last) => last.number,
        None => 0,
    }
}

// Forgets the clients below a number.
fn forget<R: Copy + Drop>(
    lasts: &mut BTreeMap<u64, LastRequest<R>>,
    floor: u64,
) -> Result<(), AllocError>
    ensures { OnOk result (lasts.new.entries ≡ kept_from floor lasts.old.entries) }
{
    if floor == 0 {
        return Ok(());
    }
    let kept = lasts.split_off(&floor)?;
    *lasts = kept;
    Ok(())
}

// Notes a client's last request, and then forgets the clients below a number.
fn note<R: Copy + Drop>(
    lasts: &mut BTreeMap<u64, LastRequest<R>>,
    client: u64,
    last: LastRequest<R>,
    floor: u64,
) -> Result<(), ReplayFault>
    ensures { OnOk result (lasts.new.entries
        ≡ kept_from floor (insert_entry nat_cmp lasts.old.entries client last)) }
{
    lasts.insert(client, last)?;
    forget(lasts, floor)?;
    Ok(())
}

/// Returns the greater of two numbers.
pub fn greater(first: u64, second: u64) -> u64
    ensures { result ≡ max first second }
{
    first.max(second)
}

/// Makes the next request, or says why it can't be followed; then nothing is said of the replica.
pub fn make<Q: Drop, R: Copy + Drop, M: StoreMachine<Q, R>>(
    alloc: Global,
    replica: &mut Replica<M, R>,
    item: &Item<Q>,
) -> Result<R, ReplayFault>
    ensures answer { IfOk result (λ answer. answer ≡ M.service.reply replica.old.machine item.now.request) }
    ensures machine { OnOk result (replica.new.machine ≡ M.service.after replica.old.machine item.now.request) }
    ensures replica { OnOk result ((before : List (ItemValue Q)) → IsReplica M.service before replica.old
        → IsReplica M.service (before ++ item.now ∷ []) replica.new × ComesNext before item.now) }
{
    if item.client < replica.floor {
        return Err(ReplayFault::OutOfOrder);
    }
    if item.number <= last_number::<Q, R, M>(replica, item.client) {
        return Err(ReplayFault::OutOfOrder);
    }
    let reply = replica.machine.answer(alloc, &item.request)?;
    let next = LastRequest {
        number: item.number,
        reply,
    };
    note(&mut replica.lasts, item.client, next, item.forgets)?;
    replica.floor = greater(replica.floor, item.forgets);
    Ok(reply)
}

/// Makes requests one after the other, and answers them.
pub fn make_all<Q: Drop, R: Copy + Drop, M: StoreMachine<Q, R>>(
    alloc: Global,
    replica: &mut Replica<M, R>,
    items: &[Item<Q>],
) -> Result<Vec<MadeReply<R>>, ReplayFault>
    ensures answers { IfOk result (λ answers. answers.items
        ≡ replies_of M.service replica.old.machine items.now) }
    ensures machine { OnOk result (replica.new.machine ≡ state_after M.service replica.old.machine items.now) }
    ensures replica { OnOk result ((before : List (ItemValue Q)) → IsReplica M.service before replica.old
        → IsReplica M.service (before ++ items.now) replica.new × AreNext before items.now) }
{
    let mut answers = Vec::new(alloc);
    for item in items {
        let reply = make(alloc, replica, item)?;
        answers.push(MadeReply {
            client: item.client,
            number: item.number,
            reply,
        })?;
    }
    Ok(answers)
}

/// Answers the requests among these that only read, by the machine as it is.
pub fn read_all<Q: Drop, R: Copy + Drop, M: StoreMachine<Q, R>>(
    alloc: Global,
    machine: &M,
    items: &[Item<Q>],
) -> Result<Vec<ReadReply<R>>, AllocError>
    ensures { IfOk result (λ reads. map told_read reads.items ≡ map (read_of M.service machine.now) items.now) }
{
    let mut reads = Vec::new(alloc);
    for item in items {
        let answer = machine.peek(alloc, &item.request)?;
        reads.push(ReadReply {
            client: item.client,
            number: item.number,
            answer,
        })?;
    }
    Ok(reads)
}
