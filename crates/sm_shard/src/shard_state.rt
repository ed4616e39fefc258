ghost use Rattle.std.specs.Prelude.{◌≡◌, ◌≤◌, ◌++◌, ◌+◌, List, [], ◌<◌, ◌&&◌, false, not, IsTrue, IfOk, OnOk};
ghost use Rattle.std.specs.Prelude.{IfNone, IfSome, None, OnErr};
ghost use Rattle.std.specs.Prelude.{ℕ, length, nat_le, take, drop};
ghost use Rattle.sm_ownership.specs.declared.record.Record.{Record as RecordValue};
ghost use Rattle.sm_ownership.specs.Rules.{forward_to};
ghost use Rattle.sm_store.specs.declared.item.Item.{Item as ItemValue};
ghost use Rattle.sm_store.specs.Clients.{floor_of, last_of, AreNext};
ghost use Rattle.sm_shard.specs.Bases.{kept_from};
ghost use Rattle.sm_shard.specs.Decisions.{asking_after, batch_from, batch_length, begins_base, decided_by_forward};
ghost use Rattle.sm_shard.specs.Decisions.{is_behind, is_named_next, is_under_way, named_by};
ghost use Rattle.sm_shard.specs.Decisions.{by_made, is_crowded};
ghost use Rattle.sm_shard.specs.Decisions.{decided_by_number, decision_of, goes_with, client_number, read_decision_of};
ghost use Rattle.sm_shard.specs.Decisions.{sends_now};
ghost use Rattle.sm_shard.specs.Decisions.{waiting_after};
ghost use Rattle.sm_shard.specs.Replicas.{IsReplica, replies_of};
ghost use Rattle.sm_shard.specs.ShardServers.{IsNewBase, IsButWork, IsDecided, IsFlushed, IsShardState, IsUnflushed};
ghost use Rattle.sm_shard.specs.ShardServers.{IsWorkTrue, StoreLog, named_now, naming_next, written_now};

use crate::base::base_of;
use crate::base_work::{BaseStage, BaseWork, NamedBase};
use crate::replica::{
    LastRequest, MadeReply, ReplayFault, Replica, greater, last_request, make_all,
};
use crate::shard_limits::ShardLimits;
use crate::store_machine::StoreMachine;
use sm_envelope::envelope::MOST_HOPS;
use sm_ownership::record::Record;
use sm_ranges::server_id::ServerId;
use sm_ranges::shard_id::ShardId;
use sm_store::head::Head;
use sm_store::item::Item;
use sm_store::store_key::PassingKey;
use std::alloc::{AllocError, Global};
use std::collections::{BTreeMap, VecDeque};

/// A server's decision about a request.
#[derive(Clone, Copy, Drop)]
pub enum Decision<R> {
    /// It is made already, and this is its reply.
    Replied(R),
    /// A later request of its client is made, so this one won't be made any more.
    Passed,
    /// Its client was forgotten, so it won't be made any more.
    Forgotten,
    /// It waits for the next transaction, or is in one.
    Waits,
    /// This server executes it, to which it was then forwarded so often.
    Forwards(ServerId, u8),
    /// Another server executes it, but it was forwarded as often as it may be: [`MOST_HOPS`] times.
    TooFar,
    /// It isn't executed here and now, or another number of its client waits here, or the waiting requests will let its
    /// client be forgotten. This isn't final.
    Refused,
    /// The server hasn't read the shard. This isn't final.
    NotRead,
    /// It takes more bytes than a batch may.
    TooLarge,
    /// As many wait as allowed. This isn't final.
    Busy,
    /// As many clients are kept as allowed, even without those that may be forgotten, and its client isn't among them.
    /// This isn't final.
    TooManyClients,
}

/// The shard as the server last read it, and the server's work there.
#[derive(Drop)]
pub struct ShardState<M, Q, R> {
    pub state: Record,
    /// The revision of the record that was read.
    pub stood: u64,
    pub replica: Replica<M, R>,
    /// The head of the log of this replica.
    pub head: Head,
    /// The revision of that head.
    pub logged: u64,
    /// The requests in the transaction that was sent, if one was.
    pub sent: Vec<Item<Q>>,
    pub waiting: Vec<Item<Q>>,
    /// The reads that are answered when the transaction that was sent holds.
    pub carried: Vec<Item<Q>>,
    /// The reads that wait for the next one.
    pub asking: Vec<Item<Q>>,
    /// The base that is made.
    pub work: Option<BaseWork<R>>,
    /// Whether the server decides with it. After a transaction that was lost, or whose outcome is unknown, it must
    /// first catch up with the log.
    pub decides: bool,
}

// The number of the client's first request among these.
fn client_number<Q: Drop>(items: &[Item<Q>], client: u64) -> Option<u64>
    ensures answer { result ≡ client_number client items.now }
    ensures none { IfNone result (last_of client items.now ≡ 0) }
{
    for item in items {
        if item.client == client {
            return Some(item.number);
        }
    }
    None
}

// Returns the decision about a request whose client has a request with this number here.
fn repeated<R: Copy + Drop>(number: u64, other: Option<u64>) -> Option<Decision<R>>
    ensures { result ≡ decided_by_number number other }
{
    match other {
        Some(other) => Some(if other == number {
            Decision::Waits
        } else {
            Decision::Refused
        }),
        None => None,
    }
}

// Returns the decision about a request that was forwarded so often, and that the record doesn't accept here.
fn forwarded<R: Copy + Drop>(state: &Record, me: ServerId, hops: u8) -> Decision<R>
    ensures { result ≡ decided_by_forward hops (forward_to state.now me) }
{
    match state.forward_to(me) {
        Some(to) => if hops < MOST_HOPS {
            Decision::Forwards(to, hops + 1)
        } else {
            Decision::TooFar
        },
        None => Decision::Refused,
    }
}

/// Returns the knowledge about a client's request from the requests that were made: nothing, if its number comes next.
fn known<Q: Drop, R: Copy + Drop, M: StoreMachine<Q, R>>(
    replica: &Replica<M, R>,
    client: u64,
    number: u64,
) -> Option<Decision<R>>
    ensures known { IfSome result (λ decision. (state : RecordValue) (me : ℕ) (before : List (ItemValue Q))
        → IsReplica M.service before replica.now
        → IsDecided M.service state me before client number decision) }
    ensures exact { result ≡ by_made replica.now client number }
    ensures next { IfNone result ((before : List (ItemValue Q)) → IsReplica M.service before replica.now
        → (floor_of before ≤ client) × (last_of client before < number)) }
{
    if client < replica.floor {
        return Some(Decision::Forgotten);
    }
    match last_request::<Q, R, M>(replica, client) {
        Some(last) => if number == last.number {
            Some(Decision::Replied(last.reply))
        } else if number < last.number {
            Some(Decision::Passed)
        } else {
            None
        },
        None => if number == 0 {
            Some(Decision::Refused)
        } else {
            None
        },
    }
}

// The number below which these let clients be forgotten.
fn floor_among<Q: Drop>(items: &[Item<Q>]) -> u64
    ensures { result ≡ floor_of items.now }
{
    let mut floor = 0;
    for item in items {
        floor = greater(floor, item.forgets);
    }
    floor
}

// Returns whether at least so many clients are kept once those below a number are forgotten.
fn are_kept_from<R: Copy + Drop>(
    lasts: &BTreeMap<u64, LastRequest<R>>,
    floor: u64,
    count: usize,
) -> bool
    ensures { result ≡ nat_le count (length (kept_from floor lasts.now.entries)) }
{
    match lasts.len().checked_sub(count) {
        // If one more client than that is below the number, too few are left.
        Some(most) => lasts.range(..floor).nth(most).is_none(),
        None => false,
    }
}

// Returns whether it would be one client more than allowed, even once those are forgotten that the request itself lets
// be forgotten.
fn is_crowded<Q: Drop, R: Copy + Drop, M: StoreMachine<Q, R>>(
    limits: ShardLimits,
    replica: &Replica<M, R>,
    item: &Item<Q>,
) -> bool
    ensures { result ≡ is_crowded limits replica.now item.now }
{
    last_request::<Q, R, M>(replica, item.client).is_none()
        && are_kept_from(&replica.lasts, item.forgets, limits.clients)
}

/// Decides about a request. If it will be made, it waits.
pub fn take<Q: Drop, R: Copy + Drop, M: StoreMachine<Q, R>>(
    ready: &mut ShardState<M, Q, R>,
    limits: ShardLimits,
    me: ServerId,
    item: Item<Q>,
) -> Result<Decision<R>, AllocError>
    ensures state { ready.new.state ≡ ready.old.state }
    ensures stood { ready.new.stood ≡ ready.old.stood }
    ensures head { ready.new.head ≡ ready.old.head }
    ensures logged { ready.new.logged ≡ ready.old.logged }
    ensures sent { ready.new.sent ≡ ready.old.sent }
    ensures carried { ready.new.carried ≡ ready.old.carried }
    ensures asking { ready.new.asking ≡ ready.old.asking }
    ensures replica { ready.new.replica ≡ ready.old.replica }
    ensures work { ready.new.work ≡ ready.old.work }
    ensures decides { ready.new.decides ≡ ready.old.decides }
    ensures decision { IfOk result (λ decision. decision ≡ decision_of limits M.size ready.old me item) }
    ensures waiting { OnOk result (ready.new.waiting.items ≡ waiting_after limits M.size ready.old me item) }
    ensures err { OnErr result (ready.new.waiting.items ≡ ready.old.waiting.items) }
    ensures kept { (before : List (ItemValue Q)) → IsShardState M.service me before ready.old
        → IsShardState M.service me before ready.new }
    ensures decided { IfOk result (λ decision. (before : List (ItemValue Q))
        → IsShardState M.service me before ready.old
        → IsDecided M.service ready.old.state me before item.client item.number decision) }
{
    if let Some(decision) = known(&ready.replica, item.client, item.number) {
        return Ok(decision);
    }
    if !ready.state.accepts(me, item.mode) {
        return Ok(forwarded(&ready.state, me, item.hops));
    }
    if let Some(decision) = repeated(item.number, client_number(&ready.sent, item.client)) {
        return Ok(decision);
    }
    if let Some(decision) = repeated(item.number, client_number(&ready.waiting, item.client)) {
        return Ok(decision);
    }
    if item.client < floor_among(&ready.sent) {
        return Ok(Decision::Refused);
    }
    if item.client < floor_among(&ready.waiting) {
        return Ok(Decision::Refused);
    }
    if limits.batch_bytes < M::size_of(&item.request) {
        return Ok(Decision::TooLarge);
    }
    if limits.waiting <= ready.waiting.len() {
        return Ok(Decision::Busy);
    }
    if is_crowded::<Q, R, M>(limits, &ready.replica, &item) {
        return Ok(Decision::TooManyClients);
    }
    ready.waiting.push(item)?;
    Ok(Decision::Waits)
}

/// Decides about a request that only reads. If it will be answered, it waits.
pub fn ask<Q: Drop, R: Copy + Drop, M: StoreMachine<Q, R>>(
    ready: &mut ShardState<M, Q, R>,
    limits: ShardLimits,
    me: ServerId,
    item: Item<Q>,
) -> Result<Decision<R>, AllocError>
    ensures state { ready.new.state ≡ ready.old.state }
    ensures stood { ready.new.stood ≡ ready.old.stood }
    ensures head { ready.new.head ≡ ready.old.head }
    ensures logged { ready.new.logged ≡ ready.old.logged }
    ensures sent { ready.new.sent ≡ ready.old.sent }
    ensures waiting { ready.new.waiting ≡ ready.old.waiting }
    ensures carried { ready.new.carried ≡ ready.old.carried }
    ensures replica { ready.new.replica ≡ ready.old.replica }
    ensures work { ready.new.work ≡ ready.old.work }
    ensures decides { ready.new.decides ≡ ready.old.decides }
    ensures decision { IfOk result (λ decision. decision ≡ read_decision_of limits ready.old me item) }
    ensures asking { OnOk result (ready.new.asking.items ≡ asking_after limits ready.old me item) }
    ensures err { OnErr result (ready.new.asking.items ≡ ready.old.asking.items) }
    ensures kept { (before : List (ItemValue Q)) → IsShardState M.service me before ready.old
        → IsShardState M.service me before ready.new }
{
    let accepted = ready.state.accepts(me, item.mode);
    if !accepted {
        return Ok(forwarded(&ready.state, me, item.hops));
    }
    if limits.waiting <= ready.asking.len() {
        return Ok(Decision::Busy);
    }
    ready.asking.push(item)?;
    Ok(Decision::Waits)
}

// Returns whether one more request fits into a batch that has so many, and has so much room.
fn goes_with(limits: ShardLimits, count: usize, room: u64, bytes: u64) -> bool
    ensures { result ≡ goes_with limits count room bytes }
{
    count == 0 || (count < limits.batch_requests && bytes <= room)
}

// How many of the requests go into one batch.
fn count_of<Q: Drop, R: Copy + Drop, M: StoreMachine<Q, R>>(
    limits: ShardLimits,
    items: &[Item<Q>],
) -> usize
    ensures exact { result ≡ batch_from limits M.size 0 limits.batch_bytes items.now }
    ensures within { result ≤ length items.now }
{
    let mut room = limits.batch_bytes;
    let mut count = 0;
    for item in items {
        let size = M::size_of(&item.request);
        if !goes_with(limits, count, room, size) {
            return count;
        }
        room = room.saturating_sub(size);
        count += 1;
    }
    count
}

// Returns whether a base is there, and must be named.
fn is_named_next<R: Copy + Drop>(work: &Option<BaseWork<R>>) -> bool
    ensures { result ≡ is_named_next work.now }
{
    match work {
        Some(work) => match work.stage {
            BaseStage::Written => true,
            _ => false,
        },
        None => false,
    }
}

/// Returns the base that the sent transaction makes the head name, if it does.
pub fn named<R: Copy + Drop>(work: &Option<BaseWork<R>>) -> Option<NamedBase>
    ensures { result ≡ named_by work.now }
{
    match work {
        Some(work) => match work.stage {
            BaseStage::Naming => Some(NamedBase {
                number: work.number,
                parts: work.parts.len() as u64,
            }),
            _ => None,
        },
        None => None,
    }
}

/// Returns whether a transaction was sent.
pub fn is_under_way<Q: Drop, R: Copy + Drop, M: StoreMachine<Q, R>>(
    ready: &ShardState<M, Q, R>,
) -> bool
    ensures { result ≡ is_under_way ready.now }
{
    !ready.sent.is_empty() || (!ready.carried.is_empty() || named(&ready.work).is_some())
}

// Lets the head name a base that is there.
fn name_next<R: Copy + Drop>(work: &mut Option<BaseWork<R>>)
    ensures { work.new ≡ naming_next work.old }
{
    if let Some(work) = work {
        if let BaseStage::Written = work.stage {
            work.stage = BaseStage::Naming;
        }
    }
}

// How many of the requests that wait go next.
fn next_count<Q: Drop, R: Copy + Drop, M: StoreMachine<Q, R>>(
    limits: ShardLimits,
    ready: &ShardState<M, Q, R>,
) -> usize
    ensures exact { result ≡ batch_length limits M.size ready.now }
    ensures within { result ≤ length ready.now.waiting.items }
{
    if is_named_next(&ready.work) || ready.head.batches == u64::MAX {
        0
    } else {
        count_of::<Q, R, M>(limits, &ready.waiting)
    }
}

// Takes the first items, so many, and leaves the others.
fn take_front<T: Drop>(alloc: Global, items: &mut Vec<T>, at: usize) -> Result<Vec<T>, AllocError>
    requires { at ≤ length items.old.items }
    ensures front { IfOk result (λ front. front.items ≡ take at items.old.items) }
    ensures rest { OnOk result (items.new.items ≡ drop at items.old.items) }
    ensures err { OnErr result (items.new.items ≡ items.old.items) }
{
    let mut front = VecDeque::from_vec(std::mem::replace(items, Vec::new(alloc)));
    match front.split_off(at) {
        Ok(rest) => {
            *items = rest.into_vec();
            Ok(front.into_vec())
        }
        Err(error) => {
            *items = front.into_vec();
            Err(error)
        }
    }
}

/// Makes the waiting reads ready to be sent, and as many requests as fit into one batch, or the name of a base that is
/// there, if nothing is under way.
pub fn flush<Q: Drop, R: Copy + Drop, M: StoreMachine<Q, R>>(
    alloc: Global,
    ready: &mut ShardState<M, Q, R>,
    limits: ShardLimits,
) -> Result<bool, AllocError>
    ensures state { ready.new.state ≡ ready.old.state }
    ensures stood { ready.new.stood ≡ ready.old.stood }
    ensures head { ready.new.head ≡ ready.old.head }
    ensures logged { ready.new.logged ≡ ready.old.logged }
    ensures replica { ready.new.replica ≡ ready.old.replica }
    ensures decides { ready.new.decides ≡ ready.old.decides }
    ensures kept { (me : ℕ) (before : List (ItemValue Q)) → IsShardState M.service me before ready.old
        → IsShardState M.service me before ready.new }
    ensures base { (log : StoreLog Q R) (shard : ℕ)
        → IfSome ready.old.work (IsWorkTrue M.service log shard ready.old.head)
        → IfSome ready.new.work (IsWorkTrue M.service log shard ready.new.head) }
    ensures exact { IfOk result (λ sends. sends ≡ sends_now limits M.size ready.old) }
    ensures sends { IfOk result (λ sends. IsTrue sends → IsFlushed limits M.size ready.old ready.new) }
    ensures waits { IfOk result (λ sends. sends ≡ false → IsUnflushed ready.old ready.new) }
    ensures err { OnErr result (IsUnflushed ready.old ready.new) }
{
    if is_under_way(ready) {
        return Ok(false);
    }
    let count = next_count(limits, ready);
    if !is_named_next(&ready.work) && (count == 0 && ready.asking.is_empty()) {
        return Ok(false);
    }
    ready.sent = take_front(alloc, &mut ready.waiting, count)?;
    std::mem::swap(&mut ready.carried, &mut ready.asking);
    name_next(&mut ready.work);
    Ok(true)
}

/// Makes the requests that were sent.
pub fn commit<Q: Drop, R: Copy + Drop, M: StoreMachine<Q, R>>(
    alloc: Global,
    ready: &mut ShardState<M, Q, R>,
    revision: u64,
) -> Result<Vec<MadeReply<R>>, ReplayFault>
    ensures answers { IfOk result (λ answers. answers.items
        ≡ replies_of M.service ready.old.replica.machine ready.old.sent.items) }
    ensures state { OnOk result (ready.new.state ≡ ready.old.state) }
    ensures stood { OnOk result (ready.new.stood ≡ ready.old.stood) }
    ensures batches { OnOk result (ready.new.head.batches ≡ ready.old.head.batches + 1) }
    ensures base { OnOk result (ready.new.head.base ≡ ready.old.head.base) }
    ensures parts { OnOk result (ready.new.head.parts ≡ ready.old.head.parts) }
    ensures logged { OnOk result (ready.new.logged ≡ revision) }
    ensures sent { OnOk result (ready.new.sent.items ≡ []) }
    ensures waiting { OnOk result (ready.new.waiting.items ≡ ready.old.waiting.items) }
    ensures carried { OnOk result (ready.new.carried ≡ ready.old.carried) }
    ensures asking { OnOk result (ready.new.asking ≡ ready.old.asking) }
    ensures work { OnOk result (ready.new.work ≡ ready.old.work) }
    ensures replica { OnOk result ((before : List (ItemValue Q))
        → IsReplica M.service before ready.old.replica
        → IsReplica M.service (before ++ ready.old.sent.items) ready.new.replica
        × AreNext before ready.old.sent.items) }
{
    let Some(batches) = ready.head.batches.checked_add(1) else {
        return Err(ReplayFault::TooMany);
    };
    let answers = make_all(alloc, &mut ready.replica, &ready.sent)?;
    ready.sent.clear();
    ready.head.batches = batches;
    ready.logged = revision;
    Ok(answers)
}

/// Makes the server catch up with the log before it decides, if a transaction is under way, because that transaction
/// may be made.
pub fn unsettle<Q: Drop, R: Copy + Drop, M: StoreMachine<Q, R>>(ready: &mut ShardState<M, Q, R>)
    ensures read { (ready.new.state ≡ ready.old.state) × (ready.new.stood ≡ ready.old.stood)
        × (ready.new.head ≡ ready.old.head) × (ready.new.logged ≡ ready.old.logged) }
    ensures replica { ready.new.replica ≡ ready.old.replica }
    ensures requests { (ready.new.sent ≡ ready.old.sent) × (ready.new.waiting ≡ ready.old.waiting)
        × (ready.new.carried ≡ ready.old.carried) × (ready.new.asking ≡ ready.old.asking) }
    ensures base { (log : StoreLog Q R) (shard : ℕ)
        → IfSome ready.old.work (IsWorkTrue M.service log shard ready.old.head)
        → IfSome ready.new.work (IsWorkTrue M.service log shard ready.new.head) }
    ensures decides { ready.new.decides ≡ (ready.old.decides && not (is_under_way ready.old)) }
{
    if is_under_way(ready) {
        stop_deciding(ready);
    }
}

/// Makes the server catch up with the log before it decides, and forget the base that it is making.
pub fn stop_deciding<Q: Drop, R: Copy + Drop, M: StoreMachine<Q, R>>(
    ready: &mut ShardState<M, Q, R>,
)
    ensures { ready.new ≡ record ready.old { work = None; decides = false } }
{
    ready.work = None;
    ready.decides = false;
}

/// Begins a base of all requests that were made, if none is being made and there are batches that the last one doesn't
/// replace. Returns whether it begins one.
pub fn begin_base<Q: Drop, R: Copy + Drop, M: StoreMachine<Q, R>>(
    alloc: Global,
    ready: &mut ShardState<M, Q, R>,
) -> Result<bool, AllocError>
    ensures exact { IfOk result (λ begun. begun ≡ begins_base ready.old) }
    ensures rest { IsButWork ready.old ready.new }
    ensures begun { IfOk result (λ begun. IsTrue begun → (items : List (ItemValue Q))
        → IsReplica M.service items ready.old.replica
        → IfSome ready.new.work (IsNewBase M.service ready.old.head.batches items)) }
    ensures same { IfOk result (λ begun. begun ≡ false → ready.new.work ≡ ready.old.work) }
    ensures err { OnErr result (ready.new.work ≡ ready.old.work) }
{
    if ready.work.is_some() || ready.head.batches <= ready.head.base {
        return Ok(false);
    }
    let parts = base_of::<Q, R, M>(alloc, &ready.replica)?;
    ready.work = Some(BaseWork {
        number: ready.head.batches,
        parts,
        stage: BaseStage::Writing,
    });
    Ok(true)
}

/// Each part of the base that is made was written.
pub fn write_base<Q: Drop, R: Copy + Drop, M: StoreMachine<Q, R>>(ready: &mut ShardState<M, Q, R>)
    ensures rest { IsButWork ready.old ready.new }
    ensures work { ready.new.work ≡ written_now ready.old.work }
{
    if let Some(work) = &mut ready.work {
        if let BaseStage::Writing = work.stage {
            work.stage = BaseStage::Written;
        }
    }
}

/// Names the base in the head, at this revision, if the transaction that was sent did so.
pub fn name_base<Q: Drop, R: Copy + Drop, M: StoreMachine<Q, R>>(
    ready: &mut ShardState<M, Q, R>,
    revision: u64,
)
    ensures { ready.new ≡ named_now revision ready.old }
{
    if let Some(base) = named(&ready.work) {
        ready.head.base = base.number;
        ready.head.parts = base.parts;
        ready.logged = revision;
        ready.work = None;
    }
}

/// Returns whether the base that the head names replaces the value at this key, or is newer than it.
pub fn is_behind(shard: ShardId, head: &Head, key: &PassingKey) -> bool
    ensures { result ≡ is_behind shard head.now key.now }
{
    match key {
        PassingKey::Batch(at, number) => *at == shard && *number <= head.base,
        PassingKey::Part(at, number, _) => *at == shard && *number < head.base,
        _ => false,
    }
}
