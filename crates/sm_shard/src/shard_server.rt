ghost use Rattle.std.specs.Prelude.{◌≢◌, ◌<◌, ◌≡◌, [], IfSome};

use crate::base_part::BasePart;
use crate::base_work::NamedBase;
use crate::log_replay::{catch_up, replay};
use crate::replica::{MadeReply, ReadReply, ReplayFault, read_all};
use crate::shard_limits::ShardLimits;
use crate::shard_state::{
    Decision, ShardState, ask, begin_base, commit, flush, is_behind, name_base, named,
    stop_deciding, take, unsettle, write_base,
};
use crate::store_machine::StoreMachine;
use sm_ownership::record::Record;
use sm_ranges::server_id::ServerId;
use sm_ranges::shard_id::ShardId;
use sm_store::head::Head;
use sm_store::item::Item;
use sm_store::store_key::PassingKey;
use std::alloc::{AllocError, Global};

/// A server's state for one shard. It has nothing until it has read the store.
#[derive(Drop)]
pub struct ShardServer<M, Q, R> {
    pub me: ServerId,
    pub shard: ShardId,
    /// How many shards the store has.
    pub count: u64,
    pub limits: ShardLimits,
    pub ready: Option<ShardState<M, Q, R>>,
    // It is one of the store's shards.
    pub ghost within: { shard < count },
    pub ghost named: { me ≢ 0 },
}

/// Requests that must be decided again, and those that only read.
#[derive(Drop)]
pub struct Undecided<Q> {
    pub sent: Vec<Item<Q>>,
    pub waiting: Vec<Item<Q>>,
    pub carried: Vec<Item<Q>>,
    pub asking: Vec<Item<Q>>,
}

/// The answers after a transaction was made, or has held.
#[derive(Drop)]
pub struct StoreAnswers<R> {
    pub made: Vec<MadeReply<R>>,
    pub read: Vec<ReadReply<R>>,
}

/// A transaction for the store: it compares both revisions, and adds the requests to the shard's log. If there are no
/// requests, the head names the base, and the head's revision is compared. If there is no base either, it only compares
/// both.
#[derive(Drop)]
pub struct BatchSending<'a, Q> {
    pub shard: ShardId,
    pub server: ServerId,
    /// The head that was read; the batch gets the next number.
    pub head: Head,
    pub stood: u64,
    pub logged: u64,
    pub items: &'a [Item<Q>],
    pub base: Option<NamedBase>,
}

/// The parts of the base that a server makes, of so many batches. Each is written at its place, by a transaction that
/// compares nothing.
#[derive(Drop)]
pub struct PartsSending<'a, R> {
    pub shard: ShardId,
    pub number: u64,
    pub parts: &'a [BasePart<R>],
}

impl<Q: Drop, R: Copy + Drop, M: StoreMachine<Q, R>> ShardServer<M, Q, R> {
    ghost use Rattle.std.specs.Prelude.{◌++◌, ◌+◌, ◌≤◌, List, ◌↔◌, false, IsTrue, IsSome, IsSomeAnd, IfOk, OnErr};
    ghost use Rattle.std.specs.Prelude.{None, OnOk, ℕ, [], IfNone, length, map};
    ghost use Rattle.std.specs.List.{AllByRecursion};
    ghost use Rattle.sm_shard.specs.Bases.{Part, base_of, kept_from};
    ghost use Rattle.sm_store.specs.Store.{IsRising, record_key, stored_record};
    ghost use Rattle.sm_store.specs.Deeds.{AreRight, Charter, MayClear, MaySend, WasFound};
    ghost use Rattle.sm_store.specs.System.{Ask, MayClaim};
    ghost use Rattle.sm_shard.specs.Decisions.{server_begins, server_behind, server_decision, server_read_decision};
    ghost use Rattle.sm_shard.specs.Decisions.{batches_made, clients_kept, server_decides, server_sends};
    ghost use Rattle.sm_shard.specs.Decisions.{server_settled};
    ghost use Rattle.sm_shard.specs.declared.shard_state.Decision.TheVariants.{TooManyClients};
    ghost use Rattle.sm_shard.specs.Replicas.{read_of, replies_of, told_read};
    ghost use Rattle.sm_shard.specs.ShardServers.{AreAsked, AreRequestsAsked, DidHold, IsAsReady, IsAsked, IsTrueOf};
    ghost use Rattle.sm_shard.specs.ShardServers.{StoreLog, StoreSystem};
    ghost use Rattle.sm_shard.specs.ShardServers.{WereMade, claimed_all, claimed_by, claimed_reads};
    ghost use Rattle.sm_shard.specs.ShardServers.{AreWritten, basing_by, parts_transactions, sending_transaction};
    ghost use Rattle.sm_shard.specs.ShardServers.{sent_transaction};
    ghost use Rattle.sm_shard.specs.Steps.{ArePast, GoesBy, IsLogRead, IsLogReadOn};

    /// Makes a server that has just started and knows nothing. Returns nothing if the store doesn't have so many
    /// shards.
    pub fn new(
        me: ServerId,
        shard: ShardId,
        count: u64,
        limits: ShardLimits,
    ) -> Option<ShardServer<M, Q, R>>
        ensures values { IfSome result (λ server. (server.me ≡ me) × (server.shard ≡ shard) × (server.count ≡ count)
            × (server.limits ≡ limits)) }
        ensures exact { IsSome result ↔ shard < count }
        ensures known { IfSome result (λ server. (log : StoreLog Q R) → IsTrueOf M.service log server) }
        ensures asked { IfSome result (λ server. (asked : List (Ask Q)) (since : ℕ) → AreAsked asked since server) }
        ensures asked_for { IfSome result (λ server. (asked : List (Ask Q)) → AreRequestsAsked asked server) }
    {
        let _named = me.number();
        if u64::from(shard.number()) < count {
            Some(ShardServer {
                me,
                shard,
                count,
                limits,
                ready: None,
            })
        } else {
            None
        }
    }

    /// Notes that the shard's record was read, and its log: its head, the parts of the base that the head names, and
    /// the batches after it, each as it was at some moment. The server must know nothing before, so nothing waits.
    pub fn on_read(
        &mut self,
        alloc: Global,
        state: Record,
        stood: u64,
        head: Head,
        logged: u64,
        parts: &[BasePart<R>],
        batches: &[Vec<Item<Q>>],
    ) -> Result<(), ReplayFault>
        ensures me { self.new.me ≡ self.old.me }
        ensures shard { self.new.shard ≡ self.old.shard }
        ensures count { self.new.count ≡ self.old.count }
        ensures limits { self.new.limits ≡ self.old.limits }
        ensures known { (charter : Charter Q (Part R)) (log : StoreLog Q R)
            → charter.parts ≡ base_of M.service → AreRight charter log
            → WasFound (stored_record self.old.shard) (record_key self.old.shard) log state stood
            → IsLogRead log self.old.shard head logged parts.now (map (λ batch. batch.items) batches.now)
            → IsTrueOf M.service log self.new }
        ensures read { OnOk result (IsSomeAnd self.new.ready (GoesBy state stood head logged)) }
        ensures refused { OnErr result (self.new.ready ≡ None) }
        ensures asked { (asked : List (Ask Q)) (since : ℕ) → AreAsked asked since self.new }
        ensures asked_for { (asked : List (Ask Q)) → AreRequestsAsked asked self.new }
    {
        self.ready = None;
        let replica = replay::<Q, R, M>(alloc, &head, parts, batches)?;
        self.ready = Some(ShardState {
            state,
            stood,
            replica,
            head,
            logged,
            sent: Vec::new(alloc),
            waiting: Vec::new(alloc),
            carried: Vec::new(alloc),
            asking: Vec::new(alloc),
            work: None,
            decides: true,
        });
        Ok(())
    }

    /// Notes that the shard's record was read, and its log from the end of the server's replica on: the head, and the
    /// batches after those that the replica has, each as it was at some moment. The server goes on from them, and
    /// requests that were sent or wait must be decided again, because those that were made are among the batches.
    /// Returns `Missing` if not all of them were there, or if the server has read nothing. After an error it has
    /// forgotten its readings.
    pub fn on_append(
        &mut self,
        alloc: Global,
        state: Record,
        stood: u64,
        head: Head,
        logged: u64,
        batches: &[Vec<Item<Q>>],
    ) -> Result<Undecided<Q>, ReplayFault>
        ensures me { self.new.me ≡ self.old.me }
        ensures shard { self.new.shard ≡ self.old.shard }
        ensures count { self.new.count ≡ self.old.count }
        ensures limits { self.new.limits ≡ self.old.limits }
        ensures again { IfOk result (λ again. IfSome self.old.ready (λ ready.
            again.sent.items ++ again.waiting.items ≡ ready.sent.items ++ ready.waiting.items)) }
        ensures questions { IfOk result (λ again. IfSome self.old.ready (λ ready.
            again.carried.items ++ again.asking.items ≡ ready.carried.items ++ ready.asking.items)) }
        ensures known { (charter : Charter Q (Part R)) (log : StoreLog Q R) → AreRight charter log
            → IsTrueOf M.service log self.old
            → WasFound (stored_record self.old.shard) (record_key self.old.shard) log state stood
            → IfSome self.old.ready (λ ready. IsLogReadOn log self.old.shard ready.head.batches head logged
            (map (λ batch. batch.items) batches.now))
            → IsTrueOf M.service log self.new }
        ensures caught_up { OnOk result (IsSomeAnd self.new.ready (GoesBy state stood head logged)) }
        ensures err { OnErr result (self.new.ready ≡ None) }
        ensures asked { (asked : List (Ask Q)) (since : ℕ) → AreAsked asked since self.new }
        ensures asked_for { (asked : List (Ask Q)) → AreRequestsAsked asked self.new }
    {
        let Some(mut ready) = self.ready.take() else {
            return Err(ReplayFault::Missing);
        };
        let first = ready.head.batches;
        catch_up(alloc, &mut ready.replica, first, &head, batches)?;
        let again = taken_back(alloc, &mut ready);
        ready.state = state;
        ready.stood = stood;
        ready.head = head;
        ready.logged = logged;
        ready.work = None;
        ready.decides = true;
        self.ready = Some(ready);
        Ok(again)
    }

    /// Decides on a request that came.
    pub fn on_request(&mut self, item: Item<Q>) -> Result<Decision<R>, AllocError>
        ensures me { self.new.me ≡ self.old.me }
        ensures shard { self.new.shard ≡ self.old.shard }
        ensures count { self.new.count ≡ self.old.count }
        ensures limits { self.new.limits ≡ self.old.limits }
        ensures known { (log : StoreLog Q R) → IsTrueOf M.service log self.old
            → IsTrueOf M.service log self.new }
        ensures asked { (asked : List (Ask Q)) (since : ℕ) → AreAsked asked since self.old
            → AreAsked asked since self.new }
        ensures asked_for { (asked : List (Ask Q)) → AreRequestsAsked asked self.old
            → IsAsked asked self.old.shard item → AreRequestsAsked asked self.new }
        ensures decision { IfOk result (λ decision. decision
            ≡ server_decision self.old.limits M.size self.old.ready self.old.me item) }
        // A request that forgets enough clients isn't refused for that.
        ensures crowded { IfOk result (λ decision. decision ≡ TooManyClients → IfSome self.old.ready (λ ready.
            self.old.limits.clients ≤ length (kept_from item.forgets ready.replica.lasts.entries))) }
        ensures refused { OnErr result (IsAsReady self.old.ready self.new.ready) }
        ensures told { IfOk result (λ decision. (system : StoreSystem Q R)
            → IsTrueOf M.service system.log self.old
            → AllByRecursion (MayClaim M.service system) (claimed_by self.old.shard item decision)) }
    {
        let (me, limits) = (self.me, self.limits);
        match &mut self.ready {
            Some(ready) => if ready.decides {
                take(ready, limits, me, item)
            } else {
                Ok(Decision::NotRead)
            },
            None => Ok(Decision::NotRead),
        }
    }

    /// Takes a request that only reads. The next transaction answers it, because it came later than the transactions
    /// before.
    pub fn on_question(&mut self, item: Item<Q>) -> Result<Decision<R>, AllocError>
        ensures me { self.new.me ≡ self.old.me }
        ensures shard { self.new.shard ≡ self.old.shard }
        ensures count { self.new.count ≡ self.old.count }
        ensures limits { self.new.limits ≡ self.old.limits }
        ensures known { (log : StoreLog Q R) → IsTrueOf M.service log self.old
            → IsTrueOf M.service log self.new }
        ensures asked { (asked : List (Ask Q)) (since : ℕ) → AreAsked asked since self.old
            → IsAsked asked self.old.shard item → AreAsked asked since self.new }
        ensures asked_for { (asked : List (Ask Q)) → AreRequestsAsked asked self.old
            → AreRequestsAsked asked self.new }
        ensures decision { IfOk result (λ decision. decision
            ≡ server_read_decision self.old.limits self.old.ready self.old.me item) }
        ensures refused { OnErr result (IsAsReady self.old.ready self.new.ready) }
    {
        let (me, limits) = (self.me, self.limits);
        match &mut self.ready {
            Some(ready) => if ready.decides {
                ask(ready, limits, me, item)
            } else {
                Ok(Decision::NotRead)
            },
            None => Ok(Decision::NotRead),
        }
    }

    /// Makes waiting requests ready to be sent, as far as the limits allow, if nothing is under way. Returns whether
    /// there is anything to send now.
    pub fn flush(&mut self, alloc: Global) -> Result<bool, AllocError>
        ensures me { self.new.me ≡ self.old.me }
        ensures shard { self.new.shard ≡ self.old.shard }
        ensures count { self.new.count ≡ self.old.count }
        ensures limits { self.new.limits ≡ self.old.limits }
        ensures known { (log : StoreLog Q R) → IsTrueOf M.service log self.old
            → IsTrueOf M.service log self.new }
        ensures exact { IfOk result (λ sends. sends ≡ server_sends self.old.limits M.size self.old.ready) }
        ensures sends { IfOk result (λ sends. IsTrue sends → (system : StoreSystem Q R) (since : ℕ) → ArePast system
            → AreAsked system.asked since self.old → AreAsked system.asked (length system.log) self.new) }
        ensures waits { IfOk result (λ sends. sends ≡ false → (asked : List (Ask Q)) (since : ℕ)
            → AreAsked asked since self.old → AreAsked asked since self.new) }
        ensures err { OnErr result ((asked : List (Ask Q)) (since : ℕ) → AreAsked asked since self.old
            → AreAsked asked since self.new) }
        ensures asked_for { (asked : List (Ask Q)) → AreRequestsAsked asked self.old
            → AreRequestsAsked asked self.new }
        ensures refused { OnErr result (IsAsReady self.old.ready self.new.ready) }
    {
        let limits = self.limits;
        match &mut self.ready {
            Some(ready) => flush(alloc, ready, limits),
            None => Ok(false),
        }
    }

    /// Returns the transaction that was sent.
    pub fn sending(&self) -> Option<BatchSending<'_, Q>>
        ensures own { IfSome result (λ sending. IfSome self.now.ready (λ ready.
            sending_transaction sending ≡ sent_transaction self.now.me self.now.shard ready)) }
        ensures may { IfSome result (λ sending. (charter : Charter Q (Part R)) (log : StoreLog Q R)
            → charter.count ≡ self.now.count → charter.parts ≡ base_of M.service
            → IsTrueOf M.service log self.now
            → MaySend charter log (sending_transaction sending)) }
        ensures none { IfNone result (self.now.ready ≡ None) }
    {
        match &self.ready {
            Some(ready) => Some(BatchSending {
                shard: self.shard,
                server: self.me,
                head: ready.head,
                stood: ready.stood,
                logged: ready.logged,
                items: &ready.sent,
                base: named(&ready.work),
            }),
            None => None,
        }
    }

    /// Notes that the transaction was made at this revision, or has held there if it only compares. Returns the
    /// answers.
    pub fn on_made(&mut self, alloc: Global, revision: u64) -> Result<StoreAnswers<R>, ReplayFault>
        ensures me { self.new.me ≡ self.old.me }
        ensures shard { self.new.shard ≡ self.old.shard }
        ensures count { self.new.count ≡ self.old.count }
        ensures limits { self.new.limits ≡ self.old.limits }
        ensures known { (log : StoreLog Q R) → IsRising log → IsTrueOf M.service log self.old
            → IfSome self.old.ready (λ ready. WereMade log self.old.me self.old.shard revision ready)
            → IsTrueOf M.service log self.new }
        ensures refused { OnErr result (self.new.ready ≡ None) }
        ensures asked { (asked : List (Ask Q)) (since : ℕ) → AreAsked asked since self.old
            → AreAsked asked since self.new }
        ensures asked_for { (asked : List (Ask Q)) → AreRequestsAsked asked self.old
            → AreRequestsAsked asked self.new }
        ensures made { IfOk result (λ answers. IfSome self.old.ready (λ ready. answers.made.items
            ≡ replies_of M.service ready.replica.machine ready.sent.items)) }
        ensures answered { IfOk result (λ answers. IfSome self.old.ready (λ ready. map told_read answers.read.items
            ≡ map (read_of M.service ready.replica.machine) ready.carried.items)) }
        ensures unread { IfOk result (λ answers. IfNone self.old.ready
            ((answers.made.items ≡ []) × (answers.read.items ≡ []))) }
        ensures told { IfOk result (λ answers. (system : StoreSystem Q R) → IsRising system.log
            → IsTrueOf M.service system.log self.old
            → IfSome self.old.ready (λ ready. WereMade system.log self.old.me self.old.shard revision ready)
            → IfSome self.old.ready (λ ready. AllByRecursion (MayClaim M.service system)
            (claimed_all self.old.shard ready.sent.items answers.made.items))) }
        ensures read { IfOk result (λ answers. (system : StoreSystem Q R) (since : ℕ)
            → IsTrueOf M.service system.log self.old → AreAsked system.asked since self.old
            → IfSome self.old.ready (λ ready. DidHold system.held since
            (sent_transaction self.old.me self.old.shard ready))
            → IfSome self.old.ready (λ ready. AllByRecursion (MayClaim M.service system)
            (claimed_reads self.old.shard ready.carried.items (map told_read answers.read.items)))) }
    {
        let Some(mut ready) = self.ready.take() else {
            return Ok(StoreAnswers {
                made: Vec::new(alloc),
                read: Vec::new(alloc),
            });
        };
        let read = read_all(alloc, &ready.replica.machine, &ready.carried)?;
        ready.carried.clear();
        if ready.sent.is_empty() {
            name_base(&mut ready, revision);
            self.ready = Some(ready);
            return Ok(StoreAnswers {
                made: Vec::new(alloc),
                read,
            });
        }
        let made = commit(alloc, &mut ready, revision)?;
        self.ready = Some(ready);
        Ok(StoreAnswers { made, read })
    }

    /// Notes that the shard's record was read, and the server's own log is still the last one that it knows. The server
    /// goes on with the new record, and requests that were sent or wait must be decided again. If a transaction was
    /// under way, the server must first catch up with the log.
    pub fn on_record(&mut self, alloc: Global, state: Record, stood: u64) -> Undecided<Q>
        ensures me { self.new.me ≡ self.old.me }
        ensures shard { self.new.shard ≡ self.old.shard }
        ensures count { self.new.count ≡ self.old.count }
        ensures limits { self.new.limits ≡ self.old.limits }
        ensures again { IfSome self.old.ready (λ ready. result.sent.items ++ result.waiting.items
            ≡ ready.sent.items ++ ready.waiting.items) }
        ensures questions { IfSome self.old.ready (λ ready. result.carried.items ++ result.asking.items
            ≡ ready.carried.items ++ ready.asking.items) }
        ensures known { (log : StoreLog Q R) → IsTrueOf M.service log self.old
            → WasFound (stored_record self.old.shard) (record_key self.old.shard) log state stood
            → IsTrueOf M.service log self.new }
        ensures decides { server_decides self.new.ready ≡ server_settled self.old.ready }
        ensures asked { (asked : List (Ask Q)) (since : ℕ) → AreAsked asked since self.new }
        ensures asked_for { (asked : List (Ask Q)) → AreRequestsAsked asked self.new }
    {
        let Some(mut ready) = self.ready.take() else {
            return none_undecided(alloc);
        };
        unsettle(&mut ready);
        let again = taken_back(alloc, &mut ready);
        ready.state = state;
        ready.stood = stood;
        self.ready = Some(ready);
        again
    }

    /// Begins a base of all requests that were made, if none is being made and there are batches that the last one
    /// doesn't replace. Returns whether its parts must be written now.
    pub fn begin_base(&mut self, alloc: Global) -> Result<bool, AllocError>
        ensures me { self.new.me ≡ self.old.me }
        ensures shard { self.new.shard ≡ self.old.shard }
        ensures count { self.new.count ≡ self.old.count }
        ensures limits { self.new.limits ≡ self.old.limits }
        ensures known { (log : StoreLog Q R) → IsTrueOf M.service log self.old → IsTrueOf M.service log self.new }
        ensures asked { (asked : List (Ask Q)) (since : ℕ) → AreAsked asked since self.old
            → AreAsked asked since self.new }
        ensures asked_for { (asked : List (Ask Q)) → AreRequestsAsked asked self.old
            → AreRequestsAsked asked self.new }
        ensures exact { IfOk result (λ begun. begun ≡ server_begins self.old.ready) }
        ensures refused { OnErr result (IsAsReady self.old.ready self.new.ready) }
    {
        match &mut self.ready {
            Some(ready) => begin_base(alloc, ready),
            None => Ok(false),
        }
    }

    /// Returns the parts of the base that the server makes, if it makes one.
    pub fn parts(&self) -> Option<PartsSending<'_, R>>
        ensures own { IfSome result (λ sending. IfSome self.now.ready (λ ready.
            parts_transactions {Q = Q} sending ≡ basing_by self.now.shard ready.work)) }
        ensures may { IfSome result (λ sending. (charter : Charter Q (Part R)) (log : StoreLog Q R)
            → charter.parts ≡ base_of M.service → IsTrueOf M.service log self.now
            → AllByRecursion (MaySend charter log) (parts_transactions sending)) }
    {
        match &self.ready {
            Some(ready) => match &ready.work {
                Some(work) => Some(PartsSending {
                    shard: self.shard,
                    number: work.number,
                    parts: &work.parts,
                }),
                None => None,
            },
            None => None,
        }
    }

    /// Each part of the base that the server makes was written, so the head may name it.
    pub fn on_parts_made(&mut self)
        ensures me { self.new.me ≡ self.old.me }
        ensures shard { self.new.shard ≡ self.old.shard }
        ensures count { self.new.count ≡ self.old.count }
        ensures limits { self.new.limits ≡ self.old.limits }
        ensures known { (log : StoreLog Q R) → IsTrueOf M.service log self.old
            → IfSome self.old.ready (λ ready. AreWritten log self.old.shard ready)
            → IsTrueOf M.service log self.new }
        ensures asked { (asked : List (Ask Q)) (since : ℕ) → AreAsked asked since self.old
            → AreAsked asked since self.new }
        ensures asked_for { (asked : List (Ask Q)) → AreRequestsAsked asked self.old
            → AreRequestsAsked asked self.new }
    {
        if let Some(ready) = &mut self.ready {
            write_base(ready);
        }
    }

    /// Returns whether the base that the head names has replaced the value at this key, which may be deleted then: a
    /// batch that the base replaces, or a part of an older base.
    pub fn is_behind(&self, key: &PassingKey) -> bool
        ensures exact { result ≡ server_behind self.now.shard self.now.ready key.now }
        ensures may { IsTrue result → (charter : Charter Q (Part R)) (log : StoreLog Q R)
            → IsTrueOf M.service log self.now
            → MayClear charter log key.now }
    {
        match &self.ready {
            Some(ready) => is_behind(self.shard, &ready.head, key),
            None => false,
        }
    }

    /// Returns how many clients' last requests are kept: none before the shard was read.
    pub fn clients(&self) -> usize
        ensures { result ≡ clients_kept self.now.ready }
    {
        match &self.ready {
            Some(ready) => ready.replica.lasts.len(),
            None => 0,
        }
    }

    /// Returns how many batches the server has made: none before the shard was read.
    pub fn batches(&self) -> u64
        ensures { result ≡ batches_made self.now.ready }
    {
        match &self.ready {
            Some(ready) => ready.head.batches,
            None => 0,
        }
    }

    /// Notes that the transaction's compares didn't hold, or that its outcome is unknown. The server keeps the requests
    /// that it has read and made, and decides nothing until it has caught up with the log. Requests that were sent or
    /// wait must then be decided again.
    pub fn on_lost(&mut self, alloc: Global) -> Undecided<Q>
        ensures me { self.new.me ≡ self.old.me }
        ensures shard { self.new.shard ≡ self.old.shard }
        ensures count { self.new.count ≡ self.old.count }
        ensures limits { self.new.limits ≡ self.old.limits }
        ensures again { IfSome self.old.ready (λ ready. result.sent.items ++ result.waiting.items
            ≡ ready.sent.items ++ ready.waiting.items) }
        ensures questions { IfSome self.old.ready (λ ready. result.carried.items ++ result.asking.items
            ≡ ready.carried.items ++ ready.asking.items) }
        ensures known { (log : StoreLog Q R) → IsTrueOf M.service log self.old → IsTrueOf M.service log self.new }
        ensures decides { server_decides self.new.ready ≡ false }
        ensures asked { (asked : List (Ask Q)) (since : ℕ) → AreAsked asked since self.new }
        ensures asked_for { (asked : List (Ask Q)) → AreRequestsAsked asked self.new }
    {
        let Some(mut ready) = self.ready.take() else {
            return none_undecided(alloc);
        };
        stop_deciding(&mut ready);
        let again = taken_back(alloc, &mut ready);
        self.ready = Some(ready);
        again
    }
}

// Returns that nothing must be decided again.
fn none_undecided<Q: Drop>(alloc: Global) -> Undecided<Q> {
    Undecided {
        sent: Vec::new(alloc),
        waiting: Vec::new(alloc),
        carried: Vec::new(alloc),
        asking: Vec::new(alloc),
    }
}

// Takes back the requests that were sent or wait, which must be decided again.
fn taken_back<Q: Drop, R: Copy + Drop, M: StoreMachine<Q, R>>(
    alloc: Global,
    ready: &mut ShardState<M, Q, R>,
) -> Undecided<Q>
    ensures again { (result.sent ≡ ready.old.sent) × (result.waiting ≡ ready.old.waiting)
        × (result.carried ≡ ready.old.carried) × (result.asking ≡ ready.old.asking) }
    ensures none { (ready.new.sent.items ≡ []) × (ready.new.waiting.items ≡ [])
        × (ready.new.carried.items ≡ []) × (ready.new.asking.items ≡ []) }
    ensures read { (ready.new.state ≡ ready.old.state) × (ready.new.stood ≡ ready.old.stood)
        × (ready.new.head ≡ ready.old.head) × (ready.new.logged ≡ ready.old.logged) }
    ensures made { (ready.new.replica ≡ ready.old.replica) × (ready.new.work ≡ ready.old.work)
        × (ready.new.decides ≡ ready.old.decides) }
{
    Undecided {
        sent: std::mem::replace(&mut ready.sent, Vec::new(alloc)),
        waiting: std::mem::replace(&mut ready.waiting, Vec::new(alloc)),
        carried: std::mem::replace(&mut ready.carried, Vec::new(alloc)),
        asking: std::mem::replace(&mut ready.asking, Vec::new(alloc)),
    }
}
