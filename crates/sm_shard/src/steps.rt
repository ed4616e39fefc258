ghost use Rattle.std.specs.Prelude.{◌≡◌, IfErr, IfOk, OnOk};
ghost use Rattle.sm_shard.specs.Steps.{IsCaughtUp, IsOutputOf, IsRefusedOn, IsStepOf, KeepsAsked};

use crate::base_part::BasePart;
use crate::replica::ReplayFault;
use crate::shard_server::{ShardServer, StoreAnswers, Undecided};
use crate::shard_state::Decision;
use crate::steps::ShardOutput::{Answers, Bases, Clears, Decided, Decides, Nothing, Sends};
use crate::store_machine::StoreMachine;
use sm_ownership::record::Record;
use sm_store::head::Head;
use sm_store::item::Item;
use sm_store::store_key::PassingKey;
use std::alloc::Global;

/// An input of a server.
#[derive(Drop)]
pub enum ShardInput<'a, Q, R> {
    /// The shard's record and the head of its log were read, and the revision of each; and the parts of the base that
    /// the head names, and the batches after it, as far as they are there.
    Read {
        state: Record,
        stood: u64,
        head: Head,
        logged: u64,
        parts: &'a [BasePart<R>],
        batches: &'a [Vec<Item<Q>>],
    },
    /// The shard's record and the head of its log were read, and the revision of each; and the batches after those that
    /// the server has, as far as they are there.
    Append {
        state: Record,
        stood: u64,
        head: Head,
        logged: u64,
        batches: &'a [Vec<Item<Q>>],
    },
    /// Only the shard's record was read, or seen by the watch.
    Record {
        state: Record,
        stood: u64,
    },
    /// A request came, from a client or forwarded.
    Request(Item<Q>),
    /// A request came that only reads, from a client or forwarded.
    Question(Item<Q>),
    /// It is time to send the waiting requests.
    Flush,
    /// The transaction that was sent was made at this revision, or has held there if it only compares.
    Made(u64),
    /// Its compares didn't hold, or its outcome isn't known.
    Lost,
    /// It is time to make a base.
    Base,
    /// Each part of the base that is made was written.
    PartsMade,
    /// Something lies at this key, which may be behind the base.
    Clear(PassingKey),
}

/// An output of a server.
#[derive(Drop)]
pub enum ShardOutput<Q, R> {
    Nothing,
    /// It sends its transaction.
    Sends,
    /// It has decided on the request.
    Decided(Decision<R>),
    /// It gives these answers.
    Answers(StoreAnswers<R>),
    /// These requests must be decided again.
    Decides(Undecided<Q>),
    /// It writes the parts of a base.
    Bases,
    /// It deletes the value at this key.
    Clears(PassingKey),
}

/// Makes one step of a server.
pub fn step<Q: Drop, R: Copy + Drop, M: StoreMachine<Q, R>>(
    alloc: Global,
    server: &mut ShardServer<M, Q, R>,
    input: ShardInput<'_, Q, R>,
) -> Result<ShardOutput<Q, R>, ReplayFault>
    ensures me { server.new.me ≡ server.old.me }
    ensures shard { server.new.shard ≡ server.old.shard }
    ensures count { server.new.count ≡ server.old.count }
    ensures limits { server.new.limits ≡ server.old.limits }
    ensures exact { IfOk result (IsOutputOf M.service M.size server.old input.entry) }
    ensures call { IsStepOf M.service server.old input.entry result server.new }
    ensures asked_for { KeepsAsked server.old input.entry result server.new }
    ensures caught_up { OnOk result (IsCaughtUp server.old input.entry server.new) }
    ensures refused { IfErr result (λ fault. IsRefusedOn server.old input.entry fault server.new) }
{
    match input {
        ShardInput::Read {
            state,
            stood,
            head,
            logged,
            parts,
            batches,
        } => {
            server.on_read(alloc, state, stood, head, logged, parts, batches)?;
            Ok(Nothing)
        }
        ShardInput::Append {
            state,
            stood,
            head,
            logged,
            batches,
        } => Ok(Decides(server.on_append(alloc, state, stood, head, logged, batches)?)),
        ShardInput::Record { state, stood } => Ok(Decides(server.on_record(alloc, state, stood))),
        ShardInput::Request(item) => Ok(Decided(server.on_request(item)?)),
        ShardInput::Question(item) => Ok(Decided(server.on_question(item)?)),
        ShardInput::Flush => if server.flush(alloc)? {
            Ok(Sends)
        } else {
            Ok(Nothing)
        },
        ShardInput::Made(revision) => Ok(Answers(server.on_made(alloc, revision)?)),
        ShardInput::Lost => Ok(Decides(server.on_lost(alloc))),
        ShardInput::Base => if server.begin_base(alloc)? {
            Ok(Bases)
        } else {
            Ok(Nothing)
        },
        ShardInput::PartsMade => {
            server.on_parts_made();
            Ok(Nothing)
        }
        ShardInput::Clear(key) => if server.is_behind(&key) {
            Ok(Clears(key))
        } else {
            Ok(Nothing)
        },
    }
}
