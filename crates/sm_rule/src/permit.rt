ghost use Rattle.std.specs.Borrow.{sem, Lends};
ghost use Rattle.std.specs.Prelude.{◌≡◌, ◌<◌, ◌≤◌};
ghost use Rattle.sm_ownership.specs.declared.record.TheConstants.{MAX_GENERATION};
ghost use Rattle.sm_rule.specs.contracts.permit.Permit.{the_row};
ghost use Rattle.sm_rule.specs.Admissions.{with_body};

use crate::board::Board;
use sm_body::service::Service;
use sm_ownership::record::Record;
use sm_ranges::shard_id::ShardId;
use sm_word::word::record_of_word;
use std::marker::Model;
use std::snapshot::Snapshot;

/// The right to execute requests of a shard, which an admission gives, with the shard's body. It must be spent by the
/// end of the admission: it can't be dropped.
pub struct Permit<S: Service> {
    // The board that gave it, as proofs see it. It takes no memory.
    pub(crate) board: Snapshot<Board<S>>,
    pub(crate) shard: ShardId,
    // The shard's record since the admission, as proofs see it, and its word. The record takes no memory.
    pub(crate) state: Snapshot<Record>,
    pub(crate) word: u64,
    pub(crate) body: S,
}

impl<S: Service> Model for Permit<S> {
    ghost use Rattle.std.specs.Prelude.{◌≡◌, true};
    ghost use Rattle.sm_ownership.specs.History.{after_done};
    ghost use Rattle.sm_word.specs.Word.{IsWellFormed, word_of};
    ghost use Rattle.sm_rule.specs.Admissions.{PermitValue};

    ghost Value = { PermitValue S };

    ghost view = { λ permit. record {
      board = permit.board.value;
      shard = permit.shard;
      state = permit.state.value;
      body = permit.body;
    } };

    ghost invariant = { λ permit. IsWellFormed (after_done permit.state.value) × IsWellFormed permit.state.value
        × (permit.state.value.admitted ≡ true) × (permit.word ≡ word_of permit.state.value) };
}

impl<S: Service> Permit<S> {
    /// Returns the shard's generation since the admission. An admission is an entry, so no generation of one is 0.
    pub fn generation(&self) -> u64
        ensures state { result ≡ self.now.state.generation }
        ensures counted { 0 < result }
        ensures low { result ≤ MAX_GENERATION }
    {
        record_of_word(self.word).generation
    }

    /// Returns the shard's body. Writes through the borrow are in the permit once the borrow ends.
    pub fn body(&mut self) -> &mut S
        ensures* writes_back { sem 𝓛 (Lends (the_row S.row S.Request.row S.Reply.row S.Service) S.row self.entry result
            (λ body. with_body self.old body)) }
        ensures value { result.now ≡ self.old.body }
    {
        &mut self.body
    }
}

/// The state of a shard after the end of an admission.
#[derive(Clone, Copy, Debug, PartialEq, Eq, Drop)]
pub struct Front {
    pub shard: ShardId,
    /// The shard's generation since then.
    pub generation: u64,
}
