ghost use Rattle.std.specs.Prelude.{◌≡◌, ◌≢◌, ◌<◌, ◌^◌, None, IfErr, OnErr, OnOk};
ghost use Rattle.sm_ownership.specs.History.{IsLegal, NoneBy, after_kind};
ghost use Rattle.sm_word.specs.Word.{IsWellFormed, word_of};
ghost use Rattle.sm_rule.specs.declared.view.Stage.TheVariants.{Acting};
ghost use Rattle.sm_rule.specs.Bodies.{Keeps};
ghost use Rattle.sm_rule.specs.Changes.{ChairLooks, record_at_chair};
ghost use Rattle.sm_rule.specs.Passes.{PassLooks, record_of};
ghost use Rattle.sm_rule.specs.Steps.{MayAdd, TakesBody};
ghost use Rattle.sm_rule.specs.Views.{Adds, Looks, record_in};
ghost use Rattle.sm_rule.specs.Words.{IsWordOf};

mod admitting;
mod changing;
mod closing;
mod executing;
mod making;
mod telling;
mod two_passes;

use crate::chair::Chair;
use crate::origin::Origin;
use crate::pass::Pass;
use crate::rule::{Asks, BoardRule, Enter, Exchange, Hires, Kept, Load};
use crate::view::View;
use atomic_table::{Seat, Table};
use sm_body::service::Service;
use sm_ownership::record::Record;
use sm_ranges::server_id::ServerId;
use sm_ranges::shard_id::ShardId;
use sm_word::word::record_of_word;
use std::alloc::Global;
use std::marker::{Brand, Model};

/// One word and one body for each shard, shared by threads. By the board's rule, each word is that of the shard's
/// record in the one history that all steps make. The body of each idle shard is in its slot, has the shard's limit,
/// and rests on all requests in the history for the shard.
#[derive(Drop)]
pub struct Board<S: Service> {
    table: Table<Option<S>, View<S::Request>, Origin<S>, BoardRule<Kept<S>>, Global>,
    count: u64,
    ceiling: u64,
}

impl<S: Service> Model for Board<S> {
    ghost use Rattle.std.specs.Prelude.{◌≡◌, ◌<◌, ◌≤◌, ◌^◌};
    ghost use Rattle.sm_ranges.specs.declared.limits.TheConstants.{MAX_SHARDS};
    ghost use Rattle.sm_rule.specs.Boards.{BoardValue, limits_of};

    ghost Value = { BoardValue };

    ghost view = { λ board. record {
      id = board.table.shared.table_id;
      limits = limits_of S.limit board.count board.ceiling board.table.shared.key.bodies.value.items;
    } };

    ghost invariant = { λ board. (board.table.shared.key.count ≡ board.count)
        × (board.table.shared.key.ceiling ≡ board.ceiling)
        × (board.count ≡ board.table.shared.table_id.words) × (board.count ≡ board.table.shared.table_id.slots)
        × (1 ≤ board.count) × (board.count ≤ MAX_SHARDS) × (board.ceiling < 2 ^ 36) };
}

impl<S: Service> Board<S> {
    /// Returns the number of the board's shards.
    pub fn count(&self) -> u32
        ensures { result ≡ self.now.limits.count }
    {
        self.count as u32
    }

    /// Returns a new pass with this server. Its number isn't the chair's, and has no entry in the history that the pass
    /// has seen. By the board's rule no two passes have the same number.
    pub fn pass(&self, server: Option<ServerId>) -> Pass<S>
        ensures board { result.board ≡ self.now }
        ensures server { result.server ≡ server }
        ensures held { result.held ≡ None }
        ensures number { (result.number ≢ 0) × NoneBy result.number result.seen }
        ensures legal { IsLegal self.now.limits.count self.now.limits.ceiling result.seen }
    {
        self.pass_as::<Brand>(server)
    }

    fn pass_as<B: Hires>(&self, server: Option<ServerId>) -> Pass<S>
        requires { B.server ≡ server }
        ensures board { result.board ≡ self.now }
        ensures server { result.server ≡ server }
        ensures held { result.held ≡ None }
        ensures number { (result.number ≢ 0) × NoneBy result.number result.seen }
        ensures legal { IsLegal self.now.limits.count self.now.limits.ceiling result.seen }
    {
        let (_, seat) = self.table.shared.load_new_seat::<Enter<B>>(0);
        Pass { seat, server }
    }

    /// Returns the shard's record after all that the pass then has seen.
    pub fn look(&self, pass: &mut Pass<S>, k: ShardId) -> Record
        requires board { pass.old.board ≡ self.now }
        requires shard { k < self.now.limits.count }
        ensures seen { PassLooks pass.old pass.new }
        ensures state { result ≡ record_of pass.new k }
    {
        self.load(&mut pass.seat, k).1
    }

    /// Returns the word of the shard's record after all that the pass then has seen.
    pub fn look_word(&self, pass: &mut Pass<S>, k: ShardId) -> u64
        requires board { pass.old.board ≡ self.now }
        requires shard { k < self.now.limits.count }
        ensures seen { PassLooks pass.old pass.new }
        ensures word { IsWordOf (record_of pass.new k) result }
    {
        self.load(&mut pass.seat, k).0
    }

    /// Returns the shard's record after all that the chair then has seen.
    pub fn look_chair(&self, chair: &mut Chair<S>, k: ShardId) -> Record
        requires board { chair.old.board ≡ self.now }
        requires shard { k < self.now.limits.count }
        ensures seen { ChairLooks chair.old chair.new }
        ensures state { result ≡ record_at_chair chair.new k }
    {
        self.load(&mut chair.seat, k).1
    }

    // Changes the shard's word from the word of the record read to that of the next one. If another word is found in
    // its place, returns that word and its record. A function call would pass records through memory just before the
    // exchange, and the exchange would wait for that.
    #[inline(always)]
    fn exchange<B: Asks<S::Request>>(
        &self,
        seat: &mut Seat<Option<S>, View<S::Request>>,
        k: ShardId,
        read: &Record,
        next: &Record,
        old: u64,
        new: u64,
    ) -> Result<(), (u64, Record)>
        requires table { seat.old.table_id ≡ self.now.id }
        requires limits { seat.old.me.0.limits ≡ self.now.limits }
        requires live { seat.old.me.0.stage ≡ Acting }
        requires shard { k < self.now.limits.count }
        requires formed { IsWellFormed read.now × IsWellFormed next.now }
        requires next { next.now ≡ after_kind read.now B.kind }
        requires words { (old ≡ word_of read.now) × (new ≡ word_of next.now) }
        requires may { MayAdd seat.old.me.0 k read.now B.kind }
        ensures table { seat.new.table_id ≡ seat.old.table_id }
        ensures made { OnOk result (Adds seat.old.me.0 k B.kind seat.new.me.0) }
        ensures slots { OnOk result (TakesBody (Keeps S.initial S.next S.base S.before S.requests) S.limit B.kind k
            seat.old.me.1 seat.new.me.0 seat.new.me.1) }
        ensures next { OnOk result (next.now ≡ record_in seat.new.me.0.limits seat.new.me.0.seen k) }
        ensures lost { OnErr result (Looks seat.old.me.0 seat.new.me.0) }
        ensures unchanged { OnErr result (seat.new.me.1 ≡ seat.old.me.1) }
        ensures found { IfErr result
            (λ found. (found.1 ≡ record_in seat.new.me.0.limits seat.new.me.0.seen k) × (found.1 ≢ read.now)) }
        ensures found_word { IfErr result (λ found. IsWordOf found.1 found.0) }
    {
        let found = self
            .table
            .shared
            .compare_exchange::<Exchange<Kept<S>, B>>(seat, k.index(), old, new);
        if found == old {
            return Ok(());
        }
        Err((found, record_of_word(found)))
    }

    // Loads the shard's word, and reads its record.
    #[inline(always)]
    fn load(&self, seat: &mut Seat<Option<S>, View<S::Request>>, k: ShardId) -> (u64, Record)
        requires table { seat.old.table_id ≡ self.now.id }
        requires limits { seat.old.me.0.limits ≡ self.now.limits }
        requires live { seat.old.me.0.stage ≡ Acting }
        requires shard { k < self.now.limits.count }
        ensures table { seat.new.table_id ≡ seat.old.table_id }
        ensures slots { seat.new.me.1 ≡ seat.old.me.1 }
        ensures seen { Looks seat.old.me.0 seat.new.me.0 }
        ensures state { result.1 ≡ record_in seat.new.me.0.limits seat.new.me.0.seen k }
        ensures formed { IsWellFormed result.1 }
        ensures word { result.0 ≡ word_of result.1 }
        ensures low { self.now.limits.ceiling < 2 ^ 36 }
    {
        let word = self.table.shared.load::<Load>(seat, k.index());
        (word, record_of_word(word))
    }
}
