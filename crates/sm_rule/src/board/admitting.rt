//! Admissions of passes to shards, and their ends.
ghost use Rattle.std.specs.Prelude.{◌≡◌, ◌<◌, Some, None, IfErr, IfOk, OnOk, [], ◌∷◌, unwrap_or};
ghost use Rattle.sm_ownership.specs.declared.entry.Ending.{Ending};
ghost use Rattle.sm_ownership.specs.declared.entry.Kind.TheVariants.{Admit, Done};
ghost use Rattle.sm_ownership.specs.declared.record.Record.{Record as RecordValue};
ghost use Rattle.sm_ownership.specs.History.{all_of, first_of, kept};
ghost use Rattle.sm_rule.specs.Admissions.{HoldsPermit, PassAdmitted, RefusedBy, fault_for};
ghost use Rattle.sm_rule.specs.Boards.{limit_at};
ghost use Rattle.sm_rule.specs.Bodies.{Keeps, all_after, ending_between};
ghost use Rattle.sm_rule.specs.Passes.{PassAdds, PassLooks, record_of};
ghost use Rattle.sm_rule.specs.Views.{EndsWith, all_held, first_held, list_held};
ghost use Rattle.sm_rule.specs.Words.{IsWordOf};

use super::Board;
use crate::admit_refusal::AdmitRefusal;
use crate::pass::Pass;
use crate::permit::{Front, Permit};
use crate::rule::{Asks, Store};
use crate::told_refusal::ToldRefusal;
use crate::view::View;
use atomic_table::Seat;
use sm_body::service::Service;
use sm_ownership::admit_fault::AdmitFault;
use sm_ownership::mode::Mode;
use sm_ownership::record::Record;
use sm_ranges::server_id::ServerId;
use sm_ranges::shard_id::ShardId;
use sm_ranges::stand::Stand;
use sm_word::word::{admit_word, done_word, is_served, record_of_word};
use std::marker::Brand;
use std::snapshot::Snapshot;

impl<S: Service> Board<S> {
    /// Returns the first reason for which a record of this board doesn't admit the server for a request that came in
    /// this mode, if there is one. Without a server that is `Vacant`, `Paused` or `NotExecutor`.
    pub fn refusal(
        &self,
        state: &Record,
        server: Option<ServerId>,
        mode: Mode,
    ) -> Option<AdmitFault>
        ensures { result ≡ fault_for self.now.limits.ceiling state.now server mode }
    {
        match server {
            Some(server) => state.admit_fault(server, mode, self.ceiling),
            None => match state.stand {
                Stand::Vacant => Some(AdmitFault::Vacant),
                Stand::Paused(_) => Some(AdmitFault::Paused),
                _ => Some(AdmitFault::NotExecutor),
            },
        }
    }

    // Does the same for the record with this word. Most admissions find at once that there is no reason.
    #[inline(always)]
    fn refusal_by(
        &self,
        word: u64,
        state: &Record,
        server: Option<ServerId>,
        mode: Mode,
    ) -> Option<AdmitFault>
        requires { IsWordOf state.now word }
        ensures { result ≡ fault_for self.now.limits.ceiling state.now server mode }
    {
        if let Some(server) = server
            && is_served(word, server)
            && self.ceiling >= 2
            && state.generation <= self.ceiling - 2
        {
            return None;
        }
        self.refusal_of(word, server, mode)
    }

    // Does the same with only the word. It is separate because most admissions don't need it.
    #[inline(never)]
    fn refusal_of(&self, word: u64, server: Option<ServerId>, mode: Mode) -> Option<AdmitFault>
        requires { (state : RecordValue) × IsWordOf state word }
        ensures { (state : RecordValue) → IsWordOf state word
            → result ≡ fault_for self.now.limits.ceiling state server mode }
    {
        self.refusal(&record_of_word(word), server, mode)
    }

    /// Admits the pass to the shard, for a request that came to its server in this mode. Returns the permit with the
    /// shard's body, which has the shard's limit and rests on all requests of the shard that the pass has then seen. If
    /// the pass isn't admitted, returns the first fault that applies to the record read, or that the call was
    /// overtaken. A refusal adds no entry of the pass. No clause says that a call adds no entries of other actors.
    #[inline(always)]
    pub fn admit(
        &self,
        pass: &mut Pass<S>,
        k: ShardId,
        mode: Mode,
    ) -> Result<Permit<S>, AdmitRefusal>
        requires board { pass.old.board ≡ self.now }
        requires shard { k < self.now.limits.count }
        requires free { pass.old.held ≡ None }
        ensures admitted { OnOk result (PassAdmitted pass.old k mode pass.new) }
        ensures permit { IfOk result (λ permit. (permit.shard ≡ k) × HoldsPermit pass.new permit) }
        ensures body { IfOk result (λ permit.
            Keeps S.initial S.next S.base S.before S.requests permit.body (first_of pass.new.seen k)
            (all_of pass.new.seen k)) }
        ensures kept { IfOk result (λ permit. S.requests permit.body ≡ kept pass.new.seen k) }
        ensures held { IfOk result (λ permit.
            Keeps S.initial S.next S.base S.before S.requests permit.body (first_held pass.new.held)
            (all_held pass.new.held)) }
        ensures all { OnOk result (all_held pass.new.held ≡ all_of pass.new.seen k) }
        ensures first { OnOk result (first_held pass.new.held ≡ first_of pass.new.seen k) }
        ensures limit { IfOk result (λ permit. S.limit permit.body ≡ limit_at self.now.limits permit.shard) }
        ensures refused { IfErr result
            (λ refusal. PassLooks pass.old pass.new × RefusedBy pass.old pass.new k mode refusal) }
    {
        match self.enter(pass, k, mode) {
            Ok(permit) => Ok(permit),
            Err(told) => Err(told.refusal()),
        }
    }

    /// `admit`, whose refusal has words in place of records.
    #[inline(always)]
    pub fn enter(
        &self,
        pass: &mut Pass<S>,
        k: ShardId,
        mode: Mode,
    ) -> Result<Permit<S>, ToldRefusal>
        requires board { pass.old.board ≡ self.now }
        requires shard { k < self.now.limits.count }
        requires free { pass.old.held ≡ None }
        ensures admitted { OnOk result (PassAdmitted pass.old k mode pass.new) }
        ensures permit { IfOk result (λ permit. (permit.shard ≡ k) × HoldsPermit pass.new permit) }
        ensures body { IfOk result (λ permit.
            Keeps S.initial S.next S.base S.before S.requests permit.body (first_of pass.new.seen k)
            (all_of pass.new.seen k)) }
        ensures kept { IfOk result (λ permit. S.requests permit.body ≡ kept pass.new.seen k) }
        ensures held { IfOk result (λ permit.
            Keeps S.initial S.next S.base S.before S.requests permit.body (first_held pass.new.held)
            (all_held pass.new.held)) }
        ensures all { OnOk result (all_held pass.new.held ≡ all_of pass.new.seen k) }
        ensures first { OnOk result (first_held pass.new.held ≡ first_of pass.new.seen k) }
        ensures limit { IfOk result (λ permit. S.limit permit.body ≡ limit_at self.now.limits permit.shard) }
        ensures refused { IfErr result
            (λ refusal. PassLooks pass.old pass.new × RefusedBy pass.old pass.new k mode refusal) }
    {
        self.enter_as::<Brand>(pass, k, mode)
    }

    // A call would pass the permit through memory between two atomic steps, which wait for that.
    #[inline(always)]
    fn enter_as<B: Asks<S::Request>>(
        &self,
        pass: &mut Pass<S>,
        k: ShardId,
        mode: Mode,
    ) -> Result<Permit<S>, ToldRefusal>
        requires board { pass.old.board ≡ self.now }
        requires shard { k < self.now.limits.count }
        requires free { pass.old.held ≡ None }
        requires kind { B.kind ≡ Admit (unwrap_or pass.old.server 0) mode }
        ensures admitted { OnOk result (PassAdmitted pass.old k mode pass.new) }
        ensures permit { IfOk result (λ permit. (permit.shard ≡ k) × HoldsPermit pass.new permit) }
        ensures body { IfOk result (λ permit.
            Keeps S.initial S.next S.base S.before S.requests permit.body (first_of pass.new.seen k)
            (all_of pass.new.seen k)) }
        ensures kept { IfOk result (λ permit. S.requests permit.body ≡ kept pass.new.seen k) }
        ensures held { IfOk result (λ permit.
            Keeps S.initial S.next S.base S.before S.requests permit.body (first_held pass.new.held)
            (all_held pass.new.held)) }
        ensures all { OnOk result (all_held pass.new.held ≡ all_of pass.new.seen k) }
        ensures first { OnOk result (first_held pass.new.held ≡ first_of pass.new.seen k) }
        ensures limit { IfOk result (λ permit. S.limit permit.body ≡ limit_at self.now.limits permit.shard) }
        ensures refused { IfErr result
            (λ refusal. PassLooks pass.old pass.new × RefusedBy pass.old pass.new k mode refusal) }
    {
        let (word, read) = self.load(&mut pass.seat, k);
        match self.refusal_by(word, &read, pass.server, mode) {
            Some(fault) => return Err(ToldRefusal::refused(fault, &read, word)),
            None => {}
        }
        let state = Record {
            stand: read.stand,
            admitted: true,
            generation: read.generation + 1,
        };
        let next = admit_word(word);
        match self.exchange::<B>(&mut pass.seat, k, &read, &state, word, next) {
            Ok(()) => {}
            Err((other, found)) => return Err(ToldRefusal::raced(&read, &found, word, other)),
        }
        let body = self.taken(&mut pass.seat, k);
        Ok(Permit {
            board: Snapshot::of(self),
            shard: k,
            state: Snapshot::of(&state),
            word: next,
            body,
        })
    }

    // The body out of the slot that the seat has taken.
    fn taken(&self, seat: &mut Seat<Option<S>, View<S::Request>>, k: ShardId) -> S
        requires table { seat.old.table_id ≡ self.now.id }
        requires slot { (body : S) × (seat.old.me.1 ≡ (k, Some body) ∷ []) }
        ensures table { seat.new.table_id ≡ seat.old.table_id }
        ensures body { seat.old.me.1 ≡ (k, Some result) ∷ [] }
        ensures slot { seat.new.me ≡ (seat.old.me.0, (k, None) ∷ []) }
    {
        let Some(body) = self.table.shared.exchange(seat, k.index(), None) else {
            unreachable!()
        };
        body
    }

    /// Ends the admission of the permit, and gives its body back. Since the admission the body must have gained one
    /// request, or none, or it must have made a checkpoint of its kept requests, and the entry says which. It must have
    /// the limit of its shard. The end can't be refused.
    pub fn finish(&self, pass: &mut Pass<S>, permit: Permit<S>) -> Front
        requires board { pass.old.board ≡ self.now }
        requires permit { HoldsPermit pass.old permit }
        requires body { (ending : Ending S.Request)
            × EndsWith (Keeps S.initial S.next S.base S.before S.requests) pass.old.held permit.body ending }
        requires limit { S.limit permit.body ≡ limit_at self.now.limits permit.shard }
        ensures done { (ending : Ending S.Request)
            → EndsWith (Keeps S.initial S.next S.base S.before S.requests) pass.old.held permit.body ending
            → PassAdds pass.old permit.shard (Done ending) pass.new }
        ensures body { Keeps S.initial S.next S.base S.before S.requests permit.body
            (first_of pass.new.seen permit.shard) (all_of pass.new.seen permit.shard) }
        ensures all { (ending : Ending S.Request)
            → EndsWith (Keeps S.initial S.next S.base S.before S.requests) pass.old.held permit.body ending
            → all_of pass.new.seen permit.shard ≡ all_after (all_held pass.old.held) ending }
        ensures kept { kept pass.new.seen permit.shard ≡ S.requests permit.body }
        ensures board { pass.new.board ≡ pass.old.board }
        ensures free { pass.new.held ≡ None }
        ensures shard { result.shard ≡ permit.shard }
        ensures generation { result.generation ≡ (record_of pass.new permit.shard).generation }
    {
        self.finish_as::<Brand>(pass, permit)
    }

    fn finish_as<B: Asks<S::Request>>(&self, pass: &mut Pass<S>, permit: Permit<S>) -> Front
        requires board { pass.old.board ≡ self.now }
        requires permit { HoldsPermit pass.old permit }
        requires body { (ending : Ending S.Request)
            × EndsWith (Keeps S.initial S.next S.base S.before S.requests) pass.old.held permit.body ending }
        requires limit { S.limit permit.body ≡ limit_at self.now.limits permit.shard }
        requires kind { B.kind ≡ Done (ending_between (list_held pass.old.held) (S.requests permit.body)) }
        ensures done { (ending : Ending S.Request)
            → EndsWith (Keeps S.initial S.next S.base S.before S.requests) pass.old.held permit.body ending
            → PassAdds pass.old permit.shard (Done ending) pass.new }
        ensures body { Keeps S.initial S.next S.base S.before S.requests permit.body
            (first_of pass.new.seen permit.shard) (all_of pass.new.seen permit.shard) }
        ensures all { (ending : Ending S.Request)
            → EndsWith (Keeps S.initial S.next S.base S.before S.requests) pass.old.held permit.body ending
            → all_of pass.new.seen permit.shard ≡ all_after (all_held pass.old.held) ending }
        ensures kept { kept pass.new.seen permit.shard ≡ S.requests permit.body }
        ensures shard { result.shard ≡ permit.shard }
        ensures generation { result.generation ≡ (record_of pass.new permit.shard).generation }
    {
        let Permit {
            board: _,
            shard,
            state: _,
            word,
            body,
        } = permit;
        let generation = record_of_word(word).generation + 1;
        let word = done_word(word);
        let at = shard.index();
        let _ = self.table.shared.exchange(&mut pass.seat, at, Some(body));
        self.table
            .shared
            .store::<Store<B>>(&mut pass.seat, at, word);
        Front { shard, generation }
    }
}
