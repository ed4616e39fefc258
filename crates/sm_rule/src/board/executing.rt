//! Requests that the body of an admitted shard applies, and its checkpoints.
ghost use Rattle.std.specs.Prelude.{◌≡◌, ◌<◌, ◌≤◌, ◌^◌, ◌++◌, ◌∷◌, [], None, IfErr, IfOk, OnErr, OnOk, fold, length};
ghost use Rattle.sm_ownership.specs.declared.entry.Ending.TheVariants.{Nothing, Request as Requested};
ghost use Rattle.sm_ownership.specs.declared.entry.Kind.TheVariants.{Done};
ghost use Rattle.sm_ownership.specs.History.{all_of, checkpoint_ending, kept};
ghost use Rattle.sm_rule.specs.Admissions.{HoldsPermit};
ghost use Rattle.sm_rule.specs.Boards.{limit_at};
ghost use Rattle.sm_rule.specs.Bodies.{Keeps};
ghost use Rattle.sm_rule.specs.Passes.{PassAdds, record_of};
ghost use Rattle.sm_rule.specs.Views.{all_held, first_held, list_held};

use super::Board;
use crate::pass::Pass;
use crate::permit::{Front, Permit};
use sm_body::service::{ApplyFault, Service};
use std::alloc::AllocError;

impl<S: Service> Board<S> {
    /// Makes the permit's body, as it was at the admission, apply the request, and ends the admission. If the request
    /// is applied, the entry keeps it. Otherwise the request comes back with the reason: `KeptFull` if the body keeps
    /// as many as its limit, and `NoMemory` only if it keeps fewer.
    pub fn execute(
        &self,
        pass: &mut Pass<S>,
        mut permit: Permit<S>,
        request: S::Request,
    ) -> (Result<S::Reply, (S::Request, ApplyFault)>, Front)
        requires board { pass.old.board ≡ self.now }
        requires permit { HoldsPermit pass.old permit }
        requires body { Keeps S.initial S.next S.base S.before S.requests permit.body (first_held pass.old.held)
            (all_held pass.old.held) }
        requires limit { S.limit permit.body ≡ limit_at self.now.limits permit.shard }

        // An applied request is the shard's last one, and its reply is that of the state after all requests before it.
        ensures applied { OnOk result.0 (PassAdds pass.old permit.shard (Done (Requested request)) pass.new) }
        ensures all { OnOk result.0 (all_of pass.new.seen permit.shard ≡ all_held pass.old.held ++ request ∷ []) }
        ensures kept { OnOk result.0 (kept pass.new.seen permit.shard ≡ S.requests permit.body ++ request ∷ []) }
        ensures reply { IfOk result.0 (λ reply.
            reply ≡ S.answer (fold S.next S.initial (all_held pass.old.held)) request) }
        ensures room { OnOk result.0 (length (S.requests permit.body) < S.limit permit.body) }

        // A refused request comes back, as the body refuses it, and the entry keeps none.
        ensures refused { OnErr result.0 (PassAdds pass.old permit.shard (Done Nothing) pass.new) }
        ensures unchanged { OnErr result.0 (kept pass.new.seen permit.shard ≡ S.requests permit.body) }
        ensures handed_back { IfErr result.0 (λ back. back.0 ≡ request) }
        ensures full { IfErr result.0 (λ back.
            back.1 ≡ ApplyFault.KeptFull → S.limit permit.body ≤ length (S.requests permit.body)) }
        ensures no_memory { IfErr result.0 (λ back.
            back.1 ≡ ApplyFault.NoMemory → length (S.requests permit.body) < S.limit permit.body) }

        ensures board { pass.new.board ≡ pass.old.board }
        ensures free { pass.new.held ≡ None }
        ensures shard { result.1.shard ≡ permit.shard }
        ensures generation { result.1.generation ≡ (record_of pass.new permit.shard).generation }
    {
        match permit.body().apply(request) {
            Ok(reply) => {
                let front = self.finish(pass, permit);
                (Ok(reply), front)
            }
            Err(back) => {
                let front = self.finish(pass, permit);
                (Err(back), front)
            }
        }
    }

    /// Makes the permit's body, as it was at the admission, make a checkpoint, and ends the admission. If the body kept
    /// requests, the entry is that checkpoint, and then the shard keeps none. If the body kept no request, there is no
    /// checkpoint. If memory is refused, there is none either, and the shard keeps the same requests.
    pub fn checkpoint(
        &self,
        pass: &mut Pass<S>,
        mut permit: Permit<S>,
    ) -> (Result<(), AllocError>, Front)
        requires board { pass.old.board ≡ self.now }
        requires permit { HoldsPermit pass.old permit }
        requires body { Keeps S.initial S.next S.base S.before S.requests permit.body (first_held pass.old.held)
            (all_held pass.old.held) }
        requires limit { S.limit permit.body ≡ limit_at self.now.limits permit.shard }
        ensures made { OnOk result.0
            (PassAdds pass.old permit.shard (Done (checkpoint_ending (list_held pass.old.held))) pass.new) }
        ensures kept { OnOk result.0 (kept pass.new.seen permit.shard ≡ []) }
        ensures refused { OnErr result.0 (PassAdds pass.old permit.shard (Done Nothing) pass.new) }
        ensures unchanged { OnErr result.0 (kept pass.new.seen permit.shard ≡ S.requests permit.body) }
        ensures all { all_of pass.new.seen permit.shard ≡ all_held pass.old.held }
        ensures board { pass.new.board ≡ pass.old.board }
        ensures free { pass.new.held ≡ None }
        ensures shard { result.1.shard ≡ permit.shard }
        ensures generation { result.1.generation ≡ (record_of pass.new permit.shard).generation }
    {
        self.bounds(pass);
        match permit.body().checkpoint() {
            Ok(()) => {
                let front = self.finish(pass, permit);
                (Ok(()), front)
            }
            Err(fault) => {
                let front = self.finish(pass, permit);
                (Err(fault), front)
            }
        }
    }

    /// Tells proofs how many requests the shard had that the pass holds. It does nothing.
    pub fn bounds(&self, pass: &Pass<S>)
        requires board { pass.now.board ≡ self.now }
        ensures { length (all_held pass.now.held) < 2 ^ 36 }
    {
        // These open the values, whose invariants the proof cites.
        let _ = &pass.server;
        let _ = &self.count;
    }
}
