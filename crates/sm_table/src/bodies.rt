ghost use Rattle.std.specs.Prelude.{◌≡◌, ◌<◌, ◌≤◌, ◌^◌, [], All, fold, length, map, replicate, slice_index_or};
ghost use Rattle.std.specs.Prelude.{slice_set, IfOk, IfErr, OnOk, OnErr};
ghost use Rattle.sm_ownership.specs.declared.entry.Ending.TheVariants.{Request, Checkpoint};
ghost use Rattle.sm_table.specs.Bodies.{kept_in, no_past, past_after, past_at};

use crate::traced::Traced;
use sm_body::service::{ApplyFault, Service};
use sm_ranges::shard_id::ShardId;
use std::alloc::{AllocError, Global};
use std::marker::Model;

/// The bodies of the shards, by the requests that each has applied since the initial state.
#[derive(Drop)]
pub(crate) struct Bodies<S: Service> {
    bodies: Vec<Traced<S>>,
}

impl<S: Service> Model for Bodies<S> {
    ghost use Rattle.std.specs.Prelude.{map};
    ghost use Rattle.sm_table.specs.Bodies.{BodiesView};

    ghost Value = { BodiesView S.Request };

    ghost view = { λ all. record {
      pasts = map (λ run. run.past) all.bodies.items;
      limits = map (λ run. run.limit) all.bodies.items;
    } };
}

impl<S: Service> Bodies<S> {
    /// Returns these bodies, by shard, before any of them has applied a request.
    pub fn new(alloc: Global, bodies: Vec<S>) -> Result<Bodies<S>, AllocError>
        requires initial { All (λ body. S.base body ≡ S.initial) bodies.items }
        requires first { All (λ body. S.before body ≡ 0) bodies.items }
        requires empty { All (λ body. S.requests body ≡ []) bodies.items }
        ensures pasts { IfOk result (λ all. all.pasts ≡ replicate (length bodies.items) no_past) }
        ensures limits { IfOk result (λ all. all.limits ≡ map S.limit bodies.items) }
    {
        let mut traced = Vec::with_capacity(alloc, bodies.len())?;
        for body in bodies {
            traced.push(Traced::new(body))?;
        }
        Ok(Bodies { bodies: traced })
    }

    /// Returns how many requests the shard has applied.
    pub fn applied(&self, k: ShardId) -> u64
        requires known { k < length self.now.pasts }
        requires few { length (past_at self.now.pasts k).all < 2 ^ 36 }
        ensures { result ≡ length (past_at self.now.pasts k).all }
    {
        self.bodies[k.index()].applied()
    }

    /// Applies the request to the body of the shard, or returns the request.
    pub fn apply(
        &mut self,
        k: ShardId,
        request: S::Request,
    ) -> Result<S::Reply, (S::Request, ApplyFault)>
        requires { k < length self.old.pasts }
        ensures pasts { OnOk result
            (self.new.pasts ≡ slice_set self.old.pasts k (past_after (past_at self.old.pasts k) (Request request))) }
        ensures reply { IfOk result
            (λ reply. reply ≡ S.answer (fold S.next S.initial (past_at self.old.pasts k).all) request) }
        ensures room { OnOk result
            (length (kept_in (past_at self.old.pasts k)) < slice_index_or self.old.limits k 0) }
        ensures full { IfErr result
            (λ back. back.1 ≡ ApplyFault.KeptFull
            → slice_index_or self.old.limits k 0 ≤ length (kept_in (past_at self.old.pasts k))) }
        ensures no_memory { IfErr result
            (λ back. back.1 ≡ ApplyFault.NoMemory
            → length (kept_in (past_at self.old.pasts k)) < slice_index_or self.old.limits k 0) }
        ensures handed_back { IfErr result (λ back. back.0 ≡ request) }
        ensures unchanged { OnErr result (self.new.pasts ≡ self.old.pasts) }
        ensures limits { self.new.limits ≡ self.old.limits }
    {
        self.bodies[k.index()].apply(request)
    }

    /// Makes the present state of the shard's body its base. Changes nothing if memory is refused.
    pub fn checkpoint(&mut self, k: ShardId) -> Result<(), AllocError>
        requires known { k < length self.old.pasts }
        requires few { length (past_at self.old.pasts k).all < 2 ^ 36 }
        ensures pasts { OnOk result
            (self.new.pasts ≡ slice_set self.old.pasts k (past_after (past_at self.old.pasts k) Checkpoint)) }
        ensures unchanged { OnErr result (self.new.pasts ≡ self.old.pasts) }
        ensures limits { self.new.limits ≡ self.old.limits }
    {
        self.bodies[k.index()].checkpoint()
    }
}
