ghost use Rattle.std.specs.Prelude.{◌≡◌, ◌<◌, ◌≤◌, ◌^◌, [], fold, length, IfOk, IfErr, OnOk, OnErr};
ghost use Rattle.sm_ownership.specs.declared.entry.Ending.TheVariants.{Request, Checkpoint};
ghost use Rattle.sm_table.specs.Bodies.{kept_in, no_past, past_after};

use sm_body::service::{ApplyFault, Service};
use sm_trace::trace::Trace;
use std::alloc::AllocError;
use std::marker::Model;

/// A shard's body, by all requests that it has applied since the initial state. The requests exist only in proofs.
#[derive(Drop)]
pub(crate) struct Traced<S: Service> {
    body: S,
    all: Trace<S::Request>,
}

impl<S: Service> Model for Traced<S> {
    ghost use Rattle.std.specs.Prelude.{◌≡◌, ◌≤◌, drop, fold, length, take};
    ghost use Rattle.sm_table.specs.Bodies.{Run};

    ghost Value = { Run S.Request };

    ghost view = { λ one. record {
      past = record { all = one.all.items; first = S.before one.body };
      limit = S.limit one.body;
    } };

    ghost invariant = { λ one.
        (S.base one.body ≡ fold S.next S.initial (take (S.before one.body) one.all.items))
        × (S.requests one.body ≡ drop (S.before one.body) one.all.items)
        × (S.before one.body ≤ length one.all.items) };
}

impl<S: Service> Traced<S> {
    /// Returns a body that has applied nothing.
    pub fn new(body: S) -> Traced<S>
        requires initial { S.base body ≡ S.initial }
        requires first { S.before body ≡ 0 }
        requires empty { S.requests body ≡ [] }
        ensures past { result.past ≡ no_past }
        ensures limit { result.limit ≡ S.limit body }
    {
        Traced {
            body,
            all: Trace::empty(),
        }
    }

    /// Returns how many requests the body has applied.
    pub fn applied(&self) -> u64
        requires { length self.now.past.all < 2 ^ 36 }
        ensures { result ≡ length self.now.past.all }
    {
        self.body.first() + self.body.kept() as u64
    }

    /// Applies the request, or returns it if the body refuses it.
    pub fn apply(&mut self, request: S::Request) -> Result<S::Reply, (S::Request, ApplyFault)>
        ensures past { OnOk result (self.new.past ≡ past_after self.old.past (Request request)) }
        ensures reply { IfOk result (λ reply. reply ≡ S.answer (fold S.next S.initial self.old.past.all) request) }
        ensures room { OnOk result (length (kept_in self.old.past) < self.old.limit) }
        ensures full { IfErr result (λ back.
            back.1 ≡ ApplyFault.KeptFull → self.old.limit ≤ length (kept_in self.old.past)) }
        ensures no_memory { IfErr result (λ back.
            back.1 ≡ ApplyFault.NoMemory → length (kept_in self.old.past) < self.old.limit) }
        ensures handed_back { IfErr result (λ back. back.0 ≡ request) }
        ensures unchanged { OnErr result (self.new.past ≡ self.old.past) }
        ensures limit { self.new.limit ≡ self.old.limit }
    {
        let all = self.all.and(&request);
        let reply = self.body.apply(request)?;
        self.all = all;
        Ok(reply)
    }

    /// Makes the present state the base. Changes nothing if memory is refused.
    pub fn checkpoint(&mut self) -> Result<(), AllocError>
        requires { length self.old.past.all < 2 ^ 36 }
        ensures past { OnOk result (self.new.past ≡ past_after self.old.past Checkpoint) }
        ensures unchanged { OnErr result (self.new.past ≡ self.old.past) }
        ensures limit { self.new.limit ≡ self.old.limit }
    {
        self.body.checkpoint()
    }
}
