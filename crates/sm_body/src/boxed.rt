ghost use Rattle.std.specs.Prelude.{◌≡◌, IfOk};

use crate::service::{ApplyFault, Service};
use sm_ranges::server_id::ServerId;
use std::alloc::{AllocError, Global};
use std::marker::Model;

/// A body in memory of its own, so that moving it moves only a pointer. It is the same service as the body inside.
#[derive(Drop)]
pub struct Boxed<S> {
    body: Box<S>,
}

impl<S> Model for Boxed<S> {
    ghost Value = { S };

    ghost view = { λ boxed. boxed.body.value };
}

impl<S: Service> Boxed<S> {
    /// Puts the body into memory of its own. If that is refused, returns `AllocError`, and the body is dropped.
    pub fn new(alloc: Global, body: S) -> Result<Boxed<S>, AllocError>
        ensures { IfOk result (λ boxed. boxed ≡ body) }
    {
        Ok(Boxed {
            body: Box::new(alloc, body)?,
        })
    }
}

impl<S: Service> Service for Boxed<S> {
    type Request = S::Request;

    type Reply = S::Reply;

    ghost State = { S.State };

    ghost initial = { S.initial };

    ghost next = { S.next };

    ghost answer = { S.answer };

    ghost key_of = { S.key_of };

    ghost base = { S.base };

    ghost before = { S.before };

    ghost requests = { S.requests };

    ghost limit = { S.limit };

    fn key(request: &S::Request) -> &[u8] {
        S::key(request)
    }

    fn kept(&self) -> usize {
        self.body.kept()
    }

    fn first(&self) -> u64 {
        self.body.first()
    }

    fn apply(&mut self, request: S::Request) -> Result<S::Reply, (S::Request, ApplyFault)> {
        self.body.apply(request)
    }

    fn settle(&mut self, server: ServerId) {
        self.body.settle(server);
    }

    fn checkpoint(&mut self) -> Result<(), AllocError> {
        self.body.checkpoint()
    }
}
