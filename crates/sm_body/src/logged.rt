ghost use Rattle.std.specs.Prelude.{◌≡◌, [], fold};

use crate::machine::Machine;
use crate::service::{ApplyFault, Service};
use sm_ranges::server_id::ServerId;
use sm_trace::shadow::Shadow;
use sm_trace::trace::Trace;
use std::alloc::{AllocError, Global};
use std::marker::Model;

/// The service of a machine: the body that applies requests to it. No call reads a request again after it is applied,
/// so only the length of the list is in memory. The list itself and the base are values that only proofs read.
#[derive(Drop)]
pub struct Logged<M: Machine> {
    alloc: Global,
    machine: M,
    base: Shadow<M>,
    first: u64,
    requests: Trace<M::Request>,
    kept: usize,
    limit: usize,
    settled: Option<ServerId>,
}

impl<M: Machine> Model for Logged<M> {
    ghost use Rattle.std.specs.Prelude.{◌≡◌, fold, length};
    ghost use Rattle.sm_body.specs.Service.{Log};

    ghost Value = { Log M M.Request };

    ghost view = { λ body. record {
      base = body.base.value;
      before = body.first;
      requests = body.requests.items;
      limit = body.limit;
    } };

    ghost invariant = { λ body. (body.machine ≡ fold M.after body.base.value body.requests.items)
        × (body.kept ≡ length body.requests.items) };
}

impl<M: Machine> Logged<M> {
    /// Makes the service of a machine that has answered nothing. It keeps at most `limit` requests.
    pub fn new(alloc: Global, limit: usize) -> Logged<M>
        ensures base { result.base ≡ M.start }
        ensures before { result.before ≡ 0 }
        ensures empty { result.requests ≡ [] }
        ensures limit { result.limit ≡ limit }
    {
        let machine = M::new(alloc);
        Logged {
            alloc,
            base: Shadow::of(&machine),
            machine,
            first: 0,
            requests: Trace::empty(),
            kept: 0,
            limit,
            settled: None,
        }
    }

    /// Returns the machine after the requests that are kept, from the base on.
    pub fn machine(&self) -> &M
        ensures { result.now ≡ fold M.after self.now.base self.now.requests }
    {
        &self.machine
    }
}

impl<M: Machine> Service for Logged<M> {
    type Request = M::Request;

    type Reply = M::Reply;

    ghost State = { M };

    ghost initial = { M.start };

    ghost next = { M.after };

    ghost answer = { M.reply };

    ghost key_of = { M.key_of };

    ghost base = { λ body. body.base };

    ghost before = { λ body. body.before };

    ghost requests = { λ body. body.requests };

    ghost limit = { λ body. body.limit };

    fn key(request: &M::Request) -> &[u8] {
        M::key(request)
    }

    fn kept(&self) -> usize {
        self.kept
    }

    fn first(&self) -> u64 {
        self.first
    }

    fn apply(&mut self, request: M::Request) -> Result<M::Reply, (M::Request, ApplyFault)> {
        if self.kept >= self.limit {
            return Err((request, ApplyFault::KeptFull));
        }
        let requests = self.requests.and(&request);
        match self.machine.answer_owned(self.alloc, request) {
            Ok(reply) => {
                self.requests = requests;
                self.kept += 1;
                Ok(reply)
            }
            Err((request, _)) => Err((request, ApplyFault::NoMemory)),
        }
    }

    fn settle(&mut self, server: ServerId) {
        if self.settled == Some(server) {
            return;
        }
        if self.machine.rebuild(self.alloc).is_ok() {
            self.settled = Some(server);
        }
    }

    fn checkpoint(&mut self) -> Result<(), AllocError> {
        self.base = Shadow::of(&self.machine);
        self.first += self.kept as u64;
        self.requests = Trace::empty();
        self.kept = 0;
        Ok(())
    }
}
