//! The calls of a script on a cluster.

use super::ClusterBackend;
use super::requests::{learned, load_by, verdict_on};
use crate::refusals::{command_answer, hold_answer, publish_answer};
use sm_cluster::DrainFault;
use sm_desk::Command;
use sm_ownership::admit_fault::AdmitFault;
use sm_ranges::key::Key;
use sm_ranges::server_id::ServerId;
use sm_ranges::shard_id::ShardId;
use sm_script::{LineAnswer, LoadClients, Refused};
use sm_service::request::Request;
use sm_session::Backend;
use std::alloc::AllocError;
use std::sync::Wait;
use std::thread::Threads;

impl<R: Threads + Wait + Sync> Backend for ClusterBackend<R> {
    ghost use Rattle.std.specs.Thread.{IsSync};
    ghost use Rattle.sm_threads.specs.Calls.{Answers};

    ghost ready = { λ _. IsSync R.row };

    ghost answers = { Answers };

    fn command(&mut self, command: Command) -> Result<LineAnswer, AllocError> {
        let made = self.cluster.command(command);
        self.cluster.tell(&mut self.client);
        Ok(command_answer(made))
    }

    fn hold(&mut self, shard: ShardId, server: ServerId) -> Result<LineAnswer, AllocError> {
        let made = self.cluster.hold(shard, server);
        self.cluster.tell(&mut self.client);
        hold_answer(made)
    }

    fn free(&mut self, shard: ShardId) -> Result<LineAnswer, AllocError> {
        let made = self.cluster.free(shard);
        self.cluster.tell(&mut self.client);
        hold_answer(made)
    }

    fn checkpoint(&mut self, shard: ShardId, server: ServerId) -> Result<LineAnswer, AllocError> {
        let made = self.cluster.checkpoint(shard, server);
        self.cluster.tell(&mut self.client);
        hold_answer(made)
    }

    fn publish(&mut self, shard: ShardId) -> Result<LineAnswer, AllocError> {
        let made = self.cluster.publish(&self.rt, shard);
        self.cluster.tell(&mut self.client);
        publish_answer(made)
    }

    fn route(&mut self, key: Key) -> Result<LineAnswer, AllocError> {
        Ok(LineAnswer::Way(self.client.route(key.as_bytes())))
    }

    fn look(&mut self, shard: ShardId) -> Result<LineAnswer, AllocError> {
        if shard.index() >= self.cluster.layout().count() {
            return Ok(LineAnswer::Refused(Refused::UnknownShard));
        }
        Ok(LineAnswer::Seen(self.record(shard)))
    }

    fn load(
        &mut self,
        key: Key,
        clients: LoadClients,
        each: u16,
    ) -> Result<LineAnswer, AllocError> {
        let report = load_by(
            &self.rt,
            self.alloc,
            &mut self.loaders,
            clients.count(),
            key,
            each,
        );
        Ok(LineAnswer::Loaded(verdict_on(&report)))
    }

    fn place(&mut self) -> Result<LineAnswer, AllocError> {
        match self.cluster.plan_assign(self.alloc) {
            Ok(plan) => Ok(LineAnswer::Planned(plan)),
            Err(fault) => Err(fault),
        }
    }

    fn drain(&mut self, server: ServerId) -> Result<LineAnswer, AllocError> {
        if !self.cluster.desk().knows(server) {
            return Ok(LineAnswer::Refused(Refused::UnknownServer));
        }
        match self.cluster.plan_drain(self.alloc, server) {
            Ok(plan) => Ok(LineAnswer::Planned(plan)),
            Err(DrainFault::NoMemory) => Err(AllocError),
            Err(DrainFault::UnknownServer) => unreachable!(),
        }
    }

    fn request(&mut self, request: Request) -> Result<LineAnswer, AllocError> {
        let shard = self.client.shard_of(&request);
        match self.record(shard).stand.owner() {
            Some(owner) => self.ask_at(shard, owner, request),
            None => Ok(LineAnswer::Refused(Refused::Admit(AdmitFault::Vacant))),
        }
    }

    fn request_at(&mut self, server: ServerId, request: Request) -> Result<LineAnswer, AllocError> {
        let shard = self.client.shard_of(&request);
        self.ask_at(shard, server, request)
    }

    fn request_by_route(&mut self, request: Request) -> Result<LineAnswer, AllocError> {
        let given = self.client.call(&self.rt, self.alloc, 0, request);
        learned(&mut self.client, given)
    }
}
