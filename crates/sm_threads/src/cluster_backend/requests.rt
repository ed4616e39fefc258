//! How a cluster's client makes requests and loads.
ghost use Rattle.std.specs.Prelude.{◌≡◌, ◌+◌, ◌*◌, ◌<◌, ◌≤◌, ◌^◌, IfOk, length};
ghost use Rattle.sm_cluster.specs.Calls.{HasLooked};
ghost use Rattle.sm_cluster.specs.Since.{IsClientSince};
ghost use Rattle.sm_ranges.specs.Ranges.{shard_of};
ghost use Rattle.sm_service.specs.Service.{key_of_request};
ghost use Rattle.sm_threads.specs.Calls.{AnsweredAt, AnsweredResult, with_client};
ghost use Rattle.sm_threads.specs.Loads.{IsLoadOf, IsVerdictOn};

use super::ClusterBackend;
use crate::key_count::KeyCount;
use crate::refusals::call_refused;
use sm_cluster::{Answer, CallRefused, Client};
use sm_load::{LoadReport, load};
use sm_ownership::record::Record;
use sm_ranges::key::Key;
use sm_ranges::server_id::ServerId;
use sm_ranges::shard_id::ShardId;
use sm_script::{LineAnswer, LoadVerdict, Refused};
use sm_service::CounterText;
use sm_service::request::Request;
use std::alloc::{AllocError, Global};
use std::sync::Wait;
use std::thread::Threads;

impl<R: Wait> ClusterBackend<R> {
    /// Returns the shard's record, which the client then sees.
    pub(super) fn record(&mut self, shard: ShardId) -> Record
        requires { shard < length self.old.client.bounds }
        ensures looked { HasLooked self.old.client shard result self.new.client }
        ensures unchanged { self.new ≡ with_client self.old self.new.client }
    {
        self.client.look(shard)
    }

    /// Sends the request of this shard to the server, if there is such a server. An error is a lack of memory.
    pub(super) fn ask_at(
        &mut self,
        shard: ShardId,
        server: ServerId,
        request: Request,
    ) -> Result<LineAnswer, AllocError>
        requires within { shard < length self.old.client.bounds }
        requires shard { shard ≡ shard_of self.old.client.bounds (key_of_request request) }
        ensures { IfOk result (λ answer. AnsweredAt self.old server request answer self.new) }
    {
        if !self.cluster.desk().knows(server) {
            return Ok(LineAnswer::Refused(Refused::UnknownServer));
        }
        let given = self
            .client
            .call_shard_at(&self.rt, self.alloc, server, 0, shard, request);
        learned(&mut self.client, given)
    }
}

/// Makes the first client ask for the key's count; then so many others add to it, so many times each, and the first
/// asks again. The other clients make no call.
pub(super) fn load_by<R: Threads + Wait + Sync>(
    rt: &R,
    alloc: Global,
    clients: &mut [Client<CounterText>],
    count: usize,
    key: Key,
    each: u16,
) -> LoadReport
    requires count { (1 ≤ count) × (count < length clients.old) × (length clients.old < 2 ^ 32) }
    ensures total { result.acked + result.refused ≡ count * each }
    ensures loaded { IsLoadOf key count each clients.old result clients.new }
{
    let counting = KeyCount { alloc, key };
    let (used, _idle) = clients.split_at_mut(count + 1);
    load(rt, alloc, used, &counting, u32::from(each))
}

/// Makes the client learn its call's result, and answers that. An error is a lack of memory.
pub(super) fn learned(
    client: &mut Client<CounterText>,
    given: Result<Answer<CounterText>, CallRefused<Request>>,
) -> Result<LineAnswer, AllocError>
    requires { IfOk given (λ answer. answer.note.board ≡ client.old.pass.board) }
    ensures answered { IfOk result (λ answer. AnsweredResult client.old given answer client.new) }
    ensures since { IsClientSince client.old client.new }
{
    match given {
        Ok(answer) => {
            let told = client.learn(answer);
            Ok(LineAnswer::Executed {
                reply: told.reply,
                server: told.server,
                place: told.place,
            })
        }
        Err(refused) => call_refused(refused.fault),
    }
}

/// Returns the verdict on the counts of a load.
pub(super) fn verdict_on(report: &LoadReport) -> LoadVerdict
    ensures { IsVerdictOn report.now result }
{
    let (Some(before), Some(after)) = (report.before, report.after) else {
        return LoadVerdict::Unknown;
    };
    if i128::from(before) + i128::from(report.acked) == i128::from(after) {
        LoadVerdict::Agrees
    } else {
        LoadVerdict::Differs
    }
}
