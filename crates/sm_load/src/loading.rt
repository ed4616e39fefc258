//! A load: many clients call at once.
ghost use Rattle.std.specs.Prelude.{◌≡◌, ◌+◌, ◌-◌, ◌*◌, ◌<◌, ◌^◌, ◌⊎◌, IfErr, IfOk, IfSome, MatchBool, None, length};
ghost use Rattle.sm_body.specs.Service.{meaning_of};
ghost use Rattle.sm_calls.specs.Calls.{HandsBack};
ghost use Rattle.sm_calls.specs.Since.{IsClientSince};
ghost use Rattle.sm_load.specs.Loads.{AreClientsSince, HasAdded, HasLearnedCount, HasLearnedReply, HaveAdded};
ghost use Rattle.sm_load.specs.Loads.{HaveLoaded, WasTold, WasToldTwice};

use crate::counting::Counting;
use crate::inc_counts::{IncCounts, count_all};
use sm_body::service::Service;
use sm_calls::{CallFault, CallRefused, Client};
use sm_ownership::admit_fault::AdmitFault;
use sm_rule::admit_refusal::AdmitRefusal;
use sm_server::Refusal;
use std::alloc::Global;
use std::sync::Wait;
use std::thread::Threads;

// How many threads a load starts at most.
const MOST_THREADS: usize = 64;

// How often an inc is made again if its shard was admitted for another request.
const MOST_RETRIES: u32 = 1_000;

/// The outcome of a load.
#[derive(Clone, Copy, PartialEq, Eq, Drop)]
pub struct LoadReport {
    /// How many incs were answered by a count.
    pub acked: u64,
    /// How many were not.
    pub refused: u64,
    /// The count before all incs, or 0 if the reply had none; nothing if its call was refused.
    pub before: Option<i64>,
    /// The count after all incs, likewise.
    pub after: Option<i64>,
}

/// Makes the first client ask for the count. Then each of the others makes so many incs, in its own thread if there can
/// be one, and the first asks again. If an inc finds its shard admitted for another request, it is made again, at most
/// 1,000 times. Each client learns its answers, and counts which of its incs were answered with a count and which were
/// not.
pub fn load<S: Service, C: Counting<S::Request, S::Reply> + Sync, R: Threads + Wait + Sync>(
    rt: &R,
    alloc: Global,
    clients: &mut [Client<S>],
    counting: &C,
    each: u32,
) -> LoadReport
    requires clients { (1 < length clients.old) × (length clients.old < 2 ^ 32) }
    ensures total { result.acked + result.refused ≡ (length clients.old - 1) * each }
    ensures loaded { HaveLoaded (meaning_of S.initial S.next S.answer S.key_of) (C.tells counting.now)
        (C.asks counting.now) (C.adds counting.now) each clients.old result clients.new }
    ensures clients { AreClientsSince clients.old clients.new }
{
    let Some((first, others)) = clients.split_first_mut() else {
        unreachable!()
    };
    load_by(rt, alloc, counting, each, first, others)
}

// The first client asks, the others make incs, and the first asks again.
fn load_by<S: Service, C: Counting<S::Request, S::Reply> + Sync, R: Threads + Wait + Sync>(
    rt: &R,
    alloc: Global,
    counting: &C,
    each: u32,
    first: &mut Client<S>,
    others: &mut [Client<S>],
) -> LoadReport
    requires others { length others.old < 2 ^ 32 }
    ensures total { result.acked + result.refused ≡ length others.old * each }
    ensures told { WasToldTwice (meaning_of S.initial S.next S.answer S.key_of) (C.tells counting.now)
        (C.asks counting.now) first.old result.before result.after first.new }
    ensures added { HaveAdded (meaning_of S.initial S.next S.answer S.key_of) (C.tells counting.now)
        (C.adds counting.now) each others.old result.acked result.refused others.new }
    ensures first { IsClientSince first.old first.new }
    ensures others { AreClientsSince others.old others.new }
{
    let before = count(rt, alloc, counting, 0, first);
    let counts = inc_all(rt, alloc, counting, each, others);
    let after = count(rt, alloc, counting, 1, first);
    LoadReport {
        acked: counts.acked,
        refused: counts.refused,
        before,
        after,
    }
}

// Makes each client make so many incs, and adds up their outcomes.
fn inc_all<S: Service, C: Counting<S::Request, S::Reply> + Sync, R: Threads + Wait + Sync>(
    rt: &R,
    alloc: Global,
    counting: &C,
    each: u32,
    clients: &mut [Client<S>],
) -> IncCounts
    requires { length clients.old < 2 ^ 32 }
    ensures { HaveAdded (meaning_of S.initial S.next S.answer S.key_of) (C.tells counting.now)
        (C.adds counting.now) each clients.old result.acked result.refused clients.new }
{
    let run = |client: &mut Client<S>| -> IncCounts
        ensures { HasAdded (meaning_of S.initial S.next S.answer S.key_of) (C.tells counting.entry.now)
            (C.adds counting.entry.now) each client.entry.now result.acked result.refused client.exit.now }
    { inc_each(rt, alloc, counting, each, client) };
    count_all(rt, &run, each, MOST_THREADS, clients)
}

// Makes so many incs, and counts those that were answered with a count, and the others.
fn inc_each<S: Service, C: Counting<S::Request, S::Reply>, R: Wait>(
    rt: &R,
    alloc: Global,
    counting: &C,
    each: u32,
    client: &mut Client<S>,
) -> IncCounts
    ensures { HasAdded (meaning_of S.initial S.next S.answer S.key_of) (C.tells counting.now)
        (C.adds counting.now) each client.old result.acked result.refused client.new }
{
    let mut counts = IncCounts {
        acked: 0,
        refused: 0,
    };
    for number in 0..each {
        let is_acked = inc(rt, alloc, counting, u64::from(number), client);
        counts = counts.with(is_acked);
    }
    counts
}

// Makes an inc, and says whether it was answered by a count.
#[tactic(auto, using(sm_calls::specs::lemmas::Since::since_same, sm_calls::specs::lemmas::Since::since_since))]
fn inc<S: Service, C: Counting<S::Request, S::Reply>, R: Wait>(
    rt: &R,
    alloc: Global,
    counting: &C,
    number: u64,
    client: &mut Client<S>,
) -> bool
    ensures { MatchBool result
        (HasLearnedCount (meaning_of S.initial S.next S.answer S.key_of) (C.tells counting.now) (C.adds counting.now)
        client.old client.new)
        (IsClientSince client.old client.new) }
{
    let Ok(request) = counting.inc() else {
        return false;
    };
    match ask(rt, alloc, number, request, client) {
        Some(reply) => counting.count(&reply).is_some(),
        None => false,
    }
}

// Returns the count in a call's answer, or 0 if there is none; or nothing if the call is refused.
#[tactic(auto, using(sm_calls::specs::lemmas::Since::since_same, sm_calls::specs::lemmas::Since::since_since))]
fn count<S: Service, C: Counting<S::Request, S::Reply>, R: Wait>(
    rt: &R,
    alloc: Global,
    counting: &C,
    number: u64,
    client: &mut Client<S>,
) -> Option<i64>
    ensures told { IfSome result (WasTold (meaning_of S.initial S.next S.answer S.key_of)
        (C.tells counting.now) (C.asks counting.now) client.old client.new) }
    ensures since { IsClientSince client.old client.new }
{
    let Ok(request) = counting.get() else {
        return None;
    };
    match learn(rt, alloc, number, request, client) {
        Ok(reply) => Some(counting.count(&reply).unwrap_or(0)),
        Err(_) => None,
    }
}

// Returns the reply to the request, or nothing if it is refused. The request is made again if its shard was admitted
// for another one.
#[tactic(auto, using(sm_calls::specs::lemmas::Since::since_same, sm_calls::specs::lemmas::Since::since_since))]
fn ask<S: Service, R: Wait>(
    rt: &R,
    alloc: Global,
    number: u64,
    mut request: S::Request,
    client: &mut Client<S>,
) -> Option<S::Reply>
    ensures learned { IfSome result
        (HasLearnedReply (meaning_of S.initial S.next S.answer S.key_of) request client.old client.new) }
    ensures since { IsClientSince client.old client.new }
{
    for retry in 0..=MOST_RETRIES {
        if retry > 0 {
            client.count_retry();
        }
        match learn(rt, alloc, number, request, client) {
            Ok(reply) => return Some(reply),
            Err(refused) => match made_anew(refused) {
                Some(back) => request = back,
                None => return None,
            },
        }
    }
    None
}

// Returns the reply to the request, which the client has then learned, or why there is none.
fn learn<S: Service, R: Wait>(
    rt: &R,
    alloc: Global,
    number: u64,
    request: S::Request,
    client: &mut Client<S>,
) -> Result<S::Reply, CallRefused<S::Request>>
    ensures learned { IfOk result
        (HasLearnedReply (meaning_of S.initial S.next S.answer S.key_of) request client.old client.new) }
    ensures back { IfErr result (HandsBack request) }
    ensures since { IsClientSince client.old client.new }
{
    match client.call(rt, alloc, number, request) {
        Ok(answer) => Ok(client.learn(answer).reply),
        Err(refused) => Err(refused),
    }
}

// The request of a call that is made anew: its shard was admitted for another one.
fn made_anew<Q: Drop>(refused: CallRefused<Q>) -> Option<Q>
    ensures { (result ≡ refused.back) ⊎ (result ≡ None) }
{
    match refused.fault {
        CallFault::Refused(Refusal::Admit(AdmitRefusal::Refused(AdmitFault::Admitted, _))) => {
            refused.back
        }
        CallFault::Refused(Refusal::Admit(AdmitRefusal::Raced { read: _, found: _ })) => {
            refused.back
        }
        _ => None,
    }
}
