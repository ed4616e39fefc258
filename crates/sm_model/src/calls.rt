//! How a call of a script is carried out on a world, step by step.

ghost use Rattle.std.specs.Prelude.{◌≡◌, ◌≢◌, ◌<◌, false, true, Some, Ok, Err, length, IfOk, OnErr};
ghost use Rattle.sm_ranges.specs.Ranges.{shard_of};
ghost use Rattle.sm_service.specs.Service.{key_of_request};
ghost use Rattle.sm_service.specs.declared.reply.Reply.{Reply as AnyReply};
ghost use Rattle.sm_table.specs.declared.world_answer.WorldAnswer.TheVariants.{Refused as AnyRefused};
ghost use Rattle.sm_table.specs.World.{Plain, Unmade, Unserved, mark_of, may_go};
ghost use Rattle.sm_model.specs.Calls.{answer_of, ends_in_step, is_begun, is_forwarded, is_sent};
ghost use Rattle.sm_model.specs.Sessions.{Arrives, Ends, HasAnswer, Steps};
ghost use Rattle.sm_script.specs.declared.call.Call.TheVariants as call;

use sm_envelope::{MOST_HOPS, Refusal};
use sm_ownership::admit_fault::AdmitFault;
use sm_ranges::server_id::ServerId;
use sm_ranges::shard_id::ShardId;
use sm_script::{Call, LineAnswer, Refused};
use sm_service::CounterText;
use sm_service::reply::Reply;
use sm_service::request::Request;
use sm_table::step::Step;
use sm_table::world::World;
use sm_table::world_answer::WorldAnswer;
use sm_table::world_fault::WorldFault;
use std::alloc::AllocError;

/// Makes the steps of the call, up to the step that ends it.
pub(crate) fn carry_out(
    world: &mut World<CounterText>,
    call: Call,
) -> Result<WorldAnswer<Reply>, WorldFault>
    requires { ends_in_step call ≡ true }
    ensures { Ends world.old call result world.new }
{
    match call {
        Call::Control(command) => make(world, Step::Control(command)),
        Call::Hold(shard, server) => make(world, Step::Hold(shard, server)),
        Call::Free(shard) => make(world, Step::Free(shard)),
        Call::Checkpoint(shard, server) => make_checkpoint(world, shard, server),
        Call::Publish(shard) => make(world, Step::Publish(shard)),
        Call::Route(key) => make(world, Step::RouteOf(key)),
        Call::Look(shard) => make(world, Step::Look(shard)),
        Call::Place | Call::Drain(_) | Call::RequestByRoute(_) | Call::Load { .. } => {
            unreachable!()
        }
        Call::Request(request) => run_request(world, request),
        Call::RequestAt(server, request) => {
            let shard = world.shard_of(&request);
            run_request_at(world, shard, server, request)
        }
    }
}

/// Makes a step that takes no memory.
fn make(
    world: &mut World<CounterText>,
    step: Step<Request>,
) -> Result<WorldAnswer<Reply>, WorldFault>
    requires no_memory { (may_go step Unmade ≡ false) × (may_go step Unserved ≡ false) }
    ensures steps { Steps world.old step result world.new }
    ensures bounds { world.new.bounds ≡ world.old.bounds }
{
    world.step(step)
}

/// Makes the shard's present state its base, at the server.
fn make_checkpoint(
    world: &mut World<CounterText>,
    shard: ShardId,
    server: ServerId,
) -> Result<WorldAnswer<Reply>, WorldFault>
    ensures { Ends world.old (call.Checkpoint shard server) result world.new }
{
    world.step(Step::Checkpoint(shard, server))
}

/// Executes the request at the owner of its key's shard.
fn run_request(
    world: &mut World<CounterText>,
    request: Request,
) -> Result<WorldAnswer<Reply>, WorldFault>
    ensures { Ends world.old (call.Request request) result world.new }
{
    let shard = world.shard_of(&request);
    match world.record(shard).stand.owner() {
        Some(owner) => run_request_at(world, shard, owner, request),
        None => Ok(WorldAnswer::Refused(Refusal::Admit(AdmitFault::Vacant))),
    }
}

/// Sends the request for this shard to the server, delivers it, and finishes it at the server that began it.
pub(crate) fn run_request_at(
    world: &mut World<CounterText>,
    shard: ShardId,
    server: ServerId,
    request: Request,
) -> Result<WorldAnswer<Reply>, WorldFault>
    requires within { shard < length world.old.bounds }
    requires shard { shard ≡ shard_of world.old.bounds (key_of_request request) }
    ensures { Ends world.old (call.RequestAt server request) result world.new }
{
    let sent = world.send(server, 0, shard, request);
    if !is_sent(&sent) {
        return sent;
    }
    let reached = arrive(world);
    if !is_begun(&reached) {
        return reached;
    }
    world.step(Step::Finish(shard))
}

/// Delivers the envelope in flight, and again after each hop, until a server begins its request or refuses it.
fn arrive(world: &mut World<CounterText>) -> Result<WorldAnswer<Reply>, WorldFault>
    ensures { Arrives world.old result world.new }
{
    for _hop in 0..MOST_HOPS {
        let reached = make(world, Step::Deliver(0));
        if !is_forwarded(&reached) {
            return reached;
        }
    }
    make(world, Step::Deliver(0))
}

/// Returns whether the step put a request in flight.
fn is_sent(answer: &Result<WorldAnswer<Reply>, WorldFault>) -> bool
    ensures { result ≡ is_sent answer.now }
{
    matches!(answer, Ok(WorldAnswer::Sent))
}

/// Returns whether a server began a request in this step.
fn is_begun(answer: &Result<WorldAnswer<Reply>, WorldFault>) -> bool
    ensures { result ≡ is_begun answer.now }
{
    matches!(answer, Ok(WorldAnswer::Began(_)))
}

/// Returns whether a server forwarded a request in this step.
fn is_forwarded(answer: &Result<WorldAnswer<Reply>, WorldFault>) -> bool
    ensures { result ≡ is_forwarded answer.now }
{
    matches!(answer, Ok(WorldAnswer::Forwarded(_)))
}

/// Returns the answer to a call that ended in this step. Returns an error only if memory is refused.
pub(crate) fn answer_of(
    ended: Result<WorldAnswer<Reply>, WorldFault>,
) -> Result<LineAnswer, AllocError>
    requires { HasAnswer ended }
    ensures ok { IfOk result (λ answer. answer_of ended ≡ Some answer) }
    ensures err { OnErr result (mark_of ended ≢ Plain) }
{
    match ended {
        Ok(made) => answer_of_made(made),
        Err(fault) => answer_of_fault(fault),
    }
}

/// Returns the answer to a call whose last step was made. Returns an error only if memory is refused.
fn answer_of_made(made: WorldAnswer<Reply>) -> Result<LineAnswer, AllocError>
    requires { HasAnswer (Ok made) }
    ensures ok { IfOk result (λ answer. answer_of (Ok made) ≡ Some answer) }
    ensures err { OnErr result (mark_of (Ok made) ≢ Plain) }
{
    match made {
        WorldAnswer::Made => Ok(LineAnswer::Made),
        WorldAnswer::Seen(record) => Ok(LineAnswer::Seen(record)),
        WorldAnswer::Way(route) => Ok(LineAnswer::Way(route)),
        WorldAnswer::Refused(refusal) => answer_of_refusal(refusal),
        WorldAnswer::Replied {
            number: _,
            server,
            reply,
            place,
        } => Ok(LineAnswer::Executed {
            reply,
            server,
            place,
        }),
        WorldAnswer::Sent | WorldAnswer::Began(_) | WorldAnswer::Forwarded(_) => unreachable!(),
    }
}

/// Returns the answer to a request that was refused. Returns an error only if memory is refused.
fn answer_of_refusal(refusal: Refusal) -> Result<LineAnswer, AllocError>
    ensures ok { IfOk result (λ answer. answer_of (Ok (AnyRefused refusal)) ≡ Some answer) }
    ensures err { OnErr result (refusal ≡ Refusal.NoMemory) }
{
    match refusal {
        Refusal::TooManyHops => Ok(LineAnswer::Refused(Refused::TooManyHops)),
        Refusal::Admit(fault) => Ok(LineAnswer::Refused(Refused::Admit(fault))),
        Refusal::KeptFull => Ok(LineAnswer::Refused(Refused::KeptFull)),
        Refusal::Unreachable => Ok(LineAnswer::Refused(Refused::Unreachable)),
        Refusal::NoMemory => Err(AllocError),
    }
}

/// Returns the answer to a call whose last step was refused. Returns an error only if memory is refused.
fn answer_of_fault(fault: WorldFault) -> Result<LineAnswer, AllocError>
    requires { HasAnswer (Err fault) }
    ensures ok { IfOk result (λ answer. answer_of (Err fault) ≡ Some answer) }
    ensures err { OnErr result (mark_of {R = AnyReply} (Err fault) ≢ Plain) }
{
    match fault {
        WorldFault::Command(fault) => Ok(LineAnswer::Refused(Refused::Command(fault))),
        WorldFault::Admit(fault) => Ok(LineAnswer::Refused(Refused::Admit(fault))),
        WorldFault::UnknownShard => Ok(LineAnswer::Refused(Refused::UnknownShard)),
        WorldFault::UnknownServer => Ok(LineAnswer::Refused(Refused::UnknownServer)),
        WorldFault::Unreachable => Ok(LineAnswer::Refused(Refused::Unreachable)),
        WorldFault::NotHeld => Ok(LineAnswer::Refused(Refused::NotHeld)),
        WorldFault::OldRoute => Ok(LineAnswer::Refused(Refused::OldRoute)),
        WorldFault::WrongPhase => Ok(LineAnswer::Refused(Refused::WrongPhase)),
        WorldFault::NoMemory => Err(AllocError),
        WorldFault::NoEnvelope => unreachable!(),
    }
}
