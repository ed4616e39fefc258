//! A request that is executed under a permit.
ghost use Rattle.std.specs.Prelude.{◌≡◌, ◌<◌, ◌^◌, ◌+◌, length};
ghost use Rattle.sm_body.specs.Service.{meaning_of};
ghost use Rattle.sm_rule.specs.Admissions.{HoldsPermit};
ghost use Rattle.sm_rule.specs.Boards.{limit_at};
ghost use Rattle.sm_rule.specs.Bodies.{Keeps};
ghost use Rattle.sm_rule.specs.Views.{all_held, first_held};
ghost use Rattle.sm_server.specs.Running.{HasBegun, Ran, refusal_of};

use crate::answer::Answer;
use crate::outcome::Outcome;
use crate::refusal::Refusal;
use sm_body::service::{ApplyFault, Service};
use sm_envelope::envelope::Envelope;
use sm_envelope::shell::Shell;
use sm_ranges::server_id::ServerId;
use sm_rule::board::Board;
use sm_rule::note::Note;
use sm_rule::pass::Pass;
use sm_rule::permit::Permit;

// Executes the request under the permit of a helper that has done nothing else.
pub(crate) fn run<S: Service>(
    board: &Board<S>,
    mut helper: Pass<S>,
    mut permit: Permit<S>,
    server: ServerId,
    shell: Shell,
    request: S::Request,
) -> Outcome<Answer<S>, Envelope<S::Request, Note<S>>>
    requires board { helper.board ≡ board.now }
    requires permit { HoldsPermit helper permit }
    requires shard { permit.shard ≡ shell.shard }
    requires begun { HasBegun helper shell.shard server shell.mode }
    requires body { Keeps S.initial S.next S.base S.before S.requests permit.body (first_held helper.held)
        (all_held helper.held) }
    requires limit { S.limit permit.body ≡ limit_at board.now.limits permit.shard }
    ensures { Ran (meaning_of S.initial S.next S.answer S.key_of) helper shell request result }
{
    // There are so few requests that they can be counted.
    board.bounds(&helper);
    let place = settle(permit.body(), server);
    let (applied, _) = board.execute(&mut helper, permit, request);
    let note = helper.into_note();
    match applied {
        Ok(reply) => Outcome::Answered(Answer {
            number: shell.number(),
            server,
            reply,
            place,
            note,
        }),
        Err((request, fault)) => Outcome::Refused(refusal_of(fault), shell.whole(request, note)),
    }
}

// Why a server refuses a request that the body didn't apply.
fn refusal_of(fault: ApplyFault) -> Refusal
    ensures { result ≡ refusal_of fault }
{
    match fault {
        ApplyFault::KeptFull => Refusal::KeptFull,
        ApplyFault::NoMemory => Refusal::NoMemory,
    }
}

// Settles the body for the server, and counts the requests that it has applied in all.
fn settle<S: Service>(body: &mut S, server: ServerId) -> u64
    requires few { S.before body.old + length (S.requests body.old) < 2 ^ 64 }
    ensures base { S.base body.new ≡ S.base body.old }
    ensures before { S.before body.new ≡ S.before body.old }
    ensures kept { S.requests body.new ≡ S.requests body.old }
    ensures limit { S.limit body.new ≡ S.limit body.old }
    ensures count { result ≡ S.before body.old + length (S.requests body.old) }
{
    body.settle(server);
    body.first() + body.kept() as u64
}
