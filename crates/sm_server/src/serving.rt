//! A server's step on an envelope.
ghost use Rattle.std.specs.Prelude.{◌≡◌, ◌<◌, true, None, Some, IsSome};
ghost use Rattle.sm_body.specs.Service.{meaning_of};
ghost use Rattle.sm_ownership.specs.Rules.{forward_to};
ghost use Rattle.sm_rule.specs.Passes.{PassLooks};
ghost use Rattle.sm_server.specs.Running.{IsHelper, turned_away, turned_by};
ghost use Rattle.sm_server.specs.Serving.{Served, is_here};

use crate::answer::Answer;
use crate::outcome::Outcome;
use crate::refusal::Refusal;
use crate::running::run;
use sm_body::service::Service;
use sm_envelope::envelope::Envelope;
use sm_ownership::admit_fault::AdmitFault;
use sm_ownership::record::Record;
use sm_ranges::layout::Layout;
use sm_ranges::server_id::ServerId;
use sm_rule::admit_refusal::AdmitRefusal;
use sm_rule::board::Board;
use sm_rule::note::Note;
use sm_rule::pass::Pass;

/// Returns a server's result for an envelope: the answer, if its pass is admitted and the request applied; the envelope
/// with one hop more, and the next server; or the envelope with the first reason for which it is refused.
///
/// For an answer, the request was executed once, in a history that extends everything that the pass and the envelope's
/// note had seen. `Forward`, `TooManyHops` and `Admit` depend on the shard's record in such a history, which the
/// envelope's note then has. `KeptFull` and `NoMemory` come with an admission that ended without a request.
pub fn serve<S: Service>(
    board: &Board<S>,
    layout: &Layout,
    pass: &mut Pass<S>,
    envelope: Envelope<S::Request, Note<S>>,
) -> Outcome<Answer<S>, Envelope<S::Request, Note<S>>>
    requires board { pass.old.board ≡ board.now }
    requires note { envelope.note.board ≡ board.now }
    requires server { IsSome pass.old.server }
    requires free { pass.old.held ≡ None }
    ensures seen { PassLooks pass.old pass.new }
    ensures served { Served (meaning_of S.initial S.next S.answer S.key_of)
        (is_here (meaning_of S.initial S.next S.answer S.key_of) layout.now board.now.limits.count envelope)
        pass.old envelope result }
{
    // If a pass sees nothing more, it has looked, because its history is legal.
    pass.soundness();
    if !has_shard(board, layout, &envelope) {
        return Outcome::Refused(Refusal::WrongShard, envelope);
    }
    let Some(server) = pass.server() else {
        unreachable!()
    };
    begin(board, pass, server, envelope)
}

// Returns whether the envelope's shard is the board's, and that of the request's key.
fn has_shard<S: Service>(
    board: &Board<S>,
    layout: &Layout,
    envelope: &Envelope<S::Request, Note<S>>,
) -> bool
    ensures { result
        ≡ is_here (meaning_of S.initial S.next S.answer S.key_of) layout.now board.now.limits.count envelope.now }
{
    let k = envelope.shard();
    k.index() < board.count() as usize && layout.covers(k, S::key(envelope.request()))
}

// Returns the envelope after a refused admission: if the record read makes the server forward it, it goes on.
fn turned_away<A, Q: Drop, N: Drop>(
    refusal: AdmitRefusal,
    server: ServerId,
    envelope: Envelope<Q, N>,
) -> Outcome<A, Envelope<Q, N>>
    ensures { result ≡ turned_away refusal server envelope }
{
    match refusal {
        AdmitRefusal::Refused(fault, state) => turned_by(fault, state, server, envelope),
        AdmitRefusal::Raced { read, found } => {
            let refusal = AdmitRefusal::Raced { read, found };
            Outcome::Refused(Refusal::Admit(refusal), envelope)
        }
    }
}

// Returns the envelope after a record that doesn't admit the server, with this fault if the server doesn't forward it.
fn turned_by<A, Q: Drop, N: Drop>(
    fault: AdmitFault,
    state: Record,
    server: ServerId,
    envelope: Envelope<Q, N>,
) -> Outcome<A, Envelope<Q, N>>
    ensures { result ≡ turned_by (forward_to state server) fault state server envelope }
{
    if state.forward_to(server).is_none() {
        let refusal = AdmitRefusal::Refused(fault, state);
        return Outcome::Refused(Refusal::Admit(refusal), envelope);
    }
    match envelope.forwarded(&state, server) {
        Ok((to, envelope)) => Outcome::Forward(to, envelope),
        Err(envelope) => Outcome::Refused(Refusal::TooManyHops, envelope),
    }
}

// Returns a new pass that has seen everything that the pass and the note have seen.
fn helper_of<S: Service>(board: &Board<S>, pass: &mut Pass<S>, note: Note<S>) -> Pass<S>
    requires board { pass.old.board ≡ board.now }
    requires note { note.board ≡ board.now }
    ensures unchanged { pass.new ≡ pass.old }
    ensures helper { IsHelper pass.old note result }
{
    let mut helper = board.split(pass);
    board.meet(&mut helper, note);
    helper
}

// Admits a helper, which has seen everything that the pass and the note have seen, and makes it execute the request.
fn begin<S: Service>(
    board: &Board<S>,
    pass: &mut Pass<S>,
    server: ServerId,
    envelope: Envelope<S::Request, Note<S>>,
) -> Outcome<Answer<S>, Envelope<S::Request, Note<S>>>
    requires board { pass.old.board ≡ board.now }
    requires note { envelope.note.board ≡ board.now }
    requires server { pass.old.server ≡ Some server }
    requires shard { envelope.shard < board.now.limits.count }
    ensures unchanged { pass.new ≡ pass.old }
    ensures served { Served (meaning_of S.initial S.next S.answer S.key_of) true pass.old envelope result }
{
    let (request, note, shell) = envelope.parts();
    let mut helper = helper_of(board, pass, note);
    match board.admit(&mut helper, shell.shard(), shell.mode()) {
        Ok(permit) => run(board, helper, permit, server, shell, request),
        Err(refusal) => {
            let back = shell.whole(request, helper.into_note());
            turned_away(refusal, server, back)
        }
    }
}
