//! The effects of calls on passes of the sample service, and envelopes, that handles keep.
ghost use Rattle.std.specs.Prelude.{◌≡◌, ◌≤◌, IfErr, IfNone, IfOk, IfSome, IsSome, Some};
ghost use Rattle.sm_ownership.specs.declared.mode.Mode.TheVariants.{Direct, Forwarded};
ghost use Rattle.sm_handle_state.specs.declared.handle_state.HandleState.TheVariants.{Envelope as Sent};
ghost use Rattle.sm_handle_state.specs.declared.handle_state.HandleState.TheVariants.{Layout as LayoutOf, TextPass};
ghost use Rattle.sm_handle_state.specs.Serving.{Carries, CarriesNothing, ComesNoWay, IsOfBoard, IsSentAs};
ghost use Rattle.sm_handle_state.specs.Serving.{KeepsNoAnswer, KeepsNoEnvelope, MakesCheckpoint};
ghost use Rattle.sm_handle_state.specs.Serving.{RefusesCheckpoint, Serves};
ghost use Rattle.sm_handle_state.specs.Serving.{ServesNowhere, TellsAnswer};

use crate::act_fault::ActFault;
use crate::answer_parts::AnswerParts;
use crate::handle_state::HandleState;
use crate::sent_as::SentAs;
use crate::served_as::ServedAs;
use sm_envelope::envelope::{Envelope, MOST_HOPS};
use sm_envelope::shell::Shell;
use sm_foreign::FreePass;
use sm_ownership::mode::Mode;
use sm_ownership::record::Record;
use sm_ranges::layout::Layout;
use sm_ranges::server_id::ServerId;
use sm_ranges::shard_id::ShardId;
use sm_ranges::stand::Stand;
use sm_rule::note::Note;
use sm_server::Outcome;
use sm_service::{CounterText, Request};

/// Returns an envelope that came so, with a note of all that the state's pass has seen.
pub fn envelope_of(
    state: &mut HandleState,
    sent: SentAs,
    request: Request,
) -> Result<HandleState, ActFault>
    ensures made { IfOk result (λ made. Carries (Some state.old) (Some made) sent request) }
    ensures refused { IfErr result (CarriesNothing (Some state.old) sent) }
    ensures unchanged { state.new ≡ state.old }
{
    let Some(shell) = shell_of(sent) else {
        return Err(ActFault::NotSent);
    };
    let HandleState::TextPass(pass) = state else {
        return Err(ActFault::WrongHandle);
    };
    let note = pass.note();
    Ok(HandleState::Envelope(shell.whole(request, note)))
}

// Returns the shell of an envelope that came in this mode, if that is possible: directly without a hop, or forwarded
// with 1 to 4.
fn shell_of(sent: SentAs) -> Option<Shell>
    ensures made { IfSome result (λ shell. (shell.number ≡ sent.number) × (shell.shard ≡ sent.shard)
        × (shell.mode ≡ sent.mode) × (shell.hops ≡ sent.hops)) }
    ensures none { IfNone result (ComesNoWay sent.mode sent.hops) }
{
    let direct = Envelope::new(sent.number, sent.shard, (), ());
    let envelope = match forwarder(&sent.mode) {
        None if sent.hops == 0 => direct,
        Some(from) if 1 <= sent.hops && sent.hops <= MOST_HOPS => hopped(direct, from, sent.hops),
        _ => return None,
    };
    let (_, _, shell) = envelope.parts();
    Some(shell)
}

/// Returns the result of the state's server for the envelope, and its outcome; or the state as it was, and why.
pub fn served_by(
    state: &mut HandleState,
    layout: &HandleState,
    sent: HandleState,
) -> (HandleState, Result<ServedAs, ActFault>)
    requires { IsOfBoard (Some state.old) (Some sent) }
    ensures served { IfOk result.1
        (Serves (Some state.old) (Some state.new) (Some layout.now) (Some sent) (Some result.0)) }
    ensures refused { IfErr result.1 (λ fault. ServesNowhere (Some state.old) (Some layout.now) (Some sent)) }
    ensures fault { IfErr result.1 (λ fault. fault ≡ ActFault.WrongHandle) }
    ensures kept { IfErr result.1 (λ fault. state.new ≡ state.old) }
    ensures back { IfErr result.1 (λ fault. result.0 ≡ sent) }
{
    let HandleState::TextPass(pass) = state else {
        return (sent, Err(ActFault::WrongHandle));
    };
    if pass.server().is_none() {
        return (sent, Err(ActFault::WrongHandle));
    }
    let HandleState::Layout(layout) = layout else {
        return (sent, Err(ActFault::WrongHandle));
    };
    match sent {
        HandleState::Envelope(envelope) => {
            let (next, served) = serve_at(pass, layout, envelope);
            (next, Ok(served))
        }
        other => (other, Err(ActFault::WrongHandle)),
    }
}

// Returns the result of the pass's server for the envelope.
fn serve_at(
    pass: &mut FreePass<CounterText>,
    layout: &Layout,
    envelope: Envelope<Request, Note<CounterText>>,
) -> (HandleState, ServedAs)
    requires board { envelope.note.board ≡ pass.old.board }
    requires server { IsSome pass.old.server }
    ensures { Serves (Some (TextPass pass.old)) (Some (TextPass pass.new)) (Some (LayoutOf layout.now))
        (Some (Sent envelope)) (Some result.0) result.1 }
{
    match pass.serve(layout, envelope) {
        Outcome::Answered(answer) => (HandleState::Answer(answer), ServedAs::Answered),
        Outcome::Forward(to, back) => (HandleState::Envelope(back), ServedAs::Forward(to)),
        Outcome::Refused(refusal, back) => (
            HandleState::Envelope(back),
            ServedAs::Refused(refusal),
        ),
    }
}

// Returns the server that forwarded a request in this mode, if one did.
fn forwarder(mode: &Mode) -> Option<ServerId>
    ensures direct { IfNone result (mode.now ≡ Direct) }
    ensures forwarded { IfSome result (λ from. mode.now ≡ Forwarded from) }
{
    match mode {
        Mode::Direct => None,
        Mode::Forwarded(from) => Some(*from),
    }
}

// Returns the envelope after so many hops, each from this server.
fn hopped(direct: Envelope<(), ()>, from: ServerId, hops: u8) -> Envelope<(), ()>
    requires direct { direct.hops ≡ 0 }
    requires some { 1 ≤ hops }
    requires few { hops ≤ MOST_HOPS }
    ensures number { result.number ≡ direct.number }
    ensures shard { result.shard ≡ direct.shard }
    ensures mode { result.mode ≡ Forwarded from }
    ensures hops { result.hops ≡ hops }
{
    // A record by which the server forwards.
    let state = Record {
        stand: Stand::Forwarding {
            owner: from,
            next: from,
        },
        admitted: false,
        generation: 1,
    };
    let mut envelope = direct;
    for _hop in 0..hops {
        envelope = match envelope.forwarded(&state, from) {
            Ok(forwarded) => forwarded.1,
            Err(back) => back,
        };
    }
    envelope
}

/// Returns the state's envelope, but for its request and its note.
pub fn sent_in(state: &HandleState) -> Result<SentAs, ActFault>
    ensures sent { IfOk result (IsSentAs (Some state.now)) }
    ensures refused { IfErr result (λ fault. (fault ≡ ActFault.WrongHandle) × KeepsNoEnvelope (Some state.now)) }
{
    match state {
        HandleState::Envelope(envelope) => Ok(SentAs {
            number: envelope.number(),
            shard: envelope.shard(),
            mode: envelope.mode(),
            hops: envelope.hops(),
        }),
        _ => Err(ActFault::WrongHandle),
    }
}

/// Returns the state's answer, but for its reply.
pub fn answer_in(state: &HandleState) -> Result<AnswerParts, ActFault>
    ensures parts { IfOk result (TellsAnswer (Some state.now)) }
    ensures refused { IfErr result (λ fault. (fault ≡ ActFault.WrongHandle) × KeepsNoAnswer (Some state.now)) }
{
    match state {
        HandleState::Answer(answer) => Ok(AnswerParts {
            number: answer.number(),
            place: answer.place(),
            server: answer.server().number(),
        }),
        _ => Err(ActFault::WrongHandle),
    }
}

/// Makes the shard's present state its base, by the state's pass: its generation since then; or why not.
pub fn checkpoint_of(state: &mut HandleState, k: ShardId) -> Result<u64, ActFault>
    ensures made { IfOk result (MakesCheckpoint (Some state.old) (Some state.new) k) }
    ensures refused { IfErr result (RefusesCheckpoint (Some state.old) (Some state.new) k) }
{
    let HandleState::TextPass(pass) = state else {
        return Err(ActFault::WrongHandle);
    };
    if u32::from(k.number()) >= pass.count() {
        return Err(ActFault::UnknownShard);
    }
    match pass.checkpoint(k) {
        Ok(front) => Ok(front.generation),
        Err(fault) => Err(ActFault::Checkpoint(fault)),
    }
}
