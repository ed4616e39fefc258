//! The results of calls on replies of the sample service that handles keep.
ghost use Rattle.std.specs.Prelude.{◌≡◌, IfErr, IfOk, None, Some};
ghost use Rattle.sm_handle_state.specs.Maps.{HasNoKeyAt, HasNoPair, HasNoText, HasNoTextAt, IsPairAt, PairHeld};
ghost use Rattle.sm_handle_state.specs.Maps.{Replied, WritesHeldText, WritesKey, WritesText, reply_kept};

use crate::act_fault::ActFault;
use crate::handle_state::HandleState;
use crate::reply_parts::ReplyParts;
use crate::written::write;
use sm_service::{Pair, Reply, Val};

// The reply that the state is or has.
fn reply_in(state: &HandleState) -> Result<&Reply, ActFault>
    ensures reply { IfOk result (λ reply. reply_kept (Some state.now) ≡ Some reply.now) }
    ensures refused { IfErr result (λ fault. (fault ≡ ActFault.WrongHandle) × (reply_kept (Some state.now) ≡ None)) }
{
    match state {
        HandleState::Reply(reply) => Ok(reply),
        HandleState::Answer(answer) => Ok(answer.reply()),
        _ => Err(ActFault::WrongHandle),
    }
}

/// Returns the parts of the state's reply.
pub fn parts_in(state: &HandleState) -> Result<ReplyParts, ActFault>
    ensures parts { IfOk result (Replied (Some state.now)) }
    ensures refused { IfErr result (λ fault. (fault ≡ ActFault.WrongHandle) × (reply_kept (Some state.now) ≡ None)) }
{
    Ok(ReplyParts::of(reply_in(state)?))
}

/// Writes the text that was replied: its length; or why not, and nothing is written.
pub fn text_in(state: &HandleState, into: &mut [u8]) -> Result<usize, ActFault>
    ensures written { IfOk result (WritesText (Some state.now) into.new) }
    ensures refused { IfErr result (HasNoText (reply_kept (Some state.now)) into.old) }
    ensures unwritten { IfErr result (λ fault. into.new ≡ into.old) }
{
    match reply_in(state)? {
        Reply::Text(text) => write(text.as_bytes(), into),
        _ => Err(ActFault::WrongHandle),
    }
}

// The pair at this place of the reply.
fn pair_in(state: &HandleState, at: usize) -> Result<&Pair, ActFault>
    ensures pair { IfOk result (λ pair. IsPairAt (Some state.now) at pair.now) }
    ensures refused { IfErr result (HasNoPair (reply_kept (Some state.now)) at) }
{
    let Reply::Pairs(pairs) = reply_in(state)? else {
        return Err(ActFault::WrongHandle);
    };
    match pairs.as_slice().get(at) {
        Some(pair) => Ok(pair),
        None => Err(ActFault::NoMore),
    }
}

/// Returns the parts of the value in the pair at this place of the reply.
pub fn held_in(state: &HandleState, at: usize) -> Result<ReplyParts, ActFault>
    ensures parts { IfOk result (PairHeld (Some state.now) at) }
    ensures refused { IfErr result (HasNoPair (reply_kept (Some state.now)) at) }
{
    let pair = pair_in(state, at)?;
    Ok(ReplyParts::of_value(pair.value()))
}

/// Writes the key of the pair at this place of the reply: its length; or why not, and nothing is written.
pub fn key_in(state: &HandleState, at: usize, into: &mut [u8]) -> Result<usize, ActFault>
    ensures written { IfOk result (WritesKey (Some state.now) at into.new) }
    ensures refused { IfErr result (HasNoKeyAt (Some state.now) at into.old) }
    ensures unwritten { IfErr result (λ fault. into.new ≡ into.old) }
{
    let pair = pair_in(state, at)?;
    write(pair.key(), into)
}

/// Writes the text in the pair at this place, and returns its length; or returns why it can't, and then nothing is
/// written.
pub fn held_text_in(state: &HandleState, at: usize, into: &mut [u8]) -> Result<usize, ActFault>
    ensures written { IfOk result (WritesHeldText (Some state.now) at into.new) }
    ensures refused { IfErr result (HasNoTextAt (Some state.now) at into.old) }
    ensures unwritten { IfErr result (λ fault. into.new ≡ into.old) }
{
    let pair = pair_in(state, at)?;
    match pair.value() {
        Val::Text(text) => write(text, into),
        Val::Count(_) => Err(ActFault::WrongHandle),
    }
}
