//! The effects of calls on maps of the sample service that handles keep.
ghost use Rattle.std.specs.Prelude.{◌≡◌, IfErr, IfOk, Some, option_map};
ghost use Rattle.sm_map.specs.Val.{held_of};
ghost use Rattle.sm_handle_state.specs.declared.handle_state.HandleState.TheVariants.{Reply as Replies};
ghost use Rattle.sm_handle_state.specs.Maps.{HoldsKeys, IsHeldIn, KeepsNoMap, MakesNoReply};
ghost use Rattle.sm_handle_state.specs.Maps.{MakesReply, WritesHeld};
ghost use Rattle.sm_service.specs.LentRequest.{request_lent};

use crate::act_fault::ActFault;
use crate::handle_state::HandleState;
use crate::reply_parts::ReplyParts;
use crate::written::write_where_it_fits;
use sm_service::{LentRequest, Reply, Val};
use std::alloc::Global;

/// Returns how many keys of the state's map hold something.
pub fn len_of(state: &HandleState) -> Result<u128, ActFault>
    ensures count { IfOk result (HoldsKeys (Some state.now)) }
    ensures refused { IfErr result (λ fault. (fault ≡ ActFault.WrongHandle) × KeepsNoMap (Some state.now)) }
{
    match state {
        HandleState::Map(map) => Ok(map.len()),
        _ => Err(ActFault::WrongHandle),
    }
}

/// Returns the value at the key of the state's map.
pub fn value_in(state: &HandleState, key: &[u8], into: &mut [u8]) -> Result<ReplyParts, ActFault>
    ensures held { IfOk result (WritesHeld (Some state.now) key.now into.new) }
    ensures refused { IfErr result (λ fault. (fault ≡ ActFault.WrongHandle) × KeepsNoMap (Some state.now)) }
    ensures unwritten { IfErr result (λ fault. into.new ≡ into.old) }
{
    let HandleState::Map(map) = state else {
        return Err(ActFault::WrongHandle);
    };
    Ok(written_of(map.held(key), into))
}

// Returns the parts of a key's value. If there is room for its text, writes that.
fn written_of(held: Option<Val<'_>>, into: &mut [u8]) -> ReplyParts
    ensures { IsHeldIn (option_map held_of held.entry) into.new result }
{
    match held {
        None => ReplyParts::bare(0),
        Some(held) => {
            if let Val::Text(text) = held {
                write_where_it_fits(text, into);
            }
            ReplyParts::of_value(held)
        }
    }
}

/// Returns the reply of the state's map.
pub fn reply_of(
    alloc: Global,
    state: &mut HandleState,
    request: LentRequest<'_>,
) -> Result<Reply, ActFault>
    ensures made { IfOk result
        (λ made. MakesReply (Some state.old) (Some state.new) (request_lent request.entry) (Some (Replies made))) }
    ensures refused { IfErr result (MakesNoReply (Some state.old)) }
    ensures kept { IfErr result (λ fault. state.new ≡ state.old) }
{
    let HandleState::Map(map) = state else {
        return Err(ActFault::WrongHandle);
    };
    match map.answer_lent(alloc, request) {
        Ok(reply) => Ok(reply),
        Err(_) => Err(ActFault::NoMemory),
    }
}
