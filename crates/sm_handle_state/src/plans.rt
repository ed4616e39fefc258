//! The results of calls on plans that handles keep.
ghost use Rattle.std.specs.Prelude.{IfErr, IfOk, Some};
ghost use Rattle.sm_handle_state.specs.Plans.{HasNoMove, HasNoPlan, HasNotLeft, IsLeftOut, IsMove, IsPlanOf};

use crate::act_fault::ActFault;
use crate::handle_state::HandleState;
use sm_foreign::DrainFault;
use sm_place::Move;
use sm_ranges::server_id::ServerId;
use sm_ranges::shard_id::ShardId;
use std::alloc::Global;

/// Returns the plan of the state's control for the shards of the server, or, without a server, for the vacant ones.
pub fn plan_of(
    alloc: Global,
    state: &HandleState,
    from: Option<ServerId>,
) -> Result<HandleState, ActFault>
    ensures made { IfOk result (λ plan. IsPlanOf (Some state.now) (Some plan) from) }
    ensures refused { IfErr result (HasNoPlan (Some state.now) from) }
{
    let made = match state {
        HandleState::Chief(chief) => chief.held.plan(alloc, from),
        HandleState::TextChief(chief) => chief.plan(alloc, from),
        _ => return Err(ActFault::WrongHandle),
    };
    match made {
        Ok(plan) => Ok(HandleState::Plan(plan)),
        Err(DrainFault::UnknownServer) => Err(ActFault::UnknownServer),
        Err(DrainFault::NoMemory) => Err(ActFault::NoMemory),
    }
}

/// Returns the move at this place of the state's plan.
pub fn move_in(state: &HandleState, at: usize) -> Result<Move, ActFault>
    ensures found { IfOk result (IsMove (Some state.now) at) }
    ensures refused { IfErr result (HasNoMove (Some state.now) at) }
{
    match state {
        HandleState::Plan(plan) => match plan.moves().get(at) {
            Some(step) => Ok(*step),
            None => Err(ActFault::NoMore),
        },
        _ => Err(ActFault::WrongHandle),
    }
}

/// Returns the shard at this place of those that the state's plan has no room for.
pub fn left_in(state: &HandleState, at: usize) -> Result<ShardId, ActFault>
    ensures found { IfOk result (IsLeftOut (Some state.now) at) }
    ensures refused { IfErr result (HasNotLeft (Some state.now) at) }
{
    match state {
        HandleState::Plan(plan) => match plan.left().get(at) {
            Some(shard) => Ok(*shard),
            None => Err(ActFault::NoMore),
        },
        _ => Err(ActFault::WrongHandle),
    }
}
