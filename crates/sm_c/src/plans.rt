//! Plans.
ghost use Rattle.std.specs.Prelude.{◌≡◌, ◌≢◌, ◌<◌, ◌⊎◌};
ghost use Rattle.sm_handle.specs.Plans.{HasNoMove, HasNoPlan, HasNotLeft, IsLeftOut};
ghost use Rattle.sm_ranges.specs.declared.limits.TheConstants.{MAX_SERVER};
ghost use Rattle.sm_word.specs.Word.{server_of};
ghost use Rattle.sm_c.specs.Calls.{MovesTo, PlansFrom};
ghost use Rattle.sm_c.specs.Codes.{IsCodeOf};

use crate::codes::{BAD_ARGUMENT, code_of_act};
use sm_handle::Handle;
use sm_ranges::server_id::ServerId;
use std::alloc::Global;

/// Plans the moves of the shards that this server serves, or of the vacant ones if it is 0. The plan's handle keeps the
/// plan, in place of its earlier state.
#[unsafe(no_mangle)]
pub extern "C" fn durkenzo_plan(
    alloc: Global,
    chief: &mut Handle,
    plan: &mut Handle,
    from: u16,
) -> u32
    ensures chief { chief.new.owned.state ≡ chief.old.owned.state }
    ensures made { result ≡ 0 → PlansFrom chief.old.owned.state plan.new.owned.state from }
    ensures refused { result ≢ 0 → ((result ≡ BAD_ARGUMENT) × (MAX_SERVER < from))
        ⊎ IsCodeOf (HasNoPlan chief.old.owned.state (server_of from)) result }
    ensures kept { result ≢ 0 → plan.new.owned.state ≡ plan.old.owned.state }
{
    let server = ServerId::new(from);
    if from != 0 && server.is_none() {
        return BAD_ARGUMENT;
    }
    match plan.plan(alloc, chief, server) {
        Ok(()) => 0,
        Err(fault) => code_of_act(fault),
    }
}

/// Writes the move at this place of the plan, from 0: a shard, and the server that it goes to.
#[unsafe(no_mangle)]
pub extern "C" fn durkenzo_move(
    plan: &mut Handle,
    at: usize,
    shard: &mut u16,
    server: &mut u16,
) -> u32
    ensures found { result ≡ 0 → MovesTo plan.old.owned.state at shard.new server.new }
    ensures refused { result ≢ 0 → IsCodeOf (HasNoMove plan.old.owned.state at) result }
    ensures unwritten { result ≢ 0 → (shard.new ≡ shard.old) × (server.new ≡ server.old) }
    ensures unchanged { plan.new.owned.state ≡ plan.old.owned.state }
{
    match plan.planned(at) {
        Ok(step) => {
            *shard = step.shard.number();
            *server = step.to.number();
            0
        }
        Err(fault) => code_of_act(fault),
    }
}

/// Writes the shard at this place, from 0, of those for which the plan found no server.
#[unsafe(no_mangle)]
pub extern "C" fn durkenzo_left(plan: &mut Handle, at: usize, shard: &mut u16) -> u32
    ensures found { result ≡ 0 → IsLeftOut plan.old.owned.state at shard.new }
    ensures refused { result ≢ 0 → IsCodeOf (HasNotLeft plan.old.owned.state at) result }
    ensures unwritten { result ≢ 0 → shard.new ≡ shard.old }
    ensures unchanged { plan.new.owned.state ≡ plan.old.owned.state }
{
    match plan.left(at) {
        Ok(found) => {
            *shard = found.number();
            0
        }
        Err(fault) => code_of_act(fault),
    }
}
