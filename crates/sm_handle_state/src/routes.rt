//! The effects of calls on publishers of routes, and their routers, that handles keep.
ghost use Rattle.std.specs.Prelude.{◌≡◌, ◌≤◌, IfErr, IfOk, OnOk, Some};
ghost use Rattle.sm_ownership.specs.declared.record.TheConstants.{MAX_GENERATION};
ghost use Rattle.sm_handle_state.specs.Routes.{GivesNoRouter, IsRouterOf, KeepsNoRouter};
ghost use Rattle.sm_handle_state.specs.Routes.{PublishesRoute, ReadsHandleRoute, RefusesRoute};

use crate::act_fault::ActFault;
use crate::handle_state::HandleState;
use crate::publish_fault::PublishFault;
use sm_ownership::route::Route;
use sm_ranges::shard_id::ShardId;
use std::alloc::AllocError;

/// Returns a router of the state's publisher.
pub fn router_of(state: &mut HandleState) -> Result<HandleState, ActFault>
    ensures unchanged { state.new ≡ state.old }
    ensures made { IfOk result (λ router. IsRouterOf (Some state.old) (Some router)) }
    ensures refused { IfErr result (GivesNoRouter (Some state.old)) }
{
    let HandleState::Publisher(publisher) = state else {
        return Err(ActFault::WrongHandle);
    };
    match publisher.router() {
        Ok(router) => Ok(HandleState::Router(router)),
        Err(AllocError) => Err(ActFault::NoMemory),
    }
}

/// Publishes the route by the state's publisher.
pub fn publish_in(state: &mut HandleState, route: Route) -> Result<(), PublishFault>
    requires { route.generation ≤ MAX_GENERATION }
    ensures published { OnOk result (PublishesRoute (Some state.old) (Some state.new) route) }
    ensures refused { IfErr result (RefusesRoute (Some state.old) route) }
    ensures kept { IfErr result (λ fault. state.new ≡ state.old) }
{
    let HandleState::Publisher(publisher) = state else {
        return Err(PublishFault::WrongHandle);
    };
    match publisher.publish(route) {
        Ok(()) => Ok(()),
        Err(fault) => Err(PublishFault::Refused(fault)),
    }
}

/// Returns the route that the state's router reads.
#[inline(always)]
pub fn route_in(state: &mut HandleState, shard: ShardId) -> Result<Option<Route>, ActFault>
    ensures read { IfOk result (ReadsHandleRoute (Some state.old) (Some state.new) shard) }
    ensures refused { IfErr result (λ fault. (fault ≡ ActFault.WrongHandle) × KeepsNoRouter (Some state.old)) }
    ensures kept { IfErr result (λ fault. state.new ≡ state.old) }
{
    let HandleState::Router(router) = state else {
        return Err(ActFault::WrongHandle);
    };
    Ok(router.route(shard))
}
