//! Published routes.
ghost use Rattle.std.specs.Prelude.{◌≡◌, ◌≢◌, ◌<◌, ◌⊎◌};
ghost use Rattle.sm_ranges.specs.declared.limits.TheConstants.{MAX_SHARD};
ghost use Rattle.sm_handle.specs.Routes.{GivesNoRouter, IsNewPublisher, IsRouterOf, KeepsNoRouter, PublishesRoute};
ghost use Rattle.sm_c.specs.Codes.{IsCodeOf};
ghost use Rattle.sm_c.specs.Routes.{HasNoMap, ReadsParts, RefusesNumbers, publish_fault_code, route_of_numbers};

use crate::codes::{
    BAD_ARGUMENT, NO_MEMORY, NO_SHARD, OLD_ROUTE, TOO_MANY, UNKNOWN_SHARD, WRONG_HANDLE,
    WRONG_PHASE, code_of_act,
};
use crate::kinds::known_server;
use crate::route_parts::RouteParts;
use sm_handle::{Handle, PublishFault};
use sm_ownership::record::MAX_GENERATION;
use sm_ownership::route::Route;
use sm_ownership::route_fault::RouteFault;
use sm_ranges::limits::MAX_SHARDS;
use sm_ranges::shard_id::ShardId;
use std::alloc::Global;

/// Makes a publisher of routes for so many shards, 1 to 4,096, none of which has a route. The handle keeps it, in place
/// of its earlier state.
#[unsafe(no_mangle)]
pub extern "C" fn durkenzo_publisher(alloc: Global, publisher: &mut Handle, count: usize) -> u32
    ensures made { result ≡ 0 → IsNewPublisher publisher.new.owned.state count }
    ensures refused { result ≢ 0 → HasNoMap count result ⊎ (result ≡ NO_MEMORY) }
    ensures kept { result ≢ 0 → publisher.new.owned.state ≡ publisher.old.owned.state }
{
    if count == 0 {
        return NO_SHARD;
    }
    if count > MAX_SHARDS {
        return TOO_MANY;
    }
    match publisher.publisher(alloc, count) {
        Ok(()) => 0,
        Err(_) => NO_MEMORY,
    }
}

/// Makes a router of the publisher's map, which has seen everything that was published. The router's handle keeps it,
/// in place of its earlier state.
#[unsafe(no_mangle)]
pub extern "C" fn durkenzo_router(alloc: Global, publisher: &mut Handle, router: &mut Handle) -> u32
    ensures publisher { publisher.new.owned.state ≡ publisher.old.owned.state }
    ensures made { result ≡ 0 → IsRouterOf publisher.old.owned.state router.new.owned.state }
    ensures refused { result ≢ 0 → IsCodeOf (GivesNoRouter publisher.old.owned.state) result }
    ensures kept { result ≢ 0 → router.new.owned.state ≡ router.old.owned.state }
{
    match router.router(alloc, publisher) {
        Ok(()) => 0,
        Err(fault) => code_of_act(fault),
    }
}

/// Publishes that this server owns the shard at this generation.
#[unsafe(no_mangle)]
pub extern "C" fn durkenzo_publish(
    publisher: &mut Handle,
    shard: u16,
    server: u16,
    generation: u64,
) -> u32
    ensures published { result ≡ 0 → PublishesRoute publisher.old.owned.state publisher.new.owned.state
        (route_of_numbers shard server generation) }
    ensures refused { result ≢ 0 → RefusesNumbers publisher.old.owned.state shard server generation result }
    ensures kept { result ≢ 0 → publisher.new.owned.state ≡ publisher.old.owned.state }
{
    let Some(shard) = ShardId::new(shard) else {
        return UNKNOWN_SHARD;
    };
    let Some(server) = known_server(server) else {
        return BAD_ARGUMENT;
    };
    if generation > MAX_GENERATION {
        return BAD_ARGUMENT;
    }
    match publisher.publish(Route {
        shard,
        server,
        generation,
    }) {
        Ok(()) => 0,
        Err(fault) => code_of_publish(fault),
    }
}

/// Writes the shard's latest published route among those that the router has then seen, or zeros if there is none, for
/// instance because the map doesn't have the shard.
#[unsafe(no_mangle)]
pub extern "C" fn durkenzo_route(router: &mut Handle, shard: u16, parts: &mut RouteParts) -> u32
    ensures read { result ≡ 0 → ReadsParts router.old.owned.state router.new.owned.state shard parts.new }
    ensures refused { result ≢ 0 → ((result ≡ UNKNOWN_SHARD) × (MAX_SHARD < shard))
        ⊎ ((result ≡ WRONG_HANDLE) × KeepsNoRouter router.old.owned.state) }
    ensures kept { result ≢ 0 → router.new.owned.state ≡ router.old.owned.state }
    ensures unwritten { result ≢ 0 → parts.new ≡ parts.old }
{
    let Some(shard) = ShardId::new(shard) else {
        return UNKNOWN_SHARD;
    };
    match router.route(shard) {
        Ok(route) => {
            *parts = RouteParts::of(route);
            0
        }
        Err(fault) => code_of_act(fault),
    }
}

// The code of why no route was published.
fn code_of_publish(fault: PublishFault) -> u32
    ensures code { result ≡ publish_fault_code fault }
    ensures refused { result ≢ 0 }
{
    match fault {
        PublishFault::WrongHandle => WRONG_HANDLE,
        PublishFault::Refused(fault) => match fault {
            RouteFault::UnknownShard => UNKNOWN_SHARD,
            RouteFault::WrongPhase => WRONG_PHASE,
            RouteFault::OldRoute => OLD_ROUTE,
            RouteFault::NoMemory => NO_MEMORY,
        },
    }
}
