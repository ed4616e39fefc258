ghost use Rattle.std.specs.Prelude.{◌≡◌, ◌<◌, [], IfOk};
ghost use Rattle.sm_ownership.specs.Routes.{routes_of};
ghost use Rattle.sm_publish.specs.Publishing.{taken};

use left_right::Absorb;
use sm_ownership::route::Route;
use sm_ranges::shard_id::ShardId;
use sm_trace::trace::Trace;
use std::alloc::{AllocError, Global};
use std::marker::Model;

/// The published map: for each shard its last published route.
#[derive(Drop)]
pub struct RouteMap {
    routes: Vec<Option<Route>>,
    published: Trace<Route>,
}

impl Model for RouteMap {
    ghost use Rattle.std.specs.Prelude.{length};
    ghost use Rattle.sm_publish.specs.Publishing.{MapView};
    ghost use Rattle.sm_publish.specs.RouteRow.{IsRowOf};

    ghost Value = { MapView };

    ghost view = { λ map. record { count = length map.routes.items; published = map.published.items } };

    ghost invariant = { λ map. IsRowOf map.routes.items map.published.items };
}

impl RouteMap {
    /// Makes a map of this many shards, in which nothing is published.
    pub(crate) fn new(alloc: Global, count: usize) -> Result<RouteMap, AllocError>
        ensures { IfOk result (λ map. map ≡ record { count = count; published = [] }) }
    {
        Ok(RouteMap {
            routes: vec![in alloc; None; count]?,
            published: Trace::empty(),
        })
    }

    /// Returns the number of shards.
    pub(crate) fn count(&self) -> usize
        ensures { result ≡ self.now.count }
    {
        self.routes.len()
    }

    /// Returns the shard's last published route, or nothing if none was published.
    pub(crate) fn route(&self, shard: ShardId) -> Option<Route>
        ensures { result ≡ routes_of self.now.published shard }
    {
        self.routes.get(shard.index()).copied().flatten()
    }
}

impl Absorb<Route> for RouteMap {
    type State = RouteMap;

    ghost state = { λ map. map };

    ghost applied = { taken };

    // A shard's place exists from the start.
    ghost never_fails = { Unit {0} };

    fn absorb_first(&mut self, operation: &Route, _other: &RouteMap) -> Result<(), AllocError> {
        if let Some(place) = self.routes.get_mut(operation.shard.index()) {
            *place = Some(*operation);
            self.published.push(operation);
        }
        Ok(())
    }
}
