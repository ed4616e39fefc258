ghost use Rattle.std.specs.Prelude.{◌≡◌, ◌<◌, ◌^◌, fold, [], drop, replicate, ◌≤◌, vec_capacity, IfOk, IfSome, IfNone};
ghost use Rattle.std.specs.Prelude.{OnOk, OnErr, IsOkUnless, Err};
ghost use Rattle.sm_publish.specs.Publishing.{with_route, taken, publish_fault};

use crate::route_map::RouteMap;
use crate::router::Router;
use crate::rule::{MapWriter, Seeing};
use core::mem::replace_with;
use sm_ownership::route::Route;
use sm_ownership::route_fault::RouteFault;
use std::alloc::{AllocError, Global};
use std::marker::Model;
use std::sync::Wait;

/// The only publisher of routes on its map. It is not `Drop`: the owner must end it by [`Publisher::end`].
///
/// In contracts it is the table in which its map is, its number of shards, and its publications, in order.
pub struct Publisher {
    writer: MapWriter,
}

impl Model for Publisher {
    ghost use Rattle.std.specs.Prelude.{◌≡◌, [], drop};
    ghost use Rattle.sm_publish.specs.Publishing.{PublisherView};

    ghost Value = { PublisherView };

    ghost view = { λ publisher. record {
      table = publisher.writer.desk.place.table_id;
      map = publisher.writer.desk.shown.value;
    } };

    // Routers can see everything that was published.
    ghost invariant = { λ publisher. drop publisher.writer.behind publisher.writer.log.items ≡ [] };
}

impl Publisher {
    /// Makes a publisher of routes for this many shards, and routers of its map, 1 to 2^32 - 1, which have seen
    /// nothing. It fails for lack of memory, or because a router found no place at the map; in the latter case it may
    /// wait. No contract says that a new map has enough places.
    pub fn new<R: Wait>(
        rt: &R,
        alloc: Global,
        count: usize,
        routers: usize,
    ) -> Result<(Publisher, Vec<Router>), AllocError>
        requires { (0 < routers) × (routers < 2 ^ 32) }
        ensures publisher { IfOk result (λ made. made.0.map ≡ record { count = count; published = [] }) }
        ensures routers { IfOk result
            (λ made. made.1.items ≡ replicate routers (record { table = made.0.table; seen = [] })) }
    {
        let room = Vec::with_capacity(alloc, routers)?;
        let first = RouteMap::new(alloc, count)?;
        let second = RouteMap::new(alloc, count)?;
        let writer = MapWriter::new(alloc, first, second, routers)?;
        match routers_of(&writer, routers, room) {
            Ok(made) => Ok((Publisher { writer }, made)),
            Err(refused) => {
                let _map = writer.take(rt);
                Err(refused)
            }
        }
    }

    /// Publishes the route, or returns the first fault that applies. If a route is refused, nothing changes. It may
    /// wait for routers that are reading.
    pub fn publish<R: Wait>(&mut self, rt: &R, route: Route) -> Result<(), RouteFault>
        ensures published { OnOk result (self.new.map ≡ with_route self.old.map route) }
        ensures unchanged { OnErr result (self.new ≡ self.old) }
        ensures fault { IfSome (publish_fault self.old.map route) (λ fault. result ≡ Err fault) }

        // If a route is newer than its shard's last one, only lack of memory refuses it.
        ensures no_fault { IfNone (publish_fault self.old.map route) (IsOkUnless result RouteFault.NoMemory) }
    {
        let map = self.writer.published();
        if route.shard.index() >= map.count() {
            return Err(RouteFault::UnknownShard);
        }
        if let Some(last) = map.route(route.shard)
            && route.generation <= last.generation
        {
            return Err(RouteFault::OldRoute);
        }
        if self.writer.append(route).is_err() {
            return Err(RouteFault::NoMemory);
        }
        replace_with(&mut self.writer, rt, show::<R>);
        Ok(())
    }

    /// Ends the publisher. If a router reads after it, the read may be refused. It may wait for routers that are
    /// reading.
    pub fn end<R: Wait>(self, rt: &R) {
        let Publisher { writer } = self;
        let _map = writer.take(rt);
    }
}

// Makes this many routers of the writer's map, in this room. They have seen nothing.
fn routers_of(
    writer: &MapWriter,
    count: usize,
    mut made: Vec<Router>,
) -> Result<Vec<Router>, AllocError>
    requires { (made.items ≡ []) × (count ≤ vec_capacity made) }
    ensures { IfOk result
        (λ made. made.items ≡ replicate count (record { table = writer.now.desk.place.table_id; seen = [] })) }
{
    for _ in 0..count {
        let router = Router::new(writer.factory().reader()?);
        let Ok(()) = made.push(router) else {
            unreachable!()
        };
    }
    Ok(made)
}

// Shows routers the appended route. This always succeeds.
fn show<R: Wait>(writer: MapWriter, rt: &R) -> (MapWriter, ())
    ensures shown { result.0.desk.shown.value
        ≡ fold taken writer.desk.shown.value (drop writer.behind writer.log.items) }
    ensures settled { drop result.0.behind result.0.log.items ≡ [] }
{
    let (writer, shown) = writer.publish_as::<Seeing, R>(rt);
    shown.unwrap();
    (writer, ())
}
