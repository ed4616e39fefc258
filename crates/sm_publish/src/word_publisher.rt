ghost use Rattle.std.specs.Prelude.{◌≡◌, ◌<◌, ◌≤◌, [], IfOk, IfSome, IfNone, OnOk, OnErr, Err, Ok, replicate};
ghost use Rattle.sm_ownership.specs.declared.record.TheConstants.{MAX_GENERATION};
ghost use Rattle.sm_ownership.specs.Routes.{routes_of};
ghost use Rattle.sm_publish.specs.Publishing.{publish_fault, with_route};

use crate::route_word::{route_of_word, word_of_route};
use crate::word_router::WordRouter;
use crate::word_rule::{RouteRecall, RouteStore, RouterCut, WordSeat, WordTable};
use sm_ownership::route::Route;
use sm_ownership::route_fault::RouteFault;
use sm_ranges::shard_id::ShardId;
use std::alloc::{AllocError, Global};
use std::marker::Model;
use std::sync::Arc;

/// Publishes routes as [`Publisher`](crate::Publisher) does, but to one word for each shard. A publication is one
/// store, so it never waits and takes no memory. It may move to another thread.
///
/// In contracts it looks like a `Publisher`: the table in which its map is, its number of shards, and its publications,
/// in order.
#[derive(Drop)]
pub struct WordPublisher {
    table: Arc<WordTable>,
    seat: WordSeat,
}

impl Model for WordPublisher {
    ghost use Rattle.std.specs.Prelude.{◌≡◌, ◌<◌};
    ghost use Rattle.std.specs.Arc.{arc_value};
    ghost use Rattle.sm_publish.specs.Publishing.{PublisherView};
    ghost use Rattle.sm_publish.specs.WordSteps.{HasNoRouteBeyond};

    ghost Value = { PublisherView };

    ghost view = { λ publisher. record {
      table = publisher.seat.table_id;
      map = record { count = publisher.seat.me.0.count; published = publisher.seat.me.0.seen };
    } };

    // Its seat is the table's first.
    ghost invariant = { λ publisher. (publisher.seat.table_id ≡ (arc_value publisher.table).shared.table_id)
        × (publisher.seat.id ≡ 0) × (publisher.seat.me.0.count ≡ publisher.seat.table_id.words)
        × (0 < publisher.seat.me.0.count) × HasNoRouteBeyond publisher.seat.me.0 };
}

impl WordPublisher {
    /// Makes a publisher of routes for this many shards. At first no shard has a route. It fails only for lack of
    /// memory.
    pub fn new(alloc: Global, count: usize) -> Result<WordPublisher, AllocError>
        requires { 0 < count }
        ensures { IfOk result (λ publisher. publisher.map ≡ record { count = count; published = [] }) }
    {
        let words = zeros(alloc, count)?;
        let (table, seat) = WordTable::of_words(alloc, words.as_slice(), &count)?;
        let table = Arc::new(alloc, table)?;
        Ok(WordPublisher { table, seat })
    }

    /// Returns the number of shards.
    pub fn count(&self) -> usize
        ensures { result ≡ self.now.map.count }
    {
        self.table.word_count()
    }

    /// Makes a router of the publisher's map. It has seen everything that was published so far. It fails only for lack
    /// of memory.
    pub fn router(&mut self) -> Result<WordRouter, AllocError>
        ensures unchanged { self.new ≡ self.old }
        ensures router { IfOk result
            (λ router. router ≡ record { table = self.old.table; seen = self.old.map.published }) }
    {
        let table = Arc::try_clone(&self.table)?;
        let seat = self.table.shared.split_seat::<RouterCut>(&mut self.seat);
        Ok(WordRouter::new(table, seat))
    }

    /// Publishes the route, or returns the first fault that applies. If a route is refused, nothing changes.
    pub fn publish(&mut self, route: Route) -> Result<(), RouteFault>
        requires { route.generation ≤ MAX_GENERATION }
        ensures table { self.new.table ≡ self.old.table }
        ensures published { OnOk result (self.new.map ≡ with_route self.old.map route) }
        ensures unchanged { OnErr result (self.new ≡ self.old) }
        ensures fault { IfSome (publish_fault self.old.map route) (λ fault. result ≡ Err fault) }
        ensures no_fault { IfNone (publish_fault self.old.map route) (result ≡ Ok tt) }
    {
        let shard = route.shard;
        if shard.index() >= self.count() {
            return Err(RouteFault::UnknownShard);
        }
        if route.is_old(self.last(shard)) {
            return Err(RouteFault::OldRoute);
        }
        let word = word_of_route(&route);
        self.table
            .shared
            .store::<RouteStore>(&mut self.seat, shard.index(), word);
        Ok(())
    }

    // Returns the shard's last route.
    fn last(&mut self, shard: ShardId) -> Option<Route>
        requires { shard < self.old.map.count }
        ensures unchanged { self.new ≡ self.old }
        ensures route { result ≡ routes_of self.old.map.published shard }
    {
        let word = self
            .table
            .shared
            .load::<RouteRecall>(&mut self.seat, shard.index());
        route_of_word(shard, word)
    }
}

fn zeros(alloc: Global, count: usize) -> Result<Vec<u64>, AllocError>
    ensures { IfOk result (λ words. words.items ≡ replicate count 0) }
{
    Ok(vec![in alloc; 0; count]?)
}
