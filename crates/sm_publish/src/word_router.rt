ghost use Rattle.std.specs.Prelude.{◌≡◌, ◌<◌};
ghost use Rattle.std.specs.Arc.{arc_value};
ghost use Rattle.sm_ownership.specs.Routes.{routes_of};
ghost use Rattle.sm_publish.specs.Seen.{Extends};
ghost use Rattle.sm_publish.specs.WordSteps.{HasNoRouteBeyond};

use crate::route_word::route_of_word;
use crate::word_rule::{RouteLoad, WordSeat, WordTable};
use sm_ownership::route::Route;
use sm_ranges::shard_id::ShardId;
use std::marker::Model;
use std::sync::Arc;

/// A reader of the routes that a [`WordPublisher`](crate::WordPublisher) publishes. It may read old routes, but the
/// publications that it has seen only grow. It may move to another thread, and still reads after the publisher is
/// dropped.
///
/// In contracts it looks like a [`Router`](crate::Router): the table in which its map is, and the publications that it
/// has seen there, in order.
#[derive(Drop)]
pub struct WordRouter {
    table: Arc<WordTable>,
    seat: WordSeat,
}

impl Model for WordRouter {
    ghost use Rattle.std.specs.Prelude.{◌≡◌};
    ghost use Rattle.std.specs.Arc.{arc_value};
    ghost use Rattle.sm_publish.specs.Seen.{RouterView};
    ghost use Rattle.sm_publish.specs.WordSteps.{HasNoRouteBeyond};

    ghost Value = { RouterView };

    ghost view = { λ router. record { table = router.seat.table_id; seen = router.seat.me.0.seen } };

    ghost invariant = { λ router. (router.seat.table_id ≡ (arc_value router.table).shared.table_id)
        × (router.seat.me.0.count ≡ router.seat.table_id.words) × HasNoRouteBeyond router.seat.me.0 };
}

impl WordRouter {
    pub(crate) fn new(table: Arc<WordTable>, seat: WordSeat) -> WordRouter
        requires table { seat.table_id ≡ (arc_value table).shared.table_id }
        requires count { seat.me.0.count ≡ seat.table_id.words }
        requires within { HasNoRouteBeyond seat.me.0 }
        ensures { result ≡ record { table = seat.table_id; seen = seat.me.0.seen } }
    {
        WordRouter { table, seat }
    }

    /// Returns the last route of the shard among the publications that the router has now seen, or nothing if there is
    /// none. A shard outside of the map has none. The publications that it has seen begin with all that it had seen
    /// before. It is never refused, and never waits.
    pub fn route(&mut self, shard: ShardId) -> Option<Route>
        ensures table { self.new.table ≡ self.old.table }
        ensures later { Extends self.new.seen self.old.seen }
        ensures route { result ≡ routes_of self.new.seen shard }
    {
        if shard.index() >= self.table.word_count() {
            return None;
        }
        let word = self
            .table
            .shared
            .load::<RouteLoad>(&mut self.seat, shard.index());
        route_of_word(shard, word)
    }
}
