ghost use Rattle.std.specs.Prelude.{◌≡◌, ◌⊎◌, None};
ghost use Rattle.left_right.specs.Sides.{view as seen_by};
ghost use Rattle.sm_ranges.specs.Ranges.{shard_of};
ghost use Rattle.sm_ownership.specs.Routes.{routes_of};
ghost use Rattle.sm_publish.specs.Seen.{Extends};

use crate::rule::{MapReader, Seeing};
use core::mem::replace_with;
use sm_ownership::route::Route;
use sm_ranges::layout::Layout;
use sm_ranges::shard_id::ShardId;
use std::marker::Model;

/// A reader of the published map. It may read old routes, but the publications that it has seen only grow. It may move
/// to another thread.
///
/// In contracts it is the table in which its map is, and the publications that it has seen there, in order.
#[derive(Drop)]
pub struct Router {
    reader: MapReader,
}

impl Model for Router {
    ghost use Rattle.left_right.specs.Sides.{view as seen_by};
    ghost use Rattle.sm_publish.specs.Seen.{RouterView};

    ghost Value = { RouterView };

    ghost view = { λ router. record { table = router.reader.place.table_id; seen = seen_by router.reader.place } };
}

impl Router {
    pub(crate) fn new(reader: MapReader) -> Router
        ensures { result ≡ record { table = reader.place.table_id; seen = seen_by reader.place } }
    {
        Router { reader }
    }

    /// Returns the last route of the key's shard among the publications that the router has now seen, or nothing if
    /// there is none. The publications that it has seen begin with all that it had seen before. If the read is refused,
    /// it returns nothing and sees nothing more. No clause says that it goes on reading the map of the same table.
    pub fn route(&mut self, layout: &Layout, key: &[u8]) -> Option<Route>
        ensures later { Extends self.new.seen self.old.seen }
        ensures route { (result ≡ routes_of self.new.seen (shard_of layout.now key.now))
            ⊎ ((result ≡ None) × (self.new.seen ≡ self.old.seen)) }
    {
        self.shard_route(layout.shard_of(key))
    }

    /// Does the same as `route`, for a caller that has found the key's shard already.
    pub fn shard_route(&mut self, k: ShardId) -> Option<Route>
        ensures later { Extends self.new.seen self.old.seen }
        ensures route { (result ≡ routes_of self.new.seen k) ⊎ ((result ≡ None) × (self.new.seen ≡ self.old.seen)) }
    {
        replace_with(&mut self.reader, k, read)
    }
}

// Reads the shard's route.
fn read(reader: MapReader, shard: ShardId) -> (MapReader, Option<Route>)
    ensures later { Extends (seen_by result.0.place) (seen_by reader.place) }
    ensures route { (result.1 ≡ routes_of (seen_by result.0.place) shard)
        ⊎ ((result.1 ≡ None) × (seen_by result.0.place ≡ seen_by reader.place)) }
{
    match reader.enter_as::<Seeing>() {
        Ok(reading) => {
            let route = reading.get().route(shard);
            (reading.leave(), route)
        }
        Err(reader) => (reader, None),
    }
}
