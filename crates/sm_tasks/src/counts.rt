ghost use Rattle.std.specs.Prelude.{◌≡◌, IfSome};
ghost use Rattle.sm_place.specs.Books.{IsKnown};
ghost use Rattle.sm_ranges.specs.ShardId.{IsShard};
ghost use Rattle.sm_ranges.specs.Stand.{passes, AllNamed};
ghost use Rattle.sm_tasks.specs.Approvals.{capped_shard, leaving_count, names_down, serving_shard, would_be_down};

use sm_place::Books;
use sm_ranges::{ServerId, ShardId, Stand};

/// Returns how many servers are leaving.
pub(crate) fn leaving_count(books: &Books) -> usize
    ensures { result ≡ leaving_count books.now }
{
    books
        .states()
        .iter()
        .filter(|state| state.is_leaving())
        .count()
}

/// Returns the lowest shard of cap 0 that names the server.
pub(crate) fn capped_shard(books: &Books, a: ServerId) -> Option<ShardId>
    ensures { result ≡ capped_shard books.now a }
{
    books.soundness();
    let place = books
        .shards()
        .iter()
        .position(|shard| shard.row.cap == 0 && shard.stand.names(a));
    shard_id(place)
}

/// Returns the lowest shard that names the server and is not paused.
pub(crate) fn serving_shard(books: &Books, a: ServerId) -> Option<ShardId>
    ensures { result ≡ serving_shard books.now a }
{
    books.soundness();
    let place = books.shards().iter().position(|shard| shard.stand.names(a)
        && !matches!(shard.stand, Stand::Paused(_)));
    shard_id(place)
}

// Returns the shard at this place, if there is one.
fn shard_id(place: Option<usize>) -> Option<ShardId>
    requires { IfSome place IsShard }
    ensures { result ≡ place }
{
    match place {
        Some(at) => ShardId::new(at as u16),
        None => None,
    }
}

/// Returns whether the stand names the server, or a server that is leaving.
pub(crate) fn names_down(books: &Books, stand: &Stand, a: ServerId) -> bool
    requires { AllNamed (IsKnown books.now.servers) stand.now }
    ensures { result ≡ names_down books.now a stand.now }
{
    is_down(books, stand.owner(), a) || is_down(books, stand.other(), a)
}

// Returns whether there is a server, and it is this one or is leaving.
fn is_down(books: &Books, server: Option<ServerId>, a: ServerId) -> bool
    requires { IfSome server (IsKnown books.now.servers) }
    ensures { result ≡ passes (would_be_down books.now a) server }
{
    match server {
        Some(b) => b == a || books.state(b).is_leaving(),
        None => false,
    }
}
