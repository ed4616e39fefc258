//! Routes as words: the server in the low 12 bits, and the generation above them. If a word's server is 0, the word is
//! no route.
ghost use Rattle.std.specs.Prelude.{◌≡◌, ◌≤◌, Some};
ghost use Rattle.sm_ownership.specs.declared.record.TheConstants.{MAX_GENERATION};
ghost use Rattle.sm_publish.specs.RouteWords.{route_in};

use sm_ownership::route::Route;
use sm_ranges::server_id::ServerId;
use sm_ranges::shard_id::ShardId;

// Every server is below this number.
const SERVERS: u64 = 4096;

/// Returns the word of the route.
pub(crate) fn word_of_route(route: &Route) -> u64
    requires { route.now.generation ≤ MAX_GENERATION }
    ensures { route_in route.now.shard result ≡ Some route.now }
{
    route.generation * SERVERS + u64::from(route.server.number())
}

/// Returns the route of the shard's word, if it has one.
pub(crate) fn route_of_word(shard: ShardId, word: u64) -> Option<Route>
    ensures { result ≡ route_in shard word }
{
    let server = ServerId::new((word % SERVERS) as u16)?;
    Some(Route {
        shard,
        server,
        generation: word / SERVERS,
    })
}
