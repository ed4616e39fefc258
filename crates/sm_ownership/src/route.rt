use sm_ranges::server_id::ServerId;
use sm_ranges::shard_id::ShardId;

/// Where requests on a shard go, in published form.
#[derive(Clone, Copy, Debug, PartialEq, Eq, Drop)]
pub struct Route {
    pub shard: ShardId,
    /// The shard's owner when the route was made.
    pub server: ServerId,
    /// The shard's generation when the route was made. A publisher takes a route only if this is greater than the
    /// generation of the shard's last route.
    pub generation: u64,
}

impl Route {
    ghost use Rattle.std.specs.Prelude.{◌≡◌};
    ghost use Rattle.sm_ownership.specs.Routes.{is_old};

    /// Returns whether the route isn't newer than this last route of its shard.
    pub fn is_old(&self, last: Option<Route>) -> bool
        ensures { result ≡ is_old last self.now }
    {
        match last {
            None => false,
            Some(last) => self.generation <= last.generation,
        }
    }
}
