ghost use Rattle.std.specs.Prelude.{◌≡◌, ◌<◌, ◌↔◌, IfSome, IsSome};
ghost use Rattle.sm_relay.specs.Relays.{IsNewRelay, requests_made};

use sm_opaque::OpaqueMachine;
use sm_ranges::server_id::ServerId;
use sm_ranges::shard_id::ShardId;
use sm_shard::ShardLimits;
use sm_shard_bytes::ByteServer;
use std::alloc::Global;

/// A server of one shard whose requests are of a caller's own service. It has a type of its own because no type with a
/// parameter crosses to C.
#[derive(Drop)]
pub struct RelayServer {
    pub server: ByteServer<OpaqueMachine, u64>,
}

impl RelayServer {
    /// Makes a server that has just started. Returns nothing if the store doesn't have so many shards.
    pub fn new(
        alloc: Global,
        me: ServerId,
        shard: ShardId,
        count: u64,
        limits: ShardLimits,
    ) -> Option<RelayServer>
        ensures made { IfSome result (IsNewRelay me shard count limits) }
        ensures exact { IsSome result ↔ shard < count }
    {
        match ByteServer::new(alloc, me, shard, count, limits) {
            Some(server) => Some(RelayServer { server }),
            None => None,
        }
    }

    /// Returns how many requests were made, which is the place of the next one: 0 before the server has read.
    pub fn made(&self) -> u64
        ensures { result ≡ requests_made self.now.server.core.ready }
    {
        match &self.server.core.ready {
            Some(ready) => ready.replica.machine.made(),
            None => 0,
        }
    }
}
