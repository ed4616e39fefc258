ghost use Rattle.std.specs.Prelude.{◌≡◌, ◌<◌, ◌↔◌, IfOk, IfSome, IsSome, length, take};
ghost use Rattle.sm_map.specs.KeyMap.{within};
ghost use Rattle.sm_driver.specs.Servers.{IsNewTexts, keys_held, pairs_found};
ghost use Rattle.sm_texts.specs.Keys.{spelled_keys};

use sm_ranges::server_id::ServerId;
use sm_ranges::shard_id::ShardId;
use sm_shard::ShardLimits;
use sm_shard_bytes::ByteServer;
use sm_texts::{StoreTexts, TextReply, spelled_keys};
use std::alloc::{AllocError, Global};

/// A server of one shard of the sample service. It has a type of its own because no type with a parameter crosses to C.
#[derive(Drop)]
pub struct TextServer {
    pub server: ByteServer<StoreTexts, TextReply>,
}

impl TextServer {
    /// Makes a server that has just started. Returns nothing if the store doesn't have so many shards.
    pub fn new(
        alloc: Global,
        me: ServerId,
        shard: ShardId,
        count: u64,
        limits: ShardLimits,
    ) -> Option<TextServer>
        ensures made { IfSome result (IsNewTexts me shard count limits) }
        ensures exact { IsSome result ↔ shard < count }
    {
        match ByteServer::new(alloc, me, shard, count, limits) {
            Some(server) => Some(TextServer { server }),
            None => None,
        }
    }

    /// Returns how many keys there are after all requests that were made: none before the server has read.
    pub fn count(&self) -> u128
        ensures { result ≡ keys_held self.now.server.core.ready }
    {
        match &self.server.core.ready {
            Some(ready) => ready.replica.machine.count(),
            None => 0,
        }
    }

    /// Returns the first keys from low on and below high, at most so many, after all requests that were made: how many
    /// they are, and their bytes.
    pub fn keys(
        &self,
        alloc: Global,
        low: &[u8],
        high: &[u8],
        most: usize,
    ) -> Result<(usize, Vec<u8>), AllocError>
        ensures count { IfOk result
            (λ found. found.0 ≡ length (pairs_found self.now.server.core.ready low.now high.now most)) }
        ensures bytes { IfOk result
            (λ found. found.1.items ≡ spelled_keys (pairs_found self.now.server.core.ready low.now high.now most)) }
    {
        match &self.server.core.ready {
            Some(ready) => keys_in(alloc, &ready.replica.machine, low, high, most),
            None => Ok((0, Vec::new(alloc))),
        }
    }
}

// Returns the first keys of the map from low on and below high, at most so many.
fn keys_in(
    alloc: Global,
    texts: &StoreTexts,
    low: &[u8],
    high: &[u8],
    most: usize,
) -> Result<(usize, Vec<u8>), AllocError>
    ensures count { IfOk result (λ found. found.0 ≡ length (take most (within texts.now low.now high.now))) }
    ensures bytes { IfOk result
        (λ found. found.1.items ≡ spelled_keys (take most (within texts.now low.now high.now))) }
{
    let rows = texts.scan(low, high, most)?;
    let bytes = spelled_keys(alloc, &rows)?;
    Ok((rows.len(), bytes))
}
