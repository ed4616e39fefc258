use crate::replica::ReplayFault;
use crate::shard_limits::ShardLimits;
use crate::shard_server::ShardServer;
use crate::steps::{ShardInput, ShardOutput, step};
use crate::store_machine::StoreMachine;
use sm_ranges::limits::MAX_SHARDS;
use sm_ranges::server_id::ServerId;
use sm_ranges::shard_id::ShardId;
use std::alloc::{AllocError, Global};

/// A server's state for all shards of a store.
#[derive(Drop)]
pub struct StoreServer<M, Q, R> {
    /// Its state for each shard, in their order.
    pub servers: Vec<ShardServer<M, Q, R>>,
}

impl<Q: Drop, R: Copy + Drop, M: StoreMachine<Q, R>> StoreServer<M, Q, R> {
    ghost use Rattle.std.specs.Prelude.{◌≡◌, ◌≤◌, ◌<◌, ◌↔◌, ℕ, Err, IfOk, IfSome, IsSome, Some, length, slice_get};
    ghost use Rattle.sm_shard.specs.declared.replica.ReplayFault.TheVariants.{UnknownShard};
    ghost use Rattle.sm_shard.specs.StoreServers.{AreAllShards, IsStoreStep};

    /// Makes a server that has just started and knows nothing about any shard. Returns nothing if there can't be so
    /// many shards.
    pub fn new(
        alloc: Global,
        me: ServerId,
        count: u64,
        limits: ShardLimits,
    ) -> Result<Option<StoreServer<M, Q, R>>, AllocError>
        ensures shards { IfOk result
            (λ made. IfSome made (λ server. AreAllShards me count count server.servers.items)) }
        ensures exact { IfOk result (λ made. IsSome made ↔ count ≤ MAX_SHARDS) }
    {
        if count > MAX_SHARDS as u64 {
            return Ok(None);
        }
        let mut servers = Vec::new(alloc);
        for _ in 0..count {
            let Some(shard) = ShardId::new(servers.len() as u16) else {
                return Ok(None);
            };
            let Some(server) = ShardServer::new(me, shard, count, limits) else {
                return Ok(None);
            };
            servers.push(server)?;
        }
        Ok(Some(StoreServer { servers }))
    }

    /// Returns the server's state for the shard, or nothing if the store doesn't have so many shards.
    pub fn shard(&self, shard: ShardId) -> Option<&ShardServer<M, Q, R>>
        ensures one { IfSome result (λ server. slice_get self.now.servers.items shard ≡ Some server.now) }
        ensures exact { IsSome result ↔ shard < length self.now.servers.items }
    {
        self.servers.get(shard.index())
    }

    /// Makes one step for the shard, exactly as [`step`] does; nothing else changes. Returns `UnknownShard` if the
    /// store doesn't have so many shards, and then nothing changes at all.
    pub fn step(
        &mut self,
        alloc: Global,
        shard: ShardId,
        input: ShardInput<'_, Q, R>,
    ) -> Result<ShardOutput<Q, R>, ReplayFault>
        ensures step { shard < length self.old.servers.items
            → IsStoreStep M.service M.size self.old.servers.items shard input.entry result
            self.new.servers.items }
        ensures unknown { length self.old.servers.items ≤ shard
            → (result ≡ Err UnknownShard) × (self.new.servers.items ≡ self.old.servers.items) }
        ensures shards { (me count : ℕ) → AreAllShards me count count self.old.servers.items
            → AreAllShards me count count self.new.servers.items }
    {
        if shard.index() >= self.servers.len() {
            return Err(ReplayFault::UnknownShard);
        }
        let server = &mut self.servers[shard.index()];
        step(alloc, server, input)
    }
}
