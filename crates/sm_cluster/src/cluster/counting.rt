//! The counts of a cluster.
ghost use Rattle.std.specs.Prelude.{◌≡◌, ◌<◌, IfOk, length};

use super::Cluster;
use sm_body::service::Service;
use sm_counts::counts::{Counts, ShardCounts};
use sm_ranges::limits::MAX_SHARDS;
use sm_ranges::shard_id::ShardId;
use std::alloc::{AllocError, Global};

impl<S: Service> Cluster<S> {
    /// Returns the counts since the start. A request under way is counted once a server's step on it has ended. No
    /// clause says anything about the counts.
    pub fn counts(&self, alloc: Global) -> Result<Counts, AllocError>
        ensures { IfOk result (λ counts. length counts.shards.items ≡ self.now.control.chair.board.limits.count) }
    {
        // The books are sound, so they have at most 4,096 shards.
        self.control.soundness();
        let mut shards = Vec::new(alloc);
        for number in 0..self.ground.board.count() {
            shards.push(self.shard_counts(shard_id(number)))?;
        }
        Ok(Counts {
            servers: self.network.server_counts(alloc)?,
            shards,
            retried: self.network.counters.retried(),
        })
    }

    // Returns the counts of the shard. Its generation is the number of its changes, and of the begins and ends of its
    // admissions.
    fn shard_counts(&self, k: ShardId) -> ShardCounts
        requires { k < self.now.control.chair.board.limits.count }
    {
        let mut pass = self.ground.board.pass(None);
        let generation = self.ground.board.look(&mut pass, k).generation;
        let changes = self.network.counters.changes(k);
        ShardCounts {
            shard: k,
            admissions: generation.saturating_sub(changes).div_ceil(2),
            changes,
        }
    }
}

// The shard of the number.
fn shard_id(number: u32) -> ShardId
    requires { number < MAX_SHARDS }
    ensures { result ≡ number }
{
    ShardId::new(number as u16).unwrap()
}
