ghost use Rattle.std.specs.Prelude.{◌≡◌, IfOk, length, map, nat_lt, take};
ghost use Rattle.std.specs.Option.{is_some};

use crate::counts::ServerCounts;
use crate::tally::Tally;
use sm_desk::Command;
use sm_ranges::server_id::ServerId;
use sm_ranges::shard_id::ShardId;
use std::alloc::{AllocError, Global};
use std::marker::Model;
use std::sync::atomic::{AtomicU64, Ordering};

/// The counters of a cluster, into which its workers, clients and commands count.
#[derive(Drop)]
pub struct Counters {
    // The tallies, by the servers' ascending numbers.
    tallies: Vec<Tally>,
    // The numbers of changes, by the shards' numbers.
    changes: Vec<AtomicU64>,
    retried: AtomicU64,
}

impl Model for Counters {
    ghost use Rattle.std.specs.Prelude.{length};
    ghost use Rattle.sm_counts.specs.Fates.{CountersValue};

    ghost Value = { CountersValue };

    ghost view = { λ counters. record {
      servers = length counters.tallies.items;
      shards = length counters.changes.items;
    } };
}

impl Counters {
    /// Makes counters for so many servers and shards, all at 0. It fails only if memory is refused.
    pub fn new(alloc: Global, servers: usize, shards: usize) -> Result<Counters, AllocError>
        ensures { IfOk result (λ made. made ≡ record { servers = servers; shards = shards }) }
    {
        let mut tallies = Vec::new(alloc);
        for _ in 0..servers {
            tallies.push(Tally::new())?;
        }
        Ok(Counters {
            tallies,
            changes: zeros(alloc, shards)?,
            retried: AtomicU64::new(0),
        })
    }

    /// Returns the tally of the server at this place, by ascending numbers; `None` if there is no such place.
    pub fn tally(&self, at: usize) -> Option<&Tally>
        ensures { is_some result ≡ nat_lt at self.now.servers }
    {
        self.tallies.get(at)
    }

    /// Counts a command that was made, if it is a change of a shard.
    pub fn count_command(&self, command: &Command) {
        let Command::Change(k, _) = command else {
            return;
        };
        if let Some(changes) = self.changes.get(k.index()) {
            changes.fetch_add(1, Ordering::SeqCst);
        }
    }

    /// Counts a request that is made anew.
    pub fn count_retry(&self) {
        self.retried.fetch_add(1, Ordering::SeqCst);
    }

    /// Returns the counts of these servers, which must be in ascending order. It fails only if memory is refused.
    pub fn servers(
        &self,
        alloc: Global,
        servers: &[ServerId],
    ) -> Result<Vec<ServerCounts>, AllocError>
        ensures { IfOk result (λ rows. map (λ (row : ServerCounts). row.server) rows.items
            ≡ take self.now.servers servers.now) }
    {
        let mut rows = Vec::new(alloc);
        for (server, tally) in servers.iter().zip(&self.tallies) {
            rows.push(tally.counts(*server))?;
        }
        Ok(rows)
    }

    /// Returns how many changes of the shard were made; 0 for a shard that has no counter.
    pub fn changes(&self, k: ShardId) -> u64 {
        match self.changes.get(k.index()) {
            Some(changes) => changes.load(Ordering::SeqCst),
            None => 0,
        }
    }

    /// Returns how many requests were made anew.
    pub fn retried(&self) -> u64 {
        self.retried.load(Ordering::SeqCst)
    }
}

// Makes so many counters, all at 0.
fn zeros(alloc: Global, count: usize) -> Result<Vec<AtomicU64>, AllocError>
    ensures { IfOk result (λ counters. length counters.items ≡ count) }
{
    let mut counters = Vec::new(alloc);
    for _ in 0..count {
        counters.push(AtomicU64::new(0))?;
    }
    Ok(counters)
}
