use crate::fate::{FATES, Fate};
use sm_ranges::server_id::ServerId;
use sm_ranges::shard_id::ShardId;

/// The counts of a cluster's servers and shards since its start.
#[derive(Drop)]
pub struct Counts {
    /// A row for each server, by rising numbers.
    pub servers: Vec<ServerCounts>,
    /// A row for each shard, by its number.
    pub shards: Vec<ShardCounts>,
    /// How many requests of loads were made anew.
    pub retried: u64,
}

/// The fates of the envelopes that came to a server.
#[derive(Clone, Copy, PartialEq, Eq, Drop)]
pub struct ServerCounts {
    /// The server.
    pub server: ServerId,
    /// How many envelopes had each fate, by the fates' places.
    pub by_fate: [u64; FATES],
}

impl ServerCounts {
    /// Returns how many envelopes had this fate.
    pub fn of(&self, fate: Fate) -> u64 {
        self.by_fate[fate as usize]
    }
}

/// The counts of a shard.
#[derive(Clone, Copy, PartialEq, Eq, Drop)]
pub struct ShardCounts {
    /// The shard.
    pub shard: ShardId,
    /// How often a server was admitted to it.
    pub admissions: u64,
    /// How many changes of its stand were made.
    pub changes: u64,
}
