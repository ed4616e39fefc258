ghost use Rattle.std.specs.Prelude.{◌≡◌};
ghost use Rattle.std.specs.List.{list_all};
ghost use Rattle.sm_rows.specs.Rows.{are_shards, is_shard_row};

use crate::limits::MAX_CAP;
use sm_ranges::limits::MAX_SHARDS;

/// A shard, from the settings.
#[derive(Clone, Copy, PartialEq, Eq, Drop)]
pub struct ShardRow {
    /// The place of its group among the groups, from 0.
    pub group: u16,
    /// The capacity that it takes on each server that its stand names, 0 to 4,294,967,295.
    pub load: u32,
    /// How many of its replicas may be down for a planned restart: 0 or 1, because it has one replica.
    pub cap: u8,
}

impl ShardRow {
    /// Returns whether each number of the row is in its range, if there are this many groups.
    pub fn is_in_range(&self, groups: usize) -> bool
        ensures { result ≡ is_shard_row groups self.now }
    {
        // The type keeps the load's range.
        prove!(self.load <= u32::MAX);
        usize::from(self.group) < groups && self.cap <= MAX_CAP
    }
}

/// Returns whether there are 1 to 4,096 rows, and each is in its range if there are this many groups.
pub fn are_shards(groups: usize, rows: &[ShardRow]) -> bool
    ensures { result ≡ are_shards groups rows.now }
{
    !rows.is_empty() && rows.len() <= MAX_SHARDS && rows_in_range(groups, rows)
}

fn rows_in_range(groups: usize, rows: &[ShardRow]) -> bool
    ensures { result ≡ list_all (is_shard_row groups) rows.now }
{
    rows.iter().all(|row| row.is_in_range(groups))
}
