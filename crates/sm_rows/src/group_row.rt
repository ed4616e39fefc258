ghost use Rattle.std.specs.Prelude.{◌≡◌};
ghost use Rattle.std.specs.List.{list_all};
ghost use Rattle.sm_rows.specs.Rows.{are_groups, is_group_row};

use crate::limits::{MAX_GROUPS, MAX_LIMIT};

/// A group of shards, from the settings.
#[derive(Clone, Copy, PartialEq, Eq, Drop)]
pub struct GroupRow {
    /// How many of its shards may name a server of the same fault domain, 0 to 4,096.
    pub limit: u16,
    /// How many of its shards may be down at once, 0 to 4,096.
    pub down: u16,
}

impl GroupRow {
    /// Returns whether each number of the row is in its range.
    pub fn is_in_range(&self) -> bool
        ensures { result ≡ is_group_row self.now }
    {
        self.limit <= MAX_LIMIT && self.down <= MAX_LIMIT
    }
}

/// Returns whether there are 1 to 4,096 rows, each in its range.
pub fn are_groups(rows: &[GroupRow]) -> bool
    ensures { result ≡ are_groups rows.now }
{
    !rows.is_empty() && rows.len() <= MAX_GROUPS && rows_in_range(rows)
}

fn rows_in_range(rows: &[GroupRow]) -> bool
    ensures { result ≡ list_all is_group_row rows.now }
{
    rows.iter().all(|row| row.is_in_range())
}
