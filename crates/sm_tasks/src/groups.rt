ghost use Rattle.std.specs.Prelude.{◌≡◌, ℕ, ◌<◌, slice_index};
ghost use Rattle.sm_ranges.specs.Stand.{names};
ghost use Rattle.sm_rows.specs.declared.limits.TheConstants.{MAX_GROUPS};
ghost use Rattle.sm_tasks.specs.Approvals.{full_group, names_down};
ghost use Rattle.sm_tasks.specs.Groups.{group_count};

use crate::counts::names_down;
use sm_place::Books;
use sm_ranges::ServerId;
use sm_rows::limits::MAX_GROUPS;

/// Returns the lowest group, by its place from 0, that has a shard on the server, if more of its shards than its `down`
/// name this server or one that is leaving. The counts are on the stack, so it takes no memory.
pub(crate) fn full_group(books: &Books, a: ServerId) -> Option<u16>
    ensures { result ≡ full_group books.now a }
{
    books.soundness();
    let named = named_by_group(books, a);
    let down = down_by_group(books, a);
    for (g, row) in books.groups().iter().enumerate() {
        if named[g] > 0 && down[g] > row.down {
            return Some(g as u16);
        }
    }
    None
}

// Returns, for each group, how many of its shards name the server.
fn named_by_group(books: &Books, a: ServerId) -> [u16; MAX_GROUPS]
    ensures { (g : ℕ) → g < MAX_GROUPS
        → slice_index result g ≡ group_count (λ stand. names stand a) books.now.shards g }
{
    books.soundness();
    let mut counts = [0; MAX_GROUPS];
    for shard in books.shards() {
        if shard.stand.names(a) {
            counts[usize::from(shard.row.group)] += 1;
        }
    }
    counts
}

// Returns, for each group, how many of its shards name the server or one that is leaving.
fn down_by_group(books: &Books, a: ServerId) -> [u16; MAX_GROUPS]
    ensures { (g : ℕ) → g < MAX_GROUPS
        → slice_index result g ≡ group_count (names_down books.now a) books.now.shards g }
{
    books.soundness();
    let mut counts = [0; MAX_GROUPS];
    for shard in books.shards() {
        if names_down(books, &shard.stand, a) {
            counts[usize::from(shard.row.group)] += 1;
        }
    }
    counts
}
