ghost use Rattle.std.specs.Prelude.{◌≡◌, ◌<◌, IfOk, length, map};
ghost use Rattle.sm_place.specs.Books.{shard_at, vacant_shard};

use sm_ranges::stand::Stand;
use sm_rows::ShardRow;
use std::alloc::{AllocError, Global};

/// A shard in the books.
#[derive(Clone, Copy, PartialEq, Eq, Drop)]
pub struct Shard {
    /// The shard's row in the settings.
    pub row: ShardRow,
    /// Who owns the shard, and how far a migration of it has come.
    pub stand: Stand,
}

/// Returns the shard at this place.
pub(crate) fn shard_at(shards: &[Shard], at: usize) -> &Shard
    requires { at < length shards.now }
    ensures { result.now ≡ shard_at shards.now at }
{
    &shards[at]
}

/// Returns the shards, all vacant.
pub(crate) fn vacant_shards(alloc: Global, rows: &[ShardRow]) -> Result<Vec<Shard>, AllocError>
    ensures { IfOk result (λ shards. shards.items ≡ map vacant_shard rows.now) }
{
    let mut shards = Vec::with_capacity(alloc, rows.len())?;
    for row in rows {
        shards.push(Shard {
            row: *row,
            stand: Stand::Vacant,
        })?;
    }
    Ok(shards)
}
