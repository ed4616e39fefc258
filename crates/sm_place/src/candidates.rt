ghost use Rattle.std.specs.Prelude.{◌≡◌, ◌<◌, ◌≤◌, IfOk, length};
ghost use Rattle.sm_ranges.specs.declared.limits.TheConstants.{MAX_SHARDS};
ghost use Rattle.sm_place.specs.Plans.{shards_to_move, stands_to_move};

use crate::shard::Shard;
use sm_ranges::server_id::ServerId;
use sm_ranges::shard_id::ShardId;
use sm_ranges::stand::Stand;
use std::alloc::{AllocError, Global};

/// Returns the numbers of the shards that the server serves. Without a server, returns those of the Vacant shards.
pub(crate) fn shards_to_move(
    alloc: Global,
    shards: &[Shard],
    from: &Option<ServerId>,
) -> Result<Vec<ShardId>, AllocError>
    requires { length shards.now ≤ MAX_SHARDS }
    ensures { IfOk result (λ numbers. numbers.items ≡ shards_to_move from.now shards.now) }
{
    let mut numbers = Vec::new(alloc);
    for (at, shard) in shards.iter().enumerate() {
        if stands_to_move(&shard.stand, from) {
            numbers.push(shard_id(at))?;
        }
    }
    Ok(numbers)
}

// Returns the shard with this number.
fn shard_id(number: usize) -> ShardId
    requires { number < MAX_SHARDS }
    ensures { result ≡ number }
{
    ShardId::new(number as u16).unwrap()
}

// Returns whether a plan moves a shard of this stand. With a server, it moves the shards that the server serves;
// without one, the Vacant shards.
fn stands_to_move(stand: &Stand, from: &Option<ServerId>) -> bool
    ensures { result ≡ stands_to_move from.now stand.now }
{
    match *from {
        None => matches!(stand, Stand::Vacant),
        Some(server) => match *stand {
            Stand::Serving(owner) => owner == server,
            _ => false,
        },
    }
}
