ghost use Rattle.std.specs.Prelude.{◌≡◌};
ghost use Rattle.sm_lead.specs.Commands.{read_at};

use sm_ownership::record::Record;
use sm_ranges::shard_id::ShardId;
use sm_ranges::stand::Stand;

/// A shard's record as it was read, and the revision at which it was last written, or 0 if it never was.
#[derive(Clone, Copy, Drop)]
pub struct RecordRead {
    pub state: Record,
    pub stood: u64,
}

/// Returns the reading of the shard.
pub fn read_at(reads: &[RecordRead], shard: ShardId) -> RecordRead
    ensures { result ≡ read_at reads.now shard }
{
    match reads.get(shard.index()) {
        Some(read) => *read,
        None => RecordRead {
            state: Record {
                stand: Stand::Vacant,
                admitted: false,
                generation: 0,
            },
            stood: 0,
        },
    }
}
