use sm_ownership::mode::Mode;
use sm_ranges::shard_id::ShardId;

/// An envelope but for its request and its note: its number, its shard, how it came, and how often it was forwarded.
#[derive(Clone, Copy, Drop)]
pub struct SentAs {
    pub number: u64,
    pub shard: ShardId,
    pub mode: Mode,
    pub hops: u8,
}
