use sm_ranges::server_id::ServerId;
use sm_ranges::shard_id::ShardId;

/// A key that is never deleted, so its revision rises with every write to it.
#[derive(Clone, Copy, Debug, PartialEq, Eq, Drop)]
pub enum LastingKey {
    /// The record of a shard.
    Record(ShardId),
    /// The head of a shard's log.
    Head(ShardId),
    /// How far the restart of a server has come.
    State(ServerId),
    /// The key that each command of a control writes, so that its revision is the revision of all records and states.
    Placement,
    /// The settings by which all processes go.
    Settings,
}

/// A key that may be deleted.
#[derive(Clone, Copy, Debug, PartialEq, Eq, Drop)]
pub enum PassingKey {
    /// The control that leads, for as long as its lease.
    Leader,
    /// A server, for as long as its lease.
    Server(ServerId),
    /// The ack of a server for a shard, for as long as its lease.
    Ack(ShardId, ServerId),
    /// A batch of a shard's requests, by its number.
    Batch(ShardId, u64),
    /// A part of a shard's base: the number of the base's batches, and the place among the parts.
    Part(ShardId, u64, u64),
    /// Any other key.
    Other,
}

/// A key of the store.
#[derive(Clone, Copy, Debug, PartialEq, Eq, Drop)]
pub enum StoreKey {
    Lasting(LastingKey),
    Passing(PassingKey),
}
