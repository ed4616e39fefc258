use sm_desk::command::Command;
use sm_ranges::key::Key;
use sm_ranges::server_id::ServerId;
use sm_ranges::shard_id::ShardId;

/// A step of a world.
#[derive(Drop)]
pub enum Step<Q> {
    /// The control gives a command.
    Control(Command),
    /// The shard's record is read.
    Look(ShardId),
    /// A client sends a request, under a number of its own, to the server.
    Send(ServerId, u64, Q),
    /// The envelope at this place among those in flight reaches its server.
    Deliver(usize),
    /// The server admitted to the shard executes the request that it has in hand.
    Finish(ShardId),
    /// The envelope at this place among those in flight is lost.
    Lose(usize),
    /// The server is admitted to the shard without a request.
    Hold(ShardId, ServerId),
    /// The admission to the shard without a request ends.
    Free(ShardId),
    /// The server is admitted to the shard, the shard's present state becomes its base, and that admission ends.
    Checkpoint(ShardId, ServerId),
    /// The shard's owner at its generation becomes its published route.
    Publish(ShardId),
    /// The published route of the shard whose range covers the key is read.
    RouteOf(Key),
}
