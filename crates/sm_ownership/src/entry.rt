use crate::change::Change;
use crate::mode::Mode;
use sm_ranges::server_id::ServerId;
use sm_ranges::shard_id::ShardId;

/// How an admission ended.
#[derive(Drop)]
pub enum Ending<Q> {
    /// No request was executed.
    Nothing,
    /// This request was executed.
    Request(Q),
    /// The shard's state became its base. The requests before it are no longer kept.
    Checkpoint,
}

/// The event of an entry.
#[derive(Drop)]
pub enum Kind<Q> {
    /// The control changed the shard's stand.
    Change(Change),
    /// The server was admitted to the shard.
    Admit(ServerId, Mode),
    /// The admission ended in this way.
    Done(Ending<Q>),
}

/// One event of a shard's history: the actor, the shard, and the event.
///
/// Actor 0 is the control. In a world the other actors are the servers, by their numbers.
#[derive(Drop)]
pub struct Entry<Q> {
    pub actor: u64,
    pub shard: ShardId,
    pub kind: Kind<Q>,
}
