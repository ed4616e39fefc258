use crate::limits::Limits;
use sm_ownership::entry::Entry;
use sm_ownership::record::Record;
use sm_ranges::server_id::ServerId;
use sm_ranges::shard_id::ShardId;
use std::collections::LinkedList;

/// The knowledge of a seat. It exists only in contracts and proofs: no value of this type is made.
pub struct View<Q> {
    pub limits: Limits,
    /// The actor of its entries.
    pub number: u64,
    /// The one server that it is admitted as.
    pub server: Option<ServerId>,
    pub held: Option<HeldShard<Q>>,
    /// The history as far as it has looked.
    pub seen: LinkedList<Entry<Q>>,
    pub stage: Stage,
    /// The seat that it has taken in last.
    pub heard: Option<Heard<Q>>,
    /// How many seats were cut from it.
    pub cuts: u64,
    /// The seat that it was cut from.
    pub parent: Option<Parent>,
}

/// Whether a seat acts.
pub enum Stage {
    /// It was cut from another seat, and has that one's number until its first load gives it one of its own.
    Cut,
    Acting,
    /// Another seat has taken it in.
    Joined,
}

/// The shard that a seat is admitted to, its record since then, all its requests, and how many came before its body's
/// base.
pub struct HeldShard<Q> {
    pub shard: ShardId,
    pub state: Record,
    pub first: u64,
    pub all: LinkedList<Q>,
}

/// The history that a seat had seen when it was taken in, its number, and the seat from which it was cut.
pub struct Heard<Q> {
    pub by: u64,
    pub seen: LinkedList<Entry<Q>>,
    pub parent: Option<Parent>,
}

/// The number of a seat from which another was cut, and how many had been cut from it then, including that one.
pub struct Parent {
    pub number: u64,
    pub cuts: u64,
}
