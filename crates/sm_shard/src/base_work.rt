use crate::base_part::BasePart;

/// How far a base is.
#[derive(Clone, Copy, PartialEq, Eq, Drop)]
pub enum BaseStage {
    /// Its parts are being written.
    Writing,
    /// Each part is there, so the head may name it.
    Written,
    /// The transaction that makes the head name it was sent.
    Naming,
}

/// A base that a server makes.
#[derive(Drop)]
pub struct BaseWork<R> {
    /// How many batches it replaces.
    pub number: u64,
    pub parts: Vec<BasePart<R>>,
    pub stage: BaseStage,
}

/// A base that a head will name: how many batches it replaces, and how many parts it has.
#[derive(Clone, Copy, PartialEq, Eq, Drop)]
pub struct NamedBase {
    pub number: u64,
    pub parts: u64,
}
