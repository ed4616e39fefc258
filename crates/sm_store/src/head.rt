/// The head of a shard's log: how much of the log is kept, and in which form.
#[derive(Clone, Copy, Debug, PartialEq, Eq, Drop)]
pub struct Head {
    /// How many batches there are. They are numbered from 1 on.
    pub batches: u64,
    /// How many of them the base includes, or 0 if there is no base. The later ones are kept as batches.
    pub base: u64,
    /// The number of the base's parts.
    pub parts: u64,
}
