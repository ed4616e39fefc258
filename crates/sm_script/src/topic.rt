/// The heading under which the help and the docs list a line.
#[derive(Clone, Copy, PartialEq, Eq, Drop)]
pub enum Topic {
    /// A change of a shard.
    Migrations,
    /// A request to the owner, which may also follow `at A` and `client`.
    Requests,
    /// A request that goes to another server than the owner.
    Sending,
    /// A look, an admission without a request, a base or a published route.
    Records,
    /// A step of a server's restart, its failure, or a plan.
    Restarts,
    /// Many clients at a time.
    Load,
}
