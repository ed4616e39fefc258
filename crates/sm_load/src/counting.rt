ghost use Rattle.std.specs.Prelude.{◌≡◌, ℤ, IfOk, Option};

use std::alloc::AllocError;

/// The requests of a load, both on one key.
pub trait Counting<Q, R> {
    /// The request that is answered by the count.
    ghost asks: { Self → Q };

    /// The request that adds one to the count, and is answered by it.
    ghost adds: { Self → Q };

    /// The count in a reply, if it has one.
    ghost tells: { Self → R → Option ℤ };

    /// Returns a request that is answered by the count.
    fn get(&self) -> Result<Q, AllocError>
        ensures { IfOk result (λ request. request ≡ asks self.now) };

    /// Returns a request that adds one to the count, and is answered by it.
    fn inc(&self) -> Result<Q, AllocError>
        ensures { IfOk result (λ request. request ≡ adds self.now) };

    /// Returns the count in a reply, if it has one.
    fn count(&self, reply: &R) -> Option<i64>
        ensures { result ≡ tells self.now reply.now };
}
