ghost use Rattle.std.specs.Prelude.{◌≡◌, List, ℕ, IfOk, IfErr, OnOk, OnErr};

use std::alloc::{AllocError, Global};

/// The part that a user of the manager writes: a state that answers requests one at a time. It knows nothing of earlier
/// requests, or of limits, places and servers.
pub trait Machine: Drop + Send {
    /// A client's request.
    type Request: Drop + Send;

    /// The reply to a request.
    type Reply: Drop + Send;

    /// The machine before any request.
    ghost start: { Self };

    /// The machine after a request.
    ghost after: { Self → Self.Request → Self };

    /// The reply of the machine to a request.
    ghost reply: { Self → Self.Request → Self.Reply };

    /// The bytes whose shard executes the request.
    ghost key_of: { Self.Request → List ℕ };

    /// Makes the machine before any request. It should take no memory, because it can't report that memory was refused.
    fn new(alloc: Global) -> Self
        ensures { result ≡ start };

    /// Returns the bytes whose shard executes the request.
    fn key(request: &Self::Request) -> &[u8]
        ensures { result.now ≡ key_of request.now };

    /// Answers the request. If memory is refused, it must change nothing.
    fn answer(&mut self, alloc: Global, request: &Self::Request) -> Result<Self::Reply, AllocError>
        ensures reply { IfOk result (λ made. made ≡ reply self.old request.now) }
        ensures after { OnOk result (self.new ≡ after self.old request.now) }
        ensures err { OnErr result (self.new ≡ self.old) };

    /// Answers the request as [`Machine::answer`] does, and may keep the request's memory instead of a copy. If memory
    /// is refused, the request comes back. If a machine keeps memory of its requests, it must write its own version of
    /// this.
    fn answer_owned(
        &mut self,
        alloc: Global,
        request: Self::Request,
    ) -> Result<Self::Reply, (Self::Request, AllocError)>
        ensures reply { IfOk result (λ made. made ≡ reply self.old request) }
        ensures after { OnOk result (self.new ≡ after self.old request) }
        ensures handed_back { IfErr result (λ back. back.0 ≡ request) }
        ensures err { OnErr result (self.new ≡ self.old) }
    {
        match self.answer(alloc, &request) {
            Ok(made) => Ok(made),
            Err(refused) => Err((request, refused)),
        }
    }

    /// Should move the machine into fresh memory, or leave it in the old memory if a growth is refused. In both cases
    /// its value must stay the same. Only that is proved.
    fn rebuild(&mut self, alloc: Global) -> Result<(), AllocError>
        ensures { self.new ≡ self.old };
}
