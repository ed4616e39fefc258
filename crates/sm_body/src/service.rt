ghost use Rattle.std.specs.Prelude.{◌≡◌, ◌+◌, ◌^◌, ◌++◌, ◌∷◌, [], List, ℕ, fold, length, IfOk, IfErr, OnErr, OnOk, ◌≤◌};
ghost use Rattle.std.specs.Prelude.{◌<◌};

use sm_ranges::server_id::ServerId;
use std::alloc::AllocError;
use thiserror::Error;

/// Why a request was not applied.
#[derive(Clone, Copy, Debug, PartialEq, Eq, Drop, Error)]
pub enum ApplyFault {
    /// The body keeps as many requests as its limit allows.
    #[error("the shard keeps as many requests as it may")]
    KeptFull,
    /// There is room for the request, but memory for it was refused.
    #[error("out of memory")]
    NoMemory,
}

/// The body of a shard: a state machine with the list of the requests that it has applied since a base, which is an
/// earlier state. Bodies, requests and replies can be sent between threads. `Logged` makes a service from any
/// `Machine`.
pub trait Service: Drop + Send {
    /// A client's request.
    type Request: Drop + Send;

    /// The reply to a request.
    type Reply: Drop + Send;

    /// The state on which replies depend.
    ghost State: { Type 0 };

    /// The state before any request.
    ghost initial: { Self.State };

    /// The state after a request.
    ghost next: { Self.State → Self.Request → Self.State };

    /// The reply to a request in a state.
    ghost answer: { Self.State → Self.Request → Self.Reply };

    /// The bytes whose shard executes the request.
    ghost key_of: { Self.Request → List ℕ };

    /// The state before the requests that are kept.
    ghost base: { Self → Self.State };

    /// How many requests were applied before those that are kept.
    ghost before: { Self → ℕ };

    /// The requests that were applied since the base, in their order: those that are kept.
    ghost requests: { Self → List Self.Request };

    /// The most requests that the body keeps.
    ghost limit: { Self → ℕ };

    /// Returns the bytes whose shard executes the request.
    fn key(request: &Self::Request) -> &[u8]
        ensures { result.now ≡ key_of request.now };

    /// Returns how many requests the body keeps.
    fn kept(&self) -> usize
        ensures { result ≡ length (requests self.now) };

    /// Returns how many requests were applied before those that the body keeps.
    fn first(&self) -> u64
        ensures { result ≡ before self.now };

    /// Applies the request and keeps it, or hands it back and changes nothing.
    ///
    /// It fails with `KeptFull` if and only if the body keeps as many requests as its limit, and with `NoMemory` only
    /// below the limit.
    fn apply(&mut self, request: Self::Request) -> Result<Self::Reply, (Self::Request, ApplyFault)>
        // An applied request is the last one kept, and its reply is that of the state after those before it.
        ensures kept { OnOk result (requests self.new ≡ requests self.old ++ request ∷ []) }
        ensures reply { IfOk result (λ reply. reply ≡ answer (fold next (base self.old) (requests self.old)) request) }

        // Below the limit it is applied, or memory for it is refused; at the limit it is refused as too many.
        ensures room { OnOk result (length (requests self.old) < limit self.old) }
        ensures full { IfErr result (λ back.
            back.1 ≡ ApplyFault.KeptFull → limit self.old ≤ length (requests self.old)) }
        ensures no_memory { IfErr result (λ back.
            back.1 ≡ ApplyFault.NoMemory → length (requests self.old) < limit self.old) }

        // If a request is refused, it comes back, and nothing has changed.
        ensures handed_back { IfErr result (λ back. back.0 ≡ request) }
        ensures unchanged { OnErr result (requests self.new ≡ requests self.old) }
        ensures base { base self.new ≡ base self.old }
        ensures before { before self.new ≡ before self.old }
        ensures limit { limit self.new ≡ limit self.old };

    /// Should move the body into fresh memory if this isn't the server for which it was moved last, and if no growth is
    /// refused. Its contents must stay the same. Only that is proved.
    fn settle(&mut self, server: ServerId)
        ensures base { base self.new ≡ base self.old }
        ensures before { before self.new ≡ before self.old }
        ensures kept { requests self.new ≡ requests self.old }
        ensures limit { limit self.new ≡ limit self.old };

    /// Makes the present state the base, and keeps no requests. If memory is refused, it changes nothing. The body must
    /// have applied fewer than 2^36 requests in all.
    fn checkpoint(&mut self) -> Result<(), AllocError>
        requires { before self.old + length (requests self.old) < 2 ^ 36 }
        ensures base { OnOk result (base self.new ≡ fold next (base self.old) (requests self.old)) }
        ensures before { OnOk result (before self.new ≡ before self.old + length (requests self.old)) }
        ensures kept { OnOk result (requests self.new ≡ []) }
        ensures base_stays { OnErr result (base self.new ≡ base self.old) }
        ensures before_stays { OnErr result (before self.new ≡ before self.old) }
        ensures kept_stays { OnErr result (requests self.new ≡ requests self.old) }
        ensures limit { limit self.new ≡ limit self.old };
}
