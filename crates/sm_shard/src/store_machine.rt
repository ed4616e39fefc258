ghost use Rattle.std.specs.Prelude.{◌≡◌, ℕ, List, IfOk, OnOk, Some};
ghost use Rattle.std.specs.Option.{option_map};
ghost use Rattle.sm_store.specs.declared.item.Item.{Item as ItemValue};
ghost use Rattle.sm_store.specs.Clients.{Automaton, ReadsLeave, state_after};
ghost use Rattle.sm_shard.specs.Replicas.{answer_parts, read_answer};

use std::alloc::{AllocError, Global};

/// The answer to a request that only reads: the reply, and the text beside it.
#[derive(Drop)]
pub struct ReadAnswer<R> {
    pub reply: R,
    pub text: Vec<u8>,
}

/// A state that answers requests one at a time.
pub trait StoreMachine<Q: Drop, R: Copy + Drop>: Drop {
    /// The machine before any request, the machine after a request, its reply to a request, the requests that only read
    /// and are answered without being made, the texts in their answers, and the bytes that encode the machine.
    ghost service: { Automaton Self Q R };

    /// The bytes that a request takes in a batch.
    ghost size: { Q → ℕ };

    fn new(alloc: Global) -> Self
        ensures { result ≡ service.start };

    /// Answers the request. If memory is refused, nothing is said about the machine.
    fn answer(&mut self, alloc: Global, request: &Q) -> Result<R, AllocError>
        ensures reply { IfOk result (λ made. made ≡ service.reply self.old request.now) }
        ensures after { OnOk result (self.new ≡ service.after self.old request.now) };

    /// Answers a request that only reads, with its reply and its text. Returns nothing for any other request.
    fn peek(&self, alloc: Global, request: &Q) -> Result<Option<ReadAnswer<R>>, AllocError>
        ensures { IfOk result (λ found. option_map answer_parts found
            ≡ read_answer service self.now request.now) };

    /// Returns the bytes that the request takes in a batch.
    fn size_of(request: &Q) -> u64
        ensures { result ≡ size request.now };

    /// Returns the bytes that encode the machine.
    fn save(&self, alloc: Global) -> Result<Vec<u8>, AllocError>
        ensures { IfOk result (λ bytes. bytes.items ≡ service.spelled self.now) };

    /// Returns the machine after some requests, from the bytes that encode it. If the bytes encode no machine, returns
    /// nothing, or any machine.
    fn load(alloc: Global, bytes: &[u8]) -> Result<Option<Self>, AllocError>
        ensures { (items : List (ItemValue Q)) → bytes.now ≡ service.spelled (state_after service service.start items)
            → IfOk result (λ found. found ≡ Some (state_after service service.start items)) };

    /// A request that only reads leaves each machine as it is.
    ghost reads_leave: { ReadsLeave service };
}
