ghost use Rattle.std.specs.Prelude.{IfOk};
ghost use Rattle.sm_script.specs.declared.call.Call.TheVariants as call;

use sm_desk::command::Command;
use sm_ranges::key::Key;
use sm_ranges::server_id::ServerId;
use sm_ranges::shard_id::ShardId;
use sm_script::{LineAnswer, LoadClients};
use sm_service::request::Request;
use std::alloc::AllocError;

/// Makes the calls of a session: a world on one thread, a cluster of threads, or servers elsewhere. Backends differ
/// only in the answers that each call may have.
///
/// If a call is refused, or doesn't run on this backend, its answer says so. A call fails only for lack of memory, and
/// then it has no answer.
pub trait Backend {
    ghost use Rattle.std.specs.Prelude.{⊤};
    ghost use Rattle.sm_script.specs.declared.call.Call.{Call};
    ghost use Rattle.sm_script.specs.declared.line_answer.LineAnswer.{LineAnswer};

    /// The facts that a backend must know while it is used and that no field can hold: for example, that its runtime
    /// may be shared.
    ghost ready: { Self → Type 0 } = { λ _. ⊤ };

    /// The answers that each call may have: the backend before, the call, the answer and the backend after.
    ghost answers: { Self → Call → LineAnswer → Self → Type 0 };

    /// Makes a command of the control.
    fn command(&mut self, command: Command) -> Result<LineAnswer, AllocError>
        requires ready { ready self.old }
        ensures ready { ready self.new }
        ensures answers { IfOk result (λ answer. answers self.old (call.Control command) answer self.new) };

    /// Admits the server to the shard without a request.
    fn hold(&mut self, shard: ShardId, server: ServerId) -> Result<LineAnswer, AllocError>
        requires ready { ready self.old }
        ensures ready { ready self.new }
        ensures answers { IfOk result (λ answer. answers self.old (call.Hold shard server) answer self.new) };

    /// Ends such an admission.
    fn free(&mut self, shard: ShardId) -> Result<LineAnswer, AllocError>
        requires ready { ready self.old }
        ensures ready { ready self.new }
        ensures answers { IfOk result (λ answer. answers self.old (call.Free shard) answer self.new) };

    /// Makes the shard's present state its base, by the server.
    fn checkpoint(&mut self, shard: ShardId, server: ServerId) -> Result<LineAnswer, AllocError>
        requires ready { ready self.old }
        ensures ready { ready self.new }
        ensures answers { IfOk result (λ answer. answers self.old (call.Checkpoint shard server) answer self.new) };

    /// Makes the shard's owner its published route.
    fn publish(&mut self, shard: ShardId) -> Result<LineAnswer, AllocError>
        requires ready { ready self.old }
        ensures ready { ready self.new }
        ensures answers { IfOk result (λ answer. answers self.old (call.Publish shard) answer self.new) };

    /// Returns the published route of the key's shard, if there is one.
    fn route(&mut self, key: Key) -> Result<LineAnswer, AllocError>
        requires ready { ready self.old }
        ensures ready { ready self.new }
        ensures answers { IfOk result (λ answer. answers self.old (call.Route key) answer self.new) };

    /// Returns the shard's record.
    fn look(&mut self, shard: ShardId) -> Result<LineAnswer, AllocError>
        requires ready { ready self.old }
        ensures ready { ready self.new }
        ensures answers { IfOk result (λ answer. answers self.old (call.Look shard) answer self.new) };

    /// Has this many clients add to the key's count at the same time, each this many times, and returns the result.
    fn load(&mut self, key: Key, clients: LoadClients, each: u16) -> Result<LineAnswer, AllocError>
        requires ready { ready self.old }
        ensures ready { ready self.new }
        ensures answers { IfOk result (λ answer. answers self.old (call.Load key clients each) answer self.new) };

    /// Returns a plan for the shards without an owner.
    fn place(&mut self) -> Result<LineAnswer, AllocError>
        requires ready { ready self.old }
        ensures ready { ready self.new }
        ensures answers { IfOk result (λ answer. answers self.old call.Place answer self.new) };

    /// Returns a plan for the shards that the server serves.
    fn drain(&mut self, server: ServerId) -> Result<LineAnswer, AllocError>
        requires ready { ready self.old }
        ensures ready { ready self.new }
        ensures answers { IfOk result (λ answer. answers self.old (call.Drain server) answer self.new) };

    /// Has the owner in the record of its key's shard execute the request.
    fn request(&mut self, request: Request) -> Result<LineAnswer, AllocError>
        requires ready { ready self.old }
        ensures ready { ready self.new }
        ensures answers { IfOk result (λ answer. answers self.old (call.Request request) answer self.new) };

    /// Has the server execute the request.
    fn request_at(&mut self, server: ServerId, request: Request) -> Result<LineAnswer, AllocError>
        requires ready { ready self.old }
        ensures ready { ready self.new }
        ensures answers { IfOk result (λ answer. answers self.old (call.RequestAt server request) answer self.new) };

    /// Has the server of its key's published route execute the request.
    fn request_by_route(&mut self, request: Request) -> Result<LineAnswer, AllocError>
        requires ready { ready self.old }
        ensures ready { ready self.new }
        ensures answers { IfOk result (λ answer. answers self.old (call.RequestByRoute request) answer self.new) };
}
