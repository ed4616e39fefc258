//! The codes by which calls answer C.
ghost use Rattle.std.specs.Prelude.{◌≡◌, ◌≢◌, ◌<◌, false, true};
ghost use Rattle.sm_shard_bytes.specs.Calls.{TellsDecision, is_decided};
ghost use Rattle.sm_shard_bytes.specs.Refusals.{server_fault_code};

use crate::forward_numbers::ForwardNumbers;
use crate::server_fault::ServerFault;
use sm_shard::{Decision, ReplayFault};

// By tools/library-codes, the codes of library/codes.txt:

/// The handle keeps no server.
pub const WRONG_HANDLE: u32 = 1;

/// A server is out of range.
pub const BAD_ARGUMENT: u32 = 2;

/// Out of memory.
pub const NO_MEMORY: u32 = 3;

/// There is no such shard.
pub const UNKNOWN_SHARD: u32 = 10;

/// What would be written is longer than the room for it.
pub const TOO_SHORT: u32 = 55;

/// There is no such answer or part.
pub const NO_MORE: u32 = 56;

/// The request waits for the next transaction, or is in one.
pub const WAITS: u32 = 70;

/// A later request of its client was made, so this one won't be made.
pub const PASSED: u32 = 71;

/// Another server executes the request.
pub const FORWARDS: u32 = 72;

/// It isn't executed here now, or its client waits with another number, or will be forgotten.
pub const REFUSED: u32 = 73;

/// The request takes more bytes than a batch may have.
pub const REQUEST_TOO_LARGE: u32 = 74;

/// As many requests wait as allowed.
pub const CROWDED: u32 = 75;

/// Another server executes the request, but it may not be forwarded again.
pub const TOO_FAR: u32 = 76;

/// The server has forgotten its client, so the request won't be made any more.
pub const FORGOTTEN: u32 = 77;

/// As many clients are kept as allowed, and its client isn't among them.
pub const TOO_MANY_CLIENTS: u32 = 78;

/// The server hasn't read the shard.
pub const NOT_READ: u32 = 79;

/// The server has read nothing yet.
pub const UNREAD: u32 = 80;

/// What lies at a key is wrong.
pub const BAD_BYTES: u32 = 81;

/// The log can't be followed.
pub const BAD_LOG: u32 = 82;

/// A batch, or a part of the base, is missing: the log must be read again.
pub const MISSING: u32 = 83;

/// A batch or a part has too many bytes.
pub const TOO_LARGE: u32 = 84;
// End of them.

/// Returns the code of why a call on a server did nothing.
pub fn code_of_fault(fault: ServerFault) -> u32
    ensures code { result ≡ server_fault_code fault }
    ensures refused { result ≢ 0 }
    ensures undecided { is_decided result ≡ false }
{
    match fault {
        ServerFault::Memory => NO_MEMORY,
        ServerFault::Bytes(_) | ServerFault::Reply => BAD_BYTES,
        ServerFault::Replay(fault) => match fault {
            ReplayFault::Memory => NO_MEMORY,
            ReplayFault::Missing => MISSING,
            ReplayFault::OutOfOrder
            | ReplayFault::TooMany
            | ReplayFault::Unreadable
            | ReplayFault::UnknownShard => BAD_LOG,
        },
        ServerFault::Unread => UNREAD,
        ServerFault::TooLarge => TOO_LARGE,
    }
}

/// Returns the code of a decision, with the reply, or the next server for the request.
pub fn code_of_decision<R: Copy + Drop>(
    decision: Decision<R>,
    reply: &mut R,
    forward: &mut ForwardNumbers,
) -> u32
    ensures tells { TellsDecision decision result reply.new forward.new }
    ensures decided { is_decided result ≡ true }
{
    match decision {
        Decision::Replied(made) => {
            *reply = made;
            0
        }
        Decision::Passed => PASSED,
        Decision::Forgotten => FORGOTTEN,
        Decision::Waits => WAITS,
        Decision::Forwards(server, hops) => {
            *forward = ForwardNumbers {
                server: server.number(),
                hops,
            };
            FORWARDS
        }
        Decision::TooFar => TOO_FAR,
        Decision::Refused => REFUSED,
        Decision::NotRead => NOT_READ,
        Decision::TooLarge => REQUEST_TOO_LARGE,
        Decision::Busy => CROWDED,
        Decision::TooManyClients => TOO_MANY_CLIENTS,
    }
}
