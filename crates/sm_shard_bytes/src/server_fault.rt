use sm_codec::Fault;
use sm_shard::ReplayFault;
use std::alloc::{AllocError, AllocFailed};
use thiserror::Error;

/// Why a call on a server did nothing, or the server has forgotten its readings.
#[derive(Clone, Copy, Debug, Drop, Error)]
pub enum ServerFault {
    /// Memory was refused.
    #[error("out of memory")]
    Memory,
    /// The bytes at a key are malformed.
    #[error("what lies at a key is wrong: {0}")]
    Bytes(Fault),
    /// A last request in a part of a base has no reply.
    #[error("a last request in a part of a base has no reply")]
    Reply,
    /// The log can't be followed.
    #[error(transparent)]
    Replay(ReplayFault),
    /// The server has read nothing yet.
    #[error("the server has read nothing yet")]
    Unread,
    /// A request or a batch has too many bytes.
    #[error("a request or a batch has too many bytes")]
    TooLarge,
}

impl From<AllocError> for ServerFault {
    ghost use Rattle.std.specs.Prelude.{◌≡◌};
    ghost use Rattle.sm_shard_bytes.specs.declared.server_fault.ServerFault.TheVariants.{Memory};

    ghost from_gives = { λ _ fault. fault ≡ Memory };

    fn from(_: AllocError) -> ServerFault {
        ServerFault::Memory
    }
}

impl<T: Drop> From<AllocFailed<T>> for ServerFault {
    ghost use Rattle.std.specs.Prelude.{◌≡◌};
    ghost use Rattle.sm_shard_bytes.specs.declared.server_fault.ServerFault.TheVariants.{Memory};

    ghost from_gives = { λ _ fault. fault ≡ Memory };

    fn from(_: AllocFailed<T>) -> ServerFault {
        ServerFault::Memory
    }
}

impl From<ReplayFault> for ServerFault {
    ghost use Rattle.std.specs.Prelude.{◌≡◌};
    ghost use Rattle.sm_shard_bytes.specs.declared.server_fault.ServerFault.TheVariants.{Replay};

    ghost from_gives = { λ why fault. fault ≡ Replay why };

    fn from(why: ReplayFault) -> ServerFault {
        ServerFault::Replay(why)
    }
}
