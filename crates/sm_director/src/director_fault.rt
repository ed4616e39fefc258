ghost use Rattle.std.specs.Prelude.{◌≡◌};
ghost use Rattle.sm_director.specs.Resettlings.{in_use};

use sm_codec::ReadError;
use sm_desk::CommandFault;
use sm_lead::{LoadFault, ResettleFault};
use sm_ranges::server_id::ServerId;
use std::alloc::{AllocError, AllocFailed};
use thiserror::Error;

/// Why a call on a director did nothing.
#[derive(Clone, Copy, Debug, PartialEq, Eq, Drop, Error)]
pub enum DirectorFault {
    /// Memory was refused.
    #[error("out of memory")]
    Memory,
    /// The bytes at a key are malformed.
    #[error("what lies at a key is wrong")]
    Bytes,
    /// No control can be made from the readings.
    #[error(transparent)]
    Load(LoadFault),
    /// The command is refused; or there is no such shard or server.
    #[error(transparent)]
    Command(CommandFault),
    /// Nothing was read yet, or everything must be read again.
    #[error("nothing was read yet, or all is to be read again")]
    Unread,
    /// A command was sent, and its outcome isn't known yet.
    #[error("a command was sent, and its outcome isn't known yet")]
    UnderWay,
    /// A follower hasn't read that the shard is taken.
    #[error("a follower hasn't read that the shard is taken")]
    NotFollowed,
    /// A server that the command waits for hasn't acked the shard's record.
    #[error("a server that the command waits for hasn't acked the shard's record")]
    NotAcked,
    /// The process that runs the server isn't later than the one that was stopped, or isn't known.
    #[error("the server's process is the one that was stopped, or isn't known")]
    EarlierProcess,
    /// No command was sent.
    #[error("no command was sent")]
    NotSent,
    /// The other director's settings may not come in place of this one's.
    #[error(transparent)]
    Resettle(ResettleFault),
    /// The result is longer than the room for it.
    #[error("what would be written is longer than the room for it")]
    TooShort,
}

impl DirectorFault {
    /// Returns the server that other settings would take out, which has neither stopped nor failed.
    pub(crate) fn in_use(&self) -> Option<ServerId>
        ensures { result ≡ in_use self.now }
    {
        match *self {
            DirectorFault::Resettle(ResettleFault::InUse(server)) => Some(server),
            DirectorFault::Resettle(
                ResettleFault::Apart | ResettleFault::OtherShards | ResettleFault::OtherCeiling,
            )
            | DirectorFault::Memory
            | DirectorFault::Bytes
            | DirectorFault::Load(_)
            | DirectorFault::Command(_)
            | DirectorFault::Unread
            | DirectorFault::UnderWay
            | DirectorFault::NotFollowed
            | DirectorFault::NotAcked
            | DirectorFault::EarlierProcess
            | DirectorFault::NotSent
            | DirectorFault::TooShort => None,
        }
    }
}

impl From<AllocError> for DirectorFault {
    ghost use Rattle.std.specs.Prelude.{◌≡◌};
    ghost use Rattle.sm_director.specs.declared.director_fault.DirectorFault.TheVariants.{Memory};

    ghost from_gives = { λ _ fault. fault ≡ Memory };

    fn from(_: AllocError) -> DirectorFault {
        DirectorFault::Memory
    }
}

impl<T: Drop> From<AllocFailed<T>> for DirectorFault {
    ghost use Rattle.std.specs.Prelude.{◌≡◌};
    ghost use Rattle.sm_director.specs.declared.director_fault.DirectorFault.TheVariants.{Memory};

    ghost from_gives = { λ _ fault. fault ≡ Memory };

    fn from(_: AllocFailed<T>) -> DirectorFault {
        DirectorFault::Memory
    }
}

impl From<ReadError> for DirectorFault {
    ghost use Rattle.std.specs.Prelude.{◌≡◌, ◌⊎◌};
    ghost use Rattle.sm_director.specs.declared.director_fault.DirectorFault.TheVariants.{Bytes, Memory};

    ghost from_gives = { λ _ fault. (fault ≡ Memory) ⊎ (fault ≡ Bytes) };

    fn from(error: ReadError) -> DirectorFault {
        match error {
            ReadError::Memory => DirectorFault::Memory,
            ReadError::Fault(_) => DirectorFault::Bytes,
        }
    }
}
