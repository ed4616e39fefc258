use crate::AnswerFault;
use std::alloc::AllocError;
use thiserror::Error;

/// Why a run ended early. The answers to all lines before the one at which it ended were written whole. If writing
/// failed, the first part of that line's answer may have been written, and otherwise nothing of it.
#[derive(Clone, Copy, Debug, PartialEq, Eq, Drop, Error)]
pub enum RunFault {
    /// The reader failed, or [`COUNT_LIMIT`](crate::COUNT_LIMIT) of its calls or of the lines were counted.
    #[error("Read")]
    Read,
    /// The writer failed, or took none of the bytes that it was given.
    #[error("Write")]
    Write,
    /// Memory was refused.
    #[error("NoMemory")]
    NoMemory,
    /// A thread was refused, and no session was begun.
    #[error("NoThread")]
    NoThread,
}

impl From<AllocError> for RunFault {
    ghost use Rattle.std.specs.Prelude.{◌≡◌};
    ghost use Rattle.sm_lines.specs.declared.run_fault.RunFault.TheVariants.{NoMemory};

    ghost from_gives = { λ _ fault. fault ≡ NoMemory };

    fn from(_error: AllocError) -> RunFault {
        RunFault::NoMemory
    }
}

impl From<AnswerFault> for RunFault {
    ghost use Rattle.std.specs.Prelude.{◌≡◌};
    ghost use Rattle.sm_lines.specs.Faults.{run_fault_of};

    ghost from_gives = { λ fault ended. ended ≡ run_fault_of fault };

    fn from(fault: AnswerFault) -> RunFault {
        match fault {
            AnswerFault::Read => RunFault::Read,
            AnswerFault::Write => RunFault::Write,
            AnswerFault::NoMemory => RunFault::NoMemory,
        }
    }
}
