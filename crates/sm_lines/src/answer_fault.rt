use crate::WriteFault;
use std::alloc::AllocError;
use thiserror::Error;

/// Why answering stopped before the end of the input.
#[derive(Clone, Copy, Debug, PartialEq, Eq, Drop, Error)]
pub enum AnswerFault {
    /// The reader failed, or [`COUNT_LIMIT`](crate::COUNT_LIMIT) of its calls or of the lines were counted.
    #[error("Read")]
    Read,
    /// The writer failed, or took none of the bytes that it was given.
    #[error("Write")]
    Write,
    /// Memory was refused.
    #[error("NoMemory")]
    NoMemory,
}

impl From<AllocError> for AnswerFault {
    ghost use Rattle.std.specs.Prelude.{◌≡◌};
    ghost use Rattle.sm_lines.specs.declared.answer_fault.AnswerFault.TheVariants.{NoMemory};

    ghost from_gives = { λ _ fault. fault ≡ NoMemory };

    fn from(_: AllocError) -> AnswerFault {
        AnswerFault::NoMemory
    }
}

impl From<WriteFault> for AnswerFault {
    ghost use Rattle.std.specs.Prelude.{◌≡◌};
    ghost use Rattle.sm_lines.specs.declared.answer_fault.AnswerFault.TheVariants.{Write};

    ghost from_gives = { λ _ fault. fault ≡ Write };

    fn from(_: WriteFault) -> AnswerFault {
        AnswerFault::Write
    }
}
