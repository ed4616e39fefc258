ghost use Rattle.std.specs.Prelude.{◌≡◌};
ghost use Rattle.sm_codec.specs.declared.fault.ReadError.TheVariants.{Memory};

use std::alloc::{AllocError, AllocFailed};
use thiserror::Error;

/// The fault in the bytes at a key: the first one from left to right. A word and a state are judged last.
#[derive(Clone, Copy, Debug, PartialEq, Eq, Drop, Error)]
pub enum Fault {
    /// A field passes the end.
    #[error("a field passes the end")]
    Short,
    /// The first byte is no version that this reads.
    #[error("the first byte is no known version")]
    Version,
    /// A server's number isn't 1 to 4,095.
    #[error("a server's number isn't 1 to 4,095")]
    Server,
    /// No record has this word.
    #[error("no record has the word")]
    Word,
    /// No state of a server has this number.
    #[error("no state of a server has the number")]
    State,
    /// There are bytes behind the last field.
    #[error("bytes stand after the last field")]
    Trailing,
}

/// Why the bytes at a key could not be read.
#[derive(Clone, Copy, Debug, PartialEq, Eq, Drop, Error)]
pub enum ReadError {
    /// Memory was refused.
    #[error("out of memory")]
    Memory,
    /// The bytes are wrong.
    #[error(transparent)]
    Fault(Fault),
}

impl From<AllocError> for ReadError {
    ghost from_gives = { λ _ e. e ≡ Memory };

    fn from(_: AllocError) -> ReadError {
        ReadError::Memory
    }
}

impl<T: Drop> From<AllocFailed<T>> for ReadError {
    ghost from_gives = { λ _ e. e ≡ Memory };

    fn from(_: AllocFailed<T>) -> ReadError {
        ReadError::Memory
    }
}
