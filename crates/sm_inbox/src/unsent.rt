use std::fmt;
use thiserror::Error;

/// Why a message was not sent.
#[derive(Clone, Copy, Debug, PartialEq, Eq, Drop, Error)]
pub enum SendFault {
    /// The door is shut, or nobody has the inbox.
    #[error("the server is out of reach")]
    Unreachable,
    /// Memory for sending it was refused.
    #[error("out of memory")]
    NoMemory,
}

/// A message that was not sent, and the reason.
#[derive(Drop, Error)]
#[error("{fault}")]
pub struct Unsent<M: Drop> {
    pub fault: SendFault,
    pub message: M,
}

// This asks nothing of the messages, because they need no `Debug`.
impl<M: Drop> fmt::Debug for Unsent<M> {
    fn fmt<W: fmt::Write>(&self, f: &mut fmt::Formatter<W>) -> fmt::Result {
        f.debug_struct("Unsent")
            .field("fault", &self.fault)
            .finish_non_exhaustive()
    }
}
