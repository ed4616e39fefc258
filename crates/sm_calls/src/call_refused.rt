use sm_inbox::SendFault;
use sm_server::Refusal;
use std::fmt;
use thiserror::Error;

/// Why a call was not answered.
#[derive(Clone, Copy, Debug, PartialEq, Eq, Drop, Error)]
pub enum CallFault {
    /// The client's router has no route of the key's shard.
    #[error("no route is known")]
    NoRoute,
    /// The door of the server was shut, at the call or at a forward.
    #[error("the server is out of reach")]
    Unreachable,
    /// A server refused the request.
    #[error("{0}")]
    Refused(Refusal),
    /// Memory for the way was refused.
    #[error("out of memory")]
    NoMemory,
    /// The message was dropped without a reply, for instance because its server was stopped.
    #[error("no reply will come")]
    Closed,
}

impl From<SendFault> for CallFault {
    ghost use Rattle.sm_calls.specs.Replies.{IsOfTheWay};

    ghost from_gives = { λ _ fault. IsOfTheWay fault };

    fn from(fault: SendFault) -> CallFault {
        match fault {
            SendFault::Unreachable => CallFault::Unreachable,
            SendFault::NoMemory => CallFault::NoMemory,
        }
    }
}

/// A call that was not answered, and its request, unless the message was dropped.
#[derive(Drop, Error)]
#[error("{fault}")]
pub struct CallRefused<Q: Drop> {
    pub fault: CallFault,
    pub back: Option<Q>,
}

// Requests need not show themselves.
impl<Q: Drop> fmt::Debug for CallRefused<Q> {
    fn fmt<W: fmt::Write>(&self, f: &mut fmt::Formatter<W>) -> fmt::Result {
        f.debug_struct("CallRefused")
            .field("fault", &self.fault)
            .finish_non_exhaustive()
    }
}
