use std::alloc::AllocError;
use thiserror::Error;

/// Why there is no plan to drain a server: the first reason that applies, in this order.
#[derive(Clone, Copy, Debug, PartialEq, Eq, Drop, Error)]
pub enum DrainFault {
    /// There is no such server.
    #[error("there is no such server")]
    UnknownServer,
    /// Memory for the plan was refused.
    #[error("out of memory")]
    NoMemory,
}

impl From<AllocError> for DrainFault {
    ghost use Rattle.std.specs.Prelude.{◌≡◌};
    ghost use Rattle.sm_control.specs.declared.drain_fault.DrainFault.TheVariants.{NoMemory};

    ghost from_gives = { λ error fault. fault ≡ NoMemory };

    fn from(_error: AllocError) -> DrainFault {
        DrainFault::NoMemory
    }
}
