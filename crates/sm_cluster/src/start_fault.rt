use std::alloc::AllocError;
use thiserror::Error;

/// Why a cluster was not started: the first reason that applies, in this order.
#[derive(Clone, Copy, Debug, PartialEq, Eq, Drop, Error)]
pub enum StartFault {
    /// All servers together would have more than [`MAX_WORKERS`](crate::MAX_WORKERS) workers.
    #[error("a cluster has at most 64 workers")]
    TooManyWorkers,
    /// Memory was refused.
    #[error("out of memory")]
    NoMemory,
    /// A thread was refused.
    #[error("no thread was to be had")]
    NoThread,
}

impl From<AllocError> for StartFault {
    ghost use Rattle.std.specs.Prelude.{◌≡◌};
    ghost use Rattle.sm_cluster.specs.declared.start_fault.StartFault.TheVariants.{NoMemory};

    ghost from_gives = { λ error fault. fault ≡ NoMemory };

    fn from(_error: AllocError) -> StartFault {
        StartFault::NoMemory
    }
}
