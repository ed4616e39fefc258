use std::alloc::AllocError;
use thiserror::Error;

/// Why there is no new pass.
#[derive(Clone, Copy, Debug, PartialEq, Eq, Drop, Error)]
pub enum PassFault {
    /// The board has no such server.
    #[error("the board has no such server")]
    UnknownServer,
    /// Memory was refused.
    #[error("out of memory")]
    NoMemory,
}

impl From<AllocError> for PassFault {
    ghost use Rattle.std.specs.Prelude.{◌≡◌};
    ghost use Rattle.sm_foreign.specs.declared.pass_fault.PassFault.TheVariants.{NoMemory};

    ghost from_gives = { λ error fault. fault ≡ NoMemory };

    fn from(_error: AllocError) -> PassFault {
        PassFault::NoMemory
    }
}
