use sm_rule::admit_refusal::AdmitRefusal;
use sm_server::CheckpointFault;
use thiserror::Error;

/// Why a shard can't be held or freed, or makes no checkpoint: the first reason that applies, in this order.
#[derive(Clone, Copy, Debug, PartialEq, Eq, Drop, Error)]
pub enum HoldFault {
    /// There is no such shard.
    #[error("there is no such shard")]
    UnknownShard,
    /// There is no such server.
    #[error("there is no such server")]
    UnknownServer,
    /// The server was not admitted to the shard.
    #[error("{0}")]
    Admit(AdmitRefusal),
    /// The shard isn't held, so it can't be freed.
    #[error("the shard is not held")]
    NotHeld,
    /// Memory for the checkpoint was refused.
    #[error("out of memory")]
    NoMemory,
}

impl From<CheckpointFault> for HoldFault {
    ghost use Rattle.std.specs.Prelude.{◌≡◌};
    ghost use Rattle.sm_cluster.specs.Basing.{hold_fault_of};

    ghost from_gives = { λ fault refused. refused ≡ hold_fault_of fault };

    fn from(fault: CheckpointFault) -> HoldFault {
        match fault {
            CheckpointFault::Admit(refusal) => HoldFault::Admit(refusal),
            CheckpointFault::NoMemory => HoldFault::NoMemory,
        }
    }
}
