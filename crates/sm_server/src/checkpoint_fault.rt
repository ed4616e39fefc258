use sm_rule::admit_refusal::AdmitRefusal;
use thiserror::Error;

/// Why a shard made no checkpoint.
#[derive(Clone, Copy, Debug, PartialEq, Eq, Drop, Error)]
pub enum CheckpointFault {
    /// The pass was not admitted to the shard.
    #[error("{0}")]
    Admit(AdmitRefusal),
    /// Memory for the checkpoint was refused.
    #[error("out of memory")]
    NoMemory,
}
