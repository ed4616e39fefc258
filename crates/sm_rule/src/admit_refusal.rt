use sm_ownership::admit_fault::AdmitFault;
use sm_ownership::record::Record;
use thiserror::Error;

/// Why a pass was not admitted.
#[derive(Clone, Copy, Debug, PartialEq, Eq, Drop, Error)]
pub enum AdmitRefusal {
    /// The shard's record refuses it, by the first fault that applies.
    #[error("{0}")]
    Refused(AdmitFault, Record),
    /// The record read admits it, but another one was found when it was to be changed.
    #[error("another thread was first")]
    Raced { read: Record, found: Record },
}
