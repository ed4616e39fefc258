use sm_ownership::admit_fault::AdmitFault;
use sm_ownership::change_fault::ChangeFault;

/// Why there is no next word.
#[derive(Clone, Copy, Drop)]
pub(crate) enum WordFault {
    /// No record has this word.
    BadWord,
    /// The ceiling is above 2^36 - 1.
    BadCeiling,
    /// The record doesn't allow the change.
    Change(ChangeFault),
    /// The record doesn't admit the server.
    Admit(AdmitFault),
}
