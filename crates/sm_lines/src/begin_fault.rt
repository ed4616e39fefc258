use sm_settings::SettingsFault;
use std::alloc::AllocError;
use thiserror::Error;

/// Why an engine began no session.
#[derive(Clone, Copy, Debug, PartialEq, Eq, Drop, Error)]
pub enum BeginFault {
    /// The first line is no settings, or the engine can't run them, for this reason.
    #[error("the settings are refused: {0}")]
    Settings(SettingsFault),
    /// Memory was refused.
    #[error("out of memory")]
    NoMemory,
    /// A thread was refused.
    #[error("no thread was to be had")]
    NoThread,
}

impl From<AllocError> for BeginFault {
    ghost use Rattle.std.specs.Prelude.{◌≡◌};
    ghost use Rattle.sm_lines.specs.declared.begin_fault.BeginFault.TheVariants.{NoMemory};

    ghost from_gives = { λ _ fault. fault ≡ NoMemory };

    fn from(_error: AllocError) -> BeginFault {
        BeginFault::NoMemory
    }
}
