use sm_foreign::OpenFault;
use sm_settings::SettingsFault;
use thiserror::Error;

/// Why a line of settings opens no board.
#[derive(Clone, Copy, Debug, Drop, Error)]
pub enum SettingsOpenFault {
    /// The line breaks a rule of settings, or memory was refused.
    #[error("the settings are refused: {0}")]
    Settings(SettingsFault),
    /// There is no board with these settings, or memory was refused.
    #[error(transparent)]
    Open(OpenFault),
}
