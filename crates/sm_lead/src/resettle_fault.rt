use sm_ranges::server_id::ServerId;
use thiserror::Error;

/// Why a control's settings may not come in place of another's.
#[derive(Clone, Copy, Debug, PartialEq, Eq, Drop, Error)]
pub enum ResettleFault {
    /// The two controls weren't read by the same records and states.
    #[error("the two controls weren't read by the same records and states")]
    Apart,
    /// The settings have another number of shards.
    #[error("the settings have another number of shards")]
    OtherShards,
    /// The settings have another ceiling.
    #[error("the settings have another ceiling")]
    OtherCeiling,
    /// The settings have no row of this server, which has neither stopped nor failed.
    #[error("server {0} has neither stopped nor failed, and the settings have no row for it")]
    InUse(ServerId),
}
