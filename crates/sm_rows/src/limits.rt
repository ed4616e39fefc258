//! The limits of rows. `sm_ranges` has the limits of servers and shards.

/// The greatest fault domain.
pub const MAX_DOMAIN: u16 = 4095;

/// The greatest number of groups.
pub const MAX_GROUPS: usize = 4096;

/// The greatest `limit` and `down` of a group.
pub const MAX_LIMIT: u16 = 4096;

/// The greatest `down` of a domain.
pub const MAX_DOMAIN_DOWN: u16 = 4095;

/// The greatest cap of a shard.
pub const MAX_CAP: u8 = 1;
