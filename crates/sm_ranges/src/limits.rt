//! The limits of keys, of layouts, and of the numbers of shards and servers.

/// The greatest length of a key or a bound in bytes.
pub const MAX_KEY: usize = 255;

/// The greatest number of shards in a layout.
pub const MAX_SHARDS: usize = 4096;

/// The greatest number of a shard.
pub const MAX_SHARD: u16 = 4095;

/// The greatest number of a server.
pub const MAX_SERVER: u16 = 4095;
