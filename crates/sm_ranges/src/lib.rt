//! The numbers that name shards and servers, who owns a shard, keys, and the layout that gives each key its shard.
//!
//! ```rust
//! let layout = Layout::new(rt.alloc(), &[b"", b"m"])?;
//! let k = layout.shard_of(b"melon");
//! assert!(rt; k.number() == 1);
//! assert!(rt; layout.covers(k, b"melon"));
//! let (low, high) = layout.range(k);
//! assert!(rt; low == b"m".as_slice());
//! assert!(rt; high.is_none());
//! ```
#![tactic(auto)]

pub mod key;
pub mod layout;
pub mod limits;
pub mod order;
pub mod server_id;
pub mod shard_id;
pub mod stand;

pub use key::{Key, KeyFault};
pub use layout::{Layout, LayoutFault};
pub use server_id::ServerId;
pub use shard_id::ShardId;
pub use stand::Stand;
