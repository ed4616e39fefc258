//! The rows of servers, groups, shards and fault domains, and the rules that they keep.
//!
//! ```rust
//! let server = ServerRow {
//!     id: ServerId::of(7),
//!     domain: 4095,
//!     capacity: 100,
//! };
//! assert!(rt; server.is_in_range());
//! assert!(rt; are_servers(&[server]));
//! assert!(rt; !are_servers(&[server, server]));
//! ```
#![tactic(auto)]

pub mod domain_row;
pub mod group_row;
pub mod limits;
pub mod server_row;
pub mod shard_row;

pub use domain_row::{DomainRow, are_domains, equal_domains};
pub use group_row::{GroupRow, are_groups};
pub use server_row::{ServerRow, are_servers};
pub use shard_row::{ShardRow, are_shards};
