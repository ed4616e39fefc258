//! The books of a service's placement: which shards name which servers, how much each server and fault domain can still
//! take, and plans that keep to these limits.
//!
//! ```rust
//! let group = GroupRow { limit: 1, down: 0 };
//! let shard = ShardRow {
//!     group: 0,
//!     load: 3,
//!     cap: 0,
//! };
//! let domains = equal_domains(alloc, &servers, 1)?;
//! let books = Books::new(alloc, &servers, &[group], &[shard], &domains)?;
//! let plan = books.plan_assign(alloc)?;
//! ```
#![tactic(auto)]

pub mod books;
pub mod books_fault;
mod candidates;
mod counters;
mod draft;
pub mod laws;
pub mod place_fault;
pub mod plan;
mod ranks;
mod roster;
pub mod server_state;
pub mod shard;
mod sheet;
mod tallies;

pub use books::Books;
pub use books_fault::BooksFault;
pub use place_fault::PlaceFault;
pub use plan::{Move, Plan};
pub use server_state::ServerState;
pub use shard::Shard;
pub use sm_rows::{DomainRow, GroupRow, ServerRow, ShardRow};
