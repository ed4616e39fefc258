//! Servers as threads over one board, its control and the published map.
//!
//! Two shards are assigned and published, and a client reads the route:
//!
//! ```rust
//! let (alloc, one) = (rt.alloc(), ServerId::of(1));
//! let mut running = start(&rt, alloc, 100)?;
//! assert!(rt; refusal(&rt, alloc, &mut running.first, b"a") == Some(CallFault::NoRoute));
//! publish_both(&rt, &mut running);
//! let route = Route {
//!     shard: shard(0),
//!     server: one,
//!     generation: 1,
//! };
//! assert!(rt; running.first.route(b"a") == Some(route));
//! ```
#![tactic(auto)]

pub mod cluster;
mod crew;
mod hold;
pub mod hold_fault;
mod holds;
pub mod laws;
pub mod setup;
pub mod start_fault;
pub mod stop_fault;

pub use cluster::Cluster;
pub use hold_fault::HoldFault;
pub use setup::Setup;
pub use sm_calls::{CallFault, CallRefused, Client, Gate, Open, Told};
pub use sm_control::DrainFault;
pub use sm_counts::{Counts, Fate, ServerCounts, ShardCounts};
pub use sm_rule::admit_refusal::AdmitRefusal;
pub use sm_rule::permit::Front;
pub use sm_server::{Answer, Refusal};
pub use start_fault::StartFault;
pub use stop_fault::StopFault;

/// How many workers a cluster has at most.
pub const MAX_WORKERS: u32 = 64;
