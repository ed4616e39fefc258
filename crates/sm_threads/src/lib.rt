//! Scripts on a cluster: servers are threads, started by the settings in front, and stopped at the script's end.
//!
//! ```rust
//! let status = run_threads(&rt, alloc, &mut dialogue, &Open)?;
//! assert_eq!(rt; status, Status::Ran);
//! ```
#![tactic(auto)]

mod cluster_backend;
mod counts_listener;
mod engine;
mod key_count;
mod refusals;
mod running;

pub use counts_listener::CountsListener;
pub use key_count::KeyCount;
pub use running::{run_threads, run_threads_explained};
