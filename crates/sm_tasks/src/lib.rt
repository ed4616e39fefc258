//! Approvals of planned restarts, which keep the caps on servers and shards that are down at the same time.
//!
//! ```rust
//! let tasks = Tasks::new(1);
//! tasks.ask(&mut books, a)?;
//! tasks.approve(&mut books, a)?;
//! tasks.stopped(&mut books, a)?;
//! tasks.back(&mut books, a)?;
//! ```
#![tactic(auto)]

mod counts;
mod domains;
mod groups;
pub mod laws;
pub mod restart_fault;
pub mod tasks;

pub use restart_fault::RestartFault;
pub use tasks::Tasks;
