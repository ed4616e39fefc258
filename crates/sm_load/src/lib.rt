//! Drives load: many clients of a cluster call at the same time, and their answers are added up.
//!
//! Four clients add one to a count, 25 times each, and the first one returns the count before and after:
//!
//! ```rust
//! let increments = Increments { alloc, key };
//! let report = load(&rt, alloc, clients.as_mut_slice(), &increments, 25);
//! assert!(rt; report.acked + report.refused == 100 && report.acked > 0);
//! assert!(rt; report.before == Some(0));
//! assert!(rt; report.after.and_then(|after| u64::try_from(after).ok()) == Some(report.acked));
//! ```
#![tactic(auto)]

pub mod counting;
mod inc_counts;
pub mod loading;

pub use counting::Counting;
pub use loading::{LoadReport, load};
