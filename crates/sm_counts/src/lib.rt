//! The counts of a cluster: for each server the envelopes that it answered, sent on and refused, and for each shard its
//! changes. Clauses state the owner of a row and the fate of a step. No clause says anything about the counts, because
//! a counter of threads has no value that a clause could name. Tests do.
//!
//! ```rust
//! let counters = Counters::new(alloc, 2, 1)?;
//! counters.count_command(&Command::Change(k, Change::Assign(server)));
//! assert_eq!(rt; (counters.changes(k), counters.retried()), (1, 0));
//! ```
#![tactic(auto)]

pub mod counters;
pub mod counts;
pub mod fate;
pub mod tally;

pub use counters::Counters;
pub use counts::{Counts, ServerCounts, ShardCounts};
pub use fate::Fate;
pub use tally::Tally;
