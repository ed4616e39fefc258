//! The ownership table of the shards: its records, the changes and admissions that it refuses, the histories that lead
//! to it, and the laws of every history.
//!
//! ```rust
//! let (one, two) = (ServerId::of(1), ServerId::of(2));
//! let serving = Record {
//!     stand: Stand::Serving(one),
//!     admitted: false,
//!     generation: 1,
//! };
//! let prepared = serving.changed(Change::PrepareAddShard(two), MAX_GENERATION)?;
//! let forwarding = prepared.changed(Change::PrepareDropShard, MAX_GENERATION)?;
//! assert!(rt; forwarding.executor() == Some(two));
//! assert!(rt; forwarding.forward_to(one) == Some(two));
//! assert!(rt; forwarding.accepts(two, Mode::Forwarded(one)));
//! ```
#![tactic(auto)]

pub mod admit_fault;
pub mod change;
pub mod change_fault;
pub mod entry;
pub mod laws;
pub mod mode;
pub mod record;
pub mod route;
pub mod route_fault;
pub mod table;

pub use admit_fault::AdmitFault;
pub use change::Change;
pub use change_fault::ChangeFault;
pub use entry::{Ending, Entry, Kind};
pub use mode::Mode;
pub use record::Record;
pub use route::Route;
pub use route_fault::RouteFault;
pub use table::Table;
