//! Permits: which process may execute a shard's requests at a moment, by leases and by clocks that are slow by at most
//! a bound. A process of a server keeps a view of the shard, and asks it before each request. Nothing here reads a
//! clock or a store.
//!
//! ```rust
//! let next = ShardView::new(two, 4, 94).read(reading(forwarding, 3, 6));
//! assert!(rt; !next.may_execute(Mode::Forwarded(one), 7));
//! let hand = HandOver {
//!     server: one,
//!     joined: 2,
//!     generation: 3,
//! };
//! assert!(rt; next.handed(hand).may_execute(Mode::Forwarded(one), 7));
//! ```
#![tactic(auto)]

pub mod hand_over;
pub mod laws;
pub mod shard_reading;
pub mod shard_view;

pub use hand_over::HandOver;
pub use shard_reading::ShardReading;
pub use shard_view::ShardView;
