//! Requests on their way to a shard, and why one is refused.
//!
//! If a server forwards requests on a shard, it sends an envelope on to the shard's other server, up to [`MOST_HOPS`]
//! times:
//!
//! ```rust
//! let envelope = Envelope::new(7, k, b'a', b'n');
//! let (to, envelope) = match envelope.forwarded(&state, owner) {
//!     Ok(forwarded) => forwarded,
//!     Err(_) => return Err("not forwarded by the owner".into()),
//! };
//! assert_eq!(rt; (to, envelope.hops()), (next, 1));
//! ```
#![tactic(auto)]

pub mod envelope;
pub mod refusal;
pub mod shell;

pub use envelope::{Envelope, MOST_HOPS};
pub use refusal::Refusal;
pub use shell::Shell;
