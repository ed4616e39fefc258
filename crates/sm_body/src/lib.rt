//! The body of a shard: a service that answers requests in turn and keeps each of them. A user writes a `Machine`, and
//! `Logged` makes a service from it.
//!
//! If a body is at its limit, it hands the request back:
//! ```rust
//! let mut body = CounterText::new(alloc, 1);
//! for request in [get_of(alloc, b"a")?, get_of(alloc, b"b")?] {
//!     match body.apply(request) {
//!         Ok(reply) => assert!(rt; matches!(reply, Reply::Nothing)),
//!         Err((request, fault)) => {
//!             assert_eq!(rt; fault, ApplyFault::KeptFull);
//!             assert_eq!(rt; CounterText::key(&request), b"b".as_slice());
//!         }
//!     }
//! }
//! ```
#![tactic(auto)]

pub mod boxed;
pub mod bytes;
pub mod logged;
pub mod machine;
pub mod service;

pub use boxed::Boxed;
pub use bytes::Bytes;
pub use logged::Logged;
pub use machine::Machine;
pub use service::{ApplyFault, Service};
