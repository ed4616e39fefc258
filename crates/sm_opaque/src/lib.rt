//! A machine of a shared store that knows nothing of the requests: it counts them, and its reply to a request is the
//! request's place among those of its shard. The caller keeps the state that the requests make, and applies each of
//! them at its place.
//!
//! ```rust
//! let mut machine = OpaqueMachine::new(rt.alloc());
//! let request = Vec::from_slice(rt.alloc(), b"\x02hat").expect(&rt, "memory");
//! assert!(rt; matches!(machine.answer(rt.alloc(), &request), Ok(0)));
//! assert!(rt; matches!(machine.answer(rt.alloc(), &request), Ok(1)));
//! let question = Vec::from_slice(rt.alloc(), b"\x01hat").expect(&rt, "memory");
//! let found = machine.peek(rt.alloc(), &question).expect(&rt, "memory");
//! assert!(rt; matches!(found, Some(answer) if answer.reply == 2));
//! ```
#![tactic(auto)]

pub mod laws;
pub mod opaque_machine;

pub use opaque_machine::{OpaqueMachine, is_read};
