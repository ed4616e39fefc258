//! A session over a backend. It reads a line, has the backend make the call in the line, and writes the answer.
//! Backends differ only in the answers that each call may have.
//!
//! ```rust
//! let mut session = Session::new(alloc, backend);
//! let mut out = Vec::new(alloc);
//! session.respond(b"look 0", &mut out)?;
//! assert_eq!(rt; out.as_slice(), b"error NotHere\n".as_slice());
//! ```
#![tactic(auto)]

mod backend;
pub mod beginning;
mod session;
pub mod writing;

pub use backend::Backend;
pub use session::Session;
