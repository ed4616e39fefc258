//! Tells beside a run why lines were answered with `error` or `refused`, and why settings weren't accepted. The input
//! and the output of the run stay the same.
//!
//! ```rust
//! let console = Console::new(&rt);
//! let mut engine = Explained::new(Repeating, &console);
//! let status = run(alloc, &mut dialogue, &mut engine)?;
//! assert!(rt; status == Status::Ran);
//! assert!(rt; console.has_heard_error());
//! ```
#![tactic(auto)]

mod beginning;
mod console;
mod explained;
mod explained_session;
mod listener;
mod sentence;
mod sentences;

pub use beginning::Beginning;
pub use console::Console;
pub use explained::Explained;
pub use explained_session::ExplainedSession;
pub use listener::Listener;
pub use sentence::Sentence;
