//! The commands of the control, and the desk that checks them.
//!
//! ```rust
//! let mut desk = Desk::new(books, Tasks::new(1));
//! let assign = Command::Change(k, Change::Assign(one));
//! assert!(rt; desk.check(&assign).is_ok());
//! desk.commit(assign);
//! let again = desk.check(&assign);
//! assert!(rt; again == Err(CommandFault::Change(ChangeFault::WrongPhase)));
//! ```
#![tactic(auto)]

mod changes;
pub mod command;
pub mod desk;
pub mod laws;
mod restarts;

pub use command::{Command, CommandFault};
pub use desk::Desk;
