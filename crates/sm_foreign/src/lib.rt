//! A board with its control, and passes that keep it alive: of bodies that another program owns, each known here by a
//! number, or of a service.
//!
//! ```rust
//! let bodies = Foreign::all(alloc, &[70, 80])?;
//! let Ok(held) = Chief::make(alloc, bodies, 2, 1, 100) else {
//!     return Err("no board".into());
//! };
//! let chief = ForeignChief {
//!     held,
//!     fence: Fence::first(),
//! };
//! assert_eq!(rt; chief.pass(Some(one))?.held.count(), 2);
//! ```
#![tactic(auto)]

pub mod board_pass;
pub mod chief;
pub mod fence;
pub mod foreign;
pub mod foreign_chief;
pub mod foreign_pass;
pub mod free_pass;
pub mod laws;
pub mod open_fault;
pub mod pass_fault;
mod serving;

pub use board_pass::BoardPass;
pub use chief::Chief;
pub use fence::Fence;
pub use foreign::Foreign;
pub use foreign_chief::ForeignChief;
pub use foreign_pass::ForeignPass;
pub use free_pass::FreePass;
pub use open_fault::OpenFault;
pub use pass_fault::PassFault;
pub use sm_control::DrainFault;
