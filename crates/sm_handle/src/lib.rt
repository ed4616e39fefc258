//! The state that a caller in C keeps between calls: a handle of a board's control, of a pass, or of an admission.
//!
//! ```rust
//! let fence = Fence::first();
//! assert!(rt; chief.open(alloc, &[70, 80], 2, 1, 100, fence).is_ok());
//! assert!(rt; chief.command(assign).is_ok());
//! assert!(rt; pass.pass(alloc, &mut chief, Some(one)).is_ok());
//! assert!(rt; matches!(pass.admit(k, Mode::Direct), Ok(80)));
//! assert!(rt; matches!(pass.finish(), Ok(3)));
//! ```
#![tactic(auto)]

mod calls;
pub mod handle;
mod layouts;
mod maps;
mod notes;
mod opening;
pub mod owned;
mod plans;
mod replies;
mod routes;
mod serving;
pub mod settings_open_fault;

pub use handle::Handle;
pub use settings_open_fault::SettingsOpenFault;
pub use sm_handle_state::{
    ActFault, AnswerParts, CutFault, HandleState, PublishFault, ReplyParts, SentAs, ServedAs,
    TextPart,
};
