//! The settings line of a script. It is read, checked rule by rule, and returned as values of exact types.
//!
//! ```rust
//! let settings = Settings::read(rt.alloc(), PLAIN.as_bytes())?;
//! assert_eq!(rt; settings.layout.count(), 2);
//! assert_eq!(rt; settings.servers.len(), 3);
//! ```
#![tactic(auto)]

mod bounds;
mod members;
mod rows;
pub mod settings;
pub mod settings_fault;

pub use settings::{MAX_SETTINGS, Settings};
pub use settings_fault::SettingsFault;
