//! Values that only proofs read: a list, or a value, that takes no memory and whose calls do nothing when they run.
//!
//! ```rust
//! for value in [3u64, 4, 5] {
//!     register.value = value;
//!     register.written.push(&value);
//! }
//! ```
#![tactic(auto)]

pub mod shadow;
pub mod trace;

pub use shadow::Shadow;
pub use trace::Trace;
