//! The ownership of a state between calls from C, through a pointer: the raw parts of a box, and the owner of an
//! optional state. No type with a parameter crosses to C, so each owner has its own calls; `proofs` has the part that
//! they share.
//!
//! ```rust
//! let kept = Box::new(rt.alloc(), 7u8)?;
//! let parts = BoxParts::of(kept);
//! assert_eq!(rt; *parts.into_box(), 7);
//! ```
#![tactic(auto)]

pub mod box_parts;

pub use box_parts::BoxParts;
