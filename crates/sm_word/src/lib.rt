//! Records packed into words: one number for each well-formed record, which an atomic step can change whole.
//!
//! ```rust
//! let state = Record {
//!     stand: Stand::Serving(ServerId::of(1)),
//!     admitted: false,
//!     generation: 1,
//! };
//! let word = pack(state);
//! assert!(rt; word == 0x2001_0000_0000_0001);
//! assert!(rt; unpack(word).is_some());
//! ```
#![tactic(auto)]

pub mod word;

pub use word::{admit_word, done_word, is_served, pack, record_of_word, unpack};
