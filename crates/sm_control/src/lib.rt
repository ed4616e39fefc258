//! The control of a running board: its chair and its desk, which must be under one lock. Each migration call checks the
//! books, changes the board, and then the books.
//!
//! A shard is assigned, and migrates:
//! ```rust
//! assert!(rt; control.assign(&board, k, one).is_ok());
//! assert!(rt; control.prepare_add_shard(&board, k, two).is_ok());
//! assert!(rt; control.prepare_drop_shard(&board, k).is_ok());
//! assert!(rt; control.add_shard(&board, k).is_ok());
//! assert!(rt; control.drop_shard(&board, k).is_ok());
//! ```
#![tactic(auto)]

pub mod control;
pub mod drain_fault;

pub use control::Control;
pub use drain_fault::DrainFault;
