//! An arena: pieces of bytes in chunks of memory, which never move and are freed once.
//!
//! ```rust
//! let mut arena = Arena::new(rt.alloc());
//! let s = arena.place(b"abc")?;
//! let t = arena.place(b"")?;
//! assert_eq!(rt; arena.bytes(), 3);
//! assert_eq!(rt; arena.dead(), 0);
//! arena.forget(s);
//! assert_eq!(rt; arena.bytes(), 0);
//! assert_eq!(rt; arena.dead(), 3);
//! assert_eq!(rt; arena.get(s), b"abc".as_slice());
//! ```
#![tactic(auto)]

pub mod arena;
mod arena_block;
mod blocks;
mod chunk;
mod memory;
mod owned_chunk;
pub mod span;

pub use arena::Arena;
pub use span::Span;
