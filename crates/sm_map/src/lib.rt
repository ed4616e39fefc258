//! A sorted map from keys to texts and counts, whose bytes are in an arena.
//!
//! ```rust
//! let mut map = ArenaMap::new(rt.alloc());
//! map.put(b"a", Val::Text(b"x"))?;
//! map.put(b"b", Val::Count(2))?;
//! assert_eq!(rt; map.get(b"a"), Some(Val::Text(b"x")));
//! assert!(rt; map.remove(b"b"));
//! assert_eq!(rt; map.get(b"b"), None);
//! ```
#![tactic(auto)]

pub mod arena_map;
mod block;
mod hints;
mod index;
mod key_entry;
mod place;
pub mod position;
mod room;
mod slot;
mod tags;
pub mod val;
mod words;

pub use arena_map::ArenaMap;
pub use position::Position;
pub use val::Val;
