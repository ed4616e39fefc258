//! The sample service as the machine of a shared store: texts and counts by key, with requests, replies and the whole
//! map as bytes.
//!
//! ```rust
//! let mut texts = StoreTexts::new(rt.alloc());
//! let put = Vec::from_slice(rt.alloc(), b"\x02\x01avalue").expect(&rt, "memory");
//! let reply = texts.answer(rt.alloc(), &put).expect(&rt, "memory");
//! assert!(rt; reply.kind == 1);
//! assert!(rt; matches!(texts.look(b"a"), Some(Val::Text(b"value"))));
//! ```
#![tactic(auto)]

pub mod key_bytes;
pub mod requests;
mod saves;
pub mod store_texts;
pub mod text_reply;

pub use key_bytes::spelled_keys;
pub use requests::parts_of;
pub use sm_map::val::Val;
pub use store_texts::StoreTexts;
pub use text_reply::TextReply;
