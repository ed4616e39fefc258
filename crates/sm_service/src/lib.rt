//! A sample service: texts and counts by key.
//!
//! ```rust
//! let key = Key::new(alloc, b"user-17")?;
//! let mut body = CounterText::new(alloc, 100);
//! let put = Request::Put(key, Bytes::new(alloc, b"hello")?);
//! assert_eq!(rt; CounterText::key(&put), b"user-17".as_slice());
//! assert!(rt; matches!(body.apply(put), Ok(Reply::Done)));
//! assert_eq!(rt; body.kept(), 1);
//! ```
#![tactic(auto)]

pub mod counter_text;
mod held;
pub mod lent_request;
pub mod pair;
pub mod pair_list;
pub mod reply;
pub mod request;

pub use bytes::Bytes;
pub use counter_text::{CounterText, KeyMachine};
pub use lent_request::LentRequest;
pub use pair::Pair;
pub use pair_list::PairList;
pub use reply::Reply;
pub use request::Request;
pub use service::{ApplyFault, Service};
pub use sm_body::{bytes, service};
pub use sm_map::val::Val;
