//! A server's core over a shared store, in the bytes that lie there, for any machine whose requests are bytes. The
//! crates that bring one machine to C call it: no type with a parameter crosses to C, so each of them has its own calls
//! on a handle, and everything that a call does is here.
//!
//! ```rust
//! let bytes = 258u64.bytes(rt.alloc()).expect(&rt, "memory");
//! assert!(rt; bytes.as_slice() == b"\0\0\0\0\0\0\x01\x02".as_slice());
//! assert!(rt; matches!(u64::of_bytes(&bytes), Some(258)));
//! ```
#![tactic(auto)]

pub mod byte_server;
pub mod calls;
pub mod codes;
pub mod forward_numbers;
pub mod inputs;
pub mod log_head;
pub mod part_numbers;
pub mod parts;
pub mod reply_bytes;
pub mod sending;
pub mod sent_bytes;
pub mod sent_numbers;
pub mod server_fault;
pub mod written;

pub use byte_server::ByteServer;
pub use forward_numbers::ForwardNumbers;
pub use log_head::LogHead;
pub use part_numbers::PartNumbers;
pub use parts::{read_base_part, write_base_part};
pub use reply_bytes::ReplyBytes;
pub use sent_bytes::SentBytes;
pub use sent_numbers::SentNumbers;
pub use server_fault::ServerFault;
