//! The place in which messages wait: the inbox of a server, which its workers share, and the door to it. Messages are
//! of any type.
//!
//! ```rust
//! let (door, inbox) = inbox_of::<u64, HostRuntime>(&rt, alloc, ServerId::of(1), 2)?;
//! assert!(rt; door.is_open() && door.send(&rt, 7).is_ok());
//! assert!(rt; matches!(inbox.next(&rt), Ok(Parcel::Serve(7))));
//! door.tell_to_stop(&rt);
//! assert!(rt; matches!(inbox.next(&rt), Ok(Parcel::Stop)));
//! ```
#![tactic(auto)]

pub mod door;
pub mod inbox;
pub mod parcel;
pub mod unsent;
pub mod waiting;

pub use door::Door;
pub use inbox::{Inbox, inbox_of};
pub use parcel::Parcel;
pub use unsent::{SendFault, Unsent};
pub use waiting::{LOOKS, pause};
