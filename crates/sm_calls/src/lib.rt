//! A call's way: a client sends its request in a message through inboxes, whose workers serve it, and the reply brings
//! home the history that has it.
//!
//! A client is answered, and another one looks at the shard's record:
//!
//! ```rust
//! let told = ask(&rt, alloc, &mut running.first, 7, inc_of(&rt, alloc, b"a"));
//! assert!(rt; (told.number, told.server, told.place) == (7, one, 0));
//! assert!(rt; matches!(told.reply, Reply::Count(1)));
//! // The second client has called nothing yet, and looks at the present record.
//! assert!(rt; running.second.look(shard(0)) == idle(Stand::Serving(one), 3));
//! ```
#![tactic(auto)]

pub mod call_refused;
pub mod client;
pub mod gate;
pub mod ground;
pub mod message;
pub mod network;
mod reply;
pub mod told;
pub mod worker;

pub use call_refused::{CallFault, CallRefused};
pub use client::Client;
pub use gate::{Gate, Open};
pub use ground::Ground;
pub use message::Message;
pub use network::{Network, network_of};
pub use told::Told;
pub use worker::work;
