//! The knowledge of one server about one shard in a shared store, and its step at each event, without any input or
//! output of its own.
//!
//! ```rust
//! let started = ShardServer::new(one, shard, 8, limits);
//! let mut server: ShardServer<Sum, u64, u64> = started.expect(&rt, "one of 8 shards");
//! let read = server.on_read(rt.alloc(), state, 3, head, 0, &[], &[]);
//! assert!(rt; read.is_ok());
//! assert!(rt; matches!(server.on_request(item), Ok(Decision::Waits)));
//! assert!(rt; matches!(server.on_question(question), Ok(Decision::Waits)));
//! assert!(rt; matches!(server.flush(rt.alloc()), Ok(true)));
//! let told = server.on_made(rt.alloc(), 4).ok().expect(&rt, "answers");
//! assert!(rt; told.made[0].reply == 5);
//! assert!(rt; matches!(&told.read[0].answer, Some(answer) if answer.reply == 0));
//! ```
#![tactic(auto)]

pub mod base;
pub mod base_part;
pub mod base_work;
pub mod laws;
pub mod log_replay;
pub mod replica;
pub mod shard_limits;
pub mod shard_server;
pub mod shard_state;
pub mod steps;
pub mod store_machine;
pub mod store_server;

pub use base_part::{BasePart, PART_BYTES, PART_CLIENTS};
pub use base_work::{BaseStage, BaseWork, NamedBase};
pub use replica::{LastRequest, MadeReply, ReadReply, ReplayFault, Replica};
pub use shard_limits::ShardLimits;
pub use shard_server::{BatchSending, PartsSending, ShardServer, StoreAnswers, Undecided};
pub use shard_state::{Decision, ShardState};
pub use steps::{ShardInput, ShardOutput, step};
pub use store_machine::{ReadAnswer, StoreMachine};
pub use store_server::StoreServer;
