//! The world: shards, servers and requests on their way, as one thread runs them, with the laws that it keeps. The
//! crate also exports everything on which it rests: the ownership table, the desk that checks control commands, and
//! envelopes.
//!
//! ```rust
//! let assign = Step::Control(Command::Change(k, Change::Assign(one)));
//! assert!(rt; world.step(assign).is_ok());
//! let answer = world.step(Step::Look(k));
//! assert!(rt; matches!(&answer, Ok(WorldAnswer::Seen(Record { generation: 1, .. }))));
//! ```
#![tactic(auto)]

mod bodies;
mod hands;
pub mod laws;
pub mod step;
mod traced;
pub mod world;
pub mod world_answer;
pub mod world_fault;

pub use hands::{InHand, Work};
pub use sm_desk::{Command, CommandFault, Desk, command, desk};
pub use sm_envelope::{Envelope, Refusal, Shell, envelope, refusal, shell};
pub use sm_ownership::{admit_fault, change, change_fault, entry, mode, record, route, table};
pub use step::Step;
pub use world::{Flight, Setup, World};
pub use world_answer::WorldAnswer;
pub use world_fault::WorldFault;
