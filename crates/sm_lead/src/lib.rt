//! The decisions of the leading control over a shared store, without any input or output of its own. It reads all
//! records and states, judges each command with its desk, and sends it as one transaction. The outcome tells it how to
//! go on. A new control goes on from its readings.
//!
//! ```rust
//! let lead = Leadership::new(7, 5).expect(&rt, "a revision");
//! let read = StoreControl::read(desk, lead, 100, true, records, runs, 4);
//! let control = read.ok().expect(&rt, "a control");
//! let assign = Command::Change(shard, Change::Assign(one));
//! let Judged::Sent(sent) = control.command(0, assign) else {
//!     return;
//! };
//! assert!(rt; sent.sending().elected == 5);
//! let control = sent.outcome(SendOutcome::Made(6)).expect(&rt, "made");
//! assert!(rt; control.placed == 6);
//! ```
#![tactic(auto)]

pub mod ack_read;
pub mod command_sending;
pub mod command_write;
pub mod follower;
pub mod laws;
pub mod leadership;
pub mod load_fault;
pub mod next_step;
pub mod record_read;
pub mod replay;
pub mod resettle_fault;
pub mod resettling;
pub mod sent_command;
pub mod stepping;
pub mod store_control;
pub mod waiting;

pub use ack_read::AckRead;
pub use command_sending::CommandSending;
pub use command_write::CommandWrite;
pub use follower::{Follower, all_follow};
pub use leadership::Leadership;
pub use load_fault::LoadFault;
pub use next_step::NextStep;
pub use record_read::{RecordRead, read_at};
pub use resettle_fault::ResettleFault;
pub use sent_command::{Judged, SendOutcome, SentCommand};
pub use store_control::StoreControl;
