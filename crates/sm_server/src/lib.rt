//! A server's step on an envelope: it answers the request, forwards the envelope, or refuses it.
//!
//! A request comes to a server, and the answer brings home the history in which it was executed:
//! ```rust
//! let envelope = Envelope::new(7, k, request, note);
//! let answer = match serve(&board, &layout, &mut pass, envelope) {
//!     Outcome::Answered(answer) => answer,
//!     _ => return Err("not answered by the owner".into()),
//! };
//! assert_eq!(rt; (answer.number(), answer.place()), (7, 0));
//! ```
#![tactic(auto)]

pub mod answer;
pub mod basing;
pub mod checkpoint_fault;
pub mod outcome;
pub mod refusal;
mod running;
pub mod serving;

pub use answer::Answer;
pub use basing::checkpoint;
pub use checkpoint_fault::CheckpointFault;
pub use outcome::Outcome;
pub use refusal::Refusal;
pub use serving::serve;
