//! The state that a handle keeps, and the effect of each call on it.
//!
//! ```rust
//! let layout = HandleState::Layout(Layout::new(rt.alloc(), &[b"", b"m"])?);
//! assert!(rt; matches!(shard_in(&layout, b"n"), Ok(k) if k.number() == 1));
//! assert!(rt; matches!(len_of(&layout), Err(ActFault::WrongHandle)));
//! ```
#![tactic(auto)]

pub mod act_fault;
pub mod acts;
pub mod answer_parts;
pub mod cut_fault;
pub mod handle_state;
pub mod layouts;
pub mod maps;
pub mod notes;
pub mod plans;
pub mod publish_fault;
pub mod replies;
pub mod reply_parts;
pub mod routes;
pub mod sent_as;
pub mod served_as;
pub mod serving;
pub mod text_part;
mod written;

pub use act_fault::ActFault;
pub use answer_parts::AnswerParts;
pub use cut_fault::CutFault;
pub use handle_state::HandleState;
pub use publish_fault::PublishFault;
pub use reply_parts::ReplyParts;
pub use sent_as::SentAs;
pub use served_as::ServedAs;
pub use text_part::TextPart;
