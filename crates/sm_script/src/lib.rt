//! The lines of a script: the call that each asks for, and the text that answers it.
//!
//! ```rust
//! let fault = parse(alloc, b"assign 0").err();
//! assert_eq!(rt; fault, Some(ParseFault::Line(LineFault::BadLine)));
//! let mut out = Vec::new(alloc);
//! LineAnswer::Error(LineFault::BadLine).write_to(&mut out)?;
//! assert_eq!(rt; out.as_slice(), b"error BadLine".as_slice());
//! ```
#![tactic(auto)]

mod append;
mod argument;
pub mod call;
pub mod fault;
pub mod form;
pub mod line;
pub mod line_answer;
pub mod load_clients;
pub mod load_verdict;
mod number;
mod plan;
mod record;
pub mod refused;
mod reply;
mod request;
mod route;
pub mod shape;
pub mod topic;
pub mod word;
mod words;

pub use call::Call;
pub use fault::{LineFault, ParseFault};
pub use form::{Form, form_of, forms, names_differ};
pub use line::{MAX_LINE, long_line_fault, parse};
pub use line_answer::LineAnswer;
pub use load_clients::LoadClients;
pub use load_verdict::LoadVerdict;
pub use refused::Refused;
pub use shape::Shape;
pub use topic::Topic;
pub use word::Word;
