//! Reads a text line by line and writes an answer to each. A failed reader, a failed writer and want of memory are
//! told apart, and after each the contracts say which answers were written.
//!
//! ```rust
//! let mut lines = LineReader::new(alloc, b"one\nthree".as_slice())?;
//! assert!(rt; lines.next_line(4) == Ok(Next::Line));
//! assert!(rt; lines.line() == b"one".as_slice());
//! assert!(rt; lines.next_line(4) == Ok(Next::LongLine));
//! assert!(rt; lines.line() == b"thre".as_slice());
//! ```
//!
//! Runs a script too: reads the first line, has an engine make a session from it, and answers each other line by
//! that.
//!
//! ```rust
//! let mut written = Vec::new(alloc);
//! let mut dialogue = Dialogue::new(alloc, script.as_slice(), &mut written)?;
//! let status = run(alloc, &mut dialogue, &mut EchoEngine)?;
//! assert!(rt; status == Status::Ran);
//! assert!(rt; written.as_slice() == ANSWERS);
//! ```
#![tactic(auto)]

mod answer_fault;
mod begin_fault;
mod dialogue;
mod engine;
mod line_reader;
mod opening;
mod piece_writer;
mod respond;
mod run_fault;
mod script_run;
mod status;
mod watch;

pub use answer_fault::AnswerFault;
pub use begin_fault::BeginFault;
pub use dialogue::Dialogue;
pub use engine::Engine;
pub use line_reader::{LineReader, Next, ReadFault};
pub use opening::{Opening, read_settings};
pub use piece_writer::{PieceWriter, WriteFault, write_whole};
pub use respond::{Responder, answer_lines};
pub use run_fault::RunFault;
pub use script_run::run;
pub use status::Status;
pub use watch::{COUNT_LIMIT, Watched};

/// How many bytes are read at a time, and how many wait to be written, at most.
pub const PIECE: usize = 65_536;
