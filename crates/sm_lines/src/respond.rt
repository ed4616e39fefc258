ghost use Rattle.std.specs.Prelude.{◌≡◌, ◌≢◌, ℕ, ◌⊎◌, List, [], ◌∷◌, true, false, IfOk, OnOk, OnErr, Contains};
ghost use Rattle.sm_lines.specs.Reading.{ReaderStopped, TookLines, TookPart};
ghost use Rattle.sm_lines.specs.Writing.{Sends, WroteShort};
ghost use Rattle.sm_lines.specs.Answers.{AnsweredInput, AnsweredLine, AnswersLine};

use crate::{AnswerFault, COUNT_LIMIT, Dialogue, Next, ReadFault, WriteFault};
use std::alloc::{AllocError, Global};
use std::io::{Read, Write};

/// A thing that answers lines, one after another.
pub trait Responder {
    ghost use Rattle.std.specs.Prelude.{ℕ, List, ⊤};

    /// A fact that a responder must know while it is used, and that no field of it can hold: for example, that a
    /// runtime which it was handed may be shared with other threads. The caller must prove it once, and every call
    /// keeps it.
    ghost ready: { Self → Type 0 } = { λ _. ⊤ };

    /// The answers that may be given to a line: the responder before, the line, the answer and the responder after.
    ghost gives: { Self → List ℕ → List ℕ → Self → Type 0 };

    /// The answers that may be given to a line beyond the limit: the responder, the line's first bytes and the answer.
    ghost gives_long: { Self → List ℕ → List ℕ → Type 0 };

    /// Puts the answer to a line within the limit into `out`.
    fn respond(&mut self, line: &[u8], out: &mut Vec<u8>) -> Result<(), AllocError>
        requires ready { ready self.old }
        requires empty { out.old.items ≡ [] }
        ensures ready { ready self.new }
        ensures gives { OnOk result (gives self.old line.now out.new.items self.new) };

    /// Puts the answer to a line beyond the limit, which begins with `start`, into `out`.
    fn respond_long(&self, start: &[u8], out: &mut Vec<u8>) -> Result<(), AllocError>
        requires ready { ready self.now }
        requires empty { out.old.items ≡ [] }
        ensures { OnOk result (gives_long self.now start.now out.new.items) };
}

/// Reads the next line and puts its answer into `out`. Returns false if there is no further line.
fn answer_next<R: Read + Drop, W: Write + Drop, E: Responder>(
    dialogue: &mut Dialogue<R, W>,
    responder: &mut E,
    limit: usize,
    out: &mut Vec<u8>,
) -> Result<bool, ReadFault>
    requires ready { E.ready responder.old }
    ensures line { IfOk result (λ more. more ≡ true → AnsweredLine (AnswersLine E.gives E.gives_long limit)
        dialogue.old.reading dialogue.new.reading out.new.items responder.old responder.new) }
    ensures end { IfOk result (λ more. more ≡ false → TookLines dialogue.old.reading dialogue.new.reading []
        × (dialogue.new.reading.ended ≡ true) × (responder.new ≡ responder.old)) }
    ensures read { result ≡ Err ReadFault.Read → ReaderStopped dialogue.old.reading dialogue.new.reading
        × (responder.new ≡ responder.old) }
    ensures no_memory { result ≡ Err ReadFault.NoMemory
        → TookPart dialogue.old.reading dialogue.new.reading dialogue.new.reading.ended
        ⊎ ((line : List ℕ) × TookLines dialogue.old.reading dialogue.new.reading (line ∷ [])) }
    ensures held { Contains dialogue.old.reading.held 10
        → (result ≢ Ok false) × (result ≢ Err ReadFault.Read) }
    ensures unfailed { result ≢ Err ReadFault.Read
        → dialogue.new.reading.failed ≡ dialogue.old.reading.failed }
    ensures unwritten { dialogue.new.writing ≡ dialogue.old.writing }
    ensures ready { E.ready responder.new }
{
    out.clear();
    match dialogue.next_line(limit) {
        Ok(Next::Line) => {
            responder.respond(dialogue.line(), out)?;
            Ok(true)
        }
        Ok(Next::LongLine) => {
            responder.respond_long(dialogue.line(), out)?;
            Ok(true)
        }
        Ok(Next::End) => Ok(false),
        Err(fault) => Err(fault),
    }
}

/// Writes the answers that wait if the next line needs a call of the reader, because the sender of that line may wait
/// for them.
fn flush_before_read<R: Read + Drop, W: Write + Drop>(
    dialogue: &mut Dialogue<R, W>,
) -> Result<(), WriteFault>
    ensures ok { OnOk result (Sends dialogue.old.writing dialogue.new.writing []) }
    ensures none_waits { OnOk result (Contains dialogue.old.reading.held 10
        ⊎ (dialogue.new.writing.waiting ≡ [])) }
    ensures err { OnErr result (WroteShort dialogue.old.writing dialogue.new.writing []) }
    ensures unread { dialogue.new.reading ≡ dialogue.old.reading }
{
    if dialogue.holds_line() {
        return Ok(());
    }
    dialogue.flush()
}

/// Answers each line to come by the responder, until the input ends. A line beyond the limit is answered by its first
/// bytes, as many as the limit.
///
/// If reading stopped or no memory was left, exactly the answers to the lines before were written; if writing failed,
/// only the first part of the answers to the lines that were read. Before the reader is called, all answers so far are
/// written, because the sender of the next line may wait for them. So no failed write comes after a failed read.
pub fn answer_lines<R: Read + Drop, W: Write + Drop, E: Responder>(
    alloc: Global,
    dialogue: &mut Dialogue<R, W>,
    responder: &mut E,
    limit: usize,
) -> Result<(), AnswerFault>
    requires ready { E.ready responder.old }
    // Which lines were answered, and that exactly their answers were written.
    ensures answered { AnsweredInput (AnswersLine E.gives E.gives_long limit) result
        dialogue.old dialogue.new responder.old responder.new }
    // No failed call is hidden by another fault.
    ensures read_unfailed { result ≢ Err AnswerFault.Read
        → dialogue.new.reading.failed ≡ dialogue.old.reading.failed }
    ensures write_unfailed { result ≢ Err AnswerFault.Write
        → dialogue.new.writing.failed ≡ dialogue.old.writing.failed }
    ensures ready { E.ready responder.new }
{
    let mut out = Vec::new(alloc);
    dialogue.stays_orderly();
    'lines: for _count in 0..COUNT_LIMIT {
        flush_before_read(dialogue)?;
        match answer_next(dialogue, responder, limit, &mut out) {
            Ok(true) => dialogue.write(out.as_slice())?,
            // No line was held, so nothing waits.
            Ok(false) => return Ok(()),
            Err(ReadFault::Read) => return Err(AnswerFault::Read),
            Err(ReadFault::NoMemory) => {
                dialogue.flush()?;
                return Err(AnswerFault::NoMemory);
            }
        }
    }
    dialogue.flush()?;
    Err(AnswerFault::Read)
}
