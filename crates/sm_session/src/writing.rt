//! How an answer is written, and the response to a line beyond the limit.

ghost use Rattle.std.specs.Prelude.{◌≡◌, ◌++◌, [], OnOk};
ghost use Rattle.sm_session.specs.LongLines.{RespondsLong};
ghost use Rattle.sm_session.specs.Responses.{answer_line};

use sm_script::{LineAnswer, long_line_fault};
use std::alloc::AllocError;

/// Appends the answer and a line feed.
pub fn write_line(answer: &LineAnswer, out: &mut Vec<u8>) -> Result<(), AllocError>
    ensures { OnOk result (out.new.items ≡ out.old.items ++ answer_line answer.now) }
{
    answer.write_to(out)?;
    out.push(b'\n')?;
    Ok(())
}

/// Appends the response to a line beyond the limit that begins with `start`.
pub fn write_long_line(start: &[u8], out: &mut Vec<u8>) -> Result<(), AllocError>
    requires { out.old.items ≡ [] }
    ensures { OnOk result (RespondsLong start.now out.new.items) }
{
    // A line beyond the limit can't begin with nothing.
    if start.is_empty() {
        return Ok(());
    }
    match long_line_fault(start) {
        None => Ok(()),
        Some(fault) => write_line(&LineAnswer::Error(fault), out),
    }
}
