ghost use Rattle.std.specs.Prelude.{◌≡◌};
ghost use Rattle.sm_script.specs.declared.fault.ParseFault.TheVariants.{Line, NoMemory};

use std::alloc::AllocError;
use std::fmt;
use thiserror::Error;

/// Why a line of a script makes no call. If a line has several faults, the answer is the first one in this order; but
/// of `BadNumber` and `BadKey` it is the fault of the leftmost word.
#[derive(Clone, Copy, Debug, PartialEq, Eq, Drop, Error)]
pub enum LineFault {
    /// The line has more than 70,000 bytes, and is no comment.
    LineTooLong,
    /// The first word isn't a word of a script's line, or the word after `at A` or `client` isn't the word of a
    /// request.
    UnknownWord,
    /// There are too few or too many words.
    BadLine,
    /// A number isn't spelled in decimal, or it is out of its range.
    BadNumber,
    /// A key has no byte, or more than 255.
    BadKey,
    /// The line is right, but this engine doesn't run it.
    NotHere,
}

impl fmt::Display for LineFault {
    ghost use Rattle.std.specs.Prelude.{Some};
    ghost use Rattle.sm_script.specs.Answers.{line_fault_name};

    ghost output = { λ fault. Some (line_fault_name fault) };

    fn fmt<W: fmt::Write>(&self, f: &mut fmt::Formatter<W>) -> fmt::Result {
        f.write_str(self.name())
    }
}

impl LineFault {
    ghost use Rattle.sm_script.specs.Answers.{line_fault_name};

    /// Returns the name of the fault in an answer.
    pub fn name(self) -> &'static str
        ensures { result.now ≡ line_fault_name self }
    {
        match self {
            LineFault::LineTooLong => "LineTooLong",
            LineFault::UnknownWord => "UnknownWord",
            LineFault::BadLine => "BadLine",
            LineFault::BadNumber => "BadNumber",
            LineFault::BadKey => "BadKey",
            LineFault::NotHere => "NotHere",
        }
    }
}

/// Why a line makes no call, or can't.
#[derive(Clone, Copy, Debug, PartialEq, Eq, Drop, Error)]
pub enum ParseFault {
    /// The line makes no call.
    Line(LineFault),
    /// The line asks for a request, but memory for it was refused.
    NoMemory,
}

impl fmt::Display for ParseFault {
    ghost use Rattle.std.specs.Prelude.{Some};
    ghost use Rattle.sm_script.specs.Lines.{parse_fault_text};

    ghost output = { λ fault. Some (parse_fault_text fault) };

    fn fmt<W: fmt::Write>(&self, f: &mut fmt::Formatter<W>) -> fmt::Result {
        match self {
            ParseFault::Line(fault) => f.write_str(fault.name()),
            ParseFault::NoMemory => f.write_str("out of memory"),
        }
    }
}

impl From<LineFault> for ParseFault {
    ghost from_gives = { λ fault made. made ≡ Line fault };

    fn from(fault: LineFault) -> ParseFault {
        ParseFault::Line(fault)
    }
}

impl From<AllocError> for ParseFault {
    ghost from_gives = { λ _ made. made ≡ NoMemory };

    fn from(_error: AllocError) -> ParseFault {
        ParseFault::NoMemory
    }
}
