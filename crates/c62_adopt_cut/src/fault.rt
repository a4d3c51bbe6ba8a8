//! Why a text of packets is refused.

ghost use Rattle.std.specs.Prelude.{◌≡◌, Some};
ghost use Rattle.c62_adopt_cut.specs.FaultText.{cause_name, fault_text};

use c62_adopt_line::LineFault;
use std::error::Error;
use std::fmt;

/// What is wrong with a text of packets, or with one of its lines.
#[derive(Clone, Copy, PartialEq, Eq, Debug)]
pub enum TextCause {
    /// What a line may have by itself, or a line of serial text with those above it.
    Line(LineFault),
    /// The instruction is in flight in a cycle that its block may not have.
    TooManyCycles,
    /// Behind the branch stands another in its delay slots.
    TwoBranches,
    /// Something of the instruction is in flight where its block is over.
    NotDrained,
}

impl TextCause {
    /// Its name.
    pub fn name(self) -> &'static str
        ensures { result.now ≡ cause_name self }
    {
        match self {
            TextCause::Line(fault) => fault.name(),
            TextCause::TooManyCycles => "TooManyCycles",
            TextCause::TwoBranches => "TwoBranches",
            TextCause::NotDrained => "NotDrained",
        }
    }
}

/// Why a text is refused, and the line that shows it: lines are counted from 1, and a cause that is of no line has 0.
#[derive(Clone, Copy, PartialEq, Eq, Debug)]
pub struct TextFault {
    pub line: u32,
    pub cause: TextCause,
}

impl TextFault {
    /// The fault of a line.
    pub fn at(line: u32, cause: TextCause) -> TextFault
        ensures { result ≡ record { line = line; cause = cause } }
    {
        TextFault { line, cause }
    }
}

impl fmt::Display for TextFault {
    ghost output = { λ fault. Some (fault_text fault.line fault.cause) };

    fn fmt<W: fmt::Write>(&self, f: &mut fmt::Formatter<W>) -> fmt::Result {
        let line = self.line;
        let name = self.cause.name();
        write!(f, "line {line}: {name}")
    }
}

impl Error for TextFault {}
