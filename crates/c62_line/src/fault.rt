//! Why a text is refused.

ghost use Rattle.std.specs.Prelude.{◌≡◌, Some};
ghost use Rattle.c62_line.specs.Fault.{cause_name, fault_text};
ghost use Rattle.c62_line.specs.declared.fault.Cause.TheVariants.{Memory};

use c62_insn::FormFault;
use std::alloc::{AllocError, AllocFailed};
use std::error::Error;
use std::fmt;

/// What is wrong with a text, or with one of its lines.
#[derive(Clone, Copy, PartialEq, Eq, Debug)]
pub enum Cause {
    /// A byte that is neither printable ASCII nor a tab.
    NotAscii,
    /// A line of more than [`MOST_LINE`](crate::MOST_LINE) bytes.
    LineTooLong,
    /// What stands before a colon is no label.
    BadLabel,
    /// An earlier line has the same label.
    DuplicateLabel,
    /// No mnemonic where one has to stand.
    UnknownMnemonic,
    /// The unit is none that may stand behind the mnemonic.
    BadUnit,
    /// The operands are none that the mnemonic takes, or a condition is misspelt.
    BadOperand,
    /// The parts make no instruction.
    Form(FormFault),
    /// Parallel bars, which serial text doesn't have.
    ParallelBar,
    /// A directive.
    Directive,
    /// A branch to a label that no line has.
    UnknownTarget,
    /// The 257th instruction of a block.
    TooManyInstructions,
    /// The 65th block.
    TooManyBlocks,
    /// A text of more than 1,048,576 bytes.
    TextTooLong,
    /// Memory ran out.
    Memory,
}

impl Cause {
    /// Its name, of a form fault that fault's.
    pub fn name(self) -> &'static str
        ensures { result.now ≡ cause_name self }
    {
        match self {
            Cause::NotAscii => "NotAscii",
            Cause::LineTooLong => "LineTooLong",
            Cause::BadLabel => "BadLabel",
            Cause::DuplicateLabel => "DuplicateLabel",
            Cause::UnknownMnemonic => "UnknownMnemonic",
            Cause::BadUnit => "BadUnit",
            Cause::BadOperand => "BadOperand",
            Cause::Form(fault) => fault.name(),
            Cause::ParallelBar => "ParallelBar",
            Cause::Directive => "Directive",
            Cause::UnknownTarget => "UnknownTarget",
            Cause::TooManyInstructions => "TooManyInstructions",
            Cause::TooManyBlocks => "TooManyBlocks",
            Cause::TextTooLong => "TextTooLong",
            Cause::Memory => "Memory",
        }
    }
}

impl fmt::Display for Cause {
    ghost output = { λ cause. Some (cause_name cause) };

    fn fmt<W: fmt::Write>(&self, f: &mut fmt::Formatter<W>) -> fmt::Result {
        f.write_str(self.name())
    }
}

impl Error for Cause {}

/// Why a text is refused, and the line that shows it: lines are counted from 1, and a cause that is of no line has 0.
#[derive(Clone, Copy, PartialEq, Eq, Debug)]
pub struct ReadFault {
    pub line: u32,
    pub cause: Cause,
}

impl ReadFault {
    /// The fault of a line.
    pub fn at(line: u32, cause: Cause) -> ReadFault
        ensures { result ≡ record { line = line; cause = cause } }
    {
        ReadFault { line, cause }
    }
}

impl fmt::Display for ReadFault {
    ghost output = { λ fault. Some (fault_text fault.line fault.cause) };

    fn fmt<W: fmt::Write>(&self, f: &mut fmt::Formatter<W>) -> fmt::Result {
        let line = self.line;
        let name = self.cause.name();
        write!(f, "line {line}: {name}")
    }
}

impl Error for ReadFault {}

impl From<AllocError> for ReadFault {
    ghost from_gives = { λ _ fault. fault ≡ record { line = 0; cause = Memory } };

    fn from(_error: AllocError) -> ReadFault {
        ReadFault::at(0, Cause::Memory)
    }
}

impl<T: Drop> From<AllocFailed<T>> for ReadFault {
    ghost from_gives = { λ _ fault. fault ≡ record { line = 0; cause = Memory } };

    fn from(_error: AllocFailed<T>) -> ReadFault {
        ReadFault::at(0, Cause::Memory)
    }
}
