//! Why a text has no code.

ghost use Rattle.std.specs.Prelude.{◌≡◌, Some};
ghost use Rattle.c62_adopt_code.specs.FaultText.{code_cause_name, code_fault_text};
ghost use Rattle.c62_adopt_code.specs.declared.fault.CodeFault.TheVariants.{Memory};

use std::alloc::AllocError;
use std::error::Error;
use std::fmt;

/// What is wrong with a line.
#[derive(Clone, Copy, PartialEq, Eq, Debug)]
pub enum CodeCause {
    /// A directive may lay something down, or has another statement behind it.
    Directive,
    /// The instruction stands in another section than the first of the text.
    OtherSection,
    /// The alignment may be padded with cycles that code above runs through.
    Padding,
}

impl CodeCause {
    /// Its name.
    pub fn name(self) -> &'static str
        ensures { result.now ≡ code_cause_name self }
    {
        match self {
            CodeCause::Directive => "Directive",
            CodeCause::OtherSection => "OtherSection",
            CodeCause::Padding => "Padding",
        }
    }
}

/// Why a text has no code.
#[derive(Clone, Copy, PartialEq, Eq, Debug)]
pub enum CodeFault {
    /// The line of this number, counted from 1, has this fault.
    At(u32, CodeCause),
    /// Memory ran out.
    Memory,
}

impl From<AllocError> for CodeFault {
    ghost from_gives = { λ _ fault. fault ≡ Memory };

    fn from(_error: AllocError) -> CodeFault {
        CodeFault::Memory
    }
}

impl fmt::Display for CodeFault {
    ghost output = { λ fault. Some (code_fault_text fault) };

    fn fmt<W: fmt::Write>(&self, f: &mut fmt::Formatter<W>) -> fmt::Result {
        match self {
            CodeFault::At(line, cause) => {
                let name = cause.name();
                write!(f, "line {line}: {name}")
            }
            CodeFault::Memory => f.write_str("memory"),
        }
    }
}

impl Error for CodeFault {}
