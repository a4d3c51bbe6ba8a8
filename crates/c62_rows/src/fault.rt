//! Why a text of packets makes no rows.

ghost use Rattle.std.specs.Prelude.{◌≡◌, Some};
ghost use Rattle.c62_rows.specs.FaultText.{cause_name, fault_text};
ghost use Rattle.c62_rows.specs.declared.fault.RowsFault.TheVariants.{Memory};

use c62_adopt_line::LineFault;
use c62_rules::CycleRule;
use std::alloc::{AllocError, AllocFailed};
use std::error::Error;
use std::fmt;

/// What is wrong with a line of a text, or with the text.
#[derive(Clone, Copy, PartialEq, Eq, Debug)]
pub enum RowsCause {
    /// What a line may have by itself, or a line of serial text with the others.
    Line(LineFault),
    /// The line names the 257th label that branches and words name.
    TooManyTargets,
    /// The instruction breaks this rule together with those above it in its packet.
    Rule(CycleRule),
    /// The branch may not stand in a packet with the one above it.
    TwoBranches,
}

impl RowsCause {
    /// Its name.
    pub fn name(self) -> &'static str
        ensures { result.now ≡ cause_name self }
    {
        match self {
            RowsCause::Line(fault) => fault.name(),
            RowsCause::TooManyTargets => "TooManyTargets",
            RowsCause::Rule(rule) => rule.name(),
            RowsCause::TwoBranches => "TwoBranches",
        }
    }
}

/// Why a text of packets makes no rows (docs/EXEC.md, "Faults of a text").
#[derive(Clone, Copy, PartialEq, Eq, Debug)]
pub enum RowsFault {
    /// The line that shows it, counted from 1, and what is wrong with it. A cause that is of no line has 0.
    At(u32, RowsCause),
    /// No line has the label with whose row a run is to begin.
    From,
    /// Memory ran out.
    Memory,
}

impl From<AllocError> for RowsFault {
    ghost from_gives = { λ _ fault. fault ≡ Memory };

    fn from(_error: AllocError) -> RowsFault {
        RowsFault::Memory
    }
}

impl<T: Drop> From<AllocFailed<T>> for RowsFault {
    ghost from_gives = { λ _ fault. fault ≡ Memory };

    fn from(_error: AllocFailed<T>) -> RowsFault {
        RowsFault::Memory
    }
}

impl fmt::Display for RowsFault {
    ghost output = { λ fault. Some (fault_text fault) };

    fn fmt<W: fmt::Write>(&self, f: &mut fmt::Formatter<W>) -> fmt::Result {
        match self {
            RowsFault::At(line, cause) => {
                let name = cause.name();
                write!(f, "line {line}: {name}")
            }
            RowsFault::From => f.write_str("from: UnknownTarget"),
            RowsFault::Memory => f.write_str("memory"),
        }
    }
}

impl Error for RowsFault {}
