//! Why a text of packets is refused.

ghost use Rattle.std.specs.Prelude.{◌≡◌, Some};
ghost use Rattle.c62_adopt.specs.FaultText.{adopt_fault_text, fault_from};
ghost use Rattle.c62_adopt.specs.declared.fault.AdoptFault.TheVariants.{Memory};

use c62_adopt_code::{CodeCause, CodeFault};
use c62_adopt_cut::TextFault;
use c62_packet::PacketRule;
use std::alloc::{AllocError, AllocFailed};
use std::error::Error;
use std::fmt;

/// Why a text of packets makes no listing (docs/ADOPT.md, "Faults of a text").
#[derive(Clone, Copy, PartialEq, Eq, Debug)]
pub enum AdoptFault {
    /// A line has a fault by itself or because of other lines.
    Text(TextFault),
    /// The instruction of this line, counted from 1, breaks this rule together with those above it in its block.
    Rule(u32, PacketRule),
    /// The line keeps the text from having code.
    Code(u32, CodeCause),
    /// Memory ran out.
    Memory,
}

impl From<CodeFault> for AdoptFault {
    ghost from_gives = { λ code fault. fault ≡ fault_from code };

    fn from(fault: CodeFault) -> AdoptFault {
        match fault {
            CodeFault::At(line, cause) => AdoptFault::Code(line, cause),
            CodeFault::Memory => AdoptFault::Memory,
        }
    }
}

impl From<AllocError> for AdoptFault {
    ghost from_gives = { λ _ fault. fault ≡ Memory };

    fn from(_error: AllocError) -> AdoptFault {
        AdoptFault::Memory
    }
}

impl<T: Drop> From<AllocFailed<T>> for AdoptFault {
    ghost from_gives = { λ _ fault. fault ≡ Memory };

    fn from(_error: AllocFailed<T>) -> AdoptFault {
        AdoptFault::Memory
    }
}

impl fmt::Display for AdoptFault {
    ghost output = { λ fault. Some (adopt_fault_text fault) };

    fn fmt<W: fmt::Write>(&self, f: &mut fmt::Formatter<W>) -> fmt::Result {
        match self {
            AdoptFault::Text(fault) => write!(f, "{fault}"),
            AdoptFault::Rule(line, rule) => write!(f, "line {line}: {rule}"),
            AdoptFault::Code(line, cause) => {
                let name = cause.name();
                write!(f, "line {line}: {name}")
            }
            AdoptFault::Memory => f.write_str("memory"),
        }
    }
}

impl Error for AdoptFault {}
