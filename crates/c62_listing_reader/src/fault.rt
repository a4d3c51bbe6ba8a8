//! Why a listing is refused.

use c62_packet::{BlockFault, PacketRule};
use c62_read::{Cause, ReadFault};
use std::alloc::{AllocError, AllocFailed};
use std::error::Error;
use std::fmt;

/// What is wrong with a line.
#[derive(Clone, Copy)]
pub enum LineFault {
    /// What a line of serial text may have, too.
    Read(Cause),
    /// The line is no line of a listing here.
    Shape,
    /// Memory ran out.
    Memory,
}

impl From<AllocError> for LineFault {
    ghost use Rattle.std.specs.Prelude.{◌≡◌};
    ghost use Rattle.c62_listing_reader.specs.declared.fault.LineFault.TheVariants.{Memory};

    ghost from_gives = { λ _ fault. fault ≡ Memory };

    fn from(_error: AllocError) -> LineFault {
        LineFault::Memory
    }
}

/// Why a text is no listing. The lines of a text are counted from 1, its blocks from 0. The first faulty line decides; where
/// no line has a fault, the first faulty block, and in it the first of `TwoBranches`, `NotDrained` and `Unlawful`.
#[derive(Clone, Copy, Debug)]
pub enum ListFault {
    /// A fault that lines of serial text have too, or `TextTooLong` for a text of more than 8,388,608 bytes.
    Read(ReadFault),
    /// A packet rule is broken: the block, the least such cycle, and there the first rule.
    Unlawful(u8, u16, PacketRule),
    /// The cycles written are not the length of the block, or something lands in or after that cycle.
    NotDrained(u8),
    /// More than one branch.
    TwoBranches(u8),
    /// The line is not spelled as a listing spells what it says, or does not fit its neighbours.
    Shape(u32),
    /// Memory ran out.
    Memory,
}

impl fmt::Display for ListFault {
    ghost use Rattle.std.specs.Prelude.{Some};
    ghost use Rattle.c62_listing_reader.specs.FaultText.{list_fault_text};

    ghost output = { λ fault. Some (list_fault_text fault) };

    fn fmt<W: fmt::Write>(&self, f: &mut fmt::Formatter<W>) -> fmt::Result {
        match self {
            ListFault::Read(fault) => write!(f, "{fault}"),
            ListFault::Unlawful(block, cycle, rule) => {
                let fault = BlockFault::Unlawful(*cycle, *rule);
                write!(f, "block {block} {fault}")
            }
            ListFault::NotDrained(block) => {
                let fault = BlockFault::NotDrained;
                write!(f, "block {block}: {fault}")
            }
            ListFault::TwoBranches(block) => {
                let fault = BlockFault::TwoBranches;
                write!(f, "block {block}: {fault}")
            }
            ListFault::Shape(line) => write!(f, "line {line}: Shape"),
            ListFault::Memory => f.write_str("memory"),
        }
    }
}

impl Error for ListFault {}

impl From<AllocError> for ListFault {
    ghost use Rattle.std.specs.Prelude.{◌≡◌};
    ghost use Rattle.c62_listing_reader.specs.declared.fault.ListFault.TheVariants.{Memory};

    ghost from_gives = { λ _ fault. fault ≡ Memory };

    fn from(_error: AllocError) -> ListFault {
        ListFault::Memory
    }
}

impl<T: Drop> From<AllocFailed<T>> for ListFault {
    ghost use Rattle.std.specs.Prelude.{◌≡◌};
    ghost use Rattle.c62_listing_reader.specs.declared.fault.ListFault.TheVariants.{Memory};

    ghost from_gives = { λ _ fault. fault ≡ Memory };

    fn from(_error: AllocFailed<T>) -> ListFault {
        ListFault::Memory
    }
}
