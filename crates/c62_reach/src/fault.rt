//! Why nothing of a text is taken.

ghost use Rattle.std.specs.Prelude.{◌≡◌, Some};
ghost use Rattle.c62_reach.specs.FaultText.{reach_fault_text};
ghost use Rattle.c62_reach.specs.declared.fault.ReachFault.TheVariants.{Memory};

use std::alloc::AllocError;
use std::error::Error;
use std::fmt;

/// Why nothing of a text is taken.
#[derive(Clone, Copy, PartialEq, Eq, Debug)]
pub enum ReachFault {
    /// No line has the label.
    From,
    /// Memory ran out.
    Memory,
}

impl From<AllocError> for ReachFault {
    ghost from_gives = { λ _ fault. fault ≡ Memory };

    fn from(_error: AllocError) -> ReachFault {
        ReachFault::Memory
    }
}

impl fmt::Display for ReachFault {
    ghost output = { λ fault. Some (reach_fault_text fault) };

    fn fmt<W: fmt::Write>(&self, f: &mut fmt::Formatter<W>) -> fmt::Result {
        match self {
            ReachFault::From => f.write_str("from: UnknownTarget"),
            ReachFault::Memory => f.write_str("memory"),
        }
    }
}

impl Error for ReachFault {}
