//! Why a line of packets is refused.

ghost use Rattle.std.specs.Prelude.{◌≡◌, Some};
ghost use Rattle.c62_adopt_line.specs.FaultName.{line_fault_name};
ghost use Rattle.c62_adopt_line.specs.declared.fault.LineFault.TheVariants.{Memory};

use c62_line::Cause;
use std::alloc::AllocError;
use std::error::Error;
use std::fmt;

/// What is wrong with a line.
#[derive(Clone, Copy, PartialEq, Eq, Debug)]
pub enum LineFault {
    /// What a line of serial text may have, too.
    Read(Cause),
    /// An instruction without its unit.
    UnitWanted,
    /// Memory ran out.
    Memory,
}

impl LineFault {
    /// Its name.
    pub fn name(self) -> &'static str
        ensures { result.now ≡ line_fault_name self }
    {
        match self {
            LineFault::Read(cause) => cause.name(),
            LineFault::UnitWanted => "UnitWanted",
            LineFault::Memory => "Memory",
        }
    }
}

impl fmt::Display for LineFault {
    ghost output = { λ fault. Some (line_fault_name fault) };

    fn fmt<W: fmt::Write>(&self, f: &mut fmt::Formatter<W>) -> fmt::Result {
        f.write_str(self.name())
    }
}

impl Error for LineFault {}

impl From<AllocError> for LineFault {
    ghost from_gives = { λ _ fault. fault ≡ Memory };

    fn from(_error: AllocError) -> LineFault {
        LineFault::Memory
    }
}
