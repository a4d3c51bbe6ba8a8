//! What instructions take that are issued in a cycle or later.

ghost use Rattle.std.specs.Prelude.{◌≡◌, ◌≤◌, []};
ghost use Rattle.c62_row.specs.Row.{AreUses};
ghost use Rattle.c62_packet.specs.Taken.{IsTakenBy, TakesTheSame, TakesMore};

use crate::landings::Landings;
use crate::placed::Placed;
use c62_row::{Row, Uses};

/// What instructions take that are issued in a cycle or later: the row of that cycle, and the registers in which they land
/// in it and in the four next.
#[derive(Clone, Copy)]
pub(crate) struct Taken {
    cycle: u16,
    pub row: Row,
    pub landings: Landings,
}

impl Taken {
    /// What no instructions take.
    pub fn new() -> Taken
        ensures last { result.cycle ≡ 65535 }
        ensures none { IsTakenBy result [] }
    {
        Taken {
            cycle: u16::MAX,
            row: Row::new(),
            landings: Landings::new(),
        }
    }

    /// The same seen from a cycle before it, or from its own.
    pub fn from_cycle(&self, cycle: u16) -> Taken
        requires { cycle ≤ self.now.cycle }
        ensures same { result.cycle ≡ cycle }
        ensures taken { TakesTheSame self.now result }
    {
        if cycle == self.cycle {
            return *self;
        }
        Taken {
            cycle,
            row: Row::new(),
            landings: self.landings.from_earlier(self.cycle - cycle),
        }
    }

    /// Takes what an instruction takes that is issued in the cycle: of resources so much.
    pub fn add(&mut self, placed: &Placed, uses: &Uses)
        requires here { placed.now.cycle ≡ self.old.cycle }
        requires uses { AreUses uses.now placed.now.insn placed.now.unit }
        ensures same { self.new.cycle ≡ self.old.cycle }
        ensures taken { TakesMore self.old self.new placed.now }
    {
        self.row.add(uses);
        self.landings.add_all(placed.insn.writes().as_slice());
    }
}
