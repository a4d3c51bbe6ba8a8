//! The writes that land in one cycle.

ghost use Rattle.std.specs.Prelude.{◌≡◌, ◌<◌, ◌∷◌, [], ◌++◌, length};

use c62_insn::{Reg, Side};
use std::marker::Model;

/// As many writes as eight units start in the five cycles from which they may land together.
const MOST: usize = 40;

const NONE: Due = Due {
    reg: Reg {
        side: Side::A,
        number: 0,
    },
    word: 0,
    line: 0,
    delay: 0,
};

/// A write that is due: the word that a register gets, the line of the instruction that made it, and how many cycles behind its
/// issue the write lands.
#[derive(Clone, Copy, PartialEq, Eq, Debug)]
pub struct Due {
    pub reg: Reg,
    pub word: u32,
    pub line: u32,
    pub delay: u8,
}

/// The writes that land in one cycle, in the order of issue.
#[derive(Drop)]
pub struct Slot {
    count: usize,
    writes: [Due; MOST],
}

impl Model for Slot {
    ghost use Rattle.std.specs.Prelude.{◌≤◌, ◌≡◌, length, take};
    ghost use Rattle.c62_pipe.specs.Flight.{Slot as Writes};

    ghost Value = { Writes };

    ghost view = { λ slot. take slot.count slot.writes };

    ghost invariant = { λ slot. slot.count ≤ 40 };
}

impl Slot {
    /// No writes.
    pub fn new() -> Slot
        ensures { result ≡ [] }
    {
        Slot {
            count: 0,
            writes: [NONE; MOST],
        }
    }

    /// The writes in the order in which they came.
    pub fn writes(&self) -> &[Due]
        ensures { result.now ≡ self.now }
    {
        &self.writes[..self.count]
    }

    /// One write more.
    pub fn push(&mut self, due: Due)
        requires { length self.old < 40 }
        ensures { self.new ≡ self.old ++ due ∷ [] }
    {
        self.writes[self.count] = due;
        self.count += 1;
    }

    /// Lets all writes go.
    pub fn clear(&mut self)
        ensures { self.new ≡ [] }
    {
        self.count = 0;
    }
}
