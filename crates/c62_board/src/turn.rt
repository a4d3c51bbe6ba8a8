//! What a side's step does, and what may be proposed to a board.

ghost use Rattle.std.specs.Prelude.{◌≡◌};
ghost use Rattle.c62_op.specs.declared.register.Side.{Side as SideOf};
ghost use Rattle.c62_board.specs.Who.{who_of};

use c62_insn::Side;
use c62_sheet::{Spot, Who};

/// What the step of a side did (`docs/SCHEDULING.md`, "A step of a side"). Instructions go by their numbers.
#[derive(Clone, Copy, PartialEq, Eq, Debug)]
pub enum Turn {
    /// The pick was placed at its least spot.
    Placed(u16, Spot),
    /// The first was withdrawn, with all placed ones that depend on it, and then the second, the pick, was placed there.
    Ejected(u16, u16, Spot),
    /// No instruction of the side is ready. Nothing changed.
    Idle,
    /// Every instruction is placed. Nothing changed.
    Done,
    /// The pick has no least spot. Nothing changed.
    NoRoom(u16),
    /// The journal has no room for the entries, and could not grow. Nothing changed.
    Memory,
}

/// What a side is about to do.
#[derive(Clone, Copy, PartialEq, Eq, Debug)]
pub(crate) enum Choice {
    /// Nothing: every instruction is placed.
    Finished,
    /// Nothing: no instruction of the side is ready.
    Wait,
    /// Nothing: this pick has no least spot.
    Stop(u16),
    /// Place this pick at its least spot.
    Put(u16, Spot),
    /// Withdraw the first, with all that goes with it, and then place the second, the pick.
    Eject(u16, u16),
}

/// An instruction and the spot at which someone would place it, having seen the placements after so many entries.
#[derive(Clone, Copy, PartialEq, Eq, Debug)]
pub struct Proposal {
    /// The number of the instruction. Any number may be proposed.
    pub number: u16,
    /// Where to place it.
    pub spot: Spot,
    /// How long the journal was that the proposer saw.
    pub seen: usize,
}

/// Who makes the entries of a side's step. No other side's entries are by them.
pub fn who_of(side: Side) -> Who
    ensures who { result ≡ who_of side }
    ensures own { (other : SideOf) → who_of other ≡ result → other ≡ side }
{
    match side {
        Side::A => Who::A,
        Side::B => Who::B,
    }
}
