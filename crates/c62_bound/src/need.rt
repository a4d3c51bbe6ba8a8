//! What instructions wait for, and how many cycles that takes.

ghost use Rattle.std.specs.Prelude.{◌≡◌};

use c62_insn::{Letter, Side};

/// What takes an instruction or some in a cycle, on each side.
#[derive(Clone, Copy, PartialEq, Eq, Debug)]
pub enum Kind {
    /// The unit .L.
    L,
    /// The unit .S.
    S,
    /// The unit .M.
    M,
    /// The unit .D.
    D,
    /// The units .L and .S.
    Ls,
    /// The units .L, .S and .D.
    Lsd,
    /// The data path of the register file.
    Path,
}

/// All kinds, in their order.
pub const KINDS: [Kind; 7] = [
    Kind::L,
    Kind::S,
    Kind::M,
    Kind::D,
    Kind::Ls,
    Kind::Lsd,
    Kind::Path,
];

impl Kind {
    ghost use Rattle.c62_bound.specs.Bound.{has_letter, width};

    /// Whether the unit of this letter is one of these.
    pub fn has(self, letter: Letter) -> bool
        ensures { result ≡ has_letter self letter }
    {
        match (self, letter) {
            (Kind::L | Kind::Ls | Kind::Lsd, Letter::L) => true,
            (Kind::S | Kind::Ls | Kind::Lsd, Letter::S) => true,
            (Kind::M, Letter::M) => true,
            (Kind::D | Kind::Lsd, Letter::D) => true,
            _ => false,
        }
    }

    /// How many instructions find room in a cycle.
    pub fn width(self) -> u16
        ensures { result ≡ width self }
    {
        match self {
            Kind::L | Kind::S | Kind::M | Kind::D | Kind::Path => 1,
            Kind::Ls => 2,
            Kind::Lsd => 3,
        }
    }
}

/// So many instructions of a block wait for room of this kind on this side, and have at least so great a height.
#[derive(Clone, Copy, PartialEq, Eq, Debug)]
pub struct Need {
    /// What they wait for.
    pub kind: Kind,
    /// On which side.
    pub side: Side,
    /// How many instructions they are: all of the block that wait for this room and have a height of at least `tail`.
    pub count: u16,
    /// The height, in cycles, of some instruction of the block, which need not be one that is counted. None that is counted
    /// has a lower height; so behind the cycle of each of them follow at least so many cycles of the block.
    pub tail: u16,
}

impl Need {
    ghost use Rattle.c62_bound.specs.Bound.{cycles_of};

    /// The cycles in which they find room, and the tail behind the last of them.
    pub fn cycles(self) -> u32
        ensures { result ≡ cycles_of self }
    {
        u32::from(self.count.div_ceil(self.kind.width())) + u32::from(self.tail)
    }
}
