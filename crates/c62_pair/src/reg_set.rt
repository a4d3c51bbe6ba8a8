//! Sets of registers.

ghost use Rattle.std.specs.Prelude.{◌≡◌, ◌<◌, ◌^◌, ◌||◌, false};
ghost use Rattle.c62_op.specs.declared.register.Reg.{Reg as Register};
ghost use Rattle.c62_op.specs.Takes.{same_reg};

use c62_insn::Reg;

/// A set of registers.
#[derive(Clone, Copy)]
pub struct RegSet {
    pub bits: u32,
    pub ghost within: { bits < 2 ^ 32 },
}

impl RegSet {
    ghost use Rattle.c62_pair.specs.RegSet.{reg_in, shares};

    /// The set without registers.
    pub fn new() -> RegSet
        ensures { (reg : Register) → reg_in result reg ≡ false }
    {
        RegSet { bits: 0 }
    }

    /// The set with `reg` added.
    #[tactic(auto, using(crate::proofs::RegSets::with_one))]
    pub fn with(self, reg: Reg) -> RegSet
        ensures { (other : Register) → reg_in result other ≡ (reg_in self other || same_reg reg other) }
    {
        RegSet {
            bits: self.bits | 1 << reg.index(),
        }
    }

    /// The registers of both sets.
    #[tactic(auto, using(crate::proofs::RegSets::joined_is))]
    pub fn joined(self, other: RegSet) -> RegSet
        ensures { (reg : Register) → reg_in result reg ≡ (reg_in self reg || reg_in other reg) }
    {
        RegSet {
            bits: self.bits | other.bits,
        }
    }

    /// The set as a word, with a bit for each register at its index.
    pub fn bits(self) -> u32
        ensures { result ≡ self.bits }
    {
        self.bits
    }

    /// Whether `reg` is in the set.
    #[tactic(auto, using(crate::proofs::RegSets::has_one))]
    pub fn has(self, reg: Reg) -> bool
        ensures { result ≡ reg_in self reg }
    {
        self.meets(RegSet::new().with(reg))
    }

    /// Whether some register is in both sets.
    pub fn meets(self, other: RegSet) -> bool
        ensures { result ≡ shares self other }
    {
        self.bits & other.bits != 0
    }
}
