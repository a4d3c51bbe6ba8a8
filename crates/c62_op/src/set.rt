//! The two sets of instructions.

ghost use Rattle.std.specs.Prelude.{◌≡◌};
ghost use Rattle.c62_op.specs.Takes.{has_all_of};

/// A set of instructions that texts may use (`docs/MACHINE.md`, "Instruction table").
#[derive(Clone, Copy, PartialEq, Eq, Debug)]
pub enum InstructionSet {
    /// What most kernels need.
    Core,
    /// All of the table: what the processor has for words of 32 bits.
    Full,
}

impl InstructionSet {
    /// Whether what `other` has belongs to this set: the core's belongs to both.
    pub fn has_all_of(self, other: InstructionSet) -> bool
        ensures { result ≡ has_all_of self other }
    {
        matches!(
            (self, other),
            (InstructionSet::Full, _) | (InstructionSet::Core, InstructionSet::Core)
        )
    }
}
