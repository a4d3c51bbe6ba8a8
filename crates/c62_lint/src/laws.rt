//! Laws of the faults of a text.

ghost use Rattle.c62_op.specs.declared.set.InstructionSet.{InstructionSet};
ghost use Rattle.std.specs.Prelude.{ℕ, List};
ghost use Rattle.c62_lint.specs.Laws.{FirstIsTheRefusal};

/// The first of a text's faults is the one that the reader refuses the text for, and there is none exactly where the text
/// is read.
#[tactic(auto, using(crate::proofs::FaultLemmas::first_refusal))]
pub fn first_is_the_refusal()
    ensures { (isa : InstructionSet) (text : List ℕ) → FirstIsTheRefusal isa text }
{}
