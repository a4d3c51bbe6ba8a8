//! Laws of texts and their code.

ghost use Rattle.c62_op.specs.declared.set.InstructionSet.{InstructionSet};
ghost use Rattle.std.specs.Prelude.{ℕ, List};
ghost use Rattle.c62_adopt_code.specs.Laws.{AreOwnCode};

/// Lines of which none has a directive, or is a comment from its first byte on that isn't blank, are their own code.
#[tactic(auto, using(crate::proofs::OwnLemmas::own_code))]
pub fn plain_lines_are_their_own_code()
    ensures { (isa : InstructionSet) (lines : List (List ℕ)) → AreOwnCode isa lines }
{}
