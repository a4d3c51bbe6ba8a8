//! Laws of parts of texts that are taken.

ghost use Rattle.c62_op.specs.declared.set.InstructionSet.{InstructionSet};
ghost use Rattle.std.specs.Prelude.{ℕ, Bool, List};
ghost use Rattle.c62_reach.specs.Part.{Part};
ghost use Rattle.c62_reach.specs.Laws.{AreLeast, AreWhole, IsOne, KeepsLines};

/// Each part to which one leads that is taken is taken: the one whose label it names, and the one into which it may run on.
pub fn what_is_named_is_taken()
    ensures { (parts : List Part) (first : ℕ) (marks : List Bool) → AreWhole parts first marks }
{}

/// No other part is taken.
pub fn no_more_is_taken()
    ensures { (parts : List Part) (first : ℕ) (marks others : List Bool) → AreLeast parts first marks others }
{}

/// Lines keep their numbers: each is the line of the text that has its number, or empty.
pub fn lines_keep_their_numbers()
    ensures { (isa : InstructionSet) (name text other : List ℕ) → KeepsLines isa name text other }
{}

/// A text is taken in one way from a label on.
pub fn texts_are_taken_in_one_way()
    ensures { (isa : InstructionSet) (name text one other : List ℕ) → IsOne isa name text one other }
{}
