//! What says something stays as it is, and local labels have names of their own.

ghost use Rattle.c62_op.specs.declared.set.InstructionSet.{InstructionSet};
ghost use Rattle.std.specs.Prelude.{ℕ, List};
ghost use Rattle.c62_adopt_spell.specs.Laws.{AreApart, StandsNowhere, StayAsTheyAre};
ghost use Rattle.c62_adopt_spell.specs.Local.{local_name, mark_of};

/// A line that has a label, an instruction or cycles stands for itself, and so does one without bytes.
pub fn lines_that_say_something_stay()
    ensures { (isa : InstructionSet) (lines : List (List ℕ)) → StayAsTheyAre isa lines }
{}

/// A name of a local label that may be a label stands nowhere in the text.
pub fn local_names_stand_nowhere()
    ensures { (text : List ℕ) (n count : ℕ) → StandsNowhere text (local_name (mark_of text) n count) }
{}

/// Local labels have the same name only where they are the same.
pub fn local_names_are_apart()
    ensures { (mark : List ℕ) → AreApart mark }
{}
