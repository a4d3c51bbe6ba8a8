//! Laws of texts of packets and their rows.

ghost use Rattle.c62_op.specs.declared.set.InstructionSet.{InstructionSet};
ghost use Rattle.std.specs.Prelude.{ℕ, List, Option};
ghost use Rattle.c62_read.specs.Program.{Name};
ghost use Rattle.c62_rows.specs.Laws.{HasOneAnswer, LabelsRise};

/// A text has one answer: it makes one list of rows, with one row for each label and one to begin with, or it is refused in one
/// way. Only memory that ran out may come in its place.
pub fn texts_have_one_answer()
    ensures { (isa : InstructionSet) (text : List ℕ) (from : Option Name) → HasOneAnswer isa text from }
{}

/// The labels of a text stand in the order of their rows: none names a row above that of the label before it.
pub fn labels_rise()
    ensures { (isa : InstructionSet) (text : List ℕ) → LabelsRise isa text }
{}
