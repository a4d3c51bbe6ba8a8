//! The law of the lines of packets that are adopted.

ghost use Rattle.c62_op.specs.declared.set.InstructionSet.{InstructionSet};
ghost use Rattle.std.specs.Prelude.{ℕ, Bool, List};
ghost use Rattle.c62_adopt_lines.specs.Laws.{HaveTheirLines};

/// Each instruction of packets that are adopted has the number of the line of the text's code that says it, counted from 1. So what
/// names a line of such packets names one of the text: a block that `check` holds against a serial one, an access that faults in
/// `sim`, and a picture of `show`.
pub fn packets_have_the_lines_of_their_text()
    ensures { (isa : InstructionSet) (drain : Bool) (text : List ℕ) → HaveTheirLines isa drain text }
{}
