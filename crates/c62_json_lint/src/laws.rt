//! Laws of the documents. The function does nothing: what it ensures are laws.

ghost use Rattle.c62_op.specs.declared.set.InstructionSet.{InstructionSet};
ghost use Rattle.std.specs.Prelude.{ℕ, List};
ghost use Rattle.c62_json_lint.specs.Laws.{DocumentsTellTheLines, FaultyIsRefused};

/// The document of a serial text tells the faults that its lines tell, and there is one exactly where the commands refuse the text.
pub fn documents_tell_the_lines()
    ensures same { (isa : InstructionSet) (most : ℕ) (file text : List ℕ) → DocumentsTellTheLines isa most file text }
    ensures refused { (isa : InstructionSet) (most : ℕ) (file text : List ℕ) → FaultyIsRefused isa most file text }
{}
