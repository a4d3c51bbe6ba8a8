//! Laws of pages of loops. The functions do nothing: what each ensures is a law.

ghost use Rattle.std.specs.Prelude.{ℕ, List};
ghost use Rattle.c62_read.specs.Block.{Serial};
ghost use Rattle.c62_pipeline.specs.declared.written.Pipelining.{Pipelining as Written};
ghost use Rattle.c62_page_loops.specs.Laws.{AnglesAreTheSame, OwnIsTheSame};

/// With any other lines in its text, as many, and any other blocks with their labels, a page has the same `<` and `>`, in their
/// order, and what its maker wrote is the same. So no line, with its operands and its comment, and no label puts an element into it,
/// or ends one.
pub fn pages_have_their_own_elements()
    ensures angles { (text other : List ℕ) (blocks others : List Serial) (written : Written) → AnglesAreTheSame text other blocks others written }
    ensures same { (text other : List ℕ) (blocks others : List Serial) (written : Written) → OwnIsTheSame text other blocks others written }
{}
