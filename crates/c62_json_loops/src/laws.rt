//! The law of the document. The function does nothing: what it ensures is proved of the definitions that other contracts cite.

ghost use Rattle.std.specs.Prelude.{ℕ, List};
ghost use Rattle.clap.specs.Words.{Text as Name};
ghost use Rattle.c62_op.specs.declared.register.Reg.{Reg as Register};
ghost use Rattle.c62_read.specs.Block.{Serial};
ghost use Rattle.c62_flight.specs.Text.{Text};
ghost use Rattle.c62_json_loops.specs.Judged.{DocumentsHaveLines};

/// What the document tells of each block is what lines tell that `check --loops` may print, and both say alike whether all is the same.
pub fn documents_have_lines()
    ensures { (trips : List (Name × ℕ)) (apart : List Register) (blocks : List Serial) (packets : Text) → DocumentsHaveLines trips apart blocks packets }
{}
