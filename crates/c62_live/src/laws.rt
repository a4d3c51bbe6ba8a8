//! Laws of live registers. The functions do nothing: what each ensures is a law.

ghost use Rattle.std.specs.Prelude.{List, ℕ};
ghost use Rattle.c62_op.specs.declared.register.Reg.{Reg as Register};
ghost use Rattle.c62_packet.specs.declared.placed.Placed.{Placed};
ghost use Rattle.c62_live.specs.Laws.{LiveIsStillRead};

/// A register is live in a cycle exactly where what it holds there is read in that cycle or in a later one of the block, before
/// another value is sure to have landed.
pub fn live_is_still_read()
    ensures { (placed : List Placed) (reg : Register) (cycles cycle : ℕ) → LiveIsStillRead placed reg cycles cycle }
{}
