//! Laws of reasons. The functions do nothing: what each ensures is a law, proved of the definitions that the contracts cite.

ghost use Rattle.std.specs.Prelude.{ℕ, ℤ, List};
ghost use Rattle.c62_insn.specs.declared.insn.Insn.{Insn};
ghost use Rattle.c62_reason.specs.Reason.{HasOneReason};

/// There is one reason for which an instruction must come so many cycles behind another, by the first case of dependence
/// that asks for as many.
pub fn reasons_are_one()
    ensures { (block : List Insn) (i j : ℕ) (cycles : ℤ) → HasOneReason block i j cycles }
{}
