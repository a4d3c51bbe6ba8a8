//! Accesses of which it is promised that they never touch one byte in two iterations (docs/CHECK.md, "Pipelined loops").

ghost use Rattle.std.specs.Prelude.{◌≡◌, Some, None};
ghost use Rattle.c62_insn.specs.Insn.{operands_of};
ghost use Rattle.c62_loop_match.specs.Promise.{base_in, promises, bases_apart};

use c62_insn::{Insn, Operands, Reg};
use c62_pair::RegSet;

/// Registers of which it is promised that loads and stores from two of them never touch one byte, but in one iteration.
#[derive(Clone, Copy)]
pub struct Promise {
    pub bases: RegSet,
}

/// The base of a load or store.
fn base_in(insn: &Insn) -> Option<Reg>
    ensures { result ≡ base_in (operands_of insn.now) }
{
    match insn.operands() {
        Operands::Access { base, .. } => Some(base),
        _ => None,
    }
}

impl Promise {
    /// Whether it is of these two instructions.
    pub(crate) fn is_of(self, first: &Insn, second: &Insn) -> bool
        ensures { result ≡ promises self first.now second.now }
    {
        match (base_in(first), base_in(second)) {
            (Some(one), Some(other)) => {
                self.bases.has(one) && self.bases.has(other) && one != other
            }
            _ => false,
        }
    }
}
