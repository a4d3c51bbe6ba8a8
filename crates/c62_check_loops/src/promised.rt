//! The promise of registers that are apart (docs/CHECK.md, "The command").

ghost use Rattle.c62_check_loops.specs.Promised.{IsPromiseOf};

use c62_loop_match::Promise;
use c62_op::Reg;
use c62_pair::RegSet;

/// The promise that accesses from two of these registers never touch one byte in two iterations.
#[tactic(auto, using(crate::proofs::Granting::among_next))]
pub fn promise_of(regs: &[Reg]) -> Promise
    ensures { IsPromiseOf regs.now result }
{
    let mut bases = RegSet::new();
    for reg in regs {
        bases = bases.with(*reg);
    }
    Promise { bases }
}
