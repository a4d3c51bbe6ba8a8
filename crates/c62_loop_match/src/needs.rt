//! How many cycles one instance must come behind another one (docs/MACHINE.md, "Dependences").

ghost use Rattle.std.specs.Prelude.{◌≡◌, ◌||◌};
ghost use Rattle.c62_insn.specs.Insn.{cond_of};
ghost use Rattle.c62_pair.specs.Numbers.{as_bound};
ghost use Rattle.c62_depend.specs.Latency.{latency_of};
ghost use Rattle.c62_loop_match.specs.Distances.{exclusive_under, disjoint_under};

use c62_insn::Cond;
use c62_pair::{Covered, RegSet, Uses, by_order, by_registers};

/// Whether at most one of two instructions runs: they stand under opposite conditions on a register that isn't written between.
fn are_exclusive(first: Option<Cond>, second: Option<Cond>, written: RegSet) -> bool
    ensures { result ≡ exclusive_under written first second }
{
    match (first, second) {
        (Some(one), Some(other)) => {
            one.reg == other.reg && one.negated != other.negated && !written.has(one.reg)
        }
        _ => false,
    }
}

/// Whether two accesses never meet: their bytes from one base are apart, and that isn't written between.
fn are_disjoint(first: Option<Covered>, second: Option<Covered>, written: RegSet) -> bool
    ensures { result ≡ disjoint_under written first second }
{
    match (first, second) {
        (Some(one), Some(other)) => one.is_apart(other) && !written.has(one.base),
        _ => false,
    }
}

/// The greatest bound of all cases, as a number of c62_pair.
#[tactic(auto, using(crate::proofs::Numbers::all_numbers))]
fn by_all(exclusive: bool, disjoint: bool, first: &Uses, second: &Uses) -> u8
    ensures { as_bound result ≡ latency_of exclusive disjoint first.now.insn second.now.insn }
{
    by_registers(exclusive, first, second).max(by_order(disjoint, first, second))
}

fn needs_no_order(apart: bool, excused: bool) -> bool
    ensures { result ≡ (apart || excused) }
{
    apart || excused
}

/// By how much the cycle of the second must at least exceed that of the first, as a number of c62_pair, where these registers are
/// written from the first on and before the second. What is excused needs no order in memory.
pub(crate) fn needs(first: &Uses, second: &Uses, written: RegSet, excused: bool) -> u8
    ensures { as_bound result ≡ latency_of (exclusive_under written (cond_of first.now.insn) (cond_of second.now.insn))
        (disjoint_under written first.now.covered second.now.covered || excused) first.now.insn second.now.insn }
{
    let exclusive = are_exclusive(first.insn.cond(), second.insn.cond(), written);
    let apart = are_disjoint(first.covered, second.covered, written);
    let free = needs_no_order(apart, excused);
    by_all(exclusive, free, first, second)
}
