//! How many cycles one instruction must come behind another (docs/MACHINE.md, "Dependences").

ghost use Rattle.std.specs.Prelude.{◌≡◌, ◌||◌, ◌&&◌, nat_lt};
ghost use Rattle.c62_insn.specs.Insn.{operands_of, cond_of};
ghost use Rattle.c62_pair.specs.Numbers.{as_bound};
ghost use Rattle.c62_depend.specs.Latency.{latency_of};
ghost use Rattle.c62_loop_match.specs.Distances.{exclusive_under, disjoint_under};
ghost use Rattle.c62_loop_match.specs.Promise.{base_in, promises};

use c62_insn::{Cond, Insn, Operands, Reg};
use c62_loop_match::Promise;
use c62_pair::{Covered, RegSet, Uses, as_bound, by_order, by_registers};

/// The base of a load or store.
fn base_in(insn: &Insn) -> Option<Reg>
    ensures { result ≡ base_in (operands_of insn.now) }
{
    match insn.operands() {
        Operands::Access { base, .. } => Some(base),
        _ => None,
    }
}

/// Whether a promise is of these two instructions.
fn is_promised(promise: Promise, first: &Insn, second: &Insn) -> bool
    ensures { result ≡ promises promise first.now second.now }
{
    match (base_in(first), base_in(second)) {
        (Some(one), Some(other)) => {
            promise.bases.has(one) && promise.bases.has(other) && one != other
        }
        _ => false,
    }
}

/// Whether memory needs no order between two instructions so many iterations apart.
pub(crate) fn is_excused(promise: Promise, apart: usize, first: &Insn, second: &Insn) -> bool
    ensures { result ≡ (nat_lt 0 apart && promises promise first.now second.now) }
{
    0 < apart && is_promised(promise, first, second)
}

/// Whether at most one of two instructions runs, where these registers are written between.
fn are_exclusive(first: Option<Cond>, second: Option<Cond>, written: RegSet) -> bool
    ensures { result ≡ exclusive_under written first second }
{
    match (first, second) {
        (Some(one), Some(other)) => {
            one.reg == other.reg && one.negated != other.negated && !written.has(one.reg)
        }
        _ => false,
    }
}

/// Whether two accesses never meet, where these registers are written between.
fn are_disjoint(first: Option<Covered>, second: Option<Covered>, written: RegSet) -> bool
    ensures { result ≡ disjoint_under written first second }
{
    match (first, second) {
        (Some(one), Some(other)) => one.is_apart(other) && !written.has(one.base),
        _ => false,
    }
}

fn needs_no_order(apart: bool, excused: bool) -> bool
    ensures { result ≡ (apart || excused) }
{
    apart || excused
}

/// The greatest bound of all cases, as a number of c62_pair.
#[tactic(auto, using(crate::proofs::Numbers::all_numbers))]
fn by_all(exclusive: bool, disjoint: bool, first: &Uses, second: &Uses) -> u8
    ensures { as_bound result ≡ latency_of exclusive disjoint first.now.insn second.now.insn }
{
    by_registers(exclusive, first, second).max(by_order(disjoint, first, second))
}

/// The least number of cycles from the first to the second, where these registers are written from the first on and before the second.
/// What is excused needs no order in memory.
pub(crate) fn latency(first: &Uses, second: &Uses, written: RegSet, excused: bool) -> Option<i32>
    ensures { result ≡ latency_of (exclusive_under written (cond_of first.now.insn) (cond_of second.now.insn))
        (disjoint_under written first.now.covered second.now.covered || excused) first.now.insn second.now.insn }
{
    let exclusive = are_exclusive(first.insn.cond(), second.insn.cond(), written);
    let apart = are_disjoint(first.covered, second.covered, written);
    let free = needs_no_order(apart, excused);
    as_bound(by_all(exclusive, free, first, second))
}
