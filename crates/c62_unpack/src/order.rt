//! An order in which the instructions of packets may stand in a serial text.

ghost use Rattle.std.specs.Prelude.{◌≡◌, ◌<◌, length, IfOk, IsPermutation};

use c62_packet::Placed;
use c62_pair::{Covered, Uses, as_bound, by_order, by_registers};
use std::alloc::{AllocError, Global};

/// What each of these uses.
fn uses_of(alloc: Global, placed: &[Placed]) -> Result<Vec<Uses>, AllocError>
    ensures { IfOk result (λ uses. length uses.items ≡ length placed.now) }
{
    let mut uses = Vec::with_capacity(alloc, placed.len())?;
    for each in placed {
        uses.push(Uses::new(each.insn))?;
    }
    Ok(uses)
}

/// Whether both access bytes that don't meet, as long as their base keeps its value.
fn are_apart(first: Option<Covered>, second: Option<Covered>) -> bool {
    match (first, second) {
        (Some(first), Some(second)) => first.is_apart(second),
        _ => false,
    }
}

/// How many cycles `second` comes behind `first`: fewer than 0 where it comes before.
fn gap(first: &Placed, second: &Placed) -> i32 {
    i32::from(second.cycle) - i32::from(first.cycle)
}

/// How many cycles an instruction that uses `second` must come behind one that uses `first` in a text that has it behind, where
/// it must.
fn needs(first: &Uses, second: &Uses) -> Option<i32> {
    let exclusive = first.test == second.opposite;
    let disjoint = are_apart(first.covered, second.covered);
    as_bound(by_registers(exclusive, first, second).max(by_order(disjoint, first, second)))
}

/// Whether an instruction may stand before another in a text of which the packets are a schedule. Nothing stands behind a branch.
fn may_precede(gap: i32, first: &Uses, second: &Uses) -> bool {
    match needs(first, second) {
        Some(needs) => !first.branches && needs <= gap,
        None => !first.branches,
    }
}

/// Whether instruction `k` may stand before all others.
fn may_lead(left: &[Placed], uses: &[Uses], k: usize) -> bool
    requires count { length uses.now ≡ length left.now }
    requires within { k < length left.now }
{
    for j in 0..left.len() {
        if j != k && !may_precede(gap(&left[k], &left[j]), &uses[k], &uses[j]) {
            return false;
        }
    }
    true
}

/// The first that may stand before all others, and the first of all where none may.
fn next_of(left: &[Placed], uses: &[Uses]) -> usize
    requires count { length uses.now ≡ length left.now }
    requires some { 0 < length left.now }
    ensures { result < length left.now }
{
    for k in 0..left.len() {
        if may_lead(left, uses, k) {
            return k;
        }
    }
    0
}

/// These instructions in an order in which they may stand in a serial text, where there is one.
///
/// # Errors
///
/// Where memory ran out.
pub(crate) fn serial_order(alloc: Global, placed: &[Placed]) -> Result<Vec<Placed>, AllocError>
    ensures { IfOk result (λ order. IsPermutation placed.now order.items) }
{
    let mut uses = uses_of(alloc, placed)?;
    let mut left = Vec::from_slice(alloc, placed)?;
    let mut order = Vec::with_capacity(alloc, placed.len())?;
    for taken in 0..placed.len() {
        let next = next_of(&left, &uses);
        uses.remove(next);
        order.push(left.remove(next))?;
    }
    Ok(order)
}
