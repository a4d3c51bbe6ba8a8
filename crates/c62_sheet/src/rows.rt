//! The rows of a set of placements: what is taken in each cycle.

ghost use Rattle.std.specs.Prelude.{◌≡◌, ◌*◌, ◌<◌, ◌≤◌, length, IfOk, None};
ghost use Rattle.c62_row.specs.Issued.{IsRowOf};
ghost use Rattle.c62_depend.specs.Plan.{insns_of};
ghost use Rattle.c62_sheet.specs.Lawful.{spot_at, placed, withdrawn, nothing_placed, issues, IsLawful};
ghost use Rattle.c62_sheet.specs.Rows.{AreRows};

use crate::entry::Spot;
use c62_depend::Plan;
use c62_row::{Row, Uses};
use std::alloc::{AllocError, Global};

/// The rows while nothing is placed.
pub(crate) fn all_rows(alloc: Global, plan: &Plan) -> Result<Vec<Row>, AllocError>
    ensures { IfOk result (λ rows. AreRows (insns_of plan.now) (nothing_placed (length (insns_of plan.now))) rows.items) }
{
    let rows = vec![in alloc; Row::new(); 5 * usize::from(plan.len())]?;
    Ok(rows)
}

/// Takes what instruction `i`, which is not placed, uses at a spot.
pub(crate) fn take(plan: &Plan, spots: &[Option<Spot>], rows: &mut [Row], i: u16, spot: Spot)
    requires sized { length spots.now ≡ length (insns_of plan.now) }
    requires rows { AreRows (insns_of plan.now) spots.now rows.old }
    requires in_plan { i < length plan.now.insns }
    requires free { spot_at spots.now i ≡ None }
    requires within { spot.cycle < 5 * length (insns_of plan.now) }
    ensures { AreRows (insns_of plan.now) (placed spots.now i spot) rows.new }
{
    rows[usize::from(spot.cycle)].add(&Uses::of(plan.insn(i), spot.unit));
}

/// Takes what the instructions of a lawful set use, of rows in which nothing is taken.
pub(crate) fn take_all(plan: &Plan, spots: &[Option<Spot>], rows: &mut [Row])
    requires lawful { IsLawful (insns_of plan.now) spots.now }
    requires free { AreRows (insns_of plan.now) (nothing_placed (length (insns_of plan.now))) rows.old }
    ensures { AreRows (insns_of plan.now) spots.now rows.new }
{
    for i in 0..plan.len() {
        if let Some(spot) = spots[usize::from(i)] {
            rows[usize::from(spot.cycle)].add(&Uses::of(plan.insn(i), spot.unit));
        }
    }
}

/// Frees what instruction `i` uses at its spot.
pub(crate) fn free(plan: &Plan, spots: &[Option<Spot>], rows: &mut [Row], i: u16)
    requires lawful { IsLawful (insns_of plan.now) spots.now }
    requires rows { AreRows (insns_of plan.now) spots.now rows.old }
    requires in_plan { i < length plan.now.insns }
    ensures { AreRows (insns_of plan.now) (withdrawn spots.now i) rows.new }
{
    if let Some(spot) = spots[usize::from(i)] {
        rows[usize::from(spot.cycle)].remove(&Uses::of(plan.insn(i), spot.unit));
    }
}

/// Frees all that is taken.
pub(crate) fn free_all(plan: &Plan, rows: &mut [Row])
    requires { 5 * length (insns_of plan.now) ≤ length rows.old }
    ensures { AreRows (insns_of plan.now) (nothing_placed (length (insns_of plan.now))) rows.new }
{
    for row in rows.iter_mut() {
        *row = Row::new();
    }
}

/// The row of a cycle, with instruction `q` taken out. No instruction takes anything of a cycle behind all rows.
pub(crate) fn row_without(
    plan: &Plan,
    spots: &[Option<Spot>],
    rows: &[Row],
    cycle: u16,
    q: u16,
) -> Row
    requires lawful { IsLawful (insns_of plan.now) spots.now }
    requires rows { AreRows (insns_of plan.now) spots.now rows.now }
    requires in_plan { q < length plan.now.insns }
    ensures { IsRowOf result cycle (issues (insns_of plan.now) (withdrawn spots.now q)) }
{
    if rows.len() <= usize::from(cycle) {
        return Row::new();
    }
    let mut row = rows[usize::from(cycle)];
    match spots[usize::from(q)] {
        None => row,
        Some(spot) => {
            if spot.cycle != cycle {
                return row;
            }
            row.remove(&Uses::of(plan.insn(q), spot.unit));
            row
        }
    }
}
