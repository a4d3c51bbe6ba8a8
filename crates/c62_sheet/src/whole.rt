//! Whole sets of placements, made elsewhere.

ghost use Rattle.std.specs.Prelude.{◌≡◌, ◌↔◌, ◌<◌, ◌≤◌, length, map, Some, None, IsTrue};
ghost use Rattle.c62_depend.specs.Plan.{insns_of};
ghost use Rattle.c62_sheet.specs.Lawful.{IsLawful, placed};
ghost use Rattle.c62_sheet.specs.Least.{IsReady, FindsLeast};
ghost use Rattle.c62_sheet.specs.Rows.{AreRows};

use crate::early::ready_early;
use crate::entry::Spot;
use crate::judge;
use crate::rows::{take, take_all};
use c62_depend::Plan;
use c62_read::MOST_INSTRUCTIONS;
use c62_row::{Row, Uses};

/// Whether the set with ready instruction `i` at a spot is lawful.
fn is_lawful_with(plan: &Plan, spots: &[Option<Spot>], rows: &[Row], i: u16, spot: Spot) -> bool
    requires lawful { IsLawful (insns_of plan.now) spots.now }
    requires rows { AreRows (insns_of plan.now) spots.now rows.now }
    requires in_plan { i < length plan.now.insns }
    requires ready { IsReady (insns_of plan.now) spots.now i }
    ensures { IsTrue result ↔ IsLawful (insns_of plan.now) (placed spots.now i spot) }
{
    if !plan.units(i).has(spot.unit) {
        return false;
    }
    if spot.cycle >= 5 * plan.len() {
        return false;
    }
    if spot.cycle < ready_early(plan, spots, i) {
        return false;
    }
    let row = rows[usize::from(spot.cycle)];
    row.fits(&Uses::of(plan.insn(i), spot.unit))
}

/// Whether these spots, that of instruction `i` at index `i`, are a lawful set in which every instruction of the plan is
/// placed (`docs/SCHEDULING.md`, "Lawful"). This takes no memory.
pub fn are_lawful(plan: &Plan, spots: &[Spot]) -> bool
    ensures { IsTrue result ↔ IsLawful (insns_of plan.now) (map Some spots.now) }
{
    let count = usize::from(plan.len());
    if spots.len() != count {
        return false;
    }
    let mut set = [None; MOST_INSTRUCTIONS];
    let mut rows = [Row::new(); 5 * MOST_INSTRUCTIONS];
    for i in 0..plan.len() {
        let spot = spots[usize::from(i)];
        if !is_lawful_with(plan, &set[..count], &rows, i, spot) {
            return false;
        }
        take(plan, &set[..count], &mut rows, i, spot);
        set[usize::from(i)] = Some(spot);
    }
    true
}

/// The least spot, on a lawful set of placements that is given by its spots, of an instruction that is ready there
/// ([`Sheet::least`](crate::Sheet::least) is the same of a sheet). This takes no memory.
pub fn least_in(plan: &Plan, spots: &[Option<Spot>], i: u16) -> Option<Spot>
    requires lawful { IsLawful (insns_of plan.now) spots.now }
    requires in_plan { i < length plan.now.insns }
    requires ready { IsReady (insns_of plan.now) spots.now i }
    ensures { FindsLeast (insns_of plan.now) spots.now i result }
{
    let count = usize::from(plan.len());
    prove!(count <= MOST_INSTRUCTIONS);
    let mut rows = [Row::new(); 5 * MOST_INSTRUCTIONS];
    take_all(plan, spots, &mut rows);
    judge::least(plan, spots, &rows, ready_early(plan, spots, i), i)
}
