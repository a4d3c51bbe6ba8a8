//! Which placed instruction makes way for a more urgent one.

ghost use Rattle.std.specs.Prelude.{◌↔◌, ◌+◌, ◌*◌, ◌<◌, IsTrue, length};
ghost use Rattle.c62_op.specs.Units.{index_of};
ghost use Rattle.c62_depend.specs.Plan.{insns_of};
ghost use Rattle.c62_sheet.specs.Least.{IsReady, IsAfter};
ghost use Rattle.c62_sheet.specs.Victim.{IsInTheWay, MakesWayBefore, FindsVictim, IsFirstBefore};

use crate::chain::leading_to;
use crate::entry::Spot;
use crate::sheet::Sheet;
use c62_depend::Plan;
use c62_insn::Unit;

/// Whether instruction `q` keeps instruction `i` from a cycle, and may make way. Few stand in the cycle, so that a chain
/// to `i` is looked for only where all else is in order.
fn is_in_the_way(sheet: &Sheet, i: u16, cycle: u16, q: u16) -> bool
    requires in_plan { i < length sheet.now.plan.insns }
    requires ready { IsReady (insns_of sheet.now.plan) sheet.now.spots i }
    requires after { IsAfter (insns_of sheet.now.plan) sheet.now.spots i cycle }
    requires other { q < length sheet.now.plan.insns }
    ensures { IsTrue result ↔ IsInTheWay (insns_of sheet.now.plan) sheet.now.spots i cycle q }
{
    let plan = sheet.plan();
    let Some(spot) = sheet.spot_of(q) else {
        return false;
    };
    spot.cycle == cycle
        && plan.height(q) < plan.height(i)
        && sheet.fits_without(i, cycle, q)
        && !leading_to(plan, i)[q as usize]
}

/// Whether instruction `q` makes way before instruction `k`, or is it.
fn makes_way_before(plan: &Plan, q: u16, k: u16) -> bool
    requires in_plan { q < length plan.now.insns }
    requires other { k < length plan.now.insns }
    ensures { IsTrue result ↔ MakesWayBefore (insns_of plan.now) q k }
{
    let height = plan.height(q);
    let other = plan.height(k);
    height < other || height == other && k <= q
}

/// The first to make way of those on the units up to this one, given the one of those on the units before it.
fn first_up_to(sheet: &Sheet, i: u16, cycle: u16, unit: Unit, first: Option<u16>) -> Option<u16>
    requires in_plan { i < length sheet.now.plan.insns }
    requires ready { IsReady (insns_of sheet.now.plan) sheet.now.spots i }
    requires after { IsAfter (insns_of sheet.now.plan) sheet.now.spots i cycle }
    requires within { cycle < 5 * length sheet.now.plan.insns }
    requires first { IsFirstBefore (insns_of sheet.now.plan) sheet.now.spots i cycle (index_of unit) first }
    ensures { IsFirstBefore (insns_of sheet.now.plan) sheet.now.spots i cycle (index_of unit + 1) result }
{
    let plan = sheet.plan();
    let q = sheet.last_at(Spot { cycle, unit });
    if !is_in_the_way(sheet, i, cycle, q) {
        return first;
    }
    match first {
        Some(k) => {
            if makes_way_before(plan, k, q) {
                first
            } else {
                Some(q)
            }
        }
        None => Some(q),
    }
}

/// The victim of a ready instruction. No other than those that stand in its early cycle are asked.
pub(crate) fn victim(sheet: &Sheet, i: u16) -> Option<u16>
    requires in_plan { i < length sheet.now.plan.insns }
    requires ready { IsReady (insns_of sheet.now.plan) sheet.now.spots i }
    ensures { FindsVictim (insns_of sheet.now.plan) sheet.now.spots i result }
{
    let plan = sheet.plan();
    let cycle = sheet.early(i);
    if cycle >= 5 * plan.len() {
        return None;
    }
    let mut first = None;
    for unit in Unit::ALL {
        first = first_up_to(sheet, i, cycle, unit, first);
    }
    first
}
