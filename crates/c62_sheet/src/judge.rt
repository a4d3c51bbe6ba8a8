//! Which placements are lawful, what is ready, and where it goes.

ghost use Rattle.std.specs.Prelude.{◌≡◌, ◌↔◌, ℕ, ◌<◌, ◌≤◌, ◌+◌, ◌*◌, ◌∷◌, length, None, IsTrue, MatchOption, take};
ghost use Rattle.c62_op.specs.Units.{index_of};
ghost use Rattle.c62_sheet.specs.LeastOn.{IsFirstRoom, IsFirstOn, FindsLeastAmong};
ghost use Rattle.c62_rules.specs.PacketRules.{KeepsPacketRules};
ghost use Rattle.c62_depend.specs.Plan.{insns_of};
ghost use Rattle.c62_op.specs.declared.register.Unit.{Unit as FunctionalUnit};
ghost use Rattle.c62_insn.specs.UnitSet.{unit_in};
ghost use Rattle.c62_depend.specs.Side.{stands_on};
ghost use Rattle.c62_sheet.specs.Lawful.{spot_at, withdrawn, issues, IsLawful};
ghost use Rattle.c62_sheet.specs.Least.{IsReady, IsAfter, IsEarly, IsLeast, FindsLeast, IsLast, FitsWithout};
ghost use Rattle.c62_sheet.specs.Check.{Judges};
ghost use Rattle.c62_sheet.specs.Index.{IsIndex};
ghost use Rattle.c62_sheet.specs.Rows.{AreRows, FitsRow};

use crate::entry::{Rule, Spot, Unlawful};
use crate::rows::row_without;
use c62_depend::Plan;
use c62_insn::{Insn, Unit, UnitSet};
use c62_row::{Row, Uses};

/// Whether instruction `i` may be placed at a spot, or the first rule against it. Its early cycle is given.
pub(crate) fn check(
    plan: &Plan,
    spots: &[Option<Spot>],
    missing: &[u16],
    rows: &[Row],
    first: u16,
    i: u16,
    spot: Spot,
) -> Result<(), Unlawful>
    requires lawful { IsLawful (insns_of plan.now) spots.now }
    requires index { IsIndex (insns_of plan.now) spots.now missing.now }
    requires rows { AreRows (insns_of plan.now) spots.now rows.now }
    requires in_plan { i < length plan.now.insns }
    requires early { IsEarly (insns_of plan.now) spots.now i first }
    ensures { Judges (insns_of plan.now) spots.now i spot result }
{
    let cycle = spot.cycle;
    if spots[usize::from(i)].is_some() {
        return Err(Unlawful {
            rule: Rule::Placed,
            cycle,
        });
    }
    if !plan.units(i).has(spot.unit) {
        return Err(Unlawful {
            rule: Rule::Unit,
            cycle,
        });
    }
    if cycle >= 5 * plan.len() {
        return Err(Unlawful {
            rule: Rule::Limit,
            cycle,
        });
    }
    if missing[usize::from(i)] > 0 {
        return Err(Unlawful {
            rule: Rule::Missing,
            cycle,
        });
    }
    if cycle < first {
        return Err(Unlawful {
            rule: Rule::Delay,
            cycle: first,
        });
    }
    match rows[usize::from(cycle)].rule_against(&Uses::of(plan.insn(i), spot.unit)) {
        Some(rule) => Err(Unlawful {
            rule: Rule::InCycle(rule),
            cycle,
        }),
        None => Ok(()),
    }
}

/// Whether an instruction is not placed, and all that it depends on is.
pub(crate) fn is_ready(plan: &Plan, spots: &[Option<Spot>], missing: &[u16], i: u16) -> bool
    requires lawful { IsLawful (insns_of plan.now) spots.now }
    requires index { IsIndex (insns_of plan.now) spots.now missing.now }
    requires in_plan { i < length plan.now.insns }
    ensures { IsTrue result ↔ IsReady (insns_of plan.now) spots.now i }
{
    spots[usize::from(i)].is_none() && missing[usize::from(i)] == 0
}

/// Whether an instruction that may stand on these units may stand on one of them beside those that take a row.
fn fits(row: &Row, units: UnitSet, insn: Insn, unit: Unit) -> bool
    ensures { IsTrue result ↔ FitsRow row.now units insn unit }
{
    units.has(unit) && row.fits(&Uses::of(insn, unit))
}

/// The first of some cycles in which there is room for an instruction that takes so much, and their end where there is none.
fn first_room(rows: &[Row], uses: &Uses, first: u16, end: u16) -> u16
    requires { end ≤ length rows.now }
    ensures { IsFirstRoom rows.now uses.now first end result }
{
    for cycle in first..end {
        if rows[usize::from(cycle)].fits(uses) {
            return cycle;
        }
    }
    end
}

/// The first cycle in which a ready instruction may be placed on a unit, and the end where there is none before it. What the
/// instruction takes there is made once for all cycles. Its early cycle is given.
fn first_on(
    plan: &Plan,
    spots: &[Option<Spot>],
    rows: &[Row],
    first: u16,
    i: u16,
    unit: Unit,
    end: u16,
) -> u16
    requires lawful { IsLawful (insns_of plan.now) spots.now }
    requires rows { AreRows (insns_of plan.now) spots.now rows.now }
    requires in_plan { i < length plan.now.insns }
    requires ready { IsReady (insns_of plan.now) spots.now i }
    requires early { IsEarly (insns_of plan.now) spots.now i first }
    requires within { end ≤ 5 * length (insns_of plan.now) }
    ensures { IsFirstOn (insns_of plan.now) spots.now i unit end result }
{
    if end <= first || !plan.units(i).has(unit) {
        return end;
    }
    first_room(rows, &Uses::of(plan.insn(i), unit), first, end)
}

/// The cycle before which a spot is looked for: that of the one that was found, and else the limit.
fn end_of(plan: &Plan, found: Option<Spot>) -> u16
    ensures { MatchOption found (result ≡ 5 * length (insns_of plan.now)) (λ spot. result ≡ spot.cycle) }
{
    match found {
        Some(spot) => spot.cycle,
        None => 5 * plan.len(),
    }
}

/// The least spot of a ready instruction among those on the units up to this one, where that among the units before it is
/// given.
fn least_with(
    plan: &Plan,
    spots: &[Option<Spot>],
    rows: &[Row],
    first: u16,
    i: u16,
    found: Option<Spot>,
    unit: Unit,
) -> Option<Spot>
    requires lawful { IsLawful (insns_of plan.now) spots.now }
    requires rows { AreRows (insns_of plan.now) spots.now rows.now }
    requires in_plan { i < length plan.now.insns }
    requires ready { IsReady (insns_of plan.now) spots.now i }
    requires early { IsEarly (insns_of plan.now) spots.now i first }
    requires found { FindsLeastAmong (insns_of plan.now) spots.now i (index_of unit) found }
    ensures { FindsLeastAmong (insns_of plan.now) spots.now i (index_of unit + 1) result }
{
    let end = end_of(plan, found);
    let cycle = first_on(plan, spots, rows, first, i, unit, end);
    if cycle < end {
        Some(Spot { cycle, unit })
    } else {
        found
    }
}

/// The least spot of a ready instruction: the first cycle, and there the first unit, at which it may be placed. Its early
/// cycle is given.
pub(crate) fn least(
    plan: &Plan,
    spots: &[Option<Spot>],
    rows: &[Row],
    first: u16,
    i: u16,
) -> Option<Spot>
    requires lawful { IsLawful (insns_of plan.now) spots.now }
    requires rows { AreRows (insns_of plan.now) spots.now rows.now }
    requires in_plan { i < length plan.now.insns }
    requires ready { IsReady (insns_of plan.now) spots.now i }
    requires early { IsEarly (insns_of plan.now) spots.now i first }
    ensures { FindsLeast (insns_of plan.now) spots.now i result }
{
    let mut found = None;
    for unit in Unit::ALL {
        found = least_with(plan, spots, rows, first, i, found, unit);
    }
    found
}

/// Whether a ready instruction keeps the packet rules in a cycle, on some unit, once instruction `q` is taken out alone.
pub(crate) fn fits_without(
    plan: &Plan,
    spots: &[Option<Spot>],
    rows: &[Row],
    i: u16,
    cycle: u16,
    q: u16,
) -> bool
    requires lawful { IsLawful (insns_of plan.now) spots.now }
    requires rows { AreRows (insns_of plan.now) spots.now rows.now }
    requires in_plan { i < length plan.now.insns }
    requires ready { IsReady (insns_of plan.now) spots.now i }
    requires after { IsAfter (insns_of plan.now) spots.now i cycle }
    requires other { q < length plan.now.insns }
    ensures { IsTrue result ↔ FitsWithout (insns_of plan.now) spots.now i cycle q }
{
    let units = plan.units(i);
    let insn = plan.insn(i);
    let row = row_without(plan, spots, rows, cycle, q);
    for unit in Unit::ALL {
        if fits(&row, units, insn, unit) {
            return true;
        }
    }
    false
}

/// Whether no placed instruction depends on instruction `i`.
pub(crate) fn is_last(plan: &Plan, spots: &[Option<Spot>], i: u16) -> bool
    requires lawful { IsLawful (insns_of plan.now) spots.now }
    requires in_plan { i < length plan.now.insns }
    ensures { IsTrue result ↔ IsLast (insns_of plan.now) spots.now i }
{
    let followers = plan.followers(i);
    for link in followers {
        if spots[usize::from(link.number)].is_some() {
            return false;
        }
    }
    true
}

/// Whether a spot is the least one of a ready instruction. Its early cycle is given.
pub(crate) fn is_least(
    plan: &Plan,
    spots: &[Option<Spot>],
    rows: &[Row],
    first: u16,
    i: u16,
    spot: Spot,
) -> bool
    requires lawful { IsLawful (insns_of plan.now) spots.now }
    requires rows { AreRows (insns_of plan.now) spots.now rows.now }
    requires in_plan { i < length plan.now.insns }
    requires ready { IsReady (insns_of plan.now) spots.now i }
    requires early { IsEarly (insns_of plan.now) spots.now i first }
    ensures { IsTrue result ↔ IsLeast (insns_of plan.now) spots.now i spot }
{
    match least(plan, spots, rows, first, i) {
        None => false,
        Some(found) => is_same_spot(found, spot),
    }
}

fn is_same_spot(a: Spot, b: Spot) -> bool
    ensures { IsTrue result ↔ (a ≡ b) }
{
    a == b
}
