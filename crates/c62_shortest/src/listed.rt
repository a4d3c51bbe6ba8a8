//! The shortest of the schedules that lists find.

ghost use Rattle.std.specs.Prelude.{◌≤◌, IfOk};
ghost use Rattle.c62_depend.specs.Plan.{insns_of};
ghost use Rattle.c62_shortest.specs.Shortest.{IsScheduleOf};
ghost use Rattle.c62_shortest.specs.Units.{AreWithUnits};

use crate::schedule::{Schedule, shorter};
use c62_depend::Plan;
use c62_sheet::Spot;
use c62_tries::{Order, Way, listed, spots_in};
use std::alloc::{AllocError, Global};

/// The cycles of spots.
fn cycles_of(alloc: Global, spots: &[Spot]) -> Result<Vec<u16>, AllocError> {
    let mut cycles = Vec::with_capacity(alloc, spots.len())?;
    for spot in spots {
        cycles.push(spot.cycle)?;
    }
    Ok(cycles)
}

/// The shorter of a schedule and the one with the instructions in these cycles, where that is lawful by a plan with the same
/// instructions.
fn shorter_in(
    alloc: Global,
    plan: &Plan,
    by: &Plan,
    best: Schedule,
    cycles: &[u16],
) -> Result<Schedule, AllocError>
    requires by { AreWithUnits (insns_of plan.now) (insns_of by.now) }
    requires best { IsScheduleOf plan.now best }
    ensures is { IfOk result (IsScheduleOf plan.now) }
    ensures no_longer { IfOk result (λ found. found.packets.cycles ≤ best.packets.cycles) }
{
    let spots = spots_in(alloc, by, cycles)?;
    shorter(alloc, plan, by, best, spots)
}

/// The shorter of a schedule and what these cycles become when the instructions are placed again, from the end of the block
/// and then from its begin.
fn justified(
    alloc: Global,
    plan: &Plan,
    by: &Plan,
    best: Schedule,
    cycles: &[u16],
) -> Result<Schedule, AllocError>
    requires by { AreWithUnits (insns_of plan.now) (insns_of by.now) }
    requires best { IsScheduleOf plan.now best }
    ensures is { IfOk result (IsScheduleOf plan.now) }
    ensures no_longer { IfOk result (λ found. found.packets.cycles ≤ best.packets.cycles) }
{
    let late = Order::by_cycle(alloc, cycles, Way::Backward)?;
    let back = listed(alloc, by, &late)?;
    let best = shorter_in(alloc, plan, by, best, &back)?;
    let soon = Order::by_cycle(alloc, &back, Way::Forward)?;
    let forth = listed(alloc, by, &soon)?;
    shorter_in(alloc, plan, by, best, &forth)
}

/// The shortest of a schedule and of what lists find by a plan with the same instructions: one from the first cycle by
/// height, one from the last cycle by depth, and each of the two and the schedule placed again from both ends.
///
/// # Errors
///
/// Where memory ran out.
pub(crate) fn by_lists(
    alloc: Global,
    plan: &Plan,
    by: &Plan,
    own: Schedule,
) -> Result<Schedule, AllocError>
    requires by { AreWithUnits (insns_of plan.now) (insns_of by.now) }
    requires own { IsScheduleOf plan.now own }
    ensures is { IfOk result (IsScheduleOf plan.now) }
    ensures no_longer { IfOk result (λ found. found.packets.cycles ≤ own.packets.cycles) }
{
    let cycles = cycles_of(alloc, &own.spots)?;
    let forward = listed(alloc, by, &Order::by_height(alloc, by)?)?;
    let best = shorter_in(alloc, plan, by, own, &forward)?;
    let backward = listed(alloc, by, &Order::by_depth(alloc, by)?)?;
    let best = shorter_in(alloc, plan, by, best, &backward)?;
    let best = justified(alloc, plan, by, best, &backward)?;
    let best = justified(alloc, plan, by, best, &forward)?;
    justified(alloc, plan, by, best, &cycles)
}
