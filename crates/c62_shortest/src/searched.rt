//! The shortest of the schedules that a search finds.

ghost use Rattle.std.specs.Prelude.{◌≡◌, IfOk};
ghost use Rattle.c62_depend.specs.Plan.{insns_of};
ghost use Rattle.c62_shortest.specs.Shortest.{IsScheduleOf, IsShortest};
ghost use Rattle.c62_shortest.specs.Units.{AreWithUnits};

use crate::schedule::{Schedule, shorter};
use c62_depend::Plan;
use c62_refute::{Search, search_for};
use std::alloc::{AllocError, Global};

/// The shortest schedule of a block that was found.
#[derive(Drop)]
pub struct Shortest {
    pub schedule: Schedule,
    /// How many cycles each schedule takes at least, as far as the search tells: 0 where it tells nothing.
    pub least: u32,
}

/// What one search came to.
#[derive(Drop)]
struct Step {
    found: Shortest,
    /// Whether another one may find a shorter one.
    goes_on: bool,
}

/// A schedule of which the search tells no more.
fn open(schedule: Schedule, goes_on: bool) -> Step
    ensures schedule { result.found.schedule ≡ schedule }
    ensures least { result.found.least ≡ 0 }
{
    Step {
        found: Shortest { schedule, least: 0 },
        goes_on,
    }
}

/// Searches for a schedule that is shorter than this one, by a plan with the same instructions.
fn once(
    alloc: Global,
    plan: &Plan,
    by: &Plan,
    best: Schedule,
    nodes: &mut u32,
) -> Result<Step, AllocError>
    requires by { AreWithUnits (insns_of plan.now) (insns_of by.now) }
    requires best { IsScheduleOf plan.now best }
    ensures { IfOk result (λ step. IsShortest plan.now best.packets.cycles step.found) }
{
    let cycles = best.packets.length();
    let Some(most) = cycles.checked_sub(1) else {
        return Ok(open(best, false));
    };
    match search_for(alloc, by, most, nodes)? {
        Search::Refuted => Ok(Step {
            found: Shortest {
                schedule: best,
                least: u32::from(cycles),
            },
            goes_on: false,
        }),
        Search::Open => Ok(open(best, false)),
        Search::Found(spots) => {
            let found = shorter(alloc, plan, by, best, spots)?;
            let goes_on = found.packets.length() < cycles;
            Ok(open(found, goes_on))
        }
    }
}

/// The shortest of a schedule and those that are found by searches, each for one that is shorter than the one before, by a
/// plan with the same instructions and by at most so many choices in all, of which those that were made are taken. They end
/// where a schedule is as short as the bound.
///
/// # Errors
///
/// Where memory ran out.
pub(crate) fn searched(
    alloc: Global,
    plan: &Plan,
    by: &Plan,
    best: Schedule,
    bound: u32,
    nodes: &mut u32,
) -> Result<Shortest, AllocError>
    requires by { AreWithUnits (insns_of plan.now) (insns_of by.now) }
    requires best { IsScheduleOf plan.now best }
    ensures { IfOk result (IsShortest plan.now best.packets.cycles) }
{
    let mut found = Shortest {
        schedule: best,
        least: 0,
    };
    for _ in 0..u16::MAX {
        if u32::from(found.schedule.packets.length()) <= bound {
            return Ok(found);
        }
        let step = once(alloc, plan, by, found.schedule, nodes)?;
        found = step.found;
        if !step.goes_on {
            return Ok(found);
        }
    }
    Ok(found)
}
