//! The shortest schedule that is found of a block.

ghost use Rattle.std.specs.Prelude.{IfOk};
ghost use Rattle.c62_depend.specs.Plan.{insns_of};
ghost use Rattle.c62_sheet.specs.Counts.{set_length};
ghost use Rattle.c62_sheet.specs.Least.{IsComplete};
ghost use Rattle.c62_shortest.specs.Shortest.{IsScheduleOf, IsShortest};
ghost use Rattle.c62_shortest.specs.Units.{AreWithUnits};

use crate::either_side::on_other_side;
use crate::listed::by_lists;
use crate::schedule::{Schedule, schedule_of};
use crate::searched::{Shortest, searched};
use c62_board::Board;
use c62_depend::Plan;
use c62_raised::raised_length;
use std::alloc::{AllocError, Global};

/// The shortest of a schedule and those that lists and then searches find by a plan with the same instructions. None is made
/// where the schedule is as short as the bound.
fn shortest_by(
    alloc: Global,
    plan: &Plan,
    by: &Plan,
    own: Schedule,
    bound: u32,
    nodes: &mut u32,
) -> Result<Shortest, AllocError>
    requires by { AreWithUnits (insns_of plan.now) (insns_of by.now) }
    requires own { IsScheduleOf plan.now own }
    ensures { IfOk result (IsShortest plan.now own.packets.cycles) }
{
    if u32::from(own.packets.length()) <= bound {
        return Ok(Shortest {
            schedule: own,
            least: 0,
        });
    }
    let best = by_lists(alloc, plan, by, own)?;
    searched(alloc, plan, by, best, bound, nodes)
}

/// Whether it is told that no schedule is shorter, by the bound or by a search.
fn is_told(found: &Shortest, bound: u32) -> bool {
    u32::from(found.schedule.packets.length()) <= bound.max(found.least)
}

/// The shortest of the schedules of a complete board's block that are tried: the board's own, those that lists find, those
/// that searches by at most `nodes` choices find, and where none of these is told to be the shortest, those that lists and
/// searches find with a branch to a block on its other side, where no unit is written for it (`docs/SCHEDULING.md`, "Shorter
/// by lists", "Search" and "Either side"). So it is a set that places all, lawful but for the side of such a branch, with no
/// more cycles than the board. Run as packets, it leaves what the block leaves run serially, in registers, memory and
/// faulted lines, and goes on where it does, from every sound machine. Where a search refuted that fewer cycles do, `least`
/// tells so. The same board and the same number give the same schedule.
///
/// # Errors
///
/// Where memory ran out.
pub fn shortest(alloc: Global, board: &Board, nodes: u32) -> Result<Shortest, AllocError>
    requires { IsComplete (insns_of board.now.plan) board.now.spots }
    ensures { IfOk result (IsShortest board.now.plan (set_length (insns_of board.now.plan) board.now.spots)) }
{
    let own = schedule_of(alloc, board)?;
    let plan = board.plan();
    let bound = raised_length(plan);
    let mut left = nodes;
    let found = shortest_by(alloc, plan, plan, own, bound, &mut left)?;
    if is_told(&found, bound) {
        return Ok(found);
    }
    match on_other_side(alloc, plan)? {
        Some(by) => shortest_by(alloc, plan, &by, found.schedule, bound, &mut left),
        None => Ok(found),
    }
}
