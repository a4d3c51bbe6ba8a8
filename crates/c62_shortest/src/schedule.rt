//! Schedules of a block: of a board, and shorter ones.

ghost use Rattle.std.specs.Prelude.{◌≡◌, ◌≤◌, length, map, Some, IfOk};
ghost use Rattle.c62_depend.specs.Plan.{insns_of};
ghost use Rattle.c62_sheet.specs.Counts.{set_length};
ghost use Rattle.c62_sheet.specs.Least.{IsComplete};
ghost use Rattle.c62_shortest.specs.Shortest.{IsScheduleOf};
ghost use Rattle.c62_shortest.specs.Units.{AreWithUnits};

use c62_board::Board;
use c62_depend::Plan;
use c62_pack::{packets_of, packets_on_either_side};
use c62_packet::PacketBlock;
use c62_sheet::{Spot, are_lawful};
use std::alloc::{AllocError, Global};

/// A schedule of a block: a set of placements in which each instruction is placed, lawful but that a branch to a block for
/// which no unit is written may stand on either side.
#[derive(Drop)]
pub struct Schedule {
    /// Where the instructions stand, by number.
    pub spots: Vec<Spot>,
    /// Their packets.
    pub packets: PacketBlock,
}

/// The spots of a complete board, by number.
fn spots_of(alloc: Global, board: &Board) -> Result<Vec<Spot>, AllocError>
    requires { IsComplete (insns_of board.now.plan) board.now.spots }
    ensures { IfOk result (λ spots. map Some spots.items ≡ board.now.spots) }
{
    let count = board.plan().len();
    let mut spots = Vec::with_capacity(alloc, usize::from(count))?;
    for number in 0..count {
        let Some(spot) = board.spot_of(number) else {
            unreachable!()
        };
        spots.push(spot)?;
    }
    Ok(spots)
}

/// The schedule of a complete board.
///
/// # Errors
///
/// Where memory ran out.
#[tactic(auto, using(crate::proofs::Schedules::of_board))]
pub(crate) fn schedule_of(alloc: Global, board: &Board) -> Result<Schedule, AllocError>
    requires { IsComplete (insns_of board.now.plan) board.now.spots }
    ensures is { IfOk result (IsScheduleOf board.now.plan) }
    ensures as_long { IfOk result (λ own. own.packets.cycles ≡ set_length (insns_of board.now.plan) board.now.spots) }
{
    // It tells what holds of every board.
    board.plan();
    let spots = spots_of(alloc, board)?;
    let packets = packets_of(alloc, board)?;
    Ok(Schedule { spots, packets })
}

/// The schedule with these spots, where they are lawful by a plan with the same instructions, place all and take fewer
/// cycles; else this one.
///
/// # Errors
///
/// Where memory ran out.
#[tactic(auto, using(crate::proofs::Schedules::of_spots, crate::proofs::EitherSide::on_either_side))]
pub(crate) fn shorter(
    alloc: Global,
    plan: &Plan,
    by: &Plan,
    best: Schedule,
    spots: Vec<Spot>,
) -> Result<Schedule, AllocError>
    requires by { AreWithUnits (insns_of plan.now) (insns_of by.now) }
    requires best { IsScheduleOf plan.now best }
    ensures is { IfOk result (IsScheduleOf plan.now) }
    ensures no_longer { IfOk result (λ found. found.packets.cycles ≤ best.packets.cycles) }
{
    if !are_lawful(by, &spots) {
        return Ok(best);
    }
    let packets = packets_on_either_side(alloc, plan, &spots)?;
    if packets.length() < best.packets.length() {
        Ok(Schedule { spots, packets })
    } else {
        Ok(best)
    }
}
