//! The packets of a board, and of any lawful spots.

ghost use Rattle.std.specs.Prelude.{◌≡◌, ◌≤◌, length, map, Some, IfOk, MatchResult};
ghost use Rattle.c62_read.specs.declared.limits.TheConstants.{MOST_INSTRUCTIONS};
ghost use Rattle.c62_depend.specs.Plan.{insns_of};
ghost use Rattle.c62_sheet.specs.Lawful.{IsLawful};
ghost use Rattle.c62_sheet.specs.Least.{IsComplete};
ghost use Rattle.c62_meaning.specs.Laws.{AreSerial};
ghost use Rattle.c62_pipe.specs.Chain.{IsBlockPacked};
ghost use Rattle.c62_pack.specs.EitherSide.{IsLawfulOnEitherSide};
ghost use Rattle.c62_pack.specs.Packets.{ArePackets, ArePlaced, IsAtFault};

use crate::arrange::{all_placed, arrange};
use crate::fault::AtFault;
use c62_board::Board;
use c62_depend::Plan;
use c62_packet::{PacketBlock, Placed};
use c62_sheet::{Spot, are_lawful};
use std::alloc::{AllocError, Global};

/// The spots of a complete board, by number.
fn spots_of(alloc: Global, board: &Board) -> Result<Vec<Spot>, AllocError>
    requires { IsComplete (insns_of board.now.plan) board.now.spots }
    ensures { IfOk result (λ spots. map Some spots.items ≡ board.now.spots) }
{
    let count = board.plan().len();
    let mut spots = Vec::with_capacity(alloc, usize::from(count))?;
    for number in 0..count {
        let Some(spot) = board.spot_of(number) else {
            unreachable!()
        };
        spots.push(spot)?;
    }
    Ok(spots)
}

/// The packets of a complete board: its instructions in listing order, each with its line, and with the unit written on
/// which it stands; its label, and its length in cycles. Run as packets, they leave what the board's block leaves run
/// serially, in registers, memory and faulted lines, and go on where it does, from every sound machine.
///
/// # Errors
///
/// Where memory ran out.
#[tactic(auto, using(crate::proofs::EitherSide::on_own_side))]
pub fn packets_of(alloc: Global, board: &Board) -> Result<PacketBlock, AllocError>
    requires { IsComplete (insns_of board.now.plan) board.now.spots }
    ensures packets { IfOk result (ArePackets board.now.plan board.now.spots) }
    ensures serial { IfOk result (λ block. AreSerial board.now.plan.insns block.placed) }
    ensures block { IfOk result (IsBlockPacked board.now.plan) }
{
    let spots = spots_of(alloc, board)?;
    arrange(alloc, board.plan(), &spots)
}

/// The instructions of a complete board on their spots, in the order of its block, each with its line, and with the unit
/// written on which it stands.
///
/// # Errors
///
/// Where memory ran out.
#[tactic(auto, using(crate::proofs::EitherSide::on_own_side))]
pub fn placed_of(alloc: Global, board: &Board) -> Result<Vec<Placed>, AllocError>
    requires { IsComplete (insns_of board.now.plan) board.now.spots }
    ensures placed { IfOk result (λ placed. ArePlaced board.now.plan board.now.spots placed.items) }
    ensures count { IfOk result (λ placed. length placed.items ≡ length board.now.plan.insns) }
    ensures few { IfOk result (λ placed. length placed.items ≤ MOST_INSTRUCTIONS) }
{
    let spots = spots_of(alloc, board)?;
    let plan = board.plan();
    let _all = plan.len();
    let placed = all_placed(alloc, plan, &spots)?;
    Ok(placed)
}

/// The instructions of a plan on lawful spots, a branch to a block on either side, as [`placed_of`] has them of a board.
///
/// # Errors
///
/// Where memory ran out.
pub fn placed_at(alloc: Global, plan: &Plan, spots: &[Spot]) -> Result<Vec<Placed>, AllocError>
    requires { IsLawfulOnEitherSide (insns_of plan.now) (map Some spots.now) }
    ensures placed { IfOk result (λ placed. ArePlaced plan.now (map Some spots.now) placed.items) }
    ensures count { IfOk result (λ placed. length placed.items ≡ length plan.now.insns) }
    ensures few { IfOk result (λ placed. length placed.items ≤ MOST_INSTRUCTIONS) }
{
    let _all = plan.len();
    let placed = all_placed(alloc, plan, spots)?;
    Ok(placed)
}

/// The packets of a plan whose instruction `i` stands at spot `i`, as [`packets_of`] has them of a board, for any lawful
/// spots, least or not.
///
/// # Errors
///
/// `NotLawful` exactly where the spots are not a lawful complete set of placements of the plan (`docs/SCHEDULING.md`,
/// "Lawful"), and `Memory` where memory ran out.
#[tactic(auto, using(crate::proofs::EitherSide::on_own_side))]
pub fn packets_at(alloc: Global, plan: &Plan, spots: &[Spot]) -> Result<PacketBlock, AtFault>
    ensures packets { IfOk result (ArePackets plan.now (map Some spots.now)) }
    ensures serial { IfOk result (λ block. AreSerial plan.now.insns block.placed) }
    ensures block { IfOk result (IsBlockPacked plan.now) }
    ensures fault { MatchResult result (λ _. IsLawful (insns_of plan.now) (map Some spots.now))
        (IsAtFault plan.now spots.now) }
{
    if !are_lawful(plan, spots) {
        return Err(AtFault::NotLawful);
    }
    match arrange(alloc, plan, spots) {
        Ok(block) => Ok(block),
        Err(_) => Err(AtFault::Memory),
    }
}

/// The packets of a plan whose instruction `i` stands at spot `i`, as [`packets_of`] has them of a board, for lawful spots
/// with a branch to a block on either side (`docs/SCHEDULING.md`, "Either side").
///
/// # Errors
///
/// Where memory ran out.
pub fn packets_on_either_side(
    alloc: Global,
    plan: &Plan,
    spots: &[Spot],
) -> Result<PacketBlock, AllocError>
    requires { IsLawfulOnEitherSide (insns_of plan.now) (map Some spots.now) }
    ensures packets { IfOk result (ArePackets plan.now (map Some spots.now)) }
    ensures serial { IfOk result (λ block. AreSerial plan.now.insns block.placed) }
    ensures block { IfOk result (IsBlockPacked plan.now) }
{
    arrange(alloc, plan, spots)
}
