//! What is left when the sides have stopped.

ghost use Rattle.std.specs.Prelude.{◌≡◌, IfOk, OnOk, IsTrue, MatchBool, length};
ghost use Rattle.c62_depend.specs.Plan.{insns_of};
ghost use Rattle.c62_board.specs.State.{nothing_of};
ghost use Rattle.c62_work.specs.Finish.{FillsOut, CannotFill, IsFinished, IsBoardFor};

use c62_board::{Board, PlaceFault, Who};
use c62_depend::Plan;
use std::alloc::{AllocError, Global};

/// Places the lowest number that is not placed, again and again. Answers whether each found a spot.
fn fill(board: &mut Board) -> Result<bool, AllocError>
    ensures filled { IfOk result (λ found. MatchBool found (FillsOut board.old board.new) (CannotFill board.old)) }
    ensures from_nothing { board.old.spots ≡ nothing_of board.old.plan → IfOk result (λ found. IsTrue found) }
    ensures plan { board.new.plan ≡ board.old.plan }
    ensures budget { board.new.budget ≡ board.old.budget }
{
    for i in 0..board.plan().len() {
        if board.spot_of(i).is_none() {
            match board.place(i, Who::Tail) {
                Ok(_) => {}
                Err(PlaceFault::NoRoom) => return Ok(false),
                Err(PlaceFault::NotReady) => unreachable!(),
                Err(PlaceFault::Memory) => return Err(AllocError),
            }
        }
    }
    Ok(true)
}

/// The board, or an empty one with its budget where it is of another plan.
fn board_for(alloc: Global, board: Board, plan: &Plan) -> Result<Board, AllocError>
    ensures { IfOk result (IsBoardFor board plan.now) }
{
    if board.plan().same(plan) {
        return Ok(board);
    }
    match Board::new(alloc, plan.copy(alloc)?, board.budget()) {
        Ok(board) => Ok(board),
        Err((_, error)) => Err(error),
    }
}

/// A complete board of the plan, with the budget of the board given. Where that is of this plan, and each number that it
/// lacks finds a spot when they are placed in rising order, these placings are added to its journal. Otherwise all numbers
/// are placed in rising order on an empty board.
///
/// # Errors
///
/// Where memory ran out.
pub fn finish(alloc: Global, board: Board, plan: &Plan) -> Result<Board, AllocError>
    ensures { IfOk result (IsFinished board plan.now) }
{
    let mut board = board_for(alloc, board, plan)?;
    if !fill(&mut board)? {
        board.clear();
        fill(&mut board)?;
    }
    Ok(board)
}
