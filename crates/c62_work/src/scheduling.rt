//! Two workers and one lock.

ghost use Rattle.std.specs.Prelude.{IfOk};
ghost use Rattle.c62_work.specs.Schedule.{IsWhole};

use crate::bells::Bells;
use crate::finishing::finish;
use crate::gate::Gate;
use crate::workers::work;
use c62_board::Board;
use c62_depend::Plan;
use c62_insn::Side;
use c62_view::{Desk, DeskFault, Viewer, desk_of};
use std::alloc::{AllocError, Global};
use std::sync::{Mutex, Wait};
use std::thread::{self, Threads};

/// How many turns each worker makes at most, and how many ejections there may be.
#[derive(Clone, Copy, PartialEq, Eq, Debug)]
pub struct Options {
    /// The most turns of a worker.
    pub turns: u32,
    /// The most ejections of the whole schedule.
    pub budget: u16,
}

/// A worker beside another one, which learns when this one has ended.
fn beside<R: Wait, G: Gate>(
    rt: &R,
    desk: &Mutex<Desk>,
    mut viewer: Viewer,
    side: Side,
    turns: u32,
    gate: &G,
    bells: &Bells,
) {
    work(rt, desk, &mut viewer, side, turns, gate, Some(bells));
    bells.ended(side);
}

/// A worker for each side, side A's on a thread of its own. Where no thread can be made, it comes first on this one, and
/// neither waits for the other.
fn both<R: Threads + Wait + Sync, G: Gate + Sync>(
    rt: &R,
    desk: &Mutex<Desk>,
    first: Viewer,
    second: Viewer,
    turns: u32,
    gate: &G,
) {
    let bells = Bells::new();
    let bells = &bells;
    thread::scope(thread::scope_env(), rt, move |scope| {
        match scope.spawn(move || beside(rt, desk, first, Side::A, turns, gate, bells)) {
            Ok(thread) => {
                beside(rt, desk, second, Side::B, turns, gate, bells);
                thread.join(rt);
            }
            Err(refused) => {
                bells.ended(Side::B);
                (refused.value)();
                beside(rt, desk, second, Side::B, turns, gate, bells);
            }
        }
    });
}

/// The board once two workers had their turns on it, or as it was where viewers had no place.
fn worked<R: Threads + Wait + Sync, G: Gate + Sync>(
    rt: &R,
    alloc: Global,
    board: Board,
    turns: u32,
    gate: &G,
) -> Result<Board, AllocError> {
    let (desk, first, second) = match desk_of(rt, alloc, board) {
        Ok(made) => made,
        Err((board, DeskFault::NoSeat)) => return Ok(board),
        Err((_, DeskFault::Memory)) => return Err(AllocError),
    };
    let shared = Mutex::new(desk);
    both(rt, &shared, first, second, turns, gate);
    Ok(shared.into_inner().close(rt))
}

/// Places the instructions of a plan by two workers, one for each side, each on a thread of its own, and finishes what
/// they leave. The board is complete and of the plan given, however the turns fell and wherever a worker stopped.
///
/// # Errors
///
/// `AllocError` where memory runs out. The plan is then dropped.
pub fn schedule<R: Threads + Wait + Sync, G: Gate + Sync>(
    rt: &R,
    alloc: Global,
    plan: Plan,
    options: Options,
    gate: &G,
) -> Result<Board, AllocError>
    ensures { IfOk result (IsWhole plan) }
{
    let given = plan.copy(alloc)?;
    let Ok(board) = Board::new(alloc, plan, options.budget) else {
        return Err(AllocError);
    };
    let placed = worked(rt, alloc, board, options.turns, gate)?;
    let board = finish(alloc, placed, &given)?;
    board.plan();
    Ok(board)
}
