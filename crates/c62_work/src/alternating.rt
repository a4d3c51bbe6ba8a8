//! Steps of both sides in turn.

ghost use Rattle.std.specs.Prelude.{IsTrue, ◌↔◌};
ghost use Rattle.c62_work.specs.Turns.{GoesOn, TakesTurns};

use c62_board::{Board, Turn};
use c62_insn::Side;

/// Whether the sides go on after this turn.
pub fn goes_on(turn: Turn) -> bool
    ensures { IsTrue result ↔ GoesOn turn }
{
    match turn {
        Turn::Placed(_, _) | Turn::Ejected(_, _, _) | Turn::Idle => true,
        Turn::Done | Turn::NoRoom(_) | Turn::Memory => false,
    }
}

/// Steps of sides A and B alternately, A first, until one is [`Turn::Done`], [`Turn::NoRoom`] or [`Turn::Memory`], which is
/// the answer. The board stands after the steps before it (`docs/SCHEDULING.md`, "Turns").
pub fn turns(board: &mut Board) -> Turn
    ensures { TakesTurns board.old result board.new }
{
    loop {
        board.plan();
        let first = board.step(Side::A);
        if !goes_on(first) {
            return first;
        }
        let second = board.step(Side::B);
        if !goes_on(second) {
            return second;
        }
    }
}
