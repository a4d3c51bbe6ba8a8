//! Calls on boards.

ghost use Rattle.std.specs.Prelude.{◌≡◌, ◌<◌, ◌++◌, length, None, IfSome, MatchOption, true, false};
ghost use Rattle.c62_depend.specs.Plan.{insns_of};
ghost use Rattle.c62_sheet.specs.Least.{Picks};
ghost use Rattle.c62_refusals.specs.Placing.{among, IsNext, IsProposed, IsFirst};

use crate::answer::{refused, taken};
use crate::given::{BUDGET, begun_board, plan_of, whole_board};
use crate::seen::{look_at, look_of};
use crate::twice::{Came, twice, twice_on};
use c62_board::{Board, CommitFault, Entry, PlaceFault, Proposal, ReplayFault, Who, WithdrawFault};
use c62_depend::Plan;
use c62_insn::Side;
use c62_work::{finish, turns};
use std::alloc::Global;

/// Begins a board of the plan, or puts it back.
fn begin_board(alloc: Global, plan: &mut Option<Plan>) -> Option<u64>
    ensures { result ≡ None → plan.new ≡ plan.old }
{
    match Board::new(alloc, plan.take()?, BUDGET) {
        Ok(board) => Some(look_at(&board)),
        Err((back, _)) => {
            *plan = Some(back);
            None
        }
    }
}

/// Begins a board of a plan, which comes back.
pub(crate) fn begins(alloc: Global, text: &str) -> Option<Came> {
    twice(Some(plan_of(alloc, text)?), |plan| begin_board(alloc, plan))
}

/// A board's plan, and its journal.
fn course_of(alloc: Global, board: &Board) -> Option<(Plan, Vec<Entry>)>
    ensures { IfSome result (λ course. (course.0 ≡ board.now.plan) × (course.1.items ≡ board.now.journal)) }
{
    let Ok(plan) = board.plan().copy(alloc) else {
        return None;
    };
    let Ok(entries) = Vec::from_slice(alloc, board.journal()) else {
        return None;
    };
    Some((plan, entries))
}

/// Replays the entries, or puts the plan back.
fn replay_board(alloc: Global, plan: &mut Option<Plan>, entries: &[Entry]) -> Option<u64>
    ensures { result ≡ None → plan.new ≡ plan.old }
{
    match Board::replay(alloc, plan.take()?, BUDGET, entries) {
        Ok(board) => Some(look_at(&board)),
        Err((back, fault)) => {
            *plan = Some(back);
            refused(matches!(fault, ReplayFault::Memory))
        }
    }
}

/// Replays the journal of a whole board with its plan, which comes back.
pub(crate) fn replays(alloc: Global, text: &str) -> Option<Came> {
    let (plan, entries) = course_of(alloc, &whole_board(alloc, text)?)?;
    twice(Some(plan), |plan| replay_board(alloc, plan, &entries))
}

/// A side that has something to place, where one has.
pub(crate) fn side_of(board: &Board) -> Side {
    match board.pick(Side::A) {
        Some(_) => Side::A,
        None => Side::B,
    }
}

/// The number, where the board's plan has it.
fn among(board: &Board, number: u16) -> Option<u16>
    ensures { result ≡ among board.now number }
{
    if number < board.plan().len() {
        Some(number)
    } else {
        None
    }
}

/// What that side is to place.
fn next_of(board: &Board) -> Option<u16>
    ensures { IfSome result (IsNext board.now) }
{
    among(board, board.pick(side_of(board))?)
}

/// That, at its least spot.
pub(crate) fn proposed(board: &Board) -> Option<Proposal>
    ensures { IfSome result (IsProposed board.now) }
{
    let number = next_of(board)?;
    if !board.ready(number) {
        return None;
    }
    Some(Proposal {
        number,
        spot: board.least(number)?,
        seen: board.journal().len(),
    })
}

/// Tells what a side is about to do.
pub(crate) fn looks_ahead(alloc: Global, text: &str) -> Option<Came> {
    twice(begun_board(alloc, text)?, |board| {
        let (turn, entries) = board.ahead(side_of(board)).ok()?;
        Some(look_of(&(turn, entries.as_slice()), board))
    })
}

/// Makes room for entries.
pub(crate) fn makes_room(alloc: Global, text: &str) -> Option<Came> {
    twice(begun_board(alloc, text)?, |board| {
        board.room(100).ok()?;
        Some(look_at(board))
    })
}

/// Places what is next.
pub(crate) fn places(alloc: Global, text: &str) -> Option<Came> {
    twice(begun_board(alloc, text)?, |board| {
        let number = next_of(board)?;
        match board.place(number, Who::Tail) {
            Ok(spot) => Some(look_of(&spot, board)),
            Err(fault) => refused(matches!(fault, PlaceFault::Memory)),
        }
    })
}

/// Commits a proposal of what is next.
pub(crate) fn commits(alloc: Global, text: &str) -> Option<Came> {
    twice(begun_board(alloc, text)?, |board| {
        let proposal = proposed(board)?;
        match board.commit(&proposal, Who::Tail) {
            Ok(spot) => Some(look_of(&spot, board)),
            Err(fault) => refused(matches!(fault, CommitFault::Memory)),
        }
    })
}

/// What was placed first.
fn first_of(board: &Board) -> Option<u16>
    ensures { IfSome result (IsFirst board.now) }
{
    match *board.journal().first()? {
        Entry::Place(number, _, _) | Entry::Withdraw(number, _) => among(board, number),
    }
}

/// Withdraws what was placed first, with all that depends on it.
pub(crate) fn withdraws(alloc: Global, text: &str) -> Option<Came> {
    twice(begun_board(alloc, text)?, |board| {
        let number = first_of(board)?;
        match board.withdraw(number, Who::Tail) {
            Ok(count) => Some(look_of(&count, board)),
            Err(fault) => refused(matches!(fault, WithdrawFault::Memory)),
        }
    })
}

/// Takes a side's turn.
pub(crate) fn steps(alloc: Global, text: &str) -> Option<Came> {
    twice(begun_board(alloc, text)?, |board| {
        let turn = board.step(side_of(board));
        Some(look_of(&taken(turn)?, board))
    })
}

/// Takes all turns of both sides. Those before a refused one stay: the journal is then a front of the whole one.
pub(crate) fn turns_taken(alloc: Global, text: &str) -> Option<Came> {
    let (plan, whole) = course_of(alloc, &whole_board(alloc, text)?)?;
    let Ok(mut board) = Board::new(alloc, plan, BUDGET) else {
        return None;
    };
    let came = twice_on(
        &mut board,
        &|board| look_of(&whole.starts_with(board.journal()), board.plan()),
        &|board| {
            let turn = turns(board);
            Some(look_of(&taken(turn)?, board))
        },
    );
    Some(came)
}

/// Places what a board lacks.
pub(crate) fn finishes(alloc: Global, text: &str) -> Option<Came> {
    let (plan, entries) = course_of(alloc, &begun_board(alloc, text)?)?;
    twice(plan, |plan| {
        let copy = plan.copy(alloc).ok()?;
        let Ok(board) = Board::replay(alloc, copy, BUDGET, &entries) else {
            return None;
        };
        let finished = finish(alloc, board, plan).ok()?;
        Some(look_at(&finished))
    })
}
