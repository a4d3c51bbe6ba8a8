//! Calls on desks.

ghost use Rattle.std.specs.Prelude.{◌≡◌, None};
ghost use Rattle.c62_refusals.specs.Twice.{if_published};

use crate::answer::{refused, taken};
use crate::given::begun_board;
use crate::placing::{proposed, side_of};
use crate::seen::{look_at, look_of};
use crate::twice::{Came, twice, twice_on};
use c62_board::{Board, CommitFault, Who};
use c62_insn::Side;
use c62_view::{Desk, DeskFault, desk_of};
use std::alloc::Global;
use std::sync::Wait;

/// Opens a desk of the board, or puts it back.
fn open_desk<R: Wait>(rt: &R, alloc: Global, board: &mut Option<Board>) -> Option<u64>
    ensures { result ≡ None → board.new ≡ board.old }
{
    match desk_of(rt, alloc, board.take()?) {
        Ok((desk, _, _)) => Some(look_at(&desk.close(rt))),
        Err((back, fault)) => {
            *board = Some(back);
            refused(matches!(fault, DeskFault::Memory))
        }
    }
}

/// Opens a desk of a board, which comes back.
pub(crate) fn opens<R: Wait>(rt: &R, alloc: Global, text: &str) -> Option<Came> {
    twice(
        Some(begun_board(alloc, text)?),
        |board| open_desk(rt, alloc, board),
    )
}

/// What came of a call at a desk: a refused one published nothing.
fn if_published(came: Came, published: bool) -> Came
    ensures { result ≡ if_published came published }
{
    match came {
        Came::Memory if published => Came::Changed,
        came => came,
    }
}

/// A call on a desk of a board. Where it is refused, nothing is published.
fn on_desk<R: Wait, F: Fn(&mut Desk) -> Option<u64>>(
    rt: &R,
    alloc: Global,
    board: Board,
    call: F,
) -> Option<Came>
    requires { F.IsAlwaysCallable call }
{
    let (mut desk, mut viewer, _other) = desk_of(rt, alloc, board).ok()?;
    let planned = (viewer.plan(Side::A), viewer.plan(Side::B));
    let came = twice_on(&mut desk, &|desk| look_at(desk.board()), &call);
    let plans = (viewer.plan(Side::A), viewer.plan(Side::B));
    desk.close(rt);
    Some(if_published(came, plans != planned))
}

/// Takes a side's turn at a desk.
pub(crate) fn steps<R: Wait>(rt: &R, alloc: Global, text: &str) -> Option<Came> {
    on_desk(rt, alloc, begun_board(alloc, text)?, |desk| {
        let turn = desk.step(rt, side_of(desk.board())).0;
        Some(look_of(&taken(turn)?, desk.board()))
    })
}

/// Commits a proposal at a desk.
pub(crate) fn commits<R: Wait>(rt: &R, alloc: Global, text: &str) -> Option<Came> {
    on_desk(rt, alloc, begun_board(alloc, text)?, |desk| {
        let proposal = proposed(desk.board())?;
        match desk.commit(rt, &proposal, Who::Tail) {
            Ok((spot, _)) => Some(look_of(&spot, desk.board())),
            Err(fault) => refused(matches!(fault, CommitFault::Memory)),
        }
    })
}
