//! A worker on a shared board.

ghost use Rattle.std.specs.Prelude.{◌≤◌};
ghost use Rattle.c62_work.specs.Worker.{IsWorkersTurn};

use crate::alternating::goes_on;
use crate::bells::Bells;
use crate::gate::Gate;
use c62_board::{CommitFault, Proposal, Turn, who_of};
use c62_insn::Side;
use c62_view::{Desk, Viewer};
use std::hint::spin_loop;
use std::sync::{Mutex, MutexGuard, Wait};
use std::thread::yield_now;

/// How long a side rests that found nothing to place.
const SPINS: u32 = 200;

/// How often the lock is tried before a worker sleeps for it.
const TRIES: u32 = 16;

/// How long a worker pauses between two tries.
const PAUSES: u32 = 8;

/// In so many turns a side that rests leaves its processor each time, so that the other side gets on where the two share one.
const PROMPT_TURNS: u32 = 4_096;

/// In later turns it does so once in so many: where all processors are busy it gets it back late, and a side whose other side
/// ended early rests in each of its turns.
const TURNS_A_YIELD: u32 = 64;

/// Leaves the lock to another worker, until that may have placed something on which this one waits.
fn rest(turn: u32) {
    for _ in 0..SPINS {
        spin_loop();
    }
    if turn < PROMPT_TURNS || turn % TURNS_A_YIELD == 0 {
        yield_now();
    }
}

/// Takes the lock. Whoever sleeps for it is woken by whoever lets it go, and the next one who comes then sleeps at once. So
/// it is tried a few times before that.
fn take<'a, R: Wait>(rt: &R, desk: &'a Mutex<Desk>) -> MutexGuard<'a, Desk> {
    for _ in 0..TRIES {
        if let Some(guard) = desk.try_lock() {
            return guard;
        }
        for _ in 0..PAUSES {
            spin_loop();
        }
    }
    desk.lock(rt)
}

/// What a side's turn comes to on a desk: what was planned is placed where no ejections are left and it may be committed, and
/// else the side's step is made.
fn turn_on<R: Wait>(rt: &R, desk: &mut Desk, planned: Option<Proposal>, side: Side) -> Turn
    ensures { IsWorkersTurn desk.old.board planned side result desk.new.board }
{
    let Some(proposal) = planned else {
        return desk.step(rt, side).0;
    };
    if desk.board().budget() > 0 {
        return desk.step(rt, side).0;
    }
    match desk.commit(rt, &proposal, who_of(side)) {
        Ok((spot, _)) => return Turn::Placed(proposal.number, spot),
        Err(CommitFault::Memory) => return Turn::Memory,
        Err(CommitFault::NotReady) => return desk.step(rt, side).0,
        Err(CommitFault::Stale(_)) => return desk.step(rt, side).0,
    }
}

/// Makes a side's turn on the desk behind a lock, as [`turn_on`] does, and pays what it owes once the lock is free.
pub fn take_turn<R: Wait>(
    rt: &R,
    desk: &Mutex<Desk>,
    planned: Option<Proposal>,
    side: Side,
    bells: Option<&Bells>,
) -> Turn {
    let mut guard = take(rt, desk);
    let came = turn_on(rt, &mut guard, planned, side);
    match bells {
        Some(bells) => bells.leave(side, came, guard).pay(),
        None => {
            MutexGuard::unlock(guard);
        }
    }
    came
}

/// Takes turns for a side on a desk behind a lock, as [`worker`] does. Where it shares bells with a worker of the other
/// side, it rests until that has placed something on which it waits.
pub(crate) fn work<R: Wait, G: Gate>(
    rt: &R,
    desk: &Mutex<Desk>,
    viewer: &mut Viewer,
    side: Side,
    turns: u32,
    gate: &G,
    bells: Option<&Bells>,
) -> u32
    ensures { result ≤ turns }
{
    for turn in 0..turns {
        gate.before(side, turn);
        let planned = viewer.plan(side);
        let came = take_turn(rt, desk, planned, side, bells);
        gate.after(side, turn, &came);
        if !goes_on(came) {
            return turn + 1;
        }
        if came == Turn::Idle {
            match bells {
                Some(bells) => bells.rest(rt, side),
                None => rest(turn),
            }
        }
    }
    turns
}

/// Takes turns for a side on a desk behind a lock. A turn is the gate's `before`, a plan of the viewer without the lock,
/// what comes of it while the lock is held, and the gate's `after`: [`Desk::commit`] of what was planned, or
/// [`Desk::step`] where nothing was, ejections are left, or the commit is refused as not ready or stale. It ends on Done,
/// NoRoom or Memory, or after so many turns, and answers how many turns it made. The viewer may be of another desk.
pub fn worker<R: Wait, G: Gate>(
    rt: &R,
    desk: &Mutex<Desk>,
    viewer: &mut Viewer,
    side: Side,
    turns: u32,
    gate: &G,
) -> u32
    ensures { result ≤ turns }
{
    work(rt, desk, viewer, side, turns, gate, None)
}
