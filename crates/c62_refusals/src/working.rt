//! Workers, and schedules by two of them.

use crate::given::{begun_board, plan_of};
use crate::placing::side_of;
use crate::seen::{look_at, look_of};
use crate::twice::{Came, twice, twice_on};
use c62_board::Turn;
use c62_insn::Side;
use c62_view::{Desk, Viewer, desk_of};
use c62_work::{Gate, Options, schedule, worker};
use std::alloc::Global;
use std::cell::Cell;
use std::sync::atomic::{AtomicU64, Ordering};
use std::sync::{Mutex, MutexGuard, Wait};
use std::thread::Threads;

/// Keeps what a worker's last turn came to, and how many turns it made up to then.
#[derive(Drop)]
struct Last {
    turns: Cell<u32>,
    came: Cell<Turn>,
}

impl Gate for Last {
    fn before(&self, _side: Side, _turn: u32) {}

    fn after(&self, _side: Side, turn: u32, came: &Turn) {
        self.turns.set(turn.saturating_add(1));
        self.came.set(*came);
    }
}

/// What the desk behind a lock looks like. Nobody holds the lock.
fn look_behind(desk: &Mutex<Desk>) -> u64 {
    let Some(guard) = desk.try_lock() else {
        return 0;
    };
    let look = look_at(guard.board());
    MutexGuard::unlock(guard);
    look
}

/// A worker's turns. It is refused memory where the last turn says so, and with that the worker has ended.
fn work_of<R: Wait>(
    rt: &R,
    desk: &Mutex<Desk>,
    viewer: &mut Viewer,
    side: Side,
    turns: u32,
) -> Option<u64> {
    let gate = Last {
        turns: Cell::new(0),
        came: Cell::new(Turn::Idle),
    };
    let made = worker(rt, desk, viewer, side, turns, &gate);
    let told = (gate.turns.get(), gate.came.get());
    if told == (made, Turn::Memory) {
        return None;
    }
    Some(look_of(&(made, told.1, look_behind(desk)), &()))
}

/// Has the worker of a side take so many turns at a desk.
pub(crate) fn works<R: Wait>(rt: &R, alloc: Global, text: &str, turns: u32) -> Option<Came> {
    let board = begun_board(alloc, text)?;
    let side = side_of(&board);
    let Ok((desk, viewer, _other)) = desk_of(rt, alloc, board) else {
        return None;
    };
    let mut given = (Mutex::new(desk), viewer);
    let came = twice_on(
        &mut given,
        &|given| look_behind(&given.0),
        &|given| work_of(rt, &given.0, &mut given.1, side, turns),
    );
    given.0.into_inner().close(rt);
    Some(came)
}

/// Notes which sides made a turn.
#[derive(Drop)]
struct Seats {
    taken: [AtomicU64; 2],
}

impl Seats {
    /// Whether each side made a turn.
    fn are_taken(&self) -> bool {
        self.taken
            .iter()
            .all(|seat| seat.load(Ordering::SeqCst) == 1)
    }
}

impl Gate for Seats {
    fn before(&self, _side: Side, _turn: u32) {}

    fn after(&self, side: Side, _turn: u32, _came: &Turn) {
        let [first, second] = &self.taken;
        match side {
            Side::A => first.store(1, Ordering::SeqCst),
            Side::B => second.store(1, Ordering::SeqCst),
        }
    }
}

/// Schedules by two workers. The board is complete, and of the plan, and both workers came where they had turns. How it comes
/// about depends on how the turns of its workers fall.
pub(crate) fn schedules<R: Threads + Wait + Sync>(
    rt: &R,
    alloc: Global,
    text: &str,
    options: Options,
) -> Option<Came> {
    twice(plan_of(alloc, text)?, |plan| {
        let given = plan.copy(alloc).ok()?;
        let seats = Seats {
            taken: [0; 2].map(AtomicU64::new),
        };
        let board = schedule(rt, alloc, given, options, &seats).ok()?;
        let are_taken = seats.are_taken() || options.turns == 0;
        Some(look_of(&(board.complete(), board.plan().same(plan), are_taken), &()))
    })
}
