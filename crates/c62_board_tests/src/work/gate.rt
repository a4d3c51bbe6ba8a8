//! What a gate is told of a worker's turns, and schedules in which one holds workers back.

use crate::expect::{equal, equal_in};
use crate::made::{L1, S1, SIX, SUM, desk_on, has_entries, plan_of};
use c62_board::{Board, Entry, Spot, Turn, Who};
use c62_insn::Side;
use c62_view::Desk;
use c62_work::{Gate, Options, goes_on, schedule, worker};
use std::alloc::Global;
use std::cell::Cell;
use std::process::Abort;
use std::sync::atomic::{AtomicU64, Ordering};
use std::sync::{Mutex, MutexGuard, Wait};
use std::thread::{Threads, yield_now};

/// What a gate is told: a side, the number of its turn, what that came to where it is over, and whether nobody held the lock.
type Told = (Side, u32, Option<Turn>, bool);

/// Keeps the first eight that it is told of the turns of a worker, and how many there were.
#[derive(Drop)]
struct Watch<'a> {
    desk: &'a Mutex<Desk>,
    told: Cell<[Option<Told>; 8]>,
    count: Cell<usize>,
}

impl Watch<'_> {
    /// Whether nobody holds the lock.
    fn is_free(&self) -> bool {
        let Some(guard) = self.desk.try_lock() else {
            return false;
        };
        MutexGuard::unlock(guard);
        true
    }

    fn keep(&self, side: Side, turn: u32, came: Option<Turn>) {
        let count = self.count.get();
        let mut told = self.told.get();
        if let Some(slot) = told.get_mut(count) {
            *slot = Some((side, turn, came, self.is_free()));
        }
        self.told.set(told);
        self.count.set(count.saturating_add(1));
    }
}

impl Gate for Watch<'_> {
    fn before(&self, side: Side, turn: u32) {
        self.keep(side, turn, None);
    }

    fn after(&self, side: Side, turn: u32, came: &Turn) {
        self.keep(side, turn, Some(*came));
    }
}

/// The first turns of the worker of a side at the block of three, how many it makes of a hundred, and how often its gate is called.
const WATCHED: [(Side, [Turn; 4], (u32, usize)); 2] = [
    (
        Side::A,
        [
            Turn::Placed(0, Spot { cycle: 0, unit: S1 }),
            Turn::Placed(1, Spot { cycle: 1, unit: S1 }),
            Turn::Placed(2, Spot { cycle: 2, unit: L1 }),
            Turn::Done,
        ],
        (4, 8),
    ),
    (Side::B, [Turn::Idle; 4], (100, 200)),
];

#[test]
fn a_gate_is_told_each_turn(rt: HostRuntime) {
    for (side, turns, counts) in &WATCHED {
        let (desk, mut viewer, _other) = desk_on(&rt, rt.alloc(), SUM, 0);
        let desk = Mutex::new(desk);
        let gate = Watch {
            desk: &desk,
            told: Cell::new([None; 8]),
            count: Cell::new(0),
        };
        let made = worker(&rt, &desk, &mut viewer, *side, 100, &gate);
        let (told, count) = (gate.told.get(), gate.count.get());
        desk.into_inner().close(&rt);
        equal(&rt, &(made, count), counts);
        let [first, second, third, fourth] = *turns;
        let wanted = [
            Some((*side, 0, None, true)),
            Some((*side, 0, Some(first), true)),
            Some((*side, 1, None, true)),
            Some((*side, 1, Some(second), true)),
            Some((*side, 2, None, true)),
            Some((*side, 2, Some(third), true)),
            Some((*side, 3, None, true)),
            Some((*side, 3, Some(fourth), true)),
        ];
        equal(&rt, &told, &wanted);
    }
}

/// How often a gate looks at most for what it waits for.
const POLLS: u32 = 10_000_000;

/// Holds the worker of a side before one of its turns, until the other worker has made its last one; where that is the first, the
/// other worker is held before its own, until this one has come there.
#[derive(Drop)]
struct Held {
    side: Side,
    turn: u32,
    /// The number of the last turn that a worker may make.
    last: u32,
    came: AtomicU64,
    over: AtomicU64,
    /// How many waits had an end.
    met: AtomicU64,
    /// How many turns side A made, and side B.
    made: [AtomicU64; 2],
}

impl Held {
    /// Waits until this is 1.
    fn wait_for(&self, flag: &AtomicU64) {
        for _ in 0..POLLS {
            if flag.load(Ordering::SeqCst) == 1 {
                self.met.fetch_add(1, Ordering::SeqCst);
                return;
            }
            yield_now();
        }
    }
}

impl Gate for Held {
    fn before(&self, side: Side, turn: u32) {
        if turn != self.turn {
            return;
        }
        if side == self.side {
            self.came.store(1, Ordering::SeqCst);
            self.wait_for(&self.over);
        } else if turn == 0 {
            self.wait_for(&self.came);
        }
    }

    fn after(&self, side: Side, turn: u32, came: &Turn) {
        let [of_a, of_b] = &self.made;
        match side {
            Side::A => of_a.fetch_add(1, Ordering::SeqCst),
            Side::B => of_b.fetch_add(1, Ordering::SeqCst),
        };
        if side != self.side && (turn >= self.last || !goes_on(*came)) {
            self.over.store(1, Ordering::SeqCst);
        }
    }
}

/// A schedule of so many turns in which a side is held before one of its own; how many waits had an end, and how many turns were made.
fn schedule_held<R: Abort + Threads + Wait + Sync>(
    rt: &R,
    alloc: Global,
    text: &str,
    turns: u32,
    (side, turn): (Side, u32),
) -> (Board, u64, [u64; 2]) {
    let gate = Held {
        side,
        turn,
        last: turns.saturating_sub(1),
        came: AtomicU64::new(0),
        over: AtomicU64::new(0),
        met: AtomicU64::new(0),
        made: [0; 2].map(AtomicU64::new),
    };
    let options = Options { turns, budget: 0 };
    let plan = plan_of(rt, alloc, text);
    let board = schedule(rt, alloc, plan, options, &gate).expect(rt, text);
    let met = gate.met.load(Ordering::SeqCst);
    let made = gate.made.map(|count| count.load(Ordering::SeqCst));
    (board, met, made)
}

/// Blocks, the turns of each side, before which of its turns side A is held, and how many waits that makes; the entries, and how many
/// turns each side made.
const HELD: [(&str, u32, u32, u64, &str, [u64; 2]); 5] = [
    // Both workers are at work at a time, though the second one has nothing to place.
    (SUM, 4, 0, 2, "+0@0.S1A +1@1.S1A +2@2.L1A ", [4, 4]),
    // What is held comes later.
    (
        "LDW *A4,A5\nLDW *B4,B6",
        4,
        0,
        2,
        "+1@0.D2B +0@0.D1A ",
        [2, 4],
    ),
    // The multiply of side A is more urgent than its MVK, but only once side B has placed what it reads. A side that planned before
    // its gate lets it on would place the MVK.
    (
        "MVK 1,B1\nMPY A2,B1,A3\nMVK 5,A9",
        4,
        0,
        2,
        "+0@0.S2B +1@1.M1A +2@0.S1A ",
        [3, 4],
    ),
    // Where turns are few, each side makes all of them, and what is left is finished.
    (SUM, 2, 99, 0, "+0@0.S1A +1@1.S1A +2@2.L1Tail ", [2, 2]),
    (
        "MVK 5,B1\nMVK 7,B2\nADD B1,B2,B3",
        2,
        99,
        0,
        "+0@0.S2B +1@1.S2B +2@2.L2Tail ",
        [2, 2],
    ),
];

#[test]
fn a_gate_holds_a_worker_back(rt: HostRuntime) {
    for (text, turns, turn, met, journal, made) in &HELD {
        let found = schedule_held(&rt, rt.alloc(), text, *turns, (Side::A, *turn));
        has_entries(&rt, rt.alloc(), found.0.journal(), journal);
        equal_in(&rt, text, &(found.1, found.2), &(*met, *made));
    }
}

/// Twelve turns are more than a worker needs for the block of six.
#[test]
fn a_worker_is_held_at_any_turn(rt: HostRuntime) {
    for (side, other) in [(Side::A, Who::B), (Side::B, Who::A)] {
        for turn in 0..12 {
            let (board, _, _) = schedule_held(&rt, rt.alloc(), SIX, 12, (side, turn));
            assert!(rt; board.complete());
            equal(&rt, &board.plan().len(), &6);
            if turn == 0 {
                let first = board.journal().first();
                assert!(rt; matches!(first, Some(Entry::Place(_, _, by)) if *by == other));
            }
        }
    }
}
