//! Workers at desks, and two that share one board.

use crate::expect::equal;
use crate::made::{L1, S1, SIX, SIX_IN_ORDER, SUM, desk_on, has_entries, plan_of};
use c62_board::{Board, Entry, Proposal, Spot, Who, who_of};
use c62_insn::Side;
use c62_work::rounds::{serve, serve_two};
use c62_work::{FreeGate, Options, finish, schedule, worker};
use std::sync::Mutex;

/// A proposal on .S1 in the cycle of its number, of which all before were seen.
fn on_s1(number: u16) -> Proposal {
    Proposal {
        number,
        spot: Spot {
            cycle: number,
            unit: S1,
        },
        seen: usize::from(number),
    }
}

/// Rounds of a side, and a proposal that two desks commit, of which each one's viewer learns.
#[test]
fn rounds_at_desks(rt: HostRuntime) {
    let (mut desk, mut viewer, _second) = desk_on(&rt, rt.alloc(), SUM, 0);
    let last = serve(&rt, &mut desk, &mut viewer, Side::A, 1);
    desk.close(&rt);
    let third = Proposal {
        number: 2,
        spot: Spot { cycle: 2, unit: L1 },
        seen: 2,
    };
    equal(&rt, &last, &Some(third));
    let (mut desk, mut own, _second) = desk_on(&rt, rt.alloc(), SUM, 0);
    let (mut other, mut stranger, _fourth) = desk_on(&rt, rt.alloc(), "MVK 5,A1\nMVK 9,A2", 0);
    serve_two(
        &rt,
        &mut desk,
        &mut own,
        &mut other,
        &mut stranger,
        &on_s1(0),
    );
    let plans = (own.plan(Side::A), stranger.plan(Side::A));
    equal(&rt, &plans, &(Some(on_s1(1)), Some(on_s1(1))));
    let boards = (desk.close(&rt), other.close(&rt));
    for board in [&boards.0, &boards.1] {
        has_entries(&rt, rt.alloc(), board.journal(), "+0@0.S1Tail ");
    }
}

/// The turn of a planner that saw another desk goes as it planned: a step would place number 0.
#[test]
fn a_worker_goes_by_its_viewer(rt: HostRuntime) {
    let (desk, mut own, _second) = desk_on(&rt, rt.alloc(), "LDW *A4,A5\nLDW *A6,A7", 0);
    let (other, mut viewer, _fourth) = desk_on(&rt, rt.alloc(), "MVK 1,A1\nLDW *A4,A5", 0);
    let desk = Mutex::new(desk);
    let turns = worker(&rt, &desk, &mut viewer, Side::A, 1, &FreeGate);
    let board = desk.into_inner().close(&rt);
    other.close(&rt);
    equal(&rt, &turns, &1);
    assert!(rt; own.plan(Side::A).is_none() && viewer.plan(Side::A).is_none());
    has_entries(&rt, rt.alloc(), board.journal(), "+1@0.D1A ");
}

/// More turns than a worker needs for the block of six.
const ENOUGH: u32 = 12;

/// How many entries place something for this worker.
fn placed_by(board: &Board, who: Who) -> u32 {
    let mut count = 0u32;
    for entry in board.journal() {
        if let Entry::Place(_, _, by) = entry {
            count = count.saturating_add(u32::from(*by == who));
        }
    }
    count
}

/// A worker that stops makes at most its turns, and what both leave is finished.
#[test]
fn a_worker_stops_at_any_turn(rt: HostRuntime) {
    let plan = plan_of(&rt, rt.alloc(), SIX);
    for turns in 0..ENOUGH {
        for (side, other) in [(Side::A, Side::B), (Side::B, Side::A)] {
            let (desk, mut first, mut second) = desk_on(&rt, rt.alloc(), SIX, 1);
            let desk = Mutex::new(desk);
            worker(&rt, &desk, &mut first, side, turns, &FreeGate);
            worker(&rt, &desk, &mut second, other, ENOUGH, &FreeGate);
            let board = desk.into_inner().close(&rt);
            assert!(rt; placed_by(&board, who_of(side)) <= turns);
            let board = finish(rt.alloc(), board, &plan).expect(&rt, "memory");
            assert!(rt; board.complete() && board.plan().len() == 6);
        }
    }
}

/// Schedules of any few turns are complete, and their journal leads to the same board. Where there are no turns all is placed in the
/// order of the text.
#[test]
fn schedules_are_whole(rt: HostRuntime) {
    let plan = plan_of(&rt, rt.alloc(), SIX);
    for turns in 0..11 {
        for budget in 0..2 {
            let options = Options { turns, budget };
            let given = plan.copy(rt.alloc()).expect(&rt, "memory");
            let board = schedule(&rt, rt.alloc(), given, options, &FreeGate).expect(&rt, "memory");
            assert!(rt; board.complete() && board.plan().same(&plan));
            let given = plan.copy(rt.alloc()).expect(&rt, "memory");
            let Ok(again) = Board::replay(rt.alloc(), given, budget, board.journal()) else {
                panic!(rt; "the journal is not legal");
            };
            for i in 0..plan.len() {
                assert!(rt; i < again.plan().len() && i < board.plan().len());
                equal(&rt, &again.spot_of(i), &board.spot_of(i));
            }
            if turns == 0 {
                has_entries(&rt, rt.alloc(), board.journal(), SIX_IN_ORDER);
                equal(&rt, &board.budget(), &budget);
            }
        }
    }
}
