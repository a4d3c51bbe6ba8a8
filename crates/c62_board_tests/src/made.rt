//! Plans, boards and desks of texts, and what is told of turns and of journals.

ghost use Rattle.std.specs.Prelude.{◌≡◌};

use crate::expect::{equal, equal_in};
use c62_board::{Board, Turn};
use c62_depend::Plan;
use c62_insn::{Letter, Side, Unit};
use c62_op::InstructionSet;
use c62_read::read_program;
use c62_sheet::{Entry, Spot, Who};
use c62_view::{Desk, Viewer, desk_of};
use std::alloc::{AllocError, Global};
use std::process::Abort;
use std::sync::Wait;

/// Three instructions of side A, of which the last needs the other two.
pub(crate) const SUM: &str = "MVK 5,A1\nMVK 7,A2\nADD A1,A2,A3";

/// A block of six in which an ejection pays.
pub(crate) const SIX: &str =
    "LDW *B4,B5\nADD B2,A2,B3\nADD A1,B1,A3\nADD A3,A3,A4\nMPY A5,B1,A2\nMPY A2,A2,A6";

/// Two loads to one file, which share its data path.
pub(crate) const ONE_PATH: &str = "LDW *A4,A5\nLDW *B4,A6";

pub(crate) const L1: Unit = Unit {
    letter: Letter::L,
    side: Side::A,
};

pub(crate) const S1: Unit = Unit {
    letter: Letter::S,
    side: Side::A,
};

pub(crate) const M1: Unit = Unit {
    letter: Letter::M,
    side: Side::A,
};

pub(crate) const D1: Unit = Unit {
    letter: Letter::D,
    side: Side::A,
};

pub(crate) const L2: Unit = Unit {
    letter: Letter::L,
    side: Side::B,
};

pub(crate) const D2: Unit = Unit {
    letter: Letter::D,
    side: Side::B,
};

/// Its instructions in the order of the text, each at its least spot.
pub(crate) const SIX_IN_ORDER: &str =
    "+0@0.D2Tail +1@0.L2Tail +2@0.L1Tail +3@1.L1Tail +4@1.M1Tail +5@3.M1Tail ";

/// The plan of the only block of a text.
pub(crate) fn plan_of(rt: &impl Abort, alloc: Global, text: &str) -> Plan {
    let program = read_program(InstructionSet::Core, alloc, text.as_bytes()).expect(rt, text);
    let mut blocks = program.into_blocks();
    equal_in(rt, &text, &blocks.len(), &1);
    let block = blocks.pop().expect(rt, text);
    Plan::new(alloc, block).ok().expect(rt, text)
}

/// An empty board of it, with so many ejections.
pub(crate) fn board_of(rt: &impl Abort, alloc: Global, text: &str, budget: u16) -> Board {
    let plan = plan_of(rt, alloc, text);
    Board::new(alloc, plan, budget).ok().expect(rt, text)
}

/// A board of it whose instructions are placed in the order of the text.
pub(crate) fn placed(rt: &impl Abort, alloc: Global, text: &str) -> Board {
    let mut board = board_of(rt, alloc, text, 0);
    for i in 0..board.plan().len() {
        assert!(rt; i < board.plan().len());
        let spot = board.place(i, Who::Tail).expect(rt, text);
        let entry = Entry::Place(i, spot, Who::Tail);
        equal(rt, &board.journal().last(), &Some(&entry));
    }
    board
}

/// A desk of an empty board of it, and its viewers.
pub(crate) fn desk_on<R: Abort + Wait>(
    rt: &R,
    alloc: Global,
    text: &str,
    budget: u16,
) -> (Desk, Viewer, Viewer)
    ensures first { result.1.desk ≡ result.0.name }
    ensures second { result.2.desk ≡ result.0.name }
{
    match desk_of(rt, alloc, board_of(rt, alloc, text, budget)) {
        Ok(made) => made,
        Err(_) => panic!(rt; "no desk of {text}"),
    }
}

/// The longest block: 256 instructions, each of which needs the one before it.
pub(crate) fn longest(rt: &impl Abort, alloc: Global) -> String {
    let mut text = String::new(alloc);
    for _ in 0..256 {
        text.push_str("ADD A1,A2,A1\n").expect(rt, "memory");
    }
    text
}

/// The side of a turn, where both sides have theirs alternately.
pub(crate) fn side_of(turn: usize) -> Side {
    if turn % 2 == 0 { Side::A } else { Side::B }
}

/// A cycle and a unit, as `3.L1`.
pub(crate) fn spot_text(alloc: Global, spot: Spot) -> Result<String, AllocError> {
    let file = 1 + spot.unit.side as u8;
    format!(in alloc; "{}.{:?}{file}", spot.cycle, spot.unit.letter)
}

/// A placing by side A as `+0@3.L1A `, and a withdrawal by it as `-0A `.
fn entry_text(alloc: Global, entry: &Entry) -> Result<String, AllocError> {
    match *entry {
        Entry::Place(i, spot, who) => {
            let spot = spot_text(alloc, spot)?;
            format!(in alloc; "+{i}@{}{who:?} ", spot.as_str())
        }
        Entry::Withdraw(i, who) => format!(in alloc; "-{i}{who:?} "),
    }
}

/// A placing as `+0@3.L1 `, an ejection of number 1 for that as `-1+0@3.L1 `, and each other turn by its name.
pub(crate) fn turn_text(alloc: Global, turn: Turn) -> Result<String, AllocError> {
    match turn {
        Turn::Placed(i, spot) => {
            let spot = spot_text(alloc, spot)?;
            format!(in alloc; "+{i}@{} ", spot.as_str())
        }
        Turn::Ejected(victim, i, spot) => {
            let spot = spot_text(alloc, spot)?;
            format!(in alloc; "-{victim}+{i}@{} ", spot.as_str())
        }
        turn => format!(in alloc; "{turn:?} "),
    }
}

/// Ends the test where entries aren't these.
pub(crate) fn has_entries(rt: &impl Abort, alloc: Global, entries: &[Entry], wanted: &str) {
    let mut all = String::new(alloc);
    for entry in entries {
        let text = entry_text(alloc, entry).expect(rt, "memory");
        all.push_str(&text).expect(rt, "memory");
    }
    equal(rt, &all.as_str(), &wanted);
}
