//! Worked blocks: steps of both sides, what finishes them, withdrawals, replays and proposals.

use crate::expect::{equal, equal_in};
use crate::made::{
    D1, D2, L1, M1, ONE_PATH, SIX, SIX_IN_ORDER, SUM, board_of, has_entries, longest, placed,
    plan_of, side_of, turn_text,
};
use c62_board::{Board, CommitFault, PlaceFault, Proposal, ReplayFault, Turn, WithdrawFault};
use c62_insn::{Side, Unit};
use c62_sheet::{Entry, Spot, Who};
use c62_work::{finish, turns};
use std::alloc::Global;
use std::process::Abort;

/// A block whose ejection withdraws four instructions.
const TEN: &str =
    "LDW *B4,B5\nLDW *B4,B6\nLDW *B4,B7\nADD B2,A2,B3\nADD A1,B1,A3\nADD A3,A3,A4\nADD A3,A3,A7\nADD A3,A3,A8\nMPY A5,B1,A2\nMPY A2,A2,A6";

/// A block in which two ejections pay.
const SEVEN: &str =
    "LDW *A1,A1\nMPY A4,B1,A5\nMVK 8,B1\nLDW *A4,A4\nMVK 7,B1\nMVK 9,B4\nSUB A4,A2,A2";

/// A block in which the one that an ejection would withdraw is needed by the one that it would place.
const NEEDED: &str = "ADD A2,B1,A3\nMPY A5,B2,A2";

/// A block and its ejections; how many turns there are until all is placed, A's first; the turns, and the entries that come of them;
/// the ejections that are left then, and the length.
const WHOLE: [(&str, u16, usize, &str, &str, (u16, u16)); 5] = [
    (
        SIX,
        1,
        12,
        "+2@0.L1 +0@0.D2 +3@1.L1 +1@0.L2 -2+4@0.M1 Idle +2@1.L1 Idle +5@2.M1 Idle +3@2.L1 Done ",
        "+2@0.L1A +0@0.D2B +3@1.L1A +1@0.L2B -3A -2A +4@0.M1A +2@1.L1A +5@2.M1A +3@2.L1A ",
        (0, 5),
    ),
    (
        SIX,
        0,
        8,
        "+2@0.L1 +0@0.D2 +3@1.L1 +1@0.L2 +4@1.M1 Idle +5@3.M1 Done ",
        "+2@0.L1A +0@0.D2B +3@1.L1A +1@0.L2B +4@1.M1A +5@3.M1A ",
        (0, 5),
    ),
    (
        SEVEN,
        2,
        10,
        "+0@0.D1 +5@0.S2 +1@0.M1 -5+2@0.S2 -0+3@0.D1 +4@1.S2 +0@1.D1 +5@2.S2 +6@5.L1 Done ",
        "+0@0.D1A +5@0.S2B +1@0.M1A -5B +2@0.S2B -0A +3@0.D1A +4@1.S2B +0@1.D1A +5@2.S2B +6@5.L1A ",
        (0, 6),
    ),
    (
        SEVEN,
        1,
        9,
        "+0@0.D1 +5@0.S2 +1@0.M1 -5+2@0.S2 +3@1.D1 +4@1.S2 +6@6.L1 +5@2.S2 Done ",
        "+0@0.D1A +5@0.S2B +1@0.M1A -5B +2@0.S2B +3@1.D1A +4@1.S2B +6@6.L1A +5@2.S2B ",
        (0, 7),
    ),
    (
        NEEDED,
        1,
        4,
        "+0@0.L1 Idle +1@1.M1 Done ",
        "+0@0.L1A +1@1.M1A ",
        (1, 3),
    ),
];

/// A block with one ejection, how many turns there are before that, what the turn is then, and its entries. In the last three blocks
/// numbers 3, 4 and 5 might make way, of which none is read, then number 4, and then number 5. It is the one of least height, and of
/// several the one of greatest number.
const EJECTED: [(&str, usize, &str, &str); 4] = [
    (TEN, 8, "-4+8@0.M1 ", "-7A -6A -5A -4A +8@0.M1A "),
    (
        "LDW *B4,B5\nLDW *B6,B7\nADD B2,A2,B3\nADD A1,A1,A8\nADD A3,A3,A9\nADD A4,A4,A10\nSUB A5,A6,A2\nMPY A2,A2,A7",
        6,
        "-5+6@0.D1 ",
        "-5A +6@0.D1A ",
    ),
    (
        "LDW *B4,B5\nLDW *B6,B7\nADD B2,A2,B3\nADD A1,A1,A8\nADD A3,A3,A9\nADD A4,A4,A10\nSUB A5,A6,A2\nMPY A2,A2,A7\nSUB A9,A3,A11",
        6,
        "-5+6@0.D1 ",
        "-5A +6@0.D1A ",
    ),
    (
        "LDW *B4,B5\nLDW *B6,B7\nADD B2,A2,B3\nADD A1,A1,A8\nADD A3,A3,A9\nADD A4,A4,A10\nSUB A5,A6,A2\nMPY A2,A2,A7\nSUB A10,A3,A11",
        6,
        "-4+6@0.D1 ",
        "-4A +6@0.D1A ",
    ),
];

/// Takes a side's turn, which is told ahead with its entries, and costs an ejection where it is one.
fn takes_turn(rt: &impl Abort, board: &mut Board, side: Side) -> Turn {
    let before = board.journal().len();
    let budget = board.budget();
    let (turn, entries) = board.ahead(side).expect(rt, "memory");
    equal(rt, &board.step(side), &turn);
    let added = board.journal().get(before..).unwrap_or_default();
    equal(rt, &added, &entries.as_slice());
    let spent = u16::from(matches!(turn, Turn::Ejected(_, _, _)));
    equal(rt, &board.budget(), &budget.saturating_sub(spent));
    turn
}

/// Takes so many turns, A's first, which are these.
fn has_turns(rt: &impl Abort, alloc: Global, board: &mut Board, turns: usize, wanted: &str) {
    let mut all = String::new(alloc);
    for k in 0..turns {
        let turn = takes_turn(rt, board, side_of(k));
        let text = turn_text(alloc, turn).expect(rt, "memory");
        all.push_str(&text).expect(rt, "memory");
    }
    equal(rt, &all.as_str(), &wanted);
}

/// Turns one by one, and all at once.
#[test]
fn sides_take_turns(rt: HostRuntime) {
    for (text, budget, many, told, journal, left) in &WHOLE {
        let mut one = board_of(&rt, rt.alloc(), text, *budget);
        has_turns(&rt, rt.alloc(), &mut one, *many, told);
        let mut other = board_of(&rt, rt.alloc(), text, *budget);
        equal(&rt, &turns(&mut other), &Turn::Done);
        for board in [&one, &other] {
            assert!(rt; board.complete());
            has_entries(&rt, rt.alloc(), board.journal(), journal);
            equal_in(&rt, text, &(board.budget(), board.length()), left);
        }
    }
}

/// The board of a block with one ejection after so many turns.
fn after(rt: &impl Abort, alloc: Global, text: &str, turns: usize) -> Board {
    let mut board = board_of(rt, alloc, text, 1);
    for k in 0..turns {
        board.step(side_of(k));
    }
    board
}

#[test]
fn the_least_urgent_makes_way(rt: HostRuntime) {
    for (text, turns, turn, entries) in &EJECTED {
        let mut board = after(&rt, rt.alloc(), text, *turns);
        let before = board.journal().len();
        equal_in(&rt, text, &before, turns);
        has_turns(&rt, rt.alloc(), &mut board, 1, turn);
        let added = board.journal().get(before..).unwrap_or_default();
        has_entries(&rt, rt.alloc(), added, entries);
    }
}

/// What has its least spot in cycle 1, and what of the cycle before would make way for it.
#[test]
fn the_victim(rt: HostRuntime) {
    for (text, turns, i, victim) in [(SIX, 4, 4, Some(2)), (NEEDED, 1, 1, None)] {
        let board = after(&rt, rt.alloc(), text, turns);
        assert!(rt; i < board.plan().len());
        assert!(rt; board.ready(i));
        let Some(least) = board.least(i) else {
            panic!(rt; "no room");
        };
        equal(&rt, &least, &Spot { cycle: 1, unit: M1 });
        equal_in(&rt, &text, &board.blocks_least(i), &victim);
    }
}

#[test]
fn spots_withdrawn_and_cleared(rt: HostRuntime) {
    let mut board = after(&rt, rt.alloc(), SIX, 2);
    assert!(rt; board.plan().len() == 6);
    equal(&rt, &board.spot_of(2), &Some(Spot { cycle: 0, unit: L1 }));
    assert!(rt; board.check(4, Spot { cycle: 0, unit: M1 }).is_err());
    assert!(rt; board.check(3, Spot { cycle: 1, unit: L1 }).is_ok());
    board.step(Side::A);
    board.step(Side::B);
    for (i, wanted, journal) in [
        (
            4,
            Err(WithdrawFault::NotPlaced),
            "+2@0.L1A +0@0.D2B +3@1.L1A +1@0.L2B ",
        ),
        (2, Ok(2), "+2@0.L1A +0@0.D2B +3@1.L1A +1@0.L2B -3A -2A "),
    ] {
        assert!(rt; i < board.plan().len());
        equal(&rt, &board.withdraw(i, Who::A), &wanted);
        has_entries(&rt, rt.alloc(), board.journal(), journal);
    }
    equal(&rt, &board.counts().placed_a, &0);
    board.clear();
    let left = (board.journal().len(), board.counts().placed_b);
    equal(&rt, &left, &(0, 0));
    let spot = Spot { cycle: 0, unit: L1 };
    equal(&rt, &board.step(Side::A), &Turn::Placed(2, spot));
}

/// A journal leads to the same board again, and one that withdraws what is needed leads nowhere.
#[test]
fn replays(rt: HostRuntime) {
    let worked = after(&rt, rt.alloc(), SIX, 12);
    equal(&rt, &worked.journal().len(), &10);
    let plan = plan_of(&rt, rt.alloc(), SIX);
    let Ok(board) = Board::replay(rt.alloc(), plan, 3, worked.journal()) else {
        panic!(rt; "the entries are legal");
    };
    assert!(rt; board.complete() && board.journal() == worked.journal());
    equal(&rt, &board.budget(), &3);
    let begun = worked.journal().get(..4).unwrap_or_default();
    let mut entries = Vec::from_slice(rt.alloc(), begun).expect(&rt, "memory");
    entries
        .push(Entry::Withdraw(2, Who::A))
        .expect(&rt, "memory");
    let plan = plan_of(&rt, rt.alloc(), SIX);
    let Err((plan, fault)) = Board::replay(rt.alloc(), plan, 3, &entries) else {
        panic!(rt; "an entry is not legal");
    };
    equal(&rt, &fault, &ReplayFault::BadEntry(4));
    equal(&rt, &plan.len(), &6);
}

/// Proposals one after the other: a number, its cycle and unit, how many entries were seen and by whom; and why it is refused.
const PROPOSALS: [((u16, u16, Unit, usize), Who, Option<CommitFault>); 6] = [
    ((65535, 0, D1, 0), Who::A, Some(CommitFault::NotReady)),
    ((0, 1, D1, 1), Who::A, Some(CommitFault::Stale(0))),
    ((1, 0, D2, 7), Who::B, None),
    ((1, 0, D2, 7), Who::B, Some(CommitFault::NotReady)),
    ((0, 0, D1, 0), Who::A, Some(CommitFault::Stale(1))),
    ((0, 1, D1, 1), Who::A, None),
];

#[test]
fn proposals(rt: HostRuntime) {
    let mut board = board_of(&rt, rt.alloc(), ONE_PATH, 0);
    for ((number, cycle, unit, seen), who, fault) in PROPOSALS {
        let spot = Spot { cycle, unit };
        let proposal = Proposal { number, spot, seen };
        let answer = board.commit(&proposal, who);
        match fault {
            None => equal(&rt, &answer, &Ok(spot)),
            Some(fault) => equal(&rt, &answer, &Err(fault)),
        }
    }
    has_entries(&rt, rt.alloc(), board.journal(), "+1@0.D2B +0@1.D1A ");
    equal(&rt, &(board.length(), board.budget()), &(6, 0));
    equal(&rt, &board.pick(Side::A), &None);
    assert!(rt; 0 < board.plan().len());
    equal(&rt, &board.place(0, Who::Tail), &Err(PlaceFault::NotReady));
}

/// Of the longest block all but the first are withdrawn and proposed again, and then all are withdrawn.
#[test]
fn a_chain_of_256(rt: HostRuntime) {
    let text = longest(&rt, rt.alloc());
    let mut board = placed(&rt, rt.alloc(), &text);
    assert!(rt; 1 < board.plan().len());
    equal(&rt, &board.withdraw(1, Who::A), &Ok(255));
    equal(&rt, &board.journal().len(), &511);
    equal(
        &rt,
        &board.journal().get(256),
        &Some(&Entry::Withdraw(255, Who::A)),
    );
    equal(&rt, &board.counts().placed_a, &1);
    for number in 1..256 {
        let spot = Spot {
            cycle: number,
            unit: L1,
        };
        let proposal = Proposal {
            number,
            spot,
            seen: 0,
        };
        let entry = Entry::Place(number, spot, Who::Tail);
        equal(
            &rt,
            &board.journal().get(usize::from(number)),
            &Some(&entry),
        );
        equal(&rt, &board.commit(&proposal, Who::B), &Ok(spot));
    }
    assert!(rt; board.complete());
    equal(&rt, &board.length(), &256);
    assert!(rt; 0 < board.plan().len());
    equal(&rt, &board.withdraw(0, Who::A), &Ok(256));
    equal(
        &rt,
        &(board.journal().len(), board.counts().placed_a),
        &(1022, 0),
    );
    let plan = plan_of(&rt, rt.alloc(), &text);
    let Ok(again) = Board::replay(rt.alloc(), plan, 0, board.journal()) else {
        panic!(rt; "the entries are legal");
    };
    equal(&rt, &again.journal().len(), &1022);
}

/// The block of which a plan is, the block of a board and the turns that it has, the entries once it is finished, and the length.
const FINISHED: [(&str, &str, usize, &str, u16); 3] = [
    (SIX, SIX, 0, SIX_IN_ORDER, 5),
    (SIX, SUM, 0, SIX_IN_ORDER, 5),
    (SUM, SUM, 3, "+0@0.S1A +1@1.S1A +2@2.L1Tail ", 3),
];

/// What a board lacks of a plan is placed in its order, from nothing where the board is of another one.
#[test]
fn finishing(rt: HostRuntime) {
    for (of, text, turns, journal, length) in &FINISHED {
        let plan = plan_of(&rt, rt.alloc(), of);
        let board = after(&rt, rt.alloc(), text, *turns);
        let budget = board.budget();
        let board = finish(rt.alloc(), board, &plan).expect(&rt, text);
        has_entries(&rt, rt.alloc(), board.journal(), journal);
        equal_in(
            &rt,
            text,
            &(board.budget(), board.length()),
            &(budget, *length),
        );
    }
    let text = longest(&rt, rt.alloc());
    let plan = plan_of(&rt, rt.alloc(), &text);
    let board = board_of(&rt, rt.alloc(), &text, 0);
    let board = finish(rt.alloc(), board, &plan).expect(&rt, "memory");
    assert!(rt; board.complete());
    equal(&rt, &(board.journal().len(), board.length()), &(256, 256));
}
