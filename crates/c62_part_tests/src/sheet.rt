//! Worked blocks: what is refused, least spots, and changes of a sheet.

use crate::common::{name_of, plan_of};
use crate::expect::{equal, equal_in};
use c62_insn::Letter::{D, L, M, S};
use c62_insn::Side::{A, B};
use c62_insn::Unit;
use c62_sheet::{Counts, Entry, Sheet, Spot, Unlawful, Who, are_lawful};
use std::alloc::Global;
use std::process::Abort;
use std::test::Fail;

const L1: Unit = Unit { letter: L, side: A };

const S1: Unit = Unit { letter: S, side: A };

const M1: Unit = Unit { letter: M, side: A };

const D1: Unit = Unit { letter: D, side: A };

const L2: Unit = Unit { letter: L, side: B };

const S2: Unit = Unit { letter: S, side: B };

const D2: Unit = Unit { letter: D, side: B };

const THREE_READERS: &str = "MPY A1,A1,A4\nADD A1,A1,A5\nSUB A1,A2,A3";

const TWO_CROSSING: &str = "ADD A1,B1,A2\nSUB A3,B3,A4";

const ONE_PATH: &str = "LDW *A4,A5\nLDW *B4,A6";

const TWO_WRITERS: &str = "LDW *A4,A5\nMVK 1,A5";

const LATE_SUM: &str = "LDW *A4,A5\nMVK 1,A6\nADD A5,A6,A7";

const EARLY_SUM: &str = "LDW *A4,A5\nADD A1,A1,A2\nADD A5,A5,A6";

const CROSSING_LATER: &str = "MVK 3,A1\nADD A1,B1,A2\nSUB A1,B3,A4";

const FIVE_READS: &str = "ADD A4,A4,A1\nADD A4,A4,A2\nLDW *B4,A6\nLDW *A4,A5";

const TWO_CROSSING_TO_B: &str = "ADD B1,A1,B2\nSUB B3,A3,B4";

const ONE_PATH_TO_B: &str = "LDW *A4,B5\nLDW *B4,B6";

const THREE: &str = "MVK 5,A1\nMVK 7,A2\nADD A1,A2,A3";

const SIX: &str =
    "LDW *B4,B5\nADD B2,A2,B3\nADD A1,B1,A3\nADD A3,A3,A4\nMPY A5,B1,A2\nMPY A2,A2,A6";

/// A block, how many of its instructions are placed in their order, the instruction and the spot that are asked, and the answer.
const CHECKS: [(&str, u16, u16, u16, Unit, &str); 24] = [
    (THREE_READERS, 2, 2, 0, S1, "P4 in cycle 0"),
    (THREE_READERS, 2, 2, 0, L1, "P1 in cycle 0"),
    (THREE_READERS, 2, 2, 1, S1, "lawful"),
    (TWO_CROSSING, 1, 1, 0, S1, "P2 in cycle 0"),
    (ONE_PATH, 1, 1, 0, D2, "P3 in cycle 0"),
    (TWO_WRITERS, 0, 1, 3, S1, "Missing in cycle 3"),
    (TWO_WRITERS, 1, 1, 3, S1, "Delay in cycle 5"),
    (TWO_WRITERS, 1, 1, 10, S1, "Limit in cycle 10"),
    (TWO_WRITERS, 1, 1, 65535, S1, "Limit in cycle 65535"),
    (TWO_WRITERS, 1, 1, 0, L1, "Unit in cycle 0"),
    (TWO_WRITERS, 1, 1, 5, S2, "Unit in cycle 5"),
    (TWO_WRITERS, 1, 1, 9, S1, "lawful"),
    (TWO_WRITERS, 1, 0, 9, D1, "Placed in cycle 9"),
    (TWO_WRITERS, 1, 0, 9, S2, "Placed in cycle 9"),
    (TWO_WRITERS, 1, 0, 10, D1, "Placed in cycle 10"),
    (TWO_WRITERS, 1, 1, 10, L1, "Unit in cycle 10"),
    (TWO_WRITERS, 0, 1, 10, S1, "Limit in cycle 10"),
    (LATE_SUM, 1, 2, 2, L1, "Missing in cycle 2"),
    (EARLY_SUM, 2, 2, 0, L1, "Delay in cycle 5"),
    (TWO_CROSSING, 1, 1, 0, L1, "P1 in cycle 0"),
    (CROSSING_LATER, 2, 2, 1, L1, "P1 in cycle 1"),
    (FIVE_READS, 3, 3, 0, D1, "P3 in cycle 0"),
    (TWO_CROSSING_TO_B, 1, 1, 0, S2, "P2 in cycle 0"),
    (ONE_PATH_TO_B, 1, 1, 0, D2, "P3 in cycle 0"),
];

/// Blocks, where their instructions stand once they were placed in their order, and the length.
const IN_ORDER: [&str; 15] = [
    "MVK 5,A1\nMVK 7,A2\nADD A1,A2,A3 | 0.S1 1.S1 2.L1 3",
    "MVK 3,A1\nADD A5,A1,A2\nLDW *A4,A5 | 0.S1 1.L1 0.D1 5",
    "LDW *A4,A5\nMVK 1,A5 | 0.D1 5.S1 6",
    "MPY A1,A1,A4\nADD A1,A1,A5\nSUB A1,A2,A3 | 0.M1 0.L1 1.L1 2",
    "ADD A1,B1,A2\nSUB A3,B3,A4 | 0.L1 1.L1 2",
    "LDW *A4,A5\nLDW *B4,A6 | 0.D1 1.D2 6",
    "LDW *A4,A5\nLDW *B4,B6 | 0.D1 0.D2 5",
    "L1:\nMVK 0,A0\nMVK 1,A1\nMVK 2,A2\nMVK 3,A3\nMVK 4,A4\nMVK 5,A5\nMVK 6,A6\nMVK 7,A7\nB L1 | 0.S1 1.S1 2.S1 3.S1 4.S1 5.S1 6.S1 7.S1 2.S2 8",
    "L1: MPY A1,A2,A3\nB L1 | 0.M1 0.S2 6",
    "LDW *B4,B5\nADD B2,A2,B3\nADD A1,B1,A3\nADD A3,A3,A4\nMPY A5,B1,A2\nMPY A2,A2,A6 | 0.D2 0.L2 0.L1 1.L1 1.M1 3.M1 5",
    "[A1] ADD A3,A4,A2\n[!A1] SUB A3,A4,A2 | 0.L1 0.S1 1",
    "[A1] LDW *A4,A5\n[!A1] MVK 1,A5 | 0.D1 0.S1 5",
    "[A1] MVK 1,A5\nSUB A1,1,A1\n[!A1] MVK 2,A5 | 0.S1 0.L1 1.S1 2",
    "[A1] ADD A5,A3,A5\n[!A1] MVK 2,A5 | 0.L1 0.S1 1",
    "MPY A1,A2,A3\nSTW A3,*A4\nLDW *+A4[1],A5\nADD A5,A5,A6 | 0.M1 2.D1 0.D1 5.L1 6",
];

/// Legal changes of the block of six, one after another: two are withdrawn, and stand later then.
const CHANGES: [Entry; 10] = [
    Entry::Place(2, Spot { cycle: 0, unit: L1 }, Who::A),
    Entry::Place(0, Spot { cycle: 0, unit: D2 }, Who::B),
    Entry::Place(3, Spot { cycle: 1, unit: L1 }, Who::A),
    Entry::Place(1, Spot { cycle: 0, unit: L2 }, Who::B),
    Entry::Withdraw(3, Who::A),
    Entry::Withdraw(2, Who::A),
    Entry::Place(4, Spot { cycle: 0, unit: M1 }, Who::A),
    Entry::Place(2, Spot { cycle: 1, unit: L1 }, Who::A),
    Entry::Place(5, Spot { cycle: 2, unit: M1 }, Who::A),
    Entry::Place(3, Spot { cycle: 2, unit: L1 }, Who::A),
];

/// After each of these changes: the picks of sides A and B, and the early cycles of the instructions 3 and 5.
const AFTER: [(Option<u16>, Option<u16>, u16, u16); 10] = [
    (Some(3), Some(0), 1, 0),
    (Some(3), Some(1), 1, 0),
    (None, Some(1), 1, 0),
    (Some(4), None, 1, 0),
    (Some(4), None, 1, 0),
    (Some(4), None, 0, 0),
    (Some(2), None, 0, 2),
    (Some(5), None, 2, 2),
    (Some(3), None, 2, 2),
    (None, None, 2, 2),
];

/// What is placed and ready of the block of six where nothing is placed.
const EMPTY: Counts = Counts {
    placed_a: 0,
    placed_b: 0,
    ready_a: 1,
    ready_b: 2,
};

/// The same after the first four of these changes.
const FOUR: Counts = Counts {
    placed_a: 2,
    placed_b: 2,
    ready_a: 1,
    ready_b: 0,
};

/// Changes that are not legal then.
const REFUSED: [Entry; 8] = [
    Entry::Withdraw(2, Who::A),
    Entry::Withdraw(4, Who::A),
    Entry::Withdraw(65535, Who::A),
    Entry::Place(65535, Spot { cycle: 0, unit: M1 }, Who::A),
    Entry::Place(5, Spot { cycle: 9, unit: M1 }, Who::A),
    Entry::Place(2, Spot { cycle: 0, unit: L1 }, Who::A),
    Entry::Place(4, Spot { cycle: 2, unit: M1 }, Who::A),
    Entry::Place(4, Spot { cycle: 0, unit: M1 }, Who::A),
];

/// Cycles and units for the instructions of the block of three in their order, and whether they are a lawful whole.
const WHOLES: [(&[(u16, Unit)], bool); 6] = [
    (&[(1, S1), (0, S1), (3, L1)], true),
    (&[(1, S1), (0, S1), (1, L1)], false),
    (&[(0, S1), (0, S1), (3, L1)], false),
    (&[(1, S1), (0, S2), (3, L1)], false),
    (&[(1, S1), (0, S1), (15, L1)], false),
    (&[(1, S1), (0, S1)], false),
];

/// An empty sheet of the only block of a text.
fn sheet_of(rt: &impl Abort, alloc: Global, text: &str) -> Result<Sheet, Fail> {
    match Sheet::new(alloc, plan_of(rt, alloc, text)?) {
        Ok(sheet) => Ok(sheet),
        Err((_, error)) => Err(error.into()),
    }
}

/// Places an instruction at its least spot.
fn place(rt: &impl Abort, sheet: &mut Sheet, i: u16) {
    assert!(rt; i < sheet.plan().len());
    assert!(rt; sheet.ready(i));
    let spot = sheet.least(i).expect(rt, "a least spot");
    assert!(rt; sheet.apply(&Entry::Place(i, spot, Who::Tail)));
}

/// What is answered of a spot of an instruction that the plan has.
fn answer(rt: &impl Abort, sheet: &Sheet, i: u16, spot: Spot) -> Result<(), Unlawful> {
    assert!(rt; i < sheet.plan().len());
    sheet.check(i, spot)
}

/// The spots of what is placed, and the length.
fn placed(alloc: Global, sheet: &Sheet) -> Result<String, Fail> {
    let mut all = String::new(alloc);
    for i in 0..sheet.plan().len() {
        if let Some(spot) = sheet.spot_of(i) {
            all.push_str(&format!(in alloc; "{}.{} ", spot.cycle, name_of(spot.unit))?)?;
        }
    }
    all.push_str(&format!(in alloc; "{}", sheet.length())?)?;
    Ok(all)
}

#[test]
fn refused_spots(rt: HostRuntime) -> Result<(), Fail> {
    for (text, count, i, cycle, unit, want) in &CHECKS {
        let mut sheet = sheet_of(&rt, rt.alloc(), text)?;
        for k in 0..*count {
            place(&rt, &mut sheet, k);
        }
        assert!(rt; *i < sheet.plan().len());
        let spot = Spot {
            cycle: *cycle,
            unit: *unit,
        };
        let answer = match sheet.check(*i, spot) {
            Ok(()) => format!(in rt.alloc(); "lawful")?,
            Err(fault) => format!(in rt.alloc(); "{fault}")?,
        };
        equal_in(&rt, text, &answer.as_str(), want);
    }
    Ok(())
}

#[test]
fn least_spots_and_wholes(rt: HostRuntime) -> Result<(), Fail> {
    for row in &IN_ORDER {
        let (text, want) = row.split_once(" | ").expect(&rt, "a text");
        let mut sheet = sheet_of(&rt, rt.alloc(), text)?;
        equal(&rt, &sheet.length(), &0);
        for k in 0..sheet.plan().len() {
            assert!(rt; !sheet.complete());
            place(&rt, &mut sheet, k);
        }
        assert!(rt; sheet.complete());
        equal_in(&rt, row, &placed(rt.alloc(), &sheet)?.as_str(), &want);
    }
    let plan = plan_of(&rt, rt.alloc(), THREE)?;
    for (whole, want) in &WHOLES {
        let mut spots = Vec::new(rt.alloc());
        for (cycle, unit) in *whole {
            spots.push(Spot {
                cycle: *cycle,
                unit: *unit,
            })?;
        }
        equal_in(&rt, whole, &are_lawful(&plan, &spots), want);
    }
    Ok(())
}

/// How many are placed and ready, what one stands in the way of, and what is refused behind the first four changes.
#[test]
fn changes_and_counts(rt: HostRuntime) -> Result<(), Fail> {
    let mut sheet = sheet_of(&rt, rt.alloc(), SIX)?;
    equal(&rt, &sheet.counts(), &EMPTY);
    equal(&rt, &sheet.pick(A), &Some(2));
    equal(&rt, &sheet.pick(B), &Some(0));
    for entry in &CHANGES[..4] {
        assert!(rt; sheet.apply(entry));
    }
    for entry in &REFUSED {
        assert!(rt; !sheet.apply(entry));
        equal(&rt, &sheet.counts(), &FOUR);
    }
    equal(&rt, &sheet.pick(A), &Some(4));
    equal(&rt, &sheet.pick(B), &None);
    assert_eq!(rt; sheet.plan().len(), 6);
    assert!(rt; sheet.ready(4) && !sheet.ready(5) && sheet.is_last(3) && !sheet.is_last(2));
    let early = sheet.early(4);
    equal(&rt, &early, &0);
    for q in 0..6 {
        equal(&rt, &sheet.fits_without(4, early, q), &(q == 2));
    }
    sheet.clear();
    equal(&rt, &sheet.counts(), &EMPTY);
    equal(&rt, &sheet.into_plan().len(), &6);
    Ok(())
}

/// Each change is made on a copy, so that a copy keeps what it needs for changes. What was placed and withdrawn again leaves nothing in
/// any cycle.
#[test]
fn changes_one_by_one(rt: HostRuntime) -> Result<(), Fail> {
    let fresh = sheet_of(&rt, rt.alloc(), SIX)?;
    let mut sheet = fresh.copy(rt.alloc())?;
    for k in 0..10 {
        sheet = sheet.copy(rt.alloc())?;
        assert!(rt; sheet.apply(&CHANGES[k]));
        assert_eq!(rt; sheet.plan().len(), 6);
        let seen = (sheet.pick(A), sheet.pick(B), sheet.early(3), sheet.early(5));
        equal_in(&rt, &k, &seen, &AFTER[k]);
    }
    assert!(rt; sheet.complete());
    let want = "0.D2 0.L2 1.L1 2.L1 0.M1 2.M1 5";
    equal(&rt, &placed(rt.alloc(), &sheet)?.as_str(), &want);
    for last in 0..6 {
        assert!(rt; sheet.apply(&Entry::Withdraw(5 - last, Who::A)));
    }
    for i in 0..6 {
        for cycle in 0..30 {
            for unit in Unit::ALL {
                let spot = Spot { cycle, unit };
                let found = answer(&rt, &sheet, i, spot);
                let wanted = answer(&rt, &fresh, i, spot);
                equal_in(&rt, &(i, cycle), &found, &wanted);
            }
        }
    }
    Ok(())
}
