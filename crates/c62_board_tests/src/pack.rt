//! Packets of boards and of spots.

use crate::expect::{equal, equal_in};
use crate::made::{L1, S1, SUM, longest, placed, plan_of, spot_text};
use c62_board::{Board, Spot};
use c62_insn::Unit;
use c62_pack::{AtFault, packets_at, packets_of};
use c62_packet::{PacketBlock, Placed};
use std::alloc::Global;
use std::process::Abort;

/// A text, and its packets where it is placed in its order: each instruction by its line, cycle and unit; then the length.
const PACKETS: [(&str, &str, u16); 18] = [
    (SUM, "1@0.S1 2@1.S1 3@2.L1 ", 3),
    (
        "MVK 3,A1\nADD A5,A1,A2\nLDW *A4,A5",
        "1@0.S1 3@0.D1 2@1.L1 ",
        5,
    ),
    ("LDW *A4,A5\nMVK 1,A5", "1@0.D1 2@5.S1 ", 6),
    (
        "MPY A1,A1,A4\nADD A1,A1,A5\nSUB A1,A2,A3",
        "2@0.L1 1@0.M1 3@1.L1 ",
        2,
    ),
    ("ADD A1,B1,A2\nSUB A3,B3,A4", "1@0.L1 2@1.L1 ", 2),
    ("LDW *A4,A5\nLDW *B4,A6", "1@0.D1 2@1.D2 ", 6),
    ("LDW *A4,A5\nLDW *B4,B6", "1@0.D1 2@0.D2 ", 5),
    (
        "L1:\nMVK 0,A0\nMVK 1,A1\nMVK 2,A2\nMVK 3,A3\nMVK 4,A4\nMVK 5,A5\nMVK 6,A6\nMVK 7,A7\nB L1",
        "2@0.S1 3@1.S1 4@2.S1 10@2.S2 5@3.S1 6@4.S1 7@5.S1 8@6.S1 9@7.S1 ",
        8,
    ),
    ("L1: MPY A1,A2,A3\nB L1", "1@0.M1 2@0.S2 ", 6),
    ("STW A1,*A4", "1@0.D1 ", 1),
    ("MVK 1,A1", "1@0.S1 ", 1),
    ("EMPTY:", "", 0),
    // Those below have shorter schedules.
    (
        "L1: MVK 1,A1\nMVK 2,A2\nB .S1 L1",
        "1@0.S1 2@1.S1 3@2.S1 ",
        8,
    ),
    (
        "ADD A1,A2,A3\nCMPEQ A1,A2,A4\nSUB A3,A4,A5",
        "1@0.L1 2@1.L1 3@2.L1 ",
        3,
    ),
    (
        "ADD A1,B1,A2\nMPY A1,B1,A3\nMPY A3,A3,A4",
        "1@0.L1 2@1.M1 3@3.M1 ",
        5,
    ),
    (
        "L1: SUB A1,1,A1\nMVK 7,A7\nMVK 8,A8\n[A1] B .S1 L1",
        "1@0.L1 2@0.S1 3@1.S1 4@2.S1 ",
        8,
    ),
    (
        "L1: MVK 1,A1\nSHL A3,2,A4\nLDW *A4,A5\nADD B1,B2,B3\nADD B1,B2,B4\nADD B1,B2,B5\nADD B1,B2,B6\n[A1] B L1",
        "1@0.S1 4@0.L2 5@0.S2 6@0.D2 2@1.S1 7@1.L2 8@2.S1 3@2.D1 ",
        8,
    ),
    (
        "L1: MVK 1,A1\nSHL A3,2,A4\nLDW *A4,A5\nADD B1,B2,B3\nADD B1,B2,B4\nADD B1,B2,B5\nADD B1,B2,B6\n[A1] B .S1 L1",
        "1@0.S1 4@0.L2 5@0.S2 6@0.D2 2@1.S1 7@1.L2 8@2.S1 3@2.D1 ",
        8,
    ),
];

/// Three spots for the instructions of the sum, and their packets, or nothing where they are not lawful.
const SPOTS: [([(u16, Unit); 3], Option<(&str, u16)>); 4] = [
    (
        [(1, S1), (0, S1), (3, L1)],
        Some(("2@0.S1 1@1.S1 3@3.L1 ", 4)),
    ),
    ([(1, S1), (0, S1), (1, L1)], None),
    ([(0, S1), (0, S1), (3, L1)], None),
    ([(1, S1), (0, S1), (15, L1)], None),
];

fn spot_of(stands: &Placed) -> Spot {
    Spot {
        cycle: stands.cycle,
        unit: stands.unit,
    }
}

/// Ends the test where packets aren't these, or an instruction has another unit than it stands on.
fn has_packets(rt: &impl Abort, alloc: Global, block: &PacketBlock, (wanted, length): (&str, u16)) {
    let mut all = String::new(alloc);
    for stands in block.placed() {
        equal(rt, &stands.insn.unit(), &Some(stands.unit));
        let spot = spot_text(alloc, spot_of(stands)).expect(rt, "memory");
        let text = format!(in alloc; "{}@{} ", stands.line, spot.as_str()).expect(rt, "memory");
        all.push_str(&text).expect(rt, "memory");
    }
    equal(rt, &all.as_str(), &wanted);
    equal_in(rt, &wanted, &block.length(), &length);
}

/// The packets of a complete board.
fn packed(rt: &impl Abort, alloc: Global, board: &Board) -> PacketBlock {
    assert!(rt; board.complete());
    packets_of(alloc, board).expect(rt, "memory")
}

#[test]
fn packets_of_boards(rt: HostRuntime) {
    for (text, packets, length) in &PACKETS {
        let board = placed(&rt, rt.alloc(), text);
        equal_in(&rt, text, &board.length(), length);
        let block = packed(&rt, rt.alloc(), &board);
        has_packets(&rt, rt.alloc(), &block, (packets, *length));
        let is_named = board.plan().block().label().is_some();
        equal_in(&rt, text, &block.label().is_some(), &is_named);
    }
}

#[test]
fn packets_at_spots(rt: HostRuntime) {
    let plan = plan_of(&rt, rt.alloc(), SUM);
    for (stands, wanted) in &SPOTS {
        let [first, second, third] = *stands;
        let spots = [first, second, third].map(|(cycle, unit)| Spot { cycle, unit });
        match (packets_at(rt.alloc(), &plan, &spots), wanted) {
            (Ok(block), Some(packets)) => has_packets(&rt, rt.alloc(), &block, *packets),
            (Err(fault), None) => equal(&rt, &fault, &AtFault::NotLawful),
            _ => panic!(rt; "{stands:?}"),
        }
        let two = packets_at(rt.alloc(), &plan, &spots[..2]);
        equal(&rt, &two.err(), &Some(AtFault::NotLawful));
    }
}

/// As many instructions as a block can have, each in a cycle of its own.
#[test]
fn a_full_block(rt: HostRuntime) {
    let board = placed(&rt, rt.alloc(), &longest(&rt, rt.alloc()));
    let block = packed(&rt, rt.alloc(), &board);
    let mut spots = Vec::new(rt.alloc());
    for stands in block.placed() {
        spots.push(spot_of(stands)).expect(&rt, "memory");
    }
    let same = packets_at(rt.alloc(), board.plan(), &spots).expect(&rt, "lawful");
    for block in [&block, &same] {
        equal(&rt, &(block.placed().len(), block.length()), &(256, 256));
    }
}
