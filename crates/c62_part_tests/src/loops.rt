//! A loop of which no trip is granted, one that a store keeps in one stage, and one that is written.

use crate::common::block_of;
use crate::expect::{equal, equal_in};
use c62_insn::{Reg, Side};
use c62_loop_match::{Pipelined, Promise, Region};
use c62_loop_text::push_loop;
use c62_modulo::{Shortness, Terms, pipelined};
use c62_op::InstructionSet;
use c62_pair::RegSet;
use c62_read::SerialInsn;
use c62_rows::read_rows;
use std::test::Fail;

/// What is found of a loop: the cycles of a trip, how many iterations prolog and epilog hold, and whether no trip is shorter.
type Found = (u16, u8, Shortness);

/// Loops under A1, the trips that are granted, and what is found.
const LOOPS: [(&str, u32, Option<Found>); 2] = [
    (
        "L: LDW *A4++,A2\nADD A2,A3,A3\nSUB A1,1,A1\n[A1] B L\n",
        0,
        None,
    ),
    // A store may meet the loads behind it, but where that is promised not to be.
    (
        "L: LDW *A4++,A2\n MPY A2,B6,B3\n STW B3,*B4++\n SUB A1,1,A1\n [A1] B L\n",
        100,
        Some((8, 0, Shortness::Shortest)),
    ),
];

/// A text of packets, whose kernel begins with the second row.
const TEXT: &str =
    "   SUB .S1 A1,2,A1\nL:\n   [A1] SUB .L1 A1,1,A1\n|| LDW .D1T1 *A4++[1],A2\n|| [A1] B .S2 L\n   NOP 4\n   ADD .L1 A2,A3,A3\n|| NOP 2\n";

#[test]
fn loops_are_pipelined_and_written(rt: HostRuntime) -> Result<(), Fail> {
    let alloc = rt.alloc();
    for (text, trips, want) in &LOOPS {
        let block = block_of(&rt, alloc, text)?;
        let region = Region {
            before: Vec::new(alloc),
            body: Vec::from_slice(alloc, block.insns())?,
            behind: Vec::new(alloc),
            counter: Reg {
                side: Side::A,
                number: 1,
            },
            number: 0,
        };
        let terms = Terms {
            promise: Promise {
                bases: RegSet::new(),
            },
            trips: *trips,
            longest: 10,
        };
        let found = match pipelined(alloc, &region, terms)? {
            Some(made) => Some((made.interval, made.most, made.shortness())),
            None => None,
        };
        equal_in(&rt, text, &found, want);
    }
    // The packets of a text are written again.
    let block = block_of(&rt, alloc, "L: B L")?;
    let read = read_rows(InstructionSet::Core, alloc, TEXT.as_bytes())?;
    let packets = Pipelined {
        rows: read.rows,
        first: 0,
        prolog: 1,
        kernel: 2,
        epilog: 1,
        label: 0,
    };
    let mut out = String::new(alloc);
    push_loop(&mut out, block.label().expect(&rt, "a label"), &packets)?;
    equal(&rt, &out.as_str(), &TEXT);
    Ok(())
}
