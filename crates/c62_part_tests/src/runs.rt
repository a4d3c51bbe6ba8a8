//! What no words ask of runs: that no block is run, and files behind answers without a report or with too few bytes.

use crate::expect::equal;
use c62_dumping::{files_of, parted};
use c62_op::InstructionSet;
use c62_read::read_program;
use c62_report::packet_report;
use c62_serial::{State, run_program};
use std::test::Fail;

/// A text, and the report of no block of it, with more cycles than a case has time for.
const NONE_RUN: [(&str, &str); 2] = [
    ("", "blocks 0\ncycles 131072000\nexit end\n"),
    ("MVK 1,A1\n", "blocks 0\ncycles 131072000\nexit limit\n"),
];

#[test]
fn no_block_is_run(rt: HostRuntime) -> Result<(), Fail> {
    for (text, want) in &NONE_RUN {
        let program = read_program(InstructionSet::Core, rt.alloc(), text.as_bytes())?;
        let mut state = State::new(rt.alloc())?;
        let chain = run_program(&program, &mut state, 0)?;
        let report = packet_report(rt.alloc(), chain, 131_072_000, &state)?;
        equal(&rt, &report.as_slice(), &want.as_bytes());
    }
    Ok(())
}

#[test]
fn answers_are_parted(rt: HostRuntime) -> Result<(), Fail> {
    for (counts, answer) in [(&[3][..], "123"), (&[2, 3], "1234")] {
        let (report, dumped) = parted(answer.as_bytes(), counts);
        equal(&rt, &report.len(), &0);
        equal(&rt, &dumped, &answer.as_bytes());
    }
    let files = files_of(rt.alloc(), &["a", "b", "c"], &[2, 1, 2], b"1234")?;
    equal(&rt, &files.len(), &3);
    for (file, (name, bytes)) in files.iter().zip([("a", "12"), ("b", "3"), ("c", "4")]) {
        equal(&rt, &file.name, &name);
        equal(&rt, &file.bytes, &bytes.as_bytes());
    }
    Ok(())
}
