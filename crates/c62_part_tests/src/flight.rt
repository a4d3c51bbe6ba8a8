//! Packets in flight that no text may have, a run of no cycle, want of memory, and traces on streams that take no more.

use crate::expect::{equal, equal_in};
use c62_exec::{fly, is_issuable};
use c62_insn::Reg;
use c62_insn::Side::{A, B};
use c62_op::InstructionSet;
use c62_report::flight_report;
use c62_rows::{Rows, read_from, read_rows};
use c62_serial::State;
use c62_trace::{Lines, View, Window};
use c62_traced::{fly_traced, names_of_rows};
use std::alloc::Global;
use std::io;
use std::io::Write;
use std::process::Abort;
use std::test::Fail;

const A1: Reg = Reg { side: A, number: 1 };

const A4: Reg = Reg { side: A, number: 4 };

const B0: Reg = Reg { side: B, number: 0 };

const B4: Reg = Reg { side: B, number: 4 };

/// Texts of packets, whose last is put beside the first; what B0 holds, and A1 holds 1; the cycles that may pass; and the report.
const STOPS: [(&str, u32, u32, &str); 3] = [
    (
        "MVK .S1 3,A1\n NOP",
        0,
        0,
        "cycles 0\nexit limit\nA1 00000001\n",
    ),
    (
        "[A1] B .S1 L1\nL1: NOP\nL2: [B0] B .S2 L2",
        1,
        1000,
        "cycles 1\nexit branches 1 3\nA1 00000001\nB0 00000001\n",
    ),
    (
        "[A1] B .S1 L1\n NOP 9\nL1: MVK .S1 1,A2\nL2: [!A1] B .S2 L2",
        0,
        1000,
        "cycles 7\nexit end\nA1 00000001\nA2 00000001\n",
    ),
];

/// The rows of a text, read again where memory is refused.
fn rows_of(alloc: Global, text: &str) -> Result<Rows, Fail> {
    match read_rows(InstructionSet::Core, alloc, text.as_bytes()) {
        Ok(read) => Ok(read.rows),
        Err(_) => {
            let read = read_rows(InstructionSet::Core, alloc, text.as_bytes())?;
            Ok(read.rows)
        }
    }
}

/// The rows of a text, of which the last is put beside the first.
fn besides(alloc: Global, text: &str) -> Result<Rows, Fail> {
    let mut rows = rows_of(alloc, text)?;
    if let Some(last) = rows.rows.pop()
        && let Some(first) = rows.rows.first_mut()
    {
        first.insns.extend_from_slice(&last.insns)?;
    }
    Ok(rows)
}

#[test]
fn runs_stop(rt: HostRuntime) -> Result<(), Fail> {
    for (text, value, limit, want) in &STOPS {
        let rows = besides(rt.alloc(), text)?;
        let issuable = is_issuable(&rows);
        assert!(rt; issuable);
        let mut state = State::new(rt.alloc())?;
        state.set(A1, 1);
        state.set(B0, *value);
        let flown = fly(rt.alloc(), &rows, 0, *limit, &mut state)?;
        let report = flight_report(rt.alloc(), flown.stop, flown.cycles, &state)?;
        equal_in(&rt, text, &str::from_utf8(&report)?, want);
    }
    Ok(())
}

/// Want of memory leaves the state as it was.
#[test]
fn want_of_memory(rt: HostRuntime) -> Result<(), Fail> {
    let rows = rows_of(rt.alloc(), "MVK .S1 1,A1\n LDH .D1T1 *A1,A5")?;
    let issuable = is_issuable(&rows);
    assert!(rt; issuable);
    let mut state = State::new(rt.alloc())?;
    let left = match fly(rt.alloc(), &rows, 0, 9, &mut state) {
        Ok(_) => 1,
        Err(_) => 0,
    };
    equal(&rt, &state.reg(A1), &left);
    Ok(())
}

/// A text of packets, of whose run tests/cases/exec/traces.case has the trace, and that trace's first line.
const TRACED: (&str, &str) = (
    " MPY .M1 A1,A4,A5\n|| STW .D2 B4,*B4\n|| [!A1] ADD .S1 A1,A4,A6\n LDH .D1 *A4++,A7\n|| LDB .D2 *-B4[13],B7\nL: [A1] B .S2 L\n|| SUB .L1 A1,1,A1\n NOP 5\n",
    "        0 line 3      [!A1] ADD .S1 A1,A4,A6           skipped A1=00000001\n",
);

/// A stream that takes so many bytes, two at most at a time.
#[derive(Drop)]
struct Short {
    held: Vec<u8>,
    room: usize,
}

impl Write for Short {
    fn write(&mut self, bytes: &[u8]) -> io::Result<usize> {
        let count = bytes.len().min(self.room).min(2);
        self.held.extend_from_slice(&bytes[..count])?;
        self.room = self.room.saturating_sub(count);
        Ok(count)
    }

    fn flush(&mut self) -> io::Result<()> {
        Ok(())
    }
}

/// A stream with so much room behind the trace of the run, as far as its first cycles, and whether it took all of it.
fn traced(rt: &impl Abort, alloc: Global, cycles: u64, room: usize) -> Result<(Short, bool), Fail> {
    let begun = read_from(InstructionSet::Core, alloc, TRACED.0.as_bytes(), None)?;
    let issuable = is_issuable(&begun.rows);
    assert!(rt; issuable);
    let names = names_of_rows(alloc, &begun.rows, &begun.labels)?;
    let mut state = State::new(alloc)?;
    state.set(A1, 1);
    state.set(A4, 8);
    state.set(B4, 12);
    let view = View {
        window: Window {
            from: 0,
            count: cycles,
        },
        names,
        base: state.base(),
    };
    let stream = Short {
        held: Vec::new(alloc),
        room,
    };
    let mut lines = Lines::new(alloc, view, 100, stream);
    let _ = fly_traced(&begun.rows, begun.first, 40, &mut state, &mut lines)?;
    let (stream, whole) = lines.end();
    Ok((stream, whole.is_ok()))
}

/// A stream that takes no more has a front, and in a window of no cycle nothing is told.
#[test]
fn streams_that_end(rt: HostRuntime) -> Result<(), Fail> {
    let (all, whole) = traced(&rt, rt.alloc(), u64::MAX, 10_000)?;
    assert!(rt; whole && all.held.starts_with(TRACED.1.as_bytes()));
    for room in [0usize, 1, 74, 75, 700] {
        let (stream, whole) = traced(&rt, rt.alloc(), u64::MAX, room)?;
        equal(&rt, &whole, &false);
        let front = all.held.get(..room).ok_or("a front")?;
        equal(&rt, &stream.held.as_slice(), &front);
    }
    let (stream, whole) = traced(&rt, rt.alloc(), 0, 80)?;
    equal(&rt, &whole, &true);
    equal(&rt, &stream.held.len(), &0);
    Ok(())
}
