//! A row whose events are told.

ghost use Rattle.std.specs.Prelude.{◌≡◌, ◌+◌, ◌<◌, ◌≤◌, ◌^◌, IfOk, OnOk, length};
ghost use Rattle.c62_serial.specs.State.{line_capacity};
ghost use Rattle.c62_flight.specs.Text.{row_of, IsIssuable};
ghost use Rattle.c62_rows.specs.Rows.{text_of};
ghost use Rattle.c62_exec.specs.Step.{Fit, on_way, gone, row_goes, row_passes, end_of};
ghost use Rattle.c62_traced.specs.Row.{log_behind, packet_log, row_log, settling_log};

use c62_exec::{Passed, Taken, Underway};
use c62_flight::Stop;
use c62_packet::Placed;
use c62_pipe::Pipe;
use c62_rows::Rows;
use c62_serial::State;
use c62_trace::Watch;
use std::alloc::AllocError;

/// In how many cycles behind the last issue all lands.
const LANDING_CYCLES: u64 = 4;

/// Tells of a packet whose instructions are issued in a cycle.
fn tell_packet<T: Watch>(
    cycle: u64,
    insns: &[Placed],
    state: &State,
    watch: &mut T,
) -> Result<(), AllocError>
    requires { cycle < 2 ^ 63 }
    ensures { OnOk result (T.tells watch.old watch.new (packet_log state.now.machine cycle insns.now)) }
{
    for placed in insns {
        watch.insn(cycle, placed, state)?;
    }
    Ok(())
}

/// Tells of all that is in flight and lands from a cycle on, in which nothing is issued any more.
pub(crate) fn tell_settling<T: Watch>(
    first: u64,
    pipe: &Pipe,
    watch: &mut T,
) -> Result<(), AllocError>
    requires { first < 2 ^ 62 }
    ensures { OnOk result (T.tells watch.old watch.new (settling_log first 4 pipe.now.slots)) }
{
    let mut cycle = first;
    while cycle < first + LANDING_CYCLES {
        watch.landings(cycle, pipe.due(cycle))?;
        cycle += 1;
    }
    Ok(())
}

/// Ends a cycle of a row, which may be broken, and those behind it, and tells of these.
fn pass<T: Watch>(
    idle: u32,
    broken: Option<Stop>,
    start: u64,
    underway: &mut Underway,
    state: &mut State,
    watch: &mut T,
) -> Result<Passed, AllocError>
    requires { start < 2 ^ 61 }
    ensures passed { IfOk result (λ passed. gone passed (on_way underway.new.pipe underway.new.turns state.new.machine)
        ≡ row_goes broken idle start (on_way underway.old.pipe underway.old.turns state.old.machine)) }
    ensures told { OnOk result (T.tells watch.old watch.new
        (log_behind broken idle start (on_way underway.old.pipe underway.old.turns state.old.machine))) }
    ensures end { IfOk result (λ passed. end_of passed ≤ start + idle + 1) }
    ensures capacity { OnOk result (line_capacity state.new ≡ line_capacity state.old) }
{
    let mut cycle = start;
    let mut left = idle;
    let mut broken = broken;
    loop {
        let (next, turn) = match underway.pass(0, broken, cycle, state) {
            Passed::Broken(at, stop) => return Ok(Passed::Broken(at, stop)),
            Passed::Over(next, turn) => (next, turn),
        };
        if left == 0 || turn.is_some() {
            return Ok(Passed::Over(next, turn));
        }
        cycle = next;
        left -= 1;
        broken = underway.turn(Taken::Nothing, cycle);
        watch.landings(cycle, underway.pipe.due(cycle))?;
    }
}

/// Runs a row that begins in a cycle, as [`Underway`] does, and tells of it.
fn run_insns<T: Watch>(
    insns: &[Placed],
    idle: u32,
    start: u64,
    underway: &mut Underway,
    state: &mut State,
    watch: &mut T,
) -> Result<Passed, AllocError>
    requires soon { start < 2 ^ 61 }
    requires fit { Fit start insns.now underway.old.pipe state.old.machine }
    requires room { length insns.now ≤ state.old.room }
    ensures passed { IfOk result (λ passed. gone passed (on_way underway.new.pipe underway.new.turns state.new.machine)
        ≡ row_passes insns.now idle start (on_way underway.old.pipe underway.old.turns state.old.machine)) }
    ensures told { OnOk result (T.tells watch.old watch.new
        (row_log insns.now idle start (on_way underway.old.pipe underway.old.turns state.old.machine))) }
    ensures end { IfOk result (λ passed. end_of passed ≤ start + idle + 1) }
    ensures capacity { OnOk result (line_capacity state.new ≡ line_capacity state.old) }
{
    tell_packet(start, insns, state, watch)?;
    let taken = underway.issue(insns, start, state);
    let broken = underway.turn(taken, start);
    watch.landings(start, underway.pipe.due(start))?;
    pass(idle, broken, start, underway, state, watch)
}

/// The instructions of a row of the text, or of one behind its last, which has none.
fn insns_of(rows: &Rows, row: usize) -> &[Placed]
    ensures { result.now ≡ (row_of (text_of rows.now) row).insns }
{
    match rows.rows.get(row) {
        Some(row) => &row.insns,
        None => &[],
    }
}

/// How many cycles a row of the text, or one behind its last, takes behind its first.
fn idle_of(rows: &Rows, row: usize) -> u32
    ensures { result ≡ (row_of (text_of rows.now) row).idle }
{
    match rows.rows.get(row) {
        Some(row) => row.idle,
        None => 0,
    }
}

/// Runs a row of the text, or one behind its last, that begins in a cycle, as [`run_row`](c62_exec::run_row) does, and tells of it.
///
/// # Errors
///
/// `AllocError` where memory ran out.
pub(crate) fn run_row<T: Watch>(
    rows: &Rows,
    row: usize,
    start: u64,
    underway: &mut Underway,
    state: &mut State,
    watch: &mut T,
) -> Result<Passed, AllocError>
    requires rows { IsIssuable (text_of rows.now) }
    requires soon { start < 2 ^ 61 }
    requires fit { Fit start (row_of (text_of rows.now) row).insns underway.old.pipe state.old.machine }
    requires room { 8 ≤ state.old.room }
    ensures passed { IfOk result (λ passed. gone passed (on_way underway.new.pipe underway.new.turns state.new.machine)
        ≡ row_passes (row_of (text_of rows.now) row).insns (row_of (text_of rows.now) row).idle start
        (on_way underway.old.pipe underway.old.turns state.old.machine)) }
    ensures told { OnOk result (T.tells watch.old watch.new
        (row_log (row_of (text_of rows.now) row).insns (row_of (text_of rows.now) row).idle start
        (on_way underway.old.pipe underway.old.turns state.old.machine))) }
    ensures end { IfOk result (λ passed. end_of passed ≤ start + 2 ^ 32) }
    ensures capacity { OnOk result (line_capacity state.new ≡ line_capacity state.old) }
{
    run_insns(
        insns_of(rows, row),
        idle_of(rows, row),
        start,
        underway,
        state,
        watch,
    )
}
