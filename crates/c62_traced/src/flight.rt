//! A text of packets with everything in flight whose events are told.

ghost use Rattle.std.specs.Prelude.{◌≡◌, ◌+◌, ◌-◌, ◌<◌, ◌^◌, IfOk, List};
ghost use Rattle.c62_flight.specs.Text.{IsIssuable};
ghost use Rattle.c62_flight.specs.Flight.{Flies};
ghost use Rattle.c62_rows.specs.Rows.{text_of};
ghost use Rattle.c62_exec.specs.Step.{on_way, clash_from, settled, flown_from};
ghost use Rattle.c62_trace.specs.Event.{Entry};
ghost use Rattle.c62_traced.specs.Row.{settling_log};
ghost use Rattle.c62_traced.specs.Flight.{IsFlightLog};

use crate::row::{run_row, tell_settling};
use c62_exec::{Flown, Passed, Underway, row_after};
use c62_flight::Stop;
use c62_rows::Rows;
use c62_serial::State;
use c62_trace::Watch;
use std::alloc::AllocError;

/// The most instructions of a row, one on each unit.
const UNITS: usize = 8;

/// Stops a run so, as [`Underway::come_down`] does, and tells of what still lands.
fn come_down<T: Watch>(
    stop: Stop,
    end: u64,
    underway: &mut Underway,
    state: &mut State,
    watch: &mut T,
) -> Result<Flown, AllocError>
    requires { end < 2 ^ 62 }
    ensures flown { IfOk result (λ flown. flown ≡ flown_from stop end (clash_from 4 end underway.old.pipe.slots)) }
    ensures landed { IfOk result (λ flown. on_way underway.new.pipe underway.new.turns state.new.machine
        ≡ settled 4 end (on_way underway.old.pipe underway.old.turns state.old.machine)) }
    ensures told { IfOk result (λ _. T.tells watch.old watch.new (settling_log end 4 underway.old.pipe.slots)) }
{
    tell_settling(end, &underway.pipe, watch)?;
    Ok(underway.come_down(stop, end, state))
}

/// Runs a text of packets as [`fly_traced`] does.
fn trace_rows<T: Watch>(
    rows: &Rows,
    first: u32,
    limit: u32,
    state: &mut State,
    watch: &mut T,
) -> Result<Flown, AllocError>
    requires { IsIssuable (text_of rows.now) }
    ensures { IfOk result (λ flown. (log : List Entry)
        × IsFlightLog (text_of rows.now) first limit state.old.machine flown.stop flown.cycles state.new.machine log
        × T.tells watch.old watch.new log) }
{
    state.room(UNITS * (rows.rows.len() + 1))?;
    // It tells what holds of every state.
    let _ = state.faults();
    let most = u64::from(limit);
    let mut underway = Underway::new();
    let mut row = first as usize;
    let mut cycle = 0;
    while row < rows.rows.len() || underway.turns.any() {
        if cycle >= most {
            let flown = come_down(Stop::Limit, cycle, &mut underway, state, watch)?;
            return Ok(flown);
        }
        let turn = match run_row(rows, row, cycle, &mut underway, state, watch)? {
            Passed::Over(end, turn) => {
                cycle = end;
                turn
            }
            Passed::Broken(broken, stop) => {
                tell_settling(broken + 1, &underway.pipe, watch)?;
                underway.settle(broken + 1, 4, state);
                let cycles = broken + 1;
                return Ok(Flown { stop, cycles });
            }
        };
        row = match row_after(rows, row, turn) {
            Ok(next) => next,
            Err(word) => {
                let stop = Stop::Register(word);
                let flown = come_down(stop, cycle, &mut underway, state, watch)?;
                return Ok(flown);
            }
        };
    }
    let flown = come_down(Stop::End, cycle, &mut underway, state, watch)?;
    Ok(flown)
}

/// Runs a text of packets from a row on as [`fly`](c62_exec::fly) does, and tells of its events as it goes.
///
/// Room for the faults of eight instructions a row, and of eight more, is made first.
///
/// # Errors
///
/// `AllocError` where memory ran out.
pub fn fly_traced<T: Watch>(
    rows: &Rows,
    first: u32,
    limit: u32,
    state: &mut State,
    watch: &mut T,
) -> Result<Flown, AllocError>
    requires { IsIssuable (text_of rows.now) }
    ensures flies { IfOk result (λ flown. Flies (text_of rows.now) first limit state.old.machine flown.stop flown.cycles state.new.machine) }
    ensures told { IfOk result (λ flown. (log : List Entry)
        × IsFlightLog (text_of rows.now) first limit state.old.machine flown.stop flown.cycles state.new.machine log
        × T.tells watch.old watch.new log) }
{
    let flown = trace_rows(rows, first, limit, state, watch)?;
    Ok(flown)
}
