//! A run of a text of packets with everything in flight.

ghost use Rattle.std.specs.Prelude.{◌≡◌, IfOk};
ghost use Rattle.c62_flight.specs.Text.{IsIssuable, row_of};
ghost use Rattle.c62_rows.specs.Rows.{text_of};
ghost use Rattle.c62_faulted_packets.specs.Flight.{FindsFlightFaults};

use crate::block::note_packet;
use c62_exec::{Passed, Underway, row_after, run_row};
use c62_faulted::Fault;
use c62_flight::Stop;
use c62_packet::Placed;
use c62_rows::Rows;
use c62_serial::State;
use std::alloc::{AllocError, Global};

/// The most instructions of a row, one on each unit.
const UNITS: usize = 8;

/// The instructions of a row of the text, or of one behind its last, which has none.
fn insns_of(rows: &Rows, row: usize) -> &[Placed]
    ensures { result.now ≡ (row_of (text_of rows.now) row).insns }
{
    match rows.rows.get(row) {
        Some(row) => &row.insns,
        None => &[],
    }
}

/// The first fault of each line of a text of packets that has one, where it is run from a row on as [`fly`](c62_exec::fly) runs it, for so
/// many cycles at most, in the order in which they come (docs/REPORT.md, "Accesses that fault").
///
/// # Errors
///
/// `AllocError` where memory ran out.
pub fn faults_of_flight(
    alloc: Global,
    rows: &Rows,
    first: u32,
    limit: u32,
    state: &mut State,
) -> Result<Vec<Fault>, AllocError>
    requires rows { IsIssuable (text_of rows.now) }
    ensures { IfOk result (λ faults. FindsFlightFaults (text_of rows.now) first limit state.old.machine faults.items) }
{
    state.room(UNITS * (rows.rows.len() + 1))?;
    // It tells what holds of every state.
    let _ = state.faults();
    let most = u64::from(limit);
    let mut faults = Vec::new(alloc);
    let mut underway = Underway::new();
    let mut row = first as usize;
    let mut cycle = 0;
    while row < rows.rows.len() || underway.turns.any() {
        if cycle >= most {
            underway.come_down(Stop::Limit, cycle, state);
            return Ok(faults);
        }
        note_packet(&mut faults, insns_of(rows, row), state)?;
        let turn = match run_row(rows, row, cycle, &mut underway, state) {
            Passed::Over(end, turn) => {
                cycle = end;
                turn
            }
            Passed::Broken(broken, _) => {
                underway.settle(broken + 1, 4, state);
                return Ok(faults);
            }
        };
        row = match row_after(rows, row, turn) {
            Ok(next) => next,
            Err(word) => {
                underway.come_down(Stop::Register(word), cycle, state);
                return Ok(faults);
            }
        };
    }
    underway.come_down(Stop::End, cycle, state);
    Ok(faults)
}
