//! The accesses that fault in a strict run.

ghost use Rattle.std.specs.Prelude.{IfOk};
ghost use Rattle.c62_flight.specs.Text.{IsIssuable};
ghost use Rattle.c62_rows.specs.Rows.{text_of};
ghost use Rattle.c62_answer.specs.Run.{TellsFlightFaults};

use crate::run::opening;
use c62_command::Flight;
use c62_faulted::push_faults;
use c62_faulted_packets::faults_of_flight;
use c62_rows::Begun;
use std::alloc::{AllocError, Global};

/// The accesses that fault in a run of packets in flight from zeros with these settings, a line each.
///
/// # Errors
///
/// `AllocError` where memory ran out.
pub(crate) fn flight_faults(
    alloc: Global,
    begun: &Begun,
    flight: &Flight,
) -> Result<Vec<u8>, AllocError>
    requires { IsIssuable (text_of begun.now.rows) }
    ensures { IfOk result (λ more. TellsFlightFaults (text_of begun.now.rows) begun.now.first flight.now.settings.items flight.now.course more.items) }
{
    let mut state = opening(alloc, &flight.settings)?;
    let base = state.base();
    let cycles = flight.course.cycles;
    let faults = faults_of_flight(alloc, &begun.rows, begun.first, cycles, &mut state)?;
    let mut more = Vec::new(alloc);
    push_faults(&mut more, alloc, base, &faults)?;
    Ok(more)
}
