//! Runs of packets with everything in flight, and their reports.

ghost use Rattle.std.specs.Prelude.{◌≡◌, true, false, IfOk, option_map};
ghost use Rattle.std.specs.Option.{option_copied};
ghost use Rattle.c62_flight.specs.Text.{IsIssuable};
ghost use Rattle.c62_flight.specs.Flight.{Flies};
ghost use Rattle.c62_rows.specs.Rows.{text_of};
ghost use Rattle.c62_command.specs.CommandLine.{FlightReport};
ghost use Rattle.c62_answer.specs.Run.{Gives, IsFlown, TellsFlight, is_flight_limit};

use crate::failure::Failure;
use crate::outcome::{Outcome, Reply};
use crate::run::opening;
use c62_adopt::read_code;
use c62_command::{FlightCourse, FlightStart, Setting};
use c62_exec::{Flown, fly, fly_counted};
use c62_flight::Stop;
use c62_op::InstructionSet;
use c62_printing::{push_dumps, push_prints};
use c62_profile::flight_table;
use c62_report::flight_report;
use c62_rows::{Begun, read_from};
use c62_serial::State;
use std::alloc::{AllocError, Global};

/// Whether a run ended by its limit.
pub(crate) fn is_flight_limit(stop: Stop) -> bool
    ensures { result ≡ is_flight_limit stop }
{
    match stop {
        Stop::Limit => true,
        Stop::End | Stop::Register(_) | Stop::Clash(_, _, _) | Stop::Branches(_, _) => false,
    }
}

/// Runs a text of packets with everything in flight, without a table.
fn flown_plain(
    alloc: Global,
    begun: &Begun,
    most: u32,
    state: &mut State,
) -> Result<(Flown, Vec<u8>), AllocError>
    requires { IsIssuable (text_of begun.now.rows) }
    ensures flies { IfOk result (λ ran. Flies (text_of begun.now.rows) begun.now.first most state.old.machine ran.0.stop ran.0.cycles state.new.machine) }
    ensures told { IfOk result (λ ran. TellsFlight false (text_of begun.now.rows) begun.now.labels.entries begun.now.first most state.old.machine ran.0.stop ran.0.cycles state.new.machine ran.1.items) }
{
    let flown = fly(alloc, &begun.rows, begun.first, most, state)?;
    Ok((flown, Vec::new(alloc)))
}

/// Runs it, and writes the table of its rows.
#[tactic(auto, using(crate::proofs::Flown::few_cycles, crate::proofs::Flown::flight_told))]
fn flown_counted(
    alloc: Global,
    begun: &Begun,
    most: u32,
    state: &mut State,
) -> Result<(Flown, Vec<u8>), AllocError>
    requires { IsIssuable (text_of begun.now.rows) }
    ensures flies { IfOk result (λ ran. Flies (text_of begun.now.rows) begun.now.first most state.old.machine ran.0.stop ran.0.cycles state.new.machine) }
    ensures told { IfOk result (λ ran. TellsFlight true (text_of begun.now.rows) begun.now.labels.entries begun.now.first most state.old.machine ran.0.stop ran.0.cycles state.new.machine ran.1.items) }
{
    let (flown, counts) = fly_counted(alloc, &begun.rows, begun.first, most, state)?;
    let mut table = Vec::new(alloc);
    flight_table(&mut table, &begun.labels, &counts, flown.cycles)?;
    Ok((flown, table))
}

/// Runs it. Answers how, and the table of its rows where one is asked for.
fn flown_told(
    alloc: Global,
    begun: &Begun,
    course: FlightCourse,
    state: &mut State,
) -> Result<(Flown, Vec<u8>), AllocError>
    requires { IsIssuable (text_of begun.now.rows) }
    ensures flies { IfOk result (λ ran. Flies (text_of begun.now.rows) begun.now.first course.cycles state.old.machine ran.0.stop ran.0.cycles state.new.machine) }
    ensures told { IfOk result (λ ran. TellsFlight course.profile (text_of begun.now.rows) begun.now.labels.entries begun.now.first course.cycles state.old.machine ran.0.stop ran.0.cycles state.new.machine ran.1.items) }
{
    if course.profile {
        flown_counted(alloc, begun, course.cycles, state)
    } else {
        flown_plain(alloc, begun, course.cycles, state)
    }
}

/// The report of such a run from zeros with these settings, with the table of its rows below it where one is asked for.
pub(crate) fn flown(
    alloc: Global,
    begun: &Begun,
    settings: &[Setting],
    course: FlightCourse,
) -> Result<Reply, AllocError>
    requires { IsIssuable (text_of begun.now.rows) }
    ensures { IfOk result (λ reply. IsFlown (text_of begun.now.rows) begun.now.labels.entries begun.now.first settings.now course reply.outcome reply.text.items) }
{
    let mut state = opening(alloc, settings)?;
    let (flown, table) = flown_told(alloc, begun, course, &mut state)?;
    let mut text = flight_report(alloc, flown.stop, flown.cycles, &state)?;
    push_prints(&mut text, &state, settings)?;
    text.extend_from_slice(&table)?;
    push_dumps(&mut text, &state, settings)?;
    Ok(Reply {
        text,
        outcome: Outcome::of_run(course.strict, is_flight_limit(flown.stop), state.faults()),
    })
}

/// The name of the label with whose row a run begins.
pub(crate) fn name_of(start: &FlightStart) -> Option<&[u8]>
    ensures { option_copied result ≡ option_map (λ name. name.items) start.now.from }
{
    match &start.from {
        Some(name) => Some(name),
        None => None,
    }
}

/// The report of a run of a text of packets as people and compilers write them, with everything in flight.
///
/// # Errors
///
/// The first fault of the text, that no line has the label of `--from`, or that memory ran out.
pub fn exec(
    isa: InstructionSet,
    alloc: Global,
    text: &[u8],
    start: &FlightStart,
) -> Result<Reply, Failure>
    ensures { Gives isa (FlightReport start.now.course (option_map (λ name. name.items) start.now.from) start.now.settings.items) text.now result }
{
    let code = read_code(isa, alloc, text)?;
    let begun = read_from(isa, alloc, &code, name_of(start))?;
    Ok(flown(alloc, &begun, &start.settings, start.course)?)
}
