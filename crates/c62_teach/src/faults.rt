//! What is told of the accesses that fault in a strict run.

ghost use Rattle.std.specs.Prelude.{IfOk, IsTrue, Some, option_map};
ghost use Rattle.std.specs.Option.{option_copied};
ghost use Rattle.c62_packet.specs.Packets.{is_closed};
ghost use Rattle.c62_flight.specs.Text.{IsIssuable};
ghost use Rattle.c62_rows.specs.Rows.{text_of};
ghost use Rattle.c62_command.specs.declared.command.Form.TheVariants.{Listed, Written};
ghost use Rattle.c62_command.specs.CommandLine.{ask_of, flight_asked};
ghost use Rattle.c62_answer.specs.Run.{TellsFlightFaults, TellsIf};
ghost use Rattle.c62_teach.specs.Faulted.{TellsCode, TellsFaults, TellsPackets, TellsProgram, TellsRows, TellsRun, TellsStanding, TellsStrict, TellsTaken};

use c62_adopt::laws::texts_that_stand_lack_nothing;
use c62_adopt::{AdoptFault, adopt, read_code};
use c62_answer::opening;
use c62_command::{FlightStart, Form, Request, Start};
use c62_faulted::{faults_of, push_faults};
use c62_faulted_packets::{faults_of_flight, faults_of_packets};
use c62_line::Cause;
use c62_listing_reader::{ListFault, read_listing};
use c62_op::InstructionSet;
use c62_packet::Packets;
use c62_reach::{ReachFault, reached_text};
use c62_read::{Program, read_program};
use c62_rows::{Begun, RowsFault, read_from};
use std::alloc::{AllocError, Global};

/// The accesses that fault in a program's serial run, a line each.
fn run_told(alloc: Global, program: &Program, start: &Start) -> Result<Vec<u8>, AllocError>
    ensures { IfOk result (λ more. TellsRun program.now start.now.settings.items start.now.course more.items) }
{
    let mut state = opening(alloc, &start.settings)?;
    let base = state.base();
    let faults = faults_of(alloc, program, &mut state, start.course.blocks)?;
    let mut more = Vec::new(alloc);
    push_faults(&mut more, alloc, base, &faults)?;
    Ok(more)
}

/// Those of the run of a text.
#[tactic(auto, using(crate::proofs::Strict::program_some, crate::proofs::Strict::program_none))]
fn program_told(
    isa: InstructionSet,
    alloc: Global,
    start: &Start,
    text: &[u8],
) -> Result<Vec<u8>, AllocError>
    ensures { IfOk result (λ more. TellsProgram isa start.now.settings.items start.now.course text.now more.items) }
{
    let fault = match read_program(isa, alloc, text) {
        Ok(program) => return run_told(alloc, &program, start),
        Err(fault) => fault,
    };
    if let Cause::Memory = fault.cause {
        return Err(AllocError);
    }
    Ok(Vec::new(alloc))
}

/// Where it is strict.
fn strict_told(
    isa: InstructionSet,
    alloc: Global,
    start: &Start,
    text: &[u8],
) -> Result<Vec<u8>, AllocError>
    ensures { IfOk result (λ more. TellsStrict isa start.now.settings.items start.now.course text.now more.items) }
{
    if start.course.strict {
        program_told(isa, alloc, start, text)
    } else {
        Ok(Vec::new(alloc))
    }
}

/// The accesses that fault in a run of packets as they stand, a line each.
fn packets_told(alloc: Global, packets: &Packets, start: &Start) -> Result<Vec<u8>, AllocError>
    requires { IsTrue (is_closed packets.now) }
    ensures { IfOk result (λ more. TellsPackets packets.now start.now.settings.items start.now.course more.items) }
{
    let mut state = opening(alloc, &start.settings)?;
    let base = state.base();
    let faults = faults_of_packets(alloc, packets, &mut state, start.course.blocks)?;
    let mut more = Vec::new(alloc);
    push_faults(&mut more, alloc, base, &faults)?;
    Ok(more)
}

/// Those of the run of a listing.
#[tactic(auto, using(crate::proofs::Strict::listing_some, crate::proofs::Strict::listing_none))]
fn listing_told(
    isa: InstructionSet,
    alloc: Global,
    start: &Start,
    text: &[u8],
) -> Result<Vec<u8>, AllocError>
    ensures { IfOk result (λ more. TellsStanding isa Listed start.now.settings.items start.now.course text.now more.items) }
{
    let fault = match read_listing(isa, alloc, text) {
        Ok(packets) => return packets_told(alloc, &packets, start),
        Err(fault) => fault,
    };
    if let ListFault::Memory = fault {
        return Err(AllocError);
    }
    Ok(Vec::new(alloc))
}

/// Those of the run of packets as people and compilers write them.
#[tactic(auto, using(crate::proofs::Strict::written_some, crate::proofs::Strict::written_none))]
fn written_told(
    isa: InstructionSet,
    alloc: Global,
    start: &Start,
    text: &[u8],
) -> Result<Vec<u8>, AllocError>
    ensures { IfOk result (λ more. TellsStanding isa Written start.now.settings.items start.now.course text.now more.items) }
{
    // It tells that no cycle is added where the text isn't drained.
    texts_that_stand_lack_nothing();
    let fault = match adopt(isa, alloc, text, false) {
        Ok(adopted) => return packets_told(alloc, &adopted.packets, start),
        Err(fault) => fault,
    };
    if let AdoptFault::Memory = fault {
        return Err(AllocError);
    }
    Ok(Vec::new(alloc))
}

/// Those of the run of packets of this form.
fn standing_told(
    isa: InstructionSet,
    alloc: Global,
    form: Form,
    start: &Start,
    text: &[u8],
) -> Result<Vec<u8>, AllocError>
    ensures { IfOk result (λ more. TellsStanding isa form start.now.settings.items start.now.course text.now more.items) }
{
    match form {
        Form::Listed => listing_told(isa, alloc, start, text),
        Form::Written => written_told(isa, alloc, start, text),
    }
}

/// The accesses that fault in a run of packets in flight, a line each.
fn flight_told(alloc: Global, begun: &Begun, start: &FlightStart) -> Result<Vec<u8>, AllocError>
    requires { IsIssuable (text_of begun.now.rows) }
    ensures { IfOk result (λ more. TellsFlightFaults (text_of begun.now.rows) begun.now.first start.now.settings.items start.now.course more.items) }
{
    let mut state = opening(alloc, &start.settings)?;
    let base = state.base();
    let cycles = start.course.cycles;
    let faults = faults_of_flight(alloc, &begun.rows, begun.first, cycles, &mut state)?;
    let mut more = Vec::new(alloc);
    push_faults(&mut more, alloc, base, &faults)?;
    Ok(more)
}

/// Those of the run of code, from the row of this label on or the first.
#[tactic(auto, using(crate::proofs::Strict::issuable, crate::proofs::Strict::rows_some, crate::proofs::Strict::rows_none))]
fn rows_told(
    isa: InstructionSet,
    alloc: Global,
    from: Option<&[u8]>,
    start: &FlightStart,
    code: &[u8],
) -> Result<Vec<u8>, AllocError>
    ensures { IfOk result (λ more. TellsRows isa (option_copied from.entry) start.now.settings.items start.now.course code.now more.items) }
{
    let fault = match read_from(isa, alloc, code, from) {
        Ok(begun) => return flight_told(alloc, &begun, start),
        Err(fault) => fault,
    };
    if let RowsFault::Memory = fault {
        return Err(AllocError);
    }
    Ok(Vec::new(alloc))
}

/// Those of the run of a text's code, so.
#[tactic(auto, using(crate::proofs::Strict::code_some, crate::proofs::Strict::code_none))]
fn code_told(
    isa: InstructionSet,
    alloc: Global,
    from: Option<&[u8]>,
    start: &FlightStart,
    text: &[u8],
) -> Result<Vec<u8>, AllocError>
    ensures { IfOk result (λ more. TellsCode isa (option_copied from.entry) start.now.settings.items start.now.course text.now more.items) }
{
    let fault = match read_code(isa, alloc, text) {
        Ok(code) => return rows_told(isa, alloc, from, start, &code),
        Err(fault) => fault,
    };
    if let AdoptFault::Memory = fault {
        return Err(AllocError);
    }
    Ok(Vec::new(alloc))
}

/// Those of the run of what is taken of a text from this label on.
#[tactic(auto, using(crate::proofs::Strict::taken_some, crate::proofs::Strict::taken_none))]
fn taken_told(
    isa: InstructionSet,
    alloc: Global,
    name: &[u8],
    start: &FlightStart,
    text: &[u8],
) -> Result<Vec<u8>, AllocError>
    ensures { IfOk result (λ more. TellsTaken isa name.now (Some name.now) start.now.settings.items start.now.course text.now more.items) }
{
    match reached_text(isa, alloc, text, name) {
        Ok(taken) => code_told(isa, alloc, Some(name), start, &taken),
        Err(ReachFault::Memory) => Err(AllocError),
        Err(ReachFault::From) => Ok(Vec::new(alloc)),
    }
}

/// Those of the run of a text of packets in flight, as it is asked for.
fn flying_told(
    isa: InstructionSet,
    alloc: Global,
    start: &FlightStart,
    text: &[u8],
) -> Result<Vec<u8>, AllocError>
    ensures { IfOk result (λ more. TellsFaults isa (flight_asked start.now.alone start.now.course (option_map (λ name. name.items) start.now.from) start.now.settings.items)
        text.now more.items) }
{
    if !start.course.strict {
        return Ok(Vec::new(alloc));
    }
    match &start.from {
        Some(name) if start.alone => taken_told(isa, alloc, name, start, text),
        Some(name) => code_told(isa, alloc, Some(name), start, text),
        None => code_told(isa, alloc, None, start, text),
    }
}

/// Those of the run of packets of this form, where it is strict.
fn sim_told(
    isa: InstructionSet,
    alloc: Global,
    form: Form,
    start: &Start,
    text: &[u8],
) -> Result<Vec<u8>, AllocError>
    ensures { IfOk result (λ more. TellsIf start.now.course.strict (TellsStanding isa form start.now.settings.items start.now.course text.now more.items) more.items) }
{
    if start.course.strict {
        standing_told(isa, alloc, form, start, text)
    } else {
        Ok(Vec::new(alloc))
    }
}

/// The accesses that fault where a text is run strictly, a line for each line that has one, in the order in which they come
/// (docs/REPORT.md, "Accesses that fault"). Nothing where something else is asked for.
///
/// # Errors
///
/// `AllocError` where memory ran out.
pub fn faults_told(
    isa: InstructionSet,
    alloc: Global,
    request: &Request,
    text: &[u8],
) -> Result<Vec<u8>, AllocError>
    ensures { IfOk result (λ more. TellsFaults isa (ask_of request.now) text.now more.items) }
{
    match request {
        Request::Run(_, start) | Request::Serial(start, _) => strict_told(isa, alloc, start, text),
        Request::Sim(form, start) => sim_told(isa, alloc, *form, start, text),
        Request::Exec(start) => flying_told(isa, alloc, start, text),
        _ => Ok(Vec::new(alloc)),
    }
}
