//! Documents of runs (docs/JSON.md, "Reports").

ghost use Rattle.std.specs.Prelude.{◌≡◌, IfOk, IsTrue, None, List, ℕ, length, map, option_map};
ghost use Rattle.std.specs.Option.{option_copied};
ghost use Rattle.clap.specs.Words.{Text as Name};
ghost use Rattle.c62_op.specs.declared.register.Reg.{Reg as Register};
ghost use Rattle.c62_answer.specs.Run.{Gives, IsAnswer, IsCounted, TellsOfPackets, TellsOfRun, TellsOfFlight};
ghost use Rattle.c62_answer.specs.Looped.{IsLooped, IsReadAgain};
ghost use Rattle.c62_command.specs.CommandLine.{Document, FlightReport, LoopReport, PacketReport, Reaching, SerialReport, StandingReport, flight_asked};
ghost use Rattle.c62_command.specs.Promises.{trips_of};
ghost use Rattle.c62_command.specs.declared.command.Packing.{Packing as Packed};
ghost use Rattle.c62_exec.specs.Counts.{CountsFlight};
ghost use Rattle.c62_flight.specs.Flight.{Flies};
ghost use Rattle.c62_flight.specs.Text.{IsIssuable};
ghost use Rattle.c62_json_report.specs.Runs.{FewCycles, OneEach};
ghost use Rattle.c62_packet.specs.Packets.{is_closed};
ghost use Rattle.c62_pipe.specs.Chain.{RunsPackets};
ghost use Rattle.c62_profile.specs.Visits.{CountsPackets, CountsProgram};
ghost use Rattle.c62_rows.specs.Rows.{text_of};
ghost use Rattle.c62_rows.specs.Told.{BeginsAs};
ghost use Rattle.c62_serial.specs.Chain.{RunsProgram};

use crate::answer::program_of;
use crate::exec::{is_flight_limit, name_of};
use crate::failure::Failure;
use crate::outcome::{Outcome, Reply};
use crate::packets::packets_in;
use crate::pipelining::{Looped, make_looped, packed, read_again, told_beside};
use crate::reaching::taken_from;
use crate::run::{is_limit, opening};
use c62_adopt::read_code;
use c62_command::{
    Course, Flight, FlightCourse, FlightStart, Form, Looping, Packing, Setting, Start,
};
use c62_exec::{Count, Flown, fly, fly_counted};
use c62_json_report::{FlightRun, Left, PacketRun, flight_document, packet_document};
use c62_op::{InstructionSet, Reg};
use c62_packet::Packets;
use c62_pipe::run_chain;
use c62_printing::push_dumps;
use c62_profile::{Tally, run_packets, run_serial};
use c62_read::Program;
use c62_rows::{Begun, read_from};
use c62_serial::{Chain, State, run_program};
use std::alloc::{AllocError, Global};
use std::sync::Wait;
use std::thread::Threads;

/// Runs a program serially, and counts its blocks where a table of them is asked for.
fn serial_counted(
    alloc: Global,
    program: &Program,
    course: Course,
    state: &mut State,
) -> Result<(Chain, Option<Tally>), AllocError>
    ensures run { IfOk result (λ ran. RunsProgram program.now state.old.machine course.blocks ran.0 state.new.machine) }
    ensures counted { IfOk result (λ ran. IsCounted course.profile (CountsProgram program.now state.old.machine course.blocks ran.0 state.new.machine) ran.1) }
    ensures each { IfOk result (λ ran. OneEach (length program.now) ran.1) }
{
    if course.profile {
        let (chain, tally) = run_serial(alloc, program, state, course.blocks)?;
        Ok((chain, Some(tally)))
    } else {
        let chain = run_program(program, state, course.blocks)?;
        Ok((chain, None))
    }
}

/// Runs packets, and counts their blocks where a table of them is asked for. Answers the chain and its cycles, too.
fn packets_counted(
    alloc: Global,
    packets: &Packets,
    course: Course,
    state: &mut State,
) -> Result<(Chain, u64, Option<Tally>), AllocError>
    requires { IsTrue (is_closed packets.now) }
    ensures run { IfOk result (λ ran. RunsPackets packets.now state.old.machine course.blocks ran.0 ran.1 state.new.machine) }
    ensures counted { IfOk result (λ ran. IsCounted course.profile (CountsPackets packets.now state.old.machine course.blocks ran.0 state.new.machine) ran.2) }
    ensures each { IfOk result (λ ran. OneEach (length packets.now) ran.2) }
{
    if course.profile {
        let (chain, tally) = run_packets(alloc, packets, state, course.blocks)?;
        Ok((chain, tally.taken, Some(tally)))
    } else {
        let (chain, cycles) = run_chain(packets, state, course.blocks)?;
        Ok((chain, cycles, None))
    }
}

/// Runs a text of packets with everything in flight, and counts its rows where a table of them is asked for.
#[tactic(auto, using(crate::proofs::Flown::few_cycles))]
fn flight_counted(
    alloc: Global,
    begun: &Begun,
    course: FlightCourse,
    state: &mut State,
) -> Result<(Flown, Option<Vec<Count>>), AllocError>
    requires { IsIssuable (text_of begun.now.rows) }
    ensures flies { IfOk result (λ ran. Flies (text_of begun.now.rows) begun.now.first course.cycles state.old.machine ran.0.stop ran.0.cycles state.new.machine) }
    ensures counted { IfOk result (λ ran. IsCounted course.profile (CountsFlight (text_of begun.now.rows) begun.now.first course.cycles state.old.machine
        ran.0.stop ran.0.cycles state.new.machine) (option_map (λ counts. counts.items) ran.1)) }
    ensures few { IfOk result (λ ran. FewCycles (option_map (λ counts. counts.items) ran.1)) }
{
    if course.profile {
        let (flown, counts) = fly_counted(alloc, &begun.rows, begun.first, course.cycles, state)?;
        Ok((flown, Some(counts)))
    } else {
        let flown = fly(alloc, &begun.rows, begun.first, course.cycles, state)?;
        Ok((flown, None))
    }
}

/// What was counted, where something was.
fn tally_of(tally: &Option<Tally>) -> Option<&Tally>
    ensures { option_copied result ≡ tally.now }
{
    match tally {
        Some(tally) => Some(tally),
        None => None,
    }
}

/// What was counted of rows, where something was.
fn counts_of(counts: &Option<Vec<Count>>) -> Option<&[Count]>
    ensures { option_copied result ≡ option_map (λ counts. counts.items) counts.now }
{
    match counts {
        Some(counts) => Some(counts),
        None => None,
    }
}

/// The document of the serial run of a program.
fn serial_told(alloc: Global, program: &Program, start: &Start) -> Result<Reply, AllocError>
    ensures { IfOk result (λ reply. TellsOfRun program.now start.now.settings.items start.now.course reply.outcome reply.text.items) }
{
    let mut state = opening(alloc, &start.settings)?;
    let (chain, counted) = serial_counted(alloc, program, start.course, &mut state)?;
    let tally = tally_of(&counted);
    let settings = start.settings.as_slice();
    let left = Left {
        state: &state,
        settings,
    };
    let mut text = c62_json_report::serial_document(alloc, program, chain, &left, tally)?;
    push_dumps(&mut text, &state, &start.settings)?;
    Ok(Reply {
        text,
        outcome: Outcome::of_run(start.course.strict, is_limit(chain.stop), state.faults()),
    })
}

/// The document of the serial run of what a text says. What becomes of the registers that are to be apart isn't told in it.
pub(crate) fn serial_document(
    isa: InstructionSet,
    alloc: Global,
    text: &[u8],
    start: &Start,
    _apart: &Vec<Reg>,
) -> Result<Reply, Failure>
    ensures { Gives isa (Document (SerialReport start.now.course start.now.settings.items _apart.now.items)) text.now result }
{
    let program = program_of(isa, alloc, text)?;
    Ok(serial_told(alloc, &program, start)?)
}

/// The document of a run of packets by a command.
fn packets_told(
    alloc: Global,
    command: &str,
    packets: &Packets,
    start: &Start,
) -> Result<Reply, AllocError>
    requires { IsTrue (is_closed packets.now) }
    ensures { IfOk result (λ reply. TellsOfPackets command.now packets.now start.now.settings.items start.now.course reply.outcome reply.text.items) }
{
    let mut state = opening(alloc, &start.settings)?;
    let (chain, cycles, counted) = packets_counted(alloc, packets, start.course, &mut state)?;
    let tally = tally_of(&counted);
    let settings = start.settings.as_slice();
    let run = PacketRun {
        packets,
        chain,
        cycles,
    };
    let left = Left {
        state: &state,
        settings,
    };
    let mut text = packet_document(alloc, command, &run, &left, tally)?;
    push_dumps(&mut text, &state, &start.settings)?;
    Ok(Reply {
        text,
        outcome: Outcome::of_run(start.course.strict, is_limit(chain.stop), state.faults()),
    })
}

/// The document of a run of what a text says, packed as is asked for.
pub(crate) fn run_document<H: AllocGlobal + Threads + Wait + Sync>(
    isa: InstructionSet,
    rt: &H,
    text: &[u8],
    packing: Packing,
    start: &Start,
) -> Result<Reply, Failure>
    ensures { Gives isa (Document (PacketReport packing start.now.course start.now.settings.items)) text.now result }
{
    let program = program_of(isa, rt.alloc(), text)?;
    let packets = packed(rt, program, packing)?;
    Ok(packets_told(rt.alloc(), "run", &packets, start)?)
}

/// The document of a run of packets as they stand in a text of this form.
pub(crate) fn sim_document(
    isa: InstructionSet,
    alloc: Global,
    form: Form,
    text: &[u8],
    start: &Start,
) -> Result<Reply, Failure>
    ensures { Gives isa (Document (StandingReport form start.now.course start.now.settings.items)) text.now result }
{
    let packets = packets_in(isa, alloc, form, text)?;
    Ok(packets_told(alloc, "sim", &packets, start)?)
}

/// The document of a run of a text of packets with everything in flight, by a command.
fn flight_told(
    alloc: Global,
    command: &str,
    begun: &Begun,
    settings: &[Setting],
    course: FlightCourse,
) -> Result<Reply, AllocError>
    requires { IsIssuable (text_of begun.now.rows) }
    ensures { IfOk result (λ reply. TellsOfFlight command.now (text_of begun.now.rows) begun.now.labels.entries begun.now.first settings.now course
        reply.outcome reply.text.items) }
{
    let mut state = opening(alloc, settings)?;
    let (flown, counted) = flight_counted(alloc, begun, course, &mut state)?;
    let counts = counts_of(&counted);
    let labels = &begun.labels;
    let run = FlightRun {
        labels,
        stop: flown.stop,
        cycles: flown.cycles,
    };
    let left = Left {
        state: &state,
        settings,
    };
    let mut text = flight_document(alloc, command, &run, &left, counts)?;
    push_dumps(&mut text, &state, settings)?;
    Ok(Reply {
        text,
        outcome: Outcome::of_run(course.strict, is_flight_limit(flown.stop), state.faults()),
    })
}

/// The document of a run of a text of packets as people and compilers write them, with everything in flight.
fn exec_told(
    isa: InstructionSet,
    alloc: Global,
    text: &[u8],
    start: &FlightStart,
) -> Result<Reply, Failure>
    ensures { Gives isa (Document (FlightReport start.now.course (option_map (λ name. name.items) start.now.from) start.now.settings.items)) text.now result }
{
    let code = read_code(isa, alloc, text)?;
    let begun = read_from(isa, alloc, &code, name_of(start))?;
    Ok(flight_told(alloc, "exec", &begun, &start.settings, start.course)?)
}

/// The document of a run of what is taken of a text from the label of this name on.
#[tactic(auto, using(crate::proofs::Documented::reached_document, crate::proofs::Documented::not_reached_document))]
fn exec_from(
    isa: InstructionSet,
    alloc: Global,
    text: &[u8],
    name: &[u8],
    start: &FlightStart,
) -> Result<Reply, Failure>
    ensures { Gives isa (Document (Reaching name.now (FlightReport start.now.course (option_map (λ name. name.items) start.now.from) start.now.settings.items))) text.now result }
{
    match taken_from(isa, alloc, text, name) {
        Ok(taken) => exec_told(isa, alloc, &taken, start),
        Err(failure) => Err(failure),
    }
}

/// The document of a run of a text of packets, or of what is taken of it.
pub(crate) fn exec_document(
    isa: InstructionSet,
    alloc: Global,
    text: &[u8],
    start: &FlightStart,
) -> Result<Reply, Failure>
    ensures { Gives isa (Document (flight_asked start.now.alone start.now.course (option_map (λ name. name.items) start.now.from) start.now.settings.items)) text.now result }
{
    if start.alone {
        match &start.from {
            Some(name) => exec_from(isa, alloc, text, name, start),
            None => exec_told(isa, alloc, text, start),
        }
    } else {
        exec_told(isa, alloc, text, start)
    }
}

/// The document of a run of packets of a text whose loops are pipelined, which begin so, and what is told of their loops.
#[tactic(auto, using(crate::proofs::Looping::is_issuable))]
fn loops_told(
    isa: InstructionSet,
    alloc: Global,
    verbose: bool,
    looped: &Looped,
    begun: &Begun,
    flight: &Flight,
) -> Result<Reply, AllocError>
    requires { IsReadAgain isa looped.now.program looped.now.written begun.now }
    ensures { (packing : Packed) (trips : List (Name × ℕ)) (apart : List Register) (text : List ℕ)
        → IsLooped isa packing trips apart text looped.now.program looped.now.written
        → IfOk result (λ reply. IsAnswer isa (Document (LoopReport verbose packing trips apart flight.now.course flight.now.settings.items)) reply.outcome text reply.text.items) }
{
    let told = told_beside(isa, alloc, verbose, looped, begun, flight)?;
    let reply = flight_told(alloc, "run", begun, &flight.settings, flight.course)?;
    Ok(Reply {
        text: reply.text,
        outcome: Outcome::Looped(told, reply.outcome.breach()),
    })
}

/// The same, where these packets are read again.
fn loops_run(
    isa: InstructionSet,
    alloc: Global,
    verbose: bool,
    looped: &Looped,
    flight: &Flight,
) -> Result<Reply, Failure>
    ensures { (packing : Packed) (trips : List (Name × ℕ)) (apart : List Register) (text : List ℕ)
        → IsLooped isa packing trips apart text looped.now.program looped.now.written
        → Gives isa (Document (LoopReport verbose packing trips apart flight.now.course flight.now.settings.items)) text result }
{
    match read_again(isa, alloc, looped) {
        Ok(begun) => Ok(loops_told(isa, alloc, verbose, looped, &begun, flight)?),
        Err(fault) => Err(Failure::from(fault)),
    }
}

/// The document of a run of packets of a text whose loops are pipelined.
#[tactic(auto, using(crate::proofs::RunsDocumented::no_run_loops_documented))]
pub(crate) fn loop_report_document<H: AllocGlobal + Threads + Wait + Sync>(
    isa: InstructionSet,
    rt: &H,
    text: &[u8],
    looping: &Looping,
    flight: &Flight,
) -> Result<Reply, Failure>
    ensures { Gives isa (Document (LoopReport looping.now.verbose looping.now.packing (map trips_of looping.now.promises.trips.items)
        looping.now.promises.apart.items flight.now.course flight.now.settings.items)) text.now result }
{
    match make_looped(isa, rt, text, looping) {
        Ok(looped) => loops_run(isa, rt.alloc(), looping.verbose, &looped, flight),
        Err(failure) => Err(failure),
    }
}
