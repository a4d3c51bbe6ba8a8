//! Answers of packets whose loops are pipelined (docs/SCHEDULING.md, "Loops of a program").

ghost use Rattle.std.specs.Prelude.{◌≡◌, map, IfOk, IfErr, IsTrue, MatchResult, None, List, ℕ};
ghost use Rattle.clap.specs.Words.{Text as Name};
ghost use Rattle.c62_op.specs.declared.register.Reg.{Reg as Register};
ghost use Rattle.c62_packet.specs.Packets.{is_closed};
ghost use Rattle.c62_flight.specs.Text.{IsIssuable};
ghost use Rattle.c62_rows.specs.Rows.{text_of};
ghost use Rattle.c62_rows.specs.Text.{RefusesFrom};
ghost use Rattle.c62_rows.specs.Told.{BeginsAs};
ghost use Rattle.c62_check_loops.specs.Granted.{first_loopless};
ghost use Rattle.c62_command.specs.CommandLine.{LoopListing, LoopPicture, LoopReport};
ghost use Rattle.c62_command.specs.Promises.{trips_of};
ghost use Rattle.c62_command.specs.declared.command.Packing.{Packing as Packed};
ghost use Rattle.c62_answer.specs.Drawing.{loop_drawing};
ghost use Rattle.c62_answer.specs.Looped.{IsLooped, IsReadAgain, told_lines};
ghost use Rattle.c62_answer.specs.Run.{Gives, IsAnswer, IsToldBeside, RefusesLooped, TellsFlightFaults, TellsIf};
ghost use Rattle.c62_answer.specs.Schedule.{AreScheduled};
ghost use Rattle.c62_answer.specs.Texts.{SaysProgram};

use crate::answer::program_of;
use crate::exec::flown;
use crate::failure::Failure;
use crate::outcome::{Outcome, Reply};
use crate::schedule::{packets_by_turns, packets_by_workers};
use crate::strict::flight_faults;
use c62_check_loops::first_loopless;
use c62_command::{Drawing, Flight, Looping, Packing, Promises};
use c62_op::InstructionSet;
use c62_packet::Packets;
use c62_page_loops::loops_page;
use c62_pipeline::{Origin, Pipelining, kernels, lined, loop_lines, origins_of, pipeline};
use c62_read::Program;
use c62_rows::{Begun, RowsFault, read_from};
use std::alloc::{AllocError, Global};
use std::sync::Wait;
use std::thread::Threads;

/// The program that a text says, where each label of which trips are promised is a loop's.
#[tactic(auto, using(crate::proofs::Looping::unread_loops, crate::proofs::Looping::loopless))]
fn looped_program(
    isa: InstructionSet,
    alloc: Global,
    text: &[u8],
    promises: &Promises,
) -> Result<Program, Failure>
    ensures says { IfOk result (SaysProgram isa text.now) }
    ensures named { IfOk result (λ program. first_loopless program (map trips_of promises.now.trips.items) ≡ None) }
    ensures err { IfErr result (RefusesLooped isa (map trips_of promises.now.trips.items) text.now) }
{
    let program = match program_of(isa, alloc, text) {
        Ok(program) => program,
        Err(failure) => return Err(failure),
    };
    match first_loopless(program.blocks(), &promises.trips) {
        Some(number) => Err(Failure::NoLoop(number)),
        None => Ok(program),
    }
}

/// The packets of a program, packed as is asked for.
pub(crate) fn packed<H: AllocGlobal + Threads + Wait + Sync>(
    rt: &H,
    program: Program,
    packing: Packing,
) -> Result<Packets, AllocError>
    ensures packed { IfOk result (AreScheduled packing program) }
    ensures closed { IfOk result (λ packets. IsTrue (is_closed packets)) }
{
    if packing.turns {
        packets_by_turns(rt.alloc(), program, packing)
    } else {
        packets_by_workers(rt, program, packing)
    }
}

/// A program, and packets of it whose loops are pipelined.
#[derive(Drop)]
pub(crate) struct Looped {
    pub program: Program,
    pub written: Pipelining,
    /// Where the program's instructions stand of which those of the packets are instances.
    pub origins: Vec<Origin>,
}

/// The packets of a text whose loops are pipelined.
#[tactic(auto, using(crate::proofs::Looping::unread_loops, crate::proofs::Looping::looped_text))]
pub(crate) fn make_looped<H: AllocGlobal + Threads + Wait + Sync>(
    isa: InstructionSet,
    rt: &H,
    text: &[u8],
    looping: &Looping,
) -> Result<Looped, Failure>
    ensures ok { IfOk result (λ looped. IsLooped isa looping.now.packing (map trips_of looping.now.promises.trips.items)
        looping.now.promises.apart.items text.now looped.program looped.written) }
    ensures err { IfErr result (RefusesLooped isa (map trips_of looping.now.promises.trips.items) text.now) }
{
    let program = match looped_program(isa, rt.alloc(), text, &looping.promises) {
        Ok(program) => program,
        Err(failure) => return Err(failure),
    };
    let again = match program_of(isa, rt.alloc(), text) {
        Ok(again) => again,
        Err(failure) => return Err(failure),
    };
    let packets = packed(rt, again, looping.packing)?;
    let written = pipeline(isa, rt.alloc(), &program, &packets, &looping.promises)?;
    let origins = origins_of(rt.alloc(), &packets, &written)?;
    Ok(Looped {
        program,
        written,
        origins,
    })
}

/// What is told of loops, where that is asked for.
fn told_lines(
    alloc: Global,
    verbose: bool,
    program: &Program,
    written: &Pipelining,
) -> Result<Vec<u8>, AllocError>
    ensures { IfOk result (λ told. told.items ≡ told_lines verbose program.now written.now) }
{
    if verbose {
        Ok(loop_lines(alloc, program.blocks(), written)?.into_bytes())
    } else {
        Ok(Vec::new(alloc))
    }
}

/// These packets, and what is told of their loops.
fn listed(
    isa: InstructionSet,
    alloc: Global,
    verbose: bool,
    looped: Looped,
) -> Result<Reply, AllocError>
    ensures { (packing : Packed) (trips : List (Name × ℕ)) (apart : List Register) (text : List ℕ)
        → IsLooped isa packing trips apart text looped.program looped.written
        → IfOk result (λ reply. IsAnswer isa (LoopListing verbose packing trips apart) reply.outcome text reply.text.items) }
{
    let Looped {
        program,
        written,
        ..
    } = looped;
    let told = told_lines(alloc, verbose, &program, &written)?;
    Ok(Reply {
        text: written.text,
        outcome: Outcome::Looped(told, None),
    })
}

/// The packets of a text whose loops are pipelined, and what is told of these.
///
/// # Errors
///
/// The first fault of the text, then that a label of `--trips` is no loop's, or that memory ran out.
#[tactic(auto, using(crate::proofs::Looping::no_listed_loops))]
pub(crate) fn loop_listing<H: AllocGlobal + Threads + Wait + Sync>(
    isa: InstructionSet,
    rt: &H,
    text: &[u8],
    looping: &Looping,
) -> Result<Reply, Failure>
    ensures { Gives isa (LoopListing looping.now.verbose looping.now.packing (map trips_of looping.now.promises.trips.items)
        looping.now.promises.apart.items) text.now result }
{
    match make_looped(isa, rt, text, looping) {
        Ok(looped) => Ok(listed(isa, rt.alloc(), looping.verbose, looped)?),
        Err(failure) => Err(failure),
    }
}

/// What became of the loops of a text, and their kernels, drawn so.
fn loop_drawing(
    alloc: Global,
    drawing: Drawing,
    text: &[u8],
    looped: &Looped,
) -> Result<Vec<u8>, AllocError>
    ensures { IfOk result (λ drawn. drawn.items ≡ loop_drawing drawing text.now looped.now.program looped.now.written) }
{
    match drawing {
        Drawing::Columns => {
            Ok(kernels(alloc, looped.program.blocks(), &looped.written)?.into_bytes())
        }
        Drawing::Page => loops_page(alloc, text, looped.program.blocks(), &looped.written),
    }
}

/// The picture of the loops of these packets of a text.
fn drawn(
    isa: InstructionSet,
    alloc: Global,
    drawing: Drawing,
    text: &[u8],
    looped: &Looped,
) -> Result<Reply, AllocError>
    ensures { (packing : Packed) (trips : List (Name × ℕ)) (apart : List Register)
        → IsLooped isa packing trips apart text.now looped.now.program looped.now.written
        → IfOk result (λ reply. IsAnswer isa (LoopPicture drawing packing trips apart) reply.outcome text.now reply.text.items) }
{
    Ok(Reply {
        text: loop_drawing(alloc, drawing, text, looped)?,
        outcome: Outcome::Done,
    })
}

/// The picture of the loops of such packets.
///
/// # Errors
///
/// Those of [`loop_listing`].
#[tactic(auto, using(crate::proofs::Looping::no_drawn_loops))]
pub(crate) fn loop_picture<H: AllocGlobal + Threads + Wait + Sync>(
    isa: InstructionSet,
    rt: &H,
    text: &[u8],
    looping: &Looping,
    drawing: Drawing,
) -> Result<Reply, Failure>
    ensures { Gives isa (LoopPicture drawing looping.now.packing (map trips_of looping.now.promises.trips.items) looping.now.promises.apart.items) text.now result }
{
    match make_looped(isa, rt, text, looping) {
        Ok(looped) => Ok(drawn(isa, rt.alloc(), drawing, text, &looped)?),
        Err(failure) => Err(failure),
    }
}

/// What was read of these packets, in the lines of the serial text.
fn in_lines(
    isa: InstructionSet,
    alloc: Global,
    looped: &Looped,
    begun: Begun,
) -> Result<Begun, AllocError>
    requires { BeginsAs isa looped.now.written.text.items None begun }
    ensures { IfOk result (IsReadAgain isa looped.now.program looped.now.written) }
{
    let blocks = looped.program.blocks();
    let rows = lined(alloc, blocks, &looped.origins, &begun.rows)?;
    Ok(Begun { rows, ..begun })
}

/// These packets, read again, in the lines of the serial text.
pub(crate) fn read_again(
    isa: InstructionSet,
    alloc: Global,
    looped: &Looped,
) -> Result<Begun, RowsFault>
    ensures { MatchResult result (IsReadAgain isa looped.now.program looped.now.written) (RefusesFrom isa looped.now.written.text.items None) }
{
    match read_from(isa, alloc, &looped.written.text, None) {
        Ok(begun) => Ok(in_lines(isa, alloc, looped, begun)?),
        Err(fault) => Err(fault),
    }
}

/// The accesses that fault in a run of these packets, a line each, where it is strict.
fn accesses_told(alloc: Global, begun: &Begun, flight: &Flight) -> Result<Vec<u8>, AllocError>
    requires { IsIssuable (text_of begun.now.rows) }
    ensures { IfOk result (λ accesses. TellsIf flight.now.course.strict
        (TellsFlightFaults (text_of begun.now.rows) begun.now.first flight.now.settings.items flight.now.course accesses.items) accesses.items) }
{
    if flight.course.strict {
        flight_faults(alloc, begun, flight)
    } else {
        Ok(Vec::new(alloc))
    }
}

/// What is told beside the report of a run of these packets: of their loops, and of the accesses that fault where it is strict.
#[tactic(auto, using(crate::proofs::Looping::is_issuable, crate::proofs::Looping::told_beside_it))]
pub(crate) fn told_beside(
    isa: InstructionSet,
    alloc: Global,
    verbose: bool,
    looped: &Looped,
    begun: &Begun,
    flight: &Flight,
) -> Result<Vec<u8>, AllocError>
    requires { IsReadAgain isa looped.now.program looped.now.written begun.now }
    ensures { IfOk result (λ told. IsToldBeside verbose looped.now.program looped.now.written (text_of begun.now.rows) begun.now.first
        flight.now.course flight.now.settings.items told.items) }
{
    let mut told = told_lines(alloc, verbose, &looped.program, &looped.written)?;
    let accesses = accesses_told(alloc, begun, flight)?;
    told.extend_from_slice(&accesses)?;
    Ok(told)
}

/// The report of a run of these packets, which begins so, and what is told of their loops.
#[tactic(auto, using(crate::proofs::Looping::is_issuable, crate::proofs::Looping::loops_flown))]
fn reported(
    isa: InstructionSet,
    alloc: Global,
    verbose: bool,
    looped: &Looped,
    begun: &Begun,
    flight: &Flight,
) -> Result<Reply, AllocError>
    requires { IsReadAgain isa looped.now.program looped.now.written begun.now }
    ensures { (packing : Packed) (trips : List (Name × ℕ)) (apart : List Register) (text : List ℕ)
        → IsLooped isa packing trips apart text looped.now.program looped.now.written
        → IfOk result (λ reply. IsAnswer isa (LoopReport verbose packing trips apart flight.now.course flight.now.settings.items) reply.outcome text reply.text.items) }
{
    let told = told_beside(isa, alloc, verbose, looped, begun, flight)?;
    let reply = flown(alloc, begun, &flight.settings, flight.course)?;
    Ok(Reply {
        text: reply.text,
        outcome: Outcome::Looped(told, reply.outcome.breach()),
    })
}

/// The report of a run of these packets, where they are read again, and what is told of their loops.
#[tactic(auto, using(crate::proofs::Looping::unread_again))]
fn run_again(
    isa: InstructionSet,
    alloc: Global,
    verbose: bool,
    looped: &Looped,
    flight: &Flight,
) -> Result<Reply, Failure>
    ensures { (packing : Packed) (trips : List (Name × ℕ)) (apart : List Register) (text : List ℕ)
        → IsLooped isa packing trips apart text looped.now.program looped.now.written
        → Gives isa (LoopReport verbose packing trips apart flight.now.course flight.now.settings.items) text result }
{
    match read_again(isa, alloc, looped) {
        Ok(begun) => Ok(reported(isa, alloc, verbose, looped, &begun, flight)?),
        Err(fault) => Err(Failure::from(fault)),
    }
}

/// The report of a run of packets of a text whose loops are pipelined, and what is told of these.
///
/// # Errors
///
/// Those of [`loop_listing`].
#[tactic(auto, using(crate::proofs::Looping::no_run_loops))]
pub(crate) fn loop_report<H: AllocGlobal + Threads + Wait + Sync>(
    isa: InstructionSet,
    rt: &H,
    text: &[u8],
    looping: &Looping,
    flight: &Flight,
) -> Result<Reply, Failure>
    ensures { Gives isa (LoopReport looping.now.verbose looping.now.packing (map trips_of looping.now.promises.trips.items)
        looping.now.promises.apart.items flight.now.course flight.now.settings.items) text.now result }
{
    match make_looped(isa, rt, text, looping) {
        Ok(looped) => run_again(isa, rt.alloc(), looping.verbose, &looped, flight),
        Err(failure) => Err(failure),
    }
}
