//! Answers to what is taken of a text from a label on.

ghost use Rattle.std.specs.Prelude.{◌≡◌, MatchResult, option_map};
ghost use Rattle.c62_command.specs.CommandLine.{Adoption, FlightReport, Reaching, flight_asked, reaching};
ghost use Rattle.c62_reach.specs.Taken.{IsTaken};
ghost use Rattle.c62_answer.specs.Run.{Gives, TakesNothing};

use crate::answer::adopted;
use crate::exec::exec;
use crate::failure::Failure;
use crate::outcome::Reply;
use c62_command::{Adopting, FlightStart};
use c62_op::InstructionSet;
use c62_reach::{ReachFault, reached_text};
use c62_rows::RowsFault;
use std::alloc::Global;

/// What is taken of a text from the label of this name on.
pub(crate) fn taken_from(
    isa: InstructionSet,
    alloc: Global,
    text: &[u8],
    name: &[u8],
) -> Result<Vec<u8>, Failure>
    ensures { MatchResult result (λ taken. IsTaken isa name.now text.now taken.items) (TakesNothing isa name.now text.now) }
{
    match reached_text(isa, alloc, text, name) {
        Ok(taken) => Ok(taken),
        Err(ReachFault::From) => Err(Failure::Unflown(RowsFault::From)),
        Err(ReachFault::Memory) => Err(Failure::Memory),
    }
}

/// The listing of what is taken of a text from the label of this name on.
#[tactic(auto, using(crate::proofs::Reached::reached, crate::proofs::Reached::not_reached))]
fn adopted_from(
    isa: InstructionSet,
    alloc: Global,
    text: &[u8],
    name: &[u8],
    drain: bool,
) -> Result<Reply, Failure>
    ensures { Gives isa (Reaching name.now (Adoption drain)) text.now result }
{
    match taken_from(isa, alloc, text, name) {
        Ok(taken) => adopted(isa, alloc, &taken, drain),
        Err(failure) => Err(failure),
    }
}

/// The listing of a text of packets, or of what is taken of it.
pub(crate) fn adopted_as(
    isa: InstructionSet,
    alloc: Global,
    text: &[u8],
    adopting: &Adopting,
) -> Result<Reply, Failure>
    ensures { Gives isa (reaching (option_map (λ name. name.items) adopting.now.from) (Adoption adopting.now.drain)) text.now result }
{
    match &adopting.from {
        Some(name) => adopted_from(isa, alloc, text, name, adopting.drain),
        None => adopted(isa, alloc, text, adopting.drain),
    }
}

/// The report of a run of what is taken of a text from the label of this name on.
#[tactic(auto, using(crate::proofs::Reached::reached, crate::proofs::Reached::not_reached))]
fn exec_from(
    isa: InstructionSet,
    alloc: Global,
    text: &[u8],
    name: &[u8],
    start: &FlightStart,
) -> Result<Reply, Failure>
    ensures { Gives isa (Reaching name.now (FlightReport start.now.course (option_map (λ name. name.items) start.now.from) start.now.settings.items)) text.now result }
{
    match taken_from(isa, alloc, text, name) {
        Ok(taken) => exec(isa, alloc, &taken, start),
        Err(failure) => Err(failure),
    }
}

/// The report of a run of a text of packets, or of what is taken of it.
pub(crate) fn exec_as(
    isa: InstructionSet,
    alloc: Global,
    text: &[u8],
    start: &FlightStart,
) -> Result<Reply, Failure>
    ensures { Gives isa (flight_asked start.now.alone start.now.course (option_map (λ name. name.items) start.now.from) start.now.settings.items) text.now result }
{
    match &start.from {
        Some(name) if start.alone => exec_from(isa, alloc, text, name, start),
        Some(_) | None => exec(isa, alloc, text, start),
    }
}
