//! Holds packets in flight against the loops of a serial text (docs/CHECK.md, "The command").

ghost use Rattle.std.specs.Prelude.{map};
ghost use Rattle.c62_command.specs.CommandLine.{LoopVerdicts};
ghost use Rattle.c62_command.specs.Promises.{trips_of};
ghost use Rattle.c62_answer.specs.Run.{Gives, GivesRowsPart};

use crate::checking::{text_part, unparted};
use crate::failure::Failure;
use crate::outcome::{Outcome, Reply};
use crate::parting::parts_of;
use c62_adopt::read_code;
use c62_check_loops::{check_loops, first_loopless};
use c62_command::Promises;
use c62_op::InstructionSet;
use c62_rows::{RowsText, read_rows};
use std::alloc::Global;

/// The rows of the packets that are to be checked in flight.
#[tactic(auto, using(crate::proofs::FlyingPart::uncoded_rows, crate::proofs::FlyingPart::no_rows, crate::proofs::FlyingPart::rows_fly))]
pub(crate) fn rows_part(
    isa: InstructionSet,
    alloc: Global,
    text: &[u8],
) -> Result<RowsText, Failure>
    ensures { GivesRowsPart isa text.now result }
{
    let code = match read_code(isa, alloc, text) {
        Ok(code) => code,
        Err(fault) => return Err(Failure::of_packets(fault)),
    };
    match read_rows(isa, alloc, &code) {
        Ok(read) => Ok(read),
        Err(fault) => Err(Failure::of_rows(fault)),
    }
}

/// What is told of packets in flight, held against the loops of the text that stands before them.
///
/// # Errors
///
/// The first fault of the text, then that a label of `--trips` is no loop's, then the first fault of the packets, or that memory ran
/// out.
#[tactic(auto, using(crate::proofs::LoopVerdicts::no_loop_named))]
pub(crate) fn loop_verdicts(
    isa: InstructionSet,
    alloc: Global,
    promises: &Promises,
    input: &[u8],
) -> Result<Reply, Failure>
    ensures { Gives isa (LoopVerdicts (map trips_of promises.now.trips.items) promises.now.apart.items) input.now result }
{
    let Some(parts) = parts_of(input) else {
        return Err(unparted(isa, input));
    };
    let program = text_part(isa, alloc, parts.text)?;
    if let Some(number) = first_loopless(program.blocks(), &promises.trips) {
        return Err(Failure::NoLoop(number));
    }
    let read = rows_part(isa, alloc, parts.listing)?;
    let checked = check_loops(alloc, &program, &read, promises)?;
    Ok(Reply {
        text: checked.text,
        outcome: Outcome::of_check(checked.same),
    })
}
