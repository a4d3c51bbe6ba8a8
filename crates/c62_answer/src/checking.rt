//! Holds packets, in a listing or as they are written, against a serial text (docs/CHECK.md).

ghost use Rattle.std.specs.Prelude.{Err, List, ℕ};
ghost use Rattle.clap.specs.Words.{Text};
ghost use Rattle.c62_op.specs.declared.register.Reg.{Reg as Register};
ghost use Rattle.c62_command.specs.CommandLine.{Verdicts, LoopVerdicts};
ghost use Rattle.c62_answer.specs.Parting.{HasNoParting};
ghost use Rattle.c62_answer.specs.Run.{Gives, GivesTextPart, GivesPacketsPart};

use crate::failure::Failure;
use crate::outcome::{Outcome, Reply};
use crate::packets::written_packets;
use crate::parting::parts_of;
use c62_check::check;
use c62_check::laws::checked_packets_are_serial;
use c62_command::Form;
use c62_listing_reader::read_listing;
use c62_op::InstructionSet;
use c62_packet::Packets;
use c62_read::{Cause, MOST_BYTES, Program, ReadFault, read_program};
use std::alloc::Global;

/// What is told of a check whose input has no line `---`.
#[tactic(auto, using(crate::proofs::Verdicts::endless, crate::proofs::Verdicts::unparted, crate::proofs::LoopVerdicts::endless, crate::proofs::LoopVerdicts::unparted))]
pub(crate) fn unparted(isa: InstructionSet, input: &[u8]) -> Failure
    requires { HasNoParting input.now }
    ensures by_block { (form : Form) → Gives isa (Verdicts form) input.now (Err result) }
    ensures by_loop { (trips : List (Text × ℕ)) (apart : List Register) → Gives isa (LoopVerdicts trips apart) input.now (Err result) }
{
    if input.len() > MOST_BYTES {
        Failure::TextPart(ReadFault::at(0, Cause::TextTooLong))
    } else {
        Failure::NoListing
    }
}

/// The program that the text of a check says.
pub(crate) fn text_part(isa: InstructionSet, alloc: Global, text: &[u8]) -> Result<Program, Failure>
    ensures { GivesTextPart isa text.now result }
{
    match read_program(isa, alloc, text) {
        Ok(program) => Ok(program),
        Err(fault) => Err(Failure::of_text(fault)),
    }
}

/// The packets that the listing of a check says.
fn listing_part(isa: InstructionSet, alloc: Global, listing: &[u8]) -> Result<Packets, Failure>
    ensures { GivesPacketsPart isa Form.Listed listing.now result }
{
    match read_listing(isa, alloc, listing) {
        Ok(packets) => Ok(packets),
        Err(fault) => Err(Failure::of_listing(fault)),
    }
}

/// The packets that stand, as they are written, in the place of the listing of a check.
fn written_part(isa: InstructionSet, alloc: Global, text: &[u8]) -> Result<Packets, Failure>
    ensures { GivesPacketsPart isa Form.Written text.now result }
{
    match written_packets(isa, alloc, text) {
        Ok(packets) => Ok(packets),
        Err(fault) => Err(Failure::of_packets(fault)),
    }
}

/// The packets that are to be checked.
pub(crate) fn packets_part(
    isa: InstructionSet,
    alloc: Global,
    form: Form,
    text: &[u8],
) -> Result<Packets, Failure>
    ensures { GivesPacketsPart isa form text.now result }
{
    match form {
        Form::Listed => listing_part(isa, alloc, text),
        Form::Written => written_part(isa, alloc, text),
    }
}

/// What each block of packets in this form is, held against the text that stands before them.
///
/// # Errors
///
/// The first fault of the text, then that of the packets, or that memory ran out.
pub fn verdicts(
    isa: InstructionSet,
    alloc: Global,
    form: Form,
    input: &[u8],
) -> Result<Reply, Failure>
    ensures { Gives isa (Verdicts form) input.now result }
{
    let Some(parts) = parts_of(input) else {
        return Err(unparted(isa, input));
    };
    let program = text_part(isa, alloc, parts.text)?;
    let packets = packets_part(isa, alloc, form, parts.listing)?;
    let checked = check(alloc, &program, &packets)?;
    // It tells that packets that are the same run as the program.
    checked_packets_are_serial();
    Ok(Reply {
        text: checked.text,
        outcome: Outcome::of_check(checked.same),
    })
}
