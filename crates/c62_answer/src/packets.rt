//! The packets that a text says, as they stand: a listing, or packets as people and compilers write them.

ghost use Rattle.std.specs.Prelude.{false, IfOk, IsTrue, MatchResult};
ghost use Rattle.c62_packet.specs.Packets.{is_closed};
ghost use Rattle.c62_adopt.specs.Answer.{IsAdopted, Refuses};
ghost use Rattle.c62_answer.specs.Run.{GivesPackets};

use crate::failure::Failure;
use c62_adopt::laws::texts_that_stand_lack_nothing;
use c62_adopt::{AdoptFault, adopt};
use c62_command::Form;
use c62_listing_reader::read_listing;
use c62_op::InstructionSet;
use c62_packet::Packets;
use std::alloc::Global;

/// The packets of a text as people and compilers write them. None of its cycles is added.
///
/// # Errors
///
/// Those of [`adopt`].
pub(crate) fn written_packets(
    isa: InstructionSet,
    alloc: Global,
    text: &[u8],
) -> Result<Packets, AdoptFault>
    ensures packets { MatchResult result (λ packets. IsAdopted isa false text.now packets 0) (λ fault. Refuses isa false text.now fault) }
    ensures closed { IfOk result (λ packets. IsTrue (is_closed packets)) }
{
    match adopt(isa, alloc, text, false) {
        Ok(adopted) => {
            // It tells that no cycle is added where the text isn't drained.
            texts_that_stand_lack_nothing();
            Ok(adopted.packets)
        }
        Err(fault) => Err(fault),
    }
}

/// The packets of a listing.
fn listed(isa: InstructionSet, alloc: Global, text: &[u8]) -> Result<Packets, Failure>
    ensures packets { GivesPackets isa Form.Listed text.now result }
    ensures closed { IfOk result (λ packets. IsTrue (is_closed packets)) }
{
    match read_listing(isa, alloc, text) {
        Ok(packets) => Ok(packets),
        Err(fault) => Err(Failure::from(fault)),
    }
}

/// The packets of a text as people and compilers write them.
fn written(isa: InstructionSet, alloc: Global, text: &[u8]) -> Result<Packets, Failure>
    ensures packets { GivesPackets isa Form.Written text.now result }
    ensures closed { IfOk result (λ packets. IsTrue (is_closed packets)) }
{
    match written_packets(isa, alloc, text) {
        Ok(packets) => Ok(packets),
        Err(fault) => Err(Failure::from(fault)),
    }
}

/// The packets that a text of this form says.
///
/// # Errors
///
/// The first fault of the text, or that memory ran out.
pub(crate) fn packets_in(
    isa: InstructionSet,
    alloc: Global,
    form: Form,
    text: &[u8],
) -> Result<Packets, Failure>
    ensures packets { GivesPackets isa form text.now result }
    ensures closed { IfOk result (λ packets. IsTrue (is_closed packets)) }
{
    match form {
        Form::Listed => listed(isa, alloc, text),
        Form::Written => written(isa, alloc, text),
    }
}
