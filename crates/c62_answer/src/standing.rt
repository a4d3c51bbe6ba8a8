//! Pictures of packets as they stand.

ghost use Rattle.std.specs.Prelude.{◌≡◌, IfOk};
ghost use Rattle.c62_command.specs.CommandLine.{ListingPicture, PacketsPicture};
ghost use Rattle.c62_answer.specs.Run.{Gives};
ghost use Rattle.c62_answer.specs.Standing.{IsDrawn, details_of};

use crate::answer::picture_of;
use crate::failure::Failure;
use crate::outcome::{Outcome, Reply};
use crate::packets::packets_in;
use c62_command::{Form, Showing};
use c62_op::InstructionSet;
use c62_packet::Packets;
use c62_standing::{Details, shown_as_they_stand};
use std::alloc::{AllocError, Global};

/// What is told of packets beside their picture.
pub(crate) fn details_of(showing: Showing) -> Details
    ensures { result ≡ details_of showing }
{
    Details {
        why: showing.why,
        registers: showing.registers,
    }
}

/// The picture of the packets of a text, as they stand.
fn drawn(
    isa: InstructionSet,
    alloc: Global,
    packets: &Packets,
    text: &[u8],
    showing: Showing,
) -> Result<Vec<u8>, AllocError>
    ensures { IfOk result (λ drawn. IsDrawn showing packets.now text.now drawn.items) }
{
    let shown = shown_as_they_stand(alloc, packets, details_of(showing))?;
    let drawn = picture_of(alloc, showing, text, &shown)?;
    Ok(drawn)
}

/// The picture of the packets of a listing, as they stand.
pub(crate) fn show_listing(
    isa: InstructionSet,
    alloc: Global,
    text: &[u8],
    showing: Showing,
) -> Result<Reply, Failure>
    ensures { Gives isa (ListingPicture showing) text.now result }
{
    let packets = packets_in(isa, alloc, Form::Listed, text)?;
    Ok(Reply {
        text: drawn(isa, alloc, &packets, text, showing)?,
        outcome: Outcome::Done,
    })
}

/// The picture of the packets of a text as people and compilers write them, as they stand.
pub(crate) fn show_packets(
    isa: InstructionSet,
    alloc: Global,
    text: &[u8],
    showing: Showing,
) -> Result<Reply, Failure>
    ensures { Gives isa (PacketsPicture showing) text.now result }
{
    let packets = packets_in(isa, alloc, Form::Written, text)?;
    Ok(Reply {
        text: drawn(isa, alloc, &packets, text, showing)?,
        outcome: Outcome::Done,
    })
}
