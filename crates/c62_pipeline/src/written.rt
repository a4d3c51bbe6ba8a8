//! Pipelines the loops of a program.

ghost use Rattle.std.specs.Prelude.{◌≡◌, IfOk, IfSome, IsTrue, OnOk, All, map};
ghost use Rattle.c62_packet.specs.Packets.{is_closed};
ghost use Rattle.c62_listing.specs.Listing.{listing};
ghost use Rattle.c62_command.specs.Promises.{trips_of};
ghost use Rattle.c62_pipeline.specs.Chosen.{IsChosen, given_up};
ghost use Rattle.c62_pipeline.specs.Checked.{IsChecked, IsWritten, IsWrittenOf};

use crate::checked::is_checked;
use crate::chosen::{Choice, choice_of};
use crate::splice::spliced;
use c62_command::Promises;
use c62_listing::list;
use c62_op::InstructionSet;
use c62_packet::{PacketBlock, Packets};
use c62_read::{Block, Program};
use std::alloc::{AllocError, Global};

/// Packets of a program, some of whose loops are pipelined.
#[derive(Drop)]
pub struct Pipelining {
    /// The text of the packets.
    pub text: Vec<u8>,
    /// What became of each block that is a loop, in their order.
    pub loops: Vec<Choice>,
}

/// Adds what is found for the block of this number, where it is a loop.
fn push_choice(
    alloc: Global,
    choices: &mut Vec<Choice>,
    blocks: &[Block],
    number: u8,
    own: &PacketBlock,
    promises: &Promises,
) -> Result<(), AllocError>
    ensures { All (IsChosen (map trips_of promises.now.trips.items) promises.now.apart.items blocks.now) choices.old.items
        → OnOk result (All (IsChosen (map trips_of promises.now.trips.items) promises.now.apart.items blocks.now) choices.new.items) }
{
    match choice_of(alloc, blocks, number, own, promises)? {
        Some(choice) => {
            choices.push(choice)?;
            Ok(())
        }
        None => Ok(()),
    }
}

/// What is found for each block that is a loop.
fn choices_of(
    alloc: Global,
    program: &Program,
    packets: &Packets,
    promises: &Promises,
) -> Result<Vec<Choice>, AllocError>
    ensures { IfOk result (λ choices. All (IsChosen (map trips_of promises.now.trips.items) promises.now.apart.items program.now) choices.items) }
{
    let blocks = program.blocks();
    let mut choices = Vec::new(alloc);
    let mut number = 0u8;
    for own in packets.blocks() {
        push_choice(alloc, &mut choices, blocks, number, own, promises)?;
        number = number.saturating_add(1);
    }
    Ok(choices)
}

/// The text with these choices, where it is one of packets that do what the program does.
fn checked_text(
    isa: InstructionSet,
    alloc: Global,
    program: &Program,
    listing: &[u8],
    choices: &[Choice],
    promises: &Promises,
) -> Result<Option<Vec<u8>>, AllocError>
    ensures { IfOk result (λ text. IfSome text (λ text.
        IsChecked isa (map trips_of promises.now.trips.items) promises.now.apart.items program.now text.items)) }
{
    let text = spliced(alloc, listing, program.blocks(), choices)?;
    if is_checked(isa, alloc, program, &text, promises)? {
        Ok(Some(text))
    } else {
        Ok(None)
    }
}

/// Gives up the packets of each of these.
fn give_all_up(choices: &mut [Choice])
    ensures { choices.new ≡ map given_up choices.old }
{
    for choice in choices.iter_mut() {
        choice.give_up();
    }
}

/// Each block's own packets, of which this is the listing.
fn own_packets(
    isa: InstructionSet,
    program: &Program,
    listing: Vec<u8>,
    choices: Vec<Choice>,
    promises: &Promises,
) -> Pipelining
    requires { All (IsChosen (map trips_of promises.now.trips.items) promises.now.apart.items program.now) choices.items }
    ensures { IsWrittenOf isa (map trips_of promises.now.trips.items) promises.now.apart.items program.now listing.items result }
{
    let mut loops = choices;
    give_all_up(&mut loops);
    Pipelining {
        text: listing,
        loops,
    }
}

/// Packets with each of these choices that, beside those in front of it, is told to do what the program does. The others are given up. Where
/// none is left, each block has its own.
fn sifted(
    isa: InstructionSet,
    alloc: Global,
    program: &Program,
    listing: Vec<u8>,
    choices: Vec<Choice>,
    promises: &Promises,
) -> Result<Pipelining, AllocError>
    requires { All (IsChosen (map trips_of promises.now.trips.items) promises.now.apart.items program.now) choices.items }
    ensures { IfOk result (IsWrittenOf isa (map trips_of promises.now.trips.items) promises.now.apart.items program.now listing.items) }
{
    let mut loops = choices;
    let mut last = None;
    for number in 0..loops.len() {
        let tried = &loops[..number + 1];
        match checked_text(isa, alloc, program, &listing, tried, promises)? {
            Some(text) => last = Some(text),
            None => loops[number].give_up(),
        }
    }
    match last {
        Some(text) => Ok(Pipelining { text, loops }),
        None => Ok(own_packets(isa, program, listing, loops, promises)),
    }
}

/// Packets with all of these choices that are told to do what the program does.
fn written_of(
    isa: InstructionSet,
    alloc: Global,
    program: &Program,
    listing: Vec<u8>,
    choices: Vec<Choice>,
    promises: &Promises,
) -> Result<Pipelining, AllocError>
    requires { All (IsChosen (map trips_of promises.now.trips.items) promises.now.apart.items program.now) choices.items }
    ensures { IfOk result (IsWrittenOf isa (map trips_of promises.now.trips.items) promises.now.apart.items program.now listing.items) }
{
    if !choices.iter().any(|choice| choice.is_pipelined()) {
        return Ok(own_packets(isa, program, listing, choices, promises));
    }
    match checked_text(isa, alloc, program, &listing, &choices, promises)? {
        Some(text) => Ok(Pipelining {
            text,
            loops: choices,
        }),
        None => sifted(isa, alloc, program, listing, choices, promises),
    }
}

/// The listing of packets.
fn listing_of(alloc: Global, packets: &Packets) -> Result<Vec<u8>, AllocError>
    requires { IsTrue (is_closed packets.now) }
    ensures { IfOk result (λ text. text.items ≡ listing packets.now) }
{
    Ok(list(alloc, packets)?.into_bytes())
}

/// Packets of a program, of which these are each block's own: each loop under a counter has software pipelined ones where so many trips
/// of it are promised that they do what it does, where they take fewer cycles a trip, and where the check of loops says so of the
/// whole text. Other blocks have their own.
///
/// # Errors
///
/// `AllocError` where memory ran out.
pub fn pipeline(
    isa: InstructionSet,
    alloc: Global,
    program: &Program,
    packets: &Packets,
    promises: &Promises,
) -> Result<Pipelining, AllocError>
    requires { IsTrue (is_closed packets.now) }
    ensures { IfOk result (IsWritten isa (map trips_of promises.now.trips.items) promises.now.apart.items program.now packets.now) }
{
    let own = listing_of(alloc, packets)?;
    let choices = choices_of(alloc, program, packets, promises)?;
    written_of(isa, alloc, program, own, choices, promises)
}
