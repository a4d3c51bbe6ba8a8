//! Documents: what answers a text, as JSON (docs/JSON.md).

ghost use Rattle.std.specs.Prelude.{◌≡◌, IfOk, map, option_map};
ghost use Rattle.c62_answer.specs.Run.{Gives, drained_told};
ghost use Rattle.c62_answer.specs.Schedule.{AreShown};
ghost use Rattle.c62_command.specs.CommandLine.{Adoption, Document, Listing, ListingPicture, LoopListing, LoopPicture, LoopVerdicts, PacketsPicture, Picture, Reaching, Verdicts, reaching};
ghost use Rattle.c62_command.specs.Promises.{trips_of};
ghost use Rattle.c62_json_lines.specs.Lines.{lines_document};

use crate::answer::{added_in, program_of};
use crate::checking::{packets_part, text_part, unparted};
use crate::checking_loops::rows_part;
use crate::failure::Failure;
use crate::outcome::{Added, Outcome, Reply};
use crate::packets::packets_in;
use crate::parting::parts_of;
use crate::pipelining::{loop_listing, loop_picture, packed};
use crate::reaching::taken_from;
use crate::schedule::{shown_by_turns, shown_by_workers};
use crate::standing::details_of;
use c62_adopt::adopt;
use c62_adopt::laws::texts_that_stand_lack_nothing;
use c62_check::laws::checked_packets_are_serial;
use c62_check_loops::first_loopless;
use c62_command::{Adopting, Drawing, Form, Looping, Packing, Promises, Showing};
use c62_json_adopt::{Drained, adopted_document};
use c62_json_check::check_document;
use c62_json_lines::lines_document;
use c62_json_loops::laws::documents_have_lines;
use c62_json_loops::loops_document;
use c62_json_packets::packets_document;
use c62_json_show::shown_document;
use c62_op::InstructionSet;
use c62_read::Program;
use c62_show::Shown;
use c62_standing::shown_as_they_stand;
use std::alloc::{AllocError, Global};
use std::sync::Wait;
use std::thread::Threads;

/// The document of the packets of what a text says.
pub(crate) fn pack_document<H: AllocGlobal + Threads + Wait + Sync>(
    isa: InstructionSet,
    rt: &H,
    text: &[u8],
    packing: Packing,
) -> Result<Reply, Failure>
    ensures { Gives isa (Document (Listing packing)) text.now result }
{
    let program = program_of(isa, rt.alloc(), text)?;
    let packets = packed(rt, program, packing)?;
    Ok(Reply {
        text: packets_document(rt.alloc(), "pack", &packets)?,
        outcome: Outcome::Done,
    })
}

/// What is shown of a program's blocks, packed as is asked for.
fn shown<H: AllocGlobal + Threads + Wait + Sync>(
    rt: &H,
    program: Program,
    showing: Showing,
) -> Result<Vec<Shown>, AllocError>
    ensures { IfOk result (λ shown. AreShown showing program shown.items) }
{
    if showing.packing.turns {
        shown_by_turns(rt.alloc(), program, showing)
    } else {
        shown_by_workers(rt, program, showing)
    }
}

/// The document of what is shown of a text's blocks.
pub(crate) fn show_document<H: AllocGlobal + Threads + Wait + Sync>(
    isa: InstructionSet,
    rt: &H,
    text: &[u8],
    showing: Showing,
) -> Result<Reply, Failure>
    ensures { Gives isa (Document (Picture showing)) text.now result }
{
    let program = program_of(isa, rt.alloc(), text)?;
    let shown = shown(rt, program, showing)?;
    Ok(Reply {
        text: shown_document(rt.alloc(), &shown, showing.summary)?,
        outcome: Outcome::Done,
    })
}

/// The document of what is shown of a listing's packets, as they stand.
pub(crate) fn show_listing_document(
    isa: InstructionSet,
    alloc: Global,
    text: &[u8],
    showing: Showing,
) -> Result<Reply, Failure>
    ensures { Gives isa (Document (ListingPicture showing)) text.now result }
{
    let packets = packets_in(isa, alloc, Form::Listed, text)?;
    let shown = shown_as_they_stand(alloc, &packets, details_of(showing))?;
    Ok(Reply {
        text: shown_document(alloc, &shown, showing.summary)?,
        outcome: Outcome::Done,
    })
}

/// The document of what is shown of packets as people and compilers write them, as they stand.
pub(crate) fn show_packets_document(
    isa: InstructionSet,
    alloc: Global,
    text: &[u8],
    showing: Showing,
) -> Result<Reply, Failure>
    ensures { Gives isa (Document (PacketsPicture showing)) text.now result }
{
    let packets = packets_in(isa, alloc, Form::Written, text)?;
    let shown = shown_as_they_stand(alloc, &packets, details_of(showing))?;
    Ok(Reply {
        text: shown_document(alloc, &shown, showing.summary)?,
        outcome: Outcome::Done,
    })
}

/// The document of what each block of packets in this form is, held against the text that stands before them.
pub(crate) fn verdicts_document(
    isa: InstructionSet,
    alloc: Global,
    form: Form,
    input: &[u8],
) -> Result<Reply, Failure>
    ensures { Gives isa (Document (Verdicts form)) input.now result }
{
    let Some(parts) = parts_of(input) else {
        return Err(unparted(isa, input));
    };
    let program = text_part(isa, alloc, parts.text)?;
    let packets = packets_part(isa, alloc, form, parts.listing)?;
    let checked = check_document(alloc, &program, &packets)?;
    // It tells that packets that are the same run as the program.
    checked_packets_are_serial();
    Ok(Reply {
        text: checked.text,
        outcome: Outcome::of_check(checked.same),
    })
}

/// What a document tells of what was added, where that was asked for.
fn drained(drain: bool, added: Added) -> Option<Drained>
    ensures { result ≡ drained_told drain added }
{
    if drain {
        Some(Drained {
            cycles: added.cycles,
            late: added.late,
        })
    } else {
        None
    }
}

/// The document of a text of packets as people and compilers write them. Where it is drained, the cycles are added that lack.
fn adopted(isa: InstructionSet, alloc: Global, text: &[u8], drain: bool) -> Result<Reply, Failure>
    ensures { Gives isa (Document (Adoption drain)) text.now result }
{
    let adopted = adopt(isa, alloc, text, drain)?;
    // It tells that no cycle is added where the text isn't drained.
    texts_that_stand_lack_nothing();
    let added = added_in(&adopted);
    Ok(Reply {
        text: adopted_document(alloc, drained(drain, added), &adopted.packets)?,
        outcome: Outcome::of_adoption(drain, added),
    })
}

/// The document of what is taken of a text from the label of this name on.
#[tactic(auto, using(crate::proofs::Documented::reached_document, crate::proofs::Documented::not_reached_document))]
fn adopted_from(
    isa: InstructionSet,
    alloc: Global,
    text: &[u8],
    name: &[u8],
    drain: bool,
) -> Result<Reply, Failure>
    ensures { Gives isa (Document (Reaching name.now (Adoption drain))) text.now result }
{
    match taken_from(isa, alloc, text, name) {
        Ok(taken) => adopted(isa, alloc, &taken, drain),
        Err(failure) => Err(failure),
    }
}

/// The document of a text of packets, or of what is taken of it.
pub(crate) fn adopt_document(
    isa: InstructionSet,
    alloc: Global,
    text: &[u8],
    adopting: &Adopting,
) -> Result<Reply, Failure>
    ensures { Gives isa (Document (reaching (option_map (λ name. name.items) adopting.now.from) (Adoption adopting.now.drain))) text.now result }
{
    match &adopting.from {
        Some(name) => adopted_from(isa, alloc, text, name, adopting.drain),
        None => adopted(isa, alloc, text, adopting.drain),
    }
}

/// The document of this text, line by line.
fn lines_reply(alloc: Global, command: &str, reply: Reply) -> Result<Reply, AllocError>
    ensures text { IfOk result (λ told. told.text.items ≡ lines_document command.now reply.text.items) }
    ensures outcome { IfOk result (λ told. told.outcome ≡ reply.outcome) }
{
    Ok(Reply {
        text: lines_document(alloc, command, &reply.text)?,
        outcome: reply.outcome,
    })
}

/// The document of what is told of packets in flight, held against the loops of the text that stands before them.
pub(crate) fn loop_verdicts_document(
    isa: InstructionSet,
    alloc: Global,
    promises: &Promises,
    input: &[u8],
) -> Result<Reply, Failure>
    ensures { Gives isa (Document (LoopVerdicts (map trips_of promises.now.trips.items) promises.now.apart.items)) input.now result }
{
    let Some(parts) = parts_of(input) else {
        return Err(unparted(isa, input));
    };
    let program = text_part(isa, alloc, parts.text)?;
    if let Some(number) = first_loopless(program.blocks(), &promises.trips) {
        return Err(Failure::NoLoop(number));
    }
    let read = rows_part(isa, alloc, parts.listing)?;
    let checked = loops_document(alloc, &program, &read, promises)?;
    // It tells that the lines of the check stand for the document.
    documents_have_lines();
    Ok(Reply {
        text: checked.text,
        outcome: Outcome::of_check(checked.same),
    })
}

/// The document of the packets of a text whose loops are pipelined.
#[tactic(auto, using(crate::proofs::Documented::packed_lines, crate::proofs::Documented::refused_too))]
pub(crate) fn loop_listing_document<H: AllocGlobal + Threads + Wait + Sync>(
    isa: InstructionSet,
    rt: &H,
    text: &[u8],
    looping: &Looping,
) -> Result<Reply, Failure>
    ensures { Gives isa (Document (LoopListing looping.now.verbose looping.now.packing (map trips_of looping.now.promises.trips.items)
        looping.now.promises.apart.items)) text.now result }
{
    match loop_listing(isa, rt, text, looping) {
        Ok(reply) => Ok(lines_reply(rt.alloc(), "pack", reply)?),
        Err(failure) => Err(failure),
    }
}

/// The document of the picture of the loops of such packets.
#[tactic(auto, using(crate::proofs::Documented::drawn_lines, crate::proofs::Documented::refused_too))]
pub(crate) fn loop_picture_document<H: AllocGlobal + Threads + Wait + Sync>(
    isa: InstructionSet,
    rt: &H,
    text: &[u8],
    looping: &Looping,
    drawing: Drawing,
) -> Result<Reply, Failure>
    ensures { Gives isa (Document (LoopPicture drawing looping.now.packing (map trips_of looping.now.promises.trips.items) looping.now.promises.apart.items)) text.now result }
{
    match loop_picture(isa, rt, text, looping, drawing) {
        Ok(reply) => Ok(lines_reply(rt.alloc(), "show", reply)?),
        Err(failure) => Err(failure),
    }
}
