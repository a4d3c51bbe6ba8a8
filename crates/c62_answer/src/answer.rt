//! What answers a text.

ghost use Rattle.std.specs.Prelude.{◌≡◌, ◌≤◌, true, false, IfOk, IsTrue};
ghost use Rattle.c62_listing.specs.Listing.{listing};
ghost use Rattle.c62_packet.specs.Packets.{is_closed};
ghost use Rattle.c62_show.specs.Picture.{picture};
ghost use Rattle.c62_show.specs.Summary.{summary};
ghost use Rattle.c62_command.specs.CommandLine.{Listing, Picture, SerialReport, PacketReport, StandingReport, Adoption, Document, ask_of, ask_told};
ghost use Rattle.c62_answer.specs.Drawing.{columns, drawing};
ghost use Rattle.c62_answer.specs.Run.{added_of, Gives, GivesProgram, limit_of, most_of};
ghost use Rattle.c62_answer.specs.declared.parting.TheConstants.{MOST_BYTES};

use crate::checking::verdicts;
use crate::checking_loops::loop_verdicts;
use crate::documents::{
    adopt_document, loop_listing_document, loop_picture_document, loop_verdicts_document,
    pack_document, show_document, show_listing_document, show_packets_document, verdicts_document,
};
use crate::failure::Failure;
use crate::outcome::{Added, Outcome, Reply};
use crate::packets::packets_in;
use crate::parting;
use crate::pipelining::{loop_listing, loop_picture, loop_report};
use crate::reaching::{adopted_as, exec_as};
use crate::run::{packet_run, serial_run};
use crate::run_documents::{
    exec_document, loop_report_document, run_document, serial_document, sim_document,
};
use crate::schedule::{packets_by_turns, packets_by_workers, shown_by_turns, shown_by_workers};
use crate::standing::{show_listing, show_packets};
use c62_adopt::laws::texts_that_stand_lack_nothing;
use c62_adopt::{Adopted, adopt};
use c62_command::{Command, Form, Packing, Rendering, Request, Showing, Start};
use c62_listing::list;
use c62_op::{InstructionSet, Reg};
use c62_packet::Packets;
use c62_page::page;
use c62_read::{Program, read_program};
use c62_show::{Shown, picture, summary};
use std::alloc::{AllocError, Global};
use std::sync::Wait;
use std::thread::Threads;

/// The program that a text says.
pub(crate) fn program_of(
    isa: InstructionSet,
    alloc: Global,
    text: &[u8],
) -> Result<Program, Failure>
    ensures { GivesProgram isa text.now result }
{
    match read_program(isa, alloc, text) {
        Ok(program) => Ok(program),
        Err(fault) => Err(Failure::from(fault)),
    }
}

fn listing_of(alloc: Global, packets: &Packets) -> Result<Vec<u8>, AllocError>
    requires { IsTrue (is_closed packets.now) }
    ensures { IfOk result (λ text. text.items ≡ listing packets.now) }
{
    Ok(list(alloc, packets)?.into_bytes())
}

/// The picture of blocks, or their heads alone.
fn columns(alloc: Global, heads: bool, shown: &[Shown]) -> Result<Vec<u8>, AllocError>
    ensures { IfOk result (λ drawn. drawn.items ≡ columns heads shown.now) }
{
    if heads {
        Ok(summary(alloc, shown)?.into_bytes())
    } else {
        Ok(picture(alloc, shown)?.into_bytes())
    }
}

/// The picture of blocks of a text, or their heads alone, or a page of them.
pub(crate) fn picture_of(
    alloc: Global,
    showing: Showing,
    text: &[u8],
    shown: &[Shown],
) -> Result<Vec<u8>, AllocError>
    ensures { IfOk result (λ drawn. drawn.items ≡ drawing showing text.now shown.now) }
{
    if showing.page {
        page(alloc, text, shown)
    } else {
        columns(alloc, showing.summary, shown)
    }
}

/// The listing of what a text says, packed by turns.
fn pack_by_turns(
    isa: InstructionSet,
    alloc: Global,
    text: &[u8],
    packing: Packing,
) -> Result<Reply, Failure>
    requires { packing.turns ≡ true }
    ensures { Gives isa (Listing packing) text.now result }
{
    let program = program_of(isa, alloc, text)?;
    let packets = packets_by_turns(alloc, program, packing)?;
    Ok(Reply {
        text: listing_of(alloc, &packets)?,
        outcome: Outcome::Done,
    })
}

/// The picture of what a text says, packed by turns.
fn show_by_turns(
    isa: InstructionSet,
    alloc: Global,
    text: &[u8],
    showing: Showing,
) -> Result<Reply, Failure>
    requires { showing.packing.turns ≡ true }
    ensures { Gives isa (Picture showing) text.now result }
{
    let program = program_of(isa, alloc, text)?;
    let shown = shown_by_turns(alloc, program, showing)?;
    Ok(Reply {
        text: picture_of(alloc, showing, text, &shown)?,
        outcome: Outcome::Done,
    })
}

/// The report of a run of what a text says, packed by turns.
fn run_by_turns(
    isa: InstructionSet,
    alloc: Global,
    text: &[u8],
    packing: Packing,
    start: &Start,
) -> Result<Reply, Failure>
    requires { packing.turns ≡ true }
    ensures { Gives isa (PacketReport packing start.now.course start.now.settings.items) text.now result }
{
    let program = program_of(isa, alloc, text)?;
    let packets = packets_by_turns(alloc, program, packing)?;
    Ok(packet_run(alloc, &packets, start)?)
}

/// The listing of what a text says, packed by workers.
fn pack_by_workers<H: AllocGlobal + Threads + Wait + Sync>(
    isa: InstructionSet,
    rt: &H,
    text: &[u8],
    packing: Packing,
) -> Result<Reply, Failure>
    requires { packing.turns ≡ false }
    ensures { Gives isa (Listing packing) text.now result }
{
    let program = program_of(isa, rt.alloc(), text)?;
    let packets = packets_by_workers(rt, program, packing)?;
    Ok(Reply {
        text: listing_of(rt.alloc(), &packets)?,
        outcome: Outcome::Done,
    })
}

/// The picture of what a text says, packed by workers.
fn show_by_workers<H: AllocGlobal + Threads + Wait + Sync>(
    isa: InstructionSet,
    rt: &H,
    text: &[u8],
    showing: Showing,
) -> Result<Reply, Failure>
    requires { showing.packing.turns ≡ false }
    ensures { Gives isa (Picture showing) text.now result }
{
    let program = program_of(isa, rt.alloc(), text)?;
    let shown = shown_by_workers(rt, program, showing)?;
    Ok(Reply {
        text: picture_of(rt.alloc(), showing, text, &shown)?,
        outcome: Outcome::Done,
    })
}

/// The report of a run of what a text says, packed by workers.
fn run_by_workers<H: AllocGlobal + Threads + Wait + Sync>(
    isa: InstructionSet,
    rt: &H,
    text: &[u8],
    packing: Packing,
    start: &Start,
) -> Result<Reply, Failure>
    requires { packing.turns ≡ false }
    ensures { Gives isa (PacketReport packing start.now.course start.now.settings.items) text.now result }
{
    let program = program_of(isa, rt.alloc(), text)?;
    let packets = packets_by_workers(rt, program, packing)?;
    Ok(packet_run(rt.alloc(), &packets, start)?)
}

/// The report of the serial run of what a text says. What becomes of the registers that are to be apart isn't told in it.
fn serial(
    isa: InstructionSet,
    alloc: Global,
    text: &[u8],
    start: &Start,
    _apart: &Vec<Reg>,
) -> Result<Reply, Failure>
    ensures { Gives isa (SerialReport start.now.course start.now.settings.items _apart.now.items) text.now result }
{
    let program = program_of(isa, alloc, text)?;
    Ok(serial_run(alloc, &program, start)?)
}

/// The report of a run of packets as they stand in a text of this form.
fn sim(
    isa: InstructionSet,
    alloc: Global,
    form: Form,
    text: &[u8],
    start: &Start,
) -> Result<Reply, Failure>
    ensures { Gives isa (StandingReport form start.now.course start.now.settings.items) text.now result }
{
    let packets = packets_in(isa, alloc, form, text)?;
    Ok(packet_run(alloc, &packets, start)?)
}

/// What was added to a text that was adopted.
pub(crate) fn added_in(adopted: &Adopted) -> Added
    ensures { result ≡ added_of adopted.now.added adopted.now.late }
{
    Added {
        cycles: adopted.added,
        late: adopted.late,
    }
}

/// The listing of a text of packets as people and compilers write them. Where it is drained, the cycles are added that lack.
pub(crate) fn adopted(
    isa: InstructionSet,
    alloc: Global,
    text: &[u8],
    drain: bool,
) -> Result<Reply, Failure>
    ensures { Gives isa (Adoption drain) text.now result }
{
    let adopted = adopt(isa, alloc, text, drain)?;
    // It tells that no cycle is added where the text isn't drained.
    texts_that_stand_lack_nothing();
    Ok(Reply {
        text: listing_of(alloc, &adopted.packets)?,
        outcome: Outcome::of_adoption(drain, added_in(&adopted)),
    })
}

/// The answer to a text, as text.
fn answer<H: AllocGlobal + Threads + Wait + Sync>(
    isa: InstructionSet,
    rt: &H,
    request: &Request,
    text: &[u8],
) -> Result<Reply, Failure>
    ensures { Gives isa (ask_of request.now) text.now result }
{
    match request {
        Request::Pack(packing) => {
            if packing.turns {
                pack_by_turns(isa, rt.alloc(), text, *packing)
            } else {
                pack_by_workers(isa, rt, text, *packing)
            }
        }
        Request::Show(showing) => {
            if showing.packing.turns {
                show_by_turns(isa, rt.alloc(), text, *showing)
            } else {
                show_by_workers(isa, rt, text, *showing)
            }
        }
        Request::ShowListing(showing) => show_listing(isa, rt.alloc(), text, *showing),
        Request::ShowPackets(showing) => show_packets(isa, rt.alloc(), text, *showing),
        Request::Run(packing, start) => {
            if packing.turns {
                run_by_turns(isa, rt.alloc(), text, *packing, start)
            } else {
                run_by_workers(isa, rt, text, *packing, start)
            }
        }
        Request::Serial(start, apart) => serial(isa, rt.alloc(), text, start, apart),
        Request::Sim(form, start) => sim(isa, rt.alloc(), *form, text, start),
        Request::Exec(start) => exec_as(isa, rt.alloc(), text, start),
        Request::Adopt(adopting) => adopted_as(isa, rt.alloc(), text, adopting),
        Request::Check(form) => verdicts(isa, rt.alloc(), *form, text),
        Request::CheckLoops(promises) => loop_verdicts(isa, rt.alloc(), promises, text),
        Request::PackLoops(looping) => loop_listing(isa, rt, text, looping),
        Request::ShowLoops(looping, drawing) => loop_picture(isa, rt, text, looping, *drawing),
        Request::RunLoops(looping, flight) => loop_report(isa, rt, text, looping, flight),
    }
}

/// The document of an answer to a text.
fn document<H: AllocGlobal + Threads + Wait + Sync>(
    isa: InstructionSet,
    rt: &H,
    request: &Request,
    text: &[u8],
) -> Result<Reply, Failure>
    ensures { Gives isa (Document (ask_of request.now)) text.now result }
{
    match request {
        Request::Pack(packing) => pack_document(isa, rt, text, *packing),
        Request::Show(showing) => show_document(isa, rt, text, *showing),
        Request::ShowListing(showing) => show_listing_document(isa, rt.alloc(), text, *showing),
        Request::ShowPackets(showing) => show_packets_document(isa, rt.alloc(), text, *showing),
        Request::Run(packing, start) => run_document(isa, rt, text, *packing, start),
        Request::Serial(start, apart) => serial_document(isa, rt.alloc(), text, start, apart),
        Request::Sim(form, start) => sim_document(isa, rt.alloc(), *form, text, start),
        Request::Exec(start) => exec_document(isa, rt.alloc(), text, start),
        Request::Adopt(adopting) => adopt_document(isa, rt.alloc(), text, adopting),
        Request::Check(form) => verdicts_document(isa, rt.alloc(), *form, text),
        Request::CheckLoops(promises) => loop_verdicts_document(isa, rt.alloc(), promises, text),
        Request::PackLoops(looping) => loop_listing_document(isa, rt, text, looping),
        Request::ShowLoops(looping, drawing) => {
            loop_picture_document(isa, rt, text, looping, *drawing)
        }
        Request::RunLoops(looping, flight) => loop_report_document(isa, rt, text, looping, flight),
    }
}

/// The answer to a text: that text, or its document.
///
/// # Errors
///
/// The first fault of the text, as the page of the command says, or that memory ran out.
pub fn respond<H: AllocGlobal + Threads + Wait + Sync>(
    isa: InstructionSet,
    rt: &H,
    command: &Command,
    text: &[u8],
) -> Result<Reply, Failure>
    ensures { Gives isa (ask_told command.now) text.now result }
{
    match command.rendering {
        Rendering::Text => answer(isa, rt, &command.request, text),
        Rendering::Json => document(isa, rt, &command.request, text),
    }
}

/// The most bytes of a text of packets in this form.
fn most_of(form: Form) -> usize
    ensures limit { result ≡ most_of form }
    ensures most { result ≤ MOST_BYTES }
{
    match form {
        Form::Listed => c62_listing_reader::MOST_BYTES,
        Form::Written => c62_adopt_cut::MOST_BYTES,
    }
}

/// The most bytes of a text that is answered, as text.
fn limit_of(request: &Request) -> usize
    ensures limit { result ≡ limit_of (ask_of request.now) }
    ensures most { result ≤ MOST_BYTES }
{
    match request {
        Request::Check(Form::Listed) | Request::Check(Form::Written) => parting::MOST_BYTES,
        Request::CheckLoops(_) => parting::MOST_BYTES,
        Request::Sim(form, _) => most_of(*form),
        Request::ShowListing(_) => c62_listing_reader::MOST_BYTES,
        Request::Exec(_) | Request::Adopt(_) | Request::ShowPackets(_) => c62_adopt_cut::MOST_BYTES,
        Request::Pack(_) | Request::Show(_) | Request::Run(_, _) | Request::Serial(_, _) => {
            c62_read::MOST_BYTES
        }
        Request::PackLoops(_) | Request::ShowLoops(_, _) | Request::RunLoops(_, _) => {
            c62_read::MOST_BYTES
        }
    }
}

/// The most bytes of a text that is answered.
#[tactic(auto, using(crate::proofs::Documented::limit_told))]
pub fn limit_for(command: &Command) -> usize
    ensures limit { result ≡ limit_of (ask_told command.now) }
    ensures most { result ≤ MOST_BYTES }
{
    limit_of(&command.request)
}
