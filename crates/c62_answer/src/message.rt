//! Tells what failed, and how many cycles were added to drain a text (README.md, "Command line").

ghost use Rattle.std.specs.Prelude.{◌≡◌, ◌++◌, IfSome, Some, codes, decimal};
ghost use Rattle.c62_op.specs.Name.{file_letter};
ghost use Rattle.c62_answer.specs.Message.{added_word, adopt_message, cycles_added, drained_message, exclusion_message, fault_message, late_message, list_message, message_of, promise_message, rows_message, setting_message, told_of, trips_message, TellsOutcome};

use crate::failure::Failure;
use crate::outcome::{Added, Outcome};
use crate::writing::{Refused, show, write_pieces, write_whole};
use c62_adopt::AdoptFault;
use c62_adopt_late::Late;
use c62_command::{BadPromise, Exclusion};
use c62_listing_reader::ListFault;
use c62_op::Side;
use c62_read::ReadFault;
use c62_rows::RowsFault;
use itoa::Buffer;
use std::io::Write;

/// Tells `line L: NAME` behind the name of a part.
fn tell_line<E: Write>(errors: &mut E, part: &str, line: u32, name: &str) -> Result<(), Refused>
    ensures { told_of result (E.contents errors.old) (E.contents errors.new)
        (part.now ++ (codes "line " ++ decimal line ++ codes ": " ++ name.now) ++ codes "\n") }
{
    let mut buffer = Buffer::new();
    write_pieces(
        errors,
        &[part, "line ", buffer.format(line), ": ", name, "\n"],
    )
}

/// Tells `block K: NAME` behind the name of a part.
fn tell_block<E: Write>(errors: &mut E, part: &str, block: u8, name: &str) -> Result<(), Refused>
    ensures { told_of result (E.contents errors.old) (E.contents errors.new)
        (part.now ++ (codes "block " ++ decimal block ++ codes ": " ++ name.now) ++ codes "\n") }
{
    let mut buffer = Buffer::new();
    write_pieces(
        errors,
        &[part, "block ", buffer.format(block), ": ", name, "\n"],
    )
}

/// Tells `block K cycle C: RULE` behind the name of a part.
fn tell_rule<E: Write>(
    errors: &mut E,
    part: &str,
    block: u8,
    cycle: u16,
    rule: &str,
) -> Result<(), Refused>
    ensures { told_of result (E.contents errors.old) (E.contents errors.new)
        (part.now ++ (codes "block " ++ decimal block ++ codes " " ++ (codes "cycle " ++ decimal cycle ++ codes ": " ++ rule.now)) ++ codes "\n") }
{
    let mut first = Buffer::new();
    let mut second = Buffer::new();
    let block = first.format(block);
    let cycle = second.format(cycle);
    write_pieces(
        errors,
        &[part, "block ", block, " cycle ", cycle, ": ", rule, "\n"],
    )
}

/// Tells the fault of a serial text behind the name of a part.
fn tell_read_fault<E: Write>(errors: &mut E, part: &str, fault: ReadFault) -> Result<(), Refused>
    ensures { told_of result (E.contents errors.old) (E.contents errors.new) (part.now ++ fault_message fault.line fault.cause) }
{
    tell_line(errors, part, fault.line, fault.cause.name())
}

/// Tells the fault of a listing behind the name of a part.
fn tell_list_fault<E: Write>(errors: &mut E, part: &str, fault: ListFault) -> Result<(), Refused>
    ensures { told_of result (E.contents errors.old) (E.contents errors.new) (part.now ++ list_message fault) }
{
    match fault {
        ListFault::Read(fault) => tell_read_fault(errors, part, fault),
        ListFault::Shape(line) => tell_line(errors, part, line, "Shape"),
        ListFault::TwoBranches(block) => tell_block(errors, part, block, "TwoBranches"),
        ListFault::NotDrained(block) => tell_block(errors, part, block, "NotDrained"),
        ListFault::Unlawful(block, cycle, rule) => tell_rule(
            errors,
            part,
            block,
            cycle,
            rule.name(),
        ),
        ListFault::Memory => write_pieces(errors, &[part, "memory\n"]),
    }
}

/// Tells the fault of a text of packets behind the name of a part.
fn tell_adopt_fault<E: Write>(errors: &mut E, part: &str, fault: AdoptFault) -> Result<(), Refused>
    ensures { told_of result (E.contents errors.old) (E.contents errors.new) (part.now ++ adopt_message fault) }
{
    match fault {
        AdoptFault::Text(fault) => tell_line(errors, part, fault.line, fault.cause.name()),
        AdoptFault::Rule(line, rule) => tell_line(errors, part, line, rule.name()),
        AdoptFault::Code(line, cause) => tell_line(errors, part, line, cause.name()),
        AdoptFault::Memory => write_pieces(errors, &[part, "memory\n"]),
    }
}

/// Tells the fault of a text of packets in flight behind the name of a part.
fn tell_rows_fault<E: Write>(errors: &mut E, part: &str, fault: RowsFault) -> Result<(), Refused>
    ensures { told_of result (E.contents errors.old) (E.contents errors.new) (part.now ++ rows_message fault) }
{
    match fault {
        RowsFault::At(line, cause) => tell_line(errors, part, line, cause.name()),
        RowsFault::From => write_pieces(errors, &[part, "from: UnknownTarget\n"]),
        RowsFault::Memory => write_pieces(errors, &[part, "memory\n"]),
    }
}

/// Tells that the setting with this number is bad.
fn tell_setting<E: Write>(errors: &mut E, number: usize) -> Result<(), Refused>
    ensures { told_of result (E.contents errors.old) (E.contents errors.new) (setting_message number) }
{
    let mut buffer = Buffer::new();
    write_pieces(errors, &["setting ", buffer.format(number), ": bad\n"])
}

/// Tells of a `--trips` by its number what is wrong with it.
fn tell_trips<E: Write>(errors: &mut E, number: usize, what: &str) -> Result<(), Refused>
    ensures { told_of result (E.contents errors.old) (E.contents errors.new) (trips_message number what.now) }
{
    let mut buffer = Buffer::new();
    write_pieces(errors, &["trips ", buffer.format(number), ": ", what, "\n"])
}

/// Tells that this promise is bad.
fn tell_promise<E: Write>(errors: &mut E, bad: BadPromise) -> Result<(), Refused>
    ensures { told_of result (E.contents errors.old) (E.contents errors.new) (promise_message bad) }
{
    match bad {
        BadPromise::Trips(number) => tell_trips(errors, number, "bad"),
        BadPromise::Apart => write_whole(errors, b"apart: bad\n"),
    }
}

/// Which options exclude each other.
fn exclusion_text(exclusion: Exclusion) -> &'static str
    ensures { result.now ≡ exclusion_message exclusion }
{
    match exclusion {
        Exclusion::Page => "error: --html goes with neither --json nor --summary\n",
        Exclusion::Blocks => "error: --blocks limits no run with --pipeline: --cycles does\n",
    }
}

/// Tells what failed, in one line but for clap's text.
///
/// # Errors
///
/// Where the stream takes no more. It has a front of the line then.
pub fn report<E: Write>(errors: &mut E, failure: &Failure) -> Result<(), Refused>
    ensures { IfSome (message_of failure.now) (told_of result (E.contents errors.old) (E.contents errors.new)) }
{
    match failure {
        Failure::Unread(fault) => tell_read_fault(errors, "", *fault),
        Failure::Unlisted(fault) => tell_list_fault(errors, "", *fault),
        Failure::Unadopted(fault) => tell_adopt_fault(errors, "", *fault),
        Failure::Unflown(fault) => tell_rows_fault(errors, "", *fault),
        Failure::TextPart(fault) => tell_read_fault(errors, "text ", *fault),
        Failure::ListingPart(fault) => tell_list_fault(errors, "listing ", *fault),
        Failure::PacketsPart(fault) => tell_adopt_fault(errors, "listing ", *fault),
        Failure::RowsPart(fault) => tell_rows_fault(errors, "listing ", *fault),
        Failure::NoListing => write_whole(errors, b"text line 0: NoListing\n"),
        Failure::NoLoop(number) => tell_trips(errors, *number, "no loop"),
        Failure::Words(error) => show(errors, error),
        Failure::Setting(number) => tell_setting(errors, *number),
        Failure::Promise(bad) => tell_promise(errors, *bad),
        Failure::Excluded(exclusion) => write_whole(errors, exclusion_text(*exclusion).as_bytes()),
        Failure::Memory => write_whole(errors, b"memory\n"),
        Failure::Input => write_whole(errors, b"input\n"),
        Failure::Output => write_whole(errors, b"output\n"),
    }
}

fn added_word(cycles: u64) -> &'static str
    ensures { result.now ≡ added_word cycles }
{
    if cycles == 1 {
        " cycle added"
    } else {
        " cycles added"
    }
}

fn file_letter(side: Side) -> &'static str
    ensures { result.now ≡ file_letter side }
{
    match side {
        Side::A => "A",
        Side::B => "B",
    }
}

/// Tells that so many cycles were added, and the register that is read too early.
fn tell_late<E: Write>(errors: &mut E, cycles: u64, late: Late) -> Result<(), Refused>
    ensures { told_of result (E.contents errors.old) (E.contents errors.new) (cycles_added cycles ++ late_message (Some late) ++ codes "\n") }
{
    let mut count = Buffer::new();
    let mut number = Buffer::new();
    let mut line = Buffer::new();
    let pieces = [
        count.format(cycles),
        added_word(cycles),
        "; ",
        file_letter(late.reg.side),
        number.format(late.reg.number),
        " was read below line ",
        line.format(late.line),
        " before it landed",
        "\n",
    ];
    write_pieces(errors, &pieces)
}

/// Tells that so many cycles were added.
fn tell_cycles<E: Write>(errors: &mut E, cycles: u64) -> Result<(), Refused>
    ensures { told_of result (E.contents errors.old) (E.contents errors.new) (cycles_added cycles ++ codes "\n") }
{
    let mut count = Buffer::new();
    write_pieces(errors, &[count.format(cycles), added_word(cycles), "\n"])
}

/// Tells what was added to drain a text; nothing where no cycles were.
fn tell_added<E: Write>(errors: &mut E, added: Added) -> Result<(), Refused>
    ensures { told_of result (E.contents errors.old) (E.contents errors.new) (drained_message added) }
{
    if added.cycles == 0 {
        return Ok(());
    }
    match added.late {
        None => tell_cycles(errors, added.cycles),
        Some(late) => tell_late(errors, added.cycles, late),
    }
}

/// Tells of a text that was drained what was added, and of pipelined loops what is to be told of these; else nothing.
///
/// # Errors
///
/// Where the stream takes no more. It has a front of the line then.
pub fn tell_outcome<E: Write>(errors: &mut E, outcome: &Outcome) -> Result<(), Refused>
    ensures { TellsOutcome (told_of result) outcome.now (E.contents errors.old) (E.contents errors.new) }
{
    match outcome {
        Outcome::Done | Outcome::NotSame | Outcome::Breached(_) => Ok(()),
        Outcome::Drained(added) => tell_added(errors, *added),
        Outcome::Looped(told, _) => write_whole(errors, told),
    }
}
