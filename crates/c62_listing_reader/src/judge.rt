//! What a line of a listing says, or its first fault.

ghost use Rattle.std.specs.Prelude.{◌≡◌, ◌≤◌, ◌&&◌, not, Ok, Err, IfOk, IsOk, OnOk, MatchResult, is_some, is_none};
ghost use Rattle.std.specs.List.{list_all, list_any};
ghost use Rattle.c62_token.specs.Token.{is_allowed};
ghost use Rattle.c62_line.specs.Line.{line_of, said_of};
ghost use Rattle.c62_line.specs.Line.{label_field};
ghost use Rattle.c62_read.specs.Walk.{is_unknown, is_instruction};
ghost use Rattle.c62_listing_reader.specs.Text.{lines_in, content};
ghost use Rattle.c62_listing_reader.specs.Cut.{line_cut};
ghost use Rattle.c62_listing_reader.specs.Begin.{has_colon, front_of, rest_of, is_gap, is_beside};
ghost use Rattle.c62_listing_reader.specs.Said.{labels_of};
ghost use Rattle.c62_listing_reader.specs.Faults.{is_issue, is_filled, unit_said, unit_above, precedes, goes_on, is_misplaced, is_taken, rest_read_as, is_one_more, begins_one_more, hindrance, cycles_added, is_alone, is_too_long, with_rest, rest_says, line_says};
ghost use Rattle.c62_listing_reader.specs.Reading.{drafts_of, said_by, entries_of, read_as, Fails, Judges, is_unfit_here, fitting, saying, rest_saying, line_saying, JudgesReading, JudgesRead};

use crate::draft::Blocks;
use crate::fault::LineFault;
use crate::line::{Above, Front, has_colon, rest};
use crate::names::Names;
use crate::spelled::is_spelled;
use crate::text::{Cut, begins_filled, content, is_ended};
use c62_insn::Unit;
use c62_line::MOST_LINE;
use c62_op::InstructionSet;
use c62_packet::MOST_CYCLES;
use c62_read::{Cause, Label, MOST_INSTRUCTIONS, ReadFault, Reading, What, label_field};
use c62_token::scan_line;

fn is_issue(above: Above) -> bool
    ensures { result ≡ is_issue above }
{
    matches!(above, Above::Issue(_))
}

fn is_filled(above: Above) -> bool
    ensures { result ≡ is_filled above }
{
    !matches!(above, Above::Start)
}

/// Whether a line is empty, and so parts two blocks.
pub fn is_gap(front: Front) -> bool
    ensures { result ≡ is_gap front }
{
    matches!(front, Front::Empty)
}

/// Whether an instruction stands in the packet of the line above: its line begins with `|| `.
pub fn is_beside(front: Front) -> bool
    ensures { result ≡ is_beside front }
{
    matches!(front, Front::Beside)
}

fn unit_said(what: &What) -> Option<Unit>
    ensures { result ≡ unit_said (said_of what.now) }
{
    match what {
        What::Insn(insn) => insn.unit(),
        What::Jump(insn, _) => insn.unit(),
        _ => None,
    }
}

fn unit_above(above: Above) -> Option<Unit>
    ensures { result ≡ unit_above above }
{
    match above {
        Above::Issue(unit) => unit,
        _ => None,
    }
}

fn precedes(unit: Option<Unit>, above: Option<Unit>) -> bool
    ensures { result ≡ precedes unit above }
{
    match (unit, above) {
        (Some(unit), Some(above)) => unit.index() < above.index(),
        _ => false,
    }
}

/// Whether a pause follows one of less than nine cycles.
fn goes_on(what: &What, above: Above) -> bool
    ensures { result ≡ goes_on (said_of what.now) above }
{
    match (what, above) {
        (What::Nop(_), Above::Pause(cycles)) => cycles < 9,
        _ => false,
    }
}

fn is_misplaced(front: Front, above: Above) -> bool
    ensures { result ≡ is_misplaced front above }
{
    match front {
        Front::Stray => true,
        Front::Beside => !is_issue(above),
        _ => false,
    }
}

/// The fault of a rest in which bars have no meaning. A label that is taken comes before all faults but a bad label.
fn fault_of_rest(blocks: &Blocks, rest: &[u8], cause: Cause) -> Cause
    ensures { rest_read_as (drafts_of blocks.now) rest.now (Err cause) ≡ Err result }
{
    match cause {
        Cause::ParallelBar => {
            if has_colon(rest) {
                Cause::BadLabel
            } else {
                Cause::UnknownMnemonic
            }
        }
        Cause::BadLabel => Cause::BadLabel,
        cause => {
            if blocks.is_taken(label_field(rest)) {
                Cause::DuplicateLabel
            } else {
                cause
            }
        }
    }
}

fn is_label_taken(blocks: &Blocks, label: &Option<Label>) -> bool
    ensures { result ≡ is_taken label.now (drafts_of blocks.now) }
{
    match label {
        Some(label) => blocks.is_taken(Some(label.as_bytes())),
        None => false,
    }
}

/// Whether a branch goes to a label that no line has.
fn is_unknown(names: &Names<'_>, what: &What) -> bool
    ensures { result ≡ is_unknown (labels_of (entries_of names.now)) (said_of what.now) }
{
    match what {
        What::Jump(_, label) => !names.has(label.as_bytes()),
        _ => false,
    }
}

fn is_instruction(what: &What) -> bool
    ensures { result ≡ is_instruction (said_of what.now) }
{
    matches!(what, What::Insn(_) | What::Jump(_, _))
}

/// Whether the line is an instruction of a block that has as many as it may.
fn is_one_more(blocks: &Blocks, what: &What) -> bool
    ensures { result ≡ is_one_more (drafts_of blocks.now) (said_of what.now) }
{
    is_instruction(what) && MOST_INSTRUCTIONS <= blocks.count()
}

/// Whether the line begins a block.
fn begins_block(blocks: &Blocks, front: Front) -> bool
    ensures { result ≡ (not (is_gap front) && is_none (drafts_of blocks.now).current) }
{
    !is_gap(front) && blocks.current.is_none()
}

/// Whether the line begins a block behind as many as there may be.
fn begins_one_more(blocks: &Blocks, front: Front) -> bool
    ensures { result ≡ begins_one_more (drafts_of blocks.now) front }
{
    begins_block(blocks, front) && blocks.is_full()
}

/// What stands against a line that says something by itself.
fn hindrance(names: &Names<'_>, blocks: &Blocks, front: Front, what: &What) -> Option<Cause>
    ensures { result ≡ hindrance (labels_of (entries_of names.now)) (drafts_of blocks.now) front (said_of what.now) }
{
    if is_unknown(names, what) {
        return Some(Cause::UnknownTarget);
    }
    if is_one_more(blocks, what) {
        return Some(Cause::TooManyInstructions);
    }
    if begins_one_more(blocks, front) {
        return Some(Cause::TooManyBlocks);
    }
    None
}

fn cycles_added(beside: bool, what: &What) -> u16
    ensures added { result ≡ cycles_added beside (said_of what.now) }
    ensures few { result ≤ 255 }
{
    match what {
        What::Empty => 0,
        What::Nop(cycles) => u16::from(*cycles),
        _ => u16::from(!beside),
    }
}

/// Whether an empty line does not stand between two lines that are not empty.
fn is_alone(front: Front, above: Above, below: &[u8]) -> bool
    ensures { result ≡ is_alone front above (lines_in below.now) }
{
    if is_gap(front) {
        let between = is_filled(above) && begins_filled(below);
        !between
    } else {
        false
    }
}

/// Whether the line gives a unit that stands before the unit of the line above in one packet.
fn falls(front: Front, what: &What, above: Above) -> bool
    ensures { result ≡ (is_beside front && precedes (unit_said (said_of what.now)) (unit_above above)) }
{
    is_beside(front) && precedes(unit_said(what), unit_above(above))
}

/// Whether a label stands in a block that is begun.
fn is_inside(label: &Option<Label>, blocks: &Blocks) -> bool
    ensures { result ≡ (is_some label.now && is_some (drafts_of blocks.now).current) }
{
    label.is_some() && blocks.current.is_some()
}

/// Whether the line makes its block too long.
fn is_too_long(blocks: &Blocks, front: Front, what: &What) -> bool
    ensures { result ≡ is_too_long (drafts_of blocks.now) front (said_of what.now) }
{
    let cycles = u32::from(blocks.cycles()) + u32::from(cycles_added(is_beside(front), what));
    u32::from(MOST_CYCLES) < cycles
}

/// Whether a line does not fit its neighbours.
fn is_unfit(blocks: &Blocks, above: Above, cut: &Cut<'_>, front: Front, reading: &Reading) -> bool
    ensures { result ≡ is_unfit_here (drafts_of blocks.now) above cut.now front reading.now }
{
    if !is_ended(cut) {
        return true;
    }
    if falls(front, &reading.what, above) {
        return true;
    }
    if goes_on(&reading.what, above) {
        return true;
    }
    if is_alone(front, above, cut.rest) {
        return true;
    }
    if is_inside(&reading.label, blocks) {
        return true;
    }
    is_too_long(blocks, front, &reading.what)
}

/// Whether a line is spelled as what it says, and fits its neighbours.
fn fit(
    spelling: &mut String,
    blocks: &Blocks,
    above: Above,
    cut: &Cut<'_>,
    front: Front,
    reading: &Reading,
) -> Result<(), LineFault>
    ensures { Judges (fitting (drafts_of blocks.now) above cut.now front reading.now)
        (said_by front reading.now) result }
{
    let spelled = is_spelled(spelling, content(cut), front, &reading.label, &reading.what)?;
    if !spelled {
        return Err(LineFault::Shape);
    }
    if is_unfit(blocks, above, cut, front, reading) {
        return Err(LineFault::Shape);
    }
    Ok(())
}

/// Whether nothing stands against a line that says this.
fn with_reading(
    spelling: &mut String,
    names: &Names<'_>,
    blocks: &Blocks,
    above: Above,
    cut: &Cut<'_>,
    front: Front,
    reading: &Reading,
) -> Result<(), LineFault>
    ensures { JudgesReading names.now (drafts_of blocks.now) above cut.now front reading.now result }
{
    match hindrance(names, blocks, front, &reading.what) {
        Some(cause) => Err(LineFault::Read(cause)),
        None => fit(spelling, blocks, above, cut, front, reading),
    }
}

/// Whether nothing stands against a line whose rest reads so. The label that is read is the one in its label field.
fn with_rest(
    isa: InstructionSet,
    spelling: &mut String,
    names: &Names<'_>,
    blocks: &Blocks,
    above: Above,
    cut: &Cut<'_>,
    front: Front,
    read: &Result<Reading, ReadFault>,
) -> Result<(), LineFault>
    requires { read_as read.now ≡ line_of isa (rest_of front (content (line_cut cut.now))) }
    ensures judged { JudgesRead (rest_saying isa names.now (drafts_of blocks.now) above cut.now front) front read.now result }
    ensures ok { OnOk result (IsOk read.now) }
{
    match read {
        Err(fault) => Err(LineFault::Read(fault_of_rest(
            blocks,
            rest(front, content(cut)),
            fault.cause,
        ))),
        Ok(reading) => {
            if is_label_taken(blocks, &reading.label) {
                Err(LineFault::Read(Cause::DuplicateLabel))
            } else {
                with_reading(spelling, names, blocks, above, cut, front, reading)
            }
        }
    }
}

/// Whether all bytes of a line are allowed whose rest reads so. Those of a rest that is read are.
fn has_text(
    isa: InstructionSet,
    line: &[u8],
    front: Front,
    read: &Result<Reading, ReadFault>,
) -> bool
    requires front { front ≡ front_of line.now }
    requires read { read_as read.now ≡ line_of isa (rest_of front line.now) }
    ensures { result ≡ list_all is_allowed line.now }
{
    match read {
        Ok(_) => true,
        Err(_) => scan_line(line).allowed,
    }
}

/// Judges a line by what stands around it (docs/LISTING.md, "Faults of a line").
///
/// `cut` is the line and the text behind it, `front` what the line begins with, and `read` how the rest of it reads. `above` is the
/// line above it, `blocks` are the blocks so far, and `names` the labels of the whole text. What the line should look like is
/// written to `spelling`.
///
/// # Errors
///
/// The first fault of the line, or `Memory` where memory ran out.
#[tactic(auto, unfolding(crate::specs::Faults::line_says))]
pub fn judge(
    isa: InstructionSet,
    spelling: &mut String,
    names: &Names<'_>,
    blocks: &Blocks,
    above: Above,
    cut: &Cut<'_>,
    front: Front,
    read: &Result<Reading, ReadFault>,
) -> Result<(), LineFault>
    requires front { front ≡ front_of (content (line_cut cut.now)) }
    requires read { read_as read.now ≡ line_of isa (rest_of front (content (line_cut cut.now))) }
    ensures judged { JudgesRead (line_saying isa names.now (drafts_of blocks.now) above cut.now) front read.now result }
    ensures ok { OnOk result (IsOk read.now) }
{
    let line = content(cut);
    if !has_text(isa, line, front, read) {
        return Err(LineFault::Read(Cause::NotAscii));
    }
    if line.len() > MOST_LINE {
        return Err(LineFault::Read(Cause::LineTooLong));
    }
    if is_misplaced(front, above) {
        return Err(LineFault::Shape);
    }
    with_rest(isa, spelling, names, blocks, above, cut, front, read)
}
