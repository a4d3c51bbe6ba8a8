//! The document of blocks that are shown.

ghost use Rattle.std.specs.Prelude.{◌≡◌, [], IfOk, codes};
ghost use Rattle.c62_json.specs.Document.{Adds, document};
ghost use Rattle.c62_packet.specs.Packets.{labels_of};
ghost use Rattle.c62_json_packets.specs.Member.{array_member};
ghost use Rattle.c62_json_packets.specs.Packets.{name_among};
ghost use Rattle.c62_json_show.specs.Shown.{packets_of, head_members, rows, no_rows, rows_told, shown_block, blocks_from, blocks_member};

use crate::causes::push_causes;
use crate::landings::push_landings;
use crate::limits::push_limits;
use crate::registers::push_registers;
use c62_json::{begin, end};
use c62_json_packets::member::{begin_array, push_null, push_number};
use c62_json_packets::{copied, push_heading, push_packets};
use c62_read::Label;
use c62_show::Shown;
use json::Writer;
use std::alloc::{AllocError, Global};

/// The labels of the blocks, by their numbers.
fn labels_of(alloc: Global, shown: &[Shown]) -> Result<Vec<Option<Label>>, AllocError>
    ensures { IfOk result (λ labels. labels.items ≡ labels_of (packets_of shown.now)) }
{
    let mut labels = Vec::new(alloc);
    for each in shown {
        labels.push(copied(each.packets.label()))?;
    }
    Ok(labels)
}

/// Writes the head of a block: its number, its label, how long it is, and how short it can be at best.
#[tactic(auto, unfolding(crate::specs::Shown::head_members))]
fn push_head(alloc: Global, out: &mut Writer, number: u64, shown: &Shown) -> Result<(), AllocError>
    ensures { Adds result out.old out.new (head_members number shown.now) }
{
    push_heading(out, number, &shown.packets)?;
    push_number(out, "instructions", shown.packets.placed().len() as u64)?;
    push_limits(alloc, out, &shown.limits)
}

/// Writes what stands below the head of a block.
#[tactic(auto, unfolding(crate::specs::Shown::rows))]
fn push_rows(
    alloc: Global,
    out: &mut Writer,
    labels: &[Option<Label>],
    shown: &Shown,
) -> Result<(), AllocError>
    ensures { Adds result out.old out.new (rows (name_among labels.now) shown.now) }
{
    push_packets(alloc, out, labels, &shown.packets)?;
    push_landings(alloc, out, shown.packets.placed())?;
    push_causes(alloc, out, &shown.whys)?;
    push_registers(alloc, out, &shown.lives)
}

/// Writes a member that is an empty array.
#[tactic(auto, unfolding(c62_json_packets::specs::Member::array_member))]
pub(crate) fn push_empty(out: &mut Writer, name: &str) -> Result<(), AllocError>
    ensures { Adds result out.old out.new (array_member name.now []) }
{
    begin_array(out, name)?;
    out.end_array()
}

/// Writes that nothing is told below the head of a block.
#[tactic(auto, unfolding(crate::specs::Shown::no_rows))]
fn push_no_rows(out: &mut Writer) -> Result<(), AllocError>
    ensures { Adds result out.old out.new no_rows }
{
    push_empty(out, "packets")?;
    push_empty(out, "landings")?;
    push_empty(out, "causes")?;
    push_null(out, "registers")
}

/// Writes what stands below the head of a block, where heads alone aren't asked for.
fn push_rows_told(
    alloc: Global,
    out: &mut Writer,
    labels: &[Option<Label>],
    summary: bool,
    shown: &Shown,
) -> Result<(), AllocError>
    ensures { Adds result out.old out.new (rows_told (name_among labels.now) summary shown.now) }
{
    if summary {
        push_no_rows(out)
    } else {
        push_rows(alloc, out, labels, shown)
    }
}

/// Writes a block.
#[tactic(auto, unfolding(crate::specs::Shown::shown_block))]
fn push_shown(
    alloc: Global,
    out: &mut Writer,
    labels: &[Option<Label>],
    summary: bool,
    number: u64,
    shown: &Shown,
) -> Result<(), AllocError>
    ensures { Adds result out.old out.new (shown_block (name_among labels.now) summary number shown.now) }
{
    out.begin_object()?;
    push_head(alloc, out, number, shown)?;
    push_rows_told(alloc, out, labels, summary, shown)?;
    out.end_object()
}

/// Writes blocks, one behind the other, numbered from 0.
fn push_each(
    alloc: Global,
    out: &mut Writer,
    labels: &[Option<Label>],
    summary: bool,
    shown: &[Shown],
) -> Result<(), AllocError>
    ensures { Adds result out.old out.new (blocks_from (name_among labels.now) summary 0 shown.now) }
{
    let mut number = 0;
    for each in shown {
        push_shown(alloc, out, labels, summary, number, each)?;
        number += 1;
    }
    Ok(())
}

/// Writes the member `blocks`.
#[tactic(auto, unfolding(crate::specs::Shown::blocks_member, c62_json_packets::specs::Member::array_member))]
fn push_blocks(
    alloc: Global,
    out: &mut Writer,
    summary: bool,
    shown: &[Shown],
) -> Result<(), AllocError>
    ensures { Adds result out.old out.new (blocks_member summary shown.now) }
{
    let labels = labels_of(alloc, shown)?;
    begin_array(out, "blocks")?;
    push_each(alloc, out, &labels, summary, shown)?;
    out.end_array()
}

/// The document of a command that shows blocks.
fn document_of(
    alloc: Global,
    command: &str,
    shown: &[Shown],
    summary: bool,
) -> Result<Vec<u8>, AllocError>
    ensures { IfOk result (λ text. text.items ≡ document command.now (blocks_member summary shown.now)) }
{
    let mut out = begin(alloc, command)?;
    push_blocks(alloc, &mut out, summary, shown)?;
    end(out)
}

/// The document of blocks that are shown, or of their heads alone.
///
/// # Errors
///
/// `AllocError` where memory ran out.
pub fn shown_document(alloc: Global, shown: &[Shown], summary: bool) -> Result<Vec<u8>, AllocError>
    ensures { IfOk result (λ text. text.items ≡ document (codes "show") (blocks_member summary shown.now)) }
{
    document_of(alloc, "show", shown, summary)
}
