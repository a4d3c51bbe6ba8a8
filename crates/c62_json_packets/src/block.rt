//! Blocks of packets.

ghost use Rattle.std.specs.Prelude.{◌≡◌};
ghost use Rattle.std.specs.Option.{option_copied};
ghost use Rattle.c62_json.specs.Document.{Adds};
ghost use Rattle.c62_json_packets.specs.Packets.{name_among, label_member, heading, told_block, blocks_from, blocks_member};

use crate::labels::labels_of;
use crate::member::{begin_array, push_null, push_number, push_string};
use crate::packet::push_packets;
use c62_listing::label_text;
use c62_packet::{PacketBlock, Packets};
use c62_read::Label;
use json::Writer;
use std::alloc::{AllocError, Global};

/// Writes the member of the label of a block, or that it has none.
fn push_label(out: &mut Writer, label: Option<&Label>) -> Result<(), AllocError>
    ensures { Adds result out.old out.new (label_member (option_copied label.entry)) }
{
    match label {
        Some(label) => push_string(out, "label", label_text(label)),
        None => push_null(out, "label"),
    }
}

/// Writes the first members of a block: its number, its label, and how many cycles it takes.
///
/// # Errors
///
/// `AllocError` where memory ran out.
#[tactic(auto, unfolding(crate::specs::Packets::heading))]
pub fn push_heading(out: &mut Writer, number: u64, block: &PacketBlock) -> Result<(), AllocError>
    ensures { Adds result out.old out.new (heading number block.now) }
{
    push_number(out, "block", number)?;
    push_label(out, block.label())?;
    push_number(out, "cycles", u64::from(block.length()))
}

/// Writes a block.
#[tactic(auto, unfolding(crate::specs::Packets::told_block))]
fn push_block(
    alloc: Global,
    out: &mut Writer,
    labels: &[Option<Label>],
    number: u64,
    block: &PacketBlock,
) -> Result<(), AllocError>
    ensures { Adds result out.old out.new (told_block (name_among labels.now) number block.now) }
{
    out.begin_object()?;
    push_heading(out, number, block)?;
    push_packets(alloc, out, labels, block)?;
    out.end_object()
}

/// Writes blocks, one behind the other, numbered from 0.
fn push_each(
    alloc: Global,
    out: &mut Writer,
    labels: &[Option<Label>],
    blocks: &[PacketBlock],
) -> Result<(), AllocError>
    ensures { Adds result out.old out.new (blocks_from (name_among labels.now) 0 blocks.now) }
{
    let mut number = 0;
    for each in blocks {
        push_block(alloc, out, labels, number, each)?;
        number += 1;
    }
    Ok(())
}

/// Writes the member `blocks`: packets, block by block.
///
/// # Errors
///
/// `AllocError` where memory ran out.
#[tactic(auto, unfolding(crate::specs::Packets::blocks_member, crate::specs::Member::array_member))]
pub fn push_blocks(alloc: Global, out: &mut Writer, packets: &Packets) -> Result<(), AllocError>
    ensures { Adds result out.old out.new (blocks_member packets.now) }
{
    let blocks = packets.blocks();
    let labels = labels_of(alloc, blocks)?;
    begin_array(out, "blocks")?;
    push_each(alloc, out, &labels, blocks)?;
    out.end_array()
}
