//! Writes the listing of packets.

ghost use Rattle.std.specs.Prelude.{◌≡◌, ◌+◌, ◌*◌, ◌≤◌, ◌++◌, IfOk, OnOk, All, length, codes, string_bytes, IsTrue};
ghost use Rattle.std.specs.Option.{option_copied};
ghost use Rattle.c62_insn.specs.Insn.{operands_of};
ghost use Rattle.c62_read.specs.declared.limits.TheConstants.{MOST_BLOCKS};
ghost use Rattle.c62_packet.specs.Packed.{IsPacketBlock};
ghost use Rattle.c62_packet.specs.Packets.{is_closed};
ghost use Rattle.c62_listing.specs.Listing.{name_in, pause_line, idle_lines, whole_line, placed_lines, cycle_lines, label_lines, block_lines, parted_lines, listing};
ghost use Rattle.c62_listing.specs.Names.{target_name};
ghost use Rattle.c62_listing.specs.Written.{AddsText, AddsLines};

use crate::spelling::push_spelling;
use c62_insn::{Insn, Operands};
use c62_packet::{PacketBlock, Packets, Placed};
use c62_read::Label;
use itoa::Buffer;
use std::alloc::{AllocError, Global};

fn push_pause(out: &mut String, cycles: u32) -> Result<(), AllocError>
    ensures { OnOk result (AddsText out.old (pause_line cycles ++ codes "\n") out.new) }
{
    let mut buffer = Buffer::new();
    out.push_str("   NOP ")?;
    out.push_str(buffer.format(cycles))?;
    out.push_str("\n")
}

/// Appends so many cycles without an instruction.
fn push_idle(out: &mut String, cycles: u32) -> Result<(), AllocError>
    ensures { OnOk result (AddsLines out.old (idle_lines cycles) out.new) }
{
    for _ in 0..cycles / 9 {
        push_pause(out, 9)?;
    }
    if cycles % 9 == 0 {
        Ok(())
    } else {
        push_pause(out, cycles % 9)
    }
}

/// The label as a text.
pub fn label_text(label: &Label) -> &str
    ensures { result.now ≡ label.now }
{
    match str::from_utf8(label.as_bytes()) {
        Ok(text) => text,
        Err(_) => unreachable!(),
    }
}

/// The name of what an instruction branches to, where it is a block with a label.
fn target_name(blocks: &[PacketBlock], insn: Insn) -> &str
    ensures { result.now ≡ target_name (name_in blocks.now) (operands_of insn) }
{
    match insn.operands() {
        Operands::Block(number) => block_name(blocks, number),
        _ => "",
    }
}

/// The label of a block, where it has one.
fn block_name(blocks: &[PacketBlock], number: u8) -> &str
    ensures { result.now ≡ name_in blocks.now number }
{
    let Some(block) = blocks.get(number as usize) else {
        return "";
    };
    match block.label() {
        Some(label) => label_text(label),
        None => "",
    }
}

/// Appends an instruction's line.
fn push_line(
    out: &mut String,
    front: &str,
    blocks: &[PacketBlock],
    placed: &Placed,
) -> Result<(), AllocError>
    ensures { OnOk result (AddsText out.old (whole_line (name_in blocks.now) front.now placed.now) out.new) }
{
    out.push_str(front)?;
    push_spelling(
        out,
        placed.insn,
        placed.unit,
        target_name(blocks, placed.insn),
    )?;
    out.push_str("\n")
}

/// Appends an instruction's line, and the idle cycles before it, where the cycles below `next` are written.
fn push_placed(
    out: &mut String,
    blocks: &[PacketBlock],
    next: u32,
    placed: &Placed,
) -> Result<(), AllocError>
    ensures { OnOk result (AddsLines out.old (placed_lines (name_in blocks.now) next placed.now) out.new) }
{
    let cycle = u32::from(placed.cycle);
    if cycle < next {
        push_line(out, "|| ", blocks, placed)
    } else {
        push_idle(out, cycle - next)?;
        push_line(out, "   ", blocks, placed)
    }
}

/// Appends the cycles of a block.
fn push_cycles(
    out: &mut String,
    blocks: &[PacketBlock],
    length: u16,
    placed: &[Placed],
) -> Result<(), AllocError>
    ensures { OnOk result (AddsLines out.old (cycle_lines (name_in blocks.now) 0 length placed.now) out.new) }
{
    let mut next = 0;
    for each in placed {
        push_placed(out, blocks, next, each)?;
        next = u32::from(each.cycle) + 1;
    }
    push_idle(out, u32::from(length).saturating_sub(next))
}

fn push_label(out: &mut String, label: Option<&Label>) -> Result<(), AllocError>
    ensures { OnOk result (AddsLines out.old (label_lines (option_copied label.entry)) out.new) }
{
    if let Some(label) = label {
        out.push_str(label_text(label))?;
        out.push_str(":\n")?;
    }
    Ok(())
}

/// Appends a block.
fn push_block(
    out: &mut String,
    blocks: &[PacketBlock],
    block: &PacketBlock,
) -> Result<(), AllocError>
    ensures { OnOk result (AddsLines out.old (block_lines (name_in blocks.now) block.now) out.new) }
{
    push_label(out, block.label())?;
    push_cycles(out, blocks, block.length(), block.placed())
}

/// Room for the text: a line has at most 48 bytes and nine of idle cycles before it.
fn room(blocks: &[PacketBlock]) -> usize
    requires few { length blocks.now ≤ MOST_BLOCKS }
    requires sound { All IsPacketBlock blocks.now }
{
    let mut room = 0;
    for block in blocks {
        room += 64 + block.placed().len() * 57 + block.length() as usize;
    }
    room
}

/// Appends the blocks behind the first, each with the empty line before it.
fn push_parted(
    out: &mut String,
    blocks: &[PacketBlock],
    rest: &[PacketBlock],
) -> Result<(), AllocError>
    ensures { OnOk result (AddsLines out.old (parted_lines (name_in blocks.now) rest.now) out.new) }
{
    for block in rest {
        out.push_str("\n")?;
        push_block(out, blocks, block)?;
    }
    Ok(())
}

fn push_all(out: &mut String, blocks: &[PacketBlock]) -> Result<(), AllocError>
    ensures { OnOk result (AddsText out.old (listing blocks.now) out.new) }
{
    match blocks {
        [] => Ok(()),
        [first, rest @ ..] => {
            push_block(out, blocks, first)?;
            push_parted(out, blocks, rest)
        }
    }
}

/// The listing of the packets, whose branches all go to blocks that are there and have labels.
///
/// # Errors
///
/// Where memory runs out.
pub fn list(alloc: Global, packets: &Packets) -> Result<String, AllocError>
    requires { IsTrue (is_closed packets.now) }
    ensures { IfOk result (λ text. string_bytes text ≡ listing packets.now) }
{
    let blocks = packets.blocks();
    let mut out = String::with_capacity(alloc, room(blocks))?;
    push_all(&mut out, blocks)?;
    Ok(out)
}
