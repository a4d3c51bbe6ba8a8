//! The packets of a block.

ghost use Rattle.std.specs.Prelude.{◌≡◌, IfOk, codes};
ghost use Rattle.std.specs.List.{flat_map, range_with_len};
ghost use Rattle.c62_json.specs.Document.{Adds};
ghost use Rattle.c62_json_packets.specs.Member.{array_member};
ghost use Rattle.c62_json_packets.specs.Packets.{name_among, instruction, issued_in, packet_of, packet, packets};

use crate::instruction::push_instruction;
use crate::member::{begin_array, push_number};
use c62_packet::{PacketBlock, Placed};
use c62_read::Label;
use json::Writer;
use std::alloc::{AllocError, Global};

/// The instructions that are issued in a cycle.
fn issued_in(alloc: Global, placed: &[Placed], cycle: u16) -> Result<Vec<Placed>, AllocError>
    ensures { IfOk result (λ issued. issued.items ≡ issued_in placed.now cycle) }
{
    let mut issued = Vec::new(alloc);
    for each in placed {
        if each.cycle == cycle {
            issued.push(*each)?;
        }
    }
    Ok(issued)
}

/// Writes instructions, one behind the other.
fn push_each(
    alloc: Global,
    out: &mut Writer,
    labels: &[Option<Label>],
    issued: &[Placed],
) -> Result<(), AllocError>
    ensures { Adds result out.old out.new (flat_map (instruction (name_among labels.now)) issued.now) }
{
    for each in issued {
        push_instruction(alloc, out, labels, each)?;
    }
    Ok(())
}

/// Writes the member of the instructions of a packet.
#[tactic(auto, unfolding(crate::specs::Member::array_member))]
fn push_instructions(
    alloc: Global,
    out: &mut Writer,
    labels: &[Option<Label>],
    issued: &[Placed],
) -> Result<(), AllocError>
    ensures { Adds result out.old out.new (array_member (codes "instructions") (flat_map (instruction (name_among labels.now)) issued.now)) }
{
    begin_array(out, "instructions")?;
    push_each(alloc, out, labels, issued)?;
    out.end_array()
}

/// Writes the packet of a cycle in which these instructions are issued; nothing, where there are none.
#[tactic(auto, unfolding(crate::specs::Packets::packet_of))]
fn push_packet_of(
    alloc: Global,
    out: &mut Writer,
    labels: &[Option<Label>],
    cycle: u16,
    issued: &[Placed],
) -> Result<(), AllocError>
    ensures { Adds result out.old out.new (packet_of (name_among labels.now) cycle issued.now) }
{
    if issued.is_empty() {
        return Ok(());
    }
    out.begin_object()?;
    push_number(out, "cycle", u64::from(cycle))?;
    push_instructions(alloc, out, labels, issued)?;
    out.end_object()
}

/// Writes the packet of a cycle, where something is issued in it.
fn push_packet(
    alloc: Global,
    out: &mut Writer,
    labels: &[Option<Label>],
    placed: &[Placed],
    cycle: u16,
) -> Result<(), AllocError>
    ensures { Adds result out.old out.new (packet (name_among labels.now) placed.now cycle) }
{
    let issued = issued_in(alloc, placed, cycle)?;
    push_packet_of(alloc, out, labels, cycle, &issued)
}

/// Writes the packets of the cycles below a block's length.
fn push_all(
    alloc: Global,
    out: &mut Writer,
    labels: &[Option<Label>],
    length: u16,
    placed: &[Placed],
) -> Result<(), AllocError>
    ensures { Adds result out.old out.new (flat_map (packet (name_among labels.now) placed.now) (range_with_len 0 length)) }
{
    for cycle in 0..length {
        push_packet(alloc, out, labels, placed, cycle)?;
    }
    Ok(())
}

/// Writes the member `packets` of a block: one for each cycle in which something is issued, rising. Branches are spelled by these
/// labels of all blocks.
///
/// # Errors
///
/// `AllocError` where memory ran out.
#[tactic(auto, unfolding(crate::specs::Packets::packets, crate::specs::Member::array_member))]
pub fn push_packets(
    alloc: Global,
    out: &mut Writer,
    labels: &[Option<Label>],
    block: &PacketBlock,
) -> Result<(), AllocError>
    ensures { Adds result out.old out.new (packets (name_among labels.now) block.now) }
{
    begin_array(out, "packets")?;
    push_all(alloc, out, labels, block.length(), block.placed())?;
    out.end_array()
}
