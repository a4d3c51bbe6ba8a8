//! The document of packets as they were written.

ghost use Rattle.std.specs.Prelude.{◌≡◌, IfOk, codes};
ghost use Rattle.c62_json.specs.Document.{Adds, document};
ghost use Rattle.c62_json_adopt.specs.Adopted.{late_told, late_member, drained_told, drained_member, adopted_members};

use c62_adopt_late::Late;
use c62_json::{begin, end};
use c62_json_packets::member::{begin_object, push_null, push_number};
use c62_json_packets::{push_blocks, push_register_member};
use c62_packet::Packets;
use json::Writer;
use std::alloc::{AllocError, Global};

/// What was added to drain a text.
#[derive(Clone, Copy, PartialEq, Eq, Debug)]
pub struct Drained {
    /// How many cycles.
    pub cycles: u64,
    /// The first register that the text reads below a block before what lands in it there, so that draining it may change what it does.
    pub late: Option<Late>,
}

/// Writes the member of a register that is read below a block before what lands in it there.
#[tactic(auto, unfolding(crate::specs::Adopted::late_told, c62_json_packets::specs::Member::object_member))]
fn push_late_told(alloc: Global, out: &mut Writer, late: Late) -> Result<(), AllocError>
    ensures { Adds result out.old out.new (late_told late) }
{
    begin_object(out, "late")?;
    push_register_member(alloc, out, "register", late.reg)?;
    push_number(out, "line", u64::from(late.line))?;
    out.end_object()
}

/// Writes the member of the first such register, or that there is none.
fn push_late(alloc: Global, out: &mut Writer, late: Option<Late>) -> Result<(), AllocError>
    ensures { Adds result out.old out.new (late_member late) }
{
    match late {
        Some(late) => push_late_told(alloc, out, late),
        None => push_null(out, "late"),
    }
}

/// Writes the member of what was added.
#[tactic(auto, unfolding(crate::specs::Adopted::drained_told, c62_json_packets::specs::Member::object_member))]
fn push_drained_told(alloc: Global, out: &mut Writer, drained: Drained) -> Result<(), AllocError>
    ensures { Adds result out.old out.new (drained_told drained) }
{
    begin_object(out, "drained")?;
    push_number(out, "cycles", drained.cycles)?;
    push_late(alloc, out, drained.late)?;
    out.end_object()
}

/// Writes the member of what was added, or that nothing was to be.
fn push_drained(alloc: Global, out: &mut Writer, drained: Option<Drained>) -> Result<(), AllocError>
    ensures { Adds result out.old out.new (drained_member drained) }
{
    match drained {
        Some(drained) => push_drained_told(alloc, out, drained),
        None => push_null(out, "drained"),
    }
}

/// Writes the members of packets as they were written.
#[tactic(auto, unfolding(crate::specs::Adopted::adopted_members))]
fn push_members(
    alloc: Global,
    out: &mut Writer,
    drained: Option<Drained>,
    packets: &Packets,
) -> Result<(), AllocError>
    ensures { Adds result out.old out.new (adopted_members drained packets.now) }
{
    push_drained(alloc, out, drained)?;
    push_blocks(alloc, out, packets)
}

/// The document of a command that answers packets as they were written.
fn document_of(
    alloc: Global,
    command: &str,
    drained: Option<Drained>,
    packets: &Packets,
) -> Result<Vec<u8>, AllocError>
    ensures { IfOk result (λ text. text.items ≡ document command.now (adopted_members drained packets.now)) }
{
    let mut out = begin(alloc, command)?;
    push_members(alloc, &mut out, drained, packets)?;
    end(out)
}

/// The document of packets as they were written: what was added to drain them, where that was asked for, and their blocks.
///
/// # Errors
///
/// `AllocError` where memory ran out.
pub fn adopted_document(
    alloc: Global,
    drained: Option<Drained>,
    packets: &Packets,
) -> Result<Vec<u8>, AllocError>
    ensures { IfOk result (λ text. text.items ≡ document (codes "adopt") (adopted_members drained packets.now)) }
{
    document_of(alloc, "adopt", drained, packets)
}
