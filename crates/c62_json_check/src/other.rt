//! The blocks that differ in their labels, or that only one of the two has, as objects.

ghost use Rattle.std.specs.Prelude.{◌≡◌, [], ◌∷◌, codes, option_map, slice_get, Some};
ghost use Rattle.std.specs.Option.{option_copied};
ghost use Rattle.json.specs.Token.{key};
ghost use Rattle.c62_json.specs.Document.{Adds, object};
ghost use Rattle.c62_read.specs.Block.{labels_in};
ghost use Rattle.c62_packet.specs.Packets.{labels_of};
ghost use Rattle.c62_json_check.specs.Members.{first_object, label_members, label_value, objects_of, other_object};

use c62_json::{push_count, push_flag, push_missing, push_text};
use c62_packet::PacketBlock;
use c62_read::{Block, Label};
use json::Writer;
use std::alloc::{AllocError, Global};

/// The label of a block that is there.
#[tactic(auto, unfolding(crate::specs::Members::label_value))]
fn push_label(alloc: Global, out: &mut Writer, label: Option<&Label>) -> Result<(), AllocError>
    ensures { Adds result out.old out.new (label_value (Some (option_copied label.entry)) ∷ []) }
{
    match label {
        Some(label) => push_text(alloc, out, label.as_bytes()),
        None => push_missing(out),
    }
}

/// The label of a block of the listing.
#[tactic(auto, unfolding(crate::specs::Members::label_value))]
fn push_listed(
    alloc: Global,
    out: &mut Writer,
    listed: Option<&PacketBlock>,
) -> Result<(), AllocError>
    ensures { Adds result out.old out.new (key (codes "listed") ∷ label_value (option_map (λ one. one.label) (option_copied listed.entry)) ∷ []) }
{
    out.key("listed")?;
    match listed {
        Some(listed) => push_label(alloc, out, listed.label()),
        None => push_flag(out, false),
    }
}

/// The label of a block of the text.
#[tactic(auto, unfolding(crate::specs::Members::label_value))]
fn push_own(alloc: Global, out: &mut Writer, block: Option<&Block>) -> Result<(), AllocError>
    ensures { Adds result out.old out.new (key (codes "text") ∷ label_value (option_map (λ other. other.label) (option_copied block.entry)) ∷ []) }
{
    out.key("text")?;
    match block {
        Some(block) => push_label(alloc, out, block.label()),
        None => push_flag(out, false),
    }
}

/// The block of this number, with its label in the listing and that in the text.
#[tactic(auto, unfolding(crate::specs::Members::label_members))]
fn push_labels(
    alloc: Global,
    out: &mut Writer,
    number: usize,
    listed: Option<&PacketBlock>,
    block: Option<&Block>,
) -> Result<(), AllocError>
    ensures { Adds result out.old out.new (object (label_members number
        (option_map (λ one. one.label) (option_copied listed.entry)) (option_map (λ other. other.label) (option_copied block.entry)))) }
{
    out.begin_object()?;
    out.key("block")?;
    push_count(out, number as u64)?;
    push_listed(alloc, out, listed)?;
    push_own(alloc, out, block)?;
    out.end_object()
}

/// The block of this number.
fn push_other(
    alloc: Global,
    out: &mut Writer,
    number: usize,
    blocks: &[Block],
    packets: &[PacketBlock],
) -> Result<(), AllocError>
    ensures { Adds result out.old out.new (other_object (labels_of packets.now) (labels_in blocks.now) number) }
{
    push_labels(alloc, out, number, packets.get(number), blocks.get(number))
}

/// The first of the blocks of these numbers.
#[tactic(auto, unfolding(crate::specs::Members::first_object))]
pub(crate) fn push_first(
    alloc: Global,
    out: &mut Writer,
    others: &[usize],
    blocks: &[Block],
    packets: &[PacketBlock],
) -> Result<(), AllocError>
    ensures { Adds result out.old out.new (first_object (labels_of packets.now) (labels_in blocks.now) others.now) }
{
    match others {
        [] => push_missing(out),
        [number, ..] => push_other(alloc, out, *number, blocks, packets),
    }
}

/// The blocks of these numbers.
pub(crate) fn push_objects(
    alloc: Global,
    out: &mut Writer,
    others: &[usize],
    blocks: &[Block],
    packets: &[PacketBlock],
) -> Result<(), AllocError>
    ensures { Adds result out.old out.new (objects_of (labels_of packets.now) (labels_in blocks.now) others.now) }
{
    for number in others {
        push_other(alloc, out, *number, blocks, packets)?;
    }
    Ok(())
}
