//! The labels of blocks, by which branches are spelled.

ghost use Rattle.std.specs.Prelude.{◌≡◌, IfOk};
ghost use Rattle.std.specs.Option.{option_copied};
ghost use Rattle.c62_insn.specs.Insn.{operands_of};
ghost use Rattle.c62_listing.specs.Names.{target_name};
ghost use Rattle.c62_packet.specs.Packets.{labels_of};
ghost use Rattle.c62_json_packets.specs.Packets.{name_among};

use c62_insn::{Insn, Operands};
use c62_listing::label_text;
use c62_packet::PacketBlock;
use c62_read::Label;
use std::alloc::{AllocError, Global};

/// A label again, where there is one.
pub fn copied(label: Option<&Label>) -> Option<Label>
    ensures { result ≡ option_copied label.entry }
{
    match label {
        Some(label) => Some(label.copy()),
        None => None,
    }
}

/// The labels of blocks, by their numbers.
///
/// # Errors
///
/// `AllocError` where memory ran out.
pub fn labels_of(alloc: Global, blocks: &[PacketBlock]) -> Result<Vec<Option<Label>>, AllocError>
    ensures { IfOk result (λ labels. labels.items ≡ labels_of blocks.now) }
{
    let mut labels = Vec::new(alloc);
    for block in blocks {
        labels.push(copied(block.label()))?;
    }
    Ok(labels)
}

/// The label of the block of this number, or an empty text where it has none.
fn name_among(labels: &[Option<Label>], number: u8) -> &str
    ensures { result.now ≡ name_among labels.now number }
{
    match labels.get(usize::from(number)) {
        Some(Some(label)) => label_text(label),
        _ => "",
    }
}

/// The name of what an instruction branches to, where it is a block with a label.
pub(crate) fn target_name(labels: &[Option<Label>], insn: Insn) -> &str
    ensures { result.now ≡ target_name (name_among labels.now) (operands_of insn) }
{
    match insn.operands() {
        Operands::Block(number) => name_among(labels, number),
        _ => "",
    }
}
