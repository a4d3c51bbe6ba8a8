//! Blocks whose branches name labels as rows of packets number them (docs/CHECK.md, "Other blocks").

ghost use Rattle.std.specs.Prelude.{◌≡◌, map, IfOk, IsTrue};
ghost use Rattle.c62_read.specs.Block.{is_block};
ghost use Rattle.c62_read.specs.Program.{aimed, numbered_of};
ghost use Rattle.c62_check_rest.specs.Named.{IsNamed};

use crate::laid::aim_of;
use crate::starts::start_at;
use c62_insn::Operands;
use c62_packet::Placed;
use c62_read::{Block, SerialInsn};
use c62_rows::Rows;
use std::alloc::{AllocError, Global};

/// The instruction with its branch, where it has one to a block, to this number.
fn entry_named(entry: &SerialInsn, label: u8) -> SerialInsn
    ensures { numbered_of result ≡ aimed label (numbered_of entry.now) }
{
    SerialInsn {
        insn: entry.insn.aimed(label),
        line: entry.line,
    }
}

fn entries_named(
    alloc: Global,
    entries: &[SerialInsn],
    label: u8,
) -> Result<Vec<SerialInsn>, AllocError>
    ensures { IfOk result (λ named. map numbered_of named.items ≡ map (aimed label) (map numbered_of entries.now)) }
{
    let mut named = Vec::with_capacity(alloc, entries.len())?;
    for entry in entries {
        named.push(entry_named(entry, label))?;
    }
    Ok(named)
}

/// The block with its branch, where it has one to a block, to this number.
///
/// # Errors
///
/// `AllocError` where memory ran out.
#[tactic(auto, using(crate::proofs::Naming::named_block))]
pub(crate) fn named(alloc: Global, block: &Block, label: u8) -> Result<Block, AllocError>
    ensures { IfOk result (IsNamed label block.now) }
{
    let insns = entries_named(alloc, block.insns(), label)?;
    Ok(Block::new(None, insns))
}

/// The number of the block to which the last of these branches.
fn target_of(entries: &[SerialInsn]) -> Option<u8> {
    match entries.last()?.insn.operands() {
        Operands::Block(number) => Some(number),
        _ => None,
    }
}

/// The label that the first of these names which branches to one.
fn first_label(issued: &[Placed]) -> Option<u8> {
    for placed in issued {
        if let Operands::Block(label) = placed.insn.operands() {
            return Some(label);
        }
    }
    None
}

/// The number under which the rows name the label to which the block branches: that of the branch among what they issue, where it goes to the
/// row at which the block of the target is entered, and else one that this doesn't have.
pub(crate) fn label_of(
    block: &Block,
    starts: &[Option<usize>],
    rows: &Rows,
    issued: &[Placed],
) -> u8 {
    let row = match target_of(block.insns()) {
        Some(number) => start_at(starts, usize::from(number)),
        None => None,
    };
    match first_label(issued) {
        Some(label) if row == Some(aim_of(rows, label)) => label,
        Some(label) => label.wrapping_add(1),
        None => 0,
    }
}
