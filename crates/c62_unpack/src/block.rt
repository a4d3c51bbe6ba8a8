//! The serial block of which packets are a schedule.

ghost use Rattle.std.specs.Prelude.{◌≡◌, map, IfOk, IfSome, IsTrue};
ghost use Rattle.std.specs.Bool.{OnTrue};
ghost use Rattle.std.specs.Option.{option_copied};
ghost use Rattle.c62_read.specs.Block.{branch_last, operations};
ghost use Rattle.c62_unpack.specs.Unpacked.{entry_of, IsUnpacked};

use crate::order::serial_order;
use c62_check::check_block;
use c62_depend::Plan;
use c62_packet::{PacketBlock, Placed};
use c62_read::{Block, Label, MOST_INSTRUCTIONS, SerialInsn};
use std::alloc::{AllocError, Global};

/// The serial block of which packets are a schedule.
#[derive(Drop)]
pub struct Unpacked {
    /// Its plan. The lines are those of the packets.
    pub plan: Plan,
    /// The instructions of the packets, in the order of the block.
    pub placed: Vec<Placed>,
}

/// The instruction, as a text has it.
fn entry_of(placed: &Placed) -> SerialInsn
    ensures { result ≡ entry_of placed.now }
{
    SerialInsn {
        insn: placed.insn,
        line: placed.line,
    }
}

/// The instructions, as a text has them.
fn entries_of(alloc: Global, placed: &[Placed]) -> Result<Vec<SerialInsn>, AllocError>
    ensures { IfOk result (λ entries. entries.items ≡ map entry_of placed.now) }
{
    let mut entries = Vec::with_capacity(alloc, placed.len())?;
    for each in placed {
        entries.push(entry_of(each))?;
    }
    Ok(entries)
}

/// Whether only the last of these is a branch, if any is.
fn has_branch_last(entries: &[SerialInsn]) -> bool
    ensures { OnTrue result (IsTrue (branch_last (operations entries.now))) }
{
    match entries {
        [] => true,
        [_] => true,
        [first, rest @ ..] => !first.insn.op().is_branch() && has_branch_last(rest),
    }
}

/// The same label again.
pub fn copied(label: Option<&Label>) -> Option<Label>
    ensures { result ≡ option_copied label.entry }
{
    match label {
        Some(label) => Some(label.copy()),
        None => None,
    }
}

fn plan_of(alloc: Global, block: Block) -> Result<Plan, AllocError>
    ensures { IfOk result (λ plan. plan ≡ block) }
{
    match Plan::new(alloc, block) {
        Ok(plan) => Ok(plan),
        Err((_, error)) => Err(error),
    }
}

/// A serial block of which the packets are a schedule: the same instructions, in an order of which the packets keep all distances.
/// `None` where none is found.
///
/// # Errors
///
/// Where memory ran out.
pub fn unpack(alloc: Global, packets: &PacketBlock) -> Result<Option<Unpacked>, AllocError>
    ensures { IfOk result (λ found. IfSome found (λ one. IsUnpacked packets.now one.plan one.placed.items)) }
{
    let placed = serial_order(alloc, packets.placed())?;
    let entries = entries_of(alloc, &placed)?;
    if entries.len() > MOST_INSTRUCTIONS || !has_branch_last(&entries) {
        return Ok(None);
    }
    let plan = plan_of(alloc, Block::new(copied(packets.label()), entries))?;
    let verdict = check_block(alloc, &plan, packets)?;
    if !verdict.is_same() {
        return Ok(None);
    }
    Ok(Some(Unpacked { plan, placed }))
}
