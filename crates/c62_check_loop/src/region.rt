//! Loops of a program that count down (docs/CHECK.md, "How it is decided").

ghost use Rattle.std.specs.Prelude.{◌≡◌, IfOk, None, slice_get};
ghost use Rattle.std.specs.Option.{option_copied};
ghost use Rattle.c62_insn.specs.Insn.{operands_of, cond_of};
ghost use Rattle.c62_loop_match.specs.Parts.{region_of as region_read};
ghost use Rattle.c62_check_loop.specs.Region.{tested, tested_by, counter_in, counter_of, last_of, is_branch_entry, straight_in, straight_of, unlabelled_in, unlabelled_of, above, below, is_apart_below, touches_counter, FindsRegion};
ghost use Rattle.std.specs.List.{list_any};
ghost use Rattle.c62_loop.specs.Counter.{touches};

use c62_insn::{Insn, Operands, Reg};
use c62_loop_match::{Region, touches};
use c62_read::{Block, SerialInsn};
use std::alloc::{AllocError, Global};

/// The register that a branch to the block of this number tests, where it goes while that isn't 0.
fn tested(number: usize, insn: Insn) -> Option<Reg>
    ensures { result ≡ tested number (operands_of insn) (cond_of insn) }
{
    match (insn.operands(), insn.cond()) {
        (Operands::Block(target), Some(cond)) if usize::from(target) == number && !cond.negated =>
            Some(cond.reg),
        _ => None,
    }
}

fn last_of(insns: &[SerialInsn]) -> Option<SerialInsn>
    ensures { result ≡ last_of insns.now }
{
    insns.last().copied()
}

/// The counter of the loop that the block of this number is: the register that its last instruction tests, where that is a branch to the
/// block itself which goes while the register isn't 0. `None` where the block is no such loop, or there is none.
pub fn counter_of(blocks: &[Block], number: usize) -> Option<Reg>
    ensures { result ≡ counter_of blocks.now number }
{
    let block = blocks.get(number)?;
    tested(number, last_of(block.insns())?.insn)
}

/// Whether a block of these instructions ends with a branch.
pub fn ends_with_branch(insns: &[SerialInsn]) -> bool
    ensures { result ≡ is_branch_entry (last_of insns.now) }
{
    match last_of(insns) {
        Some(last) => last.insn.op().is_branch(),
        None => false,
    }
}

/// The instructions of a block, and none where it ends with a branch.
fn straight_in(alloc: Global, insns: &[SerialInsn]) -> Result<Vec<SerialInsn>, AllocError>
    ensures { IfOk result (λ straight. straight.items ≡ straight_in insns.now) }
{
    if ends_with_branch(insns) {
        Ok(Vec::new(alloc))
    } else {
        Vec::from_slice(alloc, insns)
    }
}

/// The instructions of the block of this number, and none where there is no such block or it ends with a branch.
fn straight_at(
    alloc: Global,
    blocks: &[Block],
    number: usize,
) -> Result<Vec<SerialInsn>, AllocError>
    ensures { IfOk result (λ straight. straight.items ≡ straight_of (slice_get blocks.now number)) }
{
    match blocks.get(number) {
        Some(block) => straight_in(alloc, block.insns()),
        None => Ok(Vec::new(alloc)),
    }
}

/// The instructions above a loop's block, where they lead to it.
fn above(alloc: Global, blocks: &[Block], number: u8) -> Result<Vec<SerialInsn>, AllocError>
    ensures { IfOk result (λ straight. straight.items ≡ above blocks.now number) }
{
    if number == 0 {
        Ok(Vec::new(alloc))
    } else {
        straight_at(alloc, blocks, usize::from(number) - 1)
    }
}

/// The instructions of a block without a label, and none of one with a label.
fn unlabelled_in(alloc: Global, block: &Block) -> Result<Vec<SerialInsn>, AllocError>
    ensures { IfOk result (λ straight. straight.items ≡ unlabelled_in block.now.label block.now.insns) }
{
    match block.label() {
        None => straight_in(alloc, block.insns()),
        Some(_) => Ok(Vec::new(alloc)),
    }
}

/// Whether one of these touches the counter.
fn any_touches(counter: Reg, insns: &[SerialInsn]) -> bool
    ensures { result ≡ list_any (touches counter) insns.now }
{
    insns.iter().any(|entry| touches(counter, entry))
}

/// Whether the block, where there is one, touches the counter, where there is one.
fn touches_counter(counter: Option<Reg>, block: Option<&Block>) -> bool
    ensures { result ≡ touches_counter counter (option_copied block.entry) }
{
    match (counter, block) {
        (Some(counter), Some(block)) => any_touches(counter, block.insns()),
        _ => false,
    }
}

/// Whether the block below the loop of this number doesn't belong to it: it leads to another loop, or it touches the counter.
pub fn is_apart_below(blocks: &[Block], number: u8) -> bool
    ensures { result ≡ is_apart_below blocks.now number }
{
    let number = usize::from(number);
    counter_of(blocks, number + 2).is_some()
        || touches_counter(counter_of(blocks, number), blocks.get(number + 1))
}

/// Those below a loop's block, up to the next label, where they belong to it.
fn below(alloc: Global, blocks: &[Block], number: u8) -> Result<Vec<SerialInsn>, AllocError>
    ensures { IfOk result (λ straight. straight.items ≡ below blocks.now number) }
{
    if is_apart_below(blocks, number) {
        return Ok(Vec::new(alloc));
    }
    match blocks.get(usize::from(number) + 1) {
        Some(block) => unlabelled_in(alloc, block),
        None => Ok(Vec::new(alloc)),
    }
}

/// Whether the block of this number is there, and leads to the next one.
pub(crate) fn leads_on(blocks: &[Block], number: usize) -> bool {
    match blocks.get(number) {
        Some(block) => !ends_with_branch(block.insns()),
        None => false,
    }
}

/// Whether the block below that of this number belongs to it, where that is a loop.
pub fn has_below(blocks: &[Block], number: u8) -> bool {
    match blocks.get(usize::from(number) + 1) {
        Some(block) => block.label().is_none()
            && !ends_with_branch(block.insns())
            && !is_apart_below(blocks, number),
        None => false,
    }
}

/// The region of a loop: its block, and the straight instructions that lead to it and stand behind it. `None` where the block is no
/// loop under a counter.
///
/// # Errors
///
/// `AllocError` where memory ran out.
pub(crate) fn region_of(
    alloc: Global,
    blocks: &[Block],
    number: u8,
) -> Result<Option<Region>, AllocError>
    ensures { IfOk result (FindsRegion blocks.now number) }
{
    let Some(counter) = counter_of(blocks, usize::from(number)) else {
        return Ok(None);
    };
    let Some(block) = blocks.get(usize::from(number)) else {
        return Ok(None);
    };
    Ok(Some(Region {
        before: above(alloc, blocks, number)?,
        body: Vec::from_slice(alloc, block.insns())?,
        behind: below(alloc, blocks, number)?,
        counter,
        number,
    }))
}
