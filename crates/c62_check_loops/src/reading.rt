//! What of a text may read a register that a loop leaves otherwise (docs/CHECK.md, "All loops of a text").

ghost use Rattle.std.specs.Prelude.{◌≡◌, ◌+◌, ◌≤◌, ◌<◌, ◌++◌, ℕ, length, find, IfOk, OnOk, Some, None, slice_get, option_and_then, if◌then◌else◌};
ghost use Rattle.std.specs.Option.{option_copied};
ghost use Rattle.c62_op.specs.declared.register.Reg.{Reg as Register};
ghost use Rattle.c62_insn.specs.Insn.{reads_register};
ghost use Rattle.c62_token.specs.Number.{numbered};
ghost use Rattle.c62_read.specs.declared.limits.TheConstants.{MOST_BLOCKS};
ghost use Rattle.c62_check_loops.specs.Reading.{AreFound, AreFoundNext, falls_through, first_of, found_at, line_from, line_reading, reads_or_sets, readings_from, readings_of, readings_of_file, readings_if, sets, target_by};

use crate::fit::block_behind;
use c62_check_loop::LoopVerdict;
use c62_insn::{Insn, Operands, Reg, Side};
use c62_pair::{RegSet, Uses};
use c62_read::{Block, SerialInsn};
use std::alloc::{AllocError, Global};

/// A register, and the line that may read it first.
#[derive(Clone, Copy)]
pub struct Reading {
    pub reg: Reg,
    pub line: u32,
}

/// What instructions do first to a register.
#[derive(Clone, Copy)]
enum First {
    /// The instruction of this line reads it.
    Read(u32),
    /// One sets it, whatever a condition register holds.
    Set,
    /// Neither.
    Nothing,
}

/// Whether an instruction sets a register, whatever a condition register holds.
fn sets(insn: Insn, reg: Reg) -> bool
    ensures { result ≡ sets insn reg }
{
    insn.cond().is_none() && Uses::new(insn).written.has(reg)
}

fn reads(insn: Insn, reg: Reg) -> bool
    ensures { result ≡ reads_register insn reg }
{
    Uses::new(insn).reads.has(reg)
}

fn reads_or_sets(reg: Reg, entry: &SerialInsn) -> bool
    ensures { result ≡ reads_or_sets reg entry.now }
{
    reads(entry.insn, reg) || sets(entry.insn, reg)
}

fn found_in(reg: Reg, insns: &[SerialInsn]) -> Option<SerialInsn>
    ensures { result ≡ find (reads_or_sets reg) insns.now }
{
    insns
        .iter()
        .copied()
        .find(|entry| reads_or_sets(reg, entry))
}

fn first_of(reg: Reg, insns: &[SerialInsn]) -> First
    ensures { result ≡ first_of reg insns.now }
{
    match found_in(reg, insns) {
        Some(entry) if reads(entry.insn, reg) => First::Read(entry.line),
        Some(_) => First::Set,
        None => First::Nothing,
    }
}

/// The block to which the last instruction of a block may go by a branch.
fn target_by(last: Option<&SerialInsn>) -> Option<usize>
    ensures { result ≡ target_by (option_copied last.entry) }
{
    match last?.insn.operands() {
        Operands::Block(number) => Some(usize::from(number)),
        _ => None,
    }
}

/// Whether a run may come to the end of a block with this last instruction.
fn falls_through(last: Option<&SerialInsn>) -> bool
    ensures { result ≡ falls_through (option_copied last.entry) }
{
    match last {
        Some(last) => !last.insn.op().is_branch() || last.insn.cond().is_some(),
        None => true,
    }
}

/// What is found for the block of this number.
fn found_at(found: &[Option<u32>], number: usize) -> Option<u32>
    ensures { result ≡ found_at found.now number }
{
    match found.get(number).copied() {
        Some(line) => line,
        None => None,
    }
}

/// What is found after the end of a block.
fn after_end(found: &[Option<u32>], last: Option<&SerialInsn>, number: usize) -> Option<u32>
    requires { number < 255 }
    ensures { result ≡ if falls_through (option_copied last.entry) then found_at found.now (number + 1) else None }
{
    if falls_through(last) {
        found_at(found, number + 1)
    } else {
        None
    }
}

/// What is found after a jump.
fn after_jump(found: &[Option<u32>], last: Option<&SerialInsn>) -> Option<u32>
    ensures { result ≡ option_and_then (found_at found.now) (target_by (option_copied last.entry)) }
{
    match target_by(last) {
        Some(target) => found_at(found, target),
        None => None,
    }
}

/// The line that may read a register first from a block on, where this is found of each block.
fn line_from(reg: Reg, block: Option<&Block>, found: &[Option<u32>], number: usize) -> Option<u32>
    requires { number < 255 }
    ensures { result ≡ line_from reg (option_copied block.entry) (found_at found.now) number }
{
    let insns = block?.insns();
    let last = insns.last();
    match first_of(reg, insns) {
        First::Read(line) => Some(line),
        First::Set => None,
        First::Nothing => after_jump(found, last).or(after_end(found, last, number)),
    }
}

/// The same of the block of this number.
fn line_at(reg: Reg, blocks: &[Block], found: &[Option<u32>], number: usize) -> Option<u32>
    requires { number < 255 }
    ensures { result ≡ line_from reg (slice_get blocks.now number) (found_at found.now) number }
{
    line_from(reg, blocks.get(number), found, number)
}

/// What is found within one block more.
#[tactic(auto, using(crate::proofs::Readers::none_next, crate::proofs::Readers::line_next))]
fn found_within(
    alloc: Global,
    blocks: &[Block],
    reg: Reg,
    found: &[Option<u32>],
) -> Result<Vec<Option<u32>>, AllocError>
    requires { length blocks.now ≤ MOST_BLOCKS }
    ensures { IfOk result (λ lines. AreFoundNext blocks.now reg found.now (length blocks.now) lines.items) }
{
    let mut lines = Vec::new(alloc);
    for number in 0..blocks.len() {
        lines.push(line_at(reg, blocks, found, number))?;
    }
    Ok(lines)
}

/// The line that may read a register first from the block of this number on.
#[tactic(auto, using(crate::proofs::Readers::none_found, crate::proofs::Readers::found_more))]
fn line_reading(
    alloc: Global,
    blocks: &[Block],
    reg: Reg,
    number: usize,
) -> Result<Option<u32>, AllocError>
    requires { length blocks.now ≤ MOST_BLOCKS }
    ensures { IfOk result (λ line. line ≡ line_reading blocks.now reg number) }
{
    let mut found = Vec::new(alloc);
    for _ in 0..blocks.len() {
        found = found_within(alloc, blocks, reg, &found)?;
    }
    Ok(found_at(&found, number))
}

/// The register of this number in a file, where the file has one.
#[tactic(auto, unfolding(c62_token::specs::Number::numbered))]
fn numbered(side: Side, number: u8) -> Option<Reg>
    ensures { result ≡ numbered side number }
{
    if number < 16 {
        Some(Reg { side, number })
    } else {
        None
    }
}

/// Adds the register, where it is one of these, with the line that may read it.
fn push_reading(
    out: &mut Vec<Reading>,
    alloc: Global,
    blocks: &[Block],
    number: usize,
    but: RegSet,
    reg: Option<Reg>,
) -> Result<(), AllocError>
    requires { length blocks.now ≤ MOST_BLOCKS }
    ensures { OnOk result (out.new.items ≡ out.old.items ++ readings_if blocks.now number but reg) }
{
    let Some(reg) = reg else {
        return Ok(());
    };
    if !but.has(reg) {
        return Ok(());
    }
    if let Some(line) = line_reading(alloc, blocks, reg, number)? {
        out.push(Reading { reg, line })?;
    }
    Ok(())
}

/// Adds those of a file.
fn push_file(
    out: &mut Vec<Reading>,
    alloc: Global,
    blocks: &[Block],
    from: usize,
    but: RegSet,
    side: Side,
) -> Result<(), AllocError>
    requires { length blocks.now ≤ MOST_BLOCKS }
    ensures { OnOk result (out.new.items ≡ out.old.items ++ readings_of_file blocks.now from but side) }
{
    for number in 0..16 {
        push_reading(out, alloc, blocks, from, but, numbered(side, number))?;
    }
    Ok(())
}

/// What may read these registers from the block of this number on.
fn readings_from(
    alloc: Global,
    blocks: &[Block],
    number: usize,
    but: RegSet,
) -> Result<Vec<Reading>, AllocError>
    requires { length blocks.now ≤ MOST_BLOCKS }
    ensures { IfOk result (λ readings. readings.items ≡ readings_from blocks.now number but) }
{
    let mut readings = Vec::new(alloc);
    push_file(&mut readings, alloc, blocks, number, but, Side::A)?;
    push_file(&mut readings, alloc, blocks, number, but, Side::B)?;
    Ok(readings)
}

/// The registers that the loop of the block of this number leaves otherwise, and that some line of the text may read before another sets
/// them, each with the first such line: in a block after the loop, or in the loop where it is entered again.
///
/// # Errors
///
/// `AllocError` where memory ran out.
pub fn readings_of(
    alloc: Global,
    blocks: &[Block],
    number: u8,
    verdict: LoopVerdict,
) -> Result<Vec<Reading>, AllocError>
    requires few { length blocks.now ≤ MOST_BLOCKS }
    requires within { number < 253 }
    ensures { IfOk result (λ readings. readings.items ≡ readings_of blocks.now number verdict) }
{
    match verdict {
        LoopVerdict::SameBut { but, .. } => {
            readings_from(
                alloc,
                blocks,
                usize::from(block_behind(blocks, number)),
                but,
            )
        }
        _ => Ok(Vec::new(alloc)),
    }
}
