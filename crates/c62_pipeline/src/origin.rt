//! The lines of a serial text in packets that are written of it.

ghost use Rattle.std.specs.Prelude.{◌≡◌, ℕ, All, IfOk, MatchOption};
ghost use Rattle.std.specs.Bool.{OnTrue};
ghost use Rattle.c62_rows.specs.Rows.{row_read, text_of};
ghost use Rattle.c62_loop_match.specs.Reading.{unlined};
ghost use Rattle.c62_check_loop.specs.Relined.{row_unlined};
ghost use Rattle.c62_pipeline.specs.Lined.{AreLined, IsInLine, IsLined, StandsIn};

use crate::splice::others_of;
use crate::written::Pipelining;
use c62_insn::Insn;
use c62_packet::{Packets, Placed};
use c62_read::{Block, SerialInsn};
use c62_rows::{Row, Rows};
use std::alloc::{AllocError, Global};

/// Where an instruction of a serial text stands.
#[derive(Clone, Copy)]
pub struct Origin {
    /// The number of its block.
    pub block: usize,
    pub line: u32,
}

fn push_origins(
    origins: &mut Vec<Origin>,
    block: usize,
    placed: &[Placed],
) -> Result<(), AllocError> {
    for each in placed {
        origins.push(Origin {
            block,
            line: each.line,
        })?;
    }
    Ok(())
}

/// Of each instruction of what is written, in its order, where the instruction of the serial text stands of which it is an instance. These
/// packets are each block's own.
///
/// # Errors
///
/// `AllocError` where memory ran out.
pub fn origins_of(
    alloc: Global,
    packets: &Packets,
    written: &Pipelining,
) -> Result<Vec<Origin>, AllocError> {
    let own = packets.blocks();
    let mut origins = Vec::new(alloc);
    for number in 0..own.len() {
        match others_of(&written.loops, number) {
            Some(pipelined) => {
                for row in &pipelined.rows.rows {
                    push_origins(&mut origins, number, &row.insns)?;
                }
            }
            None => push_origins(&mut origins, number, own[number].placed())?,
        }
    }
    Ok(origins)
}

/// Whether one of these is the same instruction, in this line.
fn has_in(entries: &[SerialInsn], insn: &Insn, line: u32) -> bool
    ensures { OnTrue result (StandsIn entries.now insn.now line) }
{
    for number in 0..entries.len() {
        let entry = entries[number];
        if entry.line == line && entry.insn.same_but_for_the_unit(insn) {
            return true;
        }
    }
    false
}

/// The line of the first of these that is the same instruction.
fn first_in(entries: &[SerialInsn], insn: &Insn) -> Option<u32>
    ensures { MatchOption result ((line : ℕ) → StandsIn entries.now insn.now line → ⊥) (StandsIn entries.now insn.now) }
{
    for number in 0..entries.len() {
        let entry = entries[number];
        if entry.insn.same_but_for_the_unit(insn) {
            return Some(entry.line);
        }
    }
    None
}

/// The line in which a program has the same instruction: that from which its instance comes, or else the first.
fn line_in(blocks: &[Block], insn: &Insn, origin: Option<Origin>) -> Option<u32>
    ensures { MatchOption result ((line : ℕ) → IsInLine blocks.now insn.now line → ⊥) (IsInLine blocks.now insn.now) }
{
    if let Some(origin) = origin
        && let Some(block) = blocks.get(origin.block)
        && has_in(block.insns(), insn, origin.line)
    {
        return Some(origin.line);
    }
    for number in 0..blocks.len() {
        if let Some(line) = first_in(blocks[number].insns(), insn) {
            return Some(line);
        }
    }
    None
}

/// An instruction in the line of the program that has the same, where it has.
fn lined_insn(blocks: &[Block], placed: Placed, origin: Option<Origin>) -> Placed
    ensures same { unlined result ≡ unlined placed }
    ensures lined { IsLined blocks.now result }
{
    match line_in(blocks, &placed.insn, origin) {
        Some(line) => Placed { line, ..placed },
        None => placed,
    }
}

/// A packet whose instructions stand in the lines of the program.
fn lined_row(
    alloc: Global,
    blocks: &[Block],
    origins: &[Origin],
    row: &Row,
) -> Result<Row, AllocError>
    ensures same { IfOk result (λ lined. row_unlined (row_read row.now) ≡ row_unlined (row_read lined)) }
    ensures lined { IfOk result (λ lined. All (IsLined blocks.now) lined.insns.items) }
{
    let mut insns = Vec::with_capacity(alloc, row.insns.len())?;
    for place in 0..row.insns.len() {
        let origin = origins.get(place).copied();
        insns.push(lined_insn(blocks, row.insns[place], origin))?;
    }
    Ok(Row {
        insns,
        idle: row.idle,
    })
}

/// Packets that are written of a program, each instruction in the line of the program's of which it is an instance. That stands so where
/// these say, one for each instruction in the order of the packets.
///
/// # Errors
///
/// `AllocError` where memory ran out.
pub fn lined(
    alloc: Global,
    blocks: &[Block],
    origins: &[Origin],
    rows: &Rows,
) -> Result<Rows, AllocError>
    ensures { IfOk result (λ lined. AreLined blocks.now (text_of rows.now) (text_of lined)) }
{
    let mut left = origins;
    let mut lined = Vec::with_capacity(alloc, rows.rows.len())?;
    for number in 0..rows.rows.len() {
        let row = &rows.rows[number];
        let (own, rest) = left.split_at(row.insns.len().min(left.len()));
        lined.push(lined_row(alloc, blocks, own, row)?)?;
        left = rest;
    }
    let aims = Vec::from_slice(alloc, &rows.aims)?;
    Ok(Rows { rows: lined, aims })
}
