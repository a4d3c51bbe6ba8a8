//! Which rows are the prolog, the kernel and the epilog of a loop.

use crate::region::{counter_of, has_below, leads_on};
use crate::seats::entry_of;
use c62_insn::{Operands, Reg};
use c62_loop_match::touches;
use c62_packet::Placed;
use c62_read::{Block, SerialInsn};
use c62_rows::{Row, Rows, RowsText};
use std::alloc::{AllocError, Global};

/// The rows of a loop in a text.
#[derive(Clone, Copy)]
pub(crate) struct Extent {
    /// The prolog's first row.
    pub first: u32,
    /// The kernel's first row.
    pub kernel: u32,
    /// The epilog's first row.
    pub epilog: u32,
    /// The row behind the epilog.
    pub last: u32,
    /// The number of the label that the kernel's branch names.
    pub label: u8,
}

/// The number of a label that names this row.
fn label_of(rows: &Rows, row: u32) -> Option<u8> {
    let number = rows.aims.iter().position(|aim| *aim == row)?;
    u8::try_from(number).ok()
}

/// What a part of a kernel holds.
#[derive(Clone, Copy)]
struct Part {
    /// How many rows it has.
    rows: u32,
    /// How many cycles they take.
    cycles: u64,
    /// How many instructions they have that are work.
    work: usize,
    /// The cycle of the branch to the kernel.
    branch: Option<u64>,
}

/// Whether it is a branch to the label of this number.
fn leads_to(placed: &Placed, label: u8) -> bool {
    matches!(placed.insn.operands(), Operands::Block(number) if number == label)
}

impl Part {
    /// The part with an instruction more.
    fn with(self, counter: Reg, label: u8, placed: &Placed) -> Part {
        Part {
            work: if touches(counter, &entry_of(placed)) {
                self.work
            } else {
                self.work.saturating_add(1)
            },
            branch: if leads_to(placed, label) {
                Some(self.cycles)
            } else {
                self.branch
            },
            ..self
        }
    }

    /// The part with a row more.
    fn with_row(self, counter: Reg, label: u8, row: &Row) -> Part {
        let mut part = self;
        for placed in &row.insns {
            part = part.with(counter, label, placed);
        }
        Part {
            rows: part.rows.saturating_add(1),
            cycles: part
                .cycles
                .saturating_add(u64::from(row.idle))
                .saturating_add(1),
            ..part
        }
    }

    /// Whether a branch takes effect at the end of the first pass: one of the prolog so many cycles behind its beginning, or its own.
    fn goes_round(self, pass: Option<u64>) -> bool {
        match self.branch {
            Some(cycle) => self.cycles == pass.unwrap_or(cycle.saturating_add(6)),
            None => false,
        }
    }
}

/// How many cycles these rows take.
fn cycles_of(rows: &[Row]) -> u64 {
    rows.iter().fold(
        0u64,
        |sum, row| sum.saturating_add(u64::from(row.idle)).saturating_add(1),
    )
}

/// How many cycles the first pass takes: the first branch of the prolog ends it. `None` where the prolog has none in flight.
fn first_pass(rows: &Rows, first: u32, kernel: u32, label: u8) -> Option<u64> {
    let prolog = rows.rows.get(first as usize..kernel as usize)?;
    let begun = prolog.iter().position(|row| row
        .insns
        .iter()
        .any(|placed| leads_to(placed, label)))?;
    6u64.checked_sub(cycles_of(prolog.get(begun..)?))
}

/// Whether a row holds a step of the counter or a branch that tests it.
fn has_control(row: &Row, counter: Reg) -> bool {
    row.insns
        .iter()
        .any(|placed| touches(counter, &entry_of(placed)))
}

/// How many rows from this one on are a kernel of so much work: the fewest that hold it, with those right behind that hold steps or
/// branches alone, and behind them as many empty ones as let its branch take effect at the end of a pass. Where none do, it is without
/// these.
fn kernel_rows(
    rows: &Rows,
    first: u32,
    counter: Reg,
    label: u8,
    work: usize,
    pass: Option<u64>,
) -> Option<u32> {
    let mut part = Part {
        rows: 0,
        cycles: 0,
        work: 0,
        branch: None,
    };
    let mut least = None;
    for row in rows.rows.get(first as usize..)? {
        let next = part.with_row(counter, label, row);
        if least.is_some() && (work < next.work || part.goes_round(pass)) {
            break;
        }
        part = next;
        if work <= part.work && (least.is_none() || has_control(row, counter)) {
            least = Some(part.rows);
        }
        if least.is_some() && part.goes_round(pass) {
            least = Some(part.rows);
        }
    }
    part.branch?;
    least
}

/// The row of a block's label, if the packets have it.
fn row_of(alloc: Global, read: &RowsText, block: &Block) -> Result<Option<u32>, AllocError> {
    match block.label() {
        Some(label) => read.row_from(alloc, label.as_bytes()),
        None => Ok(None),
    }
}

/// The row of the last label above a block, and 0 where there is none.
fn label_above(
    alloc: Global,
    blocks: &[Block],
    number: usize,
    read: &RowsText,
) -> Result<u32, AllocError> {
    for block in blocks.iter().take(number).rev() {
        if let Some(row) = row_of(alloc, read, block)? {
            return Ok(row);
        }
    }
    Ok(0)
}

/// Whether an instruction of packets is one of these, on whatever unit. Of a branch it doesn't count where it goes: packets number labels,
/// and a text numbers blocks.
fn is_among(entries: &[SerialInsn], placed: &Placed) -> bool {
    let insn = placed.insn.aimed(0);
    entries
        .iter()
        .any(|entry| entry.insn.aimed(0).same_but_for_the_unit(&insn))
}

/// Whether it is one of a block's, or counts, where the block is a loop under this counter.
fn is_of(block: &Block, counter: Option<Reg>, placed: &Placed) -> bool {
    let counts = match counter {
        Some(counter) => touches(counter, &entry_of(placed)),
        None => false,
    };
    counts || is_among(block.insns(), placed)
}

/// The instructions of the block above another.
fn insns_above(blocks: &[Block], number: usize) -> &[SerialInsn] {
    match number.checked_sub(1).and_then(|above| blocks.get(above)) {
        Some(block) => block.insns(),
        None => &[],
    }
}

/// The first row, from this one on, that holds an instruction of a block which is none of these above it, or the number of rows.
fn first_with(
    block: &Block,
    counter: Option<Reg>,
    above: &[SerialInsn],
    rows: &Rows,
    from: u32,
) -> u32 {
    let mut row = from;
    for of_row in rows.rows.iter().skip(from as usize) {
        if of_row.insns.iter().any(|placed| is_of(block, counter, placed)
            && !is_among(above, placed))
        {
            return row;
        }
        row = row.saturating_add(1);
    }
    row
}

/// The row with which a block begins: its label's, where it has one that isn't a kernel's. A loop's prolog stands above its label, and
/// other blocks have none: there it is the first row behind the label above that holds what is this block's and not that above it.
/// `None` where the packets lack the label.
fn begin_of(
    alloc: Global,
    blocks: &[Block],
    number: usize,
    read: &RowsText,
) -> Result<Option<u32>, AllocError> {
    let Some(block) = blocks.get(number) else {
        return Ok(u32::try_from(read.rows.rows.len()).ok());
    };
    if number == 0 {
        return Ok(Some(0));
    }
    let counter = counter_of(blocks, number);
    if block.label().is_some() && counter.is_none() {
        return row_of(alloc, read, block);
    }
    let from = label_above(alloc, blocks, number, read)?;
    let above = insns_above(blocks, number);
    Ok(Some(first_with(block, counter, above, &read.rows, from)))
}

/// The number of the first block of a loop's region: the block above it, where that leads to the loop.
fn first_block(blocks: &[Block], number: usize) -> usize {
    match number.checked_sub(1) {
        Some(above) if leads_on(blocks, above) => above,
        _ => number,
    }
}

/// The number of the block behind a loop's region.
fn block_behind(blocks: &[Block], number: u8) -> usize {
    let next = usize::from(number) + 1;
    if has_below(blocks, number) {
        next + 1
    } else {
        next
    }
}

/// The kernel of a loop: its first row, and the number of its label.
fn kernel_of(
    alloc: Global,
    blocks: &[Block],
    number: usize,
    read: &RowsText,
) -> Result<Option<(u32, u8)>, AllocError> {
    let Some(block) = blocks.get(number) else {
        return Ok(None);
    };
    let Some(kernel) = row_of(alloc, read, block)? else {
        return Ok(None);
    };
    match label_of(&read.rows, kernel) {
        Some(label) => Ok(Some((kernel, label))),
        None => Ok(None),
    }
}

/// The rows of the loop of a block, with so many instructions that are work. `None` where the packets lack a label, or have no branch
/// to the loop's.
///
/// # Errors
///
/// `AllocError` where memory ran out.
pub(crate) fn extent_of(
    alloc: Global,
    blocks: &[Block],
    number: u8,
    read: &RowsText,
    counter: Reg,
    work: usize,
) -> Result<Option<Extent>, AllocError> {
    let behind = block_behind(blocks, number);
    let number = usize::from(number);
    let Some((kernel, label)) = kernel_of(alloc, blocks, number, read)? else {
        return Ok(None);
    };
    let Some(begin) = begin_of(alloc, blocks, first_block(blocks, number), read)? else {
        return Ok(None);
    };
    let Some(last) = begin_of(alloc, blocks, behind, read)? else {
        return Ok(None);
    };
    let first = begin.min(kernel);
    let pass = first_pass(&read.rows, first, kernel, label);
    let Some(count) = kernel_rows(&read.rows, kernel, counter, label, work, pass) else {
        return Ok(None);
    };
    let Some(epilog) = kernel.checked_add(count) else {
        return Ok(None);
    };
    Ok(Some(Extent {
        first,
        kernel,
        epilog,
        last: last.max(epilog),
        label,
    }))
}
