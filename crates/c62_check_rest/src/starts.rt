//! Where the blocks of a text begin in rows of packets (docs/CHECK.md, "Other blocks").

ghost use Rattle.std.specs.Prelude.{◌≡◌};
ghost use Rattle.c62_check_rest.specs.Starts.{is_row, start_at};

use c62_check_loop::{LoopVerdict, ends_with_branch, has_below};
use c62_read::Block;
use c62_rows::{Row, RowsText};
use std::alloc::{AllocError, Global};

/// The row at which a run enters the block of this number, where there is one.
pub fn start_at(starts: &[Option<usize>], number: usize) -> Option<usize>
    ensures { result ≡ start_at starts.now number }
{
    match starts.get(number).copied() {
        Some(start) => start,
        None => None,
    }
}

/// Whether there is a row, and it is this one.
pub fn is_row(start: Option<usize>, row: usize) -> bool
    ensures { result ≡ is_row start row }
{
    match start {
        Some(start) => start == row,
        None => false,
    }
}

/// Whether the block above that of this number leads to it.
fn has_block_above(blocks: &[Block], number: usize) -> bool {
    match number.checked_sub(1).and_then(|above| blocks.get(above)) {
        Some(above) => !ends_with_branch(above.insns()),
        None => false,
    }
}

/// Whether the block of this number belongs to the loop above it, of which this is told.
fn is_behind_loop(blocks: &[Block], loops: &[Option<LoopVerdict>], number: usize) -> bool {
    match number
        .checked_sub(1)
        .and_then(|above| u8::try_from(above).ok())
    {
        Some(above) => loop_at(loops, usize::from(above)).is_some() && has_below(blocks, above),
        None => false,
    }
}

/// The cycle of the first branch of a row that is begun in this one.
fn branch_in(row: &Row, cycle: u64) -> Option<u64> {
    if row.insns.iter().any(|placed| placed.insn.op().is_branch()) {
        Some(cycle)
    } else {
        None
    }
}

/// The row behind the delay slots of the first branch from a row on. `None` where no branch follows.
fn behind_branch(rows: &[Row], first: usize) -> Option<usize> {
    let mut cycle: u64 = 0;
    let mut branch: Option<u64> = None;
    let mut number = first;
    for row in rows.get(first..)? {
        if let Some(issued) = branch
            && issued.saturating_add(6) <= cycle
        {
            return Some(number);
        }
        branch = branch.or(branch_in(row, cycle));
        cycle = cycle.saturating_add(u64::from(row.idle)).saturating_add(1);
        number = number.saturating_add(1);
    }
    branch?;
    Some(number)
}

/// The first row of a loop, where it is the same.
fn first_of(verdict: LoopVerdict) -> Option<usize> {
    match verdict {
        LoopVerdict::Same { first, .. } | LoopVerdict::SameBut { first, .. } => Some(first),
        _ => None,
    }
}

/// The row behind a loop, where it is the same.
fn last_of(verdict: LoopVerdict) -> Option<usize> {
    match verdict {
        LoopVerdict::Same { last, .. } | LoopVerdict::SameBut { last, .. } => Some(last),
        _ => None,
    }
}

/// What is known of the loop of the block of this number.
fn loop_at(loops: &[Option<LoopVerdict>], number: usize) -> Option<LoopVerdict> {
    match loops.get(number).copied() {
        Some(verdict) => verdict,
        None => None,
    }
}

/// The row at which a loop is entered, where what is above it ends before this one: not from above where a block leads to it.
fn start_of_loop(
    blocks: &[Block],
    number: usize,
    verdict: LoopVerdict,
    behind: Option<usize>,
) -> Option<usize> {
    if has_block_above(blocks, number) {
        None
    } else {
        first_of(verdict).or(behind)
    }
}

/// The row at which the block of this number is entered, where what is above it ends before that one.
fn start_of(
    alloc: Global,
    blocks: &[Block],
    number: usize,
    loops: &[Option<LoopVerdict>],
    read: &RowsText,
    behind: Option<usize>,
) -> Result<Option<usize>, AllocError> {
    if let Some(verdict) = loop_at(loops, number) {
        return Ok(start_of_loop(blocks, number, verdict, behind));
    }
    if number == 0 || is_behind_loop(blocks, loops, number) {
        return Ok(if number == 0 { Some(0) } else { None });
    }
    match blocks.get(number).and_then(|block| block.label()) {
        Some(label) => match read.row_from(alloc, label.as_bytes())? {
            Some(row) => Ok(Some(row as usize)),
            None => Ok(None),
        },
        None => Ok(behind),
    }
}

/// The row behind the block of this number, which is entered at a row, where it can be told from its rows: behind a loop, behind the delay
/// slots of a branch, and where there is nothing in it.
fn behind_of(
    blocks: &[Block],
    number: usize,
    verdict: Option<LoopVerdict>,
    rows: &[Row],
    start: Option<usize>,
) -> Option<usize> {
    if let Some(verdict) = verdict {
        return last_of(verdict);
    }
    let block = blocks.get(number)?;
    if block.insns().is_empty() {
        start
    } else if ends_with_branch(block.insns()) {
        behind_branch(rows, start?)
    } else {
        None
    }
}

/// Of each block of a text the row at which a run enters it, where that is found, and behind the last block the row at which it leaves the
/// text. Of the blocks that are loops under a counter this is told. Whoever rests on a row has to check it.
///
/// # Errors
///
/// `AllocError` where memory ran out.
pub fn starts_of(
    alloc: Global,
    blocks: &[Block],
    loops: &[Option<LoopVerdict>],
    read: &RowsText,
) -> Result<Vec<Option<usize>>, AllocError> {
    let mut starts = Vec::new(alloc);
    let mut behind = Some(0);
    for number in 0..blocks.len() {
        let verdict = loop_at(loops, number);
        let start = start_of(alloc, blocks, number, loops, read, behind)?;
        starts.push(start)?;
        if !is_behind_loop(blocks, loops, number) {
            behind = behind_of(blocks, number, verdict, &read.rows.rows, start);
        }
    }
    starts.push(behind.or(Some(read.rows.rows.len())))?;
    Ok(starts)
}
