//! Which loops of a text are told as such (docs/CHECK.md, "All loops of a text").

ghost use Rattle.std.specs.Prelude.{◌≡◌, ◌≤◌, ◌<◌, length, IfOk};
ghost use Rattle.c62_read.specs.declared.limits.TheConstants.{MOST_BLOCKS};
ghost use Rattle.c62_rows.specs.Rows.{text_of};
ghost use Rattle.c62_check_loops.specs.Settled.{AreTaken, IsTaken};
ghost use Rattle.c62_check_loops.specs.Verdicts.{AreLoopsOf};

use crate::verdict::{Loops, is_good_at, loop_at, loops_of};
use c62_check_loop::LoopVerdict;
use c62_check_rest::{check_rest, starts_of};
use c62_command::Trips;
use c62_loop_match::Promise;
use c62_read::Block;
use c62_rows::RowsText;
use std::alloc::{AllocError, Global};

/// What is told of the block of this number as a loop, where it is the same with the trips that are sure.
#[tactic(auto, using(crate::proofs::Taken::none_taken, crate::proofs::Taken::loop_taken))]
fn good_at(trips: &[Trips], blocks: &[Block], loops: &Loops, number: u8) -> Option<LoopVerdict>
    requires { number < length blocks.now }
    ensures { IsTaken blocks.now loops.now number result }
{
    match loop_at(loops, number) {
        Some(verdict) => if is_good_at(trips, blocks, number, verdict) {
            Some(verdict)
        } else {
            None
        },
        None => None,
    }
}

/// What is told of the blocks that are loops, and the same with the trips that are sure.
#[tactic(auto, using(crate::proofs::Taken::none_yet, crate::proofs::Taken::taken_next))]
fn good_of(
    alloc: Global,
    trips: &[Trips],
    blocks: &[Block],
    loops: &Loops,
) -> Result<Vec<Option<LoopVerdict>>, AllocError>
    requires { length blocks.now ≤ MOST_BLOCKS }
    ensures { IfOk result (λ verdicts. AreTaken blocks.now loops.now (length blocks.now) verdicts.items) }
{
    let mut verdicts = Vec::new(alloc);
    for number in 0..blocks.len() {
        verdicts.push(good_at(trips, blocks, loops, number as u8))?;
    }
    Ok(verdicts)
}

/// Whether the rows of a block do what it does, where blocks are entered at these.
fn is_held(
    alloc: Global,
    block: &Block,
    number: u8,
    starts: &[Option<usize>],
    read: &RowsText,
) -> Result<bool, AllocError> {
    let verdict = check_rest(alloc, block, number, starts, &read.rows)?;
    Ok(verdict.is_same())
}

/// Whether the block of this number is no loop, or one that is good, or else its rows do what it does.
fn is_settled(
    alloc: Global,
    block: &Block,
    number: u8,
    loops: &Loops,
    good: &Loops,
    starts: &[Option<usize>],
    read: &RowsText,
) -> Result<bool, AllocError> {
    if loop_at(loops, number).is_none() || loop_at(good, number).is_some() {
        return Ok(true);
    }
    is_held(alloc, block, number, starts, read)
}

/// Whether this is so of all blocks.
fn are_settled(
    alloc: Global,
    blocks: &[Block],
    loops: &Loops,
    good: &Loops,
    starts: &[Option<usize>],
    read: &RowsText,
) -> Result<bool, AllocError>
    requires { length blocks.now ≤ MOST_BLOCKS }
{
    for (number, block) in blocks.iter().enumerate() {
        if !is_settled(alloc, block, number as u8, loops, good, starts, read)? {
            return Ok(false);
        }
    }
    Ok(true)
}

/// The same, but for each loop that isn't the same with the trips that are sure, where the rows of all of these do what their blocks
/// do.
fn settled(
    alloc: Global,
    trips: &[Trips],
    blocks: &[Block],
    loops: Loops,
    read: &RowsText,
) -> Result<Loops, AllocError>
    requires few { length blocks.now ≤ MOST_BLOCKS }
    requires loops { AreLoopsOf blocks.now (text_of read.now.rows) loops }
    ensures promise { IfOk result (λ settled. settled.promise ≡ loops.promise) }
    ensures told { IfOk result (AreLoopsOf blocks.now (text_of read.now.rows)) }
{
    let good = Loops {
        promise: loops.promise,
        verdicts: good_of(alloc, trips, blocks, &loops)?,
    };
    let starts = starts_of(alloc, blocks, &good.verdicts, read)?;
    if are_settled(alloc, blocks, &loops, &good, &starts, read)? {
        Ok(good)
    } else {
        Ok(loops)
    }
}

/// What is told of blocks as loops: where the rows of each loop that isn't the same with the trips that are sure do what its block
/// does, that is held against them as any other block is, and not told as a loop.
///
/// # Errors
///
/// `AllocError` where memory ran out.
pub(crate) fn told_loops(
    alloc: Global,
    trips: &[Trips],
    blocks: &[Block],
    read: &RowsText,
    promise: Promise,
) -> Result<Loops, AllocError>
    requires { length blocks.now ≤ MOST_BLOCKS }
    ensures promise { IfOk result (λ loops. loops.promise ≡ promise) }
    ensures told { IfOk result (AreLoopsOf blocks.now (text_of read.now.rows)) }
{
    let loops = loops_of(alloc, blocks, read, promise)?;
    settled(alloc, trips, blocks, loops, read)
}
