//! What is told of each block of a text (docs/CHECK.md, "All loops of a text").

ghost use Rattle.std.specs.Prelude.{◌≡◌, ◌≤◌, ◌<◌, length, map, IfOk, slice_get};
ghost use Rattle.std.specs.Option.{option_copied};
ghost use Rattle.c62_rows.specs.Rows.{text_of};
ghost use Rattle.c62_read.specs.declared.limits.TheConstants.{MOST_BLOCKS};
ghost use Rattle.c62_command.specs.Promises.{trips_of};
ghost use Rattle.c62_check_loops.specs.Constant.{constant_at};
ghost use Rattle.c62_check_loops.specs.Lines.{label_in};
ghost use Rattle.c62_check_loops.specs.Covered.{is_told, loop_in};
ghost use Rattle.c62_check_loops.specs.Reading.{is_unread};
ghost use Rattle.c62_check_loops.specs.Verdicts.{AreLoopVerdicts, AreLoopsOf, IsBlockTold, is_good, is_good_loop, is_plain, is_same};

use crate::constant::constant_at;
use crate::covered::is_told_with_loop;
use crate::granted::is_enough;
use crate::reading::readings_of;
use c62_check_loop::{LoopVerdict, check_loop};
use c62_check_rest::{RestVerdict, check_rest};
use c62_command::Trips;
use c62_loop_match::Promise;
use c62_read::{Block, Label};
use c62_rows::RowsText;
use std::alloc::{AllocError, Global};

/// What is told of a block of a text.
#[derive(Drop)]
pub enum BlockVerdict {
    /// It is a loop under a counter, of which this is told.
    Loop(LoopVerdict),
    /// It is told with a loop, or has nothing in it.
    Within,
    /// It belongs to no loop, and this is told of it.
    Rest(RestVerdict),
}

/// Whether a block is the same, or told with a loop.
pub(crate) fn is_same(verdict: &BlockVerdict) -> bool
    ensures { result ≡ is_same verdict.now }
{
    match verdict {
        BlockVerdict::Loop(LoopVerdict::Same { .. }) => true,
        BlockVerdict::Loop(LoopVerdict::SameBut { .. }) => true,
        BlockVerdict::Loop(_) => false,
        BlockVerdict::Within => true,
        BlockVerdict::Rest(verdict) => verdict.is_same(),
    }
}

/// Whether a block isn't the same but for registers alone.
pub(crate) fn is_plain(verdict: &BlockVerdict) -> bool
    ensures { result ≡ is_plain verdict.now }
{
    match verdict {
        BlockVerdict::Loop(LoopVerdict::SameBut { .. }) => false,
        BlockVerdict::Loop(_) => true,
        BlockVerdict::Within => true,
        BlockVerdict::Rest(_) => true,
    }
}

/// Whether a loop of this label, whose counter the text sets to this constant, is the same with the trips that are sure.
fn is_good_loop(
    trips: &[Trips],
    label: Option<&Label>,
    constant: Option<u32>,
    verdict: LoopVerdict,
) -> bool
    ensures { result ≡ is_good_loop (map trips_of trips.now) (option_copied label.entry) constant verdict }
{
    match (label, verdict) {
        (Some(label), LoopVerdict::Same { trips: least, .. }) => is_enough(
            trips,
            label.as_bytes(),
            constant,
            u32::from(least),
        ),
        (Some(label), LoopVerdict::SameBut { trips: least, .. }) => is_enough(
            trips,
            label.as_bytes(),
            constant,
            u32::from(least),
        ),
        _ => false,
    }
}

/// Whether the loop that the block of this number is, is the same with the trips that are sure.
pub(crate) fn is_good_at(
    trips: &[Trips],
    blocks: &[Block],
    number: u8,
    verdict: LoopVerdict,
) -> bool
    ensures { result ≡ is_good_loop (map trips_of trips.now) (label_in (slice_get blocks.now number)) (constant_at blocks.now number) verdict }
{
    let constant = constant_at(blocks, number);
    match blocks.get(usize::from(number)) {
        Some(block) => is_good_loop(trips, block.label(), constant, verdict),
        None => false,
    }
}

/// Whether no line of the text may read what the loop of the block of this number leaves otherwise.
fn is_unread(
    alloc: Global,
    blocks: &[Block],
    number: u8,
    verdict: LoopVerdict,
) -> Result<bool, AllocError>
    requires few { length blocks.now ≤ MOST_BLOCKS }
    requires within { number < 253 }
    ensures { IfOk result (λ unread. unread ≡ is_unread blocks.now number verdict) }
{
    let readings = readings_of(alloc, blocks, number, verdict)?;
    Ok(readings.is_empty())
}

/// Whether the block of this number is the same, as a loop with the trips that are sure of which no line of the text reads what it leaves
/// otherwise, or is told with a loop.
pub(crate) fn is_good(
    alloc: Global,
    trips: &[Trips],
    blocks: &[Block],
    number: u8,
    verdict: &BlockVerdict,
) -> Result<bool, AllocError>
    requires few { length blocks.now ≤ MOST_BLOCKS }
    requires within { number < 253 }
    ensures { IfOk result (λ good. good ≡ is_good (map trips_of trips.now) blocks.now number verdict.now) }
{
    match verdict {
        BlockVerdict::Loop(verdict) => {
            let unread = is_unread(alloc, blocks, number, *verdict)?;
            Ok(is_good_at(trips, blocks, number, *verdict) && unread)
        }
        BlockVerdict::Within => Ok(true),
        BlockVerdict::Rest(verdict) => Ok(verdict.is_same()),
    }
}

/// What is told of each block that is a loop, where so much is promised.
#[derive(Drop)]
pub(crate) struct Loops {
    pub promise: Promise,
    /// Of each block, and nothing of one that is no loop.
    pub verdicts: Vec<Option<LoopVerdict>>,
}

#[tactic(auto, using(crate::proofs::Loops::none_told, crate::proofs::Loops::told_next))]
fn verdicts_of(
    alloc: Global,
    blocks: &[Block],
    read: &RowsText,
    promise: Promise,
) -> Result<Vec<Option<LoopVerdict>>, AllocError>
    requires { length blocks.now ≤ MOST_BLOCKS }
    ensures { IfOk result (λ verdicts. AreLoopVerdicts promise blocks.now (text_of read.now.rows) (length blocks.now) verdicts.items) }
{
    let mut verdicts = Vec::new(alloc);
    for number in 0..blocks.len() {
        verdicts.push(check_loop(alloc, blocks, number as u8, read, promise)?)?;
    }
    Ok(verdicts)
}

/// What is told of each block that is a loop.
///
/// # Errors
///
/// `AllocError` where memory ran out.
pub(crate) fn loops_of(
    alloc: Global,
    blocks: &[Block],
    read: &RowsText,
    promise: Promise,
) -> Result<Loops, AllocError>
    requires { length blocks.now ≤ MOST_BLOCKS }
    ensures promise { IfOk result (λ loops. loops.promise ≡ promise) }
    ensures told { IfOk result (AreLoopsOf blocks.now (text_of read.now.rows)) }
{
    Ok(Loops {
        promise,
        verdicts: verdicts_of(alloc, blocks, read, promise)?,
    })
}

/// What is told of the block of this number, of which nothing is told as a loop.
fn other_of(
    alloc: Global,
    blocks: &[Block],
    number: u8,
    loops: &Loops,
    starts: &[Option<usize>],
    read: &RowsText,
) -> Result<BlockVerdict, AllocError>
    requires few { number < 255 }
    requires within { number < length blocks.now }
    requires none { is_told loops.now.verdicts.items number ≡ false }
    ensures { IfOk result (IsBlockTold loops.now.promise loops.now.verdicts.items starts.now blocks.now (text_of read.now.rows) number) }
{
    if is_told_with_loop(blocks, loops, number) {
        return Ok(BlockVerdict::Within);
    }
    let block = &blocks[usize::from(number)];
    let verdict = check_rest(alloc, block, number, starts, &read.rows)?;
    Ok(BlockVerdict::Rest(verdict))
}

ghost use Rattle.std.specs.Prelude.{false};

/// What is told of the block of this number as a loop.
pub(crate) fn loop_at(loops: &Loops, number: u8) -> Option<LoopVerdict>
    ensures { result ≡ loop_in (slice_get loops.now.verdicts.items number) }
{
    match loops.verdicts.get(usize::from(number)).copied() {
        Some(verdict) => verdict,
        None => None,
    }
}

/// What is told of the block of this number.
///
/// # Errors
///
/// `AllocError` where memory ran out.
pub(crate) fn verdict_of(
    alloc: Global,
    blocks: &[Block],
    number: u8,
    loops: &Loops,
    starts: &[Option<usize>],
    read: &RowsText,
) -> Result<BlockVerdict, AllocError>
    requires few { number < 255 }
    requires within { number < length blocks.now }
    requires loops { AreLoopsOf blocks.now (text_of read.now.rows) loops.now }
    ensures { IfOk result (IsBlockTold loops.now.promise loops.now.verdicts.items starts.now blocks.now (text_of read.now.rows) number) }
{
    match loop_at(loops, number) {
        Some(verdict) => Ok(BlockVerdict::Loop(verdict)),
        None => other_of(alloc, blocks, number, loops, starts, read),
    }
}
