//! What is told of a loop and packets (docs/CHECK.md, "How it is decided").

ghost use Rattle.std.specs.Prelude.{◌≡◌, ◌+◌, IfOk};
ghost use Rattle.std.specs.Bool.{OnTrue};
ghost use Rattle.c62_rows.specs.Rows.{text_of};
ghost use Rattle.c62_loop.specs.Loop.{last_row};
ghost use Rattle.c62_loop_match.specs.Parts.{loop_of, region_of as region_read};
ghost use Rattle.c62_loop_match.specs.Promise.{promises};
ghost use Rattle.c62_check_loop.specs.Told.{IsSame, IsNamed, AreNamed, Tells, TellsWhy, IsTold};

use crate::copied::copied;
use crate::extent::{Extent, extent_of};
use crate::found::{Found, Match, Past, find};
use crate::region::region_of;
use crate::relined::are_relined;
use crate::seats::Lines;
use c62_insn::{Insn, Operands};
use c62_loop_match::{
    Early, Pipelined, Promise, Refusal, Region, collapses, decide, is_counted_loop, refusal_of,
    touches,
};
use c62_pair::{RegSet, Uses};
use c62_read::{Block, SerialInsn};
use c62_rows::{Rows, RowsText};
use std::alloc::{AllocError, Global};

/// What is told of a loop of a text and packets.
#[derive(Clone, Copy)]
pub enum LoopVerdict {
    /// The packets' rows from the first on, up to the last one, do what the loop does, from so many trips on, in so many cycles a trip.
    Same {
        trips: u16,
        cycles: u16,
        first: usize,
        last: usize,
    },
    /// They do but for these registers, which instances past the last iteration write, and for accesses of these that fault.
    SameBut {
        trips: u16,
        cycles: u16,
        first: usize,
        last: usize,
        but: RegSet,
    },
    /// They lack an instruction of this line of the text.
    Missing(u32),
    /// The loop lacks the instruction of this line of the packets.
    Extra(u32),
    /// Prolog and epilog hold other iterations of the instruction of this line of the text than of the first.
    Uneven(u32),
    /// The block of this line of the text doesn't count down to its branch.
    Counter(u32),
    /// An instance of them comes too early behind another one.
    Early(Early),
    /// The branch on this line of the packets takes effect at the end of no pass.
    Branch(u32),
    /// What is found is not enough to say any of this.
    Outside,
}

/// How many instructions of a block are work.
fn work_in(region: &Region) -> usize {
    region
        .body
        .iter()
        .filter(|entry| !touches(region.counter, entry))
        .count()
}

/// The line of the branch of a loop.
fn last_line(region: &Region) -> u32 {
    match region.body.last() {
        Some(last) => last.line,
        None => 0,
    }
}

/// The row behind the epilog.
fn last_row(pipelined: &Pipelined) -> usize
    ensures { result ≡ last_row (loop_of pipelined.now) }
{
    pipelined.first as usize
        + pipelined.prolog as usize
        + pipelined.kernel as usize
        + pipelined.epilog as usize
}

/// Whether what was found does what the loop does: it is of these packets, and `decide` says so.
fn is_same(
    alloc: Global,
    region: &Region,
    rows: &Rows,
    found: &Match,
    promise: Promise,
) -> Result<bool, AllocError>
    ensures { IfOk result (λ same. OnTrue same
        (IsSame (promises promise) (region_read region.now) (text_of rows.now) (found.now.most + 1) found.now.schedule.interval
        (loop_of found.now.pipelined).first (last_row (loop_of found.now.pipelined)))) }
{
    if !are_relined(rows, &found.pipelined.rows) {
        return Ok(false);
    }
    decide(
        alloc,
        region,
        &found.pipelined,
        &found.schedule,
        &found.control,
        promise,
        found.most,
    )
}

/// The registers that these instructions write, and those into which they load.
fn named_by(past: &[SerialInsn]) -> RegSet
    ensures { AreNamed result past.now }
{
    let mut named = RegSet::new();
    for entry in past {
        named = named.joined(names_of(&entry.insn));
    }
    named
}

/// The registers that an instruction writes, and that into which it loads.
fn names_of(insn: &Insn) -> RegSet
    ensures { IsNamed result insn.now }
{
    let uses = Uses::new(*insn);
    match insn.operands() {
        Operands::Access { register, .. } => uses.written.with(register),
        _ => uses.written,
    }
}

/// What is told of what was found, where it begins iterations past the last: that it does what the loop does but for the registers
/// that these write, where `collapses` says so.
fn same_but(
    alloc: Global,
    region: &Region,
    rows: &Rows,
    found: &Match,
    past: &Past,
    promise: Promise,
) -> Result<LoopVerdict, AllocError>
    ensures { IfOk result (Tells (promises promise) (region_read region.now) (text_of rows.now)) }
{
    if !are_relined(rows, &found.pipelined.rows) {
        return Ok(LoopVerdict::Uneven(past.line));
    }
    let begun = collapses(
        alloc,
        region,
        &found.pipelined,
        &found.schedule,
        &found.control,
        &past.beyond,
        promise,
        found.most,
        past.deep,
    )?;
    let trips = 1 + u16::from(found.most);
    let interval = found.schedule.interval;
    let row = found.pipelined.first as usize;
    match begun {
        Some(work) => Ok(LoopVerdict::SameBut {
            trips,
            cycles: interval,
            first: row,
            last: last_row(&found.pipelined),
            but: named_by(&work),
        }),
        None => Ok(LoopVerdict::Uneven(past.line)),
    }
}

/// Why packets don't pipeline the loop of which this is found in their rows, under lines of theirs.
fn refused_as(
    alloc: Global,
    region: &Region,
    rows: &Rows,
    found: &Match,
    promise: Promise,
) -> Result<Refusal, AllocError>
    ensures { IfOk result (TellsWhy (promises promise) (region_read region.now) (text_of rows.now)) }
{
    let pipelined = Pipelined {
        rows: copied(alloc, rows)?,
        first: found.pipelined.first,
        prolog: found.pipelined.prolog,
        kernel: found.pipelined.kernel,
        epilog: found.pipelined.epilog,
        label: found.pipelined.label,
    };
    refusal_of(
        alloc,
        region,
        &pipelined,
        &found.schedule,
        &found.control,
        promise,
        found.most,
    )
}

/// What is told of packets that don't pipeline a loop.
fn refused(
    alloc: Global,
    region: &Region,
    rows: &Rows,
    extent: Extent,
    promise: Promise,
) -> Result<LoopVerdict, AllocError>
    ensures { IfOk result (Tells (promises promise) (region_read region.now) (text_of rows.now)) }
{
    let Found::Whole(found) = find(alloc, region, rows, extent, Lines::OfPackets)? else {
        return Ok(LoopVerdict::Outside);
    };
    match refused_as(alloc, region, rows, &found, promise)? {
        Refusal::Early(early) => Ok(LoopVerdict::Early(early)),
        Refusal::Branch(line) => Ok(LoopVerdict::Branch(line)),
        Refusal::Other => Ok(LoopVerdict::Outside),
    }
}

/// What is told of a match.
fn judged(
    alloc: Global,
    region: &Region,
    rows: &Rows,
    extent: Extent,
    found: &Match,
    promise: Promise,
) -> Result<LoopVerdict, AllocError>
    ensures { IfOk result (Tells (promises promise) (region_read region.now) (text_of rows.now)) }
{
    if is_same(alloc, region, rows, found, promise)? {
        return Ok(LoopVerdict::Same {
            trips: u16::from(found.most) + 1,
            cycles: found.schedule.interval,
            first: found.pipelined.first as usize,
            last: last_row(&found.pipelined),
        });
    }
    if is_counted_loop(region) {
        refused(alloc, region, rows, extent, promise)
    } else {
        Ok(LoopVerdict::Counter(last_line(region)))
    }
}

/// What is told of a loop and the rows of its label.
fn told(
    alloc: Global,
    blocks: &[Block],
    region: &Region,
    read: &RowsText,
    promise: Promise,
) -> Result<LoopVerdict, AllocError>
    ensures { IfOk result (Tells (promises promise) (region_read region.now) (text_of read.now.rows)) }
{
    let work = work_in(region);
    let Some(extent) = extent_of(alloc, blocks, region.number, read, region.counter, work)? else {
        return Ok(LoopVerdict::Outside);
    };
    match find(alloc, region, &read.rows, extent, Lines::OfText)? {
        Found::Whole(found) => judged(alloc, region, &read.rows, extent, &found, promise),
        Found::Longer(found, past) => same_but(alloc, region, &read.rows, &found, &past, promise),
        Found::Missing(line) => Ok(LoopVerdict::Missing(line)),
        Found::Extra(line) => Ok(LoopVerdict::Extra(line)),
        Found::Uneven(line) => Ok(LoopVerdict::Uneven(line)),
        Found::TooLong => Ok(LoopVerdict::Outside),
    }
}

/// What is told of the loop of the block of this number, and nothing where the block doesn't end with a branch to itself that goes
/// while a register, its counter, isn't 0.
///
/// `same` is told only where the packets do what the loop does, with the straight instructions around it, from every sound machine of
/// which the promise holds and which comes to the loop's label with at least the trips in its counter that are told. With `but` they do
/// but for the registers that are named, and faulted lines of loads into these.
///
/// # Errors
///
/// `AllocError` where memory ran out.
pub fn check_loop(
    alloc: Global,
    blocks: &[Block],
    number: u8,
    read: &RowsText,
    promise: Promise,
) -> Result<Option<LoopVerdict>, AllocError>
    ensures { IfOk result (IsTold (promises promise) blocks.now number (text_of read.now.rows)) }
{
    match region_of(alloc, blocks, number)? {
        Some(region) => Ok(Some(told(alloc, blocks, &region, read, promise)?)),
        None => Ok(None),
    }
}
