//! Holds all blocks of a text against packets that pipeline its loops (docs/CHECK.md, "All loops of a text").

ghost use Rattle.std.specs.Prelude.{◌≡◌, ◌≤◌, ◌<◌, [], ◌∷◌, ◌++◌, ◌&&◌, not, length, map, IfOk, OnOk};
ghost use Rattle.c62_rows.specs.Rows.{text_of};
ghost use Rattle.c62_read.specs.declared.limits.TheConstants.{MOST_BLOCKS};
ghost use Rattle.c62_command.specs.Promises.{trips_of};
ghost use Rattle.c62_check_loops.specs.Lines.{lines_from, rows_line};
ghost use Rattle.c62_check_loops.specs.Verdicts.{AreLoopsOf, is_good, is_plain, is_same};
ghost use Rattle.c62_check_loops.specs.Fit.{is_fit, are_all_rows};
ghost use Rattle.c62_check_loops.specs.Told.{AreLoopsJudged, AreLoopsTold, AreTold};

use crate::fit::{are_all_rows, is_fit};
use crate::lines::{push_line, push_rows};
use crate::promised::promise_of;
use crate::settled::told_loops;
use crate::verdict::{BlockVerdict, Loops, is_good, is_plain, is_same, verdict_of};
use c62_check_rest::starts_of;
use c62_command::{Promises, Trips};
use c62_read::{Block, Program};
use c62_rows::RowsText;
use std::alloc::{AllocError, Global};

/// What is told of the blocks of a text and packets.
#[derive(Drop)]
pub struct LoopsChecked {
    /// The lines that tell it.
    pub text: Vec<u8>,
    /// Whether the packets do what the text does, as far as its loops are entered with the trips that are promised, if no constant tells them, and
    /// the rest of what is promised holds, but for registers and faulted lines that a loop's line names. No line of the text may then read such a register
    /// before another sets it.
    pub same: bool,
    /// Whether no loop is the same but for such.
    pub plain: bool,
}

/// What is found of the blocks of a text and packets.
#[derive(Drop)]
pub struct LoopsJudged {
    /// What is told of each block.
    pub verdicts: Vec<BlockVerdict>,
    /// Whether some row is no block's, though all blocks are the same.
    pub wanting: bool,
    /// As in [`LoopsChecked`].
    pub same: bool,
    /// As in [`LoopsChecked`].
    pub plain: bool,
}

/// What is told of the first blocks.
#[derive(Drop)]
struct Told {
    verdicts: Vec<BlockVerdict>,
    /// Whether each of them is the same, or told with a loop.
    same: bool,
    /// Whether none of them is the same but for registers.
    plain: bool,
    /// Whether they are with the trips that are sure.
    good: bool,
    /// Whether the rows of each go from its start to that of what stands behind it.
    fit: bool,
}

impl Told {
    /// Adds what is told of the block of this number.
    fn add(
        &mut self,
        alloc: Global,
        trips: &[Trips],
        blocks: &[Block],
        loops: &Loops,
        starts: &[Option<usize>],
        number: u8,
        verdict: BlockVerdict,
    ) -> Result<(), AllocError>
        requires few { length blocks.now ≤ MOST_BLOCKS }
        requires within { number < 253 }
        ensures verdicts { OnOk result (self.new.verdicts.items ≡ self.old.verdicts.items ++ verdict ∷ []) }
        ensures same { OnOk result (self.new.same ≡ (self.old.same && is_same verdict)) }
        ensures plain { OnOk result (self.new.plain ≡ (self.old.plain && is_plain verdict)) }
        ensures good { OnOk result (self.new.good ≡ (self.old.good && is_good (map trips_of trips.now) blocks.now number verdict)) }
        ensures fit { OnOk result (self.new.fit ≡ (self.old.fit && is_fit blocks.now loops.now.verdicts.items starts.now number verdict)) }
    {
        self.same = self.same && is_same(&verdict);
        self.plain = self.plain && is_plain(&verdict);
        let good = is_good(alloc, trips, blocks, number, &verdict)?;
        self.good = self.good && good;
        self.fit = self.fit && is_fit(blocks, loops, starts, number, &verdict);
        self.verdicts.push(verdict)?;
        Ok(())
    }
}

/// What is told of all blocks, of which this is told as loops, and which are entered at these rows.
#[tactic(auto, using(crate::proofs::Telling::none_told, crate::proofs::Telling::told_next))]
fn tell(
    alloc: Global,
    blocks: &[Block],
    loops: &Loops,
    starts: &[Option<usize>],
    read: &RowsText,
    trips: &[Trips],
) -> Result<Told, AllocError>
    requires few { length blocks.now ≤ MOST_BLOCKS }
    requires loops { AreLoopsOf blocks.now (text_of read.now.rows) loops.now }
    ensures { IfOk result (AreTold (map trips_of trips.now) loops.now.promise loops.now.verdicts.items starts.now blocks.now (text_of read.now.rows) (length blocks.now)) }
{
    let mut told = Told {
        verdicts: Vec::new(alloc),
        same: true,
        plain: true,
        good: true,
        fit: true,
    };
    for number in 0..blocks.len() {
        let verdict = verdict_of(alloc, blocks, number as u8, loops, starts, read)?;
        told.add(alloc, trips, blocks, loops, starts, number as u8, verdict)?;
    }
    Ok(told)
}

/// Whether some row is no block's, where all blocks are the same or not.
fn lacks_rows(same: bool, all: bool) -> bool
    ensures { result ≡ (same && not all) }
{
    same && !all
}

/// Whether both hold.
fn are_both(one: bool, other: bool) -> bool
    ensures { result ≡ (one && other) }
{
    one && other
}

/// All that is found, where the text begins and ends with the packets or not.
fn finished(told: Told, all: bool) -> LoopsJudged
    ensures verdicts { result.verdicts.items ≡ told.verdicts.items }
    ensures rows { result.wanting ≡ (told.same && not (told.fit && all)) }
    ensures same { result.same ≡ (told.good && (told.fit && all)) }
    ensures plain { result.plain ≡ told.plain }
{
    let in_turn = are_both(told.fit, all);
    let same = are_both(told.good, in_turn);
    let wanting = lacks_rows(told.same, in_turn);
    let plain = told.plain;
    LoopsJudged {
        verdicts: told.verdicts,
        wanting,
        same,
        plain,
    }
}

/// What is found of the blocks of a program and packets that pipeline its loops, where so much is promised, and whether the packets do what
/// the program does. All is the same only where each block is, as a loop from no more trips on than are sure, and their rows are all
/// rows, one behind the other. A loop may be the same but for registers; it is told whether one is.
///
/// # Errors
///
/// `AllocError` where memory ran out.
pub fn judge_loops(
    alloc: Global,
    program: &Program,
    read: &RowsText,
    promises: &Promises,
) -> Result<LoopsJudged, AllocError>
    ensures { IfOk result (AreLoopsJudged (map trips_of promises.now.trips.items) promises.now.apart.items program.now (text_of read.now.rows)) }
{
    let promise = promise_of(&promises.apart);
    let blocks = program.blocks();
    let loops = told_loops(alloc, &promises.trips, blocks, read, promise)?;
    let starts = starts_of(alloc, blocks, &loops.verdicts, read)?;
    let told = tell(alloc, blocks, &loops, &starts, read, &promises.trips)?;
    let all = are_all_rows(&starts, blocks.len(), read.rows.rows.len());
    Ok(finished(told, all))
}

/// The lines of what is told of these blocks.
fn push_blocks(
    out: &mut Vec<u8>,
    alloc: Global,
    blocks: &[Block],
    verdicts: &[BlockVerdict],
) -> Result<(), AllocError>
    requires blocks { length blocks.now ≤ MOST_BLOCKS }
    requires verdicts { length verdicts.now ≤ MOST_BLOCKS }
    ensures { OnOk result (out.new.items ≡ out.old.items ++ lines_from blocks.now 0 verdicts.now) }
{
    for number in 0..verdicts.len() {
        push_line(out, alloc, blocks, number as u8, &verdicts[number])?;
    }
    Ok(())
}

/// The lines of what is found.
fn lines_of(alloc: Global, blocks: &[Block], judged: &LoopsJudged) -> Result<Vec<u8>, AllocError>
    requires blocks { length blocks.now ≤ MOST_BLOCKS }
    requires verdicts { length judged.now.verdicts.items ≤ MOST_BLOCKS }
    ensures { IfOk result (λ text. text.items ≡ lines_from blocks.now 0 judged.now.verdicts.items ++ rows_line judged.now.wanting) }
{
    let mut text = Vec::new(alloc);
    push_blocks(&mut text, alloc, blocks, &judged.verdicts)?;
    push_rows(&mut text, judged.wanting)?;
    Ok(text)
}

/// What is found of the blocks of a program and packets that pipeline its loops, as [`judge_loops`] finds it, with the lines of `docs/CHECK.md`.
/// Each loop under a counter has a line, and each other block that doesn't belong to a loop has those that `c62_check` tells of it. Of a loop
/// that is the same but for registers its line names these, and a line for each of them that the text may read says where.
///
/// # Errors
///
/// `AllocError` where memory ran out.
#[tactic(auto, using(crate::proofs::Telling::few_judged))]
pub fn check_loops(
    alloc: Global,
    program: &Program,
    read: &RowsText,
    promises: &Promises,
) -> Result<LoopsChecked, AllocError>
    ensures { IfOk result (λ checked. AreLoopsTold (map trips_of promises.now.trips.items) promises.now.apart.items program.now (text_of read.now.rows)
        checked.text.items checked.same checked.plain) }
{
    let judged = judge_loops(alloc, program, read, promises)?;
    let text = lines_of(alloc, program.blocks(), &judged)?;
    let same = judged.same;
    let plain = judged.plain;
    Ok(LoopsChecked { text, same, plain })
}
