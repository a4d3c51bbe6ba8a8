//! The document of `check --loops`.

ghost use Rattle.std.specs.Prelude.{◌≡◌, ◌≤◌, ◌<◌, [], ◌∷◌, ◌++◌, codes, length, map, not, slice_get, IfOk};
ghost use Rattle.std.specs.Option.{option_copied};
ghost use Rattle.json.specs.Token.{boolean, key};
ghost use Rattle.c62_json.specs.Document.{Adds, document};
ghost use Rattle.c62_read.specs.declared.limits.TheConstants.{MOST_BLOCKS};
ghost use Rattle.c62_rows.specs.Rows.{text_of};
ghost use Rattle.c62_command.specs.Promises.{trips_of};
ghost use Rattle.c62_check_loops.specs.Lines.{insns_in, label_in};
ghost use Rattle.c62_json_loops.specs.Judged.{IsLoopsDocument, judged_members, loop_at, loops_from, loops_member, named_loop, rest_at, rests_from, rests_member, unnamed};

use crate::looped::push_loop;
use crate::rest::push_rest;
use c62_check_loop::LoopVerdict;
use c62_check_loops::{BlockVerdict, LoopsJudged, Reading, judge_loops, readings_of};
use c62_check_rest::RestVerdict;
use c62_command::Promises;
use c62_json::{begin, end, push_flag};
use c62_read::{Block, Label, Program, SerialInsn};
use c62_rows::RowsText;
use json::Writer;
use std::alloc::{AllocError, Global};

/// What was found where packets were held against the loops of a text, as a document.
#[derive(Drop)]
pub struct LoopsDocument {
    /// The text of the document.
    pub text: Vec<u8>,
    /// Whether the packets do what the text does, with the trips that are promised.
    pub same: bool,
    /// Whether no loop is the same but for registers.
    pub plain: bool,
}

/// The object of a loop, where it has a label.
fn push_labelled(
    alloc: Global,
    out: &mut Writer,
    label: Option<&Label>,
    insns: &[SerialInsn],
    verdict: LoopVerdict,
    readings: &[Reading],
) -> Result<(), AllocError>
    ensures { Adds result out.old out.new (named_loop (option_copied label.entry) insns.now verdict readings.now) }
{
    match label {
        Some(label) => push_loop(alloc, out, label, insns, verdict, readings),
        None => Ok(()),
    }
}

/// The object of a loop whose block this is.
fn push_named(
    alloc: Global,
    out: &mut Writer,
    block: Option<&Block>,
    verdict: LoopVerdict,
    readings: &[Reading],
) -> Result<(), AllocError>
    ensures { Adds result out.old out.new (named_loop (label_in (option_copied block.entry)) (insns_in (option_copied block.entry)) verdict readings.now) }
{
    match block {
        Some(block) => push_labelled(alloc, out, block.label(), block.insns(), verdict, readings),
        None => Ok(()),
    }
}

/// What is told of the block of this number as a loop.
fn push_loop_at(
    alloc: Global,
    out: &mut Writer,
    blocks: &[Block],
    number: u8,
    verdict: &BlockVerdict,
) -> Result<(), AllocError>
    requires few { length blocks.now ≤ MOST_BLOCKS }
    requires within { number < 253 }
    ensures { Adds result out.old out.new (loop_at blocks.now number verdict.now) }
{
    match verdict {
        BlockVerdict::Loop(verdict) => {
            let readings = readings_of(alloc, blocks, number, *verdict)?;
            push_named(
                alloc,
                out,
                blocks.get(usize::from(number)),
                *verdict,
                &readings,
            )
        }
        BlockVerdict::Within => Ok(()),
        BlockVerdict::Rest(_) => Ok(()),
    }
}

/// That nothing is known of a loop, where it has no label.
fn push_unlabelled(
    alloc: Global,
    out: &mut Writer,
    number: u8,
    label: Option<&Label>,
) -> Result<(), AllocError>
    ensures { Adds result out.old out.new (unnamed number (option_copied label.entry)) }
{
    match label {
        Some(_) => Ok(()),
        None => push_rest(alloc, out, u64::from(number), &RestVerdict::Unchecked),
    }
}

/// The same of a loop whose block this is.
fn push_unnamed(
    alloc: Global,
    out: &mut Writer,
    number: u8,
    block: Option<&Block>,
) -> Result<(), AllocError>
    ensures { Adds result out.old out.new (unnamed number (label_in (option_copied block.entry))) }
{
    match block {
        Some(block) => push_unlabelled(alloc, out, number, block.label()),
        None => push_unlabelled(alloc, out, number, None),
    }
}

/// What is told of the block of this number as one of no loop.
fn push_rest_at(
    alloc: Global,
    out: &mut Writer,
    blocks: &[Block],
    number: u8,
    verdict: &BlockVerdict,
) -> Result<(), AllocError>
    ensures { Adds result out.old out.new (rest_at blocks.now number verdict.now) }
{
    match verdict {
        BlockVerdict::Loop(_) => push_unnamed(alloc, out, number, blocks.get(usize::from(number))),
        BlockVerdict::Within => Ok(()),
        BlockVerdict::Rest(verdict) => push_rest(alloc, out, u64::from(number), verdict),
    }
}

/// The objects of the loops.
fn push_each_loop(
    alloc: Global,
    out: &mut Writer,
    blocks: &[Block],
    verdicts: &[BlockVerdict],
) -> Result<(), AllocError>
    requires blocks { length blocks.now ≤ MOST_BLOCKS }
    requires verdicts { length verdicts.now ≤ MOST_BLOCKS }
    ensures { Adds result out.old out.new (loops_from blocks.now 0 verdicts.now) }
{
    for number in 0..verdicts.len() {
        push_loop_at(alloc, out, blocks, number as u8, &verdicts[number])?;
    }
    Ok(())
}

/// The objects of the other blocks.
fn push_each_rest(
    alloc: Global,
    out: &mut Writer,
    blocks: &[Block],
    verdicts: &[BlockVerdict],
) -> Result<(), AllocError>
    requires { length verdicts.now ≤ MOST_BLOCKS }
    ensures { Adds result out.old out.new (rests_from blocks.now 0 verdicts.now) }
{
    for number in 0..verdicts.len() {
        push_rest_at(alloc, out, blocks, number as u8, &verdicts[number])?;
    }
    Ok(())
}

/// The member of the loops.
#[tactic(auto, unfolding(crate::specs::Judged::loops_member))]
fn push_loops(
    alloc: Global,
    out: &mut Writer,
    blocks: &[Block],
    verdicts: &[BlockVerdict],
) -> Result<(), AllocError>
    requires blocks { length blocks.now ≤ MOST_BLOCKS }
    requires verdicts { length verdicts.now ≤ MOST_BLOCKS }
    ensures { Adds result out.old out.new (loops_member blocks.now verdicts.now) }
{
    out.key("loops")?;
    out.begin_array()?;
    push_each_loop(alloc, out, blocks, verdicts)?;
    out.end_array()
}

/// The member of the other blocks.
#[tactic(auto, unfolding(crate::specs::Judged::rests_member))]
fn push_rests(
    alloc: Global,
    out: &mut Writer,
    blocks: &[Block],
    verdicts: &[BlockVerdict],
) -> Result<(), AllocError>
    requires { length verdicts.now ≤ MOST_BLOCKS }
    ensures { Adds result out.old out.new (rests_member blocks.now verdicts.now) }
{
    out.key("blocks")?;
    out.begin_array()?;
    push_each_rest(alloc, out, blocks, verdicts)?;
    out.end_array()
}

/// A member that is true or false.
fn push_fact(out: &mut Writer, name: &str, flag: bool) -> Result<(), AllocError>
    ensures { Adds result out.old out.new (key name.now ∷ boolean flag ∷ []) }
{
    out.key(name)?;
    push_flag(out, flag)
}

/// All members.
#[tactic(auto, unfolding(crate::specs::Judged::judged_members))]
fn push_judged(
    alloc: Global,
    out: &mut Writer,
    blocks: &[Block],
    judged: &LoopsJudged,
) -> Result<(), AllocError>
    requires blocks { length blocks.now ≤ MOST_BLOCKS }
    requires verdicts { length judged.now.verdicts.items ≤ MOST_BLOCKS }
    ensures { Adds result out.old out.new (judged_members blocks.now judged.now) }
{
    push_fact(out, "same", judged.same)?;
    push_loops(alloc, out, blocks, &judged.verdicts)?;
    push_rests(alloc, out, blocks, &judged.verdicts)?;
    push_fact(out, "rows", !judged.wanting)
}

/// The text of the document.
fn judged_text(alloc: Global, blocks: &[Block], judged: &LoopsJudged) -> Result<Vec<u8>, AllocError>
    requires blocks { length blocks.now ≤ MOST_BLOCKS }
    requires verdicts { length judged.now.verdicts.items ≤ MOST_BLOCKS }
    ensures { IfOk result (λ text. text.items ≡ document (codes "check") (judged_members blocks.now judged.now)) }
{
    let mut out = begin(alloc, "check")?;
    push_judged(alloc, &mut out, blocks, judged)?;
    end(out)
}

/// The document of what is found of the blocks of a program and packets that pipeline its loops, where so much is promised.
///
/// # Errors
///
/// `AllocError` where memory ran out.
#[tactic(auto, using(c62_check_loops::proofs::Telling::few_judged))]
pub fn loops_document(
    alloc: Global,
    program: &Program,
    read: &RowsText,
    promises: &Promises,
) -> Result<LoopsDocument, AllocError>
    ensures { IfOk result (λ checked. IsLoopsDocument (map trips_of promises.now.trips.items) promises.now.apart.items program.now (text_of read.now.rows)
        checked.text.items checked.same checked.plain) }
{
    let judged = judge_loops(alloc, program, read, promises)?;
    let text = judged_text(alloc, program.blocks(), &judged)?;
    let same = judged.same;
    let plain = judged.plain;
    Ok(LoopsDocument { text, same, plain })
}
