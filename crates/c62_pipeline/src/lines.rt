//! What is told of the loops of a program (docs/SCHEDULING.md, "Loops of a program").

ghost use Rattle.std.specs.Prelude.{◌≡◌, IfOk, OnOk, slice_get, string_bytes};
ghost use Rattle.c62_listing.specs.Written.{AddsText};
ghost use Rattle.c62_pipeline.specs.Lines.{accesses_end, accesses_front, both_words, choice_line, few_front, few_words, kept_words, loop_name, loop_lines, meeting_words, name_in, several_front, several_words, shortness_words, trip_words, used_front, used_middle, used_words};

use crate::chosen::{Choice, Kept};
use crate::limit::push_limit;
use crate::written::Pipelining;
use c62_grid::words::{push_counted, push_number, push_register};
use c62_insn::Reg;
use c62_listing::label_text;
use c62_modulo::Shortness;
use c62_read::Block;
use std::alloc::{AllocError, Global};

/// Whether packets of a loop, of which a trip takes so many cycles, can have a shorter one.
fn push_shortness(out: &mut String, cycles: u16, shortness: Shortness) -> Result<(), AllocError>
    ensures { OnOk result (AddsText out.old (shortness_words cycles shortness) out.new) }
{
    match shortness {
        Shortness::Shortest => out.push_str(
            "no II is shorter for one iteration a trip, these registers and nothing past the end",
        ),
        Shortness::Over(bound) => {
            push_number(out, u64::from(cycles.saturating_sub(bound)))?;
            out.push_str(" over the bound of ")?;
            push_number(out, u64::from(bound))
        }
    }
}

/// What is told of a loop that is pipelined.
fn push_trip(
    out: &mut String,
    cycles: u16,
    stages: u16,
    shortness: Shortness,
) -> Result<(), AllocError>
    ensures { OnOk result (AddsText out.old (trip_words cycles stages shortness) out.new) }
{
    push_counted(out, u64::from(cycles), "cycle")?;
    out.push_str(" ")?;
    push_counted(out, u64::from(stages), "stage")?;
    out.push_str(" from ")?;
    push_counted(out, u64::from(stages), "trip")?;
    out.push_str("; ")?;
    push_shortness(out, cycles, shortness)
}

/// Two lines, as `7 and 9`.
#[tactic(auto, unfolding(crate::specs::Lines::both_words))]
fn push_both(out: &mut String, first: u32, second: u32) -> Result<(), AllocError>
    ensures { OnOk result (AddsText out.old (both_words first second) out.new) }
{
    push_number(out, u64::from(first))?;
    out.push_str(" and ")?;
    push_number(out, u64::from(second))
}

#[tactic(auto, unfolding(crate::specs::Lines::accesses_front))]
fn accesses_front() -> &'static str
    ensures { result.now ≡ accesses_front }
{
    "left: the accesses of lines "
}

#[tactic(auto, unfolding(crate::specs::Lines::accesses_end))]
fn accesses_end() -> &'static str
    ensures { result.now ≡ accesses_end }
{
    " aren't promised to be apart"
}

/// That two accesses may meet.
#[tactic(auto, unfolding(crate::specs::Lines::meeting_words))]
fn push_meeting(out: &mut String, first: u32, second: u32) -> Result<(), AllocError>
    ensures { OnOk result (AddsText out.old (meeting_words first second) out.new) }
{
    out.push_str(accesses_front())?;
    push_both(out, first, second)?;
    out.push_str(accesses_end())
}

#[tactic(auto, unfolding(crate::specs::Lines::several_front))]
fn several_front() -> &'static str
    ensures { result.now ≡ several_front }
{
    "left: it has "
}

/// That a loop has several blocks.
#[tactic(auto, unfolding(crate::specs::Lines::several_words))]
fn push_several(out: &mut String, count: u16) -> Result<(), AllocError>
    ensures { OnOk result (AddsText out.old (several_words count) out.new) }
{
    out.push_str(several_front())?;
    push_counted(out, u64::from(count), "block")
}

#[tactic(auto, unfolding(crate::specs::Lines::used_front))]
fn used_front() -> &'static str
    ensures { result.now ≡ used_front }
{
    "left: line "
}

#[tactic(auto, unfolding(crate::specs::Lines::used_middle))]
fn used_middle() -> &'static str
    ensures { result.now ≡ used_middle }
{
    " uses the counter "
}

/// That an instruction does more with the counter than to lower or test it.
#[tactic(auto, unfolding(crate::specs::Lines::used_words))]
fn push_used(out: &mut String, line: u32, counter: Reg) -> Result<(), AllocError>
    ensures { OnOk result (AddsText out.old (used_words line counter) out.new) }
{
    out.push_str(used_front())?;
    push_number(out, u64::from(line))?;
    out.push_str(used_middle())?;
    push_register(out, counter)
}

#[tactic(auto, unfolding(crate::specs::Lines::few_front))]
fn few_front() -> &'static str
    ensures { result.now ≡ few_front }
{
    "left: packets that are shorter need "
}

/// That a loop has to be entered with more trips.
#[tactic(auto, unfolding(crate::specs::Lines::few_words))]
fn push_few(out: &mut String, stages: u16) -> Result<(), AllocError>
    ensures { OnOk result (AddsText out.old (few_words stages) out.new) }
{
    out.push_str(few_front())?;
    push_counted(out, u64::from(stages), "trip")
}

/// What became of a loop.
fn push_kept(out: &mut String, kept: Kept) -> Result<(), AllocError>
    ensures { OnOk result (AddsText out.old (kept_words kept) out.new) }
{
    match kept {
        Kept::Pipelined {
            cycles,
            stages,
            shortness,
        } => push_trip(out, cycles, stages, shortness),
        Kept::Several(count) => push_several(out, count),
        Kept::NoCounter => out.push_str("left: no counter that goes down by one"),
        Kept::Used(line, counter) => push_used(out, line, counter),
        Kept::NoTrips => out.push_str("left: no trips are promised"),
        Kept::MayMeet(first, second) => push_meeting(out, first, second),
        Kept::TooFew(stages) => push_few(out, stages),
        Kept::NotShorter => out.push_str("left: none is found that is shorter"),
        Kept::NotChecked => out.push_str("left: what is found isn't told to do the same"),
    }
}

/// The name of the loop that a block is.
fn push_name(out: &mut String, number: u8, block: &Block) -> Result<(), AllocError>
    ensures { OnOk result (AddsText out.old (loop_name number block.now.label) out.new) }
{
    match block.label() {
        Some(label) => out.push_str(label_text(label)),
        None => push_number(out, u64::from(number)),
    }
}

/// The name of the loop that the block of this number is.
///
/// # Errors
///
/// `AllocError` where memory ran out.
pub fn push_name_at(out: &mut String, blocks: &[Block], number: u8) -> Result<(), AllocError>
    ensures { OnOk result (AddsText out.old (name_in number (slice_get blocks.now number)) out.new) }
{
    match blocks.get(usize::from(number)) {
        Some(block) => push_name(out, number, block),
        None => push_number(out, u64::from(number)),
    }
}

/// What became of one of these blocks that is a loop, as a line.
///
/// # Errors
///
/// `AllocError` where memory ran out.
#[tactic(auto, unfolding(crate::specs::Lines::choice_line))]
pub fn push_choice(out: &mut String, blocks: &[Block], choice: &Choice) -> Result<(), AllocError>
    ensures { OnOk result (AddsText out.old (choice_line blocks.now choice.now) out.new) }
{
    out.push_str("loop ")?;
    push_name_at(out, blocks, choice.number)?;
    out.push_str(" ")?;
    push_kept(out, choice.kept)?;
    push_limit(out, &choice.limit)?;
    out.push_str("\n")
}

/// A line for each of these blocks that is a loop: what became of it.
///
/// # Errors
///
/// `AllocError` where memory ran out.
pub fn loop_lines(
    alloc: Global,
    blocks: &[Block],
    written: &Pipelining,
) -> Result<String, AllocError>
    ensures { IfOk result (λ text. string_bytes text ≡ loop_lines blocks.now written.now) }
{
    let mut out = String::new(alloc);
    for choice in &written.loops {
        push_choice(&mut out, blocks, choice)?;
    }
    Ok(out)
}
