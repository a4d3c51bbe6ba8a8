//! What stands above the rows of a block: its head, its critical path, and its greatest need.

ghost use Rattle.std.specs.Prelude.{◌≡◌, ◌++◌, OnOk, IfOk, codes, decimal, string_bytes};
ghost use Rattle.std.specs.List.{flat_map};
ghost use Rattle.std.specs.Option.{option_copied};
ghost use Rattle.c62_listing.specs.Written.{AddsText};
ghost use Rattle.c62_show.specs.Head.{name, over_bound, verdict_by, verdict, size, fact, lines_word, path_words, step_words, bound_words, line_at, path_ends, listed_fact, path_fact, path_line, need_words, is_told, units_line};

use crate::limits::{Limits, Step};
use crate::words::{is_told, push_shared, room_name};
use c62_bound::Need;
use c62_grid::words::{push_counted, push_left, push_number, push_right_number, push_signed};
use c62_listing::label_text;
use c62_read::Label;
use std::alloc::{AllocError, Global};

/// The most columns of a line that names all lines of a path.
const MOST_COLUMNS: usize = 98;

/// The label of a block, or its number.
///
/// # Errors
///
/// Where memory ran out.
pub fn push_name(out: &mut String, number: u64, label: Option<&Label>) -> Result<(), AllocError>
    ensures { OnOk result (AddsText out.old (name number (option_copied label.entry)) out.new) }
{
    match label {
        Some(label) => out.push_str(label_text(label)),
        None => {
            out.push_str("block ")?;
            push_number(out, number)
        }
    }
}

#[tactic(auto, unfolding(crate::specs::Head::over_bound))]
fn push_over_bound(out: &mut String, least: u64) -> Result<(), AllocError>
    ensures { OnOk result (AddsText out.old (over_bound least) out.new) }
{
    out.push_str(" over the bound of ")?;
    push_number(out, least)?;
    Ok(())
}

/// By how much a block is longer than the bound.
fn push_verdict_by(out: &mut String, cycles: u64, least: u64) -> Result<(), AllocError>
    ensures { OnOk result (AddsText out.old (verdict_by cycles least) out.new) }
{
    if cycles == least {
        return out.push_str("no schedule is shorter");
    }
    push_number(out, cycles.saturating_sub(least))?;
    push_over_bound(out, least)
}

/// By how much a block is longer than the bound, where that is known.
fn push_verdict(out: &mut String, cycles: u64, least: Option<u64>) -> Result<(), AllocError>
    ensures { OnOk result (AddsText out.old (verdict cycles least) out.new) }
{
    match least {
        Some(least) => push_verdict_by(out, cycles, least),
        None => out.push_str("the bound isn't known"),
    }
}

/// How many instructions and cycles a block has, and whether it could be shorter.
#[tactic(auto, unfolding(crate::specs::Head::size))]
pub(crate) fn push_size(
    out: &mut String,
    count: u64,
    cycles: u64,
    least: Option<u64>,
) -> Result<(), AllocError>
    ensures { OnOk result (AddsText out.old (size count cycles least) out.new) }
{
    out.push_str(": ")?;
    push_counted(out, count, "instruction")?;
    out.push_str(" in ")?;
    push_counted(out, cycles, "cycle")?;
    out.push_str("; ")?;
    push_verdict(out, cycles, least)?;
    out.push_str("\n")
}

/// A line that says why a schedule takes so many cycles at least.
#[tactic(auto, unfolding(crate::specs::Head::fact))]
fn push_fact(out: &mut String, word: &str, cycles: u64, why: &str) -> Result<(), AllocError>
    ensures { OnOk result (AddsText out.old (fact word.now cycles why.now) out.new) }
{
    out.push_str("   ")?;
    push_left(out, 5, word)?;
    push_right_number(out, 5, cycles)?;
    out.push_str(": ")?;
    out.push_str(why)
}

fn push_path_lines(out: &mut String, path: &[u32]) -> Result<(), AllocError>
    ensures { OnOk result (AddsText out.old (flat_map (λ number. codes " " ++ decimal number) path.now) out.new) }
{
    for number in path {
        out.push_str(" ")?;
        push_number(out, u64::from(*number))?;
    }
    Ok(())
}

/// The lines of a path.
#[tactic(auto, unfolding(crate::specs::Head::path_words))]
fn path_words(alloc: Global, path: &[u32]) -> Result<String, AllocError>
    ensures { IfOk result (λ text. string_bytes text ≡ path_words path.now) }
{
    let mut text = String::new(alloc);
    text.push_str(lines_word(path))?;
    push_path_lines(&mut text, path)?;
    Ok(text)
}

fn lines_word(path: &[u32]) -> &'static str
    ensures { result.now ≡ lines_word path.now }
{
    if path.len() == 1 { "line" } else { "lines" }
}

/// A step of a path: what it waits for, for how many cycles, and its line.
#[tactic(auto, unfolding(crate::specs::Head::step_words))]
fn push_step(out: &mut String, step: &Step) -> Result<(), AllocError>
    ensures { OnOk result (AddsText out.old (step_words step.now) out.new) }
{
    out.push_str(" -")?;
    push_shared(out, step.reason)?;
    out.push_str(":")?;
    push_signed(out, step.cycles)?;
    out.push_str("- ")?;
    push_number(out, u64::from(step.line))
}

fn push_steps(out: &mut String, steps: &[Step]) -> Result<(), AllocError>
    ensures { OnOk result (AddsText out.old (flat_map step_words steps.now) out.new) }
{
    for step in steps {
        push_step(out, step)?;
    }
    Ok(())
}

/// The lines of a path, and what binds each to the one before it.
#[tactic(auto, unfolding(crate::specs::Head::bound_words))]
fn bound_words(alloc: Global, path: &[u32], steps: &[Step]) -> Result<String, AllocError>
    ensures { IfOk result (λ text. string_bytes text ≡ bound_words path.now steps.now) }
{
    let mut text = String::new(alloc);
    text.push_str(lines_word(path))?;
    text.push_str(" ")?;
    push_number(&mut text, line_at(path, 0))?;
    push_steps(&mut text, steps)?;
    Ok(text)
}

/// A line of a path by its place, or 0 where there is none.
fn line_at(path: &[u32], place: usize) -> u64
    ensures { result ≡ line_at path.now place }
{
    match path.get(place) {
        Some(line) => u64::from(*line),
        None => 0,
    }
}

/// How many lines a path has, and its ends.
#[tactic(auto, unfolding(crate::specs::Head::path_ends))]
fn path_ends(alloc: Global, path: &[u32]) -> Result<String, AllocError>
    ensures { IfOk result (λ text. string_bytes text ≡ path_ends path.now) }
{
    let mut text = String::new(alloc);
    push_number(&mut text, path.len() as u64)?;
    text.push_str(" lines from ")?;
    push_number(&mut text, line_at(path, 0))?;
    text.push_str(" to ")?;
    push_number(&mut text, line_at(path, path.len().saturating_sub(1)))?;
    Ok(text)
}

/// A line that says why a schedule takes so many cycles at least.
fn fact(alloc: Global, word: &str, cycles: u64, why: &str) -> Result<String, AllocError>
    ensures { IfOk result (λ text. string_bytes text ≡ fact word.now cycles why.now) }
{
    let mut text = String::new(alloc);
    push_fact(&mut text, word, cycles, why)?;
    Ok(text)
}

/// Of the critical path each of its lines, or where these are too many its ends.
#[tactic(auto, unfolding(crate::specs::Head::listed_fact))]
fn listed_fact(alloc: Global, cycles: u64, path: &[u32]) -> Result<String, AllocError>
    ensures { IfOk result (λ text. string_bytes text ≡ listed_fact cycles path.now) }
{
    let words = path_words(alloc, path)?;
    let whole = fact(alloc, "path", cycles, words.as_str())?;
    if whole.len() <= MOST_COLUMNS {
        return Ok(whole);
    }
    let ends = path_ends(alloc, path)?;
    fact(alloc, "path", cycles, ends.as_str())
}

/// Of the critical path each of its lines with what binds it, or where that is too wide less.
#[tactic(auto, unfolding(crate::specs::Head::path_fact))]
fn path_fact(alloc: Global, cycles: u64, path: &[u32], steps: &[Step]) -> Result<String, AllocError>
    ensures { IfOk result (λ text. string_bytes text ≡ path_fact cycles path.now steps.now) }
{
    let words = bound_words(alloc, path, steps)?;
    let whole = fact(alloc, "path", cycles, words.as_str())?;
    if whole.len() <= MOST_COLUMNS {
        return Ok(whole);
    }
    listed_fact(alloc, cycles, path)
}

/// The line of the critical path.
pub(crate) fn push_path(alloc: Global, out: &mut String, limits: &Limits) -> Result<(), AllocError>
    ensures { OnOk result (AddsText out.old (path_line limits.now) out.new) }
{
    let cycles = u64::from(limits.path_length);
    let text = path_fact(alloc, cycles, &limits.path, &limits.steps)?;
    out.push_str(text.as_str())?;
    out.push_str("\n")
}

/// How many instructions wait for what, and what follows behind them.
#[tactic(auto, unfolding(crate::specs::Head::need_words))]
fn need_words(alloc: Global, need: Need) -> Result<String, AllocError>
    ensures { IfOk result (λ text. string_bytes text ≡ need_words need) }
{
    let mut text = String::new(alloc);
    push_number(&mut text, u64::from(need.count))?;
    text.push_str(" on ")?;
    text.push_str(room_name(need.kind, need.side))?;
    text.push_str(", and ")?;
    push_number(&mut text, u64::from(need.tail))?;
    text.push_str(" behind the last")?;
    Ok(text)
}

/// The line of the greatest need, where it is told.
pub(crate) fn push_units(
    alloc: Global,
    out: &mut String,
    need: Option<Need>,
) -> Result<(), AllocError>
    ensures { OnOk result (AddsText out.old (units_line need) out.new) }
{
    match need {
        Some(need) if is_told(need) => {
            let why = need_words(alloc, need)?;
            push_fact(out, "units", u64::from(need.cycles()), why.as_str())?;
            out.push_str("\n")
        }
        _ => Ok(()),
    }
}
