//! What keeps a trip of a loop from being shorter (docs/SCHEDULING.md, "Loops of a program").

ghost use Rattle.std.specs.Prelude.{◌≡◌, ◌++◌, ◌∷◌, [], IfOk, IfSome, OnOk};
ghost use Rattle.std.specs.List.{flat_map};
ghost use Rattle.c62_op.specs.Units.{all_units};
ghost use Rattle.c62_listing.specs.Written.{AddsText};
ghost use Rattle.c62_loop.specs.Counter.{work_of};
ghost use Rattle.c62_loop_match.specs.Parts.{region_of};
ghost use Rattle.c62_pipeline.specs.Limit.{IsLimitOf, bound_words, circle_words, first_line, limit_told, limit_words, line_of, lines_in, path_word, share_words, step_words, steps_words, unit_word};

use c62_grid::path_name;
use c62_grid::words::{push_counted, push_number, push_register, push_signed, unit_name};
use c62_insn::{Reg, Unit, UnitSet};
use c62_loop_bound::{Cause, Dependence, Share, cause_of, least_interval};
use c62_loop_match::{Promise, Region, touches};
use c62_read::{MOST_INSTRUCTIONS, SerialInsn};
use c62_rules::Resource;
use std::alloc::{AllocError, Global};

/// How few cycles a trip of a loop takes at least, and what asks for them.
#[derive(Drop)]
pub struct Limit {
    pub cycles: u16,
    pub cause: Cause,
    /// The lines of the instructions that don't touch the counter: dependences have their numbers.
    pub lines: Vec<u32>,
}

/// Adds the line of an instruction, if it doesn't touch the counter.
fn push_line(lines: &mut Vec<u32>, counter: Reg, entry: &SerialInsn) -> Result<(), AllocError>
    ensures { OnOk result (lines.new.items ≡ lines.old.items ++ lines_in (work_of counter (entry.now ∷ []))) }
{
    if !touches(counter, entry) {
        lines.push(entry.line)?;
    }
    Ok(())
}

/// The lines of the instructions that don't touch the counter.
fn work_lines(alloc: Global, counter: Reg, entries: &[SerialInsn]) -> Result<Vec<u32>, AllocError>
    ensures { IfOk result (λ lines. lines.items ≡ lines_in (work_of counter entries.now)) }
{
    let mut lines = Vec::new(alloc);
    for entry in entries {
        push_line(&mut lines, counter, entry)?;
    }
    Ok(lines)
}

/// How few cycles a trip of a loop takes at least, and what asks for them, where that is found.
///
/// # Errors
///
/// `AllocError` where memory ran out.
pub(crate) fn limit_of(
    alloc: Global,
    region: &Region,
    promise: Promise,
) -> Result<Option<Limit>, AllocError>
    ensures { IfOk result (λ limit. IfSome limit (IsLimitOf promise (region_of region.now))) }
{
    if region.body.len() > MOST_INSTRUCTIONS {
        return Ok(None);
    }
    let cycles = least_interval(alloc, region, promise)?;
    let Some(cause) = cause_of(alloc, region, promise, cycles)? else {
        return Ok(None);
    };
    let lines = work_lines(alloc, region.counter, &region.body)?;
    Ok(Some(Limit {
        cycles,
        cause,
        lines,
    }))
}

/// A unit of a set, with a space before it.
fn push_unit(out: &mut String, set: UnitSet, unit: Unit) -> Result<(), AllocError>
    ensures { OnOk result (AddsText out.old (unit_word set unit) out.new) }
{
    if !set.has(unit) {
        return Ok(());
    }
    out.push_str(" ")?;
    out.push_str(unit_name(unit))
}

/// The units of a set, with a space before each.
fn push_units(out: &mut String, set: UnitSet) -> Result<(), AllocError>
    ensures { OnOk result (AddsText out.old (flat_map (unit_word set) all_units) out.new) }
{
    for unit in Unit::ALL {
        push_unit(out, set, unit)?;
    }
    Ok(())
}

/// The name of a path, with a space before it.
fn push_path(out: &mut String, path: Resource) -> Result<(), AllocError>
    ensures { OnOk result (AddsText out.old (path_word path) out.new) }
{
    out.push_str(" ")?;
    out.push_str(path_name(path))
}

/// What a cycle has so many of, with a space before it.
fn push_share(out: &mut String, share: Share) -> Result<(), AllocError>
    ensures { OnOk result (AddsText out.old (share_words share) out.new) }
{
    match share {
        Share::Units(set) => push_units(out, set),
        Share::CrossPath(side) => push_path(out, Resource::CrossPath(side)),
        Share::DataPath(side) => push_path(out, Resource::DataPath(side)),
        Share::Reads(reg) => {
            out.push_str(" reads of ")?;
            push_register(out, reg)
        }
    }
}

/// The line of the instruction of a number, or 0 where there is none.
fn line_of(lines: &[u32], number: u16) -> u64
    ensures { result ≡ line_of lines.now number }
{
    match lines.get(usize::from(number)) {
        Some(line) => u64::from(*line),
        None => 0,
    }
}

/// A step of a circle: by how many cycles a line comes behind the one before it.
#[tactic(auto, unfolding(crate::specs::Limit::step_words))]
fn push_step(out: &mut String, lines: &[u32], one: &Dependence) -> Result<(), AllocError>
    ensures { OnOk result (AddsText out.old (step_words lines.now one.now) out.new) }
{
    out.push_str(" -")?;
    push_signed(out, one.latency)?;
    out.push_str("-> ")?;
    push_number(out, line_of(lines, one.to))
}

/// The steps of a circle, of which the last one stands first.
fn push_steps(out: &mut String, lines: &[u32], circle: &[Dependence]) -> Result<(), AllocError>
    ensures { OnOk result (AddsText out.old (steps_words lines.now circle.now) out.new) }
{
    match circle {
        [] => Ok(()),
        [last, before @ ..] => {
            push_steps(out, lines, before)?;
            push_step(out, lines, last)
        }
    }
}

/// The line to which the last of some dependences leads, or 0 where there is none.
fn first_line(lines: &[u32], circle: &[Dependence]) -> u64
    ensures { result ≡ first_line lines.now circle.now }
{
    match circle.first() {
        Some(last) => line_of(lines, last.to),
        None => 0,
    }
}

/// The lines of a circle, and over how many iterations it goes.
#[tactic(auto, unfolding(crate::specs::Limit::circle_words))]
fn push_circle(
    out: &mut String,
    lines: &[u32],
    circle: &[Dependence],
    iterations: u64,
) -> Result<(), AllocError>
    ensures { OnOk result (AddsText out.old (circle_words lines.now circle.now iterations) out.new) }
{
    out.push_str(" lines ")?;
    push_number(out, first_line(lines, circle))?;
    push_steps(out, lines, circle)?;
    out.push_str(" over ")?;
    push_counted(out, iterations, "iteration")
}

/// What a bound is by, the bound, and what asks for it.
fn push_bound(out: &mut String, what: &str, cycles: u16) -> Result<(), AllocError>
    ensures { OnOk result (AddsText out.old (bound_words what.now cycles) out.new) }
{
    out.push_str(what)?;
    push_number(out, u64::from(cycles))?;
    out.push_str(":")
}

/// How few cycles a trip takes at least, and what asks for them.
#[tactic(auto, unfolding(crate::specs::Limit::limit_words))]
fn push_told(out: &mut String, limit: &Limit) -> Result<(), AllocError>
    ensures { OnOk result (AddsText out.old (limit_words limit.now) out.new) }
{
    match &limit.cause {
        Cause::Share(share) => {
            push_bound(out, "; resource bound ", limit.cycles)?;
            push_share(out, *share)
        }
        Cause::Circle { steps, iterations } => {
            push_bound(out, "; loop carried dependence bound ", limit.cycles)?;
            push_circle(out, &limit.lines, steps, *iterations)
        }
    }
}

/// The same, where it is known.
pub(crate) fn push_limit(out: &mut String, limit: &Option<Limit>) -> Result<(), AllocError>
    ensures { OnOk result (AddsText out.old (limit_told limit.now) out.new) }
{
    match limit {
        Some(limit) => push_told(out, limit),
        None => Ok(()),
    }
}
