//! Why packets that hold a loop don't pipeline it.

ghost use Rattle.std.specs.Prelude.{◌≡◌, ◌+◌, ◌*◌, ℕ, map, Contains, IfOk, IfSome, IsTrue, IsFalse};
ghost use Rattle.std.specs.Bool.{OnTrue};
ghost use Rattle.c62_loop.specs.Loop.{prolog_cycles, interval};
ghost use Rattle.c62_loop_match.specs.Parts.{region_of, loop_of, schedule_of, control_of};
ghost use Rattle.c62_loop_match.specs.Promise.{promises};
ghost use Rattle.c62_loop_match.specs.Decide.{HoldsWork, IsWork};
ghost use Rattle.c62_loop_match.specs.Reading.{entry_unlined, schedule_unlined, IsReading};
ghost use Rattle.c62_loop_match.specs.Astray.{GoesAstray};
ghost use Rattle.c62_loop_match.specs.Refusal.{Refuses};

use crate::begins::first_start;
use crate::counted::is_test;
use crate::decision::{
    Layout, Works, has_interval, holds_rows, holds_work, layout_of, uses_in, works_of,
};
use crate::distances::{Distances, distances_of};
use crate::early::Early;
use crate::layout::is_pipelined;
use crate::parts::{Control, Pipelined, Region, Schedule};
use crate::promise::Promise;
use crate::steering::Rule;
use crate::unlined::{entries_unlined, schedule_unlined};
use c62_packet::Placed;
use std::alloc::{AllocError, Global};

/// Why packets don't pipeline a loop.
#[derive(Clone, Copy)]
pub enum Refusal {
    /// An instance of them comes too early behind another one.
    Early(Early),
    /// The branch on this line of theirs takes effect at the end of no pass of the kernel.
    Branch(u32),
    /// Neither was found.
    Other,
}

/// Whether what is issued in a cycle takes effect at the end of a pass, where it is a branch: the first begins in this cycle.
fn ends_pass(begin: u16, interval: u16, cycle: u16) -> bool
    ensures { IsFalse result → (pass : ℕ) → cycle + 6 ≡ begin + interval * (pass + 1) → ⊥ }
{
    let end = u32::from(cycle) + 6;
    let first = u32::from(begin) + u32::from(interval);
    interval == 0 || first <= end && (end - first) % u32::from(interval) == 0
}

/// Whether it is a branch to the kernel that takes effect at the end of no pass.
fn is_astray(rule: Rule, begin: u16, label: u8, placed: &Placed) -> bool
    ensures { OnTrue result (GoesAstray rule begin label placed.now) }
{
    is_test(rule.counter, label, &placed.insn) && !ends_pass(begin, rule.interval, placed.cycle)
}

/// The line of the first that is.
fn first_astray(rule: Rule, begin: u16, label: u8, placed: &[Placed]) -> Option<u32>
    ensures { IfSome result (HoldsAstray rule begin label placed.now) }
{
    for each in placed {
        if is_astray(rule, begin, label, each) {
            return Some(each.line);
        }
    }
    None
}

ghost use Rattle.c62_loop_match.specs.Astray.{HoldsAstray};

/// That of the prolog and the kernel.
fn astray_in(rule: Rule, begin: u16, label: u8, control: &Control) -> Option<u32>
    ensures { IfSome result (HoldsAstray rule begin label (control.now.early.items ++ control.now.kernel.items)) }
{
    match first_astray(rule, begin, label, &control.early) {
        Some(line) => Some(line),
        None => first_astray(rule, begin, label, &control.kernel),
    }
}

ghost use Rattle.std.specs.Prelude.{◌++◌};

/// Whether a schedule holds this work one for one, whatever the lines are.
fn holds_unlined(
    alloc: Global,
    works: &Works,
    schedule: &Schedule,
    most: u8,
) -> Result<bool, AllocError>
    ensures { IfOk result (λ holds. OnTrue holds (HoldsWork (map entry_unlined works.now.before.items) (map entry_unlined works.now.body.items)
        (map entry_unlined works.now.behind.items) (schedule_unlined (schedule_of schedule.now)) most)) }
{
    let plain = Works {
        before: entries_unlined(alloc, &works.before)?,
        body: entries_unlined(alloc, &works.body)?,
        behind: entries_unlined(alloc, &works.behind)?,
    };
    let schedule = schedule_unlined(alloc, schedule)?;
    Ok(holds_work(&plain, &schedule, most))
}

/// Whether the rows of a loop hold its work so, and nothing else but this control.
fn is_reading(
    alloc: Global,
    layout: &Layout,
    works: &Works,
    schedule: &Schedule,
    control: &Control,
    most: u8,
) -> Result<bool, AllocError>
    ensures { IfOk result (λ reads. OnTrue reads (Reads layout.now works.now.before.items works.now.body.items works.now.behind.items (schedule_of schedule.now) (control_of control.now) most)) }
{
    if !has_interval(layout, schedule) || !holds_unlined(alloc, works, schedule, most)? {
        return Ok(false);
    }
    holds_rows(alloc, layout, schedule, control)
}

ghost use Rattle.c62_loop_match.specs.Refusal.{Reads};

/// What is told of distances.
fn refused_for(found: Distances) -> Refusal
    ensures { result ≡ refused_for found }
{
    match found {
        Distances::TooEarly(early) => Refusal::Early(early),
        _ => Refusal::Other,
    }
}

ghost use Rattle.c62_loop_match.specs.Refusal.{refused_for};

/// Why packets don't pipeline the loop that they hold so: of what keeps them from it the first branch that takes effect at the end of
/// no pass, the first step or branch that comes too early behind an instruction above the label, or the first instance that comes too
/// early, in as few passes as show it. The instances have the lines of the packets.
///
/// # Errors
///
/// `AllocError` where memory ran out.
pub fn refusal_of(
    alloc: Global,
    region: &Region,
    pipelined: &Pipelined,
    schedule: &Schedule,
    control: &Control,
    promise: Promise,
    most: u8,
) -> Result<Refusal, AllocError>
    ensures { IfOk result (Refuses (promises promise) (region_of region.now) (loop_of pipelined.now) most) }
{
    if !is_pipelined(pipelined) {
        return Ok(Refusal::Other);
    }
    let Some(layout) = layout_of(alloc, pipelined)? else {
        return Ok(Refusal::Other);
    };
    let works = works_of(alloc, region)?;
    if !is_reading(alloc, &layout, &works, schedule, control, most)? {
        return Ok(Refusal::Other);
    }
    let rule = Rule {
        counter: region.counter,
        interval: schedule.interval,
        most,
    };
    if let Some(line) = astray_in(rule, layout.prolog.end, pipelined.label, control) {
        return Ok(Refusal::Branch(line));
    }
    if let Some(early) = first_start(region.counter, &schedule.before, control) {
        return Ok(Refusal::Early(early));
    }
    let work = uses_in(alloc, &works)?;
    Ok(refused_for(distances_of(alloc, &work, schedule, promise, most)?))
}
