//! Why each instruction of a schedule isn't issued a cycle earlier.

ghost use Rattle.std.specs.Prelude.{◌≡◌, ◌++◌, ◌<◌, ◌≤◌, length, Some, slice_get, IfOk, OnOk};
ghost use Rattle.c62_read.specs.declared.limits.TheConstants.{MOST_INSTRUCTIONS};
ghost use Rattle.c62_depend.specs.Plan.{insns_of};
ghost use Rattle.c62_why.specs.Why.{slack_of, critical_line, critical_from, IsCause, IsWhy, AreWhys, TellsWhys};

use crate::held::{Held, first_held};
use crate::taken::{Taken, first_taken, more_taken};
use c62_depend::Plan;
use c62_packet::Placed;
use std::alloc::{AllocError, Global};

/// All of which the cycle before an instruction's has too little for it.
#[derive(Drop)]
pub struct Shortage {
    /// The first.
    pub first: Taken,
    /// The others, each once.
    pub more: Vec<Taken>,
}

/// What keeps an instruction from the cycle before its own, with all others where they are.
#[derive(Drop)]
pub enum Cause {
    /// There is no cycle before.
    First,
    /// A dependence.
    Held(Held),
    /// What others have taken of that cycle.
    Taken(Shortage),
    /// Neither.
    Nothing,
}

/// Where an instruction stands in its schedule, and why there.
#[derive(Drop)]
pub struct Why {
    /// Its line.
    pub line: u32,
    /// Its cycle.
    pub cycle: u16,
    /// By how many cycles it could come later, as far as dependences go, in a schedule that is no longer.
    pub slack: u16,
    /// What keeps it from the cycle before.
    pub cause: Cause,
}

/// What keeps instruction `j` from the cycle before its own.
fn cause_of(
    alloc: Global,
    plan: &Plan,
    placed: &[Placed],
    j: u16,
    one: &Placed,
) -> Result<Cause, AllocError>
    requires within { j < length plan.now.insns }
    requires placed { length placed.now ≡ length plan.now.insns }
    requires few { length placed.now ≤ MOST_INSTRUCTIONS }
    requires one { slice_get placed.now j ≡ Some one.now }
    ensures { IfOk result (IsCause (insns_of plan.now) placed.now j one.now) }
{
    if one.cycle == 0 {
        return Ok(Cause::First);
    }
    if let Some(held) = first_held(plan, placed, j) {
        return Ok(Cause::Held(held));
    }
    match first_taken(placed, one) {
        Some(first) => {
            let more = more_taken(alloc, placed, one, first)?;
            Ok(Cause::Taken(Shortage { first, more }))
        }
        None => Ok(Cause::Nothing),
    }
}

/// By how many cycles instruction `j` could come later.
fn slack_of(plan: &Plan, cycles: u16, j: u16, one: &Placed) -> u16
    requires { j < length plan.now.insns }
    ensures { result ≡ slack_of (insns_of plan.now) cycles j one.now }
{
    let _all = plan.len();
    cycles
        .saturating_sub(plan.height(j) + 1)
        .saturating_sub(one.cycle)
}

/// Where instruction `j` stands, and why there.
fn why_of(
    alloc: Global,
    plan: &Plan,
    cycles: u16,
    placed: &[Placed],
    j: u16,
) -> Result<Why, AllocError>
    requires within { j < length plan.now.insns }
    requires placed { length placed.now ≡ length plan.now.insns }
    requires few { length placed.now ≤ MOST_INSTRUCTIONS }
    ensures { IfOk result (IsWhy (insns_of plan.now) cycles placed.now j) }
{
    let one = &placed[usize::from(j)];
    let cause = cause_of(alloc, plan, placed, j, one)?;
    Ok(Why {
        line: one.line,
        cycle: one.cycle,
        slack: slack_of(plan, cycles, j, one),
        cause,
    })
}

/// Where each instruction of a block stands in a schedule of so many cycles, and why there: the instructions are given in
/// the order of the block, placed as they are in the schedule (`docs/SHOW.md`, "Why not earlier").
///
/// # Errors
///
/// Where memory ran out.
fn whys_of(
    alloc: Global,
    plan: &Plan,
    cycles: u16,
    placed: &[Placed],
) -> Result<Vec<Why>, AllocError>
    requires placed { length placed.now ≡ length plan.now.insns }
    requires few { length placed.now ≤ MOST_INSTRUCTIONS }
    ensures { IfOk result (λ whys. AreWhys (insns_of plan.now) cycles placed.now whys.items) }
{
    let mut whys = Vec::new(alloc);
    for j in 0..plan.len() {
        let why = why_of(alloc, plan, cycles, placed, j)?;
        whys.push(why)?;
    }
    Ok(whys)
}

/// The same, where it is asked for, and else nothing.
///
/// # Errors
///
/// Where memory ran out.
pub fn whys_told(
    alloc: Global,
    plan: &Plan,
    cycles: u16,
    placed: &[Placed],
    why: bool,
) -> Result<Vec<Why>, AllocError>
    requires placed { length placed.now ≡ length plan.now.insns }
    requires few { length placed.now ≤ MOST_INSTRUCTIONS }
    ensures { IfOk result (λ whys. TellsWhys why (insns_of plan.now) cycles placed.now whys.items) }
{
    if why {
        whys_of(alloc, plan, cycles, placed)
    } else {
        Ok(Vec::new(alloc))
    }
}

/// Adds the line of instruction `j`, where that has no slack.
fn push_critical(
    lines: &mut Vec<u32>,
    plan: &Plan,
    cycles: u16,
    j: u16,
    one: &Placed,
) -> Result<(), AllocError>
    requires { j < length plan.now.insns }
    ensures { OnOk result (lines.new.items ≡ lines.old.items ++ critical_line (insns_of plan.now) cycles j one.now) }
{
    if slack_of(plan, cycles, j, one) != 0 {
        return Ok(());
    }
    lines.push(one.line)?;
    Ok(())
}

/// The lines of the critical instructions of such a schedule: those without slack (`docs/SHOW.md`, "The grid").
///
/// # Errors
///
/// Where memory ran out.
pub fn critical_lines(
    alloc: Global,
    plan: &Plan,
    cycles: u16,
    placed: &[Placed],
) -> Result<Vec<u32>, AllocError>
    requires placed { length placed.now ≡ length plan.now.insns }
    requires few { length placed.now ≤ MOST_INSTRUCTIONS }
    ensures { IfOk result (λ lines. lines.items ≡ critical_from (insns_of plan.now) cycles 0 placed.now) }
{
    let mut lines = Vec::new(alloc);
    let mut j = 0;
    for one in placed {
        push_critical(&mut lines, plan, cycles, j, one)?;
        j += 1;
    }
    Ok(lines)
}
