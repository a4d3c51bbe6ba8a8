//! How short a schedule of a block can be at best, and why.

ghost use Rattle.std.specs.Prelude.{◌≡◌, IfOk, map};
ghost use Rattle.c62_depend.specs.Plan.{insns_of};
ghost use Rattle.c62_bound.specs.Path.{IsTight, IsCriticalPath};
ghost use Rattle.c62_refute.specs.Window.{TakesAtLeast};
ghost use Rattle.c62_show.specs.Limits.{line_of, IsStep, AreSteps, AreLimits, ArePlainLimits};

use c62_bound::{Need, bound, critical_path, path_length};
use c62_depend::Plan;
use c62_raised::raised_length;
use c62_reason::{Reason, reason_for};
use std::alloc::{AllocError, Global};

/// A step of a critical path, from one instruction to the next.
#[derive(Clone, Copy, PartialEq, Eq, Debug)]
pub struct Step {
    /// The line of the next instruction.
    pub line: u32,
    /// How many cycles it must come behind the one before it at least: fewer than 0 where it may come before.
    pub cycles: i32,
    /// Why it must.
    pub reason: Reason,
}

/// How short a schedule of a block can be at best, and why.
#[derive(Debug, Drop)]
pub struct Limits {
    /// The length of the critical path, in cycles.
    pub path_length: u16,
    /// The lines of the instructions on it, in their order.
    pub path: Vec<u32>,
    /// The steps between them.
    pub steps: Vec<Step>,
    /// The greatest need. `None` where there is no instruction.
    pub need: Option<Need>,
    /// How many cycles each schedule takes at least: the raised bound.
    pub raised: u32,
    /// How many each takes at least as a search tells, and 0 where none does.
    pub searched: u32,
}

impl Limits {
    ghost use Rattle.c62_show.specs.Limits.{least_of};

    /// How many cycles each schedule takes at least.
    pub fn least(&self) -> u32
        ensures { result ≡ least_of self.now }
    {
        self.raised.max(self.searched)
    }
}

/// The line of an instruction of a plan, or 0 where there is none of this number.
fn line_of(plan: &Plan, number: u16) -> u32
    ensures { result ≡ line_of plan.now.insns number }
{
    match plan.block().insns().get(usize::from(number)) {
        Some(entry) => entry.line,
        None => 0,
    }
}

/// The lines of a critical path.
fn path_lines(alloc: Global, plan: &Plan, path: &[u16]) -> Result<Vec<u32>, AllocError>
    ensures { IfOk result (λ lines. lines.items ≡ map (line_of plan.now.insns) path.now) }
{
    let mut lines = Vec::with_capacity(alloc, path.len())?;
    for number in path {
        lines.push(line_of(plan, *number))?;
    }
    Ok(lines)
}

/// The step between two instructions, of which the second sets the height of the first.
fn step_between(plan: &Plan, i: u16, j: u16) -> Step
    requires { IsTight (insns_of plan.now) i j }
    ensures { IsStep plan.now i j result }
{
    let _all = plan.len();
    match plan.latency(i, j) {
        Some(cycles) => Step {
            line: line_of(plan, j),
            cycles,
            reason: reason_for(plan, i, j, cycles),
        },
        None => unreachable!(),
    }
}

/// The steps of a critical path.
fn steps_of(alloc: Global, plan: &Plan, path: &[u16]) -> Result<Vec<Step>, AllocError>
    requires { IsCriticalPath (insns_of plan.now) path.now }
    ensures { IfOk result (λ steps. AreSteps plan.now path.now steps.items) }
{
    let mut steps = Vec::new(alloc);
    for k in 1..path.len() {
        steps.push(step_between(plan, path[k - 1], path[k]))?;
    }
    Ok(steps)
}

/// How short a schedule of the plan's block can be at best, and why, where a search tells that each takes at least so many
/// cycles.
///
/// # Errors
///
/// Where memory ran out.
pub fn limits_with(alloc: Global, plan: &Plan, searched: u32) -> Result<Limits, AllocError>
    requires { TakesAtLeast (insns_of plan.now) searched }
    ensures are { IfOk result (AreLimits plan.now) }
    ensures searched { IfOk result (λ limits. limits.searched ≡ searched) }
{
    let path = critical_path(alloc, plan)?;
    Ok(Limits {
        path_length: path_length(plan),
        path: path_lines(alloc, plan, &path)?,
        steps: steps_of(alloc, plan, &path)?,
        need: bound(plan),
        raised: raised_length(plan),
        searched,
    })
}

/// How short a schedule of the plan's block can be at best, and why, where nothing was searched for.
///
/// # Errors
///
/// Where memory ran out.
pub fn limits_of(alloc: Global, plan: &Plan) -> Result<Limits, AllocError>
    ensures { IfOk result (ArePlainLimits plan.now) }
{
    let limits = limits_with(alloc, plan, 0)?;
    Ok(limits)
}
