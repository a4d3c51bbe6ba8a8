//! Which lines of a block share what breaks a packet rule.

ghost use Rattle.std.specs.Prelude.{◌≡◌, ◌++◌, ◌&&◌, ◌==◌, not, IfOk, OnOk};
ghost use Rattle.c62_insn.specs.Insn.{unit_of};
ghost use Rattle.c62_explain_packets.specs.Sharing.{lines_sharing, shares, takes_on};

use c62_adopt_cut::Issue;
use c62_insn::{Insn, Reg, Unit};
use c62_rules::{CycleRule, Resource, taken_by};
use std::alloc::{AllocError, Global};

/// Whether an instruction on this unit takes the resource.
fn takes_on(resource: Resource, insn: Insn, unit: Option<Unit>) -> bool
    ensures { result ≡ takes_on resource insn unit }
{
    match unit {
        Some(unit) => is_taken(resource, insn, unit),
        None => false,
    }
}

fn is_taken(resource: Resource, insn: Insn, unit: Unit) -> bool
    ensures { result ≡ takes_on resource insn (Some unit) }
{
    taken_by(insn, unit)
        .as_slice()
        .iter()
        .any(|taken| taken.place() == resource.place())
}

/// Whether another line takes the resource in this one's cycle.
fn shares(resource: Resource, issue: &Issue, other: &Issue) -> bool
    ensures { result ≡ shares resource issue.now other.now }
{
    other.cycle == issue.cycle
        && other.line != issue.line
        && takes_on(resource, other.insn, other.insn.unit())
}

/// The lines of a block that take a resource in the cycle of this one, which isn't told with them.
///
/// # Errors
///
/// `AllocError` where memory ran out.
#[tactic(auto, unfolding(crate::specs::Sharing::lines_sharing))]
pub fn lines_sharing(
    alloc: Global,
    resource: Resource,
    issue: &Issue,
    issues: &[Issue],
) -> Result<Vec<u32>, AllocError>
    ensures { IfOk result (λ lines. lines.items ≡ lines_sharing resource issue.now issues.now) }
{
    let mut lines = Vec::new(alloc);
    for other in issues {
        if shares(resource, issue, other) {
            lines.push(other.line)?;
        }
    }
    Ok(lines)
}

/// How often an instruction takes a resource.
fn times(resource: Resource, other: &Issue) -> u32 {
    let mut count: u32 = 0;
    if let Some(unit) = other.insn.unit() {
        for taken in taken_by(other.insn, unit).as_slice() {
            count = count.saturating_add(u32::from(taken.place() == resource.place()));
        }
    }
    count
}

/// Whether the instructions of a cycle take more of the resource than there is.
fn is_overfull(resource: Resource, issue: &Issue, issues: &[Issue]) -> bool {
    let most = match resource {
        Resource::ReadsOf(_) => 4,
        _ => 1,
    };
    let mut count: u32 = 0;
    for other in issues {
        if other.cycle == issue.cycle {
            count = count.saturating_add(times(resource, other));
        }
    }
    count > most
}

/// What the instruction takes of a rule's resources, where the cycle has too little of it.
pub(crate) fn lacking(rule: CycleRule, issue: &Issue, issues: &[Issue]) -> Option<Resource> {
    let unit = issue.insn.unit()?;
    for resource in taken_by(issue.insn, unit).as_slice() {
        let resource = *resource;
        if CycleRule::at(resource.place()) == rule && is_overfull(resource, issue, issues) {
            return Some(resource);
        }
    }
    None
}

/// The cycle in which the instruction's write of a register lands, counted from the beginning of its block.
fn landing(issue: &Issue, reg: Reg) -> Option<u32> {
    for (written, delay) in issue.insn.writes().as_slice() {
        if written.is_same(reg) {
            return Some(issue.cycle.saturating_add(u32::from(*delay)));
        }
    }
    None
}

/// Another line whose write of a register lands together with one of this line, and the register.
pub(crate) fn landing_together(issue: &Issue, issues: &[Issue]) -> Option<(u32, Reg)> {
    for (reg, _) in issue.insn.writes().as_slice() {
        for other in issues {
            if other.line != issue.line && landing(other, *reg) == landing(issue, *reg) {
                return Some((other.line, *reg));
            }
        }
    }
    None
}
