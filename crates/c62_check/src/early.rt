//! The instructions of a block that its packets issue too early.

ghost use Rattle.std.specs.Prelude.{◌≡◌, ℕ, ◌<◌, length, IfOk, MatchOption};
ghost use Rattle.c62_depend.specs.Plan.{insns_of};
ghost use Rattle.std.specs.Bool.{OnTrue};
ghost use Rattle.c62_check.specs.Early.{gap_of, Keeps, KeepsAll, IsKept, KeepsNeeds, IsEarlyBehind, IsEarlyAt, AreEarly};

use c62_depend::{Link, Plan};
use c62_packet::Placed;
use c62_reason::{Reason, reason_for};
use std::alloc::{AllocError, Global};

/// An instruction that comes too early behind another of its block.
#[derive(Clone, Copy, PartialEq, Eq, Debug)]
pub struct Early {
    /// Its number in the block, from 0.
    pub number: u8,
    /// Its line in the listing.
    pub line: u32,
    /// The line of the other there.
    pub after: u32,
    /// How many cycles behind the other it must come at least.
    pub needs: i32,
    /// How many it comes behind it: fewer than 0 where it comes before.
    pub has: i32,
    /// Why it must.
    pub reason: Reason,
}

/// By how many cycles `second` comes behind `first`.
fn gap(first: &Placed, second: &Placed) -> i32
    ensures { result ≡ gap_of first.now second.now }
{
    i32::from(second.cycle) - i32::from(first.cycle)
}

/// What is told of instruction `number`, where it comes too early behind instruction `other`, which stands before it.
fn early_behind(plan: &Plan, placed: &[Placed], other: u16, number: u16) -> Option<Early>
    requires before { other < number }
    requires within { number < length plan.now.insns }
    requires placed { length placed.now ≡ length plan.now.insns }
    ensures { MatchOption result (Keeps (insns_of plan.now) placed.now other number)
        (λ early. (early.number ≡ number) × IsEarlyBehind (insns_of plan.now) placed.now other early) }
{
    let _all = plan.len();
    let Some(needs) = plan.latency(other, number) else {
        return None;
    };
    let first = &placed[usize::from(other)];
    let second = &placed[usize::from(number)];
    let has = gap(first, second);
    if needs <= has {
        return None;
    }
    Some(Early {
        number: number as u8,
        line: second.line,
        after: first.line,
        needs,
        has,
        reason: reason_for(plan, other, number, needs),
    })
}

/// What is told of instruction `number`, where it comes too early: of the first that it comes too early behind.
fn early_at(plan: &Plan, placed: &[Placed], number: u16) -> Option<Early>
    requires within { number < length plan.now.insns }
    requires placed { length placed.now ≡ length plan.now.insns }
    ensures { IsEarlyAt (insns_of plan.now) placed.now number result }
{
    for other in 0..number {
        if let Some(early) = early_behind(plan, placed, other, number) {
            return Some(early);
        }
    }
    None
}

/// Whether instruction `number` comes late enough behind the other end of a dependence.
fn is_kept(placed: &[Placed], number: u16, link: Link) -> bool
    requires first { link.number < length placed.now }
    requires second { number < length placed.now }
    ensures { OnTrue result (IsKept placed.now link.number number link.latency) }
{
    let first = &placed[usize::from(link.number)];
    let second = &placed[usize::from(number)];
    i32::from(link.latency) <= gap(first, second)
}

/// Whether instruction `number` comes late enough behind all that it depends on directly.
fn keeps_needs(plan: &Plan, placed: &[Placed], number: u16) -> bool
    requires within { number < length plan.now.insns }
    requires placed { length placed.now ≡ length plan.now.insns }
    ensures { OnTrue result (KeepsNeeds (insns_of plan.now) placed.now number) }
{
    let needs = plan.needs(number);
    for link in needs {
        if !is_kept(placed, number, *link) {
            return false;
        }
    }
    true
}

/// Whether each instruction comes late enough behind all that it depends on directly, and so behind all that it depends on.
fn keep_all(plan: &Plan, placed: &[Placed]) -> bool
    requires { length placed.now ≡ length plan.now.insns }
    ensures { OnTrue result ((j : ℕ) → KeepsAll (insns_of plan.now) placed.now j) }
{
    for number in 0..plan.len() {
        if !keeps_needs(plan, placed, number) {
            return false;
        }
    }
    true
}

/// All instructions of a block that come too early, where they are placed so, given in the order of the block.
///
/// # Errors
///
/// Where memory ran out.
pub fn all_early(alloc: Global, plan: &Plan, placed: &[Placed]) -> Result<Vec<Early>, AllocError>
    requires { length placed.now ≡ length plan.now.insns }
    ensures { IfOk result (λ early. AreEarly (insns_of plan.now) placed.now early.items) }
{
    let mut all = Vec::new(alloc);
    if keep_all(plan, placed) {
        return Ok(all);
    }
    for number in 0..plan.len() {
        if let Some(early) = early_at(plan, placed, number) {
            all.push(early)?;
        }
    }
    Ok(all)
}
