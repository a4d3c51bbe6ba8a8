//! The first cycle that the dependences of an instruction allow.

ghost use Rattle.std.specs.Prelude.{◌≡◌, ℕ, ◌<◌, ◌≤◌, ℤ, pos, negsuc, ◌≤ℤ◌, ◌+ℤ◌, length, IfSome};
ghost use Rattle.c62_depend.specs.Latency.{latency};
ghost use Rattle.c62_depend.specs.declared.limits.TheConstants.{ISSUE_CYCLES};
ghost use Rattle.c62_depend.specs.Plan.{insns_of, IsPlan};
ghost use Rattle.c62_sheet.specs.Lawful.{IsLawful};
ghost use Rattle.c62_sheet.specs.Least.{IsReady, IsEarly};
ghost use Rattle.c62_sheet.specs.Early.{IsPlacedEarly, IsBoundBy, IsDirectEarly, IsFirstBehind};

use crate::entry::Spot;
use c62_depend::{Link, Plan};

/// The first cycle in which the latency of a dependence is over, where its other end stands in a cycle.
pub(crate) fn first_after(cycle: u16, link: Link) -> u16
    requires early { cycle < ISSUE_CYCLES }
    requires above { negsuc 4 ≤ℤ link.latency }
    requires below { link.latency ≤ℤ pos 5 }
    ensures after { (pos cycle +ℤ link.latency) ≤ℤ pos result }
    ensures least { (other : ℕ) → (pos cycle +ℤ link.latency) ≤ℤ pos other → result ≤ other }
{
    let first = i32::from(cycle) + i32::from(link.latency);
    if first < 0 { 0 } else { first as u16 }
}

/// The first cycle in which the latency from another instruction is over: 0 where that is not placed.
fn bound_by(spots: &[Option<Spot>], link: Link) -> u16
    requires within { link.number < length spots.now }
    requires early { IsPlacedEarly spots.now link.number }
    requires above { negsuc 4 ≤ℤ link.latency }
    requires below { link.latency ≤ℤ pos 5 }
    ensures { IsBoundBy spots.now link result }
{
    match spots[usize::from(link.number)] {
        None => 0,
        Some(spot) => first_after(spot.cycle, link),
    }
}

/// Does nothing: where it is called, it is known what holds of every plan.
fn known_of(plan: &Plan)
    ensures { IsPlan (insns_of plan.now) }
{
    plan.len();
}

/// The first cycle in which the latencies of all placed instructions that instruction `i` depends on directly are over.
pub(crate) fn direct_early(plan: &Plan, spots: &[Option<Spot>], i: u16) -> u16
    requires lawful { IsLawful (insns_of plan.now) spots.now }
    requires in_plan { i < length plan.now.insns }
    ensures { IsDirectEarly (insns_of plan.now) spots.now i result }
{
    known_of(plan);
    let needs = plan.needs(i);
    let mut cycle = 0u16;
    for link in needs {
        cycle = cycle.max(bound_by(spots, *link));
    }
    cycle
}

/// The first cycle in which a ready instruction keeps the bounds to all that it depends on.
pub(crate) fn ready_early(plan: &Plan, spots: &[Option<Spot>], i: u16) -> u16
    requires lawful { IsLawful (insns_of plan.now) spots.now }
    requires in_plan { i < length plan.now.insns }
    requires ready { IsReady (insns_of plan.now) spots.now i }
    ensures { IsEarly (insns_of plan.now) spots.now i result }
{
    direct_early(plan, spots, i)
}

/// The first cycle in which a latency is over, where its other end stands in a cycle.
fn first_from(cycle: u16, latency: i32) -> u16
    requires early { cycle < ISSUE_CYCLES }
    requires above { negsuc 4 ≤ℤ latency }
    requires below { latency ≤ℤ pos 5 }
    ensures after { (pos cycle +ℤ latency) ≤ℤ pos result }
    ensures least { (other : ℕ) → (pos cycle +ℤ latency) ≤ℤ pos other → result ≤ other }
{
    let first = i32::from(cycle) + latency;
    if first < 0 { 0 } else { first as u16 }
}

/// The first cycle in which a latency from instruction `h` is over: 0 where there is none, or `h` is not placed.
fn first_behind(spots: &[Option<Spot>], h: u16, latency: Option<i32>) -> u16
    requires within { h < length spots.now }
    requires early { IsPlacedEarly spots.now h }
    requires small { IfSome latency (λ l. (negsuc 4 ≤ℤ l) × (l ≤ℤ pos 5)) }
    ensures { IsFirstBehind spots.now h latency result }
{
    let Some(latency) = latency else { return 0 };
    match spots[usize::from(h)] {
        None => 0,
        Some(spot) => first_from(spot.cycle, latency),
    }
}

/// The first cycle in which the latency from instruction `h` to instruction `i` is over.
fn bound_from(plan: &Plan, spots: &[Option<Spot>], h: u16, i: u16) -> u16
    requires lawful { IsLawful (insns_of plan.now) spots.now }
    requires first { h < length plan.now.insns }
    requires second { i < length plan.now.insns }
    ensures { IsFirstBehind spots.now h (latency (insns_of plan.now) h i) result }
{
    known_of(plan);
    first_behind(spots, h, plan.latency(h, i))
}

/// The first cycle in which instruction `i` keeps the bounds to all placed ones that it depends on, whether or not others
/// that it depends on are missing.
pub(crate) fn early(plan: &Plan, spots: &[Option<Spot>], i: u16) -> u16
    requires lawful { IsLawful (insns_of plan.now) spots.now }
    requires in_plan { i < length plan.now.insns }
    ensures { IsEarly (insns_of plan.now) spots.now i result }
{
    let mut first = 0u16;
    for h in 0..i {
        first = first.max(bound_from(plan, spots, h, i));
    }
    first
}
