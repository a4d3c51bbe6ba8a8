//! How many instructions are placed and ready, and how long what is placed takes.

ghost use Rattle.std.specs.Prelude.{◌≡◌, ◌↔◌, ◌<◌, ◌≤◌, length, IsTrue};
ghost use Rattle.c62_rules.specs.Length.{landing_end};
ghost use Rattle.c62_depend.specs.declared.limits.TheConstants.{ISSUE_CYCLES};
ghost use Rattle.c62_depend.specs.Plan.{insns_of};
ghost use Rattle.c62_sheet.specs.Lawful.{issue_at, IsLawful};
ghost use Rattle.c62_sheet.specs.Least.{IsReadyOn};
ghost use Rattle.c62_sheet.specs.Counts.{HasCount, IsPlacedOn, AreCounts, set_length};
ghost use Rattle.c62_sheet.specs.Ready.{AreReady};

use crate::entry::{Counts, Spot};
use crate::ready::ReadyLists;
use c62_depend::Plan;
use c62_insn::{Insn, Side};

/// Whether instruction `k` is a placed one of a side.
fn is_placed_on(plan: &Plan, spots: &[Option<Spot>], of: Side, k: u16) -> bool
    requires sized { length spots.now ≡ length (insns_of plan.now) }
    requires in_plan { k < length plan.now.insns }
    ensures { IsTrue result ↔ IsPlacedOn (insns_of plan.now) spots.now of k }
{
    plan.side(k) == of && spots[usize::from(k)].is_some()
}

/// How many instructions of a side are placed.
fn count_placed(plan: &Plan, spots: &[Option<Spot>], of: Side) -> u16
    requires { length spots.now ≡ length (insns_of plan.now) }
    ensures { HasCount (IsPlacedOn (insns_of plan.now) spots.now of) (length (insns_of plan.now)) result }
{
    let mut count = 0;
    for k in 0..plan.len() {
        count += u16::from(is_placed_on(plan, spots, of, k));
    }
    count
}

/// How many instructions of a side are ready: as many as are listed.
fn count_ready(plan: &Plan, spots: &[Option<Spot>], lists: &ReadyLists, of: Side) -> u16
    requires sized { length spots.now ≡ length (insns_of plan.now) }
    requires ready { AreReady (insns_of plan.now) spots.now lists.now }
    ensures { HasCount (IsReadyOn (insns_of plan.now) spots.now of) (length (insns_of plan.now)) result }
{
    prove!(usize::from(plan.len()) == spots.len());
    lists.of(of).len() as u16
}

/// How many instructions of each side are placed, and how many are ready.
pub(crate) fn counts(plan: &Plan, spots: &[Option<Spot>], lists: &ReadyLists) -> Counts
    requires sized { length spots.now ≡ length (insns_of plan.now) }
    requires ready { AreReady (insns_of plan.now) spots.now lists.now }
    ensures { AreCounts (insns_of plan.now) spots.now result }
{
    Counts {
        placed_a: count_placed(plan, spots, Side::A),
        placed_b: count_placed(plan, spots, Side::B),
        ready_a: count_ready(plan, spots, lists, Side::A),
        ready_b: count_ready(plan, spots, lists, Side::B),
    }
}

/// The cycle after the last landing of an instruction at a spot.
fn landing_end(insn: Insn, spot: Spot) -> u16
    requires { spot.cycle < ISSUE_CYCLES }
    ensures { result ≡ landing_end (issue_at insn spot) }
{
    spot.cycle + u16::from(insn.greatest_delay()) + 1
}

/// How many cycles what is placed takes: six from the issue of a branch, and else until the last landing.
pub(crate) fn length(plan: &Plan, spots: &[Option<Spot>]) -> u16
    requires { IsLawful (insns_of plan.now) spots.now }
    ensures { result ≡ set_length (insns_of plan.now) spots.now }
{
    let mut end = 0;
    for k in 0..plan.len() {
        let Some(spot) = spots[usize::from(k)] else {
            continue;
        };
        let insn = plan.insn(k);
        if insn.op().is_branch() {
            return spot.cycle + 6;
        }
        end = end.max(landing_end(insn, spot));
    }
    end
}
