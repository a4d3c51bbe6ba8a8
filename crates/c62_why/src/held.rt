//! The dependence that keeps an instruction in its cycle.

ghost use Rattle.std.specs.Prelude.{◌≡◌, ◌<◌, length, Some, MatchOption};
ghost use Rattle.c62_depend.specs.Latency.{latency};
ghost use Rattle.c62_depend.specs.Plan.{insns_of};
ghost use Rattle.c62_why.specs.Held.{gap_of, IsHeld, IsHeldBehind, IsFirstHeld, IsFree};

use c62_depend::Plan;
use c62_packet::Placed;
use c62_reason::{Reason, reason_for};

/// A dependence that an instruction would break a cycle earlier.
#[derive(Clone, Copy, PartialEq, Eq, Debug)]
pub struct Held {
    /// The line of the instruction on which it depends.
    pub after: u32,
    /// How many cycles behind that one it must come at least.
    pub needs: i32,
    /// Why it must.
    pub reason: Reason,
}

/// By how many cycles `second` comes behind `first`.
fn gap(first: &Placed, second: &Placed) -> i32
    ensures { result ≡ gap_of first.now second.now }
{
    i32::from(second.cycle) - i32::from(first.cycle)
}

/// The dependence of instruction `j` on instruction `i`, where it would be broken a cycle earlier.
fn held_behind(plan: &Plan, placed: &[Placed], i: u16, j: u16) -> Option<Held>
    requires order { i < j }
    requires within { j < length plan.now.insns }
    requires placed { length placed.now ≡ length plan.now.insns }
    ensures { MatchOption result (IsFree (insns_of plan.now) placed.now i j) (IsHeldBehind (insns_of plan.now) placed.now i j) }
{
    let _all = plan.len();
    let needs = plan.latency(i, j)?;
    let first = &placed[usize::from(i)];
    if needs < gap(first, &placed[usize::from(j)]) {
        return None;
    }
    Some(Held {
        after: first.line,
        needs,
        reason: reason_for(plan, i, j, needs),
    })
}

/// The first dependence that instruction `j` would break a cycle earlier, by the number of that on which it depends.
pub(crate) fn first_held(plan: &Plan, placed: &[Placed], j: u16) -> Option<Held>
    requires within { j < length plan.now.insns }
    requires placed { length placed.now ≡ length plan.now.insns }
    ensures { IsFirstHeld (insns_of plan.now) placed.now j result }
{
    let _all = plan.len();
    for i in 0..j {
        if let Some(held) = held_behind(plan, placed, i, j) {
            return Some(held);
        }
    }
    None
}
