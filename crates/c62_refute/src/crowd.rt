//! As many instructions wait for a room in some cycles as find room there.

ghost use Rattle.std.specs.Prelude.{◌≡◌, ◌↔◌, ◌<◌, ◌≤◌, length, IsTrue, IsFalse};
ghost use Rattle.c62_depend.specs.Plan.{insns_of};
ghost use Rattle.c62_sheet.specs.Counts.{HasCount};
ghost use Rattle.c62_refute.specs.Window.{HoldNone, KeepAll};
ghost use Rattle.c62_refute.specs.Crowd.{IsInside, room_in};

use crate::window::Window;
use c62_bound::{Kind, waits_for};
use c62_depend::Plan;
use c62_insn::Side;

/// Cycles of a room, from a first one to a last one.
#[derive(Clone, Copy)]
pub(crate) struct Stretch {
    pub(crate) kind: Kind,
    pub(crate) side: Side,
    pub(crate) first: u16,
    pub(crate) last: u16,
}

/// Whether instruction `i` waits for the room, and can be issued in these cycles alone.
fn is_inside(plan: &Plan, windows: &[Window], stretch: Stretch, i: u16) -> bool
    requires within { i < length plan.now.insns }
    requires sized { length windows.now ≡ length plan.now.insns }
    ensures { IsTrue result ↔ IsInside (insns_of plan.now) windows.now stretch i }
{
    let window = windows[usize::from(i)];
    stretch.first <= window.first
        && window.last <= stretch.last
        && waits_for(plan, stretch.kind, stretch.side, i)
}

/// How many instructions do.
fn count(plan: &Plan, windows: &[Window], stretch: Stretch) -> u32
    requires sized { length windows.now ≡ length plan.now.insns }
    ensures { HasCount (IsInside (insns_of plan.now) windows.now stretch) (length (insns_of plan.now)) result }
{
    let mut count = 0u32;
    for i in 0..plan.len() {
        count += u32::from(is_inside(plan, windows, stretch, i));
    }
    count
}

/// How many find room there.
fn room(stretch: Stretch) -> u32
    ensures { result ≡ room_in stretch }
{
    let cycles = u32::from(stretch.last.saturating_sub(stretch.first)) + 1;
    u32::from(stretch.kind.width()) * cycles
}

/// Has all others that wait for the room leave these cycles, where so many can be issued in these alone as find room.
/// Answers false where these are too many.
pub(crate) fn part(plan: &Plan, windows: &mut [Window], stretch: Stretch) -> bool
    requires sized { length windows.old ≡ length plan.now.insns }
    ensures sized { length windows.new ≡ length windows.old }
    ensures keeps { IsTrue result → KeepAll (insns_of plan.now) windows.old windows.new }
    ensures none { IsFalse result → HoldNone (insns_of plan.now) windows.old }
{
    let room = room(stretch);
    let inside = count(plan, windows, stretch);
    if inside > room {
        return false;
    }
    if inside == room {
        for i in 0..plan.len() {
            if waits_for(plan, stretch.kind, stretch.side, i)
                && !is_inside(plan, windows, stretch, i)
            {
                let window = windows[usize::from(i)];
                windows[usize::from(i)] = window.outside(stretch.first, stretch.last);
            }
        }
    }
    true
}
