//! Windows are made smaller, so that they still hold each schedule that they held.

ghost use Rattle.std.specs.Prelude.{◌≡◌, ◌<◌, length, All, IfOk, IsTrue, IsFalse};
ghost use Rattle.c62_depend.specs.Plan.{insns_of};
ghost use Rattle.c62_refute.specs.Window.{HoldNone, KeepAll};
ghost use Rattle.c62_refute.specs.Edge.{IsEdge};

use crate::crowd::{Stretch, part};
use crate::edge::{Edge, edges};
use crate::room::{Room, rooms};
use crate::window::Window;
use c62_depend::Plan;
use std::alloc::{AllocError, Global};

/// How often windows are made smaller one after the other at most.
const MOST_ROUNDS: u16 = 64;

/// What a block asks of its windows.
#[derive(Drop)]
pub(crate) struct Demands {
    /// In how many cycles it is to end.
    pub(crate) most: u16,
    pub(crate) edges: Vec<Edge>,
    pub(crate) rooms: Vec<Room>,
}

/// What a block that is to end in so many cycles asks of its windows.
pub(crate) fn demands_of(alloc: Global, plan: &Plan, most: u16) -> Result<Demands, AllocError>
    ensures { IfOk result (λ demands. All (IsEdge (insns_of plan.now)) demands.edges.items) }
{
    Ok(Demands {
        most,
        edges: edges(alloc, plan)?,
        rooms: rooms(alloc, plan)?,
    })
}

/// Keeps one dependence in both windows.
fn keep_edge(plan: &Plan, windows: &mut [Window], edge: Edge)
    requires edge { IsEdge (insns_of plan.now) edge }
    requires sized { length windows.old ≡ length plan.now.insns }
    ensures sized { length windows.new ≡ length windows.old }
    ensures keeps { KeepAll (insns_of plan.now) windows.old windows.new }
{
    let (from, to) = (usize::from(edge.from), usize::from(edge.link.number));
    let (earlier, later) = (windows[from], windows[to]);
    windows[from] = earlier.before(later, edge.link);
    windows[to] = later.behind(earlier, edge.link);
}

/// Keeps all dependences, from the first instructions on and from the last ones back.
fn keep_edges(plan: &Plan, windows: &mut [Window], edges: &[Edge])
    requires edges { All (IsEdge (insns_of plan.now)) edges.now }
    requires sized { length windows.old ≡ length plan.now.insns }
    ensures sized { length windows.new ≡ length windows.old }
    ensures keeps { KeepAll (insns_of plan.now) windows.old windows.new }
{
    for edge in edges {
        keep_edge(plan, windows, *edge);
    }
    for edge in edges.iter().rev() {
        keep_edge(plan, windows, *edge);
    }
}

/// Whether some window has no cycle left.
fn has_empty(plan: &Plan, windows: &[Window]) -> bool
    requires sized { length windows.now ≡ length plan.now.insns }
    ensures { IsTrue result → HoldNone (insns_of plan.now) windows.now }
{
    for window in windows {
        if window.is_empty() {
            return true;
        }
    }
    false
}

/// The windows of what waits for a room, those that end first before others, as pairs of their last and first cycles.
fn by_end(
    alloc: Global,
    windows: &[Window],
    numbers: &[u16],
) -> Result<Vec<(u16, u16)>, AllocError> {
    let mut ends = Vec::with_capacity(alloc, numbers.len())?;
    for number in numbers {
        if let Some(window) = windows.get(usize::from(*number)) {
            ends.push((window.last, window.first))?;
        }
    }
    ends.sort()?;
    Ok(ends)
}

/// Parts the windows of these cycles, where they seem to be crowded. Answers false where there are too many.
fn part_if(crowded: bool, plan: &Plan, windows: &mut [Window], stretch: Stretch) -> bool
    requires sized { length windows.old ≡ length plan.now.insns }
    ensures sized { length windows.new ≡ length windows.old }
    ensures keeps { IsTrue result → KeepAll (insns_of plan.now) windows.old windows.new }
    ensures none { IsFalse result → HoldNone (insns_of plan.now) windows.old }
{
    !crowded || part(plan, windows, stretch)
}

/// The first cycles of these windows, each once.
fn firsts(alloc: Global, ends: &[(u16, u16)]) -> Result<Vec<u16>, AllocError> {
    let mut firsts: Vec<u16> = Vec::with_capacity(alloc, ends.len())?;
    for (_, first) in ends {
        if !firsts.contains(first) {
            firsts.push(*first)?;
        }
    }
    Ok(firsts)
}

/// Parts the windows of a room where from this cycle on some are crowded. Answers false where there are too many.
fn part_from(
    plan: &Plan,
    windows: &mut [Window],
    room: &Room,
    ends: &[(u16, u16)],
    first: u16,
) -> bool
    requires sized { length windows.old ≡ length plan.now.insns }
    ensures sized { length windows.new ≡ length windows.old }
    ensures keeps { IsTrue result → KeepAll (insns_of plan.now) windows.old windows.new }
    ensures none { IsFalse result → HoldNone (insns_of plan.now) windows.old }
{
    let width = u32::from(room.kind.width());
    let mut inside = 0u32;
    for (last, begin) in ends {
        let counts = first <= *begin && *begin <= *last;
        inside = inside.saturating_add(u32::from(counts));
        let cycles = u32::from(last.saturating_sub(first)) + 1;
        let stretch = Stretch {
            kind: room.kind,
            side: room.side,
            first,
            last: *last,
        };
        if !part_if(counts && inside >= width * cycles, plan, windows, stretch) {
            return false;
        }
    }
    true
}

/// Parts the windows of a room wherever some are crowded. Answers false where there are too many.
fn part_room(
    alloc: Global,
    plan: &Plan,
    windows: &mut [Window],
    room: &Room,
) -> Result<bool, AllocError>
    requires sized { length windows.old ≡ length plan.now.insns }
    ensures sized { length windows.new ≡ length windows.old }
    ensures keeps { IfOk result (λ kept. IsTrue kept → KeepAll (insns_of plan.now) windows.old windows.new) }
    ensures none { IfOk result (λ kept. IsFalse kept → HoldNone (insns_of plan.now) windows.old) }
{
    let ends = by_end(alloc, windows, room.numbers.as_slice())?;
    for first in firsts(alloc, &ends)? {
        if !part_from(plan, windows, room, &ends, first) {
            return Ok(false);
        }
    }
    Ok(true)
}

/// Parts the windows of all rooms.
fn part_rooms(
    alloc: Global,
    plan: &Plan,
    windows: &mut [Window],
    rooms: &[Room],
) -> Result<bool, AllocError>
    requires sized { length windows.old ≡ length plan.now.insns }
    ensures sized { length windows.new ≡ length windows.old }
    ensures keeps { IfOk result (λ kept. IsTrue kept → KeepAll (insns_of plan.now) windows.old windows.new) }
    ensures none { IfOk result (λ kept. IsFalse kept → HoldNone (insns_of plan.now) windows.old) }
{
    for room in rooms {
        if !part_room(alloc, plan, windows, room)? {
            return Ok(false);
        }
    }
    Ok(true)
}

/// How many cycles the windows have in all.
fn cycles_in(windows: &[Window]) -> u32 {
    let mut cycles = 0u32;
    for window in windows {
        let own = u32::from(window.last.saturating_sub(window.first));
        cycles = cycles.saturating_add(own);
    }
    cycles
}

/// Makes windows smaller once by all dependences and all rooms. Answers false where they hold no schedule.
fn round(
    alloc: Global,
    plan: &Plan,
    windows: &mut [Window],
    demands: &Demands,
) -> Result<bool, AllocError>
    requires edges { All (IsEdge (insns_of plan.now)) demands.now.edges.items }
    requires sized { length windows.old ≡ length plan.now.insns }
    ensures sized { length windows.new ≡ length windows.old }
    ensures keeps { IfOk result (λ kept. IsTrue kept → KeepAll (insns_of plan.now) windows.old windows.new) }
    ensures none { IfOk result (λ kept. IsFalse kept → HoldNone (insns_of plan.now) windows.old) }
{
    keep_edges(plan, windows, demands.edges.as_slice());
    if has_empty(plan, windows) {
        return Ok(false);
    }
    part_rooms(alloc, plan, windows, demands.rooms.as_slice())
}

/// Makes windows smaller until nothing changes. They still hold each schedule that they held. Answers false where they hold
/// none.
///
/// # Errors
///
/// Where memory ran out.
pub(crate) fn shrink(
    alloc: Global,
    plan: &Plan,
    windows: &mut [Window],
    demands: &Demands,
) -> Result<bool, AllocError>
    requires edges { All (IsEdge (insns_of plan.now)) demands.now.edges.items }
    requires sized { length windows.old ≡ length plan.now.insns }
    ensures sized { length windows.new ≡ length windows.old }
    ensures keeps { IfOk result (λ kept. IsTrue kept → KeepAll (insns_of plan.now) windows.old windows.new) }
    ensures none { IfOk result (λ kept. IsFalse kept → HoldNone (insns_of plan.now) windows.old) }
{
    let mut before = cycles_in(windows);
    for _ in 0..MOST_ROUNDS {
        if !round(alloc, plan, windows, demands)? {
            return Ok(false);
        }
        let after = cycles_in(windows);
        if after == before {
            return Ok(true);
        }
        before = after;
    }
    Ok(true)
}
