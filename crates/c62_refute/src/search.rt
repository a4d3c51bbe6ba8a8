//! The search for a schedule of at most so many cycles.

ghost use Rattle.std.specs.Prelude.{◌≡◌, ◌<◌, ℕ, length, All, IfOk, MatchOption, ⊤, slice_set};
ghost use Rattle.c62_depend.specs.Plan.{insns_of};
ghost use Rattle.c62_refute.specs.declared.search.Search.TheVariants.{Refuted};
ghost use Rattle.c62_refute.specs.Window.{HoldNone, IsRefuted, HoldAll, IsShrunk};
ghost use Rattle.c62_refute.specs.Edge.{IsEdge};

use crate::shrink::{Demands, demands_of, shrink};
use crate::trial::tried;
use crate::window::Window;
use c62_depend::Plan;
use c62_sheet::Spot;
use std::alloc::{AllocError, Global};

/// How often a choice may hang on others at most.
const MOST_DEPTH: u8 = 255;

/// What a search came to.
#[derive(Drop)]
pub enum Search {
    /// No schedule takes so few cycles.
    Refuted,
    /// Where the instructions stand in one, by number. No contract says that it keeps the rules.
    Found(Vec<Spot>),
    /// Neither was found with so many choices.
    Open,
}

/// The windows of a block that is to end within so many cycles: each instruction's delay is over by then.
fn whole(alloc: Global, plan: &Plan, most: u16) -> Result<Vec<Window>, AllocError>
    ensures sized { IfOk result (λ windows. length windows.items ≡ length (insns_of plan.now)) }
    ensures all { IfOk result (λ windows. HoldAll (insns_of plan.now) most windows.items) }
{
    let mut windows = Vec::with_capacity(alloc, usize::from(plan.len()))?;
    for i in 0..plan.len() {
        windows.push(Window::within(most, plan.insn(i).delay()))?;
    }
    Ok(windows)
}

/// The instruction that has the fewest cycles left, but more than one, and of several the last.
fn narrowest(windows: &[Window]) -> Option<usize>
    ensures { MatchOption result ⊤ (λ i. i < length windows.now) }
{
    let mut best = None;
    let mut fewest = u16::MAX;
    let mut i = 0;
    for window in windows {
        let left = window.last.saturating_sub(window.first);
        if 0 < left && left <= fewest {
            fewest = left;
            best = Some(i);
        }
        i += 1;
    }
    best
}

/// The windows with another one for instruction `i`.
fn with_window(
    alloc: Global,
    windows: &[Window],
    i: usize,
    window: Window,
) -> Result<Vec<Window>, AllocError>
    requires { i < length windows.now }
    ensures { IfOk result (λ own. own.items ≡ slice_set windows.now i window) }
{
    let mut own = Vec::from_slice(alloc, windows)?;
    own[i] = window;
    Ok(own)
}

/// Smaller windows that hold the same schedules, or none where these hold none.
fn shrunk(
    alloc: Global,
    plan: &Plan,
    demands: &Demands,
    mut windows: Vec<Window>,
) -> Result<Option<Vec<Window>>, AllocError>
    requires edges { All (IsEdge (insns_of plan.now)) demands.now.edges.items }
    requires sized { length windows.items ≡ length (insns_of plan.now) }
    ensures { IfOk result (IsShrunk (insns_of plan.now) windows.items) }
{
    if shrink(alloc, plan, &mut windows, demands)? {
        Ok(Some(windows))
    } else {
        Ok(None)
    }
}

/// What a search comes to in which one of the choices is open: nothing is refuted by it.
fn unrefuted(search: Search) -> Search
    ensures { result ≡ Refuted → ⊥ }
{
    match search {
        Search::Refuted => Search::Open,
        Search::Found(spots) => Search::Found(spots),
        Search::Open => Search::Open,
    }
}

/// Searches in these windows, with so many choices left.
fn search_in(
    alloc: Global,
    plan: &Plan,
    demands: &Demands,
    windows: Vec<Window>,
    nodes: &mut u32,
    depth: u8,
) -> Result<Search, AllocError>
    requires edges { All (IsEdge (insns_of plan.now)) demands.now.edges.items }
    requires sized { length windows.items ≡ length (insns_of plan.now) }
    ensures { IfOk result (λ found. found ≡ Refuted → HoldNone (insns_of plan.now) windows.items) }
{
    let mut windows = windows;
    for _ in 0..u16::MAX {
        let Some(left) = shrunk(alloc, plan, demands, windows)? else {
            return Ok(Search::Refuted);
        };
        if let Some(spots) = tried(alloc, plan, &left, demands.most)? {
            return Ok(Search::Found(spots));
        }
        let Some(i) = narrowest(&left) else {
            return Ok(Search::Open);
        };
        if *nodes == 0 || depth == 0 {
            return Ok(Search::Open);
        }
        *nodes -= 1;
        let window = left[i];
        let fixed = with_window(alloc, &left, i, window.end())?;
        let found = search_in(alloc, plan, demands, fixed, nodes, depth - 1)?;
        let rest = with_window(alloc, &left, i, window.without_end())?;
        match found {
            Search::Refuted => windows = rest,
            Search::Found(spots) => return Ok(Search::Found(spots)),
            Search::Open => {
                let found = search_in(alloc, plan, demands, rest, nodes, depth - 1)?;
                return Ok(unrefuted(found));
            }
        }
    }
    Ok(Search::Open)
}

/// Searches for a schedule of at most so many cycles, by at most `nodes` choices, of which those that were made are taken
/// (`docs/SCHEDULING.md`, "Search"). `Refuted` is answered only where there is none: no cycles and units for the instructions
/// keep all distances and put no two on one unit or data path in a cycle, and end within so many.
///
/// # Errors
///
/// Where memory ran out.
pub fn search_for(
    alloc: Global,
    plan: &Plan,
    most: u16,
    nodes: &mut u32,
) -> Result<Search, AllocError>
    ensures { IfOk result (λ found. found ≡ Refuted → IsRefuted (insns_of plan.now) most) }
{
    let demands = demands_of(alloc, plan, most)?;
    let windows = whole(alloc, plan, most)?;
    search_in(alloc, plan, &demands, windows, nodes, MOST_DEPTH)
}
