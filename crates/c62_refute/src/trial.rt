//! Schedules that are tried in windows.

use crate::window::Window;
use c62_depend::Plan;
use c62_sheet::{Spot, are_lawful};
use c62_tries::{Order, Way, listed, spots_in};
use std::alloc::{AllocError, Global};

/// The order in which a list places instructions in their windows, of a block that ends in so many cycles: from the first
/// cycle on first those whose windows end first, and from the last cycle back first those whose windows begin last.
fn order_in(alloc: Global, windows: &[Window], most: u16, way: Way) -> Result<Order, AllocError> {
    let mut cycles = Vec::with_capacity(alloc, windows.len())?;
    let mut least = Vec::with_capacity(alloc, windows.len())?;
    for window in windows {
        let (cycle, begin) = match way {
            Way::Forward => (window.last, window.first),
            Way::Backward => (
                window.first,
                most.saturating_sub(1).saturating_sub(window.last),
            ),
        };
        cycles.push(cycle)?;
        least.push(begin)?;
    }
    let mut order = Order::by_cycle(alloc, &cycles, way)?;
    order.least = least;
    Ok(order)
}

/// Whether all instructions are over within so many cycles.
fn end_within(plan: &Plan, cycles: &[u16], most: u16) -> bool {
    for i in 0..plan.len() {
        let delay = u16::from(plan.insn(i).delay());
        let cycle = cycles.get(usize::from(i)).copied().unwrap_or(0);
        if most <= cycle.saturating_add(delay) {
            return false;
        }
    }
    true
}

/// A schedule of at most so many cycles, where a list finds one in these windows that keeps all rules.
fn found_by(
    alloc: Global,
    plan: &Plan,
    windows: &[Window],
    most: u16,
    way: Way,
) -> Result<Option<Vec<Spot>>, AllocError> {
    let order = order_in(alloc, windows, most, way)?;
    let cycles = listed(alloc, plan, &order)?;
    if !end_within(plan, &cycles, most) {
        return Ok(None);
    }
    let spots = spots_in(alloc, plan, &cycles)?;
    if are_lawful(plan, &spots) {
        Ok(Some(spots))
    } else {
        Ok(None)
    }
}

/// A schedule of at most so many cycles, where a list from either end finds one in these windows that keeps all rules.
pub(crate) fn tried(
    alloc: Global,
    plan: &Plan,
    windows: &[Window],
    most: u16,
) -> Result<Option<Vec<Spot>>, AllocError> {
    match found_by(alloc, plan, windows, most, Way::Backward)? {
        Some(spots) => Ok(Some(spots)),
        None => found_by(alloc, plan, windows, most, Way::Forward),
    }
}
