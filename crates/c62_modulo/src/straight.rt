//! Straight instructions before a loop and behind it.

use crate::timed::Timed;
use c62_insn::Insn;
use c62_kernels::{Graph, OF_STRAIGHT, needs, straight_schedule};
use c62_pair::{RegSet, Uses, as_bound};
use c62_read::SerialInsn;
use std::alloc::{AllocError, Global};

/// The most cycles that an instruction makes a straight schedule longer.
const MOST_LONGER: u16 = 6;

/// All registers.
const ALL: RegSet = RegSet { bits: u32::MAX };

/// Straight instructions in the cycles of a schedule of their own, counted from 0. `None` where none is found.
///
/// # Errors
///
/// Where memory ran out.
pub(crate) fn straight(
    alloc: Global,
    entries: &[SerialInsn],
) -> Result<Option<Vec<Timed>>, AllocError> {
    let graph = Graph::new(alloc, entries, &[], RegSet::new(), OF_STRAIGHT)?;
    let cycles = graph.len().saturating_add(1).saturating_mul(MOST_LONGER);
    let Some(schedule) = straight_schedule(alloc, &graph, cycles)? else {
        return Ok(None);
    };
    let mut timed = Vec::with_capacity(alloc, entries.len())?;
    for number in 0..graph.len() {
        match Timed::of(&graph, &schedule, number) {
            Some(own) => timed.push(own)?,
            None => return Ok(None),
        }
    }
    Ok(Some(timed))
}

/// How many cycles one instruction comes behind another, whatever stands between. `None` where they may come in any order.
fn apart(first: Insn, second: Insn) -> Option<i32> {
    as_bound(needs(&Uses::new(first), &Uses::new(second), ALL, false))
}

/// How many cycles later than given the second ones are to be issued to keep their distances behind the first ones, and no fewer than
/// these.
pub(crate) fn delay_behind(firsts: &[Timed], seconds: &[Timed], least: i32) -> i32 {
    let mut delay = least;
    for first in firsts {
        for second in seconds {
            if let Some(cycles) = apart(first.entry.insn, second.entry.insn) {
                let own = first
                    .cycle
                    .saturating_add(cycles)
                    .saturating_sub(second.cycle);
                delay = delay.max(own);
            }
        }
    }
    delay
}
