//! Instructions with their cycles, counted from the kernel.

use c62_insn::Unit;
use c62_kernels::{Graph, Modulo};
use c62_packet::Placed;
use c62_read::SerialInsn;
use std::alloc::{AllocError, Global};

/// An instruction on a unit in a cycle, counted from the one in which the kernel is begun first; in the epilog from the one in which that
/// is begun.
#[derive(Clone, Copy)]
pub(crate) struct Timed {
    pub entry: SerialInsn,
    pub unit: Unit,
    pub cycle: i32,
}

impl Timed {
    /// A task in its first iteration, which is begun in cycle 0.
    pub(crate) fn of(graph: &Graph, schedule: &Modulo, number: u16) -> Option<Timed> {
        let task = graph.tasks.get(usize::from(number))?;
        let passes = i32::from(schedule.stage(number)).saturating_mul(i32::from(schedule.interval));
        Some(Timed {
            entry: task.entry,
            unit: schedule.unit(number)?,
            cycle: passes.saturating_add(i32::from(schedule.row(number))),
        })
    }

    /// The same so many cycles later.
    pub(crate) fn later(self, cycles: i32) -> Timed {
        Timed {
            cycle: self.cycle.saturating_add(cycles),
            ..self
        }
    }

    /// It in a text whose kernel is begun in this cycle. `None` where that is no cycle, or it may not stand on its unit.
    pub(crate) fn placed(self, kernel: i32) -> Option<Placed> {
        let cycle = u16::try_from(self.cycle.saturating_add(kernel)).ok()?;
        if !self.entry.insn.may_stand(self.unit) {
            return None;
        }
        Some(Placed {
            insn: self.entry.insn.on_unit(self.unit),
            line: self.entry.line,
            cycle,
            unit: self.unit,
        })
    }
}

/// The same so many cycles later.
///
/// # Errors
///
/// Where memory ran out.
pub(crate) fn all_later(
    alloc: Global,
    timed: &[Timed],
    cycles: i32,
) -> Result<Vec<Timed>, AllocError> {
    timed.iter().map(|each| each.later(cycles)).collect(alloc)
}

/// All of these in a text whose kernel is begun in this cycle.
///
/// # Errors
///
/// Where memory ran out.
pub(crate) fn all_placed(
    alloc: Global,
    timed: &[Timed],
    kernel: i32,
) -> Result<Option<Vec<Placed>>, AllocError> {
    let mut all = Vec::with_capacity(alloc, timed.len())?;
    for each in timed {
        match each.placed(kernel) {
            Some(placed) => all.push(placed)?,
            None => return Ok(None),
        }
    }
    Ok(Some(all))
}

/// The first of these cycles, and no later than this one.
pub(crate) fn first_cycle(timed: &[Timed], most: i32) -> i32 {
    let mut first = most;
    for each in timed {
        first = first.min(each.cycle);
    }
    first
}

/// The cycle behind the last in which one is issued, and no earlier than this one.
pub(crate) fn issue_end(timed: &[Timed], least: i32) -> i32 {
    let mut end = least;
    for each in timed {
        end = end.max(each.cycle.saturating_add(1));
    }
    end
}

/// The cycle behind the last in which something lands, and no earlier than this one.
pub(crate) fn landing_end(timed: &[Timed], least: i32) -> i32 {
    let mut end = least;
    for each in timed {
        let delay = i32::from(each.entry.insn.greatest_delay());
        end = end.max(each.cycle.saturating_add(delay).saturating_add(1));
    }
    end
}
