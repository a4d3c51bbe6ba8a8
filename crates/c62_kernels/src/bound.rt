//! How few cycles may lie between two passes of a kernel: by what the tasks take, and by dependences in a circle.

ghost use Rattle.std.specs.Prelude.{◌≤◌, IfOk, IfSome};

use crate::graph::{Graph, Way};
use crate::task::Task;
use c62_insn::{Side, Unit};
use std::alloc::{AllocError, Global};

/// The most operands of a cycle that read one register.
const MOST_READS: u16 = 4;

/// The least number that holds so many, some to each.
fn shared(many: u16, each: u16) -> u16 {
    if each == 0 { 0 } else { many.div_ceil(each) }
}

/// Whether all units that a task may stand on are of a set, which has a bit for each.
fn is_within(task: &Task, set: u8) -> bool {
    for unit in Unit::ALL {
        let inside = set.checked_shr(u32::from(unit.index())).unwrap_or(0) % 2 == 1;
        if !inside
            && task
                .choices
                .get(usize::from(unit.index()))
                .copied()
                .flatten()
                .is_some()
        {
            return false;
        }
    }
    true
}

/// How many cycles a set of units is taken at least.
fn by_set(tasks: &[Task], set: u8) -> u16 {
    let mut many = 0u16;
    for task in tasks {
        many = many.saturating_add(u16::from(is_within(task, set)));
    }
    shared(many, u16::try_from(set.count_ones()).unwrap_or(0))
}

/// How many cycles a cross path and a data path are taken.
fn by_paths(tasks: &[Task], side: Side) -> u16 {
    let mut crossing = 0u16;
    let mut accesses = 0u16;
    for task in tasks {
        let operands = task.entry.insn.operands();
        let crosses = operands.side() == Some(side) && operands.crosses_to(side);
        crossing = crossing.saturating_add(u16::from(crosses));
        accesses = accesses.saturating_add(u16::from(task.entry.insn.data_path() == Some(side)));
    }
    crossing.max(accesses)
}

/// How many cycles the register of an index is read at least.
fn by_reads(tasks: &[Task], index: u8) -> u16 {
    let mut many = 0u16;
    for task in tasks {
        for reg in task.entry.insn.reads() {
            many = many.saturating_add(u16::from(reg.index() == index));
        }
    }
    shared(many, MOST_READS)
}

/// The least interval by what the tasks take of a cycle: of no set of units, no path and no register may they take more in a pass than
/// its cycles have.
pub(crate) fn by_resources(tasks: &[Task]) -> u16 {
    let mut least = by_paths(tasks, Side::A).max(by_paths(tasks, Side::B));
    for set in 1..=u8::MAX {
        least = least.max(by_set(tasks, set));
    }
    for index in 0..32 {
        least = least.max(by_reads(tasks, index));
    }
    least
}

/// The greatest sum of latencies from any task to each on this way, where passes are so far apart. `None` where the sum round a circle
/// is above 0: then there is no schedule.
///
/// # Errors
///
/// Where memory ran out.
pub(crate) fn longest(
    alloc: Global,
    graph: &Graph,
    interval: u16,
    way: Way,
) -> Result<Option<Vec<i32>>, AllocError> {
    let mut sums = vec![in alloc; 0i32; graph.tasks.len()]?;
    for _ in 0..=graph.len() {
        if !lengthen(graph, interval, way, &mut sums) {
            return Ok(Some(sums));
        }
    }
    Ok(None)
}

/// Lengthens the sums by one dependence each. Answers whether some grew.
fn lengthen(graph: &Graph, interval: u16, way: Way, sums: &mut [i32]) -> bool {
    let mut grew = false;
    for number in 0..graph.len() {
        let mut most = sum_at(sums, number);
        for link in graph.before(way, number) {
            most = most.max(sum_at(sums, link.number).saturating_add(link.within(interval)));
        }
        if let Some(sum) = sums.get_mut(usize::from(number)) {
            grew = grew || *sum < most;
            *sum = most;
        }
    }
    grew
}

fn sum_at(sums: &[i32], number: u16) -> i32 {
    sums.get(usize::from(number)).copied().unwrap_or(0)
}

/// The least interval, of those to a greatest one, that dependences allow.
pub(crate) fn by_dependences(
    alloc: Global,
    graph: &Graph,
    most: u16,
) -> Result<Option<u16>, AllocError>
    ensures { IfOk result (λ least. IfSome least (λ interval. (1 ≤ interval) × (interval ≤ most))) }
{
    for interval in 1..=most {
        if longest(alloc, graph, interval, Way::Forward)?.is_some() {
            return Ok(Some(interval));
        }
    }
    Ok(None)
}

/// The least interval that is found to be allowed by resources and dependences, from 1 to a greatest one. `None` where none is. That no
/// schedule of the tasks has a shorter one isn't said.
///
/// # Errors
///
/// Where memory ran out.
pub fn least_interval(alloc: Global, graph: &Graph, most: u16) -> Result<Option<u16>, AllocError>
    ensures { IfOk result (λ least. IfSome least (λ interval. (1 ≤ interval) × (interval ≤ most))) }
{
    let least = by_resources(&graph.tasks);
    match by_dependences(alloc, graph, most)? {
        Some(interval) if least <= most => Ok(Some(interval.max(least))),
        _ => Ok(None),
    }
}
