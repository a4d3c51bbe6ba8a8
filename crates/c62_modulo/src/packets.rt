//! The packets of a loop by a modulo schedule, and what stands where in them.

use crate::control::{Clock, Counter, Counting};
use crate::layout::rows_between;
use crate::straight::delay_behind;
use crate::timed::{Timed, all_later, all_placed, first_cycle, issue_end, landing_end};
use c62_kernels::{Graph, Modulo};
use c62_loop_match::{Control, Pipelined, Schedule, Stage};
use c62_packet::Placed;
use c62_rows::Rows;
use std::alloc::{AllocError, Global};

/// The instances of an instruction of the loop.
#[derive(Drop)]
struct Instances {
    early: Vec<Timed>,
    kernel: Timed,
    late: Vec<Timed>,
}

/// All that the packets hold, with cycles.
#[derive(Drop)]
struct Draft {
    before: Vec<Timed>,
    work: Vec<Instances>,
    behind: Vec<Timed>,
    counting: Counting,
}

/// Packets of a loop, and what stands where in them.
#[derive(Drop)]
pub(crate) struct Packets {
    pub pipelined: Pipelined,
    pub schedule: Schedule,
    pub control: Control,
}

/// The straight instructions around a loop, each part in the cycles of a schedule of its own.
#[derive(Drop)]
pub(crate) struct Straights {
    pub before: Vec<Timed>,
    pub behind: Vec<Timed>,
}

/// A task in so many passes, of which the first is begun in this cycle.
fn in_passes(
    alloc: Global,
    timed: Timed,
    first: i32,
    passes: i32,
    interval: i32,
) -> Result<Vec<Timed>, AllocError> {
    let mut all = Vec::new(alloc);
    for pass in 0..passes {
        all.push(timed.later(first.saturating_add(interval.saturating_mul(pass))))?;
    }
    Ok(all)
}

/// The instances of a task: in the prolog those of the iterations that are begun there, but for the last.
fn instances_of(
    alloc: Global,
    graph: &Graph,
    modulo: &Modulo,
    number: u16,
) -> Result<Option<Instances>, AllocError> {
    let (Some(task), Some(unit)) = (graph.tasks.get(usize::from(number)), modulo.unit(number))
    else {
        return Ok(None);
    };
    let kernel = Timed {
        entry: task.entry,
        unit,
        cycle: i32::from(modulo.row(number)),
    };
    let interval = i32::from(modulo.interval);
    let late = i32::from(modulo.stage(number));
    let early = i32::from(modulo.most()).saturating_sub(late);
    let first = 0i32.saturating_sub(interval.saturating_mul(early));
    Ok(Some(Instances {
        early: in_passes(alloc, kernel, first, early, interval)?,
        kernel,
        late: in_passes(alloc, kernel, 0, late, interval)?,
    }))
}

/// The first instance of each instruction.
fn first_ones(alloc: Global, work: &[Instances]) -> Result<Vec<Timed>, AllocError> {
    let mut all = Vec::with_capacity(alloc, work.len())?;
    for each in work {
        all.push(match each.early.first() {
            Some(first) => *first,
            None => each.kernel,
        })?;
    }
    Ok(all)
}

/// The last instance of each, counted from the epilog.
fn last_ones(alloc: Global, work: &[Instances], interval: i32) -> Result<Vec<Timed>, AllocError> {
    let mut all = Vec::with_capacity(alloc, work.len())?;
    for each in work {
        all.push(match each.late.last() {
            Some(last) => *last,
            None => each.kernel.later(0i32.saturating_sub(interval)),
        })?;
    }
    Ok(all)
}

fn add_all(all: &mut Vec<Timed>, more: &[Timed]) -> Result<(), AllocError> {
    all.extend_from_slice(more)
}

impl Draft {
    /// What stands in the prolog.
    fn prolog(&self, alloc: Global) -> Result<Vec<Timed>, AllocError> {
        let mut all = Vec::from_slice(alloc, &self.before)?;
        for each in &self.work {
            add_all(&mut all, &each.early)?;
        }
        add_all(&mut all, &self.counting.early)?;
        Ok(all)
    }

    /// What stands in the kernel.
    fn kernel(&self, alloc: Global) -> Result<Vec<Timed>, AllocError> {
        let mut all = Vec::from_slice(alloc, &self.counting.kernel)?;
        for each in &self.work {
            all.push(each.kernel)?;
        }
        Ok(all)
    }

    /// What stands in the epilog.
    fn epilog(&self, alloc: Global) -> Result<Vec<Timed>, AllocError> {
        let mut all = Vec::from_slice(alloc, &self.behind)?;
        for each in &self.work {
            add_all(&mut all, &each.late)?;
        }
        Ok(all)
    }

    /// Moves what stands before the loop before everything else: what it leaves in the counter has landed before that is read.
    fn put_before(&mut self, alloc: Global, before: &[Timed]) -> Result<(), AllocError> {
        let begin = first_cycle(&self.prolog(alloc)?, 0);
        let least = issue_end(before, 0).saturating_sub(begin);
        let delay = delay_behind(before, &first_ones(alloc, &self.work)?, least);
        let delay = delay_behind(before, &self.counting.early, delay);
        let delay = delay_behind(before, &self.counting.kernel, delay);
        self.before = all_later(alloc, before, 0i32.saturating_sub(delay))?;
        Ok(())
    }

    /// Moves what stands behind it behind everything else.
    fn put_behind(
        &mut self,
        alloc: Global,
        behind: &[Timed],
        interval: i32,
    ) -> Result<(), AllocError> {
        let least = issue_end(&self.epilog(alloc)?, 0);
        let lasts = last_ones(alloc, &self.work, interval)?;
        let delay = delay_behind(&lasts, behind, least);
        let before = all_later(alloc, &self.before, 0i32.saturating_sub(interval))?;
        let delay = delay_behind(&before, behind, delay);
        self.behind = all_later(alloc, behind, delay)?;
        Ok(())
    }

    /// The cycle of the epilog in which all has landed behind one pass.
    fn end(&self, alloc: Global, interval: i32) -> Result<i32, AllocError> {
        let earlier = 0i32.saturating_sub(interval);
        let prolog = all_later(alloc, &self.prolog(alloc)?, earlier)?;
        let kernel = all_later(alloc, &self.kernel(alloc)?, earlier)?;
        let end = landing_end(&prolog, 0);
        let end = landing_end(&kernel, end);
        Ok(landing_end(&self.epilog(alloc)?, end))
    }
}

/// Each instruction in a text whose kernel is begun in this cycle. `None` where a cycle is too great.
fn stages_at(
    alloc: Global,
    work: &[Instances],
    kernel: i32,
) -> Result<Option<Vec<Stage>>, AllocError> {
    let mut stages = Vec::with_capacity(alloc, work.len())?;
    for each in work {
        let Some(early) = all_placed(alloc, &each.early, kernel)? else {
            return Ok(None);
        };
        let Some(late) = all_placed(alloc, &each.late, kernel)? else {
            return Ok(None);
        };
        let Some(own) = each.kernel.placed(kernel) else {
            return Ok(None);
        };
        stages.push(Stage {
            early,
            kernel: own,
            late,
        })?;
    }
    Ok(Some(stages))
}

fn count_of(rows: usize) -> u32 {
    u32::try_from(rows).unwrap_or(u32::MAX)
}

/// The cycles of a text of packets.
#[derive(Clone, Copy)]
struct Extent {
    /// That in which the kernel is begun.
    begin: u16,
    /// That in which a pass of it is over.
    end: u16,
    /// That in which the epilog is over where the kernel isn't passed.
    last: u16,
}

impl Extent {
    /// `None` where a cycle is too great.
    fn new(begin: i32, interval: i32, epilog: i32) -> Option<Extent> {
        Some(Extent {
            begin: u16::try_from(begin).ok()?,
            end: u16::try_from(begin.saturating_add(interval)).ok()?,
            last: u16::try_from(begin.saturating_add(epilog)).ok()?,
        })
    }
}

/// Rows of a prolog, a kernel and an epilog, in which these are issued.
fn pipelined_of(
    alloc: Global,
    prolog: &[Placed],
    kernel: &[Placed],
    epilog: &[Placed],
    extent: Extent,
) -> Result<Pipelined, AllocError> {
    let mut rows = rows_between(alloc, prolog, 0, extent.begin)?;
    let kernel_row = count_of(rows.len());
    for row in rows_between(alloc, kernel, extent.begin, extent.end)? {
        rows.push(row)?;
    }
    let epilog_row = count_of(rows.len());
    for row in rows_between(alloc, epilog, extent.begin, extent.last)? {
        rows.push(row)?;
    }
    let last_row = count_of(rows.len());
    Ok(Pipelined {
        rows: Rows {
            rows,
            aims: vec![in alloc; kernel_row; 1]?,
        },
        first: 0,
        prolog: kernel_row,
        kernel: epilog_row.saturating_sub(kernel_row),
        epilog: last_row.saturating_sub(epilog_row),
        label: 0,
    })
}

impl Draft {
    /// Its rows. `None` where a cycle is too great.
    fn rows(
        &self,
        alloc: Global,
        begin: i32,
        interval: i32,
    ) -> Result<Option<Pipelined>, AllocError> {
        let end = self.end(alloc, interval)?;
        let Some(extent) = Extent::new(begin, interval, end) else {
            return Ok(None);
        };
        let Some(prolog) = all_placed(alloc, &self.prolog(alloc)?, begin)? else {
            return Ok(None);
        };
        let Some(kernel) = all_placed(alloc, &self.kernel(alloc)?, begin)? else {
            return Ok(None);
        };
        let Some(epilog) = all_placed(alloc, &self.epilog(alloc)?, begin)? else {
            return Ok(None);
        };
        Ok(Some(pipelined_of(alloc, &prolog, &kernel, &epilog, extent)?))
    }

    /// What stands where in a text whose kernel is begun in this cycle.
    fn schedule(
        &self,
        alloc: Global,
        begin: i32,
        interval: u16,
    ) -> Result<Option<Schedule>, AllocError> {
        let Some(before) = all_placed(alloc, &self.before, begin)? else {
            return Ok(None);
        };
        let Some(stages) = stages_at(alloc, &self.work, begin)? else {
            return Ok(None);
        };
        let Some(behind) = all_placed(alloc, &self.behind, begin)? else {
            return Ok(None);
        };
        Ok(Some(Schedule {
            before,
            stages,
            behind,
            interval,
        }))
    }

    fn control(&self, alloc: Global, begin: i32) -> Result<Option<Control>, AllocError> {
        let Some(early) = all_placed(alloc, &self.counting.early, begin)? else {
            return Ok(None);
        };
        let Some(kernel) = all_placed(alloc, &self.counting.kernel, begin)? else {
            return Ok(None);
        };
        Ok(Some(Control { early, kernel }))
    }

    /// Its packets.
    fn packets(&self, alloc: Global, interval: u16) -> Result<Option<Packets>, AllocError> {
        let first = first_cycle(&self.prolog(alloc)?, 0);
        let begin = 0i32.saturating_sub(first);
        let Some(pipelined) = self.rows(alloc, begin, i32::from(interval))? else {
            return Ok(None);
        };
        let Some(schedule) = self.schedule(alloc, begin, interval)? else {
            return Ok(None);
        };
        let Some(control) = self.control(alloc, begin)? else {
            return Ok(None);
        };
        Ok(Some(Packets {
            pipelined,
            schedule,
            control,
        }))
    }
}

/// When a loop counts by a schedule whose last two tasks are its step and its branch.
fn clock_of(graph: &Graph, modulo: &Modulo, counter: Counter) -> Option<Clock> {
    let branch = graph.len().checked_sub(1)?;
    let step = graph.len().checked_sub(2)?;
    Some(Clock {
        counter,
        interval: i32::from(modulo.interval),
        most: i32::from(modulo.most()),
        step_row: i32::from(modulo.row(step)),
        step_unit: modulo.unit(step)?,
        branch_unit: modulo.unit(branch)?,
    })
}

/// The instances of the work of a schedule: of all tasks but the last two.
fn work_of(
    alloc: Global,
    graph: &Graph,
    modulo: &Modulo,
) -> Result<Option<Vec<Instances>>, AllocError> {
    let mut work = Vec::new(alloc);
    for number in 0..graph.len().saturating_sub(2) {
        match instances_of(alloc, graph, modulo, number)? {
            Some(own) => work.push(own)?,
            None => return Ok(None),
        }
    }
    Ok(Some(work))
}

/// The packets of a loop by a modulo schedule. `None` where a cycle is too great.
///
/// # Errors
///
/// Where memory ran out.
pub(crate) fn packets_of(
    alloc: Global,
    graph: &Graph,
    modulo: &Modulo,
    counter: Counter,
    straights: &Straights,
) -> Result<Option<Packets>, AllocError> {
    let Some(work) = work_of(alloc, graph, modulo)? else {
        return Ok(None);
    };
    let Some(clock) = clock_of(graph, modulo, counter) else {
        return Ok(None);
    };
    let Some(counting) = clock.counting(alloc)? else {
        return Ok(None);
    };
    let mut draft = Draft {
        before: Vec::new(alloc),
        work,
        behind: Vec::new(alloc),
        counting,
    };
    draft.put_before(alloc, &straights.before)?;
    draft.put_behind(alloc, &straights.behind, i32::from(modulo.interval))?;
    draft.packets(alloc, modulo.interval)
}
