//! The steps of the counter and the branches of a pipelined loop (docs/CHECK.md, "Pipelined loops").

use crate::timed::Timed;
use c62_insn::{Cond, Insn, Op, Operands, Reg, Unit};
use c62_read::SerialInsn;
use std::alloc::{AllocError, Global};

/// The most that a step takes: every unit that takes a step takes as much.
const MOST_STEP: i32 = 15;

/// In which cycle behind it a branch takes effect.
const BRANCH_CYCLES: i32 = 6;

/// What a loop counts by.
#[derive(Clone, Copy)]
pub(crate) struct Counter {
    pub reg: Reg,
    /// The branch of the kernel, and the line of the serial step.
    pub branch: SerialInsn,
    pub line: u32,
}

/// The step that takes so much off a register, guarded or not.
fn step_of(reg: Reg, much: i32, guarded: bool) -> Option<Insn> {
    let cond = if guarded {
        Some(Cond {
            reg,
            negated: false,
        })
    } else {
        None
    };
    let operands = Operands::ConstantSecond(reg, i64::from(much), reg);
    Insn::new(Op::Sub, operands, cond, None).ok()
}

impl Counter {
    /// The step that takes one, and does nothing at 0.
    pub(crate) fn guarded(&self) -> Option<SerialInsn> {
        Some(SerialInsn {
            insn: step_of(self.reg, 1, true)?,
            line: self.line,
        })
    }

    /// One that takes so much.
    fn whole(&self, much: i32) -> Option<SerialInsn> {
        Some(SerialInsn {
            insn: step_of(self.reg, much, false)?,
            line: self.line,
        })
    }
}

/// When a loop counts: in which cycles of the kernel, and on what units, its step and its branch are issued.
#[derive(Clone, Copy)]
pub(crate) struct Clock {
    pub counter: Counter,
    /// The cycles from one pass to the next.
    pub interval: i32,
    /// How many iterations prolog and epilog hold.
    pub most: i32,
    pub step_row: i32,
    pub step_unit: Unit,
    pub branch_unit: Unit,
}

/// How many branches are in flight when the kernel is begun, where passes are so far apart.
fn ahead(interval: i32) -> i32 {
    (BRANCH_CYCLES - 1).div_euclid(interval.max(1))
}

/// The cycle of the kernel in which its branch is issued, where passes are so far apart.
pub(crate) fn branch_row(interval: u16) -> u16 {
    let passes = ahead(i32::from(interval)).saturating_add(1);
    let end = i32::from(interval).saturating_mul(passes);
    u16::try_from(end.saturating_sub(BRANCH_CYCLES)).unwrap_or(0)
}

/// The first cycle from this one on that is as far into a pass.
fn from_cycle(cycle: i32, row: i32, interval: i32) -> i32 {
    let later = row.saturating_sub(cycle).rem_euclid(interval.max(1));
    cycle.saturating_add(later)
}

/// Steps and branches of a prolog and of the kernel's first pass, in an order in which they count.
#[derive(Drop)]
pub(crate) struct Counting {
    pub early: Vec<Timed>,
    pub kernel: Vec<Timed>,
}

impl Clock {
    /// The cycle of the first branch.
    fn first_branch(&self) -> i32 {
        self.interval.saturating_sub(BRANCH_CYCLES)
    }

    /// The cycle in the kernel of its branch.
    fn kernel_branch(&self) -> i32 {
        self.interval
            .saturating_mul(ahead(self.interval))
            .saturating_add(self.first_branch())
    }

    fn branch(&self, cycle: i32) -> Timed {
        Timed {
            entry: self.counter.branch,
            unit: self.branch_unit,
            cycle,
        }
    }

    fn step(&self, cycle: i32) -> Option<Timed> {
        Some(Timed {
            entry: self.counter.guarded()?,
            unit: self.step_unit,
            cycle,
        })
    }

    /// How much is taken off before the first branch, but by the kernel.
    fn much(&self) -> i32 {
        let by_kernel = ahead(self.interval) == 0 && self.step_row < self.first_branch();
        self.most.saturating_add(i32::from(!by_kernel))
    }

    /// The cycle before this one in which a step has room: that of the kernel's step as many passes before as the prolog has, and
    /// else one before all.
    fn cycle_before(&self, cycle: i32) -> i32 {
        let low = 0i32.saturating_sub(self.most.saturating_mul(self.interval));
        let same = from_cycle(cycle, self.step_row, self.interval).saturating_sub(self.interval);
        if low <= same {
            same
        } else {
            low.min(cycle).saturating_sub(1)
        }
    }

    /// The steps before the first branch, the last first.
    fn first_steps(&self, alloc: Global) -> Result<Option<Vec<Timed>>, AllocError> {
        let mut steps = Vec::new(alloc);
        let mut left = self.much();
        let mut cycle = self.first_branch().min(0);
        for _ in 0..u8::MAX {
            if left <= 0 {
                break;
            }
            cycle = self.cycle_before(cycle);
            let much = left.min(MOST_STEP);
            left = left.saturating_sub(much);
            let Some(entry) = self.counter.whole(much) else {
                return Ok(None);
            };
            steps.push(Timed {
                entry,
                unit: self.step_unit,
                cycle,
            })?;
        }
        Ok(Some(steps))
    }

    /// Steps and branches of the prolog.
    fn early(&self, alloc: Global) -> Result<Option<Vec<Timed>>, AllocError> {
        let Some(steps) = self.first_steps(alloc)? else {
            return Ok(None);
        };
        let mut early = Vec::new(alloc);
        for step in steps.iter().rev() {
            early.push(*step)?;
        }
        let mut cycle = self.first_branch();
        for _ in 0..ahead(self.interval) {
            early.push(self.branch(cycle))?;
            let step = from_cycle(cycle, self.step_row, self.interval);
            if step < 0 {
                match self.step(step) {
                    Some(step) => early.push(step)?,
                    None => return Ok(None),
                }
            }
            cycle = cycle.saturating_add(self.interval);
        }
        Ok(Some(early))
    }

    /// Steps and branches with their cycles. `None` where there is no such step.
    ///
    /// # Errors
    ///
    /// Where memory ran out.
    pub(crate) fn counting(&self, alloc: Global) -> Result<Option<Counting>, AllocError> {
        let Some(early) = self.early(alloc)? else {
            return Ok(None);
        };
        let Some(step) = self.step(self.step_row) else {
            return Ok(None);
        };
        let branch = self.branch(self.kernel_branch());
        let mut kernel = Vec::new(alloc);
        if step.cycle < branch.cycle {
            kernel.push(step)?;
            kernel.push(branch)?;
        } else {
            kernel.push(branch)?;
            kernel.push(step)?;
        }
        Ok(Some(Counting { early, kernel }))
    }
}
