//! A modulo schedule.

ghost use Rattle.std.specs.Prelude.{◌≡◌, find};
ghost use Rattle.c62_op.specs.Units.{all_units};
ghost use Rattle.c62_kernels.specs.Schedule.{is_on, row_of, stage_of, unit_of};

use crate::slot::Slot;
use c62_insn::Unit;

/// Whether a task is issued on this unit.
fn is_on(slot: &Slot, number: u16, unit: Unit) -> bool
    ensures { result ≡ is_on slot.now number unit }
{
    match slot.seats.get(usize::from(unit.index())) {
        Some(Some(other)) => *other == number,
        _ => false,
    }
}

/// The first unit on which a task is issued.
fn unit_in(slot: &Slot, number: u16) -> Option<Unit>
    ensures { result ≡ find (is_on slot.now number) all_units }
{
    let units = Unit::ALL;
    units
        .iter()
        .copied()
        .find(|unit| is_on(slot, number, *unit))
}

/// A schedule of the tasks of a kernel, which is passed again and again.
#[derive(Drop)]
pub struct Modulo {
    /// The cycles from one pass to the next.
    pub interval: u16,
    /// The cycle of the kernel in which each task is issued, by number.
    pub(crate) rows: Vec<u16>,
    /// How many passes behind the first one it is issued, in one iteration.
    pub(crate) stages: Vec<u16>,
    /// What is issued in each cycle of the kernel.
    pub(crate) slots: Vec<Slot>,
}

impl Modulo {
    /// The cycle of the kernel in which a task is issued, and 0 for what is no task.
    pub fn row(&self, number: u16) -> u16
        ensures { result ≡ row_of self.now number }
    {
        self.rows.get(usize::from(number)).copied().unwrap_or(0)
    }

    /// How many passes behind the first one it is issued, and 0 for what is no task.
    pub fn stage(&self, number: u16) -> u16
        ensures { result ≡ stage_of self.now number }
    {
        self.stages.get(usize::from(number)).copied().unwrap_or(0)
    }

    /// How many iterations are begun before the one that is issued last.
    pub fn most(&self) -> u16 {
        let mut most = 0;
        for stage in &self.stages {
            most = most.max(*stage);
        }
        most
    }

    /// The unit of a task: the first on which it is issued in its cycle.
    pub fn unit(&self, number: u16) -> Option<Unit>
        ensures { result ≡ unit_of self.now number }
    {
        let slot = self.slots.get(usize::from(self.row(number)))?;
        unit_in(slot, number)
    }
}
