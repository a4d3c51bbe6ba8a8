//! A cycle of a kernel, and the units of what is issued in it.

use crate::task::{RANKS, Task};
use c62_insn::{Side, Unit};
use c62_row::Row;

/// What is issued in a cycle of a kernel.
#[derive(Clone, Copy)]
pub struct Slot {
    /// The number of the task on each unit, by the unit's index.
    pub(crate) seats: [Option<u16>; 8],
    /// What they take of the cycle.
    taken: Row,
}

/// The first unit of a side, and then of the other one, on which a task may stand beside what is taken.
fn free_unit(task: &Task, taken: &Row, side: Side) -> Option<Unit> {
    for own in [true, false] {
        for unit in Unit::ALL {
            if (unit.side == side) == own
                && let Some(Some(uses)) = task.choices.get(usize::from(unit.index()))
                && taken.fits(uses)
            {
                return Some(unit);
            }
        }
    }
    None
}

impl Slot {
    /// A cycle in which nothing is issued.
    pub(crate) fn new() -> Slot {
        Slot {
            seats: [None; 8],
            taken: Row::new(),
        }
    }

    /// The cycle with a task more, if it has a unit. What may stand on either side takes this one first.
    fn seat(self, tasks: &[Task], number: u16, side: Side) -> Option<Slot> {
        let task = tasks.get(usize::from(number))?;
        let unit = free_unit(task, &self.taken, side)?;
        let mut slot = self;
        if let Some(Some(uses)) = task.choices.get(usize::from(unit.index())) {
            slot.taken.add(uses);
        }
        if let Some(seat) = slot.seats.get_mut(usize::from(unit.index())) {
            *seat = Some(number);
        }
        Some(slot)
    }

    /// The cycle with those of these tasks that have a rank.
    fn seat_all(
        self,
        tasks: &[Task],
        members: &[Option<u16>],
        rank: u8,
        side: Side,
    ) -> Option<Slot> {
        let mut slot = self;
        for member in members {
            if let Some(number) = member
                && let Some(task) = tasks.get(usize::from(*number))
                && task.rank == rank
            {
                slot = slot.seat(tasks, *number, side)?;
            }
        }
        Some(slot)
    }

    /// New units for these and one more, those with the least choice first.
    fn seated_anew(&self, tasks: &[Task], guest: u16, side: Side) -> Option<Slot> {
        let mut slot = Slot::new();
        for rank in RANKS {
            slot = slot.seat_all(tasks, &self.seats, rank, side)?;
            slot = slot.seat_all(tasks, &[Some(guest)], rank, side)?;
        }
        Some(slot)
    }

    /// The cycle with a task more, if the packet rules of a cycle allow for it.
    pub(crate) fn with(&self, tasks: &[Task], guest: u16) -> Option<Slot> {
        if let Some(slot) = self.seat(tasks, guest, Side::A) {
            return Some(slot);
        }
        match self.seated_anew(tasks, guest, Side::A) {
            Some(slot) => Some(slot),
            None => self.seated_anew(tasks, guest, Side::B),
        }
    }

    /// The cycle without a task.
    pub(crate) fn without(&self, tasks: &[Task], number: u16) -> Slot {
        let mut slot = Slot::new();
        for unit in Unit::ALL {
            let index = usize::from(unit.index());
            if let Some(Some(other)) = self.seats.get(index)
                && *other != number
                && let Some(task) = tasks.get(usize::from(*other))
                && let Some(Some(uses)) = task.choices.get(index)
                && let Some(seat) = slot.seats.get_mut(index)
            {
                *seat = Some(*other);
                slot.taken.add(uses);
            }
        }
        slot
    }
}
