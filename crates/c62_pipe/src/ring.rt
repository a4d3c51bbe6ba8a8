//! Writes in flight, by the cycle in which they land.

ghost use Rattle.std.specs.Prelude.{◌≡◌, ℕ, ◌+◌, ◌<◌, ◌≤◌, ◌%◌, ◌^◌, ◌++◌, [], List, length, slice_set};
ghost use Rattle.c62_pipe.specs.Flight.{Slot as Writes, due, with_due, after_landings};

use crate::slot::{Due, Slot};
use c62_serial::State;
use std::marker::Model;

/// A write lands at most four cycles after its issue, so those in flight land in five cycles.
const CYCLES: u64 = 5;

/// A slot for each of five cycles in turn: a cycle's slot is that of its number modulo five.
#[derive(Drop)]
pub struct Ring {
    slots: [Slot; CYCLES as usize],
}

impl Model for Ring {
    ghost use Rattle.std.specs.Prelude.{◌≡◌, List, length};
    ghost use Rattle.c62_pipe.specs.Flight.{Slot as Writes};

    ghost Value = { List Writes };

    ghost view = { λ ring. ring.slots };

    ghost invariant = { λ ring. length ring.slots ≡ 5 };
}

/// The slot of a cycle.
fn slot_of(cycle: u64) -> usize
    ensures { result ≡ cycle % 5 }
{
    (cycle % CYCLES) as usize
}

impl Ring {
    /// Nothing in flight.
    pub fn new() -> Ring
        ensures empty { (cycle : ℕ) → due result cycle ≡ [] }
        ensures size { length result ≡ 5 }
    {
        Ring {
            slots: [
                Slot::new(),
                Slot::new(),
                Slot::new(),
                Slot::new(),
                Slot::new(),
            ],
        }
    }

    /// Adds a write of an instruction that is issued in this cycle.
    pub fn schedule(&mut self, cycle: u64, write: Due)
        requires soon { cycle < 2 ^ 63 }
        requires room { length (due self.old (cycle + write.delay)) < 40 }
        ensures { self.new ≡ with_due (cycle + write.delay) write self.old }
    {
        self.slots[slot_of(cycle + u64::from(write.delay))].push(write);
    }

    /// What is due in this cycle, in the order of issue.
    pub fn due(&self, cycle: u64) -> &[Due]
        ensures { result.now ≡ due self.now cycle }
    {
        self.slots[slot_of(cycle)].writes()
    }

    /// Puts what is due in this cycle into its registers, and empties the slot.
    pub fn land(&mut self, cycle: u64, state: &mut State)
        ensures ring { self.new ≡ slice_set self.old (cycle % 5) [] }
        ensures state { state.new
            ≡ record state.old { machine = after_landings (due self.old cycle) state.old.machine } }
    {
        let slot = &mut self.slots[slot_of(cycle)];
        for due in slot.writes() {
            state.set(due.reg, due.word);
        }
        slot.clear();
    }
}
