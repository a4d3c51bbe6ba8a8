//! What is told of a run as it goes.

ghost use Rattle.std.specs.Prelude.{◌<◌, ◌^◌, ◌++◌, [], List, OnOk, map};
ghost use Rattle.c62_trace.specs.Event.{Entry, Landed, entries, events_at};

use c62_packet::Placed;
use c62_pipe::Due;
use c62_serial::State;
use std::alloc::AllocError;

/// Who watches a run: it is told each event, in the order in which they come (docs/TRACE.md, "Events").
pub trait Watch {
    /// What was told between two of its states.
    ghost tells: { Self → Self → List Entry → Type 0 };

    /// An instruction is issued in a cycle, which finds the machine like this.
    ///
    /// # Errors
    ///
    /// `AllocError` where memory ran out.
    fn insn(&mut self, cycle: u64, placed: &Placed, state: &State) -> Result<(), AllocError>
        requires { cycle < 2 ^ 63 }
        ensures { OnOk result (tells self.old self.new (entries cycle (events_at state.now.machine placed.now))) };

    /// These writes land at the end of a cycle.
    ///
    /// # Errors
    ///
    /// `AllocError` where memory ran out.
    fn landings(&mut self, cycle: u64, writes: &[Due]) -> Result<(), AllocError>
        requires { cycle < 2 ^ 63 }
        ensures { OnOk result (tells self.old self.new (entries cycle (map Landed writes.now))) };

    ghost nothing: { (watch : Self) → tells watch watch [] };

    ghost more: { (old middle new : Self) (told others : List Entry) → tells old middle told → tells middle new others
        → tells old new (told ++ others) };
}
