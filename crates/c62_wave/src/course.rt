//! Where a run is.

ghost use Rattle.std.specs.Prelude.{◌≡◌, ◌+◌, ◌++◌, ◌<◌, ◌-◌, ◌^◌, OnOk, ℕ, IsTrue, Option, fold, map};
ghost use Rattle.c62_op.specs.declared.register.Reg.{Reg};
ghost use Rattle.c62_insn.specs.declared.effect.Access.{Access as MemoryAccess};
ghost use Rattle.c62_serial.specs.State.{word_in};
ghost use Rattle.c62_serial.specs.Memory.{is_size, is_good};
ghost use Rattle.c62_serial.specs.Effect.{runs};
ghost use Rattle.c62_pipe.specs.Flight.{act_at};
ghost use Rattle.c62_trace.specs.Event.{Landed, IsSized, events_at, issue_of, stored_by};
ghost use Rattle.c62_wave.specs.Wave.{opening_course, a_cycle_later, course_at, text_before, with_told};

use crate::dump::push_cycle;
use crate::signals::Signals;
use c62_insn::{Access, Action};
use c62_packet::Placed;
use c62_pipe::Due;
use c62_serial::{MEMORY_BYTES, State};
use c62_trace::Window;
use std::alloc::AllocError;

/// The cycle that goes on, with what was shown before it and what it shows so far.
#[derive(Clone, Copy, Debug)]
pub struct Course {
    /// The address at which memory begins.
    pub base: u32,
    pub cycle: u64,
    pub before: Signals,
    pub now: Signals,
}

/// Whether an instruction runs, and what it accesses by its place in memory.
fn found(placed: &Placed, state: &State) -> (bool, Option<Access>)
    ensures runs { result.0 ≡ runs (word_in state.now.machine) placed.now.insn }
    ensures access { result.1 ≡ (act_at placed.now state.now.machine).access }
    ensures size { IsSized result.1 }
{
    match placed.insn.action(state.registers()) {
        None => (false, None),
        Some(Action::Transfer(transfer)) => {
            let access = Access {
                address: state.place(transfer.access.address),
                size: transfer.access.size,
                value: transfer.access.value,
            };
            (true, Some(access))
        }
        Some(Action::Write(_, _) | Action::Branch(_)) => (true, None),
    }
}

/// Whether an access doesn't fault.
fn is_good(access: Access) -> bool
    requires { IsTrue (is_size access.size) }
    ensures { result ≡ is_good access.address access.size }
{
    let size = u32::from(access.size);
    access.address % size == 0 && access.address <= MEMORY_BYTES as u32 - size
}

impl Course {
    /// Before the first cycle of a run on this machine.
    pub(crate) fn opening(state: &State) -> Course
        ensures { result ≡ opening_course state.now.machine.base state.now.machine.registers }
    {
        let signals = Signals::opening(state.registers());
        Course {
            base: state.base(),
            cycle: 0,
            before: signals,
            now: signals,
        }
    }

    /// The cycle ends, and the next begins.
    #[tactic(auto, unfolding(crate::specs::Wave::a_cycle_later))]
    fn go_on(&mut self)
        requires { self.old.cycle < 2 ^ 64 - 1 }
        ensures course { self.new ≡ a_cycle_later self.old }
        ensures cycle { self.new.cycle ≡ self.old.cycle + 1 }
    {
        self.cycle += 1;
        self.before = self.now;
        self.now.go_on();
    }

    /// All cycles before this one end, and their text is added.
    ///
    /// # Errors
    ///
    /// `AllocError` where memory ran out.
    pub(crate) fn run_to(
        &mut self,
        out: &mut Vec<u8>,
        window: Window,
        cycle: u64,
    ) -> Result<(), AllocError>
        ensures text { OnOk result (out.new.items ≡ out.old.items ++ text_before window cycle self.old) }
        ensures course { OnOk result (self.new ≡ course_at cycle self.old) }
    {
        while self.cycle < cycle {
            push_cycle(out, window, self.cycle, &self.before, &self.now)?;
            self.go_on();
        }
        Ok(())
    }

    /// An instruction of this line is issued, and runs or doesn't.
    fn put_on(&mut self, placed: &Placed, runs: bool)
        ensures { (word : Reg → ℕ) (access : Option MemoryAccess)
            → self.new ≡ with_told self.old (issue_of word placed.now runs access) }
    {
        self.now.put_on(placed.line, placed.unit);
        if runs {
            self.now.start(placed.insn.op().delay());
        }
    }

    /// The store of an access, where it is one that doesn't fault.
    fn store(&mut self, line: u32, access: Option<Access>)
        requires { IsSized access }
        ensures { self.new ≡ fold with_told self.old (stored_by line access) }
    {
        let Some(access) = access else { return };
        let Some(value) = access.value else { return };
        if is_good(access) {
            self.now
                .store(self.base.wrapping_add(access.address), access.size, value);
        }
    }

    /// What an instruction does that is issued in the cycle.
    pub(crate) fn issue(&mut self, placed: &Placed, state: &State)
        ensures { self.new ≡ fold with_told self.old (events_at state.now.machine placed.now) }
    {
        let (runs, access) = found(placed, state);
        self.put_on(placed, runs);
        self.store(placed.line, access);
    }

    /// These writes land in the cycle.
    pub(crate) fn land(&mut self, writes: &[Due])
        ensures { self.new ≡ fold with_told self.old (map Landed writes.now) }
    {
        for write in writes {
            self.now.land(write);
        }
    }
}
