//! What instructions ask of a state: their loads and stores.

ghost use Rattle.std.specs.Prelude.{◌≡◌, ◌+◌, ◌<◌, ◌≤◌, not, IsTrue};
ghost use Rattle.c62_insn.specs.Insn.{op_of};
ghost use Rattle.c62_serial.specs.State.{byte_in};
ghost use Rattle.c62_serial.specs.Memory.{is_size, is_good, read, place_in};
ghost use Rattle.c62_serial.specs.Faults.{with_fault_if, with_store};
ghost use Rattle.c62_serial.specs.Effect.{extended};

use crate::state::State;
use c62_insn::Insn;

impl State {
    /// Makes the access of a load: 1, 2 or 4 bytes. Answers what it puts into its destination. Where
    /// the access is misaligned or not within memory that is 0, and the line joins the faulted ones. It asks room for one, and takes no memory.
    pub fn make_load(&mut self, insn: Insn, line: u32, address: u32, size: u8) -> u32
        requires size { IsTrue (is_size size) }
        requires room { 0 < self.old.room }
        ensures value { result ≡ extended (op_of insn) (read (byte_in self.old.machine) (place_in self.old.machine address) size) }
        ensures machine { self.new.machine ≡ with_fault_if line (not (is_good (place_in self.old.machine address) size)) self.old.machine }
        ensures room { self.old.room ≤ self.new.room + 1 }
    {
        match self.load(address, size) {
            Some(raw) => insn.loaded(raw),
            None => {
                self.fault(line);
                0
            }
        }
    }

    /// Makes the access of a store: the low 1, 2 or 4 bytes of a value. Where the access is misaligned
    /// or not within memory nothing is stored, and the line joins the faulted ones. It
    /// asks room for one, and takes no memory.
    pub fn make_store(&mut self, line: u32, address: u32, size: u8, value: u32)
        requires size { IsTrue (is_size size) }
        requires room { 0 < self.old.room }
        ensures machine { self.new.machine ≡ with_store line (place_in self.old.machine address) size value self.old.machine }
        ensures room { self.old.room ≤ self.new.room + 1 }
    {
        if !self.store(address, size, value) {
            self.fault(line);
        }
    }
}
