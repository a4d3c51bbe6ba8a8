//! The pipeline: packets issued cycle by cycle, their writes landing after their delays.

ghost use Rattle.std.specs.Prelude.{◌≡◌, not, ◌+◌, ◌<◌, ◌≤◌, ◌++◌, ◌^◌, [], length, IsTrue, IfOk, OnErr};
ghost use Rattle.c62_insn.specs.Insn.{op_of};
ghost use Rattle.c62_packet.specs.declared.limits.TheConstants.{MOST_CYCLES};
ghost use Rattle.c62_serial.specs.State.{byte_in, line_capacity};
ghost use Rattle.c62_serial.specs.Memory.{is_size, is_good, read, placed_from};
ghost use Rattle.c62_serial.specs.Faults.{with_fault_if};
ghost use Rattle.c62_serial.specs.Effect.{loaded};
ghost use Rattle.c62_serial.specs.Serial.{exit_after};
ghost use Rattle.c62_pipe.specs.Flight.{IsIdle, due, stores_of, act_at, transfer_at, FitsWrites, with_fault_of, after_issue, with_transfer, issued, with_stores, after_stores, at_end, after_end};
ghost use Rattle.c62_pipe.specs.Chain.{Does};

use crate::ring::Ring;
use crate::slot::Due;
use arrayvec::ArrayVec;
use c62_insn::{Access, Action, Reg, Target, Transfer};
use c62_packet::{PacketBlock, Placed};
use c62_serial::{Exit, State};
use std::alloc::AllocError;
use std::marker::Model;

/// What is in flight: writes that have not landed, and the stores of the packet that is issued.
#[derive(Drop)]
pub struct Pipe {
    ring: Ring,
    stores: ArrayVec<(u32, u8, u32), 8>,
}

impl Model for Pipe {
    ghost use Rattle.c62_pipe.specs.Flight.{Flight, IsFlight};

    ghost Value = { Flight };

    ghost view = { λ pipe. record { slots = pipe.ring; stores = pipe.stores.items } };

    ghost invariant = { λ pipe. IsFlight (record { slots = pipe.ring; stores = pipe.stores.items }) };
}

/// What an access finds at its place, as a number with the lowest byte first. Where the access is
/// misaligned or not within memory that is nothing, and its line joins the faulted ones.
fn find(line: u32, place: u32, size: u8, state: &mut State) -> Option<u32>
    requires size { IsTrue (is_size size) }
    requires room { 0 < state.old.room }
    ensures found { result ≡ read (byte_in state.old.machine) place size }
    ensures machine { state.new.machine ≡ with_fault_if line (not (is_good place size)) state.old.machine }
    ensures room { state.old.room ≤ state.new.room + 1 }
    ensures capacity { line_capacity state.new ≡ line_capacity state.old }
{
    match state.load_at(place, size) {
        Some(raw) => Some(raw),
        None => {
            state.fault(line);
            None
        }
    }
}

impl Pipe {
    /// Nothing in flight.
    pub fn new() -> Pipe
        ensures { IsIdle result }
    {
        Pipe {
            ring: Ring::new(),
            stores: ArrayVec::new(),
        }
    }

    /// Makes the access of a load or a store, and answers the word of a load's destination. A store waits
    /// for the end of the cycle, since loads of its packet do not see it.
    fn access(&mut self, placed: &Placed, access: Access, state: &mut State) -> Option<u32>
        requires size { IsTrue (is_size access.size) }
        requires room { 0 < state.old.room }
        requires few { length self.old.stores < 8 }
        ensures loaded { result ≡ loaded (byte_in state.old.machine) (op_of placed.now.insn) (placed_from state.old.machine.base (Some access)) }
        ensures machine { state.new.machine ≡ with_fault_of placed.now (placed_from state.old.machine.base (Some access)) state.old.machine }
        ensures room { state.old.room ≤ state.new.room + 1 }
        ensures capacity { line_capacity state.new ≡ line_capacity state.old }
        ensures flight { self.new ≡ with_stores (self.old.stores ++ stores_of (placed_from state.old.machine.base (Some access))) self.old }
    {
        let Access {
            address,
            size,
            value,
        } = access;
        let place = state.place(address);
        let found = find(placed.line, place, size, state);
        match (value, found) {
            (Some(value), _) => {
                self.stores.push((place, size, value));
                None
            }
            (None, Some(raw)) => Some(placed.insn.loaded(raw)),
            (None, None) => Some(0),
        }
    }

    /// Makes a load or a store, and puts its writes in flight: a base that is changed, and the
    /// destination of a load.
    fn transfer(&mut self, cycle: u64, placed: &Placed, transfer: Transfer, state: &mut State)
        requires soon { cycle < 2 ^ 63 }
        requires size { IsTrue (is_size transfer.access.size) }
        requires room { 0 < state.old.room }
        requires few { length self.old.stores < 8 }
        requires fits { FitsWrites cycle placed.now (transfer_at placed.now transfer state.old.machine) self.old }
        ensures machine { state.new.machine ≡ with_fault_of placed.now (placed_from state.old.machine.base (Some transfer.access)) state.old.machine }
        ensures room { state.old.room ≤ state.new.room + 1 }
        ensures capacity { line_capacity state.new ≡ line_capacity state.old }
        ensures flight { self.new ≡ with_transfer cycle placed.now transfer state.old.machine self.old }
    {
        let loaded = self.access(placed, transfer.access, state);
        if let Some((base, word)) = transfer.base {
            let line = placed.line;
            let write = Due {
                reg: base,
                word,
                line,
                delay: 0,
            };
            self.ring.schedule(cycle, write);
        }
        if let Some(reg) = transfer.loads
            && let Some(word) = loaded
        {
            let line = placed.line;
            let delay = placed.insn.delay();
            let write = Due {
                reg,
                word,
                line,
                delay,
            };
            self.ring.schedule(cycle, write);
        }
    }

    /// Issues an instruction in a cycle, whatever cycle stands in it: it reads registers and memory as
    /// they are before this cycle's writes and stores, and its own are put in flight. Answers where its
    /// branch goes, where it is a branch that runs. It asks room for the line of a fault, and takes no
    /// memory.
    pub fn issue(&mut self, cycle: u64, placed: &Placed, state: &mut State) -> Option<Target>
        requires soon { cycle < 2 ^ 63 }
        requires room { 0 < state.old.room }
        requires few { length self.old.stores < 8 }
        requires fits { FitsWrites cycle placed.now (act_at placed.now state.old.machine) self.old }
        ensures target { result ≡ (act_at placed.now state.old.machine).target }
        ensures machine { state.new.machine ≡ after_issue placed.now state.old.machine }
        ensures room { state.old.room ≤ state.new.room + 1 }
        ensures capacity { line_capacity state.new ≡ line_capacity state.old }
        ensures flight { self.new ≡ issued cycle placed.now.line (act_at placed.now state.old.machine) self.old }
    {
        match placed.insn.action(state.registers())? {
            Action::Write(reg, word) => {
                let line = placed.line;
                let delay = placed.insn.delay();
                let write = Due {
                    reg,
                    word,
                    line,
                    delay,
                };
                self.ring.schedule(cycle, write);
                None
            }
            Action::Transfer(transfer) => {
                self.transfer(cycle, placed, transfer, state);
                None
            }
            Action::Branch(target) => Some(target),
        }
    }

    /// Makes the stores of the packet, in the order of its units.
    fn make_stores(&mut self, state: &mut State)
        ensures flight { self.new ≡ with_stores [] self.old }
        ensures state { state.new ≡ record state.old { machine = after_stores self.old.stores state.old.machine } }
    {
        for (place, size, value) in self.stores.as_slice() {
            let _ = state.store_at(*place, *size, *value);
        }
        self.stores.clear();
    }

    /// The writes that are due in this cycle, in the order of issue.
    pub fn due(&self, cycle: u64) -> &[Due]
        ensures { result.now ≡ due self.now.slots cycle }
    {
        self.ring.due(cycle)
    }

    /// Ends a cycle: the stores of its packet are made, and what is due lands.
    pub fn end_cycle(&mut self, cycle: u64, state: &mut State)
        ensures flight { self.new ≡ after_end cycle self.old }
        ensures state { state.new ≡ record state.old { machine = at_end cycle self.old state.old.machine } }
    {
        self.make_stores(state);
        self.ring.land(cycle, state);
    }

    /// Runs a block of packets as [`Pipe::run`] does, where nothing is in flight. Nothing is then.
    ///
    /// # Errors
    ///
    /// As of [`Pipe::run`].
    pub(crate) fn run_block(
        &mut self,
        block: &PacketBlock,
        state: &mut State,
    ) -> Result<(Exit, u32), AllocError>
        requires { IsIdle self.old }
        ensures idle { IsIdle self.new }
        ensures cycles { IfOk result (λ ran. ran.1 ≡ block.now.cycles) }
        ensures short { IfOk result (λ ran. ran.1 ≤ MOST_CYCLES) }
        ensures meaning { IfOk result (λ ran. Does block.now state.old.machine state.new.machine ran.0) }
        ensures full { OnErr result (state.old.room < length block.now.placed) }
        ensures err { OnErr result (state.new ≡ state.old) }
    {
        let all = block.placed();
        let length = u64::from(block.length());
        state.room(all.len())?;
        // It tells what holds of every state.
        let _ = state.faults();
        let mut cycle = 0;
        let mut exit = Exit::Next;
        for placed in all {
            let start = u64::from(placed.cycle);
            while cycle < start {
                self.end_cycle(cycle, state);
                cycle += 1;
            }
            exit = exit_after(exit, self.issue(cycle, placed, state));
        }
        while cycle < length {
            self.end_cycle(cycle, state);
            cycle += 1;
        }
        Ok((exit, u32::from(block.length())))
    }

    /// Runs a block of packets, cycle by cycle. Instructions read registers and memory in the cycle of
    /// their issue, before its writes and stores; a write lands after the delay of its instruction, and
    /// the stores of a packet are made .D1 first. A misaligned access, or one past the end of memory,
    /// reads 0 or stores nothing, its line joins the faulted ones, and the run goes on. Answers the exit
    /// of the branch, where it ran, else [`Exit::Next`], and how many cycles the block took.
    ///
    /// Room for a fault of each instruction is made first, by the state's own allocator.
    ///
    /// # Errors
    ///
    /// `AllocError` where that room was missing and memory runs out. The state is then as before.
    pub fn run(block: &PacketBlock, state: &mut State) -> Result<(Exit, u32), AllocError>
        ensures cycles { IfOk result (λ ran. ran.1 ≡ block.now.cycles) }
        ensures short { IfOk result (λ ran. ran.1 ≤ MOST_CYCLES) }
        ensures meaning { IfOk result (λ ran. Does block.now state.old.machine state.new.machine ran.0) }
        ensures full { OnErr result (state.old.room < length block.now.placed) }
        ensures err { OnErr result (state.new ≡ state.old) }
    {
        let mut pipe = Pipe::new();
        pipe.run_block(block, state)
    }
}

/// The exit is that of a branch that ran.
fn exit_after(exit: Exit, target: Option<Target>) -> Exit
    ensures { result ≡ exit_after exit target }
{
    match target {
        Some(target) => Exit::from(target),
        None => exit,
    }
}
