//! The state of the machine.

ghost use Rattle.std.specs.Prelude.{◌≡◌, ◌↔◌, ◌+◌, ◌<◌, ◌≤◌, length, slice_index, slice_get, insert, Some, IsTrue, IsOk, IfOk, OnOk, OnErr, MatchOption};
ghost use Rattle.std.specs.List.Sorted.{IsStrictlyIncreasing};

use c62_insn::Reg;
use std::alloc::{AllocError, Global};
use std::marker::Model;

const WORD: u8 = 4;

/// How many bytes of memory there are.
pub const MEMORY_BYTES: usize = 65_536;

/// How many lines of a row have a place each: as many as a block can have instructions.
const PLACES: usize = 256;

/// Thirty-two registers, 65,536 bytes of memory from an address on, and the lines whose accesses
/// faulted, each once and rising. It has room for some more such lines; all calls but [`State::new`] and [`State::room`] take
/// no memory.
#[derive(Drop)]
pub struct State {
    /// The address at which memory begins.
    base: u32,
    registers: [u32; 32],
    memory: Vec<u8>,
    faults: Vec<u32>,
    /// The index at which a faulted line was found last, by the line's remainder. Another line may stand there by now.
    places: [usize; PLACES],
}

impl Model for State {
    ghost use Rattle.std.specs.Prelude.{◌-◌};
    ghost use Rattle.std.specs.Vec.{vec_len, vec_capacity};
    ghost use Rattle.c62_serial.specs.State.{Contents, IsSound, machine_of};

    ghost Value = { Contents };

    ghost view = { λ state. record {
      machine = machine_of state.base state.registers state.memory.items state.faults.items;
      room = vec_capacity state.faults - vec_len state.faults;
    } };

    ghost invariant = { λ state. IsSound (machine_of state.base state.registers state.memory.items state.faults.items) };
}

ghost use Rattle.c62_serial.specs.State.{Machine, IsSound, line_capacity, IsZero, word_in, byte_in, with_base, with_word};
ghost use Rattle.c62_serial.specs.Memory.{is_size, is_good, number_of, bytes_from, bytes_of, read, put, with_bytes, place_in};
ghost use Rattle.c62_serial.specs.Faults.{joined, with_fault, FindsPlace};

/// Whether the access at a place lies on its size and within memory.
fn is_good(place: u32, size: u8) -> bool
    requires { IsTrue (is_size size) }
    ensures { result ≡ is_good place size }
{
    let size = u32::from(size);
    place % size == 0 && place <= MEMORY_BYTES as u32 - size
}

/// The bytes from a place on as a number, the lowest first.
fn number_at(memory: &[u8], at: usize, size: u8) -> u32
    requires size { IsTrue (is_size size) }
    requires within { at + size ≤ length memory.now }
    ensures { result ≡ number_of (bytes_from (λ byte. slice_index memory.now byte) at size) }
{
    match size {
        1 => u32::from(memory[at]),
        2 => u32::from(u16::from_le_bytes([memory[at], memory[at + 1]])),
        _ => u32::from_le_bytes([memory[at], memory[at + 1], memory[at + 2], memory[at + 3]]),
    }
}

/// Puts the low bytes of a value from a place on, the lowest first.
fn put(memory: &mut [u8], at: usize, size: u8, value: u32)
    requires size { IsTrue (is_size size) }
    requires within { at + size ≤ length memory.old }
    ensures { memory.new ≡ put at (bytes_of size value) size memory.old }
{
    let bytes = value.to_le_bytes();
    match size {
        1 => memory[at..at + 1].copy_from_slice(&bytes[..1]),
        2 => memory[at..at + 2].copy_from_slice(&bytes[..2]),
        _ => memory[at..at + 4].copy_from_slice(&bytes),
    }
}

/// The index of a line among rising lines; where it is not among them, the one at which it joins them.
fn place_among(lines: &[u32], line: u32) -> Result<usize, usize>
    requires { IsStrictlyIncreasing lines.now }
    ensures { FindsPlace line lines.now result }
{
    lines.binary_search(&line)
}

/// Whether this line stands at the index.
fn stands_at(lines: &[u32], index: usize, line: u32) -> bool
    ensures { IsTrue result ↔ (slice_get lines.now index ≡ Some line) }
{
    match lines.get(index) {
        Some(other) => *other == line,
        None => false,
    }
}

impl State {
    /// A state in which all registers and bytes are 0 and no line has faulted. Its memory begins at
    /// address 0.
    ///
    /// # Errors
    ///
    /// `AllocError` where memory runs out.
    pub fn new(alloc: Global) -> Result<State, AllocError>
        ensures { IfOk result (λ state. IsZero state.machine) }
    {
        Ok(State {
            base: 0,
            registers: [0; 32],
            memory: vec![in alloc; 0; MEMORY_BYTES]?,
            faults: Vec::new(alloc),
            places: [0; PLACES],
        })
    }

    /// The address at which memory begins.
    pub fn base(&self) -> u32
        ensures { result ≡ self.now.machine.base }
    {
        self.base
    }

    /// Lets memory begin at this address. What it holds stays.
    pub fn set_base(&mut self, base: u32)
        ensures { self.new ≡ record self.old { machine = with_base base self.old.machine } }
    {
        self.base = base;
    }

    /// The place of an address: how many bytes it lies behind that at which memory begins, modulo
    /// 2^32. Those of memory are below 65,536.
    pub fn place(&self, address: u32) -> u32
        ensures { result ≡ place_in self.now.machine address }
    {
        address.wrapping_sub(self.base)
    }

    /// The word in a register.
    pub fn reg(&self, reg: Reg) -> u32
        ensures { result ≡ word_in self.now.machine reg }
    {
        self.registers[usize::from(reg.index())]
    }

    /// Puts a word into a register.
    pub fn set(&mut self, reg: Reg, value: u32)
        ensures { self.new ≡ record self.old { machine = with_word reg value self.old.machine } }
    {
        self.registers[usize::from(reg.index())] = value;
    }

    /// The words of all registers, A0 to A15 and then B0 to B15.
    pub fn registers(&self) -> &[u32; 32]
        ensures { result.now ≡ self.now.machine.registers }
    {
        &self.registers
    }

    /// The byte at a place: so many bytes behind the first of memory.
    pub fn byte(&self, place: u16) -> u8
        ensures { result ≡ byte_in self.now.machine place }
    {
        self.memory[usize::from(place)]
    }

    /// What a load of 1, 2 or 4 bytes reads, as a number with the lowest byte first; `None` where the
    /// place of the address is no multiple of the size, or the access is not within memory.
    pub fn load(&self, address: u32, size: u8) -> Option<u32>
        requires { IsTrue (is_size size) }
        ensures { result ≡ read (byte_in self.now.machine) (place_in self.now.machine address) size }
    {
        self.load_at(self.place(address), size)
    }

    /// What a load reads as [`State::load`] does, by the place of its address.
    pub fn load_at(&self, place: u32, size: u8) -> Option<u32>
        requires { IsTrue (is_size size) }
        ensures { result ≡ read (byte_in self.now.machine) place size }
    {
        if is_good(place, size) {
            Some(number_at(&self.memory, place as usize, size))
        } else {
            None
        }
    }

    /// Stores the low 1, 2 or 4 bytes of a value, the lowest first. Answers whether it did: where the
    /// place of the address is no multiple of the size, or the access is not within memory, nothing
    /// changes.
    pub fn store(&mut self, address: u32, size: u8, value: u32) -> bool
        requires { IsTrue (is_size size) }
        ensures done { result ≡ is_good (place_in self.old.machine address) size }
        ensures after { self.new ≡ record self.old { machine = with_bytes (place_in self.old.machine address) size value self.old.machine } }
    {
        self.store_at(self.place(address), size, value)
    }

    /// Stores as [`State::store`] does, by the place of the address.
    pub fn store_at(&mut self, place: u32, size: u8, value: u32) -> bool
        requires { IsTrue (is_size size) }
        ensures done { result ≡ is_good place size }
        ensures after { self.new ≡ record self.old { machine = with_bytes place size value self.old.machine } }
    {
        if is_good(place, size) {
            put(&mut self.memory, place as usize, size, value);
            true
        } else {
            false
        }
    }

    /// Stores a word, as [`State::store`] does.
    pub fn poke(&mut self, address: u32, value: u32) -> bool
        ensures done { result ≡ is_good (place_in self.old.machine address) 4 }
        ensures after { self.new ≡ record self.old { machine = with_bytes (place_in self.old.machine address) 4 value self.old.machine } }
    {
        self.store(address, WORD, value)
    }

    /// Makes room for so many more faulted lines. All else stays as it was.
    ///
    /// # Errors
    ///
    /// `AllocError` where that room was missing and memory runs out. The state is then as before.
    pub fn room(&mut self, lines: usize) -> Result<(), AllocError>
        ensures machine { self.new.machine ≡ self.old.machine }
        ensures ok { OnOk result (lines ≤ self.new.room) }
        ensures kept { self.old.room ≤ self.new.room }
        ensures full { OnErr result (self.old.room < lines) }
        ensures err { OnErr result (self.new ≡ self.old) }
    {
        self.faults.reserve(lines)
    }

    /// Whether a line that faulted stands where one with its remainder was found last. Where it stands
    /// elsewhere, the answer is no.
    #[tactic(auto, using(crate::proofs::FaultLemmas::joined_standing))]
    fn is_at_hand(&self, line: u32) -> bool
        ensures { IsTrue result → joined line self.now.machine.faults ≡ self.now.machine.faults }
    {
        stands_at(&self.faults, self.places[line as usize % PLACES], line)
    }

    /// Puts a line among those that faulted, where it is not yet, and keeps its place at hand.
    #[inline(never)]
    #[tactic(auto, using(crate::proofs::FaultLemmas::joined_rises))]
    fn join(&mut self, line: u32)
        requires { 0 < self.old.room }
        ensures machine { self.new.machine ≡ with_fault line self.old.machine }
        ensures room { line_capacity self.new ≡ line_capacity self.old }
        ensures one_at_most { self.old.room ≤ self.new.room + 1 }
    {
        let index = match place_among(&self.faults, line) {
            Ok(index) => index,
            Err(index) => {
                let Ok(()) = self.faults.insert(index, line) else {
                    unreachable!()
                };
                index
            }
        };
        self.places[line as usize % PLACES] = index;
    }

    /// Puts a line among those that faulted, where it is not yet. It asks room for one, and takes no
    /// memory.
    pub fn fault(&mut self, line: u32)
        requires { 0 < self.old.room }
        ensures machine { self.new.machine ≡ with_fault line self.old.machine }
        ensures room { line_capacity self.new ≡ line_capacity self.old }
        ensures one_at_most { self.old.room ≤ self.new.room + 1 }
    {
        if !self.is_at_hand(line) {
            self.join(line);
        }
    }

    /// The lines whose accesses faulted, rising and each once.
    pub fn faults(&self) -> &[u32]
        ensures same { result.now ≡ self.now.machine.faults }
        ensures sound { IsSound self.now.machine }
    {
        self.faults.as_slice()
    }
}
