//! A block run one instruction after the other.

ghost use Rattle.std.specs.Prelude.{◌≡◌, ◌+◌, ◌<◌, ◌≤◌, length, IsTrue, IfOk, OnOk, OnErr};

use crate::state::State;
use c62_insn::{Access, Action, Reg, Target, Transfer};
use c62_read::{Block, SerialInsn};
use std::alloc::AllocError;

/// Where a block goes on.
#[derive(Clone, Copy, PartialEq, Eq, Debug)]
pub enum Exit {
    /// To the block after it.
    Next,
    /// To the block of this number, by a branch to its label.
    Block(u8),
    /// To the value of a branch register.
    Register(u32),
}

ghost use Rattle.c62_serial.specs.State.{with_write};
ghost use Rattle.c62_serial.specs.Memory.{is_size};
ghost use Rattle.c62_serial.specs.Serial.{after_transfer, after_entry, exit_to, act_in, serial};

/// The exit of a branch that goes there.
impl From<Target> for Exit {
    ghost from_gives = { λ target exit. exit ≡ exit_to target };

    fn from(target: Target) -> Exit {
        match target {
            Target::Block(number) => Exit::Block(number),
            Target::Register(value) => Exit::Register(value),
        }
    }
}

/// Puts a word into a register, where there is one to be put.
fn write(write: Option<(Reg, u32)>, state: &mut State)
    ensures { state.new ≡ record state.old { machine = with_write write state.old.machine } }
{
    if let Some((reg, word)) = write {
        state.set(reg, word);
    }
}

/// Makes a load or a store. The base is changed before a load's destination is.
fn make_transfer(entry: &SerialInsn, transfer: Transfer, state: &mut State)
    requires size { IsTrue (is_size transfer.access.size) }
    requires room { 0 < state.old.room }
    ensures machine { state.new.machine ≡ after_transfer entry.now transfer state.old.machine }
    ensures room { state.old.room ≤ state.new.room + 1 }
{
    let Access {
        address,
        size,
        value,
    } = transfer.access;
    let loaded = match value {
        Some(value) => {
            state.make_store(entry.line, address, size, value);
            None
        }
        None => {
            let word = state.make_load(entry.insn, entry.line, address, size);
            transfer.loads.map(|reg| (reg, word))
        }
    };
    write(transfer.base, state);
    write(loaded, state);
}

/// Runs an instruction. Answers where its branch goes, where it is a branch that ran.
fn run_insn(entry: &SerialInsn, state: &mut State) -> Option<Target>
    requires { 0 < state.old.room }
    ensures machine { state.new.machine ≡ after_entry entry.now state.old.machine }
    ensures target { result ≡ (act_in state.old.machine entry.now).target }
    ensures room { state.old.room ≤ state.new.room + 1 }
{
    match entry.insn.action(state.registers())? {
        Action::Write(reg, word) => {
            state.set(reg, word);
            None
        }
        Action::Transfer(transfer) => {
            make_transfer(entry, transfer, state);
            None
        }
        Action::Branch(target) => Some(target),
    }
}

/// Runs the instructions of a block one after the other, without delays: each acts on what the one
/// before it left, and a base is changed before a load's destination is. A misaligned access, or one
/// that is not within memory, reads 0 or stores nothing, its line joins the faulted ones, and the run
/// goes on. Answers the exit of the branch, where it ran, else [`Exit::Next`].
///
/// Room for a fault of each instruction is made first, by the state's own allocator.
///
/// # Errors
///
/// `AllocError` where that room was missing and memory runs out. The state is then as before.
pub fn run_block(block: &Block, state: &mut State) -> Result<Exit, AllocError>
    ensures machine { OnOk result (state.new.machine ≡ (serial block.now.insns state.old.machine).machine) }
    ensures exit { IfOk result (λ exit. exit ≡ (serial block.now.insns state.old.machine).exit) }
    ensures full { OnErr result (state.old.room < length block.now.insns) }
    ensures err { OnErr result (state.new ≡ state.old) }
{
    let insns = block.insns();
    state.room(insns.len())?;
    for entry in insns {
        // A branch is the last instruction of its block.
        if let Some(target) = run_insn(entry, state) {
            return Ok(Exit::from(target));
        }
    }
    Ok(Exit::Next)
}
