//! Accesses that fault.

ghost use Rattle.std.specs.Prelude.{◌≡◌, IsTrue, OnOk, Some};
ghost use Rattle.c62_serial.specs.Memory.{is_size, place_in};
ghost use Rattle.c62_faulted.specs.Faulted.{cause_of, fault_by, fault_in, has_line, with_fault};

use c62_insn::{Access, Action};
use c62_op::Op;
use c62_read::SerialInsn;
use c62_serial::{MEMORY_BYTES, State};
use std::alloc::AllocError;

/// Why an access faults.
#[derive(Clone, Copy, PartialEq, Eq, Debug)]
pub enum Cause {
    /// Its address is no multiple of its size.
    Misaligned,
    /// It is aligned, and not within memory: it reaches past its end, or begins below its begin.
    PastEnd,
}

/// An access that faulted.
#[derive(Clone, Copy, PartialEq, Eq, Debug)]
pub struct Fault {
    /// The line of its instruction, from 1.
    pub line: u32,
    /// The operation, a load or a store.
    pub op: Op,
    /// The place of the byte at which it began: how far it lies behind the begin of memory, modulo 2^32.
    pub place: u32,
    /// How many bytes it has: 1, 2 or 4.
    pub size: u8,
    pub cause: Cause,
}

/// Why an access of so many bytes faults at this place, where it does.
fn cause_of(place: u32, size: u8) -> Option<Cause>
    requires { IsTrue (is_size size) }
    ensures { result ≡ cause_of place size }
{
    let size = u32::from(size);
    if place % size != 0 {
        Some(Cause::Misaligned)
    } else if place > MEMORY_BYTES as u32 - size {
        Some(Cause::PastEnd)
    } else {
        None
    }
}

/// The fault of an access of an instruction, by its place, if it has one.
fn fault_by(entry: &SerialInsn, access: Access) -> Option<Fault>
    requires { IsTrue (is_size access.size) }
    ensures { result ≡ fault_by entry.now (Some access) }
{
    let cause = cause_of(access.address, access.size)?;
    Some(Fault {
        line: entry.line,
        op: entry.insn.op(),
        place: access.address,
        size: access.size,
        cause,
    })
}

/// The access with its place for its address.
fn placed(access: Access, state: &State) -> Access
    ensures { result ≡ record access { address = place_in state.now.machine access.address } }
{
    Access {
        address: state.place(access.address),
        size: access.size,
        value: access.value,
    }
}

/// The fault of what an instruction does now, if it has one.
fn fault_in(entry: &SerialInsn, state: &State) -> Option<Fault>
    ensures { result ≡ fault_in state.now.machine entry.now }
{
    match entry.insn.action(state.registers())? {
        Action::Transfer(transfer) => fault_by(entry, placed(transfer.access, state)),
        Action::Write(_, _) | Action::Branch(_) => None,
    }
}

/// Whether a fault of this line is among these.
fn has_line(faults: &[Fault], line: u32) -> bool
    ensures { result ≡ has_line line faults.now }
{
    faults.iter().any(|fault| line == fault.line)
}

/// Adds a fault, where none of its line is there.
fn add_fault(faults: &mut Vec<Fault>, fault: Fault) -> Result<(), AllocError>
    ensures { OnOk result (faults.new.items ≡ with_fault faults.old.items fault) }
{
    if has_line(faults, fault.line) {
        return Ok(());
    }
    faults.push(fault)?;
    Ok(())
}

ghost use Rattle.std.specs.Option.{option_to_list};
ghost use Rattle.c62_faulted.specs.Faulted.{with_faults};

/// Adds the fault of what an instruction does now, if it has one of a new line.
///
/// # Errors
///
/// `AllocError` where memory ran out.
pub fn note(faults: &mut Vec<Fault>, entry: &SerialInsn, state: &State) -> Result<(), AllocError>
    ensures { OnOk result (faults.new.items ≡ with_faults faults.old.items (option_to_list (fault_in state.now.machine entry.now))) }
{
    match fault_in(entry, state) {
        Some(fault) => add_fault(faults, fault),
        None => Ok(()),
    }
}
