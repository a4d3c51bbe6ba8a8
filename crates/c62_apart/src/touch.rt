//! The bytes that an instruction touches.

ghost use Rattle.std.specs.Prelude.{◌≡◌, ◌++◌, ◌+◌, ◌<◌, ◌≤◌, Some, None, IsTrue, OnOk};
ghost use Rattle.c62_insn.specs.Insn.{operands_of};
ghost use Rattle.c62_serial.specs.Memory.{is_good, is_size};
ghost use Rattle.c62_serial.specs.Serial.{act_in};
ghost use Rattle.c62_apart.specs.Touch.{base_in, is_among, touches_by, touches_from, touches_of, touches_with};

use crate::base::{access_of, base_of, is_among};
use crate::visit::Visit;
use c62_insn::{Access, Reg};
use c62_read::SerialInsn;
use c62_serial::{MEMORY_BYTES, State};
use std::alloc::AllocError;

/// A byte that a load or store touches.
#[derive(Clone, Copy, PartialEq, Eq, Debug)]
pub struct Touch {
    pub visit: Visit,
    /// The line of the instruction, from 1.
    pub line: u32,
    /// The base register of its address.
    pub base: Reg,
    /// The place of the byte: how many bytes it lies behind the address at which memory begins.
    pub byte: u32,
}

/// Whether an access of so many bytes doesn't fault.
fn is_good(access: Access) -> bool
    requires { IsTrue (is_size access.size) }
    ensures { result ≡ is_good access.address access.size }
{
    let size = u32::from(access.size);
    access.address % size == 0 && access.address <= MEMORY_BYTES as u32 - size
}

/// Adds a touch of each of so many bytes.
fn push_bytes(touches: &mut Vec<Touch>, first: Touch, size: u8) -> Result<(), AllocError>
    requires { first.byte + size ≤ 65536 }
    ensures { OnOk result (touches.new.items ≡ touches.old.items ++ touches_from first.visit first.line first.base first.byte size) }
{
    for offset in 0..size {
        touches.push(Touch {
            byte: first.byte + u32::from(offset),
            ..first
        })?;
    }
    Ok(())
}

/// Adds the touches of an access from this base, where that is one of these and the access doesn't fault.
fn push_access(
    touches: &mut Vec<Touch>,
    regs: &[Reg],
    first: Touch,
    access: Access,
) -> Result<(), AllocError>
    requires size { IsTrue (is_size access.size) }
    requires first { first.byte ≡ access.address }
    ensures { OnOk result (touches.new.items ≡ touches.old.items ++ touches_by regs.now first.visit first.line first.base access) }
{
    if is_among(regs, first.base) && is_good(access) {
        push_bytes(touches, first, access.size)
    } else {
        Ok(())
    }
}

/// Adds the bytes that an instruction touches on this state, from one of these registers.
pub(crate) fn push_touches(
    touches: &mut Vec<Touch>,
    regs: &[Reg],
    visit: Visit,
    entry: &SerialInsn,
    state: &State,
) -> Result<(), AllocError>
    ensures { OnOk result (touches.new.items ≡ touches.old.items ++ touches_of regs.now visit state.now.machine entry.now) }
{
    match (base_of(&entry.insn), access_of(entry, state)) {
        (Some(base), Some(access)) => push_access(
            touches,
            regs,
            Touch {
                visit,
                line: entry.line,
                base,
                byte: access.address,
            },
            access,
        ),
        _ => Ok(()),
    }
}
