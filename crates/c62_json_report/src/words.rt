//! Names of registers.

ghost use Rattle.std.specs.Prelude.{◌≡◌, IfOk, string_bytes};
ghost use Rattle.c62_op.specs.Name.{file_letter, register_name};

use c62_insn::{Reg, Side};
use itoa::Buffer;
use std::alloc::{AllocError, Global};

/// The letter of a register file.
fn file_letter(side: Side) -> &'static str
    ensures { result.now ≡ file_letter side }
{
    match side {
        Side::A => "A",
        Side::B => "B",
    }
}

/// The name of a register.
pub(crate) fn register_name(alloc: Global, reg: Reg) -> Result<String, AllocError>
    ensures { IfOk result (λ name. string_bytes name ≡ register_name reg) }
{
    let mut buffer = Buffer::new();
    let mut name = String::new(alloc);
    name.push_str(file_letter(reg.side))?;
    name.push_str(buffer.format(reg.number))?;
    Ok(name)
}
