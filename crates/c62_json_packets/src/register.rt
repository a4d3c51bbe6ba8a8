//! Registers by their names.

ghost use Rattle.std.specs.Prelude.{[], ◌∷◌};
ghost use Rattle.c62_json.specs.Document.{Adds};
ghost use Rattle.c62_json_packets.specs.Member.{register, register_member};

use c62_grid::words::push_register as push_name;
use c62_insn::Reg;
use json::Writer;
use std::alloc::{AllocError, Global};

/// Writes a register by its name, as `"A5"`.
///
/// # Errors
///
/// `AllocError` where memory ran out.
#[tactic(auto, unfolding(crate::specs::Member::register))]
pub fn push_register(alloc: Global, out: &mut Writer, reg: Reg) -> Result<(), AllocError>
    ensures { Adds result out.old out.new (register reg ∷ []) }
{
    let mut name = String::new(alloc);
    push_name(&mut name, reg)?;
    out.string(name.as_str())
}

/// Writes a member whose value is a register.
///
/// # Errors
///
/// `AllocError` where memory ran out.
#[tactic(auto, unfolding(crate::specs::Member::register_member))]
pub fn push_register_member(
    alloc: Global,
    out: &mut Writer,
    name: &str,
    reg: Reg,
) -> Result<(), AllocError>
    ensures { Adds result out.old out.new (register_member name.now reg) }
{
    out.key(name)?;
    push_register(alloc, out, reg)
}
