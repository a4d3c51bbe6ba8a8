//! The registers of both sides.

ghost use Rattle.std.specs.Prelude.{◌≡◌, map, codes};
ghost use Rattle.c62_json.specs.Document.{Adds};
ghost use Rattle.c62_json_packets.specs.Member.{register, array_member, object_member};
ghost use Rattle.c62_json_show.specs.Registers.{side_members, sides, lives_member};

use c62_insn::Reg;
use c62_json_packets::member::{begin_array, begin_object, push_null, push_number};
use c62_json_packets::push_register;
use c62_live::{Lives, SideLives};
use json::Writer;
use std::alloc::{AllocError, Global};

/// Writes the names of registers, one behind the other.
fn push_each(alloc: Global, out: &mut Writer, regs: &[Reg]) -> Result<(), AllocError>
    ensures { Adds result out.old out.new (map register regs.now) }
{
    for reg in regs {
        push_register(alloc, out, *reg)?;
    }
    Ok(())
}

/// Writes the member of the registers that a block leaves alone.
#[tactic(auto, unfolding(c62_json_packets::specs::Member::array_member))]
fn push_unused(alloc: Global, out: &mut Writer, regs: &[Reg]) -> Result<(), AllocError>
    ensures { Adds result out.old out.new (array_member (codes "unused") (map register regs.now)) }
{
    begin_array(out, "unused")?;
    push_each(alloc, out, regs)?;
    out.end_array()
}

/// Writes the members of a side: how many registers are live at most, where, and which are left alone.
#[tactic(auto, unfolding(crate::specs::Registers::side_members))]
fn push_side_members(alloc: Global, out: &mut Writer, lives: &SideLives) -> Result<(), AllocError>
    ensures { Adds result out.old out.new (side_members lives.now) }
{
    push_number(out, "most", lives.most as u64)?;
    push_number(out, "cycle", u64::from(lives.cycle))?;
    push_unused(alloc, out, &lives.unused)
}

/// Writes the member of a side.
#[tactic(auto, unfolding(c62_json_packets::specs::Member::object_member))]
fn push_side(
    alloc: Global,
    out: &mut Writer,
    name: &str,
    lives: &SideLives,
) -> Result<(), AllocError>
    ensures { Adds result out.old out.new (object_member name.now (side_members lives.now)) }
{
    begin_object(out, name)?;
    push_side_members(alloc, out, lives)?;
    out.end_object()
}

/// Writes the members of both sides.
#[tactic(auto, unfolding(crate::specs::Registers::sides))]
fn push_sides(alloc: Global, out: &mut Writer, lives: &Lives) -> Result<(), AllocError>
    ensures { Adds result out.old out.new (sides lives.now) }
{
    push_side(alloc, out, "A", &lives.a)?;
    push_side(alloc, out, "B", &lives.b)
}

/// Writes the member of the registers of both sides.
#[tactic(auto, unfolding(c62_json_packets::specs::Member::object_member))]
fn push_both(alloc: Global, out: &mut Writer, name: &str, lives: &Lives) -> Result<(), AllocError>
    ensures { Adds result out.old out.new (object_member name.now (sides lives.now)) }
{
    begin_object(out, name)?;
    push_sides(alloc, out, lives)?;
    out.end_object()
}

/// Writes the member of the registers, or that they weren't asked for.
pub(crate) fn push_registers(
    alloc: Global,
    out: &mut Writer,
    lives: &Option<Lives>,
) -> Result<(), AllocError>
    ensures { Adds result out.old out.new (lives_member lives.now) }
{
    match lives {
        Some(lives) => push_both(alloc, out, "registers", lives),
        None => push_null(out, "registers"),
    }
}
