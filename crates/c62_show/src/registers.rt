//! The registers of both sides, and their lines.

ghost use Rattle.std.specs.Prelude.{◌++◌, IfOk, OnOk, codes};
ghost use Rattle.std.specs.List.{flat_map};
ghost use Rattle.c62_op.specs.Name.{register_name};
ghost use Rattle.c62_listing.specs.Written.{AddsText};
ghost use Rattle.c62_show.specs.Registers.{file_name, most_words, names, unused_words, side_line, both_lines, register_lines, TellsLives};

use c62_grid::words::{push_number, push_register};
use c62_insn::{Reg, Side};
use c62_live::{Lives, SideLives, lives_of};
use c62_packet::PacketBlock;
use std::alloc::{AllocError, Global};

/// The registers of a block of packets, where they are asked for.
///
/// # Errors
///
/// Where memory ran out.
pub fn lives_told(
    alloc: Global,
    packets: &PacketBlock,
    registers: bool,
) -> Result<Option<Lives>, AllocError>
    ensures { IfOk result (TellsLives registers packets.now) }
{
    if registers {
        Ok(Some(lives_of(alloc, packets.placed(), packets.length())?))
    } else {
        Ok(None)
    }
}

fn push_file(out: &mut String, side: Side) -> Result<(), AllocError>
    ensures { OnOk result (AddsText out.old (file_name side) out.new) }
{
    match side {
        Side::A => out.push_str("  live A: "),
        Side::B => out.push_str("  live B: "),
    }
}

/// How many are live at most, and where.
fn push_most(out: &mut String, most: u64, cycle: u64) -> Result<(), AllocError>
    ensures { OnOk result (AddsText out.old (most_words most cycle) out.new) }
{
    push_number(out, most)?;
    out.push_str(" at most, in cycle ")?;
    push_number(out, cycle)?;
    out.push_str("; unused")?;
    Ok(())
}

/// The names of registers, with a space before each.
///
/// # Errors
///
/// Where memory ran out.
pub fn push_names(out: &mut String, regs: &[Reg]) -> Result<(), AllocError>
    ensures { OnOk result (AddsText out.old (names regs.now) out.new) }
{
    for reg in regs {
        out.push_str(" ")?;
        push_register(out, *reg)?;
    }
    Ok(())
}

/// Those that the block leaves alone.
fn push_unused(out: &mut String, regs: &[Reg]) -> Result<(), AllocError>
    ensures { OnOk result (AddsText out.old (unused_words regs.now) out.new) }
{
    if regs.is_empty() {
        out.push_str(" none")
    } else {
        push_names(out, regs)
    }
}

/// The line of a side.
#[tactic(auto, unfolding(crate::specs::Registers::side_line))]
fn push_side(out: &mut String, side: Side, lives: &SideLives) -> Result<(), AllocError>
    ensures { OnOk result (AddsText out.old (side_line side lives.now) out.new) }
{
    push_file(out, side)?;
    push_most(out, lives.most as u64, u64::from(lives.cycle))?;
    push_unused(out, &lives.unused)?;
    out.push_str("\n")
}

#[tactic(auto, unfolding(crate::specs::Registers::both_lines))]
fn push_both(out: &mut String, lives: &Lives) -> Result<(), AllocError>
    ensures { OnOk result (AddsText out.old (both_lines lives.now) out.new) }
{
    push_side(out, Side::A, &lives.a)?;
    push_side(out, Side::B, &lives.b)?;
    out.push_str("  live behind the block: not known\n")
}

/// The lines of the registers, where they are asked for.
///
/// # Errors
///
/// Where memory ran out.
pub fn push_registers(out: &mut String, lives: &Option<Lives>) -> Result<(), AllocError>
    ensures { OnOk result (AddsText out.old (register_lines lives.now) out.new) }
{
    match lives {
        Some(lives) => push_both(out, lives),
        None => Ok(()),
    }
}
