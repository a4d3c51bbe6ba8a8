//! The registers for which packets don't do what a loop does.

ghost use Rattle.std.specs.Prelude.{◌≡◌, [], ◌∷◌, ◌++◌, codes, decimal, IfOk};
ghost use Rattle.std.specs.List.{flat_map};
ghost use Rattle.json.specs.Token.{key};
ghost use Rattle.c62_json.specs.Document.{Adds, array, object, text};
ghost use Rattle.c62_op.specs.Name.{file_letter, register_name};
ghost use Rattle.c62_insn.specs.Insn.{operands_of};
ghost use Rattle.c62_check_loop.specs.Laws.{loads_into, may_fault};
ghost use Rattle.c62_json_loops.specs.Loops.{but_value, fault_value, faults_member, file_values, name_value, reading_members, reading_object, reads_member, register_values, registers_member};

use crate::member::push_number;
use c62_check_loops::Reading;
use c62_insn::{Insn, Operands, Reg, Side};
use c62_json::{push_count, push_missing, push_name, push_text};
use c62_pair::RegSet;
use c62_read::SerialInsn;
use itoa::Buffer;
use json::Writer;
use std::alloc::{AllocError, Global};

fn file_letter(side: Side) -> &'static [u8]
    ensures { result.now ≡ file_letter side }
{
    match side {
        Side::A => b"A",
        Side::B => b"B",
    }
}

/// The name of a register.
fn name_of(alloc: Global, reg: Reg) -> Result<Vec<u8>, AllocError>
    ensures { IfOk result (λ name. name.items ≡ register_name reg) }
{
    let mut buffer = Buffer::new();
    let mut name = Vec::new(alloc);
    name.extend_from_slice(file_letter(reg.side))?;
    name.extend_from_slice(buffer.format(reg.number).as_bytes())?;
    Ok(name)
}

/// The name of a register as a text.
fn push_register(alloc: Global, out: &mut Writer, reg: Reg) -> Result<(), AllocError>
    ensures { Adds result out.old out.new (text (register_name reg) ∷ []) }
{
    let name = name_of(alloc, reg)?;
    push_text(alloc, out, &name)
}

/// The name of a register, where it is one of these.
fn push_named(alloc: Global, out: &mut Writer, but: RegSet, reg: Reg) -> Result<(), AllocError>
    ensures { Adds result out.old out.new (name_value but reg.side reg.number) }
{
    if but.has(reg) {
        push_register(alloc, out, reg)
    } else {
        Ok(())
    }
}

/// Those of a file.
fn push_file(alloc: Global, out: &mut Writer, but: RegSet, side: Side) -> Result<(), AllocError>
    ensures { Adds result out.old out.new (file_values but side) }
{
    for number in 0..16 {
        push_named(alloc, out, but, Reg { side, number })?;
    }
    Ok(())
}

/// Those of both files.
#[tactic(auto, unfolding(crate::specs::Loops::register_values))]
fn push_files(alloc: Global, out: &mut Writer, but: RegSet) -> Result<(), AllocError>
    ensures { Adds result out.old out.new (register_values but) }
{
    push_file(alloc, out, but, Side::A)?;
    push_file(alloc, out, but, Side::B)
}

/// These registers, as an array.
fn push_all(alloc: Global, out: &mut Writer, but: RegSet) -> Result<(), AllocError>
    ensures { Adds result out.old out.new (array (register_values but)) }
{
    out.begin_array()?;
    push_files(alloc, out, but)?;
    out.end_array()
}

/// These registers, as a member.
#[tactic(auto, unfolding(crate::specs::Loops::registers_member))]
fn push_registers(alloc: Global, out: &mut Writer, but: RegSet) -> Result<(), AllocError>
    ensures { Adds result out.old out.new (registers_member but) }
{
    push_name(out, "registers")?;
    push_all(alloc, out, but)
}

/// Whether an instruction loads or stores one of these registers.
fn loads_into(but: RegSet, insn: &Insn) -> bool
    ensures { result ≡ loads_into but (operands_of insn.now) }
{
    match insn.operands() {
        Operands::Access { register, .. } => but.has(register),
        _ => false,
    }
}

/// Whether it is a load into one of these registers.
fn may_fault(but: RegSet, entry: &SerialInsn) -> bool
    ensures { result ≡ may_fault but entry.now }
{
    !entry.insn.op().is_store() && loads_into(but, &entry.insn)
}

/// The line of a load into one of these registers.
fn push_fault(out: &mut Writer, but: RegSet, entry: &SerialInsn) -> Result<(), AllocError>
    ensures { Adds result out.old out.new (fault_value but entry.now) }
{
    if may_fault(but, entry) {
        push_count(out, u64::from(entry.line))
    } else {
        Ok(())
    }
}

/// Those of a block.
fn push_each_fault(out: &mut Writer, but: RegSet, block: &[SerialInsn]) -> Result<(), AllocError>
    ensures { Adds result out.old out.new (flat_map (fault_value but) block.now) }
{
    for entry in block {
        push_fault(out, but, entry)?;
    }
    Ok(())
}

/// The lines of loads of a block into these registers, as a member.
#[tactic(auto, unfolding(crate::specs::Loops::faults_member))]
fn push_faults(out: &mut Writer, but: RegSet, block: &[SerialInsn]) -> Result<(), AllocError>
    ensures { Adds result out.old out.new (faults_member but block.now) }
{
    out.key("faults")?;
    out.begin_array()?;
    push_each_fault(out, but, block)?;
    out.end_array()
}

/// The name of a register, as a member.
fn push_reg(alloc: Global, out: &mut Writer, reg: Reg) -> Result<(), AllocError>
    ensures { Adds result out.old out.new (key (codes "register") ∷ text (register_name reg) ∷ []) }
{
    push_name(out, "register")?;
    push_register(alloc, out, reg)
}

/// A register, and the line that may read it.
#[tactic(auto, unfolding(crate::specs::Loops::reading_members))]
fn push_members(alloc: Global, out: &mut Writer, reading: Reading) -> Result<(), AllocError>
    ensures { Adds result out.old out.new (reading_members reading) }
{
    push_reg(alloc, out, reading.reg)?;
    push_number(out, "line", u64::from(reading.line))
}

fn push_reading(alloc: Global, out: &mut Writer, reading: Reading) -> Result<(), AllocError>
    ensures { Adds result out.old out.new (reading_object reading) }
{
    out.begin_object()?;
    push_members(alloc, out, reading)?;
    out.end_object()
}

fn push_each_reading(
    alloc: Global,
    out: &mut Writer,
    readings: &[Reading],
) -> Result<(), AllocError>
    ensures { Adds result out.old out.new (flat_map reading_object readings.now) }
{
    for reading in readings {
        push_reading(alloc, out, *reading)?;
    }
    Ok(())
}

/// What may read these registers, as a member.
#[tactic(auto, unfolding(crate::specs::Loops::reads_member))]
fn push_reads(alloc: Global, out: &mut Writer, readings: &[Reading]) -> Result<(), AllocError>
    ensures { Adds result out.old out.new (reads_member readings.now) }
{
    out.key("reads")?;
    out.begin_array()?;
    push_each_reading(alloc, out, readings)?;
    out.end_array()
}

fn push_object(
    alloc: Global,
    out: &mut Writer,
    but: RegSet,
    block: &[SerialInsn],
    readings: &[Reading],
) -> Result<(), AllocError>
    ensures { Adds result out.old out.new (object (registers_member but ++ faults_member but block.now ++ reads_member readings.now)) }
{
    out.begin_object()?;
    push_registers(alloc, out, but)?;
    push_faults(out, but, block)?;
    push_reads(alloc, out, readings)?;
    out.end_object()
}

/// The member of the registers for which packets don't do what the loop of a block does, where there are such.
#[tactic(auto, unfolding(crate::specs::Loops::but_value))]
pub(crate) fn push_but(
    alloc: Global,
    out: &mut Writer,
    but: Option<RegSet>,
    block: &[SerialInsn],
    readings: &[Reading],
) -> Result<(), AllocError>
    ensures { Adds result out.old out.new (key (codes "but") ∷ but_value but block.now readings.now) }
{
    out.key("but")?;
    match but {
        Some(but) => push_object(alloc, out, but, block, readings),
        None => push_missing(out),
    }
}
