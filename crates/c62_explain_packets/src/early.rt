//! Reads in delay slots: what an instruction reads while a write of it is in flight.

ghost use Rattle.std.specs.Prelude.{◌≡◌, ◌++◌, ◌+◌, ◌&&◌, nat_lt, IfOk, OnOk};
ghost use Rattle.std.specs.List.{list_any};
ghost use Rattle.c62_op.specs.Takes.{same_reg};
ghost use Rattle.c62_insn.specs.Insn.{is_condition_on, operand_reads, reads_register};
ghost use Rattle.c62_explain_packets.specs.Early.{early_by, early_of, early_reads, is_early};

use c62_adopt_cut::Issue;
use c62_insn::{Cond, Insn, Reg};
use std::alloc::{AllocError, Global};

/// An instruction that reads a register while a write of it is in flight, so that it reads what was there before.
#[derive(Clone, Copy, PartialEq, Eq, Debug)]
pub struct EarlyRead {
    /// The line that reads.
    pub line: u32,
    pub register: Reg,
    /// The line that writes.
    pub writer: u32,
    /// Whether that loads.
    pub loads: bool,
    /// How many cycles later the read would get what is written.
    pub missing: u64,
}

/// Whether the instruction reads the register as an operand.
fn has_operand(insn: Insn, register: Reg) -> bool
    ensures { result ≡ list_any (λ read. same_reg read register) (operand_reads insn) }
{
    let reads = insn.reads();
    reads.as_slice().iter().any(|read| *read == register)
}

/// Whether the condition is on the register.
fn is_on(cond: Option<Cond>, register: Reg) -> bool
    ensures { result ≡ is_condition_on register cond }
{
    match cond {
        Some(cond) => cond.reg == register,
        None => false,
    }
}

/// Whether the instruction reads the register, as an operand or for its condition.
fn reads_register(insn: Insn, register: Reg) -> bool
    ensures { result ≡ reads_register insn register }
{
    has_operand(insn, register) || is_on(insn.cond(), register)
}

/// The cycle from which on a write of this delay can be read.
fn landed(writer: &Issue, delay: u8) -> u64
    ensures { result ≡ writer.now.cycle + delay + 1 }
{
    u64::from(writer.cycle) + u64::from(delay) + 1
}

/// Whether a write is in flight in the cycle of an instruction that reads its register.
fn is_early(reader: &Issue, writer: &Issue, write: (Reg, u8)) -> bool
    ensures { result ≡ is_early reader.now writer.now write }
{
    let (register, delay) = write;
    writer.cycle < reader.cycle
        && u64::from(reader.cycle) < landed(writer, delay)
        && reads_register(reader.insn, register)
}

/// The reads of one instruction, of what another writes.
fn push_early_by(
    early: &mut Vec<EarlyRead>,
    reader: &Issue,
    writer: &Issue,
) -> Result<(), AllocError>
    ensures { OnOk result (early.new.items ≡ early.old.items ++ early_by reader.now writer.now) }
{
    let writes = writer.insn.writes();
    for write in writes.as_slice() {
        let (register, delay) = *write;
        if is_early(reader, writer, *write) {
            early.push(EarlyRead {
                line: reader.line,
                register,
                writer: writer.line,
                loads: writer.insn.op().is_load(),
                missing: landed(writer, delay) - u64::from(reader.cycle),
            })?;
        }
    }
    Ok(())
}

/// The reads of one instruction.
fn push_early_of(
    early: &mut Vec<EarlyRead>,
    reader: &Issue,
    issues: &[Issue],
) -> Result<(), AllocError>
    ensures { OnOk result (early.new.items ≡ early.old.items ++ early_of issues.now reader.now) }
{
    for writer in issues {
        push_early_by(early, reader, writer)?;
    }
    Ok(())
}

/// The reads in delay slots of a block: each instruction that reads a register while a write of it by another is in flight.
///
/// # Errors
///
/// `AllocError` where memory ran out.
#[tactic(auto, unfolding(crate::specs::Early::early_reads))]
pub fn early_reads(alloc: Global, issues: &[Issue]) -> Result<Vec<EarlyRead>, AllocError>
    ensures { IfOk result (λ early. early.items ≡ early_reads issues.now) }
{
    let mut early = Vec::new(alloc);
    for reader in issues {
        push_early_of(&mut early, reader, issues)?;
    }
    Ok(early)
}
