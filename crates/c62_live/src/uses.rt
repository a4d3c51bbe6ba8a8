//! What instructions that are placed do with a register.

ghost use Rattle.std.specs.Prelude.{◌≡◌};
ghost use Rattle.c62_insn.specs.Insn.{is_condition_on, reads_register, operand_reads, register_writes};
ghost use Rattle.std.specs.List.{list_any};
ghost use Rattle.c62_op.specs.Takes.{same_reg};
ghost use Rattle.c62_live.specs.Live.{reads_at, is_read, lands_at, ends_at, is_ended, writes_register, is_used_by, is_used};

use c62_insn::{Cond, Insn, Reg};
use c62_packet::Placed;

/// Whether a condition tests the register.
fn tests(cond: Option<Cond>, reg: Reg) -> bool
    ensures { result ≡ is_condition_on reg cond }
{
    match cond {
        Some(cond) => cond.reg == reg,
        None => false,
    }
}

/// Whether an operand reads the register.
fn is_operand(insn: Insn, reg: Reg) -> bool
    ensures { result ≡ list_any (λ read. same_reg read reg) (operand_reads insn) }
{
    let reads = insn.reads();
    reads.as_slice().iter().any(|read| *read == reg)
}

/// Whether an instruction reads the register, as an operand or its condition.
fn reads(insn: Insn, reg: Reg) -> bool
    ensures { result ≡ reads_register insn reg }
{
    is_operand(insn, reg) || tests(insn.cond(), reg)
}

/// Whether an instruction reads the register in this cycle.
fn reads_at(placed: &Placed, reg: Reg, cycle: u16) -> bool
    ensures { result ≡ reads_at reg cycle placed.now }
{
    placed.cycle == cycle && reads(placed.insn, reg)
}

/// Whether the register is read in this cycle.
pub(crate) fn is_read(placed: &[Placed], reg: Reg, cycle: u16) -> bool
    ensures { result ≡ is_read placed.now reg cycle }
{
    placed.iter().any(|each| reads_at(each, reg, cycle))
}

/// Whether a write lands in the register in this cycle.
fn lands_at(placed: &Placed, write: (Reg, u8), reg: Reg, cycle: u16) -> bool
    ensures { result ≡ lands_at placed.now reg cycle write }
{
    write.0 == reg && u32::from(placed.cycle) + u32::from(write.1) == u32::from(cycle)
}

/// Whether an instruction writes the register so that it lands in this cycle.
fn writes_at(placed: &Placed, reg: Reg, cycle: u16) -> bool
    ensures { result ≡ list_any (lands_at placed.now reg cycle) (register_writes placed.now.insn) }
{
    let writes = placed.insn.writes();
    writes
        .as_slice()
        .iter()
        .any(|write| lands_at(placed, *write, reg, cycle))
}

/// Whether an instruction that runs under no condition writes the register so that it lands in this cycle.
fn ends_at(placed: &Placed, reg: Reg, cycle: u16) -> bool
    ensures { result ≡ ends_at reg cycle placed.now }
{
    placed.insn.cond().is_none() && writes_at(placed, reg, cycle)
}

/// Whether what the register holds is gone when this cycle is over, whatever conditions hold.
pub(crate) fn is_ended(placed: &[Placed], reg: Reg, cycle: u16) -> bool
    ensures { result ≡ is_ended placed.now reg cycle }
{
    placed.iter().any(|each| ends_at(each, reg, cycle))
}

/// Whether an instruction writes the register.
fn writes(insn: Insn, reg: Reg) -> bool
    ensures { result ≡ writes_register insn reg }
{
    let writes = insn.writes();
    writes.as_slice().iter().any(|write| write.0 == reg)
}

fn is_used_by(placed: &Placed, reg: Reg) -> bool
    ensures { result ≡ is_used_by reg placed.now }
{
    reads(placed.insn, reg) || writes(placed.insn, reg)
}

/// Whether an instruction reads or writes the register.
pub(crate) fn is_used(placed: &[Placed], reg: Reg) -> bool
    ensures { result ≡ is_used placed.now reg }
{
    placed.iter().any(|each| is_used_by(each, reg))
}
