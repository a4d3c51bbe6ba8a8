//! Why an instruction must come so many cycles behind another.

ghost use Rattle.std.specs.Prelude.{◌≡◌, ◌↔◌, ◌<◌, ℕ, ℤ, List, IsTrue, length, Some};
ghost use Rattle.std.specs.List.{list_any};
ghost use Rattle.c62_insn.specs.declared.insn.Insn.{Insn as Instruction};
ghost use Rattle.c62_insn.specs.Insn.{operand_reads, is_condition_on, reads_register};
ghost use Rattle.c62_op.specs.Takes.{same_reg};
ghost use Rattle.c62_rules.specs.Dependence.{IsBound};
ghost use Rattle.c62_reason.specs.Reason.{reason_of, place_of, IsRead, IsSpared, IsBehind, IsOverwritten, FindsWrite};

use c62_depend::Plan;
use c62_insn::{Cond, Insn, Reg};

/// What an instruction must wait for another by, with the register that both use.
#[derive(Clone, Copy, PartialEq, Eq, Debug)]
pub enum Reason {
    /// It reads the register, as an operand or as its condition, and the other writes it.
    Reads(Reg),
    /// It writes the register, and the other reads it.
    Overwrites(Reg),
    /// Both write the register.
    Writes(Reg),
    /// It loads or stores, and the other stores.
    AccessesMemory,
    /// It stores, and the other loads.
    StoresMemory,
    /// It is the branch.
    Branches,
}

/// Whether the instruction reads the register as an operand.
fn has_operand(insn: Insn, reg: Reg) -> bool
    ensures { result ≡ list_any (λ read. same_reg read reg) (operand_reads insn) }
{
    let reads = insn.reads();
    reads.as_slice().iter().any(|read| *read == reg)
}

/// Whether the condition is on the register.
fn is_on(cond: Option<Cond>, reg: Reg) -> bool
    ensures { result ≡ is_condition_on reg cond }
{
    match cond {
        Some(cond) => cond.reg == reg,
        None => false,
    }
}

/// Whether the instruction reads the register, as an operand or as its condition.
fn reads_register(insn: Insn, reg: Reg) -> bool
    ensures { result ≡ reads_register insn reg }
{
    has_operand(insn, reg) || is_on(insn.cond(), reg)
}

/// Whether the second instruction reads the register of this write of the first, and so must come so many cycles behind it.
fn is_read(second: Insn, cycles: i32, write: (Reg, u8)) -> bool
    ensures { IsTrue result ↔ IsRead second cycles write }
{
    reads_register(second, write.0) && cycles == i32::from(write.1) + 1
}

/// The register of such a write, where there is one.
fn first_read(second: Insn, cycles: i32, writes: &[(Reg, u8)]) -> Option<Reg>
    ensures { FindsWrite (IsRead second cycles) writes.now result }
{
    for write in writes {
        if is_read(second, cycles, *write) {
            return Some(write.0);
        }
    }
    None
}

/// Whether the first instruction reads the register of this write of the second, which so must come so many cycles behind it.
fn is_spared(first: Insn, cycles: i32, write: (Reg, u8)) -> bool
    ensures { IsTrue result ↔ IsSpared first cycles write }
{
    reads_register(first, write.0) && cycles == -i32::from(write.1)
}

/// The register of such a write, where there is one.
fn first_spared(first: Insn, cycles: i32, writes: &[(Reg, u8)]) -> Option<Reg>
    ensures { FindsWrite (IsSpared first cycles) writes.now result }
{
    for write in writes {
        if is_spared(first, cycles, *write) {
            return Some(write.0);
        }
    }
    None
}

/// Whether a write is of the register of an earlier one, and so must come so many cycles behind it.
fn is_behind(cycles: i32, earlier: (Reg, u8), write: (Reg, u8)) -> bool
    ensures { IsTrue result ↔ IsBehind cycles earlier write }
{
    write.0.is_same(earlier.0) && cycles == i32::from(earlier.1) + 1 - i32::from(write.1)
}

/// Whether the second instruction has such a write.
fn is_overwritten(second: Insn, cycles: i32, earlier: (Reg, u8)) -> bool
    ensures { IsTrue result ↔ IsOverwritten second cycles earlier }
{
    let writes = second.writes();
    for write in writes.as_slice() {
        if is_behind(cycles, earlier, *write) {
            return true;
        }
    }
    false
}

/// The register of a write of the first instruction that is overwritten so, where there is one.
fn first_overwritten(second: Insn, cycles: i32, writes: &[(Reg, u8)]) -> Option<Reg>
    ensures { FindsWrite (IsOverwritten second cycles) writes.now result }
{
    for write in writes {
        if is_overwritten(second, cycles, *write) {
            return Some(write.0);
        }
    }
    None
}

/// The reason that none of the cases of registers gives.
fn reason_of_order(first: Insn, second: Insn) -> Reason
    ensures { (block : List Instruction) (i j : ℕ) (cycles : ℤ) (bound : IsBound block i j first second cycles)
        → 3 < place_of (reason_of bound) → reason_of bound ≡ result }
{
    if second.op().is_branch() {
        Reason::Branches
    } else if first.op().is_store() {
        Reason::AccessesMemory
    } else {
        Reason::StoresMemory
    }
}

ghost use Rattle.c62_depend.specs.Latency.{latency};
ghost use Rattle.c62_depend.specs.Plan.{insns_of};
ghost use Rattle.c62_reason.specs.Reason.{IsReason};

/// Why instruction `second` must come so many cycles behind instruction `first`, which is the latency between the two:
/// the first case of dependence that asks for as many (`docs/CHECK.md`, "Why an instruction comes too early").
pub fn reason_for(plan: &Plan, first: u16, second: u16, cycles: i32) -> Reason
    requires within { second < length plan.now.insns }
    requires latency { latency (insns_of plan.now) first second ≡ Some cycles }
    ensures { IsReason (insns_of plan.now) first second cycles result }
{
    let _all = plan.len();
    let first = plan.insn(first);
    let second = plan.insn(second);
    let writes = first.writes();
    let others = second.writes();
    if let Some(reg) = first_read(second, cycles, writes.as_slice()) {
        return Reason::Reads(reg);
    }
    if let Some(reg) = first_spared(first, cycles, others.as_slice()) {
        return Reason::Overwrites(reg);
    }
    if let Some(reg) = first_overwritten(second, cycles, writes.as_slice()) {
        return Reason::Writes(reg);
    }
    reason_of_order(first, second)
}
