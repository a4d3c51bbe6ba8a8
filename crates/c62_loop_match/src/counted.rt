//! Whether a loop counts: which instructions lower its counter, and which branches test it (docs/CHECK.md, "Pipelined loops").

ghost use Rattle.std.specs.Prelude.{◌≡◌, ◌==◌, ◌-◌, ◌^◌, min, Some};
ghost use Rattle.std.specs.Bool.{OnTrue};
ghost use Rattle.std.specs.List.{list_all};
ghost use Rattle.c62_insn.specs.Insn.{op_of, operands_of, cond_of, is_condition_on, reads_register};
ghost use Rattle.c62_rules.specs.Exclusive.{writes_in};
ghost use Rattle.c62_loop.specs.Counter.{touches, constant_in, steps_in, work_of};
ghost use Rattle.c62_loop.specs.Loop.{IsCountedLoop};
ghost use Rattle.c62_loop_match.specs.Form.{runs_above_zero, is_guarded, lowers, goes_to, is_step, is_test, stops, counts, is_counted_loop};
ghost use Rattle.c62_loop_match.specs.Parts.{region_of};

use crate::parts::Region;
use c62_insn::{Cond, Insn, Op, Operands, Reg};
use c62_read::SerialInsn;
use std::alloc::{AllocError, Global};

/// Whether an instruction writes the counter.
pub(crate) fn is_written(counter: Reg, insn: &Insn) -> bool
    ensures { result ≡ writes_in counter (Some insn.now) }
{
    let writes = insn.writes();
    writes.as_slice().iter().any(|write| write.0 == counter)
}

/// Whether it stands under a condition on the counter.
fn is_tested(counter: Reg, cond: Option<Cond>) -> bool
    ensures { result ≡ is_condition_on counter cond }
{
    match cond {
        None => false,
        Some(cond) => cond.reg == counter,
    }
}

/// Whether an operand of it is the counter.
fn is_source(counter: Reg, insn: &Insn) -> bool
    ensures { result ≡ list_any (λ read. same_reg read counter) (operand_reads insn.now) }
{
    let reads = insn.reads();
    reads.as_slice().iter().any(|read| *read == counter)
}

ghost use Rattle.std.specs.List.{list_any};
ghost use Rattle.c62_op.specs.Takes.{same_reg};
ghost use Rattle.c62_insn.specs.Insn.{operand_reads};

/// Whether it reads the counter, as an operand or as its condition.
fn is_read(counter: Reg, insn: &Insn) -> bool
    ensures { result ≡ reads_register insn.now counter }
{
    is_source(counter, insn) || is_tested(counter, insn.cond())
}

/// Whether it writes the counter, reads it or tests it.
pub fn touches(counter: Reg, entry: &SerialInsn) -> bool
    ensures { result ≡ touches counter entry.now }
{
    is_written(counter, &entry.insn) || is_read(counter, &entry.insn)
}

/// Whether it runs while the counter isn't 0, and only then.
fn is_guarded(counter: Reg, cond: Option<Cond>) -> bool
    ensures { result ≡ is_guarded counter cond }
{
    match cond {
        None => false,
        Some(cond) => cond.reg == counter && !cond.negated,
    }
}

/// Whether it runs while the counter isn't 0.
fn runs_above_zero(counter: Reg, cond: Option<Cond>) -> bool
    ensures { result ≡ runs_above_zero counter cond }
{
    cond.is_none() || is_guarded(counter, cond)
}

/// Whether it lowers the counter by a constant from 1 to 31.
fn lowers(counter: Reg, insn: &Insn) -> bool
    ensures { result ≡ lowers counter (op_of insn.now) (operands_of insn.now) }
{
    match (insn.op(), insn.operands()) {
        (Op::Sub, Operands::ConstantSecond(from, k, to)) => {
            from == counter && to == counter && 1 <= k && k <= 31
        }
        (Op::Add, Operands::ConstantFirst(k, from, to)) => {
            from == counter && to == counter && -31 <= k && k <= -1
        }
        _ => false,
    }
}

/// Whether it branches to the label of this number.
fn goes_to(number: u8, insn: &Insn) -> bool
    ensures { result ≡ goes_to number (op_of insn.now) (operands_of insn.now) }
{
    match (insn.op(), insn.operands()) {
        (Op::B, Operands::Block(label)) => label == number,
        _ => false,
    }
}

/// Whether it is a step: it takes a constant off the counter, where that is no less.
pub(crate) fn is_step(counter: Reg, insn: &Insn) -> bool
    ensures { result ≡ is_step counter insn.now }
{
    runs_above_zero(counter, insn.cond()) && lowers(counter, insn)
}

/// Whether it is a branch to the loop that runs while the counter isn't 0.
pub(crate) fn is_test(counter: Reg, number: u8, insn: &Insn) -> bool
    ensures { result ≡ is_test counter number insn.now }
{
    is_guarded(counter, insn.cond()) && goes_to(number, insn)
}

/// By how much a step lowers the counter.
pub(crate) fn size_of(insn: &Insn) -> u64
    ensures { result ≡ constant_in (operands_of insn.now) }
{
    match insn.operands() {
        Operands::ConstantSecond(_, k, _) => k.unsigned_abs(),
        Operands::ConstantFirst(k, _, _) => k.unsigned_abs(),
        _ => 1,
    }
}

/// Whether it does nothing where the counter is 0, and else takes one, if it is a step.
pub(crate) fn stops(counter: Reg, insn: &Insn) -> bool
    ensures { result ≡ stops counter insn.now }
{
    is_guarded(counter, insn.cond()) && size_of(insn) == 1
}

/// Whether an instruction that writes the counter is a step, another that reads it is a test, and any other is no branch. The branches of
/// the loop go to the label of this number.
pub fn counts(counter: Reg, number: u8, entry: &SerialInsn) -> bool
    ensures { result ≡ counts counter number entry.now }
{
    if is_written(counter, &entry.insn) {
        is_step(counter, &entry.insn)
    } else if is_read(counter, &entry.insn) {
        is_test(counter, number, &entry.insn)
    } else {
        !entry.insn.op().is_branch()
    }
}

fn all_count(counter: Reg, number: u8, entries: &[SerialInsn]) -> bool
    ensures { result ≡ list_all (counts counter number) entries.now }
{
    entries.iter().all(|entry| counts(counter, number, entry))
}

/// By how much an instruction lowers the counter, and 0 where it is no step.
fn step_of(counter: Reg, entry: &SerialInsn) -> u64
    ensures { result ≡ step_of counter entry.now }
{
    if is_written(counter, &entry.insn) {
        size_of(&entry.insn)
    } else {
        0
    }
}

ghost use Rattle.c62_loop_match.specs.Form.{step_of};

/// By how much the steps of these lower the counter, or the greatest number where that is more.
fn steps_in(counter: Reg, entries: &[SerialInsn]) -> u64
    ensures { result ≡ min (steps_in counter entries.now) (2 ^ 64 - 1) }
{
    let mut steps = 0u64;
    for entry in entries {
        steps = steps.saturating_add(step_of(counter, entry));
    }
    steps
}

/// Whether the steps of these lower the counter by so much.
fn has_steps(counter: Reg, entries: &[SerialInsn], wanted: u8) -> bool
    ensures { result ≡ (steps_in counter entries.now == wanted) }
{
    steps_in(counter, entries) == u64::from(wanted)
}

fn is_straight(entry: &SerialInsn) -> bool
    ensures { result ≡ not (is_branch (op_of entry.now.insn)) }
{
    !entry.insn.op().is_branch()
}

ghost use Rattle.std.specs.Prelude.{not};
ghost use Rattle.c62_op.specs.Shape.{is_branch};

/// Whether none of these is a branch.
fn are_straight(entries: &[SerialInsn]) -> bool
    ensures { result ≡ list_all (λ entry. not (is_branch (op_of entry.insn))) entries.now }
{
    entries.iter().all(|entry| is_straight(entry))
}

/// Whether the loop counts, as it is written: its block lowers the counter by one, and all that touches it from the label on are
/// steps and branches to the loop. What stands above may do with it what it likes, but branches nowhere.
pub fn is_counted_loop(region: &Region) -> bool
    ensures counted { OnTrue result (IsCountedLoop (region_of region.now)) }
    ensures written { result ≡ is_counted_loop (region_of region.now) }
{
    are_straight(&region.before)
        && all_count(region.counter, region.number, &region.body)
        && all_count(region.counter, region.number, &region.behind)
        && has_steps(region.counter, &region.body, 1)
        && has_steps(region.counter, &region.behind, 0)
}

/// Adds an instruction, if it doesn't touch the counter.
fn push_work(work: &mut Vec<SerialInsn>, counter: Reg, entry: SerialInsn) -> Result<(), AllocError>
    ensures { OnOk result (work.new.items ≡ work.old.items ++ work_of counter (entry ∷ [])) }
{
    if !touches(counter, &entry) {
        work.push(entry)?;
    }
    Ok(())
}

ghost use Rattle.std.specs.Prelude.{OnOk, ◌++◌, ◌∷◌, []};

/// The instructions without those that touch the counter.
///
/// # Errors
///
/// `AllocError` where memory ran out.
pub(crate) fn work_of(
    alloc: Global,
    counter: Reg,
    entries: &[SerialInsn],
) -> Result<Vec<SerialInsn>, AllocError>
    ensures { IfOk result (λ work. work.items ≡ work_of counter entries.now) }
{
    let mut work = Vec::new(alloc);
    for entry in entries {
        push_work(&mut work, counter, *entry)?;
    }
    Ok(work)
}

ghost use Rattle.std.specs.Prelude.{IfOk};
