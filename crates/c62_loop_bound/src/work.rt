//! What the work of an iteration uses.

ghost use Rattle.std.specs.Prelude.{◌≡◌, ◌≤◌, ◌+◌, ◌++◌, ◌∷◌, [], length, map, IfOk, OnOk};
ghost use Rattle.c62_pair.specs.Uses.{insns_in};
ghost use Rattle.c62_loop.specs.Counter.{work_of};
ghost use Rattle.c62_loop.specs.Whole.{insns_in as insns_of_entries};

use c62_insn::Reg;
use c62_loop_match::touches;
use c62_pair::Uses;
use c62_read::SerialInsn;
use std::alloc::{AllocError, Global};

/// Adds what an instruction uses, if it doesn't touch the counter.
fn push_work(work: &mut Vec<Uses>, counter: Reg, entry: &SerialInsn) -> Result<(), AllocError>
    ensures work { OnOk result (insns_in work.new.items ≡ insns_in work.old.items ++ insns_of_entries (work_of counter (entry.now ∷ []))) }
    ensures few { OnOk result (length work.new.items ≤ length work.old.items + 1) }
{
    if !touches(counter, entry) {
        work.push(Uses::new(entry.insn))?;
    }
    Ok(())
}

/// What the instructions use that don't touch the counter.
///
/// # Errors
///
/// `AllocError` where memory ran out.
pub(crate) fn work_of(
    alloc: Global,
    counter: Reg,
    entries: &[SerialInsn],
) -> Result<Vec<Uses>, AllocError>
    ensures work { IfOk result (λ work. insns_in work.items ≡ insns_of_entries (work_of counter entries.now)) }
    ensures few { IfOk result (λ work. length work.items ≤ length entries.now) }
{
    let mut work = Vec::new(alloc);
    for entry in entries {
        push_work(&mut work, counter, entry)?;
    }
    Ok(work)
}
