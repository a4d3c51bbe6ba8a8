//! Since when the registers that an excuse asks for keep their values.

ghost use Rattle.std.specs.Prelude.{◌≡◌, ◌≤◌, ◌<◌, ◌^◌, ℕ, List, length, slice_index, if◌then◌else◌, IfOk};
ghost use Rattle.c62_op.specs.declared.register.Reg.{Reg as Register};
ghost use Rattle.c62_insn.specs.declared.insn.Insn.{Insn};
ghost use Rattle.c62_op.specs.Register.{register_index};
ghost use Rattle.c62_pair.specs.RegSet.{reg_in};
ghost use Rattle.c62_pair.specs.Uses.{insns_in};
ghost use Rattle.c62_depend.specs.Since.{StandSince, IsSince, AreSince};

use c62_pair::{RegSet, Uses};
use c62_read::MOST_INSTRUCTIONS;
use std::alloc::{AllocError, Global};

/// From which instruction on, and before this one, no instruction writes the register of its condition, and the base of its
/// access at a constant offset. Where it has none, any number.
#[derive(Clone, Copy)]
pub(crate) struct Since {
    pub condition: u16,
    pub base: u16,
}

/// Puts a number at each of these registers.
fn put(numbers: &mut [u16; 32], set: RegSet, number: u16)
    ensures { (reg : Register) → slice_index numbers.new (register_index reg) ≡ (if reg_in set reg then number else slice_index numbers.old (register_index reg)) }
{
    let mut at = 0;
    let mut rest = set.bits();
    while rest != 0 {
        let skipped = rest.trailing_zeros();
        let index = at + skipped as usize;
        numbers[index] = number;
        at = index + 1;
        rest = rest >> skipped >> 1;
    }
}

/// That of an instruction, of the numbers at its registers.
fn since_of(numbers: &[u16; 32], one: &Uses) -> Since
    ensures { (block : List Insn) (j : ℕ) → StandSince block j numbers.now → IsSince block j one.now.insn result }
{
    let condition = match one.insn.cond() {
        Some(cond) => numbers[usize::from(cond.reg.index())],
        None => 0,
    };
    let base = match one.covered {
        Some(bytes) => numbers[usize::from(bytes.base.index())],
        None => 0,
    };
    Since { condition, base }
}

/// That of each instruction.
pub(crate) fn all_since(alloc: Global, uses: &[Uses]) -> Result<Vec<Since>, AllocError>
    requires { length uses.now ≤ MOST_INSTRUCTIONS }
    ensures { IfOk result (λ since. AreSince uses.now since.items) }
{
    let mut numbers = [0u16; 32];
    let mut all = Vec::with_capacity(alloc, uses.len())?;
    for j in 0..uses.len() {
        all.push(since_of(&numbers, &uses[j]))?;
        put(&mut numbers, uses[j].written, j as u16 + 1);
    }
    Ok(all)
}
