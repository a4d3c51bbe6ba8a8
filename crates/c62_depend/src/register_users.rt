//! What the instructions before one did to the registers, as far as it may matter to that one.

ghost use Rattle.std.specs.Prelude.{◌≡◌, ◌↔◌, ◌≤◌, ◌<◌, ◌+◌, ◌||◌, ◌==◌, ◌&&◌, not, ℕ, true, List, length, slice_index_or, if◌then◌else◌, IsTrue};
ghost use Rattle.c62_op.specs.declared.register.Reg.{Reg as Register};
ghost use Rattle.c62_pair.specs.RegSet.{reg_in};
ghost use Rattle.c62_depend.specs.NumberSet.{number_in};
ghost use Rattle.c62_depend.specs.Open.{at_register};

use crate::number_set::NumberSet;
use c62_pair::{RegSet, Uses};
use c62_read::MOST_INSTRUCTIONS;

/// A set of numbers for each register, by its index.
type Sets = [NumberSet; 32];

/// What stays of a set.
fn kept(set: NumberSet, clears: bool) -> NumberSet
    ensures { (k : ℕ) → number_in result k ≡ (not clears && number_in set k) }
{
    if clears { NumberSet::new() } else { set }
}

/// Adds number `k` at each of these registers, where nothing else stays if it clears them.
fn note(sets: &mut Sets, registers: RegSet, k: usize, clears: bool)
    requires { k < MOST_INSTRUCTIONS }
    ensures { (reg : Register) (other : ℕ) → number_in (at_register sets.new reg) other
        ≡ (if reg_in registers reg then (not clears && number_in (at_register sets.old reg) other) || (other == k) else number_in (at_register sets.old reg) other) }
{
    let mut at = 0;
    let mut rest = registers.bits();
    while rest != 0 {
        let skipped = rest.trailing_zeros();
        let index = at + skipped as usize;
        sets[index] = kept(sets[index], clears).with(k);
        at = index + 1;
        rest = rest >> skipped >> 1;
    }
}

/// The numbers at some of these registers.
fn joined(sets: &Sets, registers: RegSet) -> NumberSet
    ensures { (k : ℕ) → number_in result k ≡ true ↔ ((reg : Register) × (reg_in registers reg ≡ true) × (number_in (at_register sets.now reg) k ≡ true)) }
{
    let mut all = NumberSet::new();
    let mut at = 0;
    let mut rest = registers.bits();
    while rest != 0 {
        let skipped = rest.trailing_zeros();
        let index = at + skipped as usize;
        all = all.joined(sets[index]);
        at = index + 1;
        rest = rest >> skipped >> 1;
    }
    all
}

/// Of each register, the instructions before one that use it, from the last on that writes it under no condition.
#[derive(Clone, Copy)]
pub(crate) struct RegisterUsers {
    /// Those that write it.
    writers: Sets,
    /// Those that read or write it.
    users: Sets,
}

impl RegisterUsers {
    ghost use Rattle.c62_pair.specs.declared.uses.Uses.{Uses as Used};
    ghost use Rattle.c62_depend.specs.Open.{IsOpenAt, AreOpenly};

    /// None, before the first instruction.
    pub fn new() -> RegisterUsers
        ensures { (uses : List Used) → IsOpenAt uses 0 result }
    {
        RegisterUsers {
            writers: [NumberSet::new(); 32],
            users: [NumberSet::new(); 32],
        }
    }

    /// The instructions before instruction `j` that meet it openly.
    pub fn behind(&self, uses: &[Uses], j: usize) -> NumberSet
        requires within { j < length uses.now }
        requires known { IsOpenAt uses.now j self.now }
        ensures { AreOpenly uses.now j result }
    {
        let one = &uses[j];
        joined(&self.writers, one.used).joined(joined(&self.users, one.written))
    }

    /// Adds instruction `j`.
    pub fn add(&mut self, uses: &[Uses], j: usize)
        requires few { length uses.now ≤ MOST_INSTRUCTIONS }
        requires within { j < length uses.now }
        requires known { IsOpenAt uses.now j self.old }
        ensures { IsOpenAt uses.now (j + 1) self.new }
    {
        let one = &uses[j];
        let always = one.insn.cond().is_none();
        note(&mut self.writers, one.written, j, always);
        note(&mut self.users, one.written, j, always);
        note(&mut self.users, one.reads, j, false);
    }
}
