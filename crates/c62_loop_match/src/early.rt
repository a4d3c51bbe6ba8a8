//! Which instance comes too early behind another one (docs/MACHINE.md, "Dependences").

ghost use Rattle.std.specs.Prelude.{◌≡◌, ◌<◌, ◌-◌, ℕ, length, MatchOption};
ghost use Rattle.c62_op.specs.declared.register.Reg.{Reg as Register};
ghost use Rattle.c62_rules.specs.Exclusive.{is_written_by};
ghost use Rattle.c62_pair.specs.Uses.{insns_in};
ghost use Rattle.c62_pair.specs.RegSet.{reg_in};
ghost use Rattle.c62_pair.specs.Numbers.{as_bound};
ghost use Rattle.c62_loop.specs.Stage.{Straights};
ghost use Rattle.c62_loop_match.specs.Promise.{promises};
ghost use Rattle.c62_loop_match.specs.Distances.{IsKept, KeepsPair, KeepsParted, Parts};
ghost use Rattle.c62_loop_match.specs.Early.{IsEarlyBy, IsEarlyBehind, ComesEarly};

use crate::borders::{Borders, part_of};
use crate::needs::needs;
use crate::path::Instance;
use crate::promise::Promise;
use c62_pair::{RegSet, Uses};

/// An instance that comes too early behind another one.
#[derive(Clone, Copy, PartialEq, Eq, Debug)]
pub struct Early {
    /// Its line in the packets.
    pub line: u32,
    /// The line of the other there.
    pub after: u32,
    /// How many cycles behind the other it must come at least.
    pub needs: i32,
    /// How many it comes behind it: fewer than 0 where it comes before.
    pub has: i64,
    /// How many iterations later it is. What stands before the loop counts as one, and what stands behind it.
    pub apart: u64,
}

/// What is told of the second of two instances, so many iterations later, where it doesn't come as late as a number of c62_pair asks.
fn early_by(number: u8, first: Instance, second: Instance, apart: u64) -> Option<Early>
    ensures { MatchOption result (IsKept (as_bound number) first.cycle second.cycle) (IsEarlyBy (as_bound number) first second apart) }
{
    if number == 0 {
        return None;
    }
    let needs = i32::from(number) - 6;
    let has = i64::from(second.cycle) - i64::from(first.cycle);
    if i64::from(needs) <= has {
        return None;
    }
    Some(Early {
        line: second.line,
        after: first.line,
        needs,
        has,
        apart,
    })
}

/// Whether memory needs no order between two of these parts.
fn is_excused(promise: Promise, from: usize, to: usize, first: &Uses, second: &Uses) -> bool
    ensures { result ≡ (nat_lt from to && promises promise first.now.insn second.now.insn) }
{
    from < to && promise.is_of(&first.insn, &second.insn)
}

ghost use Rattle.std.specs.Prelude.{nat_lt, ◌&&◌};

/// What is told of instance `j`, of the part `to`, where it comes too early behind instance `i`, of the part `from`. These registers
/// are written from `i` on and before `j`.
fn early_pair(
    path: &[Uses],
    instances: &[Instance],
    promise: Promise,
    written: RegSet,
    from: usize,
    to: usize,
    i: usize,
    j: usize,
) -> Option<Early>
    requires before { i < j }
    requires within { j < length path.now }
    requires count { length instances.now ≡ length path.now }
    requires written { (reg : Register) → reg_in written reg ≡ is_written_by (insns_in path.now) i (j - i) reg }
    ensures { MatchOption result (KeepsPair (promises promise) (insns_in path.now) instances.now from to i j)
        (IsEarlyBehind (promises promise) (insns_in path.now) instances.now from to i j) }
{
    let first = &path[i];
    let second = &path[j];
    let excused = is_excused(promise, from, to, first, second);
    let number = needs(first, second, written, excused);
    let apart = to.saturating_sub(from) as u64;
    let one = &instances[i];
    let other = &instances[j];
    early_by(number, *one, *other, apart)
}

/// What is told of instance `j`, where it comes too early behind one before it: of the last such.
fn early_behind(
    path: &[Uses],
    instances: &[Instance],
    promise: Promise,
    borders: Borders,
    j: usize,
) -> Option<Early>
    requires within { j < length path.now }
    requires count { length instances.now ≡ length path.now }
    ensures { MatchOption result
        ((straights : Straights) → Parts straights borders → (i : ℕ) → i < j → KeepsParted (promises promise) straights borders.trips (insns_in path.now) instances.now i j)
        (λ early. (straights : Straights) → Parts straights borders → ComesEarly (promises promise) straights borders.trips (insns_in path.now) instances.now early) }
{
    let to = part_of(borders, j);
    let mut written = RegSet::new();
    let mut i = j;
    while i > 0 {
        i -= 1;
        written = written.joined(path[i].written);
        let from = part_of(borders, i);
        if let Some(early) = early_pair(path, instances, promise, written, from, to, i, j) {
            return Some(early);
        }
    }
    None
}

/// What is told of the first instance that comes too early.
pub(crate) fn first_early(
    path: &[Uses],
    instances: &[Instance],
    promise: Promise,
    borders: Borders,
) -> Option<Early>
    requires count { length instances.now ≡ length path.now }
    ensures { MatchOption result
        ((straights : Straights) → Parts straights borders → (i j : ℕ) → i < j → j < length path.now
        → KeepsParted (promises promise) straights borders.trips (insns_in path.now) instances.now i j)
        (λ early. (straights : Straights) → Parts straights borders → ComesEarly (promises promise) straights borders.trips (insns_in path.now) instances.now early) }
{
    for j in 0..path.len() {
        if let Some(early) = early_behind(path, instances, promise, borders, j) {
            return Some(early);
        }
    }
    None
}
