//! How far two instructions of a block must stand apart.

ghost use Rattle.std.specs.Prelude.{◌≡◌, ◌<◌, ◌&&◌, ◌||◌, not, length};
ghost use Rattle.c62_depend.specs.Latency.{latency_of, latency};
ghost use Rattle.c62_depend.specs.Direct.{keep_order};
ghost use Rattle.c62_pair.specs.Uses.{insns_in};
ghost use Rattle.c62_depend.specs.Since.{AreSince};
ghost use Rattle.c62_pair.specs.Numbers.{as_bound};

use crate::excuse::{are_disjoint, are_exclusive};
use crate::since::Since;
use c62_pair::{Uses, as_bound, by_order, by_registers};

/// The greatest bound of all cases, as a number.
#[tactic(auto, using(crate::proofs::Numbers::all_is))]
fn by_all(exclusive: bool, disjoint: bool, first: &Uses, second: &Uses) -> u8
    ensures { as_bound result ≡ latency_of exclusive disjoint first.now.insn second.now.insn }
{
    by_registers(exclusive, first, second).max(by_order(disjoint, first, second))
}

/// By how much the cycle of instruction `j` must at least exceed that of instruction `i`, which stands before it: the
/// greatest bound of the cases that apply, as a number.
pub(crate) fn latency_number(uses: &[Uses], since: &[Since], i: usize, j: usize) -> u8
    requires before { i < j }
    requires within { j < length uses.now }
    requires since { AreSince uses.now since.now }
    ensures { as_bound result ≡ latency (insns_in uses.now) i j }
{
    let exclusive = are_exclusive(uses, since, i, j);
    let disjoint = are_disjoint(uses, since, i, j);
    by_all(exclusive, disjoint, &uses[i], &uses[j])
}

/// By how much the cycle of instruction `j` must at least exceed that of instruction `i`, which stands before it: the
/// greatest bound of the cases that apply, and `None` where none does.
pub(crate) fn latency(uses: &[Uses], since: &[Since], i: usize, j: usize) -> Option<i32>
    requires before { i < j }
    requires within { j < length uses.now }
    requires since { AreSince uses.now since.now }
    ensures { result ≡ latency (insns_in uses.now) i j }
{
    as_bound(latency_number(uses, since, i, j))
}

/// Whether both access memory, and one of them stores.
fn may_meet(first: &Uses, second: &Uses) -> bool
    ensures { result ≡ ((first.now.stores && (second.now.loads || second.now.stores)) || (first.now.loads && second.now.stores)) }
{
    first.stores && (second.loads || second.stores) || first.loads && second.stores
}

fn is_unless(applies: bool, excused: bool) -> bool
    ensures { result ≡ (applies && not excused) }
{
    applies && !excused
}

/// Whether instructions `i` and `j`, which stands behind it, access memory, one of them stores, and they are not disjoint.
pub(crate) fn are_in_order(uses: &[Uses], since: &[Since], i: usize, j: usize) -> bool
    requires before { i < j }
    requires within { j < length uses.now }
    requires since { AreSince uses.now since.now }
    ensures { result ≡ keep_order (insns_in uses.now) i j }
{
    let disjoint = are_disjoint(uses, since, i, j);
    is_unless(may_meet(&uses[i], &uses[j]), disjoint)
}
