//! Pairs of instructions that need no order although both write a register or access memory
//! (docs/MACHINE.md, "Dependences").

ghost use Rattle.std.specs.Prelude.{◌≡◌, ◌==◌, ◌&&◌, ◌<◌, nat_le, length};
ghost use Rattle.c62_rules.specs.Dependence.{are_exclusive, are_disjoint};
ghost use Rattle.c62_depend.specs.Since.{apart_since, AreSince};
ghost use Rattle.c62_pair.specs.Uses.{insns_in};

use crate::since::Since;
use c62_pair::{Covered, Uses};

/// Whether the second instruction stands under the condition opposite to that of the first, number `i`, and its register
/// keeps its value between.
fn is_exclusive(first: &Uses, second: &Uses, since: Since, i: usize) -> bool
    ensures { result ≡ ((first.now.test == second.now.opposite) && nat_le since.condition i) }
{
    first.test == second.opposite && usize::from(since.condition) <= i
}

/// Whether of instructions `i` and `j`, which stands behind it, at most one can run.
pub(crate) fn are_exclusive(uses: &[Uses], since: &[Since], i: usize, j: usize) -> bool
    requires before { i < j }
    requires within { j < length uses.now }
    requires since { AreSince uses.now since.now }
    ensures { result ≡ are_exclusive (insns_in uses.now) i j }
{
    is_exclusive(&uses[i], &uses[j], since[j], i)
}

/// Whether the bytes of an access and those of a later one are apart, and their base keeps its value from instruction `i`
/// on.
fn is_disjoint(first: Option<Covered>, second: Option<Covered>, base: u16, i: usize) -> bool
    ensures { result ≡ apart_since first second base i }
{
    match (first, second) {
        (Some(one), Some(other)) => one.is_apart(other) && usize::from(base) <= i,
        _ => false,
    }
}

/// Whether the accesses of both never meet, so that they need no order.
pub(crate) fn are_disjoint(uses: &[Uses], since: &[Since], i: usize, j: usize) -> bool
    requires before { i < j }
    requires within { j < length uses.now }
    requires since { AreSince uses.now since.now }
    ensures { result ≡ are_disjoint (insns_in uses.now) i j }
{
    let first = &uses[i];
    let second = &uses[j];
    is_disjoint(first.covered, second.covered, since[j].base, i)
}
