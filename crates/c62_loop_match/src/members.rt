//! Which placed instructions stand in a list.

ghost use Rattle.std.specs.Prelude.{◌≡◌, ◌↔◌, Contains, IsTrue};
ghost use Rattle.std.specs.Bool.{OnTrue};
ghost use Rattle.c62_loop_match.specs.Members.{AreWithin, AreOneSet};

use c62_packet::Placed;

/// Whether both are one instruction, with its line, in one cycle on one unit.
fn is_same(one: &Placed, other: &Placed) -> bool
    ensures { IsTrue result ↔ (one.now ≡ other.now) }
{
    one.insn.same(&other.insn)
        && one.line == other.line
        && one.cycle == other.cycle
        && one.unit == other.unit
}

/// Whether this stands among them.
fn holds(placed: &[Placed], one: &Placed) -> bool
    ensures { OnTrue result (Contains placed.now one.now) }
{
    placed.iter().any(|each| is_same(each, one))
}

/// Whether each of the first stands among the second.
fn are_within(ones: &[Placed], others: &[Placed]) -> bool
    ensures { OnTrue result (AreWithin ones.now others.now) }
{
    ones.iter().all(|one| holds(others, one))
}

/// Whether both lists hold the same.
pub(crate) fn are_one_set(ones: &[Placed], others: &[Placed]) -> bool
    ensures { OnTrue result (AreOneSet ones.now others.now) }
{
    are_within(ones, others) && are_within(others, ones)
}
