//! Conditions as numbers, so that two of them are compared at once.

ghost use Rattle.std.specs.Prelude.{◌≡◌};
ghost use Rattle.c62_pair.specs.Conditions.{test_of, opposite_of};

use c62_insn::Cond;

/// The number of a condition, and 0 where there is none.
pub(crate) fn test_of(cond: Option<Cond>) -> u8
    ensures { result ≡ test_of cond }
{
    match cond {
        None => 0,
        Some(cond) => 2 * cond.reg.index() + if cond.negated { 2 } else { 1 },
    }
}

/// The number of the opposite condition, and 255, which no condition has, where there is none.
pub(crate) fn opposite_of(cond: Option<Cond>) -> u8
    ensures { result ≡ opposite_of cond }
{
    match cond {
        None => 255,
        Some(cond) => 2 * cond.reg.index() + if cond.negated { 1 } else { 2 },
    }
}
