//! Whether steps and branches come in turn.

ghost use Rattle.std.specs.Prelude.{◌≡◌, map};
ghost use Rattle.std.specs.Bool.{OnTrue};
ghost use Rattle.c62_meaning.specs.Cut.{moved};
ghost use Rattle.c62_loop.specs.Whole.{IsInTurn, AreInTurn, StandInTurn};
ghost use Rattle.c62_loop_match.specs.Turns.{in_turn};
ghost use Rattle.std.specs.List.{list_all};

use crate::counted::is_written;
use c62_insn::Reg;
use c62_packet::Placed;

/// Whether the one comes no later than the other does so many cycles later, and before it where it is a step.
fn is_in_turn(counter: Reg, one: &Placed, other: &Placed, later: u16) -> bool
    ensures { result ≡ in_turn counter later one.now other.now }
{
    let end = u32::from(later) + u32::from(other.cycle);
    if is_written(counter, &one.insn) {
        u32::from(one.cycle) < end
    } else {
        u32::from(one.cycle) <= end
    }
}

/// Whether it does with each of these.
fn is_before_all(counter: Reg, one: &Placed, others: &[Placed], later: u16) -> bool
    ensures { result ≡ list_all (in_turn counter later one.now) others.now }
{
    others
        .iter()
        .all(|other| is_in_turn(counter, one, other, later))
}

fn all_before_all(counter: Reg, ones: &[Placed], others: &[Placed], later: u16) -> bool
    ensures { result ≡ list_all (λ p. list_all (in_turn counter later p) others.now) ones.now }
{
    ones.iter()
        .all(|one| is_before_all(counter, one, others, later))
}

/// Whether each of the first comes in turn before each of the second, which come so many cycles later.

pub(crate) fn are_in_turn(counter: Reg, ones: &[Placed], others: &[Placed], later: u16) -> bool
    ensures { OnTrue result (AreInTurn counter ones.now (map (moved later) others.now)) }
{
    all_before_all(counter, ones, others, later)
}

/// Whether each comes in turn before those behind it.
pub(crate) fn stand_in_turn(counter: Reg, placed: &[Placed]) -> bool
    ensures { OnTrue result (StandInTurn counter placed.now) }
{
    for number in 0..placed.len() {
        if !is_before_all(counter, &placed[number], &placed[number + 1..], 0) {
            return false;
        }
    }
    true
}
