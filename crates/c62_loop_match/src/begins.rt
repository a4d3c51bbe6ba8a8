//! Whether steps and branches begin with what the instructions above the label leave in the counter.

ghost use Rattle.std.specs.Prelude.{◌≡◌, ◌++◌, ◌∷◌, [], ℕ, MatchOption};
ghost use Rattle.std.specs.Bool.{OnTrue};
ghost use Rattle.c62_loop.specs.Whole.{IsAsked, ComesBehind, ComeBehind};
ghost use Rattle.c62_loop_match.specs.Begin.{IsMost, IsEarlyStart, HoldEarlyStart};

use crate::counted::is_written;
use crate::early::Early;
use crate::parts::Control;
use c62_insn::Reg;
use c62_packet::Placed;
use c62_pair::Uses;

/// By how many cycles at least a step or branch comes behind an instruction above the label, where anything is asked.
fn needed(counter: Reg, one: &Placed, other: &Placed) -> Option<u8>
    ensures { MatchOption result ((needs : ℕ) → IsAsked counter one.now other.now needs → ⊥) (IsMost counter one.now other.now) }
{
    let uses = Uses::new(one.insn);
    if uses.results.has(counter) {
        Some(uses.delay + 1)
    } else if uses.at_once.has(counter) {
        Some(1)
    } else if uses.reads.has(counter) && is_written(counter, &other.insn) {
        Some(0)
    } else {
        None
    }
}

/// What is told of a step or branch that comes too early behind an instruction above the label.
fn early_start(counter: Reg, one: &Placed, other: &Placed) -> Option<Early>
    ensures { MatchOption result (ComesBehind counter one.now other.now) (IsEarlyStart counter one.now other.now) }
{
    let Some(needs) = needed(counter, one, other) else {
        return None;
    };
    let has = i64::from(other.cycle) - i64::from(one.cycle);
    if i64::from(needs) <= has {
        return None;
    }
    Some(Early {
        line: other.line,
        after: one.line,
        needs: i32::from(needs),
        has,
        apart: 1,
    })
}

/// What is told of the first of these that does.
fn early_among(counter: Reg, one: &Placed, others: &[Placed]) -> Option<Early>
    ensures { MatchOption result (ComeBehind counter (one.now ∷ []) others.now) (HoldEarlyStart counter (one.now ∷ []) others.now) }
{
    for number in 0..others.len() {
        if let Some(early) = early_start(counter, one, &others[number]) {
            return Some(early);
        }
    }
    None
}

/// What is told of the first of these that comes too early behind one of those.
fn early_behind_any(counter: Reg, ones: &[Placed], others: &[Placed]) -> Option<Early>
    ensures { MatchOption result (ComeBehind counter ones.now others.now) (HoldEarlyStart counter ones.now others.now) }
{
    for number in 0..ones.len() {
        if let Some(early) = early_among(counter, &ones[number], others) {
            return Some(early);
        }
    }
    None
}

/// What is told of the first step or branch, of the prolog or of the kernel's first pass, that comes too early behind an
/// instruction above the label.
pub(crate) fn first_start(counter: Reg, before: &[Placed], control: &Control) -> Option<Early>
    ensures { MatchOption result (ComeBehind counter before.now (control.now.early.items ++ control.now.kernel.items))
        (HoldEarlyStart counter before.now (control.now.early.items ++ control.now.kernel.items)) }
{
    match early_behind_any(counter, before, &control.early) {
        Some(early) => Some(early),
        None => early_behind_any(counter, before, &control.kernel),
    }
}

/// Whether none does.
pub(crate) fn begins(counter: Reg, before: &[Placed], control: &Control) -> bool
    ensures { OnTrue result (ComeBehind counter before.now (control.now.early.items ++ control.now.kernel.items)) }
{
    match first_start(counter, before, control) {
        Some(_) => false,
        None => true,
    }
}
