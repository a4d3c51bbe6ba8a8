//! Whether the steps and branches of prolog and kernel count the passes.

ghost use Rattle.std.specs.Prelude.{◌≡◌, ◌||◌, IfSome, IsTrue};
ghost use Rattle.std.specs.Bool.{OnTrue};
ghost use Rattle.std.specs.List.{list_all};
ghost use Rattle.c62_loop.specs.Whole.{IsSteering, entry_of};
ghost use Rattle.c62_loop.specs.Loop.{prolog_cycles, interval};
ghost use Rattle.c62_loop_match.specs.Form.{is_step, is_test};
ghost use Rattle.c62_loop_match.specs.Parts.{loop_of, control_of};
ghost use Rattle.c62_loop_match.specs.Steering.{is_control, CountsOne, CountsAll};

use crate::counted::{is_step, is_test, is_written, size_of, stops};
use crate::parts::{Control, Pipelined};
use crate::turns::{are_in_turn, stand_in_turn};
use c62_insn::Reg;
use c62_packet::Placed;

/// How far steps and branches have counted.
#[derive(Clone, Copy)]
pub(crate) struct Count {
    /// By how much the steps have lowered the counter.
    pub steps: u64,
    /// How many passes the branches have ended.
    pub pass: u64,
    /// The cycle in which the next pass is over.
    pub end: u64,
}

/// What is asked of counting.
#[derive(Clone, Copy)]
pub(crate) struct Rule {
    /// The register that counts.
    pub counter: Reg,
    /// The cycles from one pass to the next.
    pub interval: u16,
    /// How many iterations prolog and epilog hold.
    pub most: u8,
}

/// Whether it is a step of the counter or a branch that tests it.
fn is_control(counter: Reg, label: u8, placed: &Placed) -> bool
    ensures { result ≡ is_control counter label placed.now }
{
    is_step(counter, &placed.insn) || is_test(counter, label, &placed.insn)
}

fn are_control(counter: Reg, label: u8, placed: &[Placed]) -> bool
    ensures { result ≡ list_all (is_control counter label) placed.now }
{
    placed.iter().all(|each| is_control(counter, label, each))
}

/// What a step counts: it finds as much as it takes where one pass is to be made, or stops at zero.
fn count_step(rule: Rule, count: Count, placed: &Placed) -> Option<Count>
    requires { IsTrue (steps_on rule.counter (entry_of placed.now)) }
    ensures { IfSome result (CountsOne rule count placed.now) }
{
    let steps = count.steps.checked_add(size_of(&placed.insn))?;
    if steps <= u64::from(rule.most) + 1 || stops(rule.counter, &placed.insn) {
        Some(Count { steps, ..count })
    } else {
        None
    }
}

ghost use Rattle.c62_loop.specs.Counter.{steps_on};
ghost use Rattle.std.specs.Prelude.{IsFalse};

/// What a branch counts: it takes effect when the next pass is over, and the steps before it have lowered the counter by the
/// iterations that prolog and epilog hold, and by one for each pass up to that.
fn count_test(rule: Rule, count: Count, placed: &Placed) -> Option<Count>
    requires { IsFalse (steps_on rule.counter (entry_of placed.now)) }
    ensures { IfSome result (CountsOne rule count placed.now) }
{
    let pass = count.pass.checked_add(1)?;
    let end = count.end.checked_add(u64::from(rule.interval))?;
    let wanted = pass.checked_add(u64::from(rule.most))?;
    if u64::from(placed.cycle) + 6 == count.end && count.steps == wanted {
        Some(Count { pass, end, ..count })
    } else {
        None
    }
}

fn count_one(rule: Rule, count: Count, placed: &Placed) -> Option<Count>
    ensures { IfSome result (CountsOne rule count placed.now) }
{
    if is_written(rule.counter, &placed.insn) {
        count_step(rule, count, placed)
    } else {
        count_test(rule, count, placed)
    }
}

/// What all of these count, one behind the other.
fn count_all(rule: Rule, from: Count, placed: &[Placed]) -> Option<Count>
    ensures { IfSome result (CountsAll rule from placed.now) }
{
    let mut count = from;
    for each in placed {
        count = count_one(rule, count, each)?;
    }
    Some(count)
}

/// Whether prolog and kernel count: the kernel lowers the counter by one, and has one branch.
fn count_passes(rule: Rule, prolog: u16, control: &Control) -> bool
    ensures { OnTrue result (CountPasses rule prolog (control_of control.now)) }
{
    let first = Count {
        steps: 0,
        pass: 0,
        end: u64::from(prolog) + u64::from(rule.interval),
    };
    let Some(early) = count_all(rule, first, &control.early) else {
        return false;
    };
    let Some(last) = count_all(rule, early, &control.kernel) else {
        return false;
    };
    u64::from(rule.most) <= early.steps
        && early.steps.checked_add(1) == Some(last.steps)
        && early.pass.checked_add(1) == Some(last.pass)
}

ghost use Rattle.c62_loop_match.specs.Steering.{CountPasses};

/// Whether they stand in turn.
fn come_in_turn(rule: Rule, control: &Control) -> bool
    ensures { OnTrue result (ComeInTurn rule.counter rule.interval (control_of control.now)) }
{
    if !stand_in_turn(rule.counter, &control.early) {
        return false;
    }
    if !stand_in_turn(rule.counter, &control.kernel) {
        return false;
    }
    if !are_in_turn(rule.counter, &control.early, &control.kernel, 0) {
        return false;
    }
    are_in_turn(
        rule.counter,
        &control.kernel,
        &control.kernel,
        rule.interval,
    )
}

ghost use Rattle.c62_loop_match.specs.Steering.{ComeInTurn};

/// Whether steps and branches of prolog and kernel count the passes, where the prolog takes so many cycles.
pub(crate) fn is_steering(rule: Rule, prolog: u16, pipelined: &Pipelined, control: &Control) -> bool
    requires prolog { prolog ≡ prolog_cycles (loop_of pipelined.now) }
    requires interval { rule.interval ≡ interval (loop_of pipelined.now) }
    ensures { OnTrue result (IsSteering rule.counter (loop_of pipelined.now) rule.most (control_of control.now)) }
{
    are_control(rule.counter, pipelined.label, &control.early)
        && are_control(rule.counter, pipelined.label, &control.kernel)
        && come_in_turn(rule, control)
        && count_passes(rule, prolog, control)
}
