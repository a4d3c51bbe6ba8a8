//! The table of why each instruction isn't issued a cycle earlier.

ghost use Rattle.std.specs.Prelude.{OnOk};
ghost use Rattle.std.specs.List.{flat_map};
ghost use Rattle.c62_listing.specs.Written.{AddsText};
ghost use Rattle.c62_show.specs.Whys.{held_words, taken_words, more_words, shortage_words, cause_words, why_columns, why_row, whole_table, whys_table};

use crate::words::{push_reason, push_resource};
use c62_grid::words::{push_number, push_right_number, push_signed};
use c62_why::{Cause, Held, Shortage, Taken, Why};
use std::alloc::AllocError;

/// How wide each of the columns of numbers is.
const NUMBER_WIDTH: usize = 6;

/// The dependence that an instruction would break.
#[tactic(auto, unfolding(crate::specs::Whys::held_words))]
fn push_held(out: &mut String, held: &Held) -> Result<(), AllocError>
    ensures { OnOk result (AddsText out.old (held_words held.now) out.new) }
{
    out.push_str("after ")?;
    push_number(out, u64::from(held.after))?;
    out.push_str(" needs ")?;
    push_signed(out, held.needs)?;
    out.push_str(" ")?;
    push_reason(out, held.reason)
}

/// What others have taken.
#[tactic(auto, unfolding(crate::specs::Whys::taken_words))]
fn push_taken(out: &mut String, taken: &Taken) -> Result<(), AllocError>
    ensures { OnOk result (AddsText out.old (taken_words taken.now) out.new) }
{
    push_resource(out, taken.resource)?;
    out.push_str(" taken by ")?;
    push_number(out, u64::from(taken.by))
}

/// What others have taken, behind something else of that kind.
#[tactic(auto, unfolding(crate::specs::Whys::more_words))]
fn push_another(out: &mut String, taken: &Taken) -> Result<(), AllocError>
    ensures { OnOk result (AddsText out.old (more_words taken.now) out.new) }
{
    out.push_str(", ")?;
    push_taken(out, taken)
}

fn push_more(out: &mut String, more: &[Taken]) -> Result<(), AllocError>
    ensures { OnOk result (AddsText out.old (flat_map more_words more.now) out.new) }
{
    for taken in more {
        push_another(out, taken)?;
    }
    Ok(())
}

/// All that others have taken.
#[tactic(auto, unfolding(crate::specs::Whys::shortage_words))]
fn push_shortage(out: &mut String, shortage: &Shortage) -> Result<(), AllocError>
    ensures { OnOk result (AddsText out.old (shortage_words shortage.now) out.new) }
{
    push_taken(out, &shortage.first)?;
    push_more(out, &shortage.more)
}

/// What keeps an instruction from the cycle before its own.
///
/// # Errors
///
/// Where memory ran out.
pub fn push_cause(out: &mut String, cause: &Cause) -> Result<(), AllocError>
    ensures { OnOk result (AddsText out.old (cause_words cause.now) out.new) }
{
    match cause {
        Cause::First => out.push_str("-"),
        Cause::Held(held) => push_held(out, held),
        Cause::Taken(shortage) => push_shortage(out, shortage),
        Cause::Nothing => out.push_str("nothing"),
    }
}

/// The line of an instruction, its cycle and its slack.
#[tactic(auto, unfolding(crate::specs::Whys::why_columns))]
fn push_columns(out: &mut String, why: &Why) -> Result<(), AllocError>
    ensures { OnOk result (AddsText out.old (why_columns why.now) out.new) }
{
    push_right_number(out, NUMBER_WIDTH, u64::from(why.line))?;
    push_right_number(out, NUMBER_WIDTH, u64::from(why.cycle))?;
    push_right_number(out, NUMBER_WIDTH, u64::from(why.slack))
}

/// The row of an instruction.
#[tactic(auto, unfolding(crate::specs::Whys::why_row))]
fn push_row(out: &mut String, why: &Why) -> Result<(), AllocError>
    ensures { OnOk result (AddsText out.old (why_row why.now) out.new) }
{
    push_columns(out, why)?;
    out.push_str("  ")?;
    push_cause(out, &why.cause)?;
    out.push_str("\n")
}

fn push_all(out: &mut String, whys: &[Why]) -> Result<(), AllocError>
    ensures { OnOk result (AddsText out.old (flat_map why_row whys.now) out.new) }
{
    for why in whys {
        push_row(out, why)?;
    }
    Ok(())
}

/// The table with its heading.
#[tactic(auto, unfolding(crate::specs::Whys::whole_table))]
fn push_table(out: &mut String, whys: &[Why]) -> Result<(), AllocError>
    ensures { OnOk result (AddsText out.old (whole_table whys.now) out.new) }
{
    out.push_str("  line cycle slack  not a cycle earlier\n")?;
    push_all(out, whys)
}

/// The table, where there is an instruction to tell of.
pub(crate) fn push_whys(out: &mut String, whys: &[Why]) -> Result<(), AllocError>
    ensures { OnOk result (AddsText out.old (whys_table whys.now) out.new) }
{
    if whys.is_empty() {
        Ok(())
    } else {
        push_table(out, whys)
    }
}
