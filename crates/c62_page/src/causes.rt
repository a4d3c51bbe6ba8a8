//! Why each instruction isn't issued a cycle earlier.

ghost use Rattle.std.specs.Prelude.{◌≡◌, OnOk};
ghost use Rattle.std.specs.List.{flat_map};
ghost use Rattle.c62_markup.specs.Page.{Adds};
ghost use Rattle.c62_page.specs.Causes.{cause_marks, causes_part, held_marks, whole_table, why_columns, why_row};

use crate::frame::{CAUSES_BEGIN, CAUSES_COLUMNS, ROWS_BEGIN};
use crate::tags::{DATA_AFTER, DATA_NEEDS, ROW_END, ROW_LINE, TABLE_END};
use crate::words::cause_words;
use c62_markup::{push_number_in, push_own, push_own_in, push_text_in};
use c62_why::{Cause, Held, Why};
use itoa::Buffer;
use std::alloc::{AllocError, Global};

/// The line that an instruction waits for, and by how many cycles it must come behind that.
#[tactic(auto, unfolding(crate::specs::Causes::held_marks))]
fn push_held(out: &mut Vec<u8>, held: &Held) -> Result<(), AllocError>
    ensures { OnOk result (Adds out.old.items (held_marks held.now) out.new.items) }
{
    let mut buffer = Buffer::new();
    push_number_in(out, DATA_AFTER, u64::from(held.after), "'")?;
    push_own_in(out, DATA_NEEDS, buffer.format(held.needs), "'")
}

/// The same, or the line that has taken the first of what it lacks.
fn push_marks(out: &mut Vec<u8>, cause: &Cause) -> Result<(), AllocError>
    ensures { OnOk result (Adds out.old.items (cause_marks cause.now) out.new.items) }
{
    match cause {
        Cause::First | Cause::Nothing => Ok(()),
        Cause::Held(held) => push_held(out, held),
        Cause::Taken(shortage) => {
            push_number_in(out, DATA_AFTER, u64::from(shortage.first.by), "'")
        }
    }
}

/// The line of an instruction, its cycle and its slack.
#[tactic(auto, unfolding(crate::specs::Causes::why_columns))]
fn push_columns(out: &mut Vec<u8>, why: &Why) -> Result<(), AllocError>
    ensures { OnOk result (Adds out.old.items (why_columns why.now) out.new.items) }
{
    push_number_in(out, "><td>", u64::from(why.line), "</td>")?;
    push_number_in(out, "<td>", u64::from(why.cycle), "</td>")?;
    push_number_in(out, "<td>", u64::from(why.slack), "</td>")
}

/// The row of an instruction.
#[tactic(auto, unfolding(crate::specs::Causes::why_row))]
fn push_row(alloc: Global, out: &mut Vec<u8>, why: &Why) -> Result<(), AllocError>
    ensures { OnOk result (Adds out.old.items (why_row why.now) out.new.items) }
{
    let words = cause_words(alloc, &why.cause)?;
    push_number_in(out, ROW_LINE, u64::from(why.line), "'")?;
    push_marks(out, &why.cause)?;
    push_columns(out, why)?;
    push_text_in(out, "<td>", words.as_bytes(), ROW_END)
}

/// The rows of all instructions.
fn push_rows(alloc: Global, out: &mut Vec<u8>, whys: &[Why]) -> Result<(), AllocError>
    ensures { OnOk result (Adds out.old.items (flat_map why_row whys.now) out.new.items) }
{
    for why in whys {
        push_row(alloc, out, why)?;
    }
    Ok(())
}

/// The table with its heading.
#[tactic(auto, unfolding(crate::specs::Causes::whole_table))]
fn push_table(alloc: Global, out: &mut Vec<u8>, whys: &[Why]) -> Result<(), AllocError>
    ensures { OnOk result (Adds out.old.items (whole_table whys.now) out.new.items) }
{
    push_own_in(out, CAUSES_BEGIN, CAUSES_COLUMNS, ROWS_BEGIN)?;
    push_rows(alloc, out, whys)?;
    push_own(out, TABLE_END)
}

/// The table, where the causes are known.
pub(crate) fn push_causes(alloc: Global, out: &mut Vec<u8>, whys: &[Why]) -> Result<(), AllocError>
    ensures { OnOk result (Adds out.old.items (causes_part whys.now) out.new.items) }
{
    if whys.is_empty() {
        Ok(())
    } else {
        push_table(alloc, out, whys)
    }
}
