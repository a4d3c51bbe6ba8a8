//! The lines of the text.

ghost use Rattle.std.specs.Prelude.{◌≡◌, ◌==◌, OnOk};
ghost use Rattle.std.specs.List.{list_any};
ghost use Rattle.c62_markup.specs.Page.{Adds};
ghost use Rattle.c62_page.specs.Text.{has_line, instruction_begin, is_shown, line_begin, line_row, linked, lines_from, other_begin, text_part};
ghost use Rattle.c62_read.specs.Text.{lines_of};

use crate::tags::{DATA_LINE, LINE_END, LINE_ID, TO_CELL};
use c62_markup::{push_number_in, push_own, push_text_in};
use c62_packet::Placed;
use c62_read::first_line;
use c62_show::Shown;
use std::alloc::AllocError;

/// Whether one of these instructions stands in a line.
fn has_line(placed: &[Placed], number: u64) -> bool
    ensures { result ≡ has_line number placed.now }
{
    placed.iter().any(|each| u64::from(each.line) == number)
}

/// Whether an instruction of these blocks stands in a line.
fn is_shown(shown: &[Shown], number: u64) -> bool
    ensures { result ≡ is_shown shown.now number }
{
    shown
        .iter()
        .any(|each| has_line(each.packets.placed(), number))
}

/// A number of a line that leads to where the line is told of.
///
/// # Errors
///
/// `AllocError` where memory ran out.
#[tactic(auto, unfolding(crate::specs::Text::linked))]
pub fn push_linked(out: &mut Vec<u8>, begin: &str, number: u64) -> Result<(), AllocError>
    ensures { OnOk result (Adds out.old.items (linked begin.now number) out.new.items) }
{
    push_number_in(out, begin, number, "'>")?;
    push_number_in(out, "", number, "</a>")
}

/// The number of a line in which an instruction stands.
#[tactic(auto, unfolding(crate::specs::Text::instruction_begin))]
fn push_instruction_begin(out: &mut Vec<u8>, number: u64) -> Result<(), AllocError>
    ensures { OnOk result (Adds out.old.items (instruction_begin number) out.new.items) }
{
    push_number_in(out, LINE_ID, number, DATA_LINE)?;
    push_number_in(out, "", number, "'>")?;
    push_linked(out, TO_CELL, number)
}

/// The number of another line.
#[tactic(auto, unfolding(crate::specs::Text::other_begin))]
fn push_other_begin(out: &mut Vec<u8>, number: u64) -> Result<(), AllocError>
    ensures { OnOk result (Adds out.old.items (other_begin number) out.new.items) }
{
    push_number_in(out, LINE_ID, number, "'>")?;
    push_number_in(out, "<b>", number, "</b>")
}

/// The number of a line.
fn push_line_begin(out: &mut Vec<u8>, is_shown: bool, number: u64) -> Result<(), AllocError>
    ensures { OnOk result (Adds out.old.items (line_begin is_shown number) out.new.items) }
{
    if is_shown {
        push_instruction_begin(out, number)
    } else {
        push_other_begin(out, number)
    }
}

/// A line, which leads to the cell of its instruction where that is shown.
///
/// # Errors
///
/// `AllocError` where memory ran out.
#[tactic(auto, unfolding(crate::specs::Text::line_row))]
pub fn push_line(
    out: &mut Vec<u8>,
    is_shown: bool,
    number: u64,
    line: &[u8],
) -> Result<(), AllocError>
    ensures { OnOk result (Adds out.old.items (line_row is_shown number line.now) out.new.items) }
{
    push_line_begin(out, is_shown, number)?;
    push_text_in(out, "<code>", line, LINE_END)
}

/// The lines of a text.
fn push_lines(out: &mut Vec<u8>, text: &[u8], shown: &[Shown]) -> Result<(), AllocError>
    ensures { OnOk result (Adds out.old.items (lines_from shown.now 1 (lines_of text.now)) out.new.items) }
{
    let mut rest = text;
    let mut number = 1;
    while let Some((line, after)) = first_line(rest) {
        push_line(out, is_shown(shown, number), number, line)?;
        rest = after;
        number += 1;
    }
    Ok(())
}

/// The text, line by line.
#[tactic(auto, unfolding(crate::specs::Text::text_part))]
pub(crate) fn push_text_part(
    out: &mut Vec<u8>,
    text: &[u8],
    shown: &[Shown],
) -> Result<(), AllocError>
    ensures { OnOk result (Adds out.old.items (text_part text.now shown.now) out.new.items) }
{
    push_own(out, "<ol>\n")?;
    push_lines(out, text, shown)?;
    push_own(out, "</ol>\n")
}
