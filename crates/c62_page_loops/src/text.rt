//! The lines of the text.

ghost use Rattle.std.specs.Prelude.{◌≡◌, OnOk};
ghost use Rattle.std.specs.List.{list_any};
ghost use Rattle.c62_read.specs.Text.{lines_of};
ghost use Rattle.c62_pipeline.specs.Kernel.{has_line};
ghost use Rattle.c62_markup.specs.Page.{Adds};
ghost use Rattle.c62_page_loops.specs.Text.{is_drawn, kernel_has, lines_from, text_part};

use c62_markup::push_own;
use c62_modulo::Made;
use c62_page::push_line;
use c62_pipeline::{Pipelining, parts_of};
use c62_read::first_line;
use c62_rows::Row;
use std::alloc::AllocError;

/// Whether a row has an instruction of this line.
fn has_line(row: &Row, line: u64) -> bool
    ensures { result ≡ has_line line row.now }
{
    row.insns.iter().any(|each| u64::from(each.line) == line)
}

/// Whether one of these rows has.
fn rows_have(rows: &[Row], line: u64) -> bool
    ensures { result ≡ list_any (has_line line) rows.now }
{
    rows.iter().any(|each| has_line(each, line))
}

/// Whether the kernel of a loop has, where the loop has packets of its own.
fn kernel_has(made: &Option<Made>, line: u64) -> bool
    ensures { result ≡ kernel_has line made.now }
{
    match made {
        Some(made) => rows_have(parts_of(&made.pipelined).kernel, line),
        None => false,
    }
}

/// Whether the kernel of one of the loops has.
fn is_drawn(written: &Pipelining, line: u64) -> bool
    ensures { result ≡ is_drawn written.now line }
{
    written
        .loops
        .iter()
        .any(|choice| kernel_has(&choice.made, line))
}

/// The lines of a text.
fn push_lines(out: &mut Vec<u8>, text: &[u8], written: &Pipelining) -> Result<(), AllocError>
    ensures { OnOk result (Adds out.old.items (lines_from written.now 1 (lines_of text.now)) out.new.items) }
{
    let mut rest = text;
    let mut number = 1;
    while let Some((line, after)) = first_line(rest) {
        push_line(out, is_drawn(written, number), number, line)?;
        rest = after;
        number += 1;
    }
    Ok(())
}

/// The text, line by line.
#[tactic(auto, unfolding(crate::specs::Text::text_part))]
pub(crate) fn push_text_part(
    out: &mut Vec<u8>,
    text: &[u8],
    written: &Pipelining,
) -> Result<(), AllocError>
    ensures { OnOk result (Adds out.old.items (text_part text.now written.now) out.new.items) }
{
    push_own(out, "<ol>\n")?;
    push_lines(out, text, written)?;
    push_own(out, "</ol>\n")
}
