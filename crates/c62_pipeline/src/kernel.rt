//! The kernels of a program's pipelined loops (docs/SHOW.md, "Pipelined loops").

ghost use Rattle.std.specs.Prelude.{◌≡◌, ◌==◌, OnOk, IfOk, count_by, drop, find, take, string_bytes};
ghost use Rattle.std.specs.List.{flat_map, list_any};
ghost use Rattle.c62_op.specs.Units.{all_units};
ghost use Rattle.c62_listing.specs.Written.{AddsText};
ghost use Rattle.c62_grid.specs.Grid.{is_on, range_text};
ghost use Rattle.c62_grid.specs.Widths.{widths_with};
ghost use Rattle.c62_grid.specs.Words.{unit_name as unit_named};
ghost use Rattle.c62_pipeline.specs.Kernel.{cell, choice_text, empty_cell, epilog_of, gap, has_line, heads, issue_text, kernel_of, kernel_text, kernels, later, made_text, pause_text, rest_text, row_text, rows_text, stage_cell, stage_of, widths_of};

use crate::chosen::Choice;
use crate::lines::push_choice;
use crate::written::Pipelining;
use c62_grid::Widths;
use c62_grid::words::{
    push_left, push_line, push_number, push_right, push_right_number, push_spaces, unit_name,
};
use c62_insn::Unit;
use c62_loop_match::Pipelined;
use c62_modulo::Made;
use c62_packet::Placed;
use c62_read::Block;
use c62_rows::Row;
use itoa::Buffer;
use std::alloc::{AllocError, Global};

/// How wide the column of the cycles is.
const CYCLE_WIDTH: usize = 5;

/// How wide that of a stage is.
const STAGE_WIDTH: usize = 3;

/// The rows behind so many.
fn behind(rows: &[Row], count: usize) -> &[Row]
    ensures { result.now ≡ drop count rows.now }
{
    match rows.split_at_checked(count) {
        Some((_, behind)) => behind,
        None => &[],
    }
}

/// So many rows in front.
fn front(rows: &[Row], count: usize) -> &[Row]
    ensures { result.now ≡ take count rows.now }
{
    match rows.split_at_checked(count) {
        Some((front, _)) => front,
        None => rows,
    }
}

/// The rows of a kernel, and those behind it.
#[derive(Clone, Copy)]
pub struct Parts<'a> {
    pub kernel: &'a [Row],
    pub epilog: &'a [Row],
}

/// The kernel of a pipelined loop, and what stands behind it.
pub fn parts_of(pipelined: &Pipelined) -> Parts<'_>
    ensures kernel { result.kernel.now ≡ kernel_of pipelined.now }
    ensures epilog { result.epilog.now ≡ epilog_of pipelined.now }
{
    let prolog = pipelined.first as usize + pipelined.prolog as usize;
    let rows = behind(&pipelined.rows.rows, prolog);
    Parts {
        kernel: front(rows, pipelined.kernel as usize),
        epilog: behind(rows, pipelined.kernel as usize),
    }
}

/// Whether a row has an instruction of this line.
pub fn has_line(row: &Row, line: u32) -> bool
    ensures { result ≡ has_line line row.now }
{
    row.insns.iter().any(|each| each.line == line)
}

/// The stage of an instruction of a kernel with this epilog.
pub fn stage_of(epilog: &[Row], placed: &Placed) -> usize
    ensures { result ≡ stage_of epilog.now placed.now }
{
    epilog
        .iter()
        .filter(|row| has_line(row, placed.line))
        .count()
}

/// The line of an instruction, its stage, and its mnemonic.
#[tactic(auto, unfolding(crate::specs::Kernel::stage_cell))]
fn push_stage(
    row: &mut String,
    widths: Widths,
    epilog: &[Row],
    placed: &Placed,
) -> Result<(), AllocError>
    ensures { OnOk result (AddsText row.old (stage_cell widths epilog.now placed.now) row.new) }
{
    let mut buffer = Buffer::new();
    row.push_str(" ")?;
    push_right_number(row, widths.line, u64::from(placed.line))?;
    row.push_str("/")?;
    push_left(row, STAGE_WIDTH, buffer.format(stage_of(epilog, placed)))?;
    push_left(row, widths.word, placed.insn.op().mnemonic())
}

/// A word that stands where a mnemonic would.
#[tactic(auto, unfolding(crate::specs::Kernel::empty_cell))]
fn push_empty(row: &mut String, widths: Widths, word: &str) -> Result<(), AllocError>
    ensures { OnOk result (AddsText row.old (empty_cell widths word.now) row.new) }
{
    push_spaces(row, widths.line)?;
    row.push_str("     ")?;
    push_left(row, widths.word, word)
}

/// What a row has on this unit.
fn standing(issued: &[Placed], unit: Unit) -> Option<Placed>
    ensures { result ≡ find (is_on unit) issued.now }
{
    issued
        .iter()
        .copied()
        .find(|each| each.unit.index() == unit.index())
}

/// What is issued on a unit, or a point.
fn push_cell(
    row: &mut String,
    widths: Widths,
    epilog: &[Row],
    standing: Option<Placed>,
) -> Result<(), AllocError>
    ensures { OnOk result (AddsText row.old (cell widths epilog.now standing) row.new) }
{
    match standing {
        Some(placed) => push_stage(row, widths, epilog, &placed),
        None => push_empty(row, widths, "."),
    }
}

/// What is issued on each unit.
fn push_cells(
    out: &mut String,
    widths: Widths,
    epilog: &[Row],
    issued: &[Placed],
) -> Result<(), AllocError>
    ensures { OnOk result (AddsText out.old (flat_map (λ unit. cell widths epilog.now (find (is_on unit) issued.now)) all_units) out.new) }
{
    for unit in Unit::ALL {
        push_cell(out, widths, epilog, standing(issued, unit))?;
    }
    Ok(())
}

/// What is issued in a cycle.
#[tactic(auto, unfolding(crate::specs::Kernel::issue_text))]
fn push_issue(
    alloc: Global,
    out: &mut String,
    widths: Widths,
    epilog: &[Row],
    cycle: u64,
    issued: &[Placed],
) -> Result<(), AllocError>
    ensures { OnOk result (AddsText out.old (issue_text widths epilog.now cycle issued.now) out.new) }
{
    let mut text = String::new(alloc);
    push_right_number(&mut text, CYCLE_WIDTH, cycle)?;
    push_cells(&mut text, widths, epilog, issued)?;
    push_line(out, &text)
}

/// So many cycles later, as far as numbers go.
pub fn later(cycle: u64, cycles: u32) -> u64
    ensures { result ≡ later cycle cycles }
{
    cycle.saturating_add(u64::from(cycles))
}

/// The first and the last of some cycles, or the only one.
///
/// # Errors
///
/// `AllocError` where memory ran out.
#[tactic(auto, unfolding(c62_grid::specs::Grid::range_text))]
pub fn push_range(out: &mut String, first: u64, last: u64) -> Result<(), AllocError>
    ensures { OnOk result (AddsText out.old (range_text first last) out.new) }
{
    push_number(out, first)?;
    if first < last {
        out.push_str("-")?;
        push_number(out, last)
    } else {
        Ok(())
    }
}

/// Cycles in which nothing is issued.
#[tactic(auto, unfolding(crate::specs::Kernel::pause_text))]
fn push_pause(alloc: Global, out: &mut String, first: u64, last: u64) -> Result<(), AllocError>
    ensures { OnOk result (AddsText out.old (pause_text first last) out.new) }
{
    let mut range = String::new(alloc);
    push_range(&mut range, first, last)?;
    let mut text = String::new(alloc);
    push_right(&mut text, CYCLE_WIDTH, &range)?;
    text.push_str("  idle")?;
    push_line(out, &text)
}

/// The cycles of a row behind that in which it is issued.
fn push_rest(alloc: Global, out: &mut String, cycle: u64, idle: u32) -> Result<(), AllocError>
    ensures { OnOk result (AddsText out.old (rest_text cycle idle) out.new) }
{
    if idle == 0 {
        Ok(())
    } else {
        push_pause(alloc, out, later(cycle, 1), later(cycle, idle))
    }
}

/// A row from this cycle on.
fn push_row(
    alloc: Global,
    out: &mut String,
    widths: Widths,
    epilog: &[Row],
    cycle: u64,
    row: &Row,
) -> Result<(), AllocError>
    ensures { OnOk result (AddsText out.old (row_text widths epilog.now cycle row.now.insns.items row.now.idle) out.new) }
{
    match row.insns.as_slice() {
        [] => push_pause(alloc, out, cycle, later(cycle, row.idle)),
        issued => {
            push_issue(alloc, out, widths, epilog, cycle, issued)?;
            push_rest(alloc, out, cycle, row.idle)
        }
    }
}

/// The rows of a kernel with this epilog.
fn push_rows(
    alloc: Global,
    out: &mut String,
    widths: Widths,
    epilog: &[Row],
    kernel: &[Row],
) -> Result<(), AllocError>
    ensures { OnOk result (AddsText out.old (rows_text widths epilog.now 0 kernel.now) out.new) }
{
    let mut cycle = 0;
    for row in kernel {
        push_row(alloc, out, widths, epilog, cycle, row)?;
        cycle = later(later(cycle, row.idle), 1);
    }
    Ok(())
}

/// The names of the units.
#[tactic(auto, unfolding(crate::specs::Kernel::heads))]
fn push_heads(alloc: Global, out: &mut String, widths: Widths) -> Result<(), AllocError>
    ensures { OnOk result (AddsText out.old (heads widths) out.new) }
{
    let mut text = String::new(alloc);
    text.push_str("cycle")?;
    push_names(&mut text, widths)?;
    push_line(out, &text)
}

fn push_names(out: &mut String, widths: Widths) -> Result<(), AllocError>
    ensures { OnOk result (AddsText out.old (flat_map (λ unit. empty_cell widths (unit_named unit)) all_units) out.new) }
{
    for unit in Unit::ALL {
        push_empty(out, widths, unit_name(unit))?;
    }
    Ok(())
}

/// Columns with room for each instruction of a row.
fn widened(widths: Widths, row: &Row) -> Widths
    ensures { result ≡ widths_with widths row.now.insns.items }
{
    let mut widths = widths;
    for placed in &row.insns {
        widths = widths.with(placed);
    }
    widths
}

/// Columns with room for each instruction of these rows.
fn widths_of(rows: &[Row]) -> Widths
    ensures { result ≡ widths_of rows.now }
{
    let mut widths = Widths::least();
    for row in rows {
        widths = widened(widths, row);
    }
    widths
}

/// The rows of a kernel, with the stage of each instruction.
fn push_kernel(alloc: Global, out: &mut String, pipelined: &Pipelined) -> Result<(), AllocError>
    ensures { OnOk result (AddsText out.old (kernel_text pipelined.now) out.new) }
{
    let parts = parts_of(pipelined);
    let widths = widths_of(parts.kernel);
    push_heads(alloc, out, widths)?;
    push_rows(alloc, out, widths, parts.epilog, parts.kernel)
}

fn push_made(alloc: Global, out: &mut String, made: &Option<Made>) -> Result<(), AllocError>
    ensures { OnOk result (AddsText out.old (made_text made.now) out.new) }
{
    match made {
        Some(made) => push_kernel(alloc, out, &made.pipelined),
        None => Ok(()),
    }
}

/// What became of a loop, and below it its kernel.
#[tactic(auto, unfolding(crate::specs::Kernel::choice_text))]
fn push_whole(
    alloc: Global,
    out: &mut String,
    blocks: &[Block],
    choice: &Choice,
) -> Result<(), AllocError>
    ensures { OnOk result (AddsText out.old (choice_text blocks.now choice.now) out.new) }
{
    push_choice(out, blocks, choice)?;
    push_made(alloc, out, &choice.made)
}

/// An empty line above each loop but the first.
fn push_gap(out: &mut String, number: usize) -> Result<(), AllocError>
    ensures { OnOk result (AddsText out.old (gap number) out.new) }
{
    if number == 0 {
        Ok(())
    } else {
        out.push_str("\n")
    }
}

/// What became of each of these blocks that is a loop, and the kernels of those that are pipelined.
///
/// # Errors
///
/// `AllocError` where memory ran out.
pub fn kernels(alloc: Global, blocks: &[Block], written: &Pipelining) -> Result<String, AllocError>
    ensures { IfOk result (λ text. string_bytes text ≡ kernels blocks.now written.now) }
{
    let mut out = String::new(alloc);
    let mut number = 0;
    for choice in &written.loops {
        push_gap(&mut out, number)?;
        push_whole(alloc, &mut out, blocks, choice)?;
        number += 1;
    }
    Ok(out)
}
