//! The kernel of a pipelined loop as a table.

ghost use Rattle.std.specs.Prelude.{◌≡◌, OnOk, find, string_bytes, IfOk};
ghost use Rattle.std.specs.List.{flat_map};
ghost use Rattle.c62_op.specs.Units.{all_units};
ghost use Rattle.c62_grid.specs.Grid.{is_on, range_text};
ghost use Rattle.c62_markup.specs.Page.{Adds};
ghost use Rattle.c62_pipeline.specs.Kernel.{epilog_of, kernel_of};
ghost use Rattle.c62_page_loops.specs.Kernel.{issue_row, kernel_table, made_part, pause_row, rest_row, row_part, rows_from, stage_begin, stage_cell, unit_cell, unit_cells};

use crate::frame::{IDLE, KERNEL_COLUMNS};
use c62_grid::standing;
use c62_insn::Unit;
use c62_loop_match::Pipelined;
use c62_markup::{push_number_in, push_own, push_own_in, push_text_in};
use c62_modulo::Made;
use c62_packet::Placed;
use c62_page::frame::{GRID_BEGIN, ROWS_BEGIN};
use c62_page::push_linked;
use c62_page::tags::{CELL_CLASS, CELL_ID, DATA_LINE, TABLE_END, TO_LINE};
use c62_pipeline::{later, parts_of, push_range, stage_of};
use c62_rows::Row;
use std::alloc::{AllocError, Global};

/// What the cell of an instruction begins with.
#[tactic(auto, unfolding(crate::specs::Kernel::stage_begin))]
fn push_begin(out: &mut Vec<u8>, epilog: &[Row], placed: &Placed) -> Result<(), AllocError>
    ensures { OnOk result (Adds out.old.items (stage_begin epilog.now placed.now) out.new.items) }
{
    let stage = stage_of(epilog, placed) as u64;
    push_number_in(out, CELL_ID, u64::from(placed.line), DATA_LINE)?;
    push_number_in(out, "", u64::from(placed.line), CELL_CLASS)?;
    push_number_in(out, "stage-", stage % 8, "'>")
}

/// The cell of an instruction.
#[tactic(auto, unfolding(crate::specs::Kernel::stage_cell))]
fn push_stage(out: &mut Vec<u8>, epilog: &[Row], placed: &Placed) -> Result<(), AllocError>
    ensures { OnOk result (Adds out.old.items (stage_cell epilog.now placed.now) out.new.items) }
{
    let stage = stage_of(epilog, placed) as u64;
    let mnemonic = placed.insn.op().mnemonic();
    push_begin(out, epilog, placed)?;
    push_linked(out, TO_LINE, u64::from(placed.line))?;
    push_number_in(out, "/", stage, " ")?;
    push_text_in(out, "", mnemonic.as_bytes(), "</td>")
}

/// What is issued on a unit, or a point.
fn push_cell(out: &mut Vec<u8>, epilog: &[Row], standing: Option<Placed>) -> Result<(), AllocError>
    ensures { OnOk result (Adds out.old.items (unit_cell epilog.now standing) out.new.items) }
{
    match standing {
        Some(placed) => push_stage(out, epilog, &placed),
        None => push_own(out, "<td>.</td>"),
    }
}

/// What is issued on each unit.
fn push_cells(out: &mut Vec<u8>, epilog: &[Row], issued: &[Placed]) -> Result<(), AllocError>
    ensures { OnOk result (Adds out.old.items (unit_cells epilog.now issued.now) out.new.items) }
{
    for unit in Unit::ALL {
        push_cell(out, epilog, standing(issued, unit))?;
    }
    Ok(())
}

/// What is issued in a cycle.
#[tactic(auto, unfolding(crate::specs::Kernel::issue_row))]
fn push_issue(
    out: &mut Vec<u8>,
    epilog: &[Row],
    cycle: u64,
    issued: &[Placed],
) -> Result<(), AllocError>
    ensures { OnOk result (Adds out.old.items (issue_row epilog.now cycle issued.now) out.new.items) }
{
    push_number_in(out, "<tr><th>", cycle, "</th>")?;
    push_cells(out, epilog, issued)?;
    push_own(out, "</tr>\n")
}

/// The first and the last of some cycles, or the only one.
fn range_text(alloc: Global, first: u64, last: u64) -> Result<String, AllocError>
    ensures { IfOk result (λ text. string_bytes text ≡ range_text first last) }
{
    let mut text = String::new(alloc);
    push_range(&mut text, first, last)?;
    Ok(text)
}

/// Cycles in which nothing is issued.
fn push_pause(alloc: Global, out: &mut Vec<u8>, first: u64, last: u64) -> Result<(), AllocError>
    ensures { OnOk result (Adds out.old.items (pause_row first last) out.new.items) }
{
    let range = range_text(alloc, first, last)?;
    push_text_in(out, "<tr><th>", range.as_bytes(), IDLE)
}

/// The cycles of a row behind that in which it is issued.
fn push_rest(alloc: Global, out: &mut Vec<u8>, cycle: u64, idle: u32) -> Result<(), AllocError>
    ensures { OnOk result (Adds out.old.items (rest_row cycle idle) out.new.items) }
{
    if idle == 0 {
        Ok(())
    } else {
        push_pause(alloc, out, later(cycle, 1), later(cycle, idle))
    }
}

/// A row from this cycle on.
fn push_row(
    alloc: Global,
    out: &mut Vec<u8>,
    epilog: &[Row],
    cycle: u64,
    row: &Row,
) -> Result<(), AllocError>
    ensures { OnOk result (Adds out.old.items (row_part epilog.now cycle row.now.insns.items row.now.idle) out.new.items) }
{
    match row.insns.as_slice() {
        [] => push_pause(alloc, out, cycle, later(cycle, row.idle)),
        issued => {
            push_issue(out, epilog, cycle, issued)?;
            push_rest(alloc, out, cycle, row.idle)
        }
    }
}

/// The rows of a kernel with this epilog.
fn push_rows(
    alloc: Global,
    out: &mut Vec<u8>,
    epilog: &[Row],
    kernel: &[Row],
) -> Result<(), AllocError>
    ensures { OnOk result (Adds out.old.items (rows_from epilog.now 0 kernel.now) out.new.items) }
{
    let mut cycle = 0;
    for row in kernel {
        push_row(alloc, out, epilog, cycle, row)?;
        cycle = later(later(cycle, row.idle), 1);
    }
    Ok(())
}

/// The rows of a kernel.
fn push_kernel_rows(
    alloc: Global,
    out: &mut Vec<u8>,
    pipelined: &Pipelined,
) -> Result<(), AllocError>
    ensures { OnOk result (Adds out.old.items (rows_from (epilog_of pipelined.now) 0 (kernel_of pipelined.now)) out.new.items) }
{
    let parts = parts_of(pipelined);
    push_rows(alloc, out, parts.epilog, parts.kernel)
}

/// The table of a kernel.
#[tactic(auto, unfolding(crate::specs::Kernel::kernel_table))]
fn push_kernel(alloc: Global, out: &mut Vec<u8>, pipelined: &Pipelined) -> Result<(), AllocError>
    ensures { OnOk result (Adds out.old.items (kernel_table pipelined.now) out.new.items) }
{
    push_own_in(out, GRID_BEGIN, KERNEL_COLUMNS, ROWS_BEGIN)?;
    push_kernel_rows(alloc, out, pipelined)?;
    push_own(out, TABLE_END)
}

/// The table of a loop that has packets of its own.
pub(crate) fn push_made(
    alloc: Global,
    out: &mut Vec<u8>,
    made: &Option<Made>,
) -> Result<(), AllocError>
    ensures { OnOk result (Adds out.old.items (made_part made.now) out.new.items) }
{
    match made {
        Some(made) => push_kernel(alloc, out, &made.pipelined),
        None => Ok(()),
    }
}
