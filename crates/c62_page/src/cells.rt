//! The cells of a cycle.

ghost use Rattle.std.specs.Prelude.{◌≡◌, ◌==◌, OnOk, find};
ghost use Rattle.std.specs.List.{flat_map, list_any};
ghost use Rattle.c62_op.specs.Units.{all_units};
ghost use Rattle.c62_grid.specs.Grid.{is_on};
ghost use Rattle.c62_grid.specs.Paths.{all_paths, takes};
ghost use Rattle.c62_markup.specs.Page.{Adds};
ghost use Rattle.c62_page.specs.Cells.{cell_begin, class_end, insn_cell, is_marked, kind_of, path_cell, path_cells, unit_cell, unit_cells};

use crate::tags::{CELL_CLASS, CELL_ID, DATA_LINE, TO_LINE};
use crate::text::push_linked;
use c62_grid::{ALL_PATHS, mark, standing, taking};
use c62_insn::{Op, Unit};
use c62_markup::{push_number_in, push_own, push_own_in, push_text_in};
use c62_packet::Placed;
use std::alloc::AllocError;

/// The class of the cell of an instruction of this operation.
fn kind_of(op: Op) -> &'static str
    ensures { result.now ≡ kind_of op }
{
    match op {
        Op::Ldb | Op::Ldbu | Op::Ldh | Op::Ldhu | Op::Ldw => "load",
        Op::Stb | Op::Sth | Op::Stw => "store",
        Op::B => "branch",
        Op::Mpy | Op::Mpyu | Op::Mpyus | Op::Mpysu => "multiply",
        Op::Mpyh | Op::Mpyhu | Op::Mpyhl | Op::Mpylh => "multiply",
        Op::Shl | Op::Shr | Op::Shru | Op::Ext | Op::Extu => "shift",
        Op::Mvk | Op::Mvklh => "constant",
        _ => "other",
    }
}

/// Whether a line is critical.
fn is_marked(path: &[u32], line: u32) -> bool
    ensures { result ≡ is_marked path.now line }
{
    path.iter().any(|each| *each == line)
}

/// What the class of a cell ends with.
fn class_end(is_marked: bool) -> &'static str
    ensures { result.now ≡ class_end is_marked }
{
    if is_marked { " path'>" } else { "'>" }
}

/// What the cell of an instruction begins with.
#[tactic(auto, unfolding(crate::specs::Cells::cell_begin))]
fn push_cell_begin(out: &mut Vec<u8>, path: &[u32], placed: &Placed) -> Result<(), AllocError>
    ensures { OnOk result (Adds out.old.items (cell_begin path.now placed.now) out.new.items) }
{
    let line = u64::from(placed.line);
    let end = class_end(is_marked(path, placed.line));
    push_number_in(out, CELL_ID, line, DATA_LINE)?;
    push_number_in(out, "", line, CELL_CLASS)?;
    push_own_in(out, kind_of(placed.insn.op()), end, "")
}

/// The cell of an instruction.
#[tactic(auto, unfolding(crate::specs::Cells::insn_cell))]
fn push_insn(out: &mut Vec<u8>, path: &[u32], placed: &Placed) -> Result<(), AllocError>
    ensures { OnOk result (Adds out.old.items (insn_cell path.now placed.now) out.new.items) }
{
    let mnemonic = placed.insn.op().mnemonic();
    push_cell_begin(out, path, placed)?;
    push_linked(out, TO_LINE, u64::from(placed.line))?;
    push_text_in(out, mark(path, placed.line), mnemonic.as_bytes(), "</td>")
}

/// What is issued on a unit, or a point.
fn push_unit_cell(
    out: &mut Vec<u8>,
    path: &[u32],
    standing: Option<Placed>,
) -> Result<(), AllocError>
    ensures { OnOk result (Adds out.old.items (unit_cell path.now standing) out.new.items) }
{
    match standing {
        Some(placed) => push_insn(out, path, &placed),
        None => push_own(out, "<td>.</td>"),
    }
}

/// What a packet has on each unit.
pub(crate) fn push_unit_cells(
    out: &mut Vec<u8>,
    path: &[u32],
    issued: &[Placed],
) -> Result<(), AllocError>
    ensures { OnOk result (Adds out.old.items (unit_cells path.now issued.now) out.new.items) }
{
    for unit in Unit::ALL {
        push_unit_cell(out, path, standing(issued, unit))?;
    }
    Ok(())
}

/// The line of what takes a path, or a point.
fn push_path_cell(out: &mut Vec<u8>, taking: Option<Placed>) -> Result<(), AllocError>
    ensures { OnOk result (Adds out.old.items (path_cell taking) out.new.items) }
{
    match taking {
        Some(placed) => push_number_in(out, "<td>", u64::from(placed.line), "</td>"),
        None => push_own(out, "<td>.</td>"),
    }
}

/// What of a packet takes each path.
pub(crate) fn push_path_cells(out: &mut Vec<u8>, issued: &[Placed]) -> Result<(), AllocError>
    ensures { OnOk result (Adds out.old.items (path_cells issued.now) out.new.items) }
{
    for path in ALL_PATHS {
        push_path_cell(out, taking(issued, path))?;
    }
    Ok(())
}
