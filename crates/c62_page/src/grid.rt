//! The grid of a block: a row for each cycle.

ghost use Rattle.std.specs.Prelude.{◌≡◌, ◌<◌, OnOk};
ghost use Rattle.c62_op.specs.declared.register.Side.{Side as File};
ghost use Rattle.c62_live.specs.Rows.{AreLiveRows, live_in};
ghost use Rattle.c62_markup.specs.Page.{Adds};
ghost use Rattle.c62_page.specs.Grid.{grid_part, issue_cells, regs_cell};

use crate::cells::{push_path_cells, push_unit_cells};
use crate::frame::{GRID_BEGIN, GRID_COLUMNS, ROWS_BEGIN};
use crate::tags::TABLE_END;
use crate::words::{landed_in, names};
use c62_grid::{Landing, landings_of, packet};
use c62_insn::{Reg, Side};
use c62_live::{LiveRow, live_rows};
use c62_markup::{push_number_in, push_own, push_own_in, push_text_in};
use c62_packet::Placed;
use std::alloc::{AllocError, Global};

/// How many registers are live, and which.
#[tactic(auto, unfolding(crate::specs::Grid::regs_cell))]
fn push_regs(alloc: Global, out: &mut Vec<u8>, regs: &[Reg]) -> Result<(), AllocError>
    ensures { OnOk result (Adds out.old.items (regs_cell regs.now) out.new.items) }
{
    let words = names(alloc, regs)?;
    push_number_in(out, "<td><b>", regs.len() as u64, "</b>")?;
    push_text_in(out, "", words.as_bytes(), "</td>")
}

/// What is issued in a cycle on each unit and over each path.
#[tactic(auto, unfolding(crate::specs::Grid::issue_cells))]
fn push_issue(out: &mut Vec<u8>, path: &[u32], issued: &[Placed]) -> Result<(), AllocError>
    ensures { OnOk result (Adds out.old.items (issue_cells path.now issued.now) out.new.items) }
{
    push_unit_cells(out, path, issued)?;
    push_path_cells(out, issued)
}

/// A block whose rows are written.
#[derive(Clone, Copy)]
pub(crate) struct Grid<'a> {
    /// The lines of its critical instructions.
    pub path: &'a [u32],
    /// Its length.
    pub cycles: u16,
    pub placed: &'a [Placed],
    /// What lands of these with a delay.
    pub landings: &'a [Landing],
    /// Which registers of side A are live in each cycle, the last one first.
    pub live_a: &'a [LiveRow],
    /// Those of side B.
    pub live_b: &'a [LiveRow],
}

impl Grid<'_> {
    ghost use Rattle.c62_op.specs.declared.register.Side.TheVariants.{A as OnA, B as OnB};
    ghost use Rattle.c62_page.specs.Grid.{IsReady, cycle_row, grid_part, landed_cell, live_cells, rows};

    /// The registers of side A that are live in a cycle.
    fn live_a(&self, cycle: u16) -> &[Reg]
        requires ready { IsReady self.now }
        requires within { cycle < self.now.cycles }
        ensures { result.now ≡ live_in self.now.placed.now OnA self.now.cycles cycle }
    {
        &self.live_a[usize::from(self.cycles - 1 - cycle)].regs
    }

    /// The registers of side B that are live in a cycle.
    fn live_b(&self, cycle: u16) -> &[Reg]
        requires ready { IsReady self.now }
        requires within { cycle < self.now.cycles }
        ensures { result.now ≡ live_in self.now.placed.now OnB self.now.cycles cycle }
    {
        &self.live_b[usize::from(self.cycles - 1 - cycle)].regs
    }

    /// How many registers of both sides are live in a cycle, and which.
    #[tactic(auto, unfolding(crate::specs::Grid::live_cells))]
    fn push_live(&self, alloc: Global, out: &mut Vec<u8>, cycle: u16) -> Result<(), AllocError>
        requires ready { IsReady self.now }
        requires within { cycle < self.now.cycles }
        ensures { OnOk result (Adds out.old.items (live_cells self.now.placed.now self.now.cycles cycle) out.new.items) }
    {
        push_regs(alloc, out, self.live_a(cycle))?;
        push_regs(alloc, out, self.live_b(cycle))
    }

    /// What lands in a cycle.
    fn push_landed(&self, alloc: Global, out: &mut Vec<u8>, cycle: u16) -> Result<(), AllocError>
        requires { IsReady self.now }
        ensures { OnOk result (Adds out.old.items (landed_cell self.now.placed.now cycle) out.new.items) }
    {
        let words = landed_in(alloc, self.landings, u32::from(cycle))?;
        push_text_in(out, "<td>", words.as_bytes(), "</td>")
    }

    /// The row of a cycle.
    #[tactic(auto, unfolding(crate::specs::Grid::cycle_row))]
    fn push_row(&self, alloc: Global, out: &mut Vec<u8>, cycle: u16) -> Result<(), AllocError>
        requires ready { IsReady self.now }
        requires within { cycle < self.now.cycles }
        ensures { OnOk result (Adds out.old.items (cycle_row self.now.path.now self.now.cycles self.now.placed.now cycle) out.new.items) }
    {
        let issued = packet(alloc, self.placed, u32::from(cycle))?;
        push_number_in(out, "<tr><th>", u64::from(cycle), "</th>")?;
        push_issue(out, self.path, &issued)?;
        self.push_landed(alloc, out, cycle)?;
        self.push_live(alloc, out, cycle)?;
        push_own(out, "</tr>\n")
    }

    /// The rows of all cycles.
    fn push_rows(&self, alloc: Global, out: &mut Vec<u8>) -> Result<(), AllocError>
        requires { IsReady self.now }
        ensures { OnOk result (Adds out.old.items (rows self.now.path.now self.now.cycles self.now.placed.now) out.new.items) }
    {
        for cycle in 0..self.cycles {
            self.push_row(alloc, out, cycle)?;
        }
        Ok(())
    }

    /// The grid with its heading.
    #[tactic(auto, unfolding(crate::specs::Grid::grid_part))]
    fn push(&self, alloc: Global, out: &mut Vec<u8>) -> Result<(), AllocError>
        requires { IsReady self.now }
        ensures { OnOk result (Adds out.old.items (grid_part self.now.path.now self.now.cycles self.now.placed.now) out.new.items) }
    {
        push_own_in(out, GRID_BEGIN, GRID_COLUMNS, ROWS_BEGIN)?;
        self.push_rows(alloc, out)?;
        push_own(out, TABLE_END)
    }
}

/// The grid of a block's instructions.
pub(crate) fn push_grid(
    alloc: Global,
    out: &mut Vec<u8>,
    path: &[u32],
    cycles: u16,
    placed: &[Placed],
) -> Result<(), AllocError>
    ensures { OnOk result (Adds out.old.items (grid_part path.now cycles placed.now) out.new.items) }
{
    let landings = landings_of(alloc, placed)?;
    let live_a = live_rows(alloc, placed, Side::A, cycles)?;
    let live_b = live_rows(alloc, placed, Side::B, cycles)?;
    let grid = Grid {
        path,
        cycles,
        placed,
        landings: &landings,
        live_a: &live_a,
        live_b: &live_b,
    };
    grid.push(alloc, out)
}
