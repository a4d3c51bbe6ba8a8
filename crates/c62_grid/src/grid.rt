//! The rows of a block: what is issued in a cycle on each unit, and what lands.

ghost use Rattle.std.specs.Prelude.{◌≡◌, ◌++◌, ◌<◌, ◌≤◌, ◌==◌, OnOk, IfOk, length, find, count_by, string_bytes};
ghost use Rattle.std.specs.List.{flat_map, list_any};
ghost use Rattle.c62_read.specs.declared.limits.TheConstants.{MOST_INSTRUCTIONS};
ghost use Rattle.c62_op.specs.Units.{all_units};
ghost use Rattle.c62_listing.specs.Written.{AddsText};
ghost use Rattle.c62_grid.specs.Words.{unit_name};
ghost use Rattle.c62_grid.specs.Grid.{word_cell, mark, insn_cell, issued_at, packet, cell, is_issued, begins, is_behind, next_issue, range_text, heads, is_on};
ghost use Rattle.c62_grid.specs.Share.{share};
ghost use Rattle.c62_grid.specs.Landing.{landings_of};

use crate::landing::{Landing, landed_between, push_all_landed, push_landing_list};
use crate::paths::{push_path_cells, push_path_names, push_path_uses};
use crate::widths::Widths;
use crate::words::{
    push_left, push_line, push_number, push_right, push_right_number, push_spaces, unit_name,
};
use c62_insn::Unit;
use c62_packet::Placed;
use std::alloc::{AllocError, Global};

/// How wide the column of the cycles is.
const CYCLE_WIDTH: usize = 5;

/// A word that stands where a mnemonic would.
#[tactic(auto, unfolding(crate::specs::Grid::word_cell))]
fn push_word(row: &mut String, widths: Widths, word: &str) -> Result<(), AllocError>
    ensures { OnOk result (AddsText row.old (word_cell widths word.now) row.new) }
{
    push_spaces(row, widths.line)?;
    row.push_str("  ")?;
    push_left(row, widths.word, word)
}

/// What stands behind a line: whether it is critical.
pub fn mark(path: &[u32], line: u32) -> &'static str
    ensures { result.now ≡ mark path.now line }
{
    if is_among(path, line) { "*" } else { " " }
}

fn is_among(path: &[u32], line: u32) -> bool
    ensures { result ≡ list_any (λ each. each == line) path.now }
{
    path.iter().any(|each| *each == line)
}

/// The line and the mnemonic of an instruction.
#[tactic(auto, unfolding(crate::specs::Grid::insn_cell))]
fn push_insn(
    row: &mut String,
    widths: Widths,
    path: &[u32],
    placed: &Placed,
) -> Result<(), AllocError>
    ensures { OnOk result (AddsText row.old (insn_cell widths path.now placed.now) row.new) }
{
    row.push_str(" ")?;
    push_right_number(row, widths.line, u64::from(placed.line))?;
    row.push_str(mark(path, placed.line))?;
    push_left(row, widths.word, placed.insn.op().mnemonic())
}

/// Adds an instruction, where it is issued in this cycle.
fn push_issued(issued: &mut Vec<Placed>, placed: Placed, cycle: u32) -> Result<(), AllocError>
    ensures { OnOk result (issued.new.items ≡ issued.old.items ++ issued_at cycle placed) }
{
    if u32::from(placed.cycle) != cycle {
        return Ok(());
    }
    issued.push(placed)?;
    Ok(())
}

/// What is issued in this cycle.
///
/// # Errors
///
/// Where memory ran out.
pub fn packet(alloc: Global, placed: &[Placed], cycle: u32) -> Result<Vec<Placed>, AllocError>
    ensures { IfOk result (λ issued. issued.items ≡ packet placed.now cycle) }
{
    let mut issued = Vec::new(alloc);
    for each in placed {
        push_issued(&mut issued, *each, cycle)?;
    }
    Ok(issued)
}

/// What a packet has on this unit.
pub fn standing(issued: &[Placed], unit: Unit) -> Option<Placed>
    ensures { result ≡ find (is_on unit) issued.now }
{
    issued
        .iter()
        .copied()
        .find(|each| each.unit.index() == unit.index())
}

/// What is issued in a cycle on a unit, or a point.
fn push_cell(
    row: &mut String,
    widths: Widths,
    path: &[u32],
    standing: Option<Placed>,
) -> Result<(), AllocError>
    ensures { OnOk result (AddsText row.old (cell widths path.now standing) row.new) }
{
    match standing {
        Some(placed) => push_insn(row, widths, path, &placed),
        None => push_word(row, widths, "."),
    }
}

/// Whether something is issued in this cycle.
fn is_issued(placed: &[Placed], cycle: u32) -> bool
    ensures { result ≡ is_issued placed.now cycle }
{
    placed.iter().any(|each| u32::from(each.cycle) == cycle)
}

/// Whether the cycle is the first, or something is issued in the one before it.
fn begins(placed: &[Placed], cycle: u32) -> bool
    ensures { result ≡ begins placed.now cycle }
{
    cycle == 0 || is_issued(placed, cycle - 1)
}

fn first_behind(placed: &[Placed], cycle: u32) -> Option<Placed>
    ensures { result ≡ find (is_behind cycle) placed.now }
{
    placed
        .iter()
        .copied()
        .find(|each| cycle < u32::from(each.cycle))
}

/// The next cycle in which something is issued, or the length of the block.
fn next_issue(placed: &[Placed], cycles: u32, cycle: u32) -> u32
    requires { cycle < cycles }
    ensures next { result ≡ next_issue placed.now cycles cycle }
    ensures behind { cycle < result }
{
    match first_behind(placed, cycle) {
        Some(next) => u32::from(next.cycle),
        None => cycles,
    }
}

/// The first and the last of some cycles, or the only one.
#[tactic(auto, unfolding(crate::specs::Grid::range_text))]
fn range_text(alloc: Global, first: u32, last: u32) -> Result<String, AllocError>
    ensures { IfOk result (λ text. string_bytes text ≡ range_text first last) }
{
    let mut text = String::new(alloc);
    push_number(&mut text, u64::from(first))?;
    if first < last {
        text.push_str("-")?;
        push_number(&mut text, u64::from(last))?;
    }
    Ok(text)
}

/// How many instructions are issued on a unit.
fn count_on(placed: &[Placed], unit: Unit) -> usize
    ensures count { result ≡ count_by (is_on unit) placed.now }
    ensures within { result ≤ length placed.now }
{
    placed
        .iter()
        .filter(|each| each.unit.index() == unit.index())
        .count()
}

/// In how many of 100 cycles something is used.
#[tactic(auto, unfolding(crate::specs::Share::share))]
pub(crate) fn share(alloc: Global, count: usize, cycles: u32) -> Result<String, AllocError>
    requires few { count ≤ MOST_INSTRUCTIONS }
    requires some { 0 < cycles }
    ensures { IfOk result (λ text. string_bytes text ≡ share count cycles) }
{
    let mut text = String::new(alloc);
    if count == 0 {
        text.push_str("-")?;
        return Ok(text);
    }
    push_number(&mut text, 100 * count as u64 / u64::from(cycles))?;
    text.push_str("%")?;
    Ok(text)
}

/// The row of the names of the units and the paths.
#[tactic(auto, unfolding(crate::specs::Grid::heads))]
fn push_heads(row: &mut String, widths: Widths) -> Result<(), AllocError>
    ensures { OnOk result (AddsText row.old (heads widths) row.new) }
{
    row.push_str("cycle")?;
    push_names(row, widths)?;
    push_path_names(row, widths)?;
    row.push_str(" lands")
}

fn push_names(row: &mut String, widths: Widths) -> Result<(), AllocError>
    ensures { OnOk result (AddsText row.old (flat_map (λ unit. word_cell widths (unit_name unit)) all_units) row.new) }
{
    for unit in Unit::ALL {
        push_word(row, widths, unit_name(unit))?;
    }
    Ok(())
}

/// A block whose rows are written.
#[derive(Clone, Copy)]
pub struct Grid<'a> {
    pub widths: Widths,
    /// The lines of its critical instructions.
    pub path: &'a [u32],
    /// Its length.
    pub cycles: u32,
    pub placed: &'a [Placed],
    /// What lands of these with a delay.
    pub landings: &'a [Landing],
}

impl Grid<'_> {
    ghost use Rattle.c62_grid.specs.Grid.{cells, cycle_row, pause_row, row_at, rows, use_cell, use_cells, use_row, grid};

    /// What a packet has on each unit.
    fn push_cells(&self, row: &mut String, issued: &[Placed]) -> Result<(), AllocError>
        ensures { OnOk result (AddsText row.old (cells self.now.widths self.now.path.now issued.now) row.new) }
    {
        for unit in Unit::ALL {
            push_cell(row, self.widths, self.path, standing(issued, unit))?;
        }
        Ok(())
    }

    /// The row of a cycle in which something is issued.
    #[tactic(auto, unfolding(crate::specs::Grid::cycle_row))]
    fn push_cycle(&self, alloc: Global, row: &mut String, cycle: u32) -> Result<(), AllocError>
        requires { self.now.landings.now ≡ landings_of self.now.placed.now }
        ensures { OnOk result (AddsText row.old (cycle_row self.now.widths self.now.path.now self.now.placed.now cycle) row.new) }
    {
        let issued = packet(alloc, self.placed, cycle)?;
        push_right_number(row, CYCLE_WIDTH, u64::from(cycle))?;
        self.push_cells(row, &issued)?;
        push_path_cells(row, self.widths, &issued)?;
        push_all_landed(row, self.landings, cycle)
    }

    /// The row of the cycles from the first to the one before the next, in which nothing is issued.
    #[tactic(auto, unfolding(crate::specs::Grid::pause_row))]
    fn push_pause(
        &self,
        alloc: Global,
        row: &mut String,
        first: u32,
        next: u32,
    ) -> Result<(), AllocError>
        requires landings { self.now.landings.now ≡ landings_of self.now.placed.now }
        requires some { first < next }
        ensures { OnOk result (AddsText row.old (pause_row self.now.widths self.now.placed.now first next) row.new) }
    {
        let cycles = range_text(alloc, first, next - 1)?;
        let found = landed_between(alloc, self.landings, first, next)?;
        push_right(row, CYCLE_WIDTH, cycles.as_str())?;
        push_spaces(row, self.widths.line)?;
        row.push_str("  idle")?;
        push_landing_list(row, &found)
    }

    /// The row of a cycle, or of those in which nothing is issued where they begin.
    #[tactic(auto, unfolding(crate::specs::Grid::row_at))]
    fn push_row(&self, alloc: Global, out: &mut String, cycle: u32) -> Result<(), AllocError>
        requires landings { self.now.landings.now ≡ landings_of self.now.placed.now }
        requires within { cycle < self.now.cycles }
        ensures { OnOk result (AddsText out.old (row_at self.now.widths self.now.path.now self.now.cycles self.now.placed.now cycle) out.new) }
    {
        let mut row = String::new(alloc);
        if is_issued(self.placed, cycle) {
            self.push_cycle(alloc, &mut row, cycle)?;
            return push_line(out, row.as_str());
        }
        if begins(self.placed, cycle) {
            let next = next_issue(self.placed, self.cycles, cycle);
            self.push_pause(alloc, &mut row, cycle, next)?;
            return push_line(out, row.as_str());
        }
        Ok(())
    }

    fn push_rows(&self, alloc: Global, out: &mut String) -> Result<(), AllocError>
        requires { self.now.landings.now ≡ landings_of self.now.placed.now }
        ensures { OnOk result (AddsText out.old (rows self.now.widths self.now.path.now self.now.cycles self.now.placed.now) out.new) }
    {
        for cycle in 0..self.cycles {
            self.push_row(alloc, out, cycle)?;
        }
        Ok(())
    }

    /// How much a unit is used.
    fn push_share(&self, alloc: Global, row: &mut String, unit: Unit) -> Result<(), AllocError>
        requires few { length self.now.placed.now ≤ MOST_INSTRUCTIONS }
        requires some { 0 < self.now.cycles }
        ensures { OnOk result (AddsText row.old (use_cell self.now.widths self.now.cycles self.now.placed.now unit) row.new) }
    {
        let share = share(alloc, count_on(self.placed, unit), self.cycles)?;
        push_word(row, self.widths, share.as_str())
    }

    /// How much each unit is used.
    fn push_shares(&self, alloc: Global, row: &mut String) -> Result<(), AllocError>
        requires few { length self.now.placed.now ≤ MOST_INSTRUCTIONS }
        requires some { 0 < self.now.cycles }
        ensures { OnOk result (AddsText row.old (use_cells self.now.widths self.now.cycles self.now.placed.now) row.new) }
    {
        for unit in Unit::ALL {
            self.push_share(alloc, row, unit)?;
        }
        Ok(())
    }

    /// The row of how much each unit and each path is used.
    fn push_use(&self, alloc: Global, row: &mut String) -> Result<(), AllocError>
        requires few { length self.now.placed.now ≤ MOST_INSTRUCTIONS }
        requires some { 0 < self.now.cycles }
        ensures { OnOk result (AddsText row.old (use_row self.now.widths self.now.cycles self.now.placed.now) row.new) }
    {
        push_right(row, CYCLE_WIDTH, "use")?;
        self.push_shares(alloc, row)?;
        push_path_uses(alloc, row, self.widths, self.cycles, self.placed)
    }

    /// Appends all rows of the block.
    ///
    /// # Errors
    ///
    /// Where memory ran out.
    #[tactic(auto, unfolding(crate::specs::Grid::grid))]
    pub fn push(&self, alloc: Global, out: &mut String) -> Result<(), AllocError>
        requires landings { self.now.landings.now ≡ landings_of self.now.placed.now }
        requires few { length self.now.placed.now ≤ MOST_INSTRUCTIONS }
        requires some { 0 < self.now.cycles }
        ensures { OnOk result (AddsText out.old (grid self.now.widths self.now.path.now self.now.cycles self.now.placed.now) out.new) }
    {
        let mut heads = String::new(alloc);
        push_heads(&mut heads, self.widths)?;
        push_line(out, heads.as_str())?;
        self.push_rows(alloc, out)?;
        let mut used = String::new(alloc);
        self.push_use(alloc, &mut used)?;
        push_line(out, used.as_str())
    }
}
