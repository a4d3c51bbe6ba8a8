//! The columns of the cross paths and the data paths.

ghost use Rattle.std.specs.Prelude.{◌≡◌, ◌<◌, ◌≤◌, ◌==◌, OnOk, length, find, count_by};
ghost use Rattle.std.specs.List.{flat_map, list_any};
ghost use Rattle.c62_read.specs.declared.limits.TheConstants.{MOST_INSTRUCTIONS};
ghost use Rattle.c62_rules.specs.Resource.{place_of};
ghost use Rattle.c62_listing.specs.Written.{AddsText};
ghost use Rattle.c62_grid.specs.Paths.{all_paths, path_name, path_width, path_word, path_names, takes, path_cell, path_cells, path_use, path_uses};

use crate::grid::share;
use crate::widths::Widths;
use crate::words::{push_right, push_right_number};
use c62_insn::Side;
use c62_packet::Placed;
use c62_rules::{Resource, taken_by};
use std::alloc::{AllocError, Global};

/// The paths that the instructions of a cycle share, in the order of their columns.
pub const ALL_PATHS: [Resource; 4] = [
    Resource::CrossPath(Side::A),
    Resource::CrossPath(Side::B),
    Resource::DataPath(Side::A),
    Resource::DataPath(Side::B),
];

/// What a path is called. Nothing else has a column here.
pub fn path_name(path: Resource) -> &'static str
    ensures { result.now ≡ path_name path }
{
    match path {
        Resource::CrossPath(Side::A) => "1X",
        Resource::CrossPath(Side::B) => "2X",
        Resource::DataPath(Side::A) => "T1",
        Resource::DataPath(Side::B) => "T2",
        Resource::OnUnit(_) | Resource::ReadsOf(_) => "",
    }
}

/// How wide the column of a path is: a line finds room, and `100%`.
fn path_width(widths: Widths) -> usize
    ensures { result ≡ path_width widths }
{
    widths.line.max(4)
}

/// A word in the column of a path.
#[tactic(auto, unfolding(crate::specs::Paths::path_word))]
fn push_path_word(row: &mut String, widths: Widths, word: &str) -> Result<(), AllocError>
    ensures { OnOk result (AddsText row.old (path_word widths word.now) row.new) }
{
    row.push_str(" ")?;
    push_right(row, path_width(widths), word)
}

/// Whether an instruction takes a path.
fn takes(placed: &Placed, path: Resource) -> bool
    ensures { result ≡ takes path placed.now }
{
    taken_by(placed.insn, placed.unit)
        .as_slice()
        .iter()
        .any(|each| each.place() == path.place())
}

/// What of a packet takes a path.
pub fn taking(issued: &[Placed], path: Resource) -> Option<Placed>
    ensures { result ≡ find (takes path) issued.now }
{
    issued.iter().copied().find(|each| takes(each, path))
}

/// The line of what takes a path, or a point.
#[tactic(auto, unfolding(crate::specs::Paths::path_word))]
fn push_path_cell(
    row: &mut String,
    widths: Widths,
    taking: Option<Placed>,
) -> Result<(), AllocError>
    ensures { OnOk result (AddsText row.old (path_cell widths taking) row.new) }
{
    match taking {
        Some(placed) => {
            row.push_str(" ")?;
            push_right_number(row, path_width(widths), u64::from(placed.line))
        }
        None => push_path_word(row, widths, "."),
    }
}

/// What of a packet takes each path.
pub(crate) fn push_path_cells(
    row: &mut String,
    widths: Widths,
    issued: &[Placed],
) -> Result<(), AllocError>
    ensures { OnOk result (AddsText row.old (path_cells widths issued.now) row.new) }
{
    for path in ALL_PATHS {
        push_path_cell(row, widths, taking(issued, path))?;
    }
    Ok(())
}

/// The names of the paths.
pub(crate) fn push_path_names(row: &mut String, widths: Widths) -> Result<(), AllocError>
    ensures { OnOk result (AddsText row.old (path_names widths) row.new) }
{
    for path in ALL_PATHS {
        push_path_word(row, widths, path_name(path))?;
    }
    Ok(())
}

/// How many instructions take a path.
fn count_taking(placed: &[Placed], path: Resource) -> usize
    ensures count { result ≡ count_by (takes path) placed.now }
    ensures within { result ≤ length placed.now }
{
    placed.iter().filter(|each| takes(each, path)).count()
}

/// How much a path is used.
fn push_path_use(
    alloc: Global,
    row: &mut String,
    widths: Widths,
    cycles: u32,
    placed: &[Placed],
    path: Resource,
) -> Result<(), AllocError>
    requires few { length placed.now ≤ MOST_INSTRUCTIONS }
    requires some { 0 < cycles }
    ensures { OnOk result (AddsText row.old (path_use widths cycles placed.now path) row.new) }
{
    let share = share(alloc, count_taking(placed, path), cycles)?;
    push_path_word(row, widths, share.as_str())
}

/// How much each path is used.
pub(crate) fn push_path_uses(
    alloc: Global,
    row: &mut String,
    widths: Widths,
    cycles: u32,
    placed: &[Placed],
) -> Result<(), AllocError>
    requires few { length placed.now ≤ MOST_INSTRUCTIONS }
    requires some { 0 < cycles }
    ensures { OnOk result (AddsText row.old (path_uses widths cycles placed.now) row.new) }
{
    for path in ALL_PATHS {
        push_path_use(alloc, row, widths, cycles, placed, path)?;
    }
    Ok(())
}
