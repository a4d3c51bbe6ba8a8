//! How often the rows of a text were begun that is run with everything in flight, and what they took (docs/JSON.md, "The profile").

ghost use Rattle.std.specs.Prelude.{◌≡◌, ◌∷◌, ◌≤◌, []};
ghost use Rattle.std.specs.List.{flat_map};
ghost use Rattle.std.specs.Option.{option_copied};
ghost use Rattle.c62_profile.specs.Flights.{block_of, cycles_of, flight_blocks};
ghost use Rattle.c62_json.specs.Document.{Adds};
ghost use Rattle.c62_json_report.specs.Profile.{block_row, end_told, flight_blocks_told, flight_rows, label, rows_named, told, told_row};

use crate::brackets::{close_array, close_object, open_array, open_object, push_number};
use c62_exec::Count;
use c62_json::{push_missing, push_name, push_text};
use c62_profile::{Block, counts_in, cycles_of, from_place, is_told, runs_of, thousandths};
use c62_rows::Key;
use indexmap::IndexMap;
use json::Writer;
use std::alloc::{AllocError, Global};

/// The label of a row, where it has one.
fn push_label(alloc: Global, out: &mut Writer, name: Option<&Key>) -> Result<(), AllocError>
    ensures { Adds result out.old out.new (label (option_copied name.entry) ∷ []) }
{
    match name {
        Some(name) => push_text(alloc, out, name.as_bytes()),
        None => push_missing(out),
    }
}

/// What is told of rows with these counts, in a run of so many cycles.
fn push_told(out: &mut Writer, counts: &[Count], whole: u64) -> Result<(), AllocError>
    requires { cycles_of counts.now ≤ 1_000_000_000_000_000 }
    ensures { Adds result out.old out.new (told counts.now whole) }
{
    let cycles = cycles_of(counts);
    push_number(out, "runs", runs_of(counts))?;
    push_number(out, "cycles", cycles)?;
    push_number(out, "thousandths", thousandths(cycles, whole))?;
    Ok(())
}

/// Which block it is.
fn push_named(alloc: Global, out: &mut Writer, block: &Block<'_>) -> Result<(), AllocError>
    ensures { Adds result out.old out.new (rows_named (block_of block.now)) }
{
    push_number(out, "row", block.first as u64)?;
    push_name(out, "label")?;
    push_label(alloc, out, block.label)
}

/// The row of a block.
fn push_row(
    alloc: Global,
    out: &mut Writer,
    counts: &[Count],
    block: &Block<'_>,
    whole: u64,
) -> Result<(), AllocError>
    requires { cycles_of counts.now ≤ 1_000_000_000_000_000 }
    ensures { Adds result out.old out.new (block_row counts.now whole (block_of block.now)) }
{
    open_object(out)?;
    push_named(alloc, out, block)?;
    push_told(out, counts_in(counts, block), whole)?;
    close_object(out)?;
    Ok(())
}

/// The row of a block, where it is told.
fn push_block(
    alloc: Global,
    out: &mut Writer,
    counts: &[Count],
    block: &Block<'_>,
    whole: u64,
) -> Result<(), AllocError>
    requires { cycles_of counts.now ≤ 1_000_000_000_000_000 }
    ensures { Adds result out.old out.new (told_row counts.now whole (block_of block.now)) }
{
    if is_told(block) {
        push_row(alloc, out, counts, block, whole)
    } else {
        Ok(())
    }
}

/// The rows of all blocks that are told.
fn push_blocks(
    alloc: Global,
    out: &mut Writer,
    labels: &IndexMap<Key, u32>,
    counts: &[Count],
    whole: u64,
) -> Result<(), AllocError>
    requires { cycles_of counts.now ≤ 1_000_000_000_000_000 }
    ensures { Adds result out.old out.new (flat_map (told_row counts.now whole) (flight_blocks labels.now.entries counts.now)) }
{
    let mut label = None;
    let mut first = 0;
    for (next, row) in labels.iter() {
        let behind = *row as usize;
        let block = Block {
            label,
            first,
            behind,
        };
        push_block(alloc, out, counts, &block, whole)?;
        label = Some(next);
        first = behind;
    }
    let block = Block {
        label,
        first,
        behind: counts.len().saturating_sub(1),
    };
    push_block(alloc, out, counts, &block, whole)
}

/// An array of them.
#[tactic(auto, unfolding(crate::specs::Profile::flight_blocks_told))]
fn push_rows(
    alloc: Global,
    out: &mut Writer,
    labels: &IndexMap<Key, u32>,
    counts: &[Count],
    whole: u64,
) -> Result<(), AllocError>
    requires { cycles_of counts.now ≤ 1_000_000_000_000_000 }
    ensures { Adds result out.old out.new (flight_blocks_told labels.now.entries counts.now whole) }
{
    push_name(out, "rows")?;
    open_array(out)?;
    push_blocks(alloc, out, labels, counts, whole)?;
    close_array(out)
}

/// What is behind the last row of the text.
#[tactic(auto, using(c62_profile::proofs::Parts::few_behind), unfolding(crate::specs::Profile::end_told))]
fn push_end(out: &mut Writer, counts: &[Count], whole: u64) -> Result<(), AllocError>
    requires { cycles_of counts.now ≤ 1_000_000_000_000_000 }
    ensures { Adds result out.old out.new (end_told counts.now whole) }
{
    let last = from_place(counts, counts.len().saturating_sub(1));
    push_name(out, "end")?;
    open_object(out)?;
    push_told(out, last, whole)?;
    close_object(out)
}

/// The rows of a text that was run with everything in flight, in so many cycles.
pub(crate) fn push_flight_rows(
    alloc: Global,
    out: &mut Writer,
    labels: &IndexMap<Key, u32>,
    counts: &[Count],
    whole: u64,
) -> Result<(), AllocError>
    requires { cycles_of counts.now ≤ 1_000_000_000_000_000 }
    ensures { Adds result out.old out.new (flight_rows labels.now.entries whole counts.now) }
{
    open_object(out)?;
    push_rows(alloc, out, labels, counts, whole)?;
    push_end(out, counts, whole)?;
    close_object(out)
}
