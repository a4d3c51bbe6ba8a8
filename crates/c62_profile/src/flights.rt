//! The table of a run of a text of packets with everything in flight.

ghost use Rattle.std.specs.Prelude.{◌≡◌, ◌++◌, ◌≤◌, OnOk};
ghost use Rattle.std.specs.Option.{option_copied};
ghost use Rattle.c62_profile.specs.Flights.{block_of, cycles_of, end_row, flight_table, told_counts, told_row};
ghost use Rattle.c62_profile.specs.Table.{name};

use crate::blocks::{Block, counts_in, cycles_of, from_place, is_told, runs_of};
use crate::table::{push_field, push_number, push_percent, thousandths};
use c62_exec::Count;
use c62_rows::Key;
use indexmap::IndexMap;
use std::alloc::AllocError;

/// The label of a block, or the number of its first row.
fn push_name(out: &mut Vec<u8>, block: &Block<'_>) -> Result<(), AllocError>
    ensures { OnOk result (out.new.items ≡ out.old.items ++ name block.now.first (option_copied block.now.label)) }
{
    match block.label {
        Some(label) => out.extend_from_slice(label.as_bytes()),
        None => push_number(out, block.first as u64),
    }
}

/// What stands behind the name of rows with these counts, in a run of so many cycles.
#[tactic(auto, unfolding(crate::specs::Flights::told_counts))]
fn push_counts(out: &mut Vec<u8>, counts: &[Count], whole: u64) -> Result<(), AllocError>
    requires { cycles_of counts.now ≤ 1_000_000_000_000_000 }
    ensures { OnOk result (out.new.items ≡ out.old.items ++ told_counts counts.now whole) }
{
    let cycles = cycles_of(counts);
    push_field(out, runs_of(counts))?;
    push_field(out, cycles)?;
    out.extend_from_slice(b" ")?;
    push_percent(out, thousandths(cycles, whole))?;
    out.extend_from_slice(b"\n")
}

/// Adds the row of a block, where it is told.
fn push_block(
    out: &mut Vec<u8>,
    counts: &[Count],
    block: &Block<'_>,
    whole: u64,
) -> Result<(), AllocError>
    requires { cycles_of counts.now ≤ 1_000_000_000_000_000 }
    ensures { OnOk result (out.new.items ≡ out.old.items ++ told_row counts.now whole (block_of block.now)) }
{
    if !is_told(block) {
        return Ok(());
    }
    push_name(out, block)?;
    push_counts(out, counts_in(counts, block), whole)
}

/// Adds the row of all that is behind the last row of the text.
#[tactic(auto, using(crate::proofs::Parts::few_behind))]
fn push_end(out: &mut Vec<u8>, counts: &[Count], whole: u64) -> Result<(), AllocError>
    requires { cycles_of counts.now ≤ 1_000_000_000_000_000 }
    ensures { OnOk result (out.new.items ≡ out.old.items ++ end_row counts.now whole) }
{
    out.extend_from_slice(b"end")?;
    push_counts(
        out,
        from_place(counts, counts.len().saturating_sub(1)),
        whole,
    )
}

/// Adds the table of a run of a text of packets with everything in flight, of so many cycles (docs/REPORT.md, "The profile"). The
/// labels are those of the text with their rows, in its order; the counts are of its rows, and last of those behind all.
///
/// # Errors
///
/// `AllocError` where memory ran out.
#[tactic(auto, unfolding(crate::specs::Flights::flight_table))]
pub fn flight_table(
    out: &mut Vec<u8>,
    labels: &IndexMap<Key, u32>,
    counts: &[Count],
    whole: u64,
) -> Result<(), AllocError>
    requires { cycles_of counts.now ≤ 1_000_000_000_000_000 }
    ensures { OnOk result (out.new.items ≡ out.old.items ++ flight_table labels.now.entries counts.now whole) }
{
    let rows = counts.len().saturating_sub(1);
    out.extend_from_slice(b"block runs cycles share\n")?;
    let mut label = None;
    let mut first = 0;
    for (next, row) in labels.iter() {
        let behind = *row as usize;
        let block = Block {
            label,
            first,
            behind,
        };
        push_block(out, counts, &block, whole)?;
        label = Some(next);
        first = behind;
    }
    let block = Block {
        label,
        first,
        behind: rows,
    };
    push_block(out, counts, &block, whole)?;
    push_end(out, counts, whole)
}
