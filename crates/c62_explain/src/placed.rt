//! The faults of a serial text with their columns.

ghost use Rattle.std.specs.Prelude.{◌≡◌, ◌≤◌, ◌++◌, All, map, IfOk, OnOk};
ghost use Rattle.std.specs.List.{flat_map};
ghost use Rattle.c62_explain.specs.Placed.{ArePlaced, IsPlaced, column_position, placed_line};

use crate::lines::{MOST_FAULTS, place_in};
use crate::picture::push_number;
use crate::sentence::sentence;
use c62_line::ReadFault;
use c62_lint::faults_of;
use c62_op::InstructionSet;
use std::alloc::{AllocError, Global};

/// A fault of a text, and where it is found in its line.
#[derive(Clone, Copy, PartialEq, Eq, Debug)]
pub struct PlacedFault {
    pub fault: ReadFault,
    /// The column, which counts bytes from 1.
    pub column: usize,
}

/// A fault of this text with its column.
fn placed_in(
    isa: InstructionSet,
    alloc: Global,
    text: &[u8],
    fault: ReadFault,
) -> Result<PlacedFault, AllocError>
    ensures same { IfOk result (λ placed. placed.fault ≡ fault) }
    ensures there { IfOk result (IsPlaced isa text.now) }
{
    let place = place_in(isa, alloc, text, fault)?;
    Ok(PlacedFault {
        fault,
        column: place.start + 1,
    })
}

/// These faults of this text with their columns.
fn all_placed(
    isa: InstructionSet,
    alloc: Global,
    text: &[u8],
    faults: &[ReadFault],
) -> Result<Vec<PlacedFault>, AllocError>
    ensures same { IfOk result (λ all. map (λ placed. placed.fault) all.items ≡ faults.now) }
    ensures there { IfOk result (λ all. All (IsPlaced isa text.now) all.items) }
{
    let mut all = Vec::new(alloc);
    for fault in faults {
        all.push(placed_in(isa, alloc, text, *fault)?)?;
    }
    Ok(all)
}

/// The first fault of each faulty line of a serial text, at most so many, with its column. The first is what `read_program`
/// refuses the text for, and there is none where it doesn't (docs/FAULTS.md, "All faults at once").
///
/// # Errors
///
/// `AllocError` where memory ran out.
#[tactic(auto, using(crate::proofs::PlacedLemmas::are_placed))]
pub fn placed_faults(
    isa: InstructionSet,
    alloc: Global,
    text: &[u8],
    most: usize,
) -> Result<Vec<PlacedFault>, AllocError>
    requires { 1 ≤ most }
    ensures { IfOk result (λ all. ArePlaced isa text.now most all.items) }
{
    let faults = faults_of(isa, alloc, text, most.min(MOST_FAULTS))?;
    all_placed(isa, alloc, text, &faults)
}

/// Adds `FILE:LINE:COLUMN`.
///
/// # Errors
///
/// `AllocError` where memory ran out.
pub fn push_column(
    out: &mut Vec<u8>,
    name: &[u8],
    line: u32,
    column: usize,
) -> Result<(), AllocError>
    ensures { OnOk result (out.new.items ≡ out.old.items ++ column_position name.now line column) }
{
    out.extend_from_slice(name)?;
    out.extend_from_slice(b":")?;
    push_number(out, u64::from(line))?;
    out.extend_from_slice(b":")?;
    push_number(out, column as u64)
}

/// The line of a fault as editors read it: `FILE:LINE:COLUMN: error: NAME: SENTENCE`.
#[tactic(auto, unfolding(crate::specs::Placed::placed_line))]
fn push_placed(out: &mut Vec<u8>, name: &[u8], placed: PlacedFault) -> Result<(), AllocError>
    ensures { OnOk result (out.new.items ≡ out.old.items ++ placed_line name.now placed) }
{
    push_column(out, name, placed.fault.line, placed.column)?;
    out.extend_from_slice(b": error: ")?;
    out.extend_from_slice(placed.fault.cause.name().as_bytes())?;
    out.extend_from_slice(b": ")?;
    out.extend_from_slice(sentence(placed.fault.cause))?;
    out.extend_from_slice(b"\n")
}

/// A line for each of these faults.
pub(crate) fn push_all_placed(
    out: &mut Vec<u8>,
    name: &[u8],
    all: &[PlacedFault],
) -> Result<(), AllocError>
    ensures { OnOk result (out.new.items ≡ out.old.items ++ flat_map (placed_line name.now) all.now) }
{
    for placed in all {
        push_placed(out, name, *placed)?;
    }
    Ok(())
}
