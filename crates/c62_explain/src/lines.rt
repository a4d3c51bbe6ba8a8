//! What is answered of the faults of a text.

ghost use Rattle.std.specs.Prelude.{◌≡◌, ◌≤◌, ◌<◌, ◌^◌, IfOk};
ghost use Rattle.c62_explain.specs.Picture.{Explains, IsPlaceIn, LintsText, line_at};
ghost use Rattle.c62_explain.specs.Placed.{LintsPlaced};

use crate::help::{Faulty, help_of};
use crate::picture::push_picture;
use crate::placed::{placed_faults, push_all_placed};
use crate::sentence::sentence;
use c62_line::ReadFault;
use c62_op::InstructionSet;
use c62_place::{Place, place_of};
use c62_read::first_line;
use std::alloc::{AllocError, Global};

/// How many faults can be asked for.
pub const MOST_FAULTS: usize = 1000;

/// The line of this number in a text, from 1, without its end; an empty one where there is none.
pub fn line_at(text: &[u8], number: u32) -> &[u8]
    ensures { result.now ≡ line_at text.now number }
{
    let mut left = number;
    let mut rest = text;
    while let Some((line, after)) = first_line(rest) {
        if left <= 1 {
            return line;
        }
        left -= 1;
        rest = after;
    }
    &[]
}

/// Where a fault of this text is found in its line.
pub(crate) fn place_in(
    isa: InstructionSet,
    alloc: Global,
    text: &[u8],
    fault: ReadFault,
) -> Result<Place, AllocError>
    ensures place { IfOk result (λ place. IsPlaceIn isa text.now fault place) }
    ensures bound { IfOk result (λ place. place.start < 2 ^ 63) }
{
    place_of(isa, alloc, fault.cause, line_at(text, fault.line))
}

/// A line `FILE:LINE:COLUMN: error: NAME: SENTENCE` for each faulty line of a serial text, at most so many, with the line's
/// first fault. The first is what `read_program` refuses the text for, and there is none where it doesn't (docs/FAULTS.md,
/// "All faults at once").
///
/// # Errors
///
/// `AllocError` where memory ran out.
#[tactic(auto, using(crate::proofs::PlacedLemmas::lints_text))]
pub fn lint(
    isa: InstructionSet,
    alloc: Global,
    name: &[u8],
    text: &[u8],
    most: usize,
) -> Result<Vec<u8>, AllocError>
    requires { 1 ≤ most }
    ensures text { IfOk result (λ out. LintsText isa name.now text.now most out.items) }
    ensures placed { IfOk result (λ out. LintsPlaced isa name.now text.now most out.items) }
{
    let all = placed_faults(isa, alloc, text, most)?;
    let mut out = Vec::new(alloc);
    push_all_placed(&mut out, name, &all)?;
    Ok(out)
}

/// Where a fault of this text is found, its line with carets under it, what is wrong, and a way out where one is known
/// (docs/FAULTS.md, "What `--explain` prints"). Of a fault of no line there is nothing more to say.
///
/// # Errors
///
/// `AllocError` where memory ran out.
pub fn explain(
    isa: InstructionSet,
    alloc: Global,
    name: &[u8],
    text: &[u8],
    fault: ReadFault,
) -> Result<Vec<u8>, AllocError>
    ensures { IfOk result (λ out. Explains isa name.now text.now fault out.items) }
{
    if fault.line == 0 {
        return Ok(Vec::new(alloc));
    }
    let place = place_in(isa, alloc, text, fault)?;
    let line = line_at(text, fault.line);
    let mut out = Vec::new(alloc);
    push_picture(
        &mut out,
        name,
        line,
        fault.line,
        place,
        sentence(fault.cause),
    )?;
    let help = help_of(
        isa,
        alloc,
        Faulty {
            text,
            line,
            fault,
            place,
        },
    )?;
    out.extend_from_slice(&help)?;
    Ok(out)
}
