//! What is said of a fault of packets.

ghost use Rattle.std.specs.Prelude.{IfOk};
ghost use Rattle.c62_explain_packets.specs.Told.{Explains};

use crate::finding::{Finding, place_in, without_front};
use crate::help::push_help;
use c62_adopt::{AdoptFault, read_code};
use c62_adopt_cut::{Cut, read_cut};
use c62_explain::{line_at, push_picture};
use c62_op::InstructionSet;
use std::alloc::{AllocError, Global};

/// The blocks of a text's code, as far as they are read; those of the text itself where it has no code.
pub(crate) fn cut_of(isa: InstructionSet, alloc: Global, text: &[u8]) -> Result<Cut, AllocError> {
    match read_code(isa, alloc, text) {
        Ok(code) => read_cut(isa, alloc, &code),
        Err(AdoptFault::Memory) => Err(AllocError),
        Err(_) => read_cut(isa, alloc, text),
    }
}

/// Where a fault of packets is found, its line with carets under it, what is wrong, and which lines have part in it (docs/FAULTS.md,
/// "Packets"). Of a fault of no line there is nothing more to say.
///
/// # Errors
///
/// `AllocError` where memory ran out.
pub fn explain(
    isa: InstructionSet,
    alloc: Global,
    name: &[u8],
    text: &[u8],
    finding: Finding,
) -> Result<Vec<u8>, AllocError>
    ensures { IfOk result (λ out. Explains isa name.now text.now finding out.items) }
{
    let mut out = Vec::new(alloc);
    if finding.line == 0 {
        return Ok(out);
    }
    let line = line_at(text, finding.line);
    let place = place_in(isa, alloc, finding.what, line)?;
    push_picture(
        &mut out,
        name,
        line,
        finding.line,
        place,
        finding.what.sentence(),
    )?;
    let serial = without_front(alloc, line)?;
    let cut = cut_of(isa, alloc, text)?;
    push_help(isa, &mut out, alloc, text, &serial, finding, place, &cut)?;
    Ok(out)
}
