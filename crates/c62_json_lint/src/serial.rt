//! The document of a serial text's faults.

ghost use Rattle.std.specs.Prelude.{◌≡◌, ◌≤◌, ◌++◌, codes, IfOk};
ghost use Rattle.std.specs.List.{flat_map};
ghost use Rattle.c62_json.specs.Document.{Adds, document};
ghost use Rattle.c62_json_lint.specs.Faults.{fault_told, faults_members};
ghost use Rattle.c62_json_lint.specs.Linted.{IsSerialDocument};

use crate::document::LintedDocument;
use crate::fault::push_fault;
use c62_explain::{PlacedFault, placed_faults};
use c62_json::{begin, end};
use c62_op::InstructionSet;
use json::Writer;
use std::alloc::{AllocError, Global};

/// An object for each of these faults.
fn push_all(
    alloc: Global,
    out: &mut Writer,
    file: &[u8],
    all: &[PlacedFault],
) -> Result<(), AllocError>
    ensures { Adds result out.old out.new (flat_map (fault_told file.now) all.now) }
{
    for placed in all {
        push_fault(alloc, out, file, *placed)?;
    }
    Ok(())
}

/// The member of these faults.
#[tactic(auto, unfolding(crate::specs::Faults::faults_members))]
fn push_faults(
    alloc: Global,
    out: &mut Writer,
    file: &[u8],
    all: &[PlacedFault],
) -> Result<(), AllocError>
    ensures { Adds result out.old out.new (faults_members file.now all.now) }
{
    out.key("faults")?;
    out.begin_array()?;
    push_all(alloc, out, file, all)?;
    out.end_array()
}

/// The text of the document of these faults.
fn faults_text(alloc: Global, file: &[u8], all: &[PlacedFault]) -> Result<Vec<u8>, AllocError>
    ensures { IfOk result (λ text. text.items ≡ document (codes "lint") (faults_members file.now all.now)) }
{
    let mut out = begin(alloc, "lint")?;
    push_faults(alloc, &mut out, file, all)?;
    end(out)
}

/// The document of a serial text of this file's name: the first fault of each faulty line, at most so many, each with its place, its name
/// and its sentence.
///
/// # Errors
///
/// `AllocError` where memory ran out.
pub fn serial_document(
    isa: InstructionSet,
    alloc: Global,
    file: &[u8],
    text: &[u8],
    most: usize,
) -> Result<LintedDocument, AllocError>
    requires { 1 ≤ most }
    ensures { IfOk result (λ linted. IsSerialDocument isa most file.now text.now linted.text.items linted.faulty) }
{
    let all = placed_faults(isa, alloc, text, most)?;
    let text = faults_text(alloc, file, &all)?;
    let faulty = !all.is_empty();
    Ok(LintedDocument { text, faulty })
}
