//! The documents of what is found in packets.

ghost use Rattle.std.specs.Prelude.{◌≡◌, ◌++◌, codes, IfOk};
ghost use Rattle.std.specs.List.{flat_map};
ghost use Rattle.c62_json.specs.Document.{Adds, document};
ghost use Rattle.c62_json_lint.specs.Faults.{finding_told, found_told, read_told, remarks_members};
ghost use Rattle.c62_json_lint.specs.Linted.{IsListingDocument, IsPacketsDocument};

use crate::document::LintedDocument;
use crate::fault::{push_finding, push_read};
use c62_explain_packets::{PlacedFinding, PlacedRead, Remarks, listing_remarks, packets_remarks};
use c62_json::{begin, end};
use c62_op::InstructionSet;
use json::Writer;
use std::alloc::{AllocError, Global};

/// An object for each of these reads in delay slots.
fn push_reads(
    alloc: Global,
    out: &mut Writer,
    file: &[u8],
    reads: &[PlacedRead],
) -> Result<(), AllocError>
    ensures { Adds result out.old out.new (flat_map (read_told file.now) reads.now) }
{
    for read in reads {
        push_read(alloc, out, file, *read)?;
    }
    Ok(())
}

/// The object of the fault, where there is one.
fn push_found(
    alloc: Global,
    out: &mut Writer,
    file: &[u8],
    fault: Option<PlacedFinding>,
) -> Result<(), AllocError>
    ensures { Adds result out.old out.new (found_told file.now fault) }
{
    match fault {
        Some(placed) => push_finding(alloc, out, file, placed),
        None => Ok(()),
    }
}

/// An object for each of these faults.
fn push_all(
    alloc: Global,
    out: &mut Writer,
    file: &[u8],
    faults: &[PlacedFinding],
) -> Result<(), AllocError>
    ensures { Adds result out.old out.new (flat_map (finding_told file.now) faults.now) }
{
    for placed in faults {
        push_finding(alloc, out, file, *placed)?;
    }
    Ok(())
}

/// The member of what is found.
#[tactic(auto, unfolding(crate::specs::Faults::remarks_members))]
fn push_remarks(
    alloc: Global,
    out: &mut Writer,
    file: &[u8],
    remarks: &Remarks,
) -> Result<(), AllocError>
    ensures { Adds result out.old out.new (remarks_members file.now remarks.now) }
{
    out.key("faults")?;
    out.begin_array()?;
    push_found(alloc, out, file, remarks.fault)?;
    push_all(alloc, out, file, &remarks.further)?;
    push_reads(alloc, out, file, &remarks.reads)?;
    out.end_array()
}

/// The text of the document of what is found.
fn remarks_text(alloc: Global, file: &[u8], remarks: &Remarks) -> Result<Vec<u8>, AllocError>
    ensures { IfOk result (λ text. text.items ≡ document (codes "lint") (remarks_members file.now remarks.now)) }
{
    let mut out = begin(alloc, "lint")?;
    push_remarks(alloc, &mut out, file, remarks)?;
    end(out)
}

/// The document of packets as people and compilers write them, in a file of this name: the faults, and where there are none the reads in
/// delay slots, at most so many.
///
/// # Errors
///
/// `AllocError` where memory ran out.
pub fn packets_document(
    isa: InstructionSet,
    alloc: Global,
    file: &[u8],
    text: &[u8],
    most: usize,
) -> Result<LintedDocument, AllocError>
    ensures { IfOk result (λ linted. IsPacketsDocument isa most file.now text.now linted.text.items linted.faulty) }
{
    let remarks = packets_remarks(isa, alloc, text, most)?;
    let text = remarks_text(alloc, file, &remarks)?;
    let faulty = remarks.faulty;
    Ok(LintedDocument { text, faulty })
}

/// The document of a listing in a file of this name: its faults, at most so many.
///
/// # Errors
///
/// `AllocError` where memory ran out.
pub fn listing_document(
    isa: InstructionSet,
    alloc: Global,
    file: &[u8],
    text: &[u8],
    most: usize,
) -> Result<LintedDocument, AllocError>
    ensures { IfOk result (λ linted. IsListingDocument isa file.now text.now linted.text.items linted.faulty) }
{
    let remarks = listing_remarks(isa, alloc, text, most)?;
    let text = remarks_text(alloc, file, &remarks)?;
    let faulty = remarks.faulty;
    Ok(LintedDocument { text, faulty })
}
