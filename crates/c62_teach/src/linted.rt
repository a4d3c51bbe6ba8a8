//! The faults of a text, one a line.

ghost use Rattle.std.specs.Prelude.{◌≤◌, IfOk};
ghost use Rattle.c62_teach.specs.Linted.{IsDocumentAs, IsLinted, IsLintedAs, IsLintedSerial};

use crate::words::{Kind, Linting};
use c62_explain::lint;
use c62_explain_packets::{Linted, lint_listing, lint_packets};
use c62_json_lint::{listing_document, packets_document, serial_document};
use c62_op::InstructionSet;
use std::alloc::{AllocError, Global};

/// The faults of a serial text that has this name.
#[tactic(auto, using(crate::proofs::Refusals::linted_by))]
fn lint_serial(
    isa: InstructionSet,
    alloc: Global,
    name: &[u8],
    text: &[u8],
    most: usize,
) -> Result<Linted, AllocError>
    requires { 1 ≤ most }
    ensures { IfOk result (λ linted. IsLintedSerial isa most name.now text.now linted.lines.items linted.faulty) }
{
    let lines = lint(isa, alloc, name, text, most)?;
    Ok(Linted {
        faulty: !lines.is_empty(),
        lines,
    })
}

/// The faults of a text that has this name, one a line.
fn lines_of(
    isa: InstructionSet,
    alloc: Global,
    linting: Linting,
    name: &[u8],
    text: &[u8],
) -> Result<Linted, AllocError>
    requires { 1 ≤ linting.most }
    ensures { IfOk result (λ linted. IsLintedAs isa linting.kind linting.most name.now text.now linted.lines.items linted.faulty) }
{
    match linting.kind {
        Kind::Serial => lint_serial(isa, alloc, name, text, linting.most),
        Kind::Listing => lint_listing(isa, alloc, name, text, linting.most),
        Kind::Packets => lint_packets(isa, alloc, name, text, linting.most),
    }
}

/// The document of the faults of a text that has this name.
fn document_of(
    isa: InstructionSet,
    alloc: Global,
    linting: Linting,
    name: &[u8],
    text: &[u8],
) -> Result<Linted, AllocError>
    requires { 1 ≤ linting.most }
    ensures { IfOk result (λ linted. IsDocumentAs isa linting.kind linting.most name.now text.now linted.lines.items linted.faulty) }
{
    let told = match linting.kind {
        Kind::Serial => serial_document(isa, alloc, name, text, linting.most),
        Kind::Listing => listing_document(isa, alloc, name, text, linting.most),
        Kind::Packets => packets_document(isa, alloc, name, text, linting.most),
    }?;
    Ok(Linted {
        lines: told.text,
        faulty: told.faulty,
    })
}

/// The faults of a text that has this name, one a line (docs/FAULTS.md, "All faults at once"), or their document (docs/JSON.md, "lint").
///
/// # Errors
///
/// `AllocError` where memory ran out.
pub fn lint_text(
    isa: InstructionSet,
    alloc: Global,
    linting: Linting,
    name: &[u8],
    text: &[u8],
) -> Result<Linted, AllocError>
    requires { 1 ≤ linting.most }
    ensures { IfOk result (λ linted. IsLinted isa linting name.now text.now linted.lines.items linted.faulty) }
{
    if linting.json {
        document_of(isa, alloc, linting, name, text)
    } else {
        lines_of(isa, alloc, linting, name, text)
    }
}
