//! The faults of a text of packets as lines for editors.

ghost use Rattle.std.specs.Prelude.{◌≡◌, ◌++◌, IfOk, OnOk};
ghost use Rattle.std.specs.List.{flat_map};
ghost use Rattle.c62_explain_packets.specs.Linted.{IsLintedListing, IsLintedPackets};
ghost use Rattle.c62_explain_packets.specs.Remarks.{TellsListingRemarks, TellsRemarks, fault_line, placed_line, read_line, remark_lines};
ghost use Rattle.c62_explain_packets.specs.Warned.{early_sentence, early_text, editors_place, fault_text, landing_text, later, reader_text, verb, writer_text};

use crate::early::EarlyRead;
use crate::help::push_register;
use crate::remarks::{PlacedFinding, PlacedRead, Remarks, listing_remarks, packets_remarks};
use c62_explain::push_column;
use c62_op::InstructionSet;
use itoa::Buffer;
use std::alloc::{AllocError, Global};

/// What is found in a text of packets.
#[derive(Debug, Drop)]
pub struct Linted {
    /// A line for each fault that is told.
    pub lines: Vec<u8>,
    /// Whether there is a fault.
    pub faulty: bool,
}

/// `: error: NAME: SENTENCE`
fn push_fault(out: &mut Vec<u8>, name: &str, sentence: &[u8]) -> Result<(), AllocError>
    ensures { OnOk result (out.new.items ≡ out.old.items ++ fault_text name.now sentence.now) }
{
    out.extend_from_slice(b": error: ")?;
    out.extend_from_slice(name.as_bytes())?;
    out.extend_from_slice(b": ")?;
    out.extend_from_slice(sentence)?;
    out.extend_from_slice(b"\n")
}

/// `FILE:LINE:COLUMN: error: NAME: SENTENCE`
#[tactic(auto, unfolding(crate::specs::Remarks::placed_line))]
fn push_placed(out: &mut Vec<u8>, name: &[u8], placed: PlacedFinding) -> Result<(), AllocError>
    ensures { OnOk result (out.new.items ≡ out.old.items ++ placed_line name.now placed) }
{
    push_column(out, name, placed.finding.line, placed.column)?;
    push_fault(
        out,
        placed.finding.what.name(),
        placed.finding.what.sentence(),
    )
}

/// `FILE:LINE:COLUMN: `, the column from 1.
fn push_place(out: &mut Vec<u8>, name: &[u8], number: u32, column: usize) -> Result<(), AllocError>
    ensures { OnOk result (out.new.items ≡ out.old.items ++ editors_place name.now number column) }
{
    let mut buffer = Buffer::new();
    out.extend_from_slice(name)?;
    out.extend_from_slice(b":")?;
    out.extend_from_slice(buffer.format(number).as_bytes())?;
    out.extend_from_slice(b":")?;
    out.extend_from_slice(buffer.format(column).as_bytes())?;
    out.extend_from_slice(b": ")
}

fn push_verb(out: &mut Vec<u8>, loads: bool) -> Result<(), AllocError>
    ensures { OnOk result (out.new.items ≡ out.old.items ++ verb loads) }
{
    if loads {
        out.extend_from_slice(b" loads")
    } else {
        out.extend_from_slice(b" writes")
    }
}

fn later(missing: u64) -> &'static [u8]
    ensures { result.now ≡ later missing }
{
    if missing == 1 {
        b" cycle later"
    } else {
        b" cycles later"
    }
}

/// `line R reads REG`
fn push_reader(out: &mut Vec<u8>, early: EarlyRead) -> Result<(), AllocError>
    ensures { OnOk result (out.new.items ≡ out.old.items ++ reader_text early) }
{
    let mut buffer = Buffer::new();
    out.extend_from_slice(b"line ")?;
    out.extend_from_slice(buffer.format(early.line).as_bytes())?;
    out.extend_from_slice(b" reads ")?;
    push_register(out, early.register)
}

/// `, which line W loads`
fn push_writer(out: &mut Vec<u8>, early: EarlyRead) -> Result<(), AllocError>
    ensures { OnOk result (out.new.items ≡ out.old.items ++ writer_text early) }
{
    let mut buffer = Buffer::new();
    out.extend_from_slice(b", which line ")?;
    out.extend_from_slice(buffer.format(early.writer).as_bytes())?;
    push_verb(out, early.loads)
}

/// `: it lands N cycles later`
fn push_landing(out: &mut Vec<u8>, early: EarlyRead) -> Result<(), AllocError>
    ensures { OnOk result (out.new.items ≡ out.old.items ++ landing_text early) }
{
    let mut buffer = Buffer::new();
    out.extend_from_slice(b": it lands ")?;
    out.extend_from_slice(buffer.format(early.missing).as_bytes())?;
    out.extend_from_slice(later(early.missing))
}

/// Adds what is said of a read in a delay slot: `line R reads REG, which line W loads: it lands N cycles later`.
///
/// # Errors
///
/// `AllocError` where memory ran out.
#[tactic(auto, unfolding(crate::specs::Warned::early_sentence))]
pub fn push_early_sentence(out: &mut Vec<u8>, early: EarlyRead) -> Result<(), AllocError>
    ensures { OnOk result (out.new.items ≡ out.old.items ++ early_sentence early) }
{
    push_reader(out, early)?;
    push_writer(out, early)?;
    push_landing(out, early)
}

/// `warning: `, and what is said of a read in a delay slot.
fn push_early(out: &mut Vec<u8>, early: EarlyRead) -> Result<(), AllocError>
    ensures { OnOk result (out.new.items ≡ out.old.items ++ early_text early) }
{
    out.extend_from_slice(b"warning: ")?;
    push_early_sentence(out, early)?;
    out.extend_from_slice(b"\n")
}

/// `FILE:LINE:COLUMN: warning: ..`
#[tactic(auto, unfolding(crate::specs::Remarks::read_line))]
fn push_read(out: &mut Vec<u8>, name: &[u8], read: PlacedRead) -> Result<(), AllocError>
    ensures { OnOk result (out.new.items ≡ out.old.items ++ read_line name.now read) }
{
    push_place(out, name, read.early.line, read.column)?;
    push_early(out, read.early)
}

/// A warning for each of these reads.
fn push_reads(out: &mut Vec<u8>, name: &[u8], reads: &[PlacedRead]) -> Result<(), AllocError>
    ensures { OnOk result (out.new.items ≡ out.old.items ++ flat_map (read_line name.now) reads.now) }
{
    for read in reads {
        push_read(out, name, *read)?;
    }
    Ok(())
}

/// A line for the fault, where there is one.
fn push_found(
    out: &mut Vec<u8>,
    name: &[u8],
    fault: Option<PlacedFinding>,
) -> Result<(), AllocError>
    ensures { OnOk result (out.new.items ≡ out.old.items ++ fault_line name.now fault) }
{
    match fault {
        Some(placed) => push_placed(out, name, placed),
        None => Ok(()),
    }
}

/// A line for each of these faults.
fn push_all(out: &mut Vec<u8>, name: &[u8], faults: &[PlacedFinding]) -> Result<(), AllocError>
    ensures { OnOk result (out.new.items ≡ out.old.items ++ flat_map (placed_line name.now) faults.now) }
{
    for placed in faults {
        push_placed(out, name, *placed)?;
    }
    Ok(())
}

/// The lines of what is found in the text of this name.
#[tactic(auto, unfolding(crate::specs::Remarks::remark_lines))]
fn lines_of(alloc: Global, name: &[u8], remarks: &Remarks) -> Result<Vec<u8>, AllocError>
    ensures { IfOk result (λ lines. lines.items ≡ remark_lines name.now remarks.now) }
{
    let mut lines = Vec::new(alloc);
    push_found(&mut lines, name, remarks.fault)?;
    push_all(&mut lines, name, &remarks.further)?;
    push_reads(&mut lines, name, &remarks.reads)?;
    Ok(lines)
}

/// The faults of a text of packets as people and compilers write them, at most so many: first what `adopt` refuses it for. Where there is none,
/// the reads in delay slots are told, at most so many.
///
/// # Errors
///
/// `AllocError` where memory ran out.
pub fn lint_packets(
    isa: InstructionSet,
    alloc: Global,
    name: &[u8],
    text: &[u8],
    most: usize,
) -> Result<Linted, AllocError>
    ensures linted { IfOk result (λ linted. IsLintedPackets isa most name.now text.now linted.lines.items linted.faulty) }
    ensures remarks { IfOk result (λ linted. TellsRemarks isa most name.now text.now linted.lines.items) }
{
    let remarks = packets_remarks(isa, alloc, text, most)?;
    let lines = lines_of(alloc, name, &remarks)?;
    let faulty = remarks.faulty;
    Ok(Linted { lines, faulty })
}

/// The faults of a listing, at most so many: first what `sim` refuses it for. Of a block it is told by the line that keeps the text from being
/// adopted.
///
/// # Errors
///
/// `AllocError` where memory ran out.
pub fn lint_listing(
    isa: InstructionSet,
    alloc: Global,
    name: &[u8],
    text: &[u8],
    most: usize,
) -> Result<Linted, AllocError>
    ensures linted { IfOk result (λ linted. IsLintedListing isa name.now text.now linted.lines.items linted.faulty) }
    ensures remarks { IfOk result (λ linted. TellsListingRemarks isa name.now text.now linted.lines.items) }
{
    let remarks = listing_remarks(isa, alloc, text, most)?;
    let lines = lines_of(alloc, name, &remarks)?;
    let faulty = remarks.faulty;
    Ok(Linted { lines, faulty })
}
