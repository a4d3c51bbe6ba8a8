//! What is found in packets, with columns.

ghost use Rattle.std.specs.Prelude.{◌≡◌, All, map, IfOk};
ghost use Rattle.c62_adopt_cut.specs.Drafted.{cut_of};
ghost use Rattle.c62_adopt.specs.Answer.{code_cut};
ghost use Rattle.c62_explain_packets.specs.Warned.{early_among};
ghost use Rattle.c62_explain_packets.specs.Remarks.{AreListingRemarks, AreReads, AreRemarks, IsPlaced, IsPlacedAs};

use crate::early::{EarlyRead, early_reads};
use crate::finding::{Finding, of_adopt, of_listing, place_in, without_front};
use crate::further::further_faults;
use crate::further_listed::further_listed;
use c62_adopt::{adopt, read_code};
use c62_adopt_cut::{Cut, Draft, read_cut};
use c62_explain::line_at;
use c62_insn::Reg;
use c62_listing_reader::{ListFault, read_listing};
use c62_op::InstructionSet;
use c62_place::{Place, token_at};
use c62_token::Kind;
use std::alloc::{AllocError, Global};

/// A fault of packets, and where it is found in its line.
#[derive(Clone, Copy, PartialEq, Eq, Debug)]
pub struct PlacedFinding {
    pub finding: Finding,
    /// The column, which counts bytes from 1.
    pub column: usize,
}

/// A read in a delay slot, and where its line names the register.
#[derive(Clone, Copy, PartialEq, Eq, Debug)]
pub struct PlacedRead {
    pub early: EarlyRead,
    /// The column, which counts bytes from 1.
    pub column: usize,
}

/// What is found in a text of packets.
#[derive(Debug, Drop)]
pub struct Remarks {
    /// The fault that the text is refused for.
    pub fault: Option<PlacedFinding>,
    /// The faults that are told behind it.
    pub further: Vec<PlacedFinding>,
    /// The reads in delay slots that are told, where there is no fault.
    pub reads: Vec<PlacedRead>,
    /// Whether there is a fault.
    pub faulty: bool,
}

/// A fault of this text with its column.
fn placed(
    isa: InstructionSet,
    alloc: Global,
    text: &[u8],
    finding: Finding,
) -> Result<PlacedFinding, AllocError>
    ensures same { IfOk result (λ placed. placed.finding ≡ finding) }
    ensures there { IfOk result (IsPlaced isa text.now) }
{
    let place = place_in(isa, alloc, finding.what, line_at(text, finding.line))?;
    Ok(PlacedFinding {
        finding,
        column: place.start + 1,
    })
}

/// These faults of this text with their columns.
fn all_placed(
    isa: InstructionSet,
    alloc: Global,
    text: &[u8],
    found: &[Finding],
) -> Result<Vec<PlacedFinding>, AllocError>
    ensures { IfOk result (λ all. All (IsPlaced isa text.now) all.items) }
{
    let mut all = Vec::new(alloc);
    for finding in found {
        all.push(placed(isa, alloc, text, *finding)?)?;
    }
    Ok(all)
}

/// What is found in this text, where something is, with its column.
fn placed_as(
    isa: InstructionSet,
    alloc: Global,
    text: &[u8],
    found: Option<Finding>,
) -> Result<Option<PlacedFinding>, AllocError>
    ensures { IfOk result (IsPlacedAs isa text.now found) }
{
    match found {
        Some(finding) => Ok(Some(placed(isa, alloc, text, finding)?)),
        None => Ok(None),
    }
}

/// Where a line names a register first; where it doesn't, its first token.
fn register_place(line: &[u8], register: Reg) -> Place {
    for before in 0..line.len() {
        let place = token_at(line, before);
        if let Kind::Register(reg) = Kind::of(&line[place.start..place.start + place.len]) {
            if reg.is_same(register) {
                return place;
            }
        }
    }
    token_at(line, 0)
}

/// A read in a delay slot with the column at which its line names the register.
fn placed_read(alloc: Global, text: &[u8], early: EarlyRead) -> Result<PlacedRead, AllocError>
    ensures { IfOk result (λ read. read.early ≡ early) }
{
    let line = without_front(alloc, line_at(text, early.line))?;
    let place = register_place(&line, early.register);
    Ok(PlacedRead {
        early,
        column: place.start.saturating_add(1),
    })
}

/// These reads in delay slots with their columns.
fn placed_reads(
    alloc: Global,
    text: &[u8],
    reads: &[EarlyRead],
) -> Result<Vec<PlacedRead>, AllocError>
    ensures { IfOk result (λ all. map (λ read. read.early) all.items ≡ reads.now) }
{
    let mut all = Vec::new(alloc);
    for early in reads {
        all.push(placed_read(alloc, text, *early)?)?;
    }
    Ok(all)
}

/// The reads in delay slots of these blocks.
fn early_among(alloc: Global, drafts: &[Draft]) -> Result<Vec<EarlyRead>, AllocError>
    ensures { IfOk result (λ reads. reads.items ≡ early_among drafts.now) }
{
    let mut reads = Vec::new(alloc);
    for draft in drafts {
        reads.extend_from_slice(&early_reads(alloc, &draft.issues)?)?;
    }
    Ok(reads)
}

/// The blocks of a text that has code. Memory alone can run out then.
fn cut_of_code(isa: InstructionSet, alloc: Global, text: &[u8]) -> Result<Cut, AllocError>
    ensures { IfOk result (λ cut. cut_of cut ≡ code_cut isa text.now) }
{
    match read_code(isa, alloc, text) {
        Ok(code) => read_cut(isa, alloc, &code),
        Err(_) => Err(AllocError),
    }
}

/// The reads in delay slots of a text of packets that is adopted, at most so many.
fn reads_of(
    isa: InstructionSet,
    alloc: Global,
    text: &[u8],
    most: usize,
) -> Result<Vec<PlacedRead>, AllocError>
    ensures { IfOk result (λ reads. AreReads isa most text.now reads.items) }
{
    let cut = cut_of_code(isa, alloc, text)?;
    let mut reads = early_among(alloc, &cut.drafts)?;
    reads.truncate(most);
    placed_reads(alloc, text, &reads)
}

/// The faults of a text of packets as people and compilers write them, at most so many: first what `adopt` refuses it for. Where there is none,
/// the reads in delay slots, at most so many.
///
/// # Errors
///
/// `AllocError` where memory ran out.
pub fn packets_remarks(
    isa: InstructionSet,
    alloc: Global,
    text: &[u8],
    most: usize,
) -> Result<Remarks, AllocError>
    ensures { IfOk result (AreRemarks isa most text.now) }
{
    let fault = match adopt(isa, alloc, text, false) {
        Ok(_) => {
            return Ok(Remarks {
                fault: None,
                further: Vec::new(alloc),
                reads: reads_of(isa, alloc, text, most)?,
                faulty: false,
            });
        }
        Err(fault) => fault,
    };
    let Some(finding) = of_adopt(fault) else {
        return Err(AllocError);
    };
    let further = further_faults(isa, alloc, text, finding, most)?;
    Ok(Remarks {
        fault: Some(placed(isa, alloc, text, finding)?),
        further: all_placed(isa, alloc, text, &further)?,
        reads: Vec::new(alloc),
        faulty: true,
    })
}

/// The faults of a listing, at most so many: first what `sim` refuses it for. Of a block it is told by the line that keeps the text from being
/// adopted, and not at all where none does.
///
/// # Errors
///
/// `AllocError` where memory ran out.
pub fn listing_remarks(
    isa: InstructionSet,
    alloc: Global,
    text: &[u8],
    most: usize,
) -> Result<Remarks, AllocError>
    ensures { IfOk result (AreListingRemarks isa text.now) }
{
    let fault = match read_listing(isa, alloc, text) {
        Ok(_) => {
            return Ok(Remarks {
                fault: None,
                further: Vec::new(alloc),
                reads: Vec::new(alloc),
                faulty: false,
            });
        }
        Err(fault) => fault,
    };
    if let ListFault::Memory = fault {
        return Err(AllocError);
    }
    let found = of_listing(isa, alloc, text, fault)?;
    let further = further_listed(isa, alloc, text, fault, found, most)?;
    Ok(Remarks {
        fault: placed_as(isa, alloc, text, found)?,
        further: all_placed(isa, alloc, text, &further)?,
        reads: Vec::new(alloc),
        faulty: true,
    })
}
