//! The faults of a text.

ghost use Rattle.std.specs.Prelude.{◌≡◌, ◌≤◌, ◌++◌, length, take, map, IfOk, OnOk};
ghost use Rattle.std.specs.Option.{option_to_list};
ghost use Rattle.c62_line.specs.Line.{statement_of, label_field};
ghost use Rattle.c62_read.specs.Text.{lines_of};
ghost use Rattle.c62_read.specs.Program.{is_among, labels_of};
ghost use Rattle.c62_read.specs.Walk.{is_unknown, drafts_of, no_drafts};
ghost use Rattle.c62_read.specs.Reading.{line_step};
ghost use Rattle.c62_lint.specs.Faults.{at_number, faults_in, refusal_of};
ghost use Rattle.c62_lint.specs.Walk.{step_fault, step_drafts, walked_faults};

use c62_line::{Cause, Label, ReadFault, Statement, label_field};
use c62_op::InstructionSet;
use c62_read::{MOST_BYTES, TextReader, first_line};
use std::alloc::{AllocError, Global};

fn is_among(labels: &[Label], label: &[u8]) -> bool
    ensures { result ≡ is_among label.now labels.now }
{
    labels.iter().any(|other| other.as_bytes() == label)
}

/// Whether the line branches to none of these labels.
fn is_unknown(labels: &[Label], what: &Statement<'_>) -> bool
    ensures { result ≡ is_unknown labels.now (statement_of what.now) }
{
    match what {
        Statement::Jump(_, label) => !is_among(labels, label),
        _ => false,
    }
}

/// Adds the label of a line, where it has one.
#[tactic(auto, using(crate::proofs::FaultLemmas::field_is_label))]
fn add_field(labels: &mut Vec<Label>, line: &[u8]) -> Result<(), AllocError>
    ensures { OnOk result (labels.new.items ≡ labels.old.items ++ option_to_list (label_field line.now)) }
{
    if let Some(label) = label_field(line) {
        labels.push(Label::new(label))?;
    }
    Ok(())
}

/// The labels of all lines of a text.
fn labels_in(alloc: Global, text: &[u8]) -> Result<Vec<Label>, AllocError>
    ensures { IfOk result (λ labels. labels.items ≡ labels_of (lines_of text.now)) }
{
    let mut labels = Vec::new(alloc);
    let mut rest = text;
    while let Some((line, after)) = first_line(rest) {
        add_field(&mut labels, line)?;
        rest = after;
    }
    Ok(labels)
}

/// What is wrong with a line that stands behind these blocks. Where nothing is, they get what the line says.
fn line_fault(
    isa: InstructionSet,
    reader: &mut TextReader,
    alloc: Global,
    labels: &[Label],
    number: u32,
    line: &[u8],
) -> Result<Option<Cause>, AllocError>
    ensures fault { IfOk result (λ fault. fault ≡ step_fault labels.now (line_step isa number line.now reader.old)) }
    ensures made { OnOk result (drafts_of reader.new ≡ step_drafts labels.now (line_step isa number line.now reader.old) (drafts_of reader.old)) }
{
    match reader.judge(isa, line) {
        Err(cause) => Ok(Some(cause)),
        Ok((label, what)) => {
            if is_unknown(labels, &what) {
                return Ok(Some(Cause::UnknownTarget));
            }
            reader.add_said(alloc, number, label, what)
        }
    }
}

/// Adds a line's fault, where it has one.
fn push_fault(
    faults: &mut Vec<ReadFault>,
    number: u32,
    fault: Option<Cause>,
) -> Result<(), AllocError>
    ensures { OnOk result (map refusal_of faults.new.items ≡ map refusal_of faults.old.items ++ at_number number fault) }
{
    if let Some(cause) = fault {
        faults.push(ReadFault::at(number, cause))?;
    }
    Ok(())
}

/// The faults of the lines of a text, whose labels are these.
fn line_faults(
    isa: InstructionSet,
    alloc: Global,
    text: &[u8],
    labels: &[Label],
    most: usize,
) -> Result<Vec<ReadFault>, AllocError>
    requires { length text.now ≤ MOST_BYTES }
    ensures { IfOk result (λ faults. map refusal_of faults.items ≡ take most (walked_faults isa labels.now 1 (lines_of text.now) no_drafts)) }
{
    let mut faults = Vec::new(alloc);
    let mut reader = TextReader::new(alloc);
    let mut rest = text;
    let mut number = 1;
    while let Some((line, after)) = first_line(rest) {
        if faults.len() >= most {
            return Ok(faults);
        }
        let fault = line_fault(isa, &mut reader, alloc, labels, number, line)?;
        push_fault(&mut faults, number, fault)?;
        number += 1;
        rest = after;
    }
    Ok(faults)
}

/// The faults of a serial text, at most so many: of each faulty line its first, in the order of the lines. For the lines
/// behind it a faulty line counts as an empty one (docs/FAULTS.md, "All faults at once"). Of a text that is too long it is
/// `TextTooLong` at line 0 alone. The first is what `read_program` refuses the text for.
///
/// # Errors
///
/// `AllocError` where memory ran out.
pub fn faults_of(
    isa: InstructionSet,
    alloc: Global,
    text: &[u8],
    most: usize,
) -> Result<Vec<ReadFault>, AllocError>
    requires { 1 ≤ most }
    ensures { IfOk result (λ faults. map refusal_of faults.items ≡ take most (faults_in isa text.now)) }
{
    if text.len() > MOST_BYTES {
        let mut faults = Vec::new(alloc);
        faults.push(ReadFault::at(0, Cause::TextTooLong))?;
        return Ok(faults);
    }
    let labels = labels_in(alloc, text)?;
    line_faults(isa, alloc, text, &labels, most)
}
