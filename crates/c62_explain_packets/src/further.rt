//! The faults of packets behind the first.

use crate::finding::{Finding, What, of_adopt};
use crate::help::{is_late, issue_at};
use c62_adopt::{AdoptFault, adopt, read_code};
use c62_adopt_code::{CodeCause, Role, label_in_front, read_role};
use c62_adopt_cut::{Cut, Draft, Issue, read_cut};
use c62_adopt_line::{behind_bars, behind_colon};
use c62_line::Cause;
use c62_op::InstructionSet;
use c62_read::{first_line, label_is};
use c62_token::{Tokens, begins_with};
use std::alloc::{AllocError, Global};

/// Whether nothing is looked for behind it: a block or a text stays too large.
pub(crate) fn is_last(finding: Finding) -> bool {
    let too_large = matches!(
        finding.what,
        What::TooManyCycles | What::Read(Cause::TooManyInstructions | Cause::TooManyBlocks)
    );
    too_large || finding.line == 0
}

/// Whether a line keeps the text from having code.
fn is_of_code(finding: Finding) -> bool {
    matches!(finding.what, What::Code(_))
}

/// Whether the instruction branches to a label that no block has.
fn is_lost(cut: &Cut, issue: &Issue) -> bool {
    match &issue.target {
        Some(label) => !cut
            .drafts
            .iter()
            .any(|draft| label_is(label.as_bytes(), &draft.label)),
        None => false,
    }
}

/// Whether the instruction is taken away with a fault of its block: of several branches the others, of what is in flight all that has no other
/// fault.
fn is_taken(finding: Finding, cut: &Cut, draft: &Draft, issue: &Issue) -> bool {
    match finding.what {
        What::TwoBranches => issue.line != finding.line && issue.insn.op().is_branch(),
        What::NotDrained => is_late(cut, draft, issue) && !is_lost(cut, issue),
        _ => issue.line == finding.line,
    }
}

/// The lines that are taken away with a fault that packets have.
fn lines_taken(alloc: Global, finding: Finding, cut: &Cut) -> Result<Vec<u32>, AllocError> {
    let mut lines = Vec::new(alloc);
    let Some((draft, _)) = issue_at(&cut.drafts, finding.line) else {
        lines.push(finding.line)?;
        return Ok(lines);
    };
    for issue in draft.issues.as_slice() {
        if is_taken(finding, cut, draft, issue) {
            lines.push(issue.line)?;
        }
    }
    Ok(lines)
}

/// Adds what stands in the place of a line with this fault: its label, and a NOP for its cycle.
fn push_nop(out: &mut Vec<u8>, what: What, line: &[u8]) -> Result<(), AllocError> {
    if behind_bars(line).is_some() {
        return match what {
            What::Read(Cause::ParallelBar) => out.extend_from_slice(b" nop"),
            _ => out.extend_from_slice(b"|| nop"),
        };
    }
    let label = label_in_front(line);
    let mut rest = line;
    if let Some(label) = &label {
        rest = behind_colon(line);
        if !matches!(what, What::Read(Cause::DuplicateLabel)) {
            out.extend_from_slice(label.as_bytes())?;
            out.extend_from_slice(b":")?;
        }
    }
    match Tokens::new(rest).peek() {
        Some(word) if !begins_with(b'.', word) => out.extend_from_slice(b" nop"),
        _ => Ok(()),
    }
}

/// The code with NOPs in the place of these lines.
fn with_nops(alloc: Global, code: &[u8], what: What, lines: &[u32]) -> Result<Vec<u8>, AllocError> {
    let mut out = Vec::new(alloc);
    let mut rest = code;
    let mut number: u32 = 1;
    while let Some((line, after)) = first_line(rest) {
        if lines.contains(&number) {
            push_nop(&mut out, what, line)?;
        } else {
            out.extend_from_slice(line)?;
        }
        out.extend_from_slice(b"\n")?;
        number = number.saturating_add(1);
        rest = after;
    }
    Ok(out)
}

/// The text without this line. One in another section goes with those below it that stand there.
fn without_line(alloc: Global, text: &[u8], finding: Finding) -> Result<Vec<u8>, AllocError> {
    let whole = matches!(finding.what, What::Code(CodeCause::OtherSection));
    let mut out = Vec::new(alloc);
    let mut rest = text;
    let mut number: u32 = 1;
    let mut inside = false;
    while let Some((line, after)) = first_line(rest) {
        let begins = matches!(read_role(line), Role::Begins(_, _));
        inside = number == finding.line || inside && whole && !begins;
        if !inside {
            out.extend_from_slice(line)?;
        }
        out.extend_from_slice(b"\n")?;
        number = number.saturating_add(1);
        rest = after;
    }
    Ok(out)
}

/// A text without this fault, which it has.
fn without(
    isa: InstructionSet,
    alloc: Global,
    text: &[u8],
    finding: Finding,
) -> Result<Vec<u8>, AllocError> {
    match read_code(isa, alloc, text) {
        Ok(code) => {
            let cut = read_cut(isa, alloc, &code)?;
            let lines = lines_taken(alloc, finding, &cut)?;
            with_nops(alloc, &code, finding.what, &lines)
        }
        Err(AdoptFault::Memory) => Err(AllocError),
        Err(_) => without_line(alloc, text, finding),
    }
}

/// What a text is refused for, where it is.
fn refused_for(
    isa: InstructionSet,
    alloc: Global,
    text: &[u8],
) -> Result<Option<Finding>, AllocError> {
    match adopt(isa, alloc, text, false) {
        Ok(_) => Ok(None),
        Err(AdoptFault::Memory) => Err(AllocError),
        Err(fault) => Ok(of_adopt(fault)),
    }
}

/// The faults of a text of packets behind the first, so that there are at most so many: what the text is refused for where NOPs stand in the
/// place of the lines that are faulty before (docs/FAULTS.md, "All faults at once").
pub(crate) fn further_faults(
    isa: InstructionSet,
    alloc: Global,
    text: &[u8],
    first: Finding,
    most: usize,
) -> Result<Vec<Finding>, AllocError> {
    let mut found = Vec::new(alloc);
    let mut left = Vec::from_slice(alloc, text)?;
    let mut last = first;
    let mut only_code = is_of_code(first);
    for _ in 1..most {
        if is_last(last) {
            return Ok(found);
        }
        left = without(isa, alloc, &left, last)?;
        let Some(next) = refused_for(isa, alloc, &left)? else {
            return Ok(found);
        };
        only_code = only_code && is_of_code(next);
        // Once lines of the code are away, an alignment may be padded that wasn't.
        if only_code || !is_of_code(next) {
            found.push(next)?;
        }
        last = next;
    }
    Ok(found)
}
