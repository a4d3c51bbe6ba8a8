//! The faults of a listing behind the first.

use crate::finding::{Finding, What};
use crate::further::{further_faults, is_last};
use c62_line::label_field;
use c62_listing_reader::{ListFault, read_listing};
use c62_op::InstructionSet;
use c62_read::first_line;
use std::alloc::{AllocError, Global};

/// The instruction that a line of a listing has behind three bytes.
fn issue_in(line: &[u8]) -> Option<&[u8]> {
    match line {
        [b' ', b' ', b' ', b'N', b'O', b'P', ..] => None,
        [b' ', b' ', b' ', rest @ ..] | [b'|', b'|', b' ', rest @ ..] => Some(rest),
        _ => None,
    }
}

/// Adds what a listing may have in the place of a line below this one: its label, or an instruction where it has one.
fn push_place_holder(out: &mut Vec<u8>, line: &[u8], above: &[u8]) -> Result<(), AllocError> {
    if let Some(label) = label_field(line) {
        if line.len().saturating_sub(1) != label.len() {
            out.extend_from_slice(label)?;
            return out.extend_from_slice(b":");
        }
    }
    match issue_in(above) {
        Some(issue) if line.starts_with(b"|| ") => {
            out.extend_from_slice(b"|| ")?;
            out.extend_from_slice(issue)
        }
        _ => out.extend_from_slice(b"   ADD .L1 A0,A0,A0"),
    }
}

/// The listing with something else in the place of this line.
fn without_line(alloc: Global, text: &[u8], wanted: u32) -> Result<Vec<u8>, AllocError> {
    let mut out = Vec::new(alloc);
    let mut above: &[u8] = b"";
    let mut rest = text;
    let mut number: u32 = 1;
    while let Some((line, after)) = first_line(rest) {
        if number == wanted {
            push_place_holder(&mut out, line, above)?;
        } else {
            out.extend_from_slice(line)?;
        }
        out.extend_from_slice(b"\n")?;
        above = line;
        number = number.saturating_add(1);
        rest = after;
    }
    Ok(out)
}

/// What is wrong with a line, where a listing is refused for one.
fn of_line(fault: ListFault) -> Option<Finding> {
    match fault {
        ListFault::Read(fault) => Some(Finding {
            line: fault.line,
            what: What::Read(fault.cause),
        }),
        ListFault::Shape(line) => Some(Finding {
            line,
            what: What::Shape,
        }),
        _ => None,
    }
}

/// The first line of a text that is faulty by itself, where it is no listing for that.
fn faulty_line(
    isa: InstructionSet,
    alloc: Global,
    text: &[u8],
) -> Result<Option<Finding>, AllocError> {
    match read_listing(isa, alloc, text) {
        Ok(_) => Ok(None),
        Err(ListFault::Memory) => Err(AllocError),
        Err(fault) => Ok(of_line(fault)),
    }
}

/// The faulty lines of a listing behind the first.
fn further_lines(
    isa: InstructionSet,
    alloc: Global,
    text: &[u8],
    first: Finding,
    most: usize,
) -> Result<Vec<Finding>, AllocError> {
    let mut found = Vec::new(alloc);
    let mut left = Vec::from_slice(alloc, text)?;
    let mut last = first;
    for _ in 1..most {
        if is_last(last) {
            return Ok(found);
        }
        left = without_line(alloc, &left, last.line)?;
        let Some(next) = faulty_line(isa, alloc, &left)? else {
            return Ok(found);
        };
        if next.line != last.line {
            found.push(next)?;
        }
        last = next;
    }
    Ok(found)
}

/// The faults of a text that is no listing behind the first, so that there are at most so many: the other faulty lines or, where no line is faulty
/// by itself, what else keeps its packets from being adopted (docs/FAULTS.md, "All faults at once").
pub(crate) fn further_listed(
    isa: InstructionSet,
    alloc: Global,
    text: &[u8],
    fault: ListFault,
    first: Option<Finding>,
    most: usize,
) -> Result<Vec<Finding>, AllocError> {
    let Some(first) = first else {
        return Ok(Vec::new(alloc));
    };
    match of_line(fault) {
        Some(_) => further_lines(isa, alloc, text, first, most),
        None => further_faults(isa, alloc, text, first, most),
    }
}
