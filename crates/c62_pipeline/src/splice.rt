//! Packets of a program's blocks, some of which have others than their own.

use crate::chosen::Choice;
use c62_loop_match::Pipelined;
use c62_loop_text::push_loop;
use c62_read::{Block, first_line};
use std::alloc::{AllocError, Global};

/// The packets that the block of this number has in place of its own.
pub(crate) fn others_of<'a>(choices: &'a [Choice], number: usize) -> Option<&'a Pipelined> {
    choices
        .iter()
        .find(|choice| usize::from(choice.number) == number)?
        .packets()
}

/// The text of the packets that a loop has in place of its block's, and no text where it has none.
fn others_text(
    alloc: Global,
    blocks: &[Block],
    choices: &[Choice],
    number: usize,
) -> Result<String, AllocError> {
    let mut text = String::new(alloc);
    if let Some(block) = blocks.get(number)
        && let Some(label) = block.label()
        && let Some(pipelined) = others_of(choices, number)
    {
        push_loop(&mut text, label, pipelined)?;
    }
    Ok(text)
}

/// Appends that text.
fn push_others(
    alloc: Global,
    out: &mut Vec<u8>,
    blocks: &[Block],
    choices: &[Choice],
    number: usize,
) -> Result<(), AllocError> {
    let text = others_text(alloc, blocks, choices, number)?;
    out.extend_from_slice(text.as_bytes())
}

/// Appends a line.
fn push_line(out: &mut Vec<u8>, line: &[u8]) -> Result<(), AllocError> {
    out.extend_from_slice(line)?;
    out.extend_from_slice(b"\n")
}

/// A listing in which some blocks have other packets. An empty line stands between two blocks, and none in a block.
///
/// # Errors
///
/// `AllocError` where memory ran out.
pub(crate) fn spliced(
    alloc: Global,
    listing: &[u8],
    blocks: &[Block],
    choices: &[Choice],
) -> Result<Vec<u8>, AllocError> {
    let mut out = Vec::with_capacity(alloc, listing.len())?;
    let mut number = 0usize;
    let mut rest = listing;
    push_others(alloc, &mut out, blocks, choices, number)?;
    while let Some((line, after)) = first_line(rest) {
        if line.is_empty() {
            number = number.saturating_add(1);
            push_line(&mut out, line)?;
            push_others(alloc, &mut out, blocks, choices, number)?;
        } else if others_of(choices, number).is_none() {
            push_line(&mut out, line)?;
        }
        rest = after;
    }
    Ok(out)
}
