//! What is said of loops in whose run accesses met, and of others.

ghost use Rattle.std.specs.Prelude.{option_map, ℕ, ◌≡◌, ◌++◌, length, map, OnOk, decimal, Some, slice_get, if◌then◌else◌, [], codes};
ghost use Rattle.std.specs.List.{flat_map, list_any};
ghost use Rattle.c62_apart.specs.Sentence.{byte_words, held_line, is_of, line_at, lines_of, lines_upto, meeting_line, meeting_lines, mine_line, pair_words};

use crate::marks::Meeting;
use crate::visit::{is_loop, loop_of};
use c62_line::Label;
use c62_read::Block;
use itoa::Buffer;
use std::alloc::{AllocError, Global};

/// Words and a number.
fn push_number(out: &mut Vec<u8>, words: &[u8], number: u32) -> Result<(), AllocError>
    ensures { OnOk result (out.new.items ≡ out.old.items ++ (words.now ++ decimal number)) }
{
    out.extend_from_slice(words)?;
    let mut buffer = Buffer::new();
    out.extend_from_slice(buffer.format(number).as_bytes())
}

/// ` 7 and 9`, behind words
fn push_pair(out: &mut Vec<u8>, words: &[u8], one: u32, other: u32) -> Result<(), AllocError>
    ensures { OnOk result (out.new.items ≡ out.old.items ++ pair_words words.now one other) }
{
    push_number(out, words, one)?;
    push_number(out, b" and ", other)
}

/// ` touch byte 0x104`, where memory begins at a base
fn push_byte(out: &mut Vec<u8>, alloc: Global, base: u32, byte: u32) -> Result<(), AllocError>
    ensures { OnOk result (out.new.items ≡ out.old.items ++ byte_words base byte) }
{
    let address = base.wrapping_add(byte);
    out.extend_from_slice(format!(in alloc; " touch byte 0x{address:x}")?.as_bytes())
}

/// `loop L: lines 7 and 9 touch byte 0x104 in iterations 1 and 3`
fn push_meeting(
    out: &mut Vec<u8>,
    alloc: Global,
    base: u32,
    label: &[u8],
    meeting: Meeting,
) -> Result<(), AllocError>
    ensures { OnOk result (out.new.items ≡ out.old.items ++ meeting_line base label.now meeting) }
{
    let Meeting { earlier, later } = meeting;
    out.extend_from_slice(b"loop ")?;
    out.extend_from_slice(label)?;
    push_pair(out, b": lines ", earlier.line, later.line)?;
    push_byte(out, alloc, base, later.byte)?;
    push_pair(
        out,
        b" in iterations ",
        earlier.visit.iteration,
        later.visit.iteration,
    )?;
    out.extend_from_slice(b"\n")
}

/// Whether a meeting is of the loop of this number.
fn is_of(blocks: &[Block], number: usize, meeting: Meeting) -> bool
    ensures { result ≡ is_of blocks.now number meeting }
{
    loop_of(blocks, meeting.later.visit.number) == number
}

/// Whether one of these is.
fn has_met(blocks: &[Block], number: usize, met: &[Meeting]) -> bool
    ensures { result ≡ list_any (is_of blocks.now number) met.now }
{
    met.iter().any(|meeting| is_of(blocks, number, *meeting))
}

/// The line of a meeting, where it is of the loop of this number.
fn push_mine(
    out: &mut Vec<u8>,
    alloc: Global,
    base: u32,
    blocks: &[Block],
    number: usize,
    label: &[u8],
    meeting: Meeting,
) -> Result<(), AllocError>
    ensures { OnOk result (out.new.items ≡ out.old.items ++ mine_line base blocks.now number label.now meeting) }
{
    if is_of(blocks, number, meeting) {
        push_meeting(out, alloc, base, label, meeting)
    } else {
        Ok(())
    }
}

/// The lines of the meetings of the loop of this number.
fn push_meetings(
    out: &mut Vec<u8>,
    alloc: Global,
    base: u32,
    blocks: &[Block],
    number: usize,
    label: &[u8],
    met: &[Meeting],
) -> Result<(), AllocError>
    ensures { OnOk result (out.new.items ≡ out.old.items ++ flat_map (mine_line base blocks.now number label.now) met.now) }
{
    for meeting in met {
        push_mine(out, alloc, base, blocks, number, label, *meeting)?;
    }
    Ok(())
}

/// `loop L: apart held`
fn push_held(out: &mut Vec<u8>, label: &[u8]) -> Result<(), AllocError>
    ensures { OnOk result (out.new.items ≡ out.old.items ++ held_line label.now) }
{
    out.extend_from_slice(b"loop ")?;
    out.extend_from_slice(label)?;
    out.extend_from_slice(b": apart held\n")
}

/// The lines of the loop of this number and label.
fn push_loop(
    out: &mut Vec<u8>,
    alloc: Global,
    base: u32,
    blocks: &[Block],
    number: usize,
    label: &[u8],
    met: &[Meeting],
) -> Result<(), AllocError>
    ensures { OnOk result (out.new.items ≡ out.old.items ++ meeting_lines base blocks.now number label.now met.now) }
{
    if has_met(blocks, number, met) {
        push_meetings(out, alloc, base, blocks, number, label, met)
    } else {
        push_held(out, label)
    }
}

/// The label of a block, where it has one.
fn label_of(block: &Block) -> Option<&[u8]>
    ensures { option_map (λ label. label.now) result ≡ block.now.label }
{
    match block.label() {
        Some(label) => Some(label.as_bytes()),
        None => None,
    }
}

/// What is said of the block of this number: nothing where it is no loop.
fn push_block(
    out: &mut Vec<u8>,
    alloc: Global,
    base: u32,
    blocks: &[Block],
    number: usize,
    met: &[Meeting],
) -> Result<(), AllocError>
    ensures { OnOk result (out.new.items ≡ out.old.items ++ line_at base blocks.now met.now number) }
{
    if !is_loop(blocks, number) {
        return Ok(());
    }
    let Some(block) = blocks.get(number) else {
        return Ok(());
    };
    match label_of(block) {
        Some(label) => push_loop(out, alloc, base, blocks, number, label, met),
        None => Ok(()),
    }
}

/// What is said of the loops of a program, in the order of its text, where these met in its run in memory that begins at a base: a line
/// `loop L: lines 7 and 9 touch byte 0x104 in iterations 1 and 3` for each meeting of a loop, and `loop L: apart held` where it has none.
///
/// # Errors
///
/// `AllocError` where memory ran out.
pub fn push_loops(
    out: &mut Vec<u8>,
    alloc: Global,
    base: u32,
    blocks: &[Block],
    met: &[Meeting],
) -> Result<(), AllocError>
    ensures { OnOk result (out.new.items ≡ out.old.items ++ lines_of base blocks.now met.now) }
{
    for number in 0..blocks.len() {
        push_block(out, alloc, base, blocks, number, met)?;
    }
    Ok(())
}
