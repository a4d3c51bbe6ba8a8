//! Writes the lines that tell what was found (docs/CHECK.md).

ghost use Rattle.std.specs.Prelude.{◌≡◌, ◌++◌, OnOk, decimal, codes};
ghost use Rattle.std.specs.Fmt.{signed_decimal};
ghost use Rattle.std.specs.List.{flat_map};
ghost use Rattle.std.specs.Option.{option_copied};
ghost use Rattle.c62_op.specs.Name.{file_letter, register_name};
ghost use Rattle.c62_reason.specs.Words.{reason_words};
ghost use Rattle.c62_check.specs.Lines.{block_line, early_lines, early_cycles, early_words, verdict_lines, label_name, label_words};

use crate::early::Early;
use crate::verdict::Verdict;
use c62_insn::{Reg, Side};
use c62_read::Label;
use c62_reason::Reason;
use itoa::Buffer;
use std::alloc::AllocError;

/// A word, and a number behind it.
fn push_count(out: &mut Vec<u8>, word: &[u8], count: u64) -> Result<(), AllocError>
    ensures { OnOk result (out.new.items ≡ out.old.items ++ word.now ++ decimal count) }
{
    let mut buffer = Buffer::new();
    out.extend_from_slice(word)?;
    out.extend_from_slice(buffer.format(count).as_bytes())
}

/// A word, and a number of cycles behind it.
fn push_cycles(out: &mut Vec<u8>, word: &[u8], cycles: i32) -> Result<(), AllocError>
    ensures { OnOk result (out.new.items ≡ out.old.items ++ word.now ++ signed_decimal cycles) }
{
    let mut buffer = Buffer::new();
    out.extend_from_slice(word)?;
    out.extend_from_slice(buffer.format(cycles).as_bytes())
}

fn file_letter(side: Side) -> &'static [u8]
    ensures { result.now ≡ file_letter side }
{
    match side {
        Side::A => b"A",
        Side::B => b"B",
    }
}

/// A word, and the name of a register behind it.
fn push_register(out: &mut Vec<u8>, word: &[u8], reg: Reg) -> Result<(), AllocError>
    ensures { OnOk result (out.new.items ≡ out.old.items ++ word.now ++ register_name reg) }
{
    out.extend_from_slice(word)?;
    push_count(out, file_letter(reg.side), u64::from(reg.number))
}

#[tactic(auto, unfolding(c62_reason::specs::Words::reason_words))]
fn push_reason(out: &mut Vec<u8>, reason: Reason) -> Result<(), AllocError>
    ensures { OnOk result (out.new.items ≡ out.old.items ++ reason_words reason) }
{
    match reason {
        Reason::Reads(reg) => push_register(out, b"reads ", reg),
        Reason::Overwrites(reg) => push_register(out, b"overwrites ", reg),
        Reason::Writes(reg) => push_register(out, b"writes ", reg),
        Reason::AccessesMemory => out.extend_from_slice(b"accesses memory"),
        Reason::StoresMemory => out.extend_from_slice(b"stores memory"),
        Reason::Branches => out.extend_from_slice(b"branches -"),
    }
}

/// The beginning of each line of a block.
fn push_block(out: &mut Vec<u8>, number: u64) -> Result<(), AllocError>
    ensures { OnOk result (out.new.items ≡ out.old.items ++ codes "block " ++ decimal number ++ codes " ") }
{
    push_count(out, b"block ", number)?;
    out.extend_from_slice(b" ")
}

/// Which lines an instruction that comes too early, and the other, have.
#[tactic(auto, unfolding(crate::specs::Lines::early_lines))]
fn push_early_lines(out: &mut Vec<u8>, early: &Early) -> Result<(), AllocError>
    ensures { OnOk result (out.new.items ≡ out.old.items ++ early_lines early.now) }
{
    push_count(out, b"early ", u64::from(early.line))?;
    push_count(out, b" after ", u64::from(early.after))
}

/// How many cycles lie between them, and must.
#[tactic(auto, unfolding(crate::specs::Lines::early_cycles))]
fn push_early_cycles(out: &mut Vec<u8>, early: &Early) -> Result<(), AllocError>
    ensures { OnOk result (out.new.items ≡ out.old.items ++ early_cycles early.now) }
{
    push_cycles(out, b" needs ", early.needs)?;
    push_cycles(out, b" has ", early.has)
}

/// What is told of an instruction that comes too early.
#[tactic(auto, unfolding(crate::specs::Lines::early_words))]
fn push_early_words(out: &mut Vec<u8>, early: &Early) -> Result<(), AllocError>
    ensures { OnOk result (out.new.items ≡ out.old.items ++ early_words early.now) }
{
    push_early_lines(out, early)?;
    push_early_cycles(out, early)?;
    out.extend_from_slice(b" ")?;
    push_reason(out, early.reason)
}

/// The line of an instruction that comes too early.
fn push_early(out: &mut Vec<u8>, number: u64, early: &Early) -> Result<(), AllocError>
    ensures { OnOk result (out.new.items ≡ out.old.items ++ block_line number (early_words early.now)) }
{
    push_block(out, number)?;
    push_early_words(out, early)?;
    out.extend_from_slice(b"\n")
}

/// The lines of the instructions that come too early.
fn push_all_early(out: &mut Vec<u8>, number: u64, early: &[Early]) -> Result<(), AllocError>
    ensures { OnOk result (out.new.items ≡ out.old.items ++ flat_map (λ each. block_line number (early_words each)) early.now) }
{
    for each in early {
        push_early(out, number, each)?;
    }
    Ok(())
}

/// The line of a block of which a word and a line are told.
fn push_line(out: &mut Vec<u8>, number: u64, word: &[u8], line: u32) -> Result<(), AllocError>
    ensures { OnOk result (out.new.items ≡ out.old.items ++ block_line number (word.now ++ decimal line)) }
{
    push_block(out, number)?;
    push_count(out, word, u64::from(line))?;
    out.extend_from_slice(b"\n")
}

/// Appends the line of the block of this number, of which these words are told.
///
/// # Errors
///
/// `AllocError` where memory ran out; the bytes are then unspecified.
pub fn push_words(out: &mut Vec<u8>, number: u64, words: &[u8]) -> Result<(), AllocError>
    ensures { OnOk result (out.new.items ≡ out.old.items ++ block_line number words.now) }
{
    push_block(out, number)?;
    out.extend_from_slice(words)?;
    out.extend_from_slice(b"\n")
}

/// Appends the lines of the block of this number: one, or one for each instruction that comes too early.
///
/// # Errors
///
/// `AllocError` where memory ran out; the bytes are then unspecified.
#[tactic(auto, unfolding(crate::specs::Lines::verdict_lines))]
pub fn push_verdict(out: &mut Vec<u8>, number: u64, verdict: &Verdict) -> Result<(), AllocError>
    ensures { OnOk result (out.new.items ≡ out.old.items ++ verdict_lines number verdict.now) }
{
    match verdict {
        Verdict::Same => push_words(out, number, b"same"),
        Verdict::Missing(line) => push_line(out, number, b"missing ", *line),
        Verdict::Extra(line) => push_line(out, number, b"extra ", *line),
        Verdict::TooEarly(early) => push_all_early(out, number, early),
    }
}

/// The label of a block, and `-` where it has none.
#[tactic(auto, unfolding(crate::specs::Lines::label_name))]
fn label_name(label: Option<&Label>) -> &[u8]
    ensures { result.now ≡ label_name (option_copied label.entry) }
{
    match label {
        Some(label) => label.as_bytes(),
        None => b"-",
    }
}

/// A word, and a label behind it.
fn push_label(out: &mut Vec<u8>, word: &[u8], label: Option<&Label>) -> Result<(), AllocError>
    ensures { OnOk result (out.new.items ≡ out.old.items ++ word.now ++ label_name (option_copied label.entry)) }
{
    out.extend_from_slice(word)?;
    out.extend_from_slice(label_name(label))
}

/// What is told of a block whose label in the listing isn't that of the text.
#[tactic(auto, unfolding(crate::specs::Lines::label_words))]
fn push_label_words(
    out: &mut Vec<u8>,
    listed: Option<&Label>,
    label: Option<&Label>,
) -> Result<(), AllocError>
    ensures { OnOk result (out.new.items ≡ out.old.items ++ label_words (option_copied listed.entry) (option_copied label.entry)) }
{
    push_label(out, b"label ", listed)?;
    push_label(out, b" not ", label)
}

/// The line of a block whose label in the listing isn't that of the text.
pub(crate) fn push_labels(
    out: &mut Vec<u8>,
    number: u64,
    listed: Option<&Label>,
    label: Option<&Label>,
) -> Result<(), AllocError>
    ensures { OnOk result (out.new.items ≡ out.old.items ++ block_line number (label_words (option_copied listed.entry) (option_copied label.entry))) }
{
    push_block(out, number)?;
    push_label_words(out, listed, label)?;
    out.extend_from_slice(b"\n")
}
