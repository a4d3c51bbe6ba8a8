//! Why an instruction must come so late, in words.

ghost use Rattle.std.specs.Prelude.{◌≡◌, ◌++◌, IfOk, OnOk, decimal, codes};
ghost use Rattle.c62_op.specs.Name.{file_letter, register_name};
ghost use Rattle.c62_reason.specs.Words.{reason_words};

use c62_insn::{Reg, Side};
use c62_reason::Reason;
use itoa::Buffer;
use std::alloc::{AllocError, Global};

fn file_letter(side: Side) -> &'static [u8]
    ensures { result.now ≡ file_letter side }
{
    match side {
        Side::A => b"A",
        Side::B => b"B",
    }
}

/// A word, and the name of a register behind it.
fn push_register(words: &mut Vec<u8>, word: &[u8], reg: Reg) -> Result<(), AllocError>
    ensures { OnOk result (words.new.items ≡ words.old.items ++ word.now ++ register_name reg) }
{
    let mut buffer = Buffer::new();
    words.extend_from_slice(word)?;
    words.extend_from_slice(file_letter(reg.side))?;
    words.extend_from_slice(buffer.format(reg.number).as_bytes())
}

#[tactic(auto, unfolding(c62_reason::specs::Words::reason_words))]
fn push_reason(words: &mut Vec<u8>, reason: Reason) -> Result<(), AllocError>
    ensures { OnOk result (words.new.items ≡ words.old.items ++ reason_words reason) }
{
    match reason {
        Reason::Reads(reg) => push_register(words, b"reads ", reg),
        Reason::Overwrites(reg) => push_register(words, b"overwrites ", reg),
        Reason::Writes(reg) => push_register(words, b"writes ", reg),
        Reason::AccessesMemory => words.extend_from_slice(b"accesses memory"),
        Reason::StoresMemory => words.extend_from_slice(b"stores memory"),
        Reason::Branches => words.extend_from_slice(b"branches -"),
    }
}

/// The words of a reason.
pub(crate) fn reason_words(alloc: Global, reason: Reason) -> Result<Vec<u8>, AllocError>
    ensures { IfOk result (λ words. words.items ≡ reason_words reason) }
{
    let mut words = Vec::new(alloc);
    push_reason(&mut words, reason)?;
    Ok(words)
}
