//! Blocks that are read, their copies, and a text with each byte at each index.

use crate::expect::equal_in;
use c62_insn::Operands;
use c62_line::{Cause, ReadFault};
use c62_op::InstructionSet;
use c62_read::{Block, read_program};
use std::alloc::Global;
use std::test::Fail;

/// Texts and their blocks: a colon for a label, the lines of the instructions, and the block that the last of them branches to.
const BLOCKS: [(&str, &str); 2] = [
    (
        "MVK 3,A1\nL: SUB A1,1,A1\n\n[A1] B L\nMVK 2,A2\n",
        "1 ;:2 4 >1;5 ;",
    ),
    (
        "MVK 3,A1\nL: SUB A1,1,A1\n[A1] B L\nM: NOP\nB B3\nN:",
        "1 ;:2 3 >1;:5 ;:;",
    ),
];

fn push_block(out: &mut String, alloc: Global, block: &Block) -> Result<(), Fail> {
    if block.label().is_some() {
        out.push(':')?;
    }
    for entry in block.insns() {
        out.push_str(&format!(in alloc; "{} ", entry.line)?)?;
    }
    if let Some(last) = block.insns().last()
        && let Operands::Block(number) = last.insn.operands()
    {
        out.push_str(&format!(in alloc; ">{number}")?)?;
    }
    out.push(';')?;
    Ok(())
}

/// What blocks say, and what copies of them say.
fn said_twice(alloc: Global, blocks: &[Block]) -> Result<(String, String), Fail> {
    let mut found = String::new(alloc);
    let mut copied = String::new(alloc);
    for block in blocks {
        push_block(&mut found, alloc, block)?;
        let copy = block.copy(alloc)?;
        push_block(&mut copied, alloc, &copy)?;
    }
    Ok((found, copied))
}

/// Whether the blocks of a text say this, and their copies too, and none is lost where they are taken.
fn is_said(alloc: Global, text: &str, want: &str) -> Result<bool, Fail> {
    let program = read_program(InstructionSet::Core, alloc, text.as_bytes())?;
    let (found, copied) = said_twice(alloc, program.blocks())?;
    let count = program.blocks().len();
    let blocks = program.into_blocks();
    Ok(found.as_str() == want && copied.as_str() == want && blocks.len() == count)
}

#[test]
fn blocks_and_their_copies(rt: HostRuntime) -> Result<(), Fail> {
    for (text, want) in &BLOCKS {
        let is_said = is_said(rt.alloc(), text, want)?;
        equal_in(&rt, text, &is_said, &true);
    }
    Ok(())
}

const SHORT: &[u8] = b"L: [!A1] LDW .D1T2 *A4++[3],B5 ; c\nB L";

/// Each byte at each index of a text is answered, and as NotAscii exactly where the byte isn't allowed.
#[test]
fn each_byte_at_each_index(rt: HostRuntime) -> Result<(), Fail> {
    let mut text = Vec::from_slice(rt.alloc(), SHORT)?;
    for index in 0..text.len() {
        let kept = text[index];
        for byte in 0..=255u8 {
            text[index] = byte;
            let allowed = byte == b'\t' || byte == b'\n' || (b' '..=b'~').contains(&byte);
            let ends_line = byte == b'\r' && index + 1 < text.len() && text[index + 1] == b'\n';
            let is_foreign = match read_program(InstructionSet::Core, rt.alloc(), &text) {
                Err(ReadFault { cause, .. }) => cause == Cause::NotAscii,
                Ok(_) => false,
            };
            equal_in(&rt, &(byte, index), &is_foreign, &(!allowed && !ends_line));
        }
        text[index] = kept;
    }
    Ok(())
}
