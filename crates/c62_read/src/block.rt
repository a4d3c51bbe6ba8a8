//! Blocks of serial text, and the programs that they make.

ghost use Rattle.std.specs.Prelude.{◌≡◌, ◌≤◌, length, Some, None, List, map, true, IfOk, IsTrue};
ghost use Rattle.std.specs.Option.{option_copied};
ghost use Rattle.c62_read.specs.declared.limits.TheConstants.{MOST_BLOCKS};
ghost use Rattle.c62_read.specs.Block.{Serial, IsProgram, is_block, targets_stand};

use c62_insn::Insn;
use c62_line::{Label, copied_label};
use std::alloc::{AllocError, Global};
use std::marker::Model;

/// An instruction of a text, and its line from 1.
#[derive(Clone, Copy, PartialEq, Eq, Debug)]
pub struct SerialInsn {
    pub insn: Insn,
    pub line: u32,
}

impl SerialInsn {
    ghost use Rattle.c62_read.specs.Program.{aimed, numbered_of};

    /// Aims a branch to a label at the block of this number.
    pub(crate) fn aim(&mut self, number: u8)
        ensures { numbered_of self.new ≡ aimed number (numbered_of self.old) }
    {
        self.insn = self.insn.aimed(number);
    }
}

/// A block: its label, where it has one, and its instructions with their lines.
#[derive(Debug, Drop)]
pub struct Block {
    label: Option<Label>,
    insns: Vec<SerialInsn>,
}

impl Model for Block {
    ghost Value = { Serial };

    ghost view = { λ block. record { label = block.label; insns = block.insns.items } };

    ghost invariant = { λ block. is_block block.insns.items ≡ true };
}

impl Block {
    /// The block of these instructions, in their order.
    pub fn new(label: Option<Label>, insns: Vec<SerialInsn>) -> Block
        requires { IsTrue (is_block insns.items) }
        ensures { result ≡ record { label = label; insns = insns.items } }
    {
        Block { label, insns }
    }

    /// The label, where the block has one.
    pub fn label(&self) -> Option<&Label>
        ensures { option_copied result ≡ self.now.label }
    {
        self.label.as_ref()
    }

    /// The instructions in their order, each with its line: at most 256, with a branch only as the last.
    pub fn insns(&self) -> &[SerialInsn]
        ensures same { result.now ≡ self.now.insns }
        ensures sound { IsTrue (is_block self.now.insns) }
    {
        &self.insns
    }

    /// An equal block.
    ///
    /// # Errors
    ///
    /// `AllocError` where memory ran out.
    pub fn copy(&self, alloc: Global) -> Result<Block, AllocError>
        ensures { IfOk result (λ block. block ≡ self.now) }
    {
        let label = copied_label(&self.label);
        let insns = Vec::from_slice(alloc, &self.insns)?;
        Ok(Block { label, insns })
    }
}

/// The blocks of a text, in their order.
#[derive(Debug, Drop)]
pub struct Program {
    blocks: Vec<Block>,
}

impl Model for Program {
    ghost Value = { List Serial };

    ghost view = { λ program. program.blocks.items };

    ghost invariant = { λ program. IsProgram program.blocks.items };
}

impl Program {
    pub(crate) fn new(blocks: Vec<Block>) -> Program
        requires few { length blocks.items ≤ MOST_BLOCKS }
        requires targets { IsTrue (targets_stand blocks.items) }
        ensures { result ≡ blocks.items }
    {
        Program { blocks }
    }

    /// The blocks in their order, at most 64. Every branch to a label names the number of one that has a label.
    pub fn blocks(&self) -> &[Block]
        ensures same { result.now ≡ self.now }
        ensures few { length self.now ≤ MOST_BLOCKS }
        ensures sound { IsTrue (targets_stand self.now) }
    {
        &self.blocks
    }

    /// Hands over the blocks in their order, with what `blocks` tells of them. It takes no memory.
    pub fn into_blocks(self) -> Vec<Block>
        ensures same { result.items ≡ self }
        ensures few { length result.items ≤ MOST_BLOCKS }
        ensures sound { IsTrue (targets_stand result.items) }
    {
        self.blocks
    }
}
