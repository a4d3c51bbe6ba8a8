//! Lists of packet blocks.

ghost use Rattle.std.specs.Prelude.{◌≡◌, ◌↔◌, ◌<◌, ◌≤◌, ◌++◌, ◌∷◌, [], List, All, length, IsTrue, MatchResult, OnOk};
ghost use Rattle.std.specs.List.{list_all};
ghost use Rattle.c62_insn.specs.Insn.{operands_of};
ghost use Rattle.c62_read.specs.Block.{target_stands};
ghost use Rattle.c62_read.specs.declared.limits.TheConstants.{MOST_BLOCKS};
ghost use Rattle.c62_packet.specs.Packed.{Packed, IsPacketBlock};
ghost use Rattle.c62_packet.specs.Packets.{labels_of, is_closed, HaveTargets};

use crate::block::PacketBlock;
use crate::placed::Placed;
use c62_insn::Operands;
use std::alloc::{AllocError, Global};
use std::marker::Model;

/// At most [`MOST_BLOCKS`](c62_read::MOST_BLOCKS) packet blocks, numbered from 0 in their order.
#[derive(Drop)]
pub struct Packets {
    blocks: Vec<PacketBlock>,
}

impl Model for Packets {
    ghost Value = { List Packed };

    ghost view = { λ packets. packets.blocks.items };

    ghost invariant = { λ packets. (length packets.blocks.items ≤ MOST_BLOCKS) × All IsPacketBlock packets.blocks.items };
}

impl Packets {
    /// No blocks. This takes no memory.
    pub fn new(alloc: Global) -> Packets
        ensures { result ≡ [] }
    {
        Packets {
            blocks: Vec::new(alloc),
        }
    }

    /// How many blocks there are, at most [`MOST_BLOCKS`](c62_read::MOST_BLOCKS).
    pub fn len(&self) -> usize
        ensures len { result ≡ length self.now }
        ensures few { length self.now ≤ MOST_BLOCKS }
    {
        self.blocks.len()
    }

    /// Appends a block.
    ///
    /// # Errors
    ///
    /// The block as it was, where memory ran out; the list is then unchanged.
    pub fn push(&mut self, block: PacketBlock) -> Result<(), (PacketBlock, AllocError)>
        requires { length self.old < MOST_BLOCKS }
        ensures { MatchResult result
            (λ _. self.new ≡ self.old ++ block ∷ [])
            (λ back. (back.0 ≡ block) × (self.new ≡ self.old)) }
    {
        let _ = block.length();
        match self.blocks.push(block) {
            Ok(()) => Ok(()),
            Err(failed) => Err((failed.value, AllocError)),
        }
    }

    /// The blocks in their order, each of which is a packet block.
    pub fn blocks(&self) -> &[PacketBlock]
        ensures same { result.now ≡ self.now }
        ensures few { length self.now ≤ MOST_BLOCKS }
        ensures sound { All IsPacketBlock self.now }
    {
        &self.blocks
    }

    /// Whether every branch to a block goes to one that is there and has a label.
    pub fn closed(&self) -> bool
        ensures closed { result ≡ is_closed self.now }
        ensures targets { IsTrue result ↔ HaveTargets self.now }
    {
        are_closed(self.blocks())
    }
}

/// Whether the branches of all these blocks go to blocks that are there and have labels.
fn are_closed(blocks: &[PacketBlock]) -> bool
    ensures { result ≡ is_closed blocks.now }
{
    blocks.iter().all(|block| is_closed_among(blocks, block))
}

/// Whether the branches of a block go to blocks that are there and have labels.
fn is_closed_among(blocks: &[PacketBlock], block: &PacketBlock) -> bool
    ensures { result ≡ list_all (λ p. target_stands (labels_of blocks.now) (operands_of p.insn)) block.now.placed }
{
    block
        .placed()
        .iter()
        .all(|placed| target_stands(blocks, placed))
}

/// Whether the block that an instruction branches to, if any, is there and has a label.
fn target_stands(blocks: &[PacketBlock], placed: &Placed) -> bool
    ensures { result ≡ target_stands (labels_of blocks.now) (operands_of placed.now.insn) }
{
    match placed.insn.operands() {
        Operands::Block(number) => {
            match blocks.get(number as usize) {
                Some(block) => block.label().is_some(),
                None => false,
            }
        }
        _ => true,
    }
}
