//! Packet blocks.

ghost use Rattle.std.specs.Prelude.{◌≡◌, ◌≤◌, length, Some, MatchResult};
ghost use Rattle.std.specs.Option.{option_copied};
ghost use Rattle.c62_read.specs.declared.limits.TheConstants.{MOST_INSTRUCTIONS};
ghost use Rattle.c62_packet.specs.declared.limits.TheConstants.{MOST_CYCLES};
ghost use Rattle.c62_rules.specs.Length.{length_of};
ghost use Rattle.c62_packet.specs.Packed.{Packed, packed_of, issues_of, IsPacketBlock, IsInListingOrder, StandAsWritten};
ghost use Rattle.c62_packet.specs.Fault.{IsPackedOrFaulty};

use crate::fault::BlockFault;
use crate::length::{cycles_of, has_one_branch, is_drained};
use crate::placed::Placed;
use crate::rules::first_broken;
use c62_read::Label;
use std::marker::Model;

/// A block of execute packets: its label, where it has one, its length in cycles, and its
/// instructions in listing order, by cycle and in a cycle by unit. It keeps the packet rules in each
/// cycle, has at most one branch, [`MOST_INSTRUCTIONS`](c62_read::MOST_INSTRUCTIONS) instructions and
/// [`MOST_CYCLES`](crate::MOST_CYCLES) cycles, and nothing lands in the cycle of its length or later. The written unit of each instruction is the one that it stands on.
#[derive(Drop)]
pub struct PacketBlock {
    label: Option<Label>,
    cycles: u16,
    placed: Vec<Placed>,
}

impl Model for PacketBlock {
    ghost Value = { Packed };

    ghost view = { λ block. packed_of block.label block.cycles block.placed.items };

    ghost invariant = { λ block. IsPacketBlock (packed_of block.label block.cycles block.placed.items) };
}

impl PacketBlock {
    /// The block of these instructions, written with so many cycles. They stand in listing order,
    /// each with its unit written.
    ///
    /// # Errors
    ///
    /// The first of these: `TwoBranches` where there is more than one branch; `NotDrained` where
    /// `cycles` is not the length of the block, or something lands in that cycle or later;
    /// `Unlawful` where a packet rule is broken, with the least such cycle and there the first rule.
    pub fn new(
        label: Option<Label>,
        cycles: u16,
        placed: Vec<Placed>,
    ) -> Result<PacketBlock, BlockFault>
        requires few { length placed.items ≤ MOST_INSTRUCTIONS }
        requires short { cycles ≤ MOST_CYCLES }
        requires in_order { IsInListingOrder placed.items }
        requires as_written { StandAsWritten placed.items }
        ensures { IsPackedOrFaulty (packed_of label cycles placed.items) result }
    {
        if !has_one_branch(&placed) {
            return Err(BlockFault::TwoBranches);
        }
        if u32::from(cycles) != cycles_of(&placed) || !is_drained(cycles, &placed) {
            return Err(BlockFault::NotDrained);
        }
        if let Some((cycle, rule)) = first_broken(&placed) {
            return Err(BlockFault::Unlawful(cycle, rule));
        }
        Ok(PacketBlock {
            label,
            cycles,
            placed,
        })
    }

    /// The block of these instructions, which make one with their own length. They stand in listing order.
    pub fn of_lawful(label: Option<Label>, placed: Vec<Placed>) -> PacketBlock
        requires { IsPacketBlock (packed_of label (length_of (issues_of placed.items)) placed.items) }
        ensures { result ≡ packed_of label (length_of (issues_of placed.items)) placed.items }
    {
        let cycles = cycles_of(&placed) as u16;
        PacketBlock {
            label,
            cycles,
            placed,
        }
    }

    /// The label, where the block has one.
    pub fn label(&self) -> Option<&Label>
        ensures { option_copied result ≡ self.now.label }
    {
        self.label.as_ref()
    }

    /// How many cycles the block takes: a branch takes effect six cycles after its issue, and
    /// without one all has landed.
    pub fn length(&self) -> u16
        ensures same { result ≡ self.now.cycles }
        ensures sound { IsPacketBlock self.now }
    {
        self.cycles
    }

    /// The instructions in listing order.
    pub fn placed(&self) -> &[Placed]
        ensures same { result.now ≡ self.now.placed }
        ensures sound { IsPacketBlock self.now }
    {
        &self.placed
    }
}
