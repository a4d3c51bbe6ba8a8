//! Whether a block of packets is a schedule of a serial block.

ghost use Rattle.std.specs.Prelude.{◌≡◌, ◌↔◌, IfOk, IsTrue};
ghost use Rattle.c62_read.specs.Block.{branch_last, operations};
ghost use Rattle.c62_meaning.specs.Laws.{cycles_of};
ghost use Rattle.c62_check.specs.Matched.{AreNumbered};
ghost use Rattle.c62_check.specs.declared.verdict.Verdict.TheVariants.{Same as SameAs};
ghost use Rattle.c62_check.specs.Verdict.{IsVerdict, is_same};

use crate::early::{Early, all_early};
use crate::matched::{Matched, match_up};
use c62_depend::Plan;
use c62_packet::{PacketBlock, Placed};
use std::alloc::{AllocError, Global};

/// What is told of a block of packets and a serial block.
#[derive(Drop)]
pub enum Verdict {
    /// The packets hold the block's instructions, and keep every dependence's distance.
    Same,
    /// They lack the instruction of this line of the text, the first that they lack.
    Missing(u32),
    /// The block lacks the instruction of this line of the listing, the first that it lacks.
    Extra(u32),
    /// These of its instructions come too early, in the order of the block.
    TooEarly(Vec<Early>),
}

impl Verdict {
    /// Whether the packets are a schedule of the block.
    pub fn is_same(&self) -> bool
        ensures value { result ≡ is_same self.now }
        ensures same { IsTrue result ↔ (self.now ≡ SameAs) }
    {
        match self {
            Verdict::Same => true,
            _ => false,
        }
    }
}

/// What is to be told of these packets and the block of a plan. Labels are not compared.
///
/// # Errors
///
/// Where memory ran out.
pub fn check_block(alloc: Global, plan: &Plan, packets: &PacketBlock) -> Result<Verdict, AllocError>
    ensures { IfOk result (IsVerdict plan.now packets.now) }
{
    match match_up(alloc, plan.block().insns(), packets.placed())? {
        Matched::Missing(line) => Ok(Verdict::Missing(line)),
        Matched::Extra(line) => Ok(Verdict::Extra(line)),
        Matched::Whole(numbered) => distances(alloc, plan, packets, &numbered),
    }
}

/// What is to be told of them where they hold the block's instructions, which are given in the order of the block.
fn distances(
    alloc: Global,
    plan: &Plan,
    packets: &PacketBlock,
    numbered: &[Placed],
) -> Result<Verdict, AllocError>
    requires branch_last { IsTrue (branch_last (operations plan.now.insns)) }
    requires own_length { packets.now.cycles ≡ cycles_of packets.now.placed }
    requires numbered { AreNumbered plan.now.insns packets.now.placed numbered.now }
    ensures { IfOk result (IsVerdict plan.now packets.now) }
{
    let early = all_early(alloc, plan, numbered)?;
    if early.is_empty() {
        Ok(Verdict::Same)
    } else {
        Ok(Verdict::TooEarly(early))
    }
}
