//! The document that tells what is found where packets are held against a program.

ghost use Rattle.std.specs.Prelude.{◌≡◌, [], ◌∷◌, ◌++◌, codes, IfOk};
ghost use Rattle.json.specs.Token.{boolean, key};
ghost use Rattle.c62_json.specs.Document.{Adds, array, document};
ghost use Rattle.c62_read.specs.Block.{labels_in};
ghost use Rattle.c62_packet.specs.Packets.{labels_of};
ghost use Rattle.c62_json_check.specs.Members.{blocks_from, first_object, front_members, members, objects_of};
ghost use Rattle.c62_json_check.specs.Checked.{IsCheckDocument};

use crate::block::push_verdict;
use crate::other::{push_first, push_objects};
use c62_check::{Judged, Verdict, judge};
use c62_json::{begin, end, push_flag};
use c62_packet::{PacketBlock, Packets};
use c62_read::{Block, Program};
use json::Writer;
use std::alloc::{AllocError, Global};

/// What was found where packets were held against a program, as a document.
#[derive(Drop)]
pub struct CheckedDocument {
    /// The text of the document.
    pub text: Vec<u8>,
    /// Whether every block is the same.
    pub same: bool,
}

/// Whether all is the same, as a member.
fn push_same(out: &mut Writer, same: bool) -> Result<(), AllocError>
    ensures { Adds result out.old out.new (key (codes "same") ∷ boolean same ∷ []) }
{
    out.key("same")?;
    push_flag(out, same)
}

/// What is told of the blocks with these verdicts, from the first one on.
fn push_all(alloc: Global, out: &mut Writer, verdicts: &[Verdict]) -> Result<(), AllocError>
    ensures { Adds result out.old out.new (blocks_from 0 verdicts.now) }
{
    for number in 0..verdicts.len() {
        push_verdict(alloc, out, number as u64, &verdicts[number])?;
    }
    Ok(())
}

/// What is told of each block that both have, as a member.
fn push_blocks(alloc: Global, out: &mut Writer, verdicts: &[Verdict]) -> Result<(), AllocError>
    ensures { Adds result out.old out.new (key (codes "blocks") ∷ array (blocks_from 0 verdicts.now)) }
{
    out.key("blocks")?;
    out.begin_array()?;
    push_all(alloc, out, verdicts)?;
    out.end_array()
}

/// The first block that differs, as a member.
fn push_other(
    alloc: Global,
    out: &mut Writer,
    others: &[usize],
    blocks: &[Block],
    packets: &[PacketBlock],
) -> Result<(), AllocError>
    ensures { Adds result out.old out.new (key (codes "other") ∷ first_object (labels_of packets.now) (labels_in blocks.now) others.now) }
{
    out.key("other")?;
    push_first(alloc, out, others, blocks, packets)
}

/// All blocks that differ, as a member.
fn push_others(
    alloc: Global,
    out: &mut Writer,
    others: &[usize],
    blocks: &[Block],
    packets: &[PacketBlock],
) -> Result<(), AllocError>
    ensures { Adds result out.old out.new (key (codes "others") ∷ array (objects_of (labels_of packets.now) (labels_in blocks.now) others.now)) }
{
    out.key("others")?;
    out.begin_array()?;
    push_objects(alloc, out, others, blocks, packets)?;
    out.end_array()
}

/// The members but the last.
#[tactic(auto, unfolding(crate::specs::Members::front_members))]
fn push_front(
    alloc: Global,
    out: &mut Writer,
    judged: &Judged,
    blocks: &[Block],
    packets: &[PacketBlock],
) -> Result<(), AllocError>
    ensures { Adds result out.old out.new (front_members (labels_of packets.now) (labels_in blocks.now) judged.now.others.items judged.now.verdicts.items) }
{
    push_same(out, judged.is_same())?;
    push_other(alloc, out, &judged.others, blocks, packets)?;
    push_blocks(alloc, out, &judged.verdicts)
}

/// The members.
#[tactic(auto, unfolding(crate::specs::Members::members))]
fn push_members(
    alloc: Global,
    out: &mut Writer,
    judged: &Judged,
    blocks: &[Block],
    packets: &[PacketBlock],
) -> Result<(), AllocError>
    ensures { Adds result out.old out.new (members (labels_of packets.now) (labels_in blocks.now) judged.now.others.items judged.now.verdicts.items) }
{
    push_front(alloc, out, judged, blocks, packets)?;
    push_others(alloc, out, &judged.others, blocks, packets)
}

/// The text of the document of what was found of these.
fn judged_text(
    alloc: Global,
    judged: &Judged,
    blocks: &[Block],
    packets: &[PacketBlock],
) -> Result<Vec<u8>, AllocError>
    ensures { IfOk result (λ text. text.items ≡ document (codes "check")
        (members (labels_of packets.now) (labels_in blocks.now) judged.now.others.items judged.now.verdicts.items)) }
{
    let mut out = begin(alloc, "check")?;
    push_members(alloc, &mut out, judged, blocks, packets)?;
    end(out)
}

/// The document of a check of packets against a program: which blocks differ in their labels, or stand in one of the two alone, and
/// what is found of each block that both have; and whether every block is the same.
///
/// # Errors
///
/// `AllocError` where memory ran out.
pub fn check_document(
    alloc: Global,
    program: &Program,
    packets: &Packets,
) -> Result<CheckedDocument, AllocError>
    ensures { IfOk result (λ checked. IsCheckDocument program.now packets.now checked.text.items checked.same) }
{
    let judged = judge(alloc, program, packets)?;
    let blocks = program.blocks();
    let listed = packets.blocks();
    let text = judged_text(alloc, &judged, blocks, listed)?;
    let same = judged.is_same();
    Ok(CheckedDocument { text, same })
}
