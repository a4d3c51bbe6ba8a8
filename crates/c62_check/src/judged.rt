//! What is found of each block of a program and of packets.

ghost use Rattle.std.specs.Prelude.{◌≡◌, ◌↔◌, ◌≤◌, length, IfOk, IsTrue, option_map};
ghost use Rattle.std.specs.List.{list_all};
ghost use Rattle.std.specs.Option.{option_copied};
ghost use Rattle.c62_read.specs.declared.limits.TheConstants.{MOST_BLOCKS};
ghost use Rattle.c62_check.specs.Verdict.{IsVerdict, is_same};
ghost use Rattle.c62_check.specs.Judged.{AreJudged, AreOthers, AreVerdicts, all_same};

use crate::verdict::{Verdict, check_block};
use c62_depend::Plan;
use c62_packet::{PacketBlock, Packets};
use c62_read::{Block, Label, Program};
use std::alloc::{AllocError, Global};

/// What is found where packets are held against a program.
#[derive(Drop)]
pub struct Judged {
    /// The numbers of the blocks that differ in their label, or that only one of the two has.
    pub others: Vec<usize>,
    /// What is to be told of each block that stands beside packets, whatever their labels.
    pub verdicts: Vec<Verdict>,
}

impl Judged {
    /// Whether every block is the same.
    pub fn is_same(&self) -> bool
        ensures { result ≡ all_same self.now.others.items self.now.verdicts.items }
    {
        is_all_same(&self.others, &self.verdicts)
    }
}

fn are_same(verdicts: &[Verdict]) -> bool
    ensures { result ≡ list_all is_same verdicts.now }
{
    verdicts.iter().all(|verdict| verdict.is_same())
}

/// Whether no block differs, and these verdicts all say the same.
fn is_all_same(others: &[usize], verdicts: &[Verdict]) -> bool
    ensures { result ≡ all_same others.now verdicts.now }
{
    match others {
        [] => are_same(verdicts),
        [_, ..] => false,
    }
}

/// What is found of each block of these.
///
/// # Errors
///
/// Where memory ran out.
pub fn judge(alloc: Global, program: &Program, packets: &Packets) -> Result<Judged, AllocError>
    ensures { IfOk result (λ judged. AreJudged program.now packets.now judged.others.items judged.verdicts.items) }
{
    let blocks = program.blocks();
    let listed = packets.blocks();
    let others = others_of(alloc, blocks, listed)?;
    let verdicts = verdicts_of(alloc, blocks, listed)?;
    Ok(Judged { others, verdicts })
}

fn is_same_label(a: Option<&Label>, b: Option<&Label>) -> bool
    ensures { IsTrue result ↔ (option_copied a.entry ≡ option_copied b.entry) }
{
    match (a, b) {
        (Some(a), Some(b)) => a.as_bytes() == b.as_bytes(),
        (None, None) => true,
        _ => false,
    }
}

/// Whether there are both, with the same label, or neither.
fn is_same_block(listed: Option<&PacketBlock>, block: Option<&Block>) -> bool
    ensures { IsTrue result ↔ (option_map (λ one. one.label) (option_copied listed.entry) ≡ option_map (λ other. other.label) (option_copied block.entry)) }
{
    match (listed, block) {
        (Some(listed), Some(block)) => is_same_label(listed.label(), block.label()),
        (None, None) => true,
        _ => false,
    }
}

/// The numbers of the blocks that differ in their label, or that only one of the two has.
fn others_of(
    alloc: Global,
    blocks: &[Block],
    packets: &[PacketBlock],
) -> Result<Vec<usize>, AllocError>
    requires blocks { length blocks.now ≤ MOST_BLOCKS }
    requires packets { length packets.now ≤ MOST_BLOCKS }
    ensures { IfOk result (λ others. AreOthers blocks.now packets.now others.items) }
{
    let mut others = Vec::new(alloc);
    for number in 0..blocks.len().max(packets.len()) {
        if !is_same_block(packets.get(number), blocks.get(number)) {
            others.push(number)?;
        }
    }
    Ok(others)
}

fn plan_of(alloc: Global, block: Block) -> Result<Plan, AllocError>
    ensures { IfOk result (λ plan. plan ≡ block) }
{
    match Plan::new(alloc, block) {
        Ok(plan) => Ok(plan),
        Err((_, error)) => Err(error),
    }
}

/// What is to be told of a block and its packets.
fn verdict_of(alloc: Global, block: &Block, packets: &PacketBlock) -> Result<Verdict, AllocError>
    ensures { IfOk result (IsVerdict block.now packets.now) }
{
    let plan = plan_of(alloc, block.copy(alloc)?)?;
    check_block(alloc, &plan, packets)
}

/// What is to be told of each block that stands beside packets.
fn verdicts_of(
    alloc: Global,
    blocks: &[Block],
    packets: &[PacketBlock],
) -> Result<Vec<Verdict>, AllocError>
    ensures { IfOk result (λ verdicts. AreVerdicts blocks.now packets.now verdicts.items) }
{
    let mut verdicts = Vec::new(alloc);
    for number in 0..blocks.len().min(packets.len()) {
        verdicts.push(verdict_of(alloc, &blocks[number], &packets[number])?)?;
    }
    Ok(verdicts)
}
