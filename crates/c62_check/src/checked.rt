//! Holds packets against a program.

ghost use Rattle.std.specs.Prelude.{◌≡◌, ◌++◌, IfOk, OnOk, option_map};
ghost use Rattle.std.specs.List.{flat_map};
ghost use Rattle.std.specs.Option.{option_copied};
ghost use Rattle.c62_read.specs.Block.{labels_in};
ghost use Rattle.c62_packet.specs.Packets.{labels_of};
ghost use Rattle.c62_check.specs.Lines.{block_line, lines_from, other_line, other_words, told_lines};
ghost use Rattle.c62_check.specs.Checked.{IsChecked};

use crate::judged::{Judged, judge};
use crate::lines::{push_labels, push_verdict, push_words};
use crate::verdict::Verdict;
use c62_packet::{PacketBlock, Packets};
use c62_read::{Block, Program};
use std::alloc::{AllocError, Global};

/// What was found where packets were held against a program.
#[derive(Drop)]
pub struct Checked {
    /// The lines that tell it.
    pub text: Vec<u8>,
    /// Whether every block is the same.
    pub same: bool,
}

/// What is found where packets are held against a program: the lines of `docs/CHECK.md`, and whether every block is the
/// same. Each block that has another label, or that only one of the two has, has a line. Behind these each block that both have
/// has a line, or one for each instruction that comes too early.
///
/// # Errors
///
/// Where memory ran out.
pub fn check(alloc: Global, program: &Program, packets: &Packets) -> Result<Checked, AllocError>
    ensures { IfOk result (λ checked. IsChecked program.now packets.now checked.text.items checked.same) }
{
    let judged = judge(alloc, program, packets)?;
    let blocks = program.blocks();
    let listed = packets.blocks();
    let mut text = Vec::new(alloc);
    push_judged(&mut text, &judged, blocks, listed)?;
    let same = judged.is_same();
    Ok(Checked { text, same })
}

/// The lines of all that was found.
fn push_judged(
    out: &mut Vec<u8>,
    judged: &Judged,
    blocks: &[Block],
    packets: &[PacketBlock],
) -> Result<(), AllocError>
    ensures { OnOk result (out.new.items ≡ out.old.items
        ++ told_lines (labels_of packets.now) (labels_in blocks.now) judged.now.others.items judged.now.verdicts.items) }
{
    push_others(out, &judged.others, blocks, packets)?;
    push_verdicts(out, &judged.verdicts)
}

/// The line of a block that differs in its label, or that only one of the two has.
#[tactic(auto, unfolding(crate::specs::Lines::other_words))]
fn push_difference(
    out: &mut Vec<u8>,
    number: u64,
    listed: Option<&PacketBlock>,
    block: Option<&Block>,
) -> Result<(), AllocError>
    ensures { OnOk result (out.new.items ≡ out.old.items
        ++ block_line number (other_words (option_map (λ one. one.label) (option_copied listed.entry)) (option_map (λ other. other.label) (option_copied block.entry)))) }
{
    match (listed, block) {
        (Some(listed), Some(block)) => push_labels(out, number, listed.label(), block.label()),
        (None, _) => push_words(out, number, b"only in text"),
        (_, None) => push_words(out, number, b"only in listing"),
    }
}

/// The line of the block of this number, which differs so.
fn push_other(
    out: &mut Vec<u8>,
    number: usize,
    blocks: &[Block],
    packets: &[PacketBlock],
) -> Result<(), AllocError>
    ensures { OnOk result (out.new.items ≡ out.old.items ++ other_line (labels_of packets.now) (labels_in blocks.now) number) }
{
    push_difference(out, number as u64, packets.get(number), blocks.get(number))
}

/// The lines of the blocks of these numbers, which differ so.
fn push_others(
    out: &mut Vec<u8>,
    others: &[usize],
    blocks: &[Block],
    packets: &[PacketBlock],
) -> Result<(), AllocError>
    ensures { OnOk result (out.new.items ≡ out.old.items
        ++ flat_map (λ number. other_line (labels_of packets.now) (labels_in blocks.now) number) others.now) }
{
    for number in others {
        push_other(out, *number, blocks, packets)?;
    }
    Ok(())
}

/// The lines of what is found of the blocks, from the first one on.
fn push_verdicts(out: &mut Vec<u8>, verdicts: &[Verdict]) -> Result<(), AllocError>
    ensures { OnOk result (out.new.items ≡ out.old.items ++ lines_from 0 verdicts.now) }
{
    for number in 0..verdicts.len() {
        push_verdict(out, number as u64, &verdicts[number])?;
    }
    Ok(())
}
