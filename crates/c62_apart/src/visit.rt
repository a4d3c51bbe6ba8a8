//! Where a serial run stands at its loops.

ghost use Rattle.std.specs.Prelude.{◌≡◌, ◌+◌, ◌<◌, ◌&&◌, ◌||◌, ◌==◌, not, slice_get};
ghost use Rattle.std.specs.Prelude.{Some, None};
ghost use Rattle.c62_insn.specs.Insn.{cond_of, operands_of};
ghost use Rattle.c62_apart.specs.Visit.{ends_straight, first_visit, last_of, loops_to, loops_by, has_label, is_behind, is_joined, is_loop, is_straight, loop_of, next_visit, straight_in};

use c62_insn::{Insn, Operands};
use c62_read::{Block, SerialInsn};

/// A block that a run comes to.
#[derive(Clone, Copy, PartialEq, Eq, Debug)]
pub struct Visit {
    /// The block's number.
    pub number: usize,
    /// The stay, from 1. A loop's iterations are one stay, with the straight blocks that lead to it and stand behind it; each other block
    /// is one of its own.
    pub stay: u32,
    /// The iteration of the loop, from 1. The block that leads to the loop has 0, and that behind it one more than the last iteration.
    pub iteration: u32,
}

/// Before the first of so many blocks.
pub(crate) fn first_visit(count: usize) -> Visit
    ensures { result ≡ first_visit count }
{
    Visit {
        number: count,
        stay: 0,
        iteration: 0,
    }
}

fn last_of(insns: &[SerialInsn]) -> Option<SerialInsn>
    ensures { result ≡ last_of insns.now }
{
    insns.last().copied()
}

/// Whether a branch goes to the block of this number while a register isn't 0.
fn loops_to(number: usize, insn: Insn) -> bool
    ensures { result ≡ loops_to number (operands_of insn) (cond_of insn) }
{
    match (insn.operands(), insn.cond()) {
        (Operands::Block(target), Some(cond)) => usize::from(target) == number && !cond.negated,
        _ => false,
    }
}

/// Whether the block of this number is a loop under a counter: its last instruction is a branch to the block itself, which goes while a
/// register isn't 0.
pub(crate) fn is_loop(blocks: &[Block], number: usize) -> bool
    ensures { result ≡ is_loop blocks.now number }
{
    let Some(block) = blocks.get(number) else {
        return false;
    };
    match last_of(block.insns()) {
        Some(last) => loops_to(number, last.insn),
        None => false,
    }
}

/// Whether these instructions end with no branch.
fn ends_straight(insns: &[SerialInsn]) -> bool
    ensures { result ≡ ends_straight (last_of insns.now) }
{
    match last_of(insns) {
        Some(last) => !last.insn.op().is_branch(),
        None => true,
    }
}

/// Whether the block of this number is there, and ends with no branch.
fn is_straight(blocks: &[Block], number: usize) -> bool
    ensures { result ≡ is_straight blocks.now number }
{
    match blocks.get(number) {
        Some(block) => ends_straight(block.insns()),
        None => false,
    }
}

/// Whether the block of this number has a label.
fn has_label(blocks: &[Block], number: usize) -> bool
    ensures { result ≡ has_label blocks.now number }
{
    match blocks.get(number) {
        Some(block) => block.label().is_some(),
        None => false,
    }
}

/// Whether the block of this number belongs to a loop above it.
fn is_behind(blocks: &[Block], number: usize) -> bool
    requires { number < 254 }
    ensures { result ≡ is_behind blocks.now number }
{
    is_straight(blocks, number) && !has_label(blocks, number) && !is_loop(blocks, number + 1)
}

/// Whether the one number is that before the other.
fn is_before(last: usize, number: usize) -> bool
    ensures { result ≡ (last + 1 == number) }
{
    number > 0 && last == number - 1
}

/// Whether a run that goes from the one block to the other stays at a loop.
fn is_joined(blocks: &[Block], last: usize, number: usize) -> bool
    requires { number < 254 }
    ensures { result ≡ is_joined blocks.now last number }
{
    if is_loop(blocks, number) {
        last == number || is_before(last, number) && is_straight(blocks, last)
    } else {
        is_loop(blocks, last) && is_before(last, number) && is_behind(blocks, number)
    }
}

/// The visit of the block of this number behind another one.
pub(crate) fn next_visit(blocks: &[Block], last: Visit, number: usize) -> Visit
    requires number { number < 254 }
    requires stay { last.stay < 4294967295 }
    requires iteration { last.iteration < 4294967295 }
    ensures { result ≡ next_visit blocks.now last number }
{
    if is_joined(blocks, last.number, number) {
        Visit {
            number,
            stay: last.stay,
            iteration: last.iteration + 1,
        }
    } else {
        Visit {
            number,
            stay: last.stay + 1,
            iteration: u32::from(is_loop(blocks, number)),
        }
    }
}

/// The number of the loop at which a visit stays that isn't the first of its stay.
pub(crate) fn loop_of(blocks: &[Block], number: usize) -> usize
    ensures { result ≡ loop_of blocks.now number }
{
    if is_loop(blocks, number) {
        number
    } else {
        number.saturating_sub(1)
    }
}
