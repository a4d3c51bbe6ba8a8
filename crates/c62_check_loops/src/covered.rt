//! Which blocks of a text are told with a loop (docs/CHECK.md, "The command").

ghost use Rattle.std.specs.Prelude.{◌≡◌, ◌<◌, slice_get};
ghost use Rattle.std.specs.Option.{option_copied};
ghost use Rattle.c62_check_loops.specs.Covered.{belongs_to_loop, follows_loop, has_below, is_bare, is_empty, is_loop, is_straight, is_told, is_told_with_loop, leads_to_loop};

use crate::verdict::{Loops, loop_at};
use c62_check_loop::{counter_of, ends_with_branch, is_apart_below};
use c62_read::Block;

/// Whether the block of this number is a loop under a counter.
pub(crate) fn is_loop(blocks: &[Block], number: u8) -> bool
    ensures { result ≡ is_loop blocks.now number }
{
    counter_of(blocks, usize::from(number)).is_some()
}

/// Whether there is a block, without a branch.
pub(crate) fn is_straight(block: Option<&Block>) -> bool
    ensures { result ≡ is_straight (option_copied block.entry) }
{
    match block {
        Some(block) => !ends_with_branch(block.insns()),
        None => false,
    }
}

/// Whether there is a block, with neither label nor branch.
fn is_bare(block: Option<&Block>) -> bool
    ensures { result ≡ is_bare (option_copied block.entry) }
{
    match block {
        Some(block) => block.label().is_none() && !ends_with_branch(block.insns()),
        None => false,
    }
}

/// Whether there is a block, without instructions.
fn is_empty(block: Option<&Block>) -> bool
    ensures { result ≡ is_empty (option_copied block.entry) }
{
    match block {
        Some(block) => block.insns().is_empty(),
        None => false,
    }
}

/// The same of the block of this number.
fn is_bare_at(blocks: &[Block], number: u8) -> bool
    ensures { result ≡ is_bare (slice_get blocks.now number) }
{
    is_bare(blocks.get(usize::from(number)))
}

/// Whether the block below that of this number belongs to it, where that is a loop.
pub(crate) fn has_below(blocks: &[Block], number: u8) -> bool
    requires { number < 255 }
    ensures { result ≡ has_below blocks.now number }
{
    is_bare_at(blocks, number + 1) && !is_apart_below(blocks, number)
}

/// Whether the block of this number is told as a loop.
fn is_told(loops: &Loops, number: u8) -> bool
    ensures { result ≡ is_told loops.now.verdicts.items number }
{
    loop_at(loops, number).is_some()
}

/// Whether the block of this number stands before a loop that is told, and belongs to it.
pub(crate) fn leads_to_loop(blocks: &[Block], loops: &Loops, number: u8) -> bool
    requires { number < 255 }
    ensures { result ≡ leads_to_loop blocks.now loops.now.verdicts.items number }
{
    is_told(loops, number + 1) && is_straight(blocks.get(usize::from(number)))
}

/// Whether the block of this number stands behind a loop that is told, and belongs to it.
pub(crate) fn follows_loop(blocks: &[Block], loops: &Loops, number: u8) -> bool
    requires { number < 255 }
    ensures { result ≡ follows_loop blocks.now loops.now.verdicts.items number }
{
    if number == 0 {
        false
    } else {
        is_told(loops, number - 1) && has_below(blocks, number - 1)
    }
}

/// Whether the block of this number belongs to a loop that is told.
fn belongs_to_loop(blocks: &[Block], loops: &Loops, number: u8) -> bool
    requires { number < 255 }
    ensures { result ≡ belongs_to_loop blocks.now loops.now.verdicts.items number }
{
    leads_to_loop(blocks, loops, number) || follows_loop(blocks, loops, number)
}

/// Whether the block of this number, which isn't told as a loop, belongs to one that is, or has nothing in it.
pub(crate) fn is_told_with_loop(blocks: &[Block], loops: &Loops, number: u8) -> bool
    requires { number < 255 }
    ensures { result ≡ is_told_with_loop blocks.now loops.now.verdicts.items number }
{
    belongs_to_loop(blocks, loops, number) || is_empty(blocks.get(usize::from(number)))
}
