//! Whether the rows of loops and other blocks stand one behind the other (docs/CHECK.md, "All loops of a text").

ghost use Rattle.std.specs.Prelude.{◌≡◌, ◌<◌, slice_get};
ghost use Rattle.c62_check_rest.specs.Starts.{is_row};
ghost use Rattle.c62_check_loops.specs.Covered.{is_straight};
ghost use Rattle.c62_check_loops.specs.Fit.{has_above, first_block, block_behind, is_alone, stands_there, is_passed, is_within, is_fit, are_all_rows};

use crate::covered::{follows_loop, has_below, is_straight, leads_to_loop};
use crate::verdict::{BlockVerdict, Loops};
use c62_check_loop::LoopVerdict;
use c62_check_rest::{is_row, start_at};
use c62_read::Block;

fn is_straight_at(blocks: &[Block], number: u8) -> bool
    ensures { result ≡ is_straight (slice_get blocks.now number) }
{
    is_straight(blocks.get(usize::from(number)))
}

/// Whether the block above that of this number leads to it.
fn has_above(blocks: &[Block], number: u8) -> bool
    ensures { result ≡ has_above blocks.now number }
{
    if number == 0 {
        false
    } else {
        is_straight_at(blocks, number - 1)
    }
}

/// The number of the first block of a loop's region: the block above, where that leads to the loop.
fn first_block(blocks: &[Block], number: u8) -> u8
    ensures { result ≡ first_block blocks.now number }
{
    if has_above(blocks, number) {
        number.saturating_sub(1)
    } else {
        number
    }
}

/// The number of the block behind a loop's region.
pub(crate) fn block_behind(blocks: &[Block], number: u8) -> u8
    requires { number < 253 }
    ensures { result ≡ block_behind blocks.now number }
{
    if has_below(blocks, number) {
        number + 2
    } else {
        number + 1
    }
}

/// Whether the loop of the block of this number is its region's first block, or isn't entered by itself.
fn is_alone(blocks: &[Block], starts: &[Option<usize>], number: u8) -> bool
    ensures { result ≡ is_alone blocks.now starts.now number }
{
    first_block(blocks, number) == number || start_at(starts, usize::from(number)).is_none()
}

/// Whether the region of the loop of the block of this number is entered at the first of these rows, and the block behind it at the last.
fn stands_there(
    blocks: &[Block],
    starts: &[Option<usize>],
    number: u8,
    first: usize,
    last: usize,
) -> bool
    requires { number < 253 }
    ensures { result ≡ stands_there blocks.now starts.now number first last }
{
    let entered = start_at(starts, usize::from(first_block(blocks, number)));
    let left = start_at(starts, usize::from(block_behind(blocks, number)));
    is_row(entered, first) && is_row(left, last)
}

/// Whether the block of this number is entered where the next one is.
fn is_passed(starts: &[Option<usize>], number: u8) -> bool
    ensures { result ≡ is_passed starts.now number }
{
    match start_at(starts, usize::from(number)) {
        Some(start) => is_row(start_at(starts, usize::from(number) + 1), start),
        None => false,
    }
}

/// Whether the block of this number, which is told with a loop or has nothing in it, is entered with the loop to which it leads, not at all
/// where it stands behind one, and else where the next block is.
fn is_within(blocks: &[Block], loops: &Loops, starts: &[Option<usize>], number: u8) -> bool
    requires { number < 253 }
    ensures { result ≡ is_within blocks.now loops.now.verdicts.items starts.now number }
{
    if leads_to_loop(blocks, loops, number) {
        true
    } else if follows_loop(blocks, loops, number) {
        start_at(starts, usize::from(number)).is_none()
    } else {
        is_passed(starts, number)
    }
}

/// Whether the rows of the block of this number are those from its start to that of what stands behind it.
pub(crate) fn is_fit(
    blocks: &[Block],
    loops: &Loops,
    starts: &[Option<usize>],
    number: u8,
    verdict: &BlockVerdict,
) -> bool
    requires { number < 253 }
    ensures { result ≡ is_fit blocks.now loops.now.verdicts.items starts.now number verdict.now }
{
    match verdict {
        BlockVerdict::Loop(LoopVerdict::Same { first, last, .. }) => is_alone(
            blocks, starts, number,
        ) && stands_there(blocks, starts, number, *first, *last),
        BlockVerdict::Loop(LoopVerdict::SameBut { first, last, .. }) => is_alone(
            blocks, starts, number,
        ) && stands_there(blocks, starts, number, *first, *last),
        BlockVerdict::Loop(_) => false,
        BlockVerdict::Within => is_within(blocks, loops, starts, number),
        BlockVerdict::Rest(_) => true,
    }
}

/// Whether the first block is entered at the first row, and the text left behind the last of so many.
pub(crate) fn are_all_rows(starts: &[Option<usize>], blocks: usize, rows: usize) -> bool
    ensures { result ≡ are_all_rows starts.now blocks rows }
{
    is_row(start_at(starts, 0), 0) && is_row(start_at(starts, blocks), rows)
}
