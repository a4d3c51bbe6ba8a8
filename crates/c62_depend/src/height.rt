//! How urgent the instructions of a block are.

ghost use Rattle.std.specs.Prelude.{◌≡◌, ◌<◌, ◌≤◌, ◌+◌, ℤ, pos, negsuc, ◌≤ℤ◌, length, slice_index_or, IfOk};
ghost use Rattle.c62_pair.specs.Uses.{insns_in};
ghost use Rattle.c62_depend.specs.declared.limits.TheConstants.{ISSUE_CYCLES};
ghost use Rattle.c62_depend.specs.Direct.{direct_followers};
ghost use Rattle.c62_depend.specs.Lists.{AreLists};
ghost use Rattle.c62_depend.specs.Height.{raised, height, first_heights, AreHeightsFrom};

use crate::links::{Link, Links};
use c62_pair::Uses;
use c62_read::MOST_INSTRUCTIONS;
use std::alloc::{AllocError, Global};

/// A height with the latency of a dependence before it: 0 where that is below 0.
fn raised(link: Link, height: u16) -> u16
    requires height { height ≤ ISSUE_CYCLES }
    requires above { negsuc 4 ≤ℤ link.latency }
    requires below { link.latency ≤ℤ pos 5 }
    ensures { result ≡ raised link.latency height }
{
    let sum = i32::from(link.latency) + i32::from(height);
    if sum < 0 { 0 } else { sum as u16 }
}

/// The height of instruction `i`: the greatest of its delay and, over all that depend on it directly, the latency plus the
/// height behind it.
fn height(uses: &[Uses], followers: &[Link], heights: &[u16], i: usize) -> u16
    requires few { length uses.now ≤ MOST_INSTRUCTIONS }
    requires within { i < length uses.now }
    requires followers { followers.now ≡ direct_followers (insns_in uses.now) i }
    requires behind { AreHeightsFrom (insns_in uses.now) (i + 1) heights.now }
    ensures { result ≡ height (insns_in uses.now) i }
{
    let mut most = u16::from(uses[i].delay);
    for link in followers {
        most = most.max(raised(*link, heights[link.number as usize]));
    }
    most
}

/// The height of each instruction, found from the last one up.
pub(crate) fn heights(
    alloc: Global,
    uses: &[Uses],
    followers: &[Links],
) -> Result<Vec<u16>, AllocError>
    requires few { length uses.now ≤ MOST_INSTRUCTIONS }
    requires followers { AreLists (direct_followers (insns_in uses.now)) (length uses.now) followers.now }
    ensures { IfOk result (λ heights. heights.items ≡ first_heights (insns_in uses.now) (length uses.now)) }
{
    let mut heights = vec![in alloc; 0; uses.len()]?;
    for i in (0..uses.len()).rev() {
        heights[i] = height(uses, followers[i].as_slice(), &heights, i);
    }
    Ok(heights)
}
