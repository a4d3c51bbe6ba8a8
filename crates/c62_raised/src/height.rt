//! How many cycles follow behind an instruction at least.

ghost use Rattle.std.specs.Prelude.{◌≡◌, ◌<◌, ◌≤◌, length, slice_index};
ghost use Rattle.c62_depend.specs.Height.{raised};
ghost use Rattle.c62_depend.specs.Plan.{insns_of};
ghost use Rattle.c62_raised.specs.Chain.{lead_in};
ghost use Rattle.c62_raised.specs.Order.{IsOrder, IsOrdered, CoversLeads, AreAllWaits};
ghost use Rattle.c62_raised.specs.Raised.{IsRaised, AreRaised};
ghost use Rattle.c62_raised.specs.Steps.{AreSmall, AreLow, IsWithOne, IsWithOnes};

use crate::crowd::{Heights, with_room};
use crate::lead::leads;
use crate::order::{Order, insert_by_height};
use crate::room::{AllWaits, ROOMS};
use arrayvec::ArrayVec;
use c62_depend::Plan;
use c62_read::MOST_INSTRUCTIONS;

/// So many cycles before a height: 0 where that is below 0.
fn raised_by(before: i32, height: u32) -> u64
    ensures { result ≡ raised before height }
{
    let sum = i64::from(before) + i64::from(height);
    if sum < 0 { 0 } else { sum as u64 }
}

/// The greater of so many cycles, and those of an instruction that comes behind.
fn with_one(before: Option<i32>, height: u32, least: u64) -> u64
    ensures { IsWithOne before height least result }
{
    match before {
        Some(cycles) => least.max(raised_by(cycles, height)),
        None => least,
    }
}

/// The greatest of a delay, and the cycles of each instruction that comes behind.
fn with_ones(leads: &[Option<i32>], heights: &Heights, delay: u8) -> u64
    requires { length leads.now ≤ MOST_INSTRUCTIONS }
    ensures { IsWithOnes (slice_index heights.now) (lead_in leads.now) delay result }
{
    let mut most = u64::from(delay);
    for j in 0..leads.len() {
        most = with_one(leads[j], heights[j], most);
    }
    most
}

/// How many cycles follow behind an instruction with this delay: the greatest of this, the cycles of each instruction that
/// comes behind, and those of each crowd.
pub(crate) fn raised(
    plan: &Plan,
    order: &[u16],
    waits: &AllWaits,
    leads: &[Option<i32>],
    heights: &Heights,
    delay: u8,
) -> u32
    requires few { length leads.now ≤ MOST_INSTRUCTIONS }
    requires long { length leads.now ≡ length (insns_of plan.now) }
    requires small { AreSmall leads.now }
    requires order { IsOrdered (length (insns_of plan.now)) (slice_index heights.now) order.now }
    requires covers { CoversLeads order.now (lead_in leads.now) }
    requires waits { AreAllWaits (insns_of plan.now) 16 waits.now }
    requires low { AreLow 1000000 heights.now }
    ensures is { IsRaised (insns_of plan.now) (slice_index heights.now) (lead_in leads.now) delay result }
    ensures low { result ≤ 1001536 }
{
    let mut most = with_ones(leads, heights, delay);
    for k in 0..16 {
        most = with_room(plan, order, ROOMS[k], &waits[k], leads, heights, most);
    }
    most as u32
}

/// The raised heights of a block, and its instructions in falling order of these.
pub(crate) struct Found {
    /// The height of each instruction.
    pub(crate) heights: Heights,
    /// The instructions.
    pub(crate) order: Order,
}

/// The raised height of each instruction, found from the last one up.
pub(crate) fn heights(plan: &Plan, waits: &AllWaits) -> Found
    requires { AreAllWaits (insns_of plan.now) 16 waits.now }
    ensures order { IsOrder 0 (length (insns_of plan.now)) (slice_index result.heights) result.order.items }
    ensures raised { AreRaised (insns_of plan.now) (slice_index result.heights) }
    ensures low { AreLow 1000000 result.heights }
{
    let mut heights = [0; MOST_INSTRUCTIONS];
    let mut order = ArrayVec::new();
    for i in (0..plan.len()).rev() {
        let leads = leads(plan, i);
        let delay = plan.insn(i).delay();
        heights[usize::from(i)] = raised(
            plan,
            order.as_slice(),
            waits,
            leads.as_slice(),
            &heights,
            delay,
        );
        insert_by_height(&mut order, &heights, i);
    }
    Found { heights, order }
}
