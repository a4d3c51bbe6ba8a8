//! What crowds for a room behind an instruction.

ghost use Rattle.std.specs.Prelude.{◌≡◌, ◌<◌, ◌≤◌, ℕ, length, slice_index, IfSome};
ghost use Rattle.c62_depend.specs.Plan.{insns_of};
ghost use Rattle.c62_raised.specs.Chain.{lead_in};
ghost use Rattle.c62_raised.specs.Raised.{IsReached};
ghost use Rattle.c62_raised.specs.Order.{AreWaits, IsOrdered, CoversLeads};
ghost use Rattle.c62_raised.specs.Steps.{IsJoined, closed, closed_before, IsWithMember, IsWithNumber, CoversCrowds};

use crate::room::{Room, Waits};
use c62_depend::Plan;
use c62_read::MOST_INSTRUCTIONS;

/// The raised heights of the instructions of a block, in cycles.
pub(crate) type Heights = [u32; MOST_INSTRUCTIONS];

/// So many instructions wait for a room and come behind another instruction, and have at least so great a raised height.
#[derive(Clone, Copy, PartialEq, Eq, Debug)]
pub struct Crowd {
    /// What they wait for.
    pub room: Room,
    /// How many cycles the first of them comes behind that instruction at least. It may be negative.
    pub lead: i32,
    /// How many they are.
    pub count: u16,
    /// The least of their raised heights, in cycles.
    pub tail: u32,
}

impl Crowd {
    ghost use Rattle.c62_raised.specs.Crowd.{cycles_of};

    /// So many cycles follow behind that instruction: the lead, the cycles in which they find room but the last of them, and
    /// the tail; and 0 where that is below 0.
    pub fn cycles(self) -> u64
        ensures { result ≡ cycles_of self }
    {
        let rounds = self.count.div_ceil(self.room.width()).saturating_sub(1);
        let sum = i64::from(self.lead) + i64::from(rounds) + i64::from(self.tail);
        if sum < 0 { 0 } else { sum as u64 }
    }
}

/// What a pass over the instructions of a block, in falling order of their heights, has found for a room.
#[derive(Clone, Copy, PartialEq, Eq, Debug)]
pub(crate) struct Pass {
    /// Those so far that wait for the room and come behind: `None` where there are none. Those may be to come that are as tall
    /// as the last of them.
    pub(crate) held: Option<Crowd>,
    /// The greatest of so many cycles, and those of the crowds whose tail is greater.
    pub(crate) most: u64,
}

/// One more of no greater height.
fn joined(held: Option<Crowd>, room: Room, lead: i32, tail: u32) -> Crowd
    requires { IfSome held (λ crowd. crowd.count < 256) }
    ensures { IsJoined held room lead tail result }
{
    match held {
        Some(crowd) => Crowd {
            room,
            lead: crowd.lead.min(lead),
            count: crowd.count + 1,
            tail,
        },
        None => Crowd {
            room,
            lead,
            count: 1,
            tail,
        },
    }
}

/// The greater of so many cycles, and those of a crowd.
fn closed(held: Option<Crowd>, most: u64) -> u64
    ensures { result ≡ closed held most }
{
    match held {
        Some(crowd) => most.max(crowd.cycles()),
        None => most,
    }
}

/// This, where the tail is another one than the crowd's; where it isn't, so many cycles.
fn closed_before(held: Option<Crowd>, tail: u32, most: u64) -> u64
    ensures { result ≡ closed_before held tail most }
{
    match held {
        Some(crowd) => {
            if crowd.tail == tail {
                most
            } else {
                most.max(crowd.cycles())
            }
        }
        None => most,
    }
}

/// With an instruction that waits for the room and comes so many cycles behind.
fn with_member(pass: Pass, room: Room, lead: i32, height: u32) -> Pass
    requires { IfSome pass.held (λ crowd. crowd.count < 256) }
    ensures { IsWithMember room lead height pass result }
{
    Pass {
        most: closed_before(pass.held, height, pass.most),
        held: Some(joined(pass.held, room, lead, height)),
    }
}

/// With an instruction, if it waits for the room and comes behind.
fn with_number(pass: Pass, room: Room, waits: bool, lead: Option<i32>, height: u32) -> Pass
    requires { IfSome pass.held (λ crowd. crowd.count < 256) }
    ensures { IsWithNumber room waits lead height pass result }
{
    match lead {
        Some(cycles) => {
            if waits {
                with_member(pass, room, cycles, height)
            } else {
                pass
            }
        }
        None => pass,
    }
}

/// The greatest of so many cycles, and those of the crowds for a room, by one pass over all that come behind, in falling order
/// of their heights.
pub(crate) fn with_room(
    plan: &Plan,
    order: &[u16],
    room: Room,
    waits: &Waits,
    leads: &[Option<i32>],
    heights: &Heights,
    least: u64,
) -> u64
    requires long { length leads.now ≡ length (insns_of plan.now) }
    requires few { length leads.now ≤ MOST_INSTRUCTIONS }
    requires order { IsOrdered (length (insns_of plan.now)) (slice_index heights.now) order.now }
    requires leads { CoversLeads order.now (lead_in leads.now) }
    requires waits { AreWaits (insns_of plan.now) room (length (insns_of plan.now)) waits.now }
    ensures least { least ≤ result }
    ensures covers { CoversCrowds (insns_of plan.now) (slice_index heights.now) (lead_in leads.now) room result }
    ensures attained { (delay : ℕ) → IsReached (insns_of plan.now) (slice_index heights.now) (lead_in leads.now) delay least
        → IsReached (insns_of plan.now) (slice_index heights.now) (lead_in leads.now) delay result }
{
    let mut pass = Pass {
        held: None,
        most: least,
    };
    for k in 0..order.len() {
        let j = usize::from(order[k]);
        pass = with_number(pass, room, waits[j], leads[j], heights[j]);
    }
    closed(pass.held, pass.most)
}
