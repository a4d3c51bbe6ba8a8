//! In what order a list places instructions.

ghost use Rattle.std.specs.Prelude.{◌≡◌, ◌<◌, ◌+◌, ◌*◌, length, IfOk};
ghost use Rattle.c62_depend.specs.Plan.{insns_of};
ghost use Rattle.c62_tries.specs.declared.order.Way.TheVariants.{Forward as FromFirst, Backward as FromLast};
ghost use Rattle.c62_tries.specs.Order.{HasHighestFirst, HasEarliestFirst, IsUrgencyBy};

use c62_depend::{Link, Plan};
use std::alloc::{AllocError, Global};

/// From where cycles are counted.
#[derive(Clone, Copy, PartialEq, Eq, Debug)]
pub enum Way {
    /// From the first cycle of the block, and on.
    Forward,
    /// From the last cycle of the block, and back.
    Backward,
}

/// In what order a list places the instructions of a block.
#[derive(Drop)]
pub struct Order {
    /// The end that it begins with.
    pub way: Way,
    /// How urgent each instruction is, by number.
    pub urgency: Vec<u32>,
    /// The first cycle of each, counted from that end; 0 for those behind the last that is given.
    pub least: Vec<u16>,
}

/// How urgent an instruction is: by this measure, and of several by their ranks.
fn urgency(measure: u16, rank: u8) -> u32
    ensures { result ≡ measure * 256 + rank }
{
    u32::from(measure) * 256 + u32::from(rank)
}

/// The cycle of an instruction, or 0 where it has none.
pub(crate) fn cycle_in(cycles: &[Option<u16>], number: u8) -> u16 {
    match cycles.get(usize::from(number)) {
        Some(Some(cycle)) => *cycle,
        _ => 0,
    }
}

/// The least cycle, and not less than `least`, that these dependences allow.
pub(crate) fn early(cycles: &[Option<u16>], links: &[Link], least: u16) -> u16 {
    let mut early = i32::from(least);
    for link in links {
        early = early.max(i32::from(cycle_in(cycles, link.number)) + i32::from(link.latency));
    }
    u16::try_from(early).unwrap_or(u16::MAX)
}

/// How many cycles come before each instruction at least, by dependences.
fn depths(alloc: Global, plan: &Plan) -> Result<Vec<Option<u16>>, AllocError> {
    let mut depths = Vec::with_capacity(alloc, usize::from(plan.len()))?;
    for i in 0..plan.len() {
        let depth = early(&depths, plan.needs(i), 0);
        depths.push(Some(depth))?;
    }
    Ok(depths)
}

/// How urgent an instruction is that stands in this cycle.
fn urgency_by(way: Way, cycle: u16, number: u8) -> u32
    ensures { IsUrgencyBy way cycle result }
{
    match way {
        Way::Forward => urgency(u16::MAX - cycle, u8::MAX - number),
        Way::Backward => urgency(cycle, number),
    }
}

impl Order {
    /// From the first cycle on: what has the greatest height, and of several the lowest number.
    ///
    /// # Errors
    ///
    /// Where memory ran out.
    pub fn by_height(alloc: Global, plan: &Plan) -> Result<Order, AllocError>
        ensures way { IfOk result (λ order. order.way ≡ FromFirst) }
        ensures first { IfOk result (λ order. HasHighestFirst (insns_of plan.now) order.urgency.items) }
    {
        let mut all = Vec::with_capacity(alloc, usize::from(plan.len()))?;
        for i in 0..plan.len() {
            all.push(urgency(plan.height(i), u8::MAX - i as u8))?;
        }
        Ok(Order {
            way: Way::Forward,
            urgency: all,
            least: Vec::new(alloc),
        })
    }

    /// From the last cycle back: what has the most cycles before it at least, and of several the greatest number.
    ///
    /// # Errors
    ///
    /// Where memory ran out.
    pub fn by_depth(alloc: Global, plan: &Plan) -> Result<Order, AllocError>
        ensures { IfOk result (λ order. order.way ≡ FromLast) }
    {
        let depths = depths(alloc, plan)?;
        let mut all = Vec::with_capacity(alloc, usize::from(plan.len()))?;
        for i in 0..plan.len() {
            all.push(urgency(cycle_in(&depths, i as u8), i as u8))?;
        }
        Ok(Order {
            way: Way::Backward,
            urgency: all,
            least: Vec::new(alloc),
        })
    }

    /// As instructions stand in these cycles, given by number: from the first cycle on those of the earliest, and from the
    /// last cycle back those of the latest.
    ///
    /// # Errors
    ///
    /// Where memory ran out.
    pub fn by_cycle(alloc: Global, cycles: &[u16], way: Way) -> Result<Order, AllocError>
        ensures way { IfOk result (λ order. order.way ≡ way) }
        ensures first { IfOk result (λ order. HasEarliestFirst way cycles.now order.urgency.items) }
    {
        let mut all = Vec::with_capacity(alloc, cycles.len())?;
        let mut number = 0u8;
        for cycle in cycles {
            all.push(urgency_by(way, *cycle, number))?;
            number = number.wrapping_add(1);
        }
        Ok(Order {
            way,
            urgency: all,
            least: Vec::new(alloc),
        })
    }
}
