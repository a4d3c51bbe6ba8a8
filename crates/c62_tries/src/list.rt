//! Lists: the most urgent instruction that is ready goes into the first cycle that has room, counted from either end of
//! the block.

ghost use Rattle.std.specs.Prelude.{◌<◌, length, MatchOption, ⊤};

use crate::order::{Order, Way, early};
use crate::packet::{Guest, Packet};
use c62_depend::{Link, Plan};
use std::alloc::{AllocError, Global};

/// What has to be placed before instruction `i`.
fn before(plan: &Plan, way: Way, i: u16) -> &[Link]
    requires { i < length plan.now.insns }
{
    match way {
        Way::Forward => plan.needs(i),
        Way::Backward => plan.followers(i),
    }
}

/// What can't be placed before instruction `i` is.
fn behind(plan: &Plan, way: Way, i: u16) -> &[Link]
    requires { i < length plan.now.insns }
{
    match way {
        Way::Forward => plan.followers(i),
        Way::Backward => plan.needs(i),
    }
}

/// A list on its way.
#[derive(Drop)]
struct List {
    way: Way,
    /// The cycle of each instruction that is placed.
    cycles: Vec<Option<u16>>,
    /// Of each instruction, how many that have to come before it aren't placed.
    missing: Vec<u16>,
    /// What is issued in each cycle.
    packets: Vec<Packet>,
}

impl List {
    fn new(alloc: Global, plan: &Plan, way: Way) -> Result<List, AllocError> {
        let count = usize::from(plan.len());
        let mut missing = Vec::with_capacity(alloc, count)?;
        for i in 0..plan.len() {
            missing.push(u16::try_from(before(plan, way, i).len()).unwrap_or(u16::MAX))?;
        }
        Ok(List {
            way,
            cycles: vec![in alloc; None; count]?,
            missing,
            packets: vec![in alloc; Packet::new(); 5 * count]?,
        })
    }

    fn is_ready(&self, i: u16) -> bool {
        let i = usize::from(i);
        self.cycles.get(i) == Some(&None) && self.missing.get(i) == Some(&0)
    }

    /// The most urgent instruction that is ready, and of several the first.
    fn pick(&self, plan: &Plan, urgency: &[u32]) -> Option<u16>
        ensures { MatchOption result ⊤ (λ i. i < length plan.now.insns) }
    {
        let mut most = None;
        for i in 0..plan.len() {
            let own = urgency.get(usize::from(i)).copied();
            if self.is_ready(i) && most < own {
                most = own;
            }
        }
        for i in 0..plan.len() {
            if self.is_ready(i) && urgency.get(usize::from(i)).copied() == most {
                return Some(i);
            }
        }
        None
    }

    /// The first cycle from this one on that has room, or the first behind all.
    fn first_room(&self, guest: &Guest, early: u16) -> u16 {
        let mut cycle = early;
        for packet in self.packets.iter().skip(usize::from(early)) {
            if packet.fits(guest) {
                return cycle;
            }
            cycle = cycle.saturating_add(1);
        }
        cycle
    }

    /// The least cycle that this one, the delay behind an instruction and its dependences allow.
    fn early(&self, plan: &Plan, i: u16, least: u16) -> u16
        requires { i < length plan.now.insns }
    {
        let behind = match self.way {
            Way::Forward => 0,
            Way::Backward => u16::from(plan.insn(i).delay()),
        };
        let links = before(plan, self.way, i);
        early(&self.cycles, links, least.max(behind))
    }

    /// Places an instruction that is ready, in this cycle or a later one.
    fn place(&mut self, plan: &Plan, i: u16, least: u16)
        requires { i < length plan.now.insns }
    {
        let guest = Guest::new(plan, i);
        let early = self.early(plan, i, least);
        let cycle = self.first_room(&guest, early);
        if let Some(packet) = self.packets.get_mut(usize::from(cycle)) {
            packet.add(&guest);
        }
        if let Some(own) = self.cycles.get_mut(usize::from(i)) {
            *own = Some(cycle);
        }
        for link in behind(plan, self.way, i) {
            if let Some(missing) = self.missing.get_mut(usize::from(link.number)) {
                *missing = missing.saturating_sub(1);
            }
        }
    }

    /// The cycles from the first one of the block on.
    fn into_cycles(self, alloc: Global) -> Result<Vec<u16>, AllocError> {
        let mut last = 0;
        for cycle in &self.cycles {
            last = last.max(cycle.unwrap_or(0));
        }
        let mut cycles = Vec::with_capacity(alloc, self.cycles.len())?;
        for cycle in &self.cycles {
            let own = cycle.unwrap_or(0);
            cycles.push(match self.way {
                Way::Forward => own,
                Way::Backward => last.saturating_sub(own),
            })?;
        }
        Ok(cycles)
    }
}

/// The first cycle that an order gives an instruction.
fn least_of(order: &Order, i: u16) -> u16 {
    order.least.get(usize::from(i)).copied().unwrap_or(0)
}

/// Cycles for the instructions of a plan, by number: one after the other the most urgent one that is ready goes into the
/// first cycle that has room for it (`docs/SCHEDULING.md`, "Shorter by lists").
///
/// # Errors
///
/// Where memory ran out.
pub fn listed(alloc: Global, plan: &Plan, order: &Order) -> Result<Vec<u16>, AllocError> {
    let mut list = List::new(alloc, plan, order.way)?;
    for _ in 0..plan.len() {
        match list.pick(plan, &order.urgency) {
            Some(i) => list.place(plan, i, least_of(order, i)),
            None => break,
        }
    }
    list.into_cycles(alloc)
}
