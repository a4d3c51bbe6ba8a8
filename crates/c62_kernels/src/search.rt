//! Iterative modulo scheduling (docs/SCHEDULING.md, "Pipelined loops"): the most urgent task goes into the first cycle that has room. Where
//! none has, it takes the place of others, which are placed again.

ghost use Rattle.std.specs.Prelude.{◌≡◌, ◌≤◌, ◌⊎◌, IfOk, IfSome};

use crate::bound::longest;
use crate::graph::{Graph, Link, Way};
use crate::modulo::Modulo;
use crate::slot::Slot;
use crate::stages::stages_of;
use std::alloc::{AllocError, Global};

/// How often tasks are placed in a try, for each that there is.
const PLACINGS: u32 = 6;

/// The most cycles of a kernel with which a schedule is begun on each way.
const MOST_BEGINS: u16 = 8;

/// How often the first schedules of an interval may fail before it is given up.
const MOST_FAILED: u16 = 4;

/// What is placed once and stays: the branch.
#[derive(Clone, Copy)]
pub struct Fixed {
    pub number: u16,
    /// Its cycle of the kernel.
    pub row: u16,
}

/// Where there is no branch.
const NOTHING: Fixed = Fixed {
    number: u16::MAX,
    row: 0,
};

/// A schedule on its way.
#[derive(Drop)]
struct Search<'a> {
    graph: &'a Graph,
    fixed: Fixed,
    way: Way,
    interval: u16,
    /// The cycle with which the schedule is begun.
    begin: u16,
    urgency: Vec<i32>,
    /// The cycle of each task that is placed.
    cycles: Vec<Option<i32>>,
    /// The first cycle into which each task is placed where no cycle has room.
    next: Vec<i32>,
    slots: Vec<Slot>,
}

/// The cycle of a kernel in which something is issued, counted on this way.
fn row_of(interval: u16, way: Way, cycle: i32) -> usize {
    let forward = match way {
        Way::Forward => cycle,
        Way::Backward => 0i32.saturating_sub(cycle),
    };
    let row = forward.rem_euclid(i32::from(interval).max(1));
    usize::try_from(row).unwrap_or(0)
}

impl<'a> Search<'a> {
    fn new(
        alloc: Global,
        graph: &'a Graph,
        fixed: Fixed,
        interval: u16,
        way: Way,
        begin: u16,
        urgency: Vec<i32>,
    ) -> Result<Search<'a>, AllocError>
        ensures { IfOk result (λ search. search.interval ≡ interval) }
    {
        let count = graph.tasks.len();
        let mut cycles = vec![in alloc; None; count]?;
        let mut slots = vec![in alloc; Slot::new(); usize::from(interval)]?;
        if let Some(cycle) = cycles.get_mut(usize::from(fixed.number)) {
            *cycle = Some(0i32);
        }
        if let Some(slot) = slots.get_mut(usize::from(fixed.row))
            && let Some(with) = slot.with(&graph.tasks, fixed.number)
        {
            *slot = with;
        }
        Ok(Search {
            graph,
            fixed,
            way,
            interval,
            begin,
            urgency,
            cycles,
            next: vec![in alloc; i32::MIN; count]?,
            slots,
        })
    }

    fn urgency_of(&self, number: u16) -> i32 {
        self.urgency
            .get(usize::from(number))
            .copied()
            .unwrap_or(i32::MIN)
    }

    fn cycle_of(&self, number: u16) -> Option<i32> {
        self.cycles.get(usize::from(number)).copied().flatten()
    }

    fn is_free(&self, number: u16) -> bool {
        self.cycles.get(usize::from(number)) == Some(&None)
    }

    /// The most urgent task that isn't placed, and of several the first.
    fn pick(&self) -> Option<u16> {
        let mut found = None;
        let mut most = i32::MIN;
        for number in 0..self.graph.len() {
            let own = self.urgency_of(number);
            if self.is_free(number) && (found.is_none() || most < own) {
                found = Some(number);
                most = own;
            }
        }
        found
    }

    /// The first cycle that what is placed before a task allows.
    fn early(&self, number: u16) -> i32 {
        let mut early = i32::from(self.begin);
        for link in self.graph.before(self.way, number) {
            if let Some(cycle) = self.cycle_of(link.number) {
                early = early.max(cycle.saturating_add(link.within(self.interval)));
            }
        }
        early
    }

    /// The cycle of the kernel with a task more, if it has room.
    fn slot_with(&self, cycle: i32, number: u16) -> Option<Slot> {
        let row = row_of(self.interval, self.way, cycle);
        self.slots.get(row)?.with(&self.graph.tasks, number)
    }

    /// The first cycle from this one on in which a task has room, and what is issued there with it.
    fn room(&self, number: u16, early: i32) -> Option<(i32, Slot)> {
        let mut cycle = early;
        for _ in 0..self.interval {
            if let Some(slot) = self.slot_with(cycle, number) {
                return Some((cycle, slot));
            }
            cycle = cycle.saturating_add(1);
        }
        None
    }

    /// Takes a task out of its cycle, if it isn't fixed.
    fn take_out(&mut self, number: u16)
        ensures { self.new.interval ≡ self.old.interval }
    {
        if number == self.fixed.number {
            return;
        }
        let Some(cycle) = self.cycle_of(number) else {
            return;
        };
        let row = row_of(self.interval, self.way, cycle);
        if let Some(slot) = self.slots.get_mut(row) {
            *slot = slot.without(&self.graph.tasks, number);
        }
        if let Some(cycle) = self.cycles.get_mut(usize::from(number)) {
            *cycle = None;
        }
    }

    /// The least urgent task of a cycle in whose place this one fits.
    fn in_the_way(&self, slot: &Slot, number: u16) -> Option<u16> {
        let tasks = &self.graph.tasks;
        let mut found = None;
        let mut least = i32::MAX;
        for seat in &slot.seats {
            if let Some(other) = seat
                && *other != self.fixed.number
                && (found.is_none() || self.urgency_of(*other) < least)
                && slot.without(tasks, *other).with(tasks, number).is_some()
            {
                found = Some(*other);
                least = self.urgency_of(*other);
            }
        }
        found
    }

    /// Makes room for a task in a cycle: one gives way where that is enough, or all.
    fn make_room(&mut self, number: u16, cycle: i32) -> Option<Slot>
        ensures { self.new.interval ≡ self.old.interval }
    {
        let row = row_of(self.interval, self.way, cycle);
        let slot = *self.slots.get(row)?;
        match self.in_the_way(&slot, number) {
            Some(other) => self.take_out(other),
            None => {
                for seat in &slot.seats {
                    if let Some(other) = seat {
                        self.take_out(*other);
                    }
                }
            }
        }
        self.slot_with(cycle, number)
    }

    fn put(&mut self, number: u16, cycle: i32, with: Slot)
        ensures { self.new.interval ≡ self.old.interval }
    {
        let row = row_of(self.interval, self.way, cycle);
        if let Some(slot) = self.slots.get_mut(row) {
            *slot = with;
        }
        if let Some(own) = self.cycles.get_mut(usize::from(number)) {
            *own = Some(cycle);
        }
        if let Some(next) = self.next.get_mut(usize::from(number)) {
            *next = cycle.saturating_add(1);
        }
    }

    /// Whether a task behind one that is issued in this cycle stands too early.
    fn is_too_early(&self, link: Link, cycle: i32) -> bool {
        match self.cycle_of(link.number) {
            Some(other) => other < cycle.saturating_add(link.within(self.interval)),
            None => false,
        }
    }

    /// Places a task. What then stands too early is taken out.
    fn place(&mut self, number: u16)
        ensures { self.new.interval ≡ self.old.interval }
    {
        let early = self.early(number);
        let found = match self.room(number, early) {
            Some(found) => Some(found),
            None => {
                let next = self.next.get(usize::from(number)).copied();
                let cycle = early.max(next.unwrap_or(early));
                self.make_room(number, cycle).map(|slot| (cycle, slot))
            }
        };
        let Some((cycle, slot)) = found else { return };
        self.put(number, cycle, slot);
        let graph = self.graph;
        for link in graph.behind(self.way, number) {
            if link.number != number && self.is_too_early(*link, cycle) {
                self.take_out(link.number);
            }
        }
    }

    /// Places all tasks, as long as placings are left. Answers whether they are placed.
    fn run(&mut self, left: &mut u32) -> bool
        ensures interval { self.new.interval ≡ self.old.interval }
        ensures left { left.new ≤ left.old }
    {
        let placings = u32::from(self.graph.len()).saturating_mul(PLACINGS);
        for _ in 0..placings.min(*left) {
            match self.pick() {
                Some(number) => self.place(number),
                None => return true,
            }
            *left = left.saturating_sub(1);
        }
        self.pick().is_none()
    }

    /// The schedule, in as few passes as dependences allow.
    fn into_modulo(self, alloc: Global) -> Result<Option<Modulo>, AllocError>
        ensures { IfOk result (λ found. IfSome found (λ modulo. modulo.interval ≡ self.entry.interval)) }
    {
        let mut rows = Vec::with_capacity(alloc, self.cycles.len())?;
        for cycle in &self.cycles {
            let row = row_of(self.interval, self.way, cycle.unwrap_or(0));
            rows.push(u16::try_from(row).unwrap_or(0))?;
        }
        if let Some(row) = rows.get_mut(usize::from(self.fixed.number)) {
            *row = self.fixed.row;
        }
        let Some(stages) = stages_of(alloc, self.graph, &rows, self.interval)? else {
            return Ok(None);
        };
        Ok(Some(Modulo {
            interval: self.interval,
            rows,
            stages,
            slots: self.slots,
        }))
    }
}

/// How urgent each task is: how far the last cycle is behind it. What depends on nothing comes last.
fn urgency_of(
    alloc: Global,
    graph: &Graph,
    interval: u16,
    way: Way,
) -> Result<Option<Vec<i32>>, AllocError> {
    let other = match way {
        Way::Forward => Way::Backward,
        Way::Backward => Way::Forward,
    };
    let Some(mut urgency) = longest(alloc, graph, interval, other)? else {
        return Ok(None);
    };
    for number in 0..graph.len() {
        if graph.before(way, number).is_empty()
            && graph.behind(way, number).is_empty()
            && let Some(own) = urgency.get_mut(usize::from(number))
        {
            *own = i32::MIN;
        }
    }
    Ok(Some(urgency))
}

/// A schedule that is begun on this way with this cycle of the kernel.
fn begun(
    alloc: Global,
    graph: &Graph,
    fixed: Fixed,
    interval: u16,
    way: Way,
    begin: u16,
    left: &mut u32,
) -> Result<Option<Modulo>, AllocError>
    ensures interval { IfOk result (λ found. IfSome found (λ modulo. modulo.interval ≡ interval)) }
    ensures left { left.new ≤ left.old }
{
    let Some(urgency) = urgency_of(alloc, graph, interval, way)? else {
        return Ok(None);
    };
    let mut search = Search::new(alloc, graph, fixed, interval, way, begin, urgency)?;
    if search.run(left) {
        search.into_modulo(alloc)
    } else {
        Ok(None)
    }
}

/// A schedule of straight instructions: with so many cycles that none is passed twice.
///
/// # Errors
///
/// Where memory ran out.
pub fn straight_schedule(
    alloc: Global,
    graph: &Graph,
    cycles: u16,
) -> Result<Option<Modulo>, AllocError>
    ensures { IfOk result (λ found. IfSome found (λ modulo. modulo.interval ≡ cycles)) }
{
    let mut left = u32::MAX;
    begun(alloc, graph, NOTHING, cycles, Way::Forward, 0, &mut left)
}

/// The fewest passes behind the first one that an iteration needs by its dependences.
fn least_stages(alloc: Global, graph: &Graph, interval: u16) -> Result<u16, AllocError> {
    let mut most = 0;
    if let Some(sums) = longest(alloc, graph, interval, Way::Forward)? {
        for sum in &sums {
            most = most.max(*sum);
        }
    }
    let passes = most.div_euclid(i32::from(interval).max(1));
    Ok(u16::try_from(passes).unwrap_or(0))
}

/// Schedules that are tried with one interval.
#[derive(Drop)]
struct Tries {
    found: Option<Modulo>,
    /// How many found nothing.
    failed: u16,
    /// The fewest passes that any has.
    least: u16,
}

impl Tries {
    /// Adds one, which is kept if it has fewer passes than those before.
    fn add(&mut self, tried: Option<Modulo>)
        ensures { (self.new.found ≡ self.old.found) ⊎ (self.new.found ≡ tried) }
    {
        let Some(modulo) = tried else {
            self.failed = self.failed.saturating_add(1);
            return;
        };
        let is_shorter = match &self.found {
            Some(found) => modulo.most() < found.most(),
            None => true,
        };
        if is_shorter {
            self.found = Some(modulo);
        }
    }

    /// Whether no more is to be tried.
    fn are_over(&self) -> bool {
        match &self.found {
            Some(found) => found.most() <= self.least,
            None => self.failed >= MOST_FAILED,
        }
    }
}

/// A schedule with so many cycles from one pass to the next, of those that are tried the one with the fewest passes for an iteration. No
/// more tasks are placed than are left.
///
/// # Errors
///
/// Where memory ran out.
pub fn schedule_of(
    alloc: Global,
    graph: &Graph,
    fixed: Fixed,
    interval: u16,
    left: &mut u32,
) -> Result<Option<Modulo>, AllocError>
    ensures interval { IfOk result (λ found. IfSome found (λ modulo. modulo.interval ≡ interval)) }
    ensures left { left.new ≤ left.old }
{
    let mut tries = Tries {
        found: None,
        failed: 0,
        least: least_stages(alloc, graph, interval)?,
    };
    for begin in 0..interval.min(MOST_BEGINS) {
        for way in [Way::Forward, Way::Backward] {
            if !tries.are_over() {
                tries.add(begun(alloc, graph, fixed, interval, way, begin, left)?);
            }
        }
    }
    Ok(tries.found)
}
