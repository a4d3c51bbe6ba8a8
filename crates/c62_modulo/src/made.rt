//! Software pipelined packets of a loop (docs/SCHEDULING.md, "Pipelined loops").

ghost use Rattle.std.specs.Prelude.{◌≡◌, ℕ, IfOk, IfSome, All};
ghost use Rattle.std.specs.Bool.{OnTrue};
ghost use Rattle.c62_rows.specs.Rows.{row_read};
ghost use Rattle.c62_loop.specs.Loop.{interval, Region as Counted};
ghost use Rattle.c62_loop_match.specs.declared.promise.Promise.{Promise as OfAccesses};
ghost use Rattle.c62_loop_match.specs.Parts.{loop_of, region_of as region_read};
ghost use Rattle.c62_loop_match.specs.Promise.{promises};
ghost use Rattle.c62_loop_match.specs.Decide.{Decided};
ghost use Rattle.c62_modulo.specs.Made.{IsLawful, StandsAlone, IsMade, IsShown};

use crate::control::{Counter, branch_row};
use crate::lawful::{are_lawful, stands_alone};
use crate::packets::{Packets, Straights, packets_of};
use crate::straight::straight;
use c62_insn::Reg;
use c62_kernels::{Fixed, Graph, Modulo, OF_LOOPS, least_interval as first_interval, schedule_of};
use c62_loop_bound::least_interval;
use c62_loop_match::{Pipelined, Promise, Region, decide, is_counted_loop, touches};
use c62_read::{MOST_INSTRUCTIONS, SerialInsn};
use std::alloc::{AllocError, Global};

/// How often instructions are placed for a loop.
const MOST_PLACINGS: u32 = 100_000;

/// What is asked of packets of a loop.
#[derive(Clone, Copy)]
pub struct Terms {
    /// The loads and stores that need no order between iterations.
    pub promise: Promise,
    /// The loop is entered with so many trips or more.
    pub trips: u32,
    /// The most cycles that a trip may take.
    pub longest: u16,
}

/// Software pipelined packets of a loop.
#[derive(Drop)]
pub struct Made {
    /// The packets: a text of their own, in which the label of the kernel has number 0.
    pub pipelined: Pipelined,
    /// How many iterations prolog and epilog hold: one less than the stages, and than the trips that are wanted.
    pub most: u8,
    /// The cycles of a trip.
    pub interval: u16,
    /// The cycles that units, paths, reads and dependences ask of a trip: no packets of the loop have fewer
    /// ([`c62_loop_bound::laws::no_interval_is_shorter`]).
    pub least: u16,
}

/// What is known of how short a trip can be.
#[derive(Clone, Copy, PartialEq, Eq, Debug)]
pub enum Shortness {
    /// No packets of the loop have a shorter one.
    Shortest,
    /// None have one of fewer cycles than these, which are fewer than found.
    Over(u16),
}

impl Made {
    /// What is known of whether packets of the loop may have a shorter trip.
    pub fn shortness(&self) -> Shortness
        ensures { (promise : OfAccesses) (region : Counted) (trips longest : ℕ) → IsMade (promises promise) region trips longest self.now
            → IsShown promise region self.now.interval result }
    {
        if self.interval <= self.least {
            Shortness::Shortest
        } else {
            Shortness::Over(self.least)
        }
    }
}

/// The instructions that don't touch the counter.
fn work_in(
    alloc: Global,
    counter: Reg,
    entries: &[SerialInsn],
) -> Result<Vec<SerialInsn>, AllocError> {
    let mut work = Vec::new(alloc);
    for entry in entries {
        if !touches(counter, entry) {
            work.push(*entry)?;
        }
    }
    Ok(work)
}

/// What the loop counts by: its branch, and the line of its step.
fn counter_of(region: &Region) -> Option<Counter> {
    let branch = region.body.last()?;
    let step = region
        .body
        .iter()
        .find(|entry| touches(region.counter, entry))?;
    Some(Counter {
        reg: region.counter,
        branch: SerialInsn {
            insn: branch.insn.aimed(0),
            line: branch.line,
        },
        line: step.line,
    })
}

/// The tasks of a loop: its work, the step and the branch.
fn graph_of(
    alloc: Global,
    region: &Region,
    counter: Counter,
    promise: Promise,
) -> Result<Option<Graph>, AllocError> {
    let Some(step) = counter.guarded() else {
        return Ok(None);
    };
    let work = work_in(alloc, region.counter, &region.body)?;
    let others = [step, counter.branch];
    let graph = Graph::new(alloc, &work, &others, promise.bases, OF_LOOPS)?;
    Ok(Some(graph))
}

/// The straight instructions of a region: those before the loop whole.
fn straights_of(alloc: Global, region: &Region) -> Result<Option<Straights>, AllocError> {
    let behind = work_in(alloc, region.counter, &region.behind)?;
    let Some(before) = straight(alloc, &region.before)? else {
        return Ok(None);
    };
    let Some(behind) = straight(alloc, &behind)? else {
        return Ok(None);
    };
    Ok(Some(Straights { before, behind }))
}

/// Whether packets pipeline the loop, as `decide` of c62_loop_match says, and are such as a text of packets may have.
fn is_made(
    alloc: Global,
    region: &Region,
    promise: Promise,
    packets: &Packets,
    most: u8,
) -> Result<bool, AllocError>
    ensures decided { IfOk result (λ same. OnTrue same (Decided (promises promise) (region_read region.now) (loop_of packets.now.pipelined) most)) }
    ensures cycles { IfOk result (λ same. OnTrue same (packets.now.schedule.interval ≡ interval (loop_of packets.now.pipelined))) }
    ensures lawful { IfOk result (λ same. OnTrue same (All (λ row. IsLawful (row_read row)) packets.now.pipelined.rows.rows.items)) }
    ensures alone { IfOk result (λ same. OnTrue same (StandsAlone (loop_of packets.now.pipelined))) }
{
    if !stands_alone(&packets.pipelined) || !are_lawful(&packets.pipelined.rows.rows) {
        return Ok(false);
    }
    decide(
        alloc,
        region,
        &packets.pipelined,
        &packets.schedule,
        &packets.control,
        promise,
        most,
    )
}

/// The packets, if that is what they are, and the terms allow for them.
fn accepted(
    alloc: Global,
    region: &Region,
    terms: Terms,
    packets: Packets,
    most: u8,
) -> Result<Option<Made>, AllocError>
    ensures { IfOk result (λ made. IfSome made (IsMade (promises terms.promise) (region_read region.now) terms.trips terms.longest)) }
{
    let interval = packets.schedule.interval;
    if u32::from(most) >= terms.trips || interval > terms.longest {
        return Ok(None);
    }
    if region.body.len() > MOST_INSTRUCTIONS {
        return Ok(None);
    }
    if !is_made(alloc, region, terms.promise, &packets, most)? {
        return Ok(None);
    }
    let least = least_interval(alloc, region, terms.promise)?;
    Ok(Some(Made {
        pipelined: packets.pipelined,
        most,
        interval,
        least,
    }))
}

/// A loop that is to be pipelined.
#[derive(Drop)]
struct Wanted<'a> {
    region: &'a Region,
    terms: Terms,
    counter: Counter,
    graph: Graph,
    straights: Straights,
    /// The first interval that is tried: none of a modulo schedule is shorter.
    first: u16,
}

impl<'a> Wanted<'a> {
    /// `None` where the region has no step or branch, or no schedule within so many cycles.
    fn new(
        alloc: Global,
        region: &'a Region,
        terms: Terms,
    ) -> Result<Option<Wanted<'a>>, AllocError>
        ensures { IfOk result (λ wanted. IfSome wanted (λ wanted. (wanted.region.now ≡ region.now) × (wanted.terms ≡ terms))) }
    {
        let Some(counter) = counter_of(region) else {
            return Ok(None);
        };
        let Some(graph) = graph_of(alloc, region, counter, terms.promise)? else {
            return Ok(None);
        };
        let Some(straights) = straights_of(alloc, region)? else {
            return Ok(None);
        };
        let Some(first) = first_interval(alloc, &graph, terms.longest)? else {
            return Ok(None);
        };
        Ok(Some(Wanted {
            region,
            terms,
            counter,
            graph,
            straights,
            first,
        }))
    }

    /// The schedule with so many cycles between two passes, and how many iterations its prolog and epilog hold, if there are trips enough.
    fn modulo(
        &self,
        alloc: Global,
        interval: u16,
        left: &mut u32,
    ) -> Result<Option<(Modulo, u8)>, AllocError> {
        let fixed = Fixed {
            number: self.graph.len().saturating_sub(1),
            row: branch_row(interval),
        };
        let Some(modulo) = schedule_of(alloc, &self.graph, fixed, interval, left)? else {
            return Ok(None);
        };
        match u8::try_from(modulo.most()) {
            Ok(most) if u32::from(most) < self.terms.trips => Ok(Some((modulo, most))),
            _ => Ok(None),
        }
    }

    /// Packets with so many cycles between two passes.
    fn with_interval(
        &self,
        alloc: Global,
        interval: u16,
        left: &mut u32,
    ) -> Result<Option<Made>, AllocError>
        ensures { IfOk result (λ made. IfSome made (IsMade (promises self.now.terms.promise) (region_read self.now.region.now) self.now.terms.trips
            self.now.terms.longest)) }
    {
        let Some((modulo, most)) = self.modulo(alloc, interval, left)? else {
            return Ok(None);
        };
        let Some(packets) = packets_of(alloc, &self.graph, &modulo, self.counter, &self.straights)?
        else {
            return Ok(None);
        };
        accepted(alloc, self.region, self.terms, packets, most)
    }
}

/// Packets that do what a loop under a counter does, with the straight instructions around it, in as few cycles a trip as are found, and
/// of these with as few stages. `None` where none are found with no more cycles a trip, and stages, than the terms allow.
///
/// # Errors
///
/// `AllocError` where memory ran out.
pub fn pipelined(alloc: Global, region: &Region, terms: Terms) -> Result<Option<Made>, AllocError>
    ensures { IfOk result (λ made. IfSome made (IsMade (promises terms.promise) (region_read region.now) terms.trips terms.longest)) }
{
    if !is_counted_loop(region) {
        return Ok(None);
    }
    let Some(wanted) = Wanted::new(alloc, region, terms)? else {
        return Ok(None);
    };
    let mut left = MOST_PLACINGS;
    for interval in wanted.first..=terms.longest {
        if let Some(made) = wanted.with_interval(alloc, interval, &mut left)? {
            return Ok(Some(made));
        }
    }
    Ok(None)
}
