//! Whether packets pipeline a counted loop, and begin iterations past the last beside that (docs/CHECK.md, "Past the end").

ghost use Rattle.std.specs.Prelude.{◌≡◌, ◌<◌, ◌≤◌, ◌+◌, ◌++◌, ℕ, map, IfOk, IfSome};
ghost use Rattle.std.specs.Bool.{OnTrue};
ghost use Rattle.c62_loop.specs.Loop.{interval};
ghost use Rattle.c62_loop_match.specs.Parts.{region_of, loop_of, schedule_of, control_of, stage_of};
ghost use Rattle.c62_loop_match.specs.Path.{straights_of};
ghost use Rattle.c62_loop_match.specs.Promise.{promises};
ghost use Rattle.c62_loop_match.specs.Collapse.{all_instances, KeepsPast, KeepsAllPast, FitsPast, IsLonger, Collapsed};

use crate::begins::begins;
use crate::beyond::{Beyond, are_begun, are_held, past_instances, past_work, store_nothing};
use crate::counted::is_counted_loop;
use crate::decision::{
    Layout, Works, has_interval, has_landed, holds_rows, layout_of, uses_in, works_of,
};
use crate::distances::{Distances, found_in};
use crate::layout::is_pipelined;
use crate::parts::{Control, Pipelined, Region, Schedule};
use crate::path::{Instance, Work, instances_of, path_of};
use crate::promise::Promise;
use crate::stands::stand_for;
use crate::steering::{Rule, is_steering};
use c62_read::SerialInsn;
use std::alloc::{AllocError, Global};

/// All instances, those past the end behind the others, where the kernel is passed so often.
fn all_instances(
    alloc: Global,
    schedule: &Schedule,
    beyond: &[Beyond],
    most: u8,
    passes: u8,
) -> Result<Vec<Instance>, AllocError>
    ensures { IfOk result (λ instances. instances.items ≡ all_instances schedule.now most beyond.now passes) }
{
    let trips = u16::from(most) + u16::from(passes);
    let mut instances = instances_of(alloc, schedule, trips, u16::from(passes))?;
    let past = past_instances(alloc, &schedule.stages, schedule.interval, passes, beyond)?;
    instances.extend_from_slice(&past)?;
    Ok(instances)
}

/// How many iterations the serial loop makes.
fn trips_in(most: u8, passes: u8) -> u16
    ensures { result ≡ most + passes }
{
    u16::from(most) + u16::from(passes)
}

/// Whether the work keeps its distances in so many passes. What it uses is given with what is past the end behind it.
fn keeps_past(
    alloc: Global,
    work: &Work,
    schedule: &Schedule,
    beyond: &[Beyond],
    promise: Promise,
    most: u8,
    passes: u8,
) -> Result<bool, AllocError>
    ensures { IfOk result (λ kept. OnTrue kept (KeepsPast (promises promise) work.now schedule.now most beyond.now passes)) }
{
    let trips = trips_in(most, passes);
    let path = path_of(alloc, work, trips)?;
    let instances = all_instances(alloc, schedule, beyond, most, passes)?;
    let found = found_in(work, &path, &instances, promise, trips);
    match found {
        Distances::Kept => Ok(true),
        _ => Ok(false),
    }
}

/// Whether it does in one pass to three more than the prolog holds iterations.
fn keeps_all_past(
    alloc: Global,
    work: &Work,
    schedule: &Schedule,
    beyond: &[Beyond],
    promise: Promise,
    most: u8,
    deep: u8,
) -> Result<bool, AllocError>
    requires { deep ≤ 251 }
    ensures { IfOk result (λ kept. OnTrue kept (KeepsAllPast (promises promise) work.now schedule.now most deep beyond.now)) }
{
    for passes in 1..deep + 4 {
        if !keeps_past(alloc, work, schedule, beyond, promise, most, passes)? {
            return Ok(false);
        }
    }
    Ok(true)
}

/// The work, and what is past the end behind it.
fn with_past(alloc: Global, works: &Works, past: &[SerialInsn]) -> Result<Works, AllocError>
    ensures { IfOk result (IsLonger works.now past.now) }
{
    let mut behind = Vec::from_slice(alloc, &works.behind)?;
    behind.extend_from_slice(past)?;
    Ok(Works {
        before: Vec::from_slice(alloc, &works.before)?,
        body: Vec::from_slice(alloc, &works.body)?,
        behind,
    })
}

/// Whether the schedule holds the work, and of iterations past the last just this.
fn fits_past(
    layout: &Layout,
    works: &Works,
    schedule: &Schedule,
    beyond: &[Beyond],
    most: u8,
    deep: u8,
) -> bool
    ensures { OnTrue result (FitsPast layout.now works.now schedule.now beyond.now most deep) }
{
    has_interval(layout, schedule)
        && stand_for(&works.before, &schedule.before)
        && are_held(most, deep, &works.body, &schedule.stages, beyond)
        && are_begun(&schedule.stages, beyond)
        && stand_for(&works.behind, &schedule.behind)
        && has_landed(layout)
}

/// Whether the work and this behind it keep their distances.
fn keep_distances(
    alloc: Global,
    works: &Works,
    past: &[SerialInsn],
    schedule: &Schedule,
    beyond: &[Beyond],
    promise: Promise,
    most: u8,
    deep: u8,
) -> Result<bool, AllocError>
    ensures { IfOk result (λ kept. OnTrue kept (KeepDistancesPast (promises promise) works.now past.now schedule.now most deep beyond.now)) }
{
    if deep > 251 {
        return Ok(false);
    }
    let longer = with_past(alloc, works, past)?;
    let work = uses_in(alloc, &longer)?;
    keeps_all_past(alloc, &work, schedule, beyond, promise, most, deep)
}

ghost use Rattle.c62_loop_match.specs.Collapse.{KeepDistancesPast};

/// The work past the end that packets begin beside pipelining the loop, where this stands so in them: prolog and epilog hold of each instruction
/// as many iterations or some more, those past the last being these. `None` where they don't pipeline it so, or the work stores.
///
/// # Errors
///
/// `AllocError` where memory ran out.
fn collapsing(
    alloc: Global,
    region: &Region,
    pipelined: &Pipelined,
    schedule: &Schedule,
    control: &Control,
    beyond: &[Beyond],
    promise: Promise,
    most: u8,
    deep: u8,
) -> Result<Option<Vec<SerialInsn>>, AllocError>
    ensures same { IfOk result (λ found. IfSome found (λ past. IsCollapsing (promises promise) (region_of region.now) past.items (loop_of pipelined.now) most)) }
    ensures interval { IfOk result (λ found. IfSome found (λ past. schedule.now.interval ≡ interval (loop_of pipelined.now))) }
{
    let Some(layout) = layout_of(alloc, pipelined)? else {
        return Ok(None);
    };
    let works = works_of(alloc, region)?;
    if !fits_past(&layout, &works, schedule, beyond, most, deep) {
        return Ok(None);
    }
    let rule = Rule {
        counter: region.counter,
        interval: schedule.interval,
        most,
    };
    if !is_steering(rule, layout.prolog.end, pipelined, control) {
        return Ok(None);
    }
    if !begins(region.counter, &schedule.before, control) {
        return Ok(None);
    }
    if !holds_rows(alloc, &layout, schedule, control)? {
        return Ok(None);
    }
    let Some(other) = works.body.first() else {
        return Ok(None);
    };
    let past = past_work(alloc, &works.body, beyond, *other)?;
    if !store_nothing(&past) {
        return Ok(None);
    }
    if !keep_distances(alloc, &works, &past, schedule, beyond, promise, most, deep)? {
        return Ok(None);
    }
    Ok(Some(past))
}

ghost use Rattle.c62_loop.specs.Collapsed.{IsCollapsing};

/// The work past the end of packets that do what the loop does, but for what it leaves: the loop counts, the rows are those of packets of it, and these pipeline it
/// and begin these instances of iterations past the last, where all stands so in them. A pass of the kernel then takes the schedule's
/// interval.
///
/// # Errors
///
/// `AllocError` where memory ran out.
pub fn collapses(
    alloc: Global,
    region: &Region,
    pipelined: &Pipelined,
    schedule: &Schedule,
    control: &Control,
    beyond: &[Beyond],
    promise: Promise,
    most: u8,
    deep: u8,
) -> Result<Option<Vec<SerialInsn>>, AllocError>
    ensures same { IfOk result (λ found. IfSome found (λ past. Collapsed (promises promise) (region_of region.now) past.items (loop_of pipelined.now) most)) }
    ensures interval { IfOk result (λ found. IfSome found (λ past. schedule.now.interval ≡ interval (loop_of pipelined.now))) }
{
    if !is_counted_loop(region) {
        return Ok(None);
    }
    if !is_pipelined(pipelined) {
        return Ok(None);
    }
    collapsing(
        alloc, region, pipelined, schedule, control, beyond, promise, most, deep,
    )
}
