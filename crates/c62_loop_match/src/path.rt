//! The work of so many iterations in serial order, and its instances.

ghost use Rattle.std.specs.Prelude.{◌≡◌, ◌≤◌, ◌+◌, ◌*◌, map, length, slice_index_or, IfOk};
ghost use Rattle.c62_pair.specs.Uses.{insns_in};
ghost use Rattle.c62_loop.specs.Whole.{insns_in as insns_of_entries};
ghost use Rattle.c62_loop.specs.Stage.{cycles_in, instance_of, round_of, placed_of, insns_of};
ghost use Rattle.c62_loop_match.specs.Parts.{stage_of, schedule_of};
ghost use Rattle.c62_loop_match.specs.Path.{straights_of};

use crate::parts::{Schedule, Stage};
use c62_packet::Placed;
use c62_pair::Uses;
use c62_read::SerialInsn;
use std::alloc::{AllocError, Global};

/// What the work of a region uses.
#[derive(Drop)]
pub(crate) struct Work {
    /// That of the instructions before the loop.
    pub before: Vec<Uses>,
    /// Of those of its block.
    pub body: Vec<Uses>,
    /// Of those behind the loop.
    pub behind: Vec<Uses>,
}

/// What each of these instructions uses, in their order.
pub(crate) fn uses_of(alloc: Global, entries: &[SerialInsn]) -> Result<Vec<Uses>, AllocError>
    ensures { IfOk result (λ uses. insns_in uses.items ≡ insns_of_entries entries.now) }
{
    let mut uses = Vec::with_capacity(alloc, entries.len())?;
    for entry in entries {
        uses.push(Uses::new(entry.insn))?;
    }
    Ok(uses)
}

/// What the work of so many iterations uses, in serial order.
pub(crate) fn path_of(alloc: Global, work: &Work, trips: u16) -> Result<Vec<Uses>, AllocError>
    ensures { IfOk result (λ path. insns_in path.items ≡ insns_of (straights_of work.now) trips) }
{
    let mut path = Vec::from_slice(alloc, &work.before)?;
    for trip in 0..trips {
        path.extend_from_slice(&work.body)?;
    }
    path.extend_from_slice(&work.behind)?;
    Ok(path)
}

/// The cycles of so many passes.
fn cycles_in(interval: u16, passes: u16) -> u32
    ensures cycles { result ≡ cycles_in interval passes }
    ensures bound { result ≤ 65535 * 65535 }
{
    u32::from(interval) * u32::from(passes)
}

/// An instance in the epilog, and that in the kernel where there is none of this number.
fn late_instance(stage: &Stage, number: u16) -> Placed
    ensures { result ≡ slice_index_or stage.now.late.items number stage.now.kernel }
{
    match stage.late.get(usize::from(number)) {
        Some(placed) => *placed,
        None => stage.kernel,
    }
}

/// When an instance is issued, and its line.
#[derive(Clone, Copy)]
pub(crate) struct Instance {
    pub cycle: u32,
    pub line: u32,
}

/// An instruction as an instance, so many cycles later.
fn later(placed: &Placed, cycles: u32) -> Instance
    requires { cycles ≤ 65535 * 65535 }
    ensures { result ≡ instance (moved cycles placed.now) }
{
    Instance {
        cycle: cycles + u32::from(placed.cycle),
        line: placed.line,
    }
}

/// An instance that isn't in the prolog: that of this pass, or one in the epilog.
fn later_instance(stage: &Stage, interval: u16, passes: u16, pass: u16) -> Instance
    ensures { result ≡ instance (later_of interval passes pass (stage_of stage.now)) }
{
    if pass < passes {
        later(&stage.kernel, cycles_in(interval, pass))
    } else {
        later(
            &late_instance(stage, pass - passes),
            cycles_in(interval, passes),
        )
    }
}

ghost use Rattle.c62_meaning.specs.Cut.{moved};
ghost use Rattle.c62_loop_match.specs.Path.{instance, later_of};

/// The instance of an iteration.
pub(crate) fn instance_of(stage: &Stage, interval: u16, passes: u16, trip: u16) -> Instance
    ensures { result ≡ instance (instance_of interval passes trip (stage_of stage.now)) }
{
    match stage.early.get(usize::from(trip)) {
        Some(placed) => later(placed, 0),
        None => later_instance(stage, interval, passes, trip - stage.early.len() as u16),
    }
}

/// The instances of an iteration.
fn round_of(
    alloc: Global,
    schedule: &Schedule,
    passes: u16,
    trip: u16,
) -> Result<Vec<Instance>, AllocError>
    ensures { IfOk result (λ round. round.items ≡ map (λ stage. instance (instance_of schedule.now.interval passes trip (stage_of stage))) schedule.now.stages.items) }
{
    schedule
        .stages
        .iter()
        .map(|stage| instance_of(stage, schedule.interval, passes, trip))
        .collect(alloc)
}

/// These, so many cycles later.
fn straight_of(alloc: Global, placed: &[Placed], cycles: u32) -> Result<Vec<Instance>, AllocError>
    requires { cycles ≤ 65535 * 65535 }
    ensures { IfOk result (λ straight. straight.items ≡ map (λ p. instance (moved cycles p)) placed.now) }
{
    placed.iter().map(|each| later(each, cycles)).collect(alloc)
}

/// The instances of so many iterations, in serial order, where the kernel is passed so often.
pub(crate) fn instances_of(
    alloc: Global,
    schedule: &Schedule,
    trips: u16,
    passes: u16,
) -> Result<Vec<Instance>, AllocError>
    ensures { IfOk result (λ instances. instances.items ≡ map instance (placed_of (schedule_of schedule.now) trips passes)) }
{
    let mut instances = straight_of(alloc, &schedule.before, 0)?;
    for trip in 0..trips {
        let round = round_of(alloc, schedule, passes, trip)?;
        instances.extend_from_slice(&round)?;
    }
    let later = cycles_in(schedule.interval, passes);
    let behind = straight_of(alloc, &schedule.behind, later)?;
    instances.extend_from_slice(&behind)?;
    Ok(instances)
}
