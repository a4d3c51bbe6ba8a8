//! Whether packets pipeline a counted loop.

ghost use Rattle.std.specs.Prelude.{◌≡◌, ◌++◌, map, IfOk, IfSome, MatchOption};
ghost use Rattle.std.specs.Bool.{OnTrue};
ghost use Rattle.std.specs.List.{flat_map};
ghost use Rattle.c62_loop.specs.Counter.{work_of};
ghost use Rattle.c62_loop.specs.Loop.{IsCountedLoop, IsPipelined, interval};
ghost use Rattle.c62_loop.specs.Whole.{IsPipelining};
ghost use Rattle.c62_loop_match.specs.Parts.{region_of, loop_of, schedule_of, control_of, stage_of};
ghost use Rattle.c62_loop_match.specs.Promise.{promises};
ghost use Rattle.c62_loop_match.specs.Decide.{IsLayout, HoldsWork, HoldsRows, Decided, IsWork};

use crate::begins::begins;
use crate::counted::{is_counted_loop, work_of};
use crate::distances::{Distances, distances_of};
use crate::layout::{Laid, is_drained, is_pipelined, lay_out};
use crate::members::are_one_set;
use crate::parts::{Control, Pipelined, Region, Schedule, Stage};
use crate::path::{Work, uses_of};
use crate::promise::Promise;
use crate::stands::{are_stages_of, stand_for};
use crate::steering::{Rule, is_steering};
use c62_packet::Placed;
use c62_read::SerialInsn;
use std::alloc::{AllocError, Global};

/// What the rows of prolog, kernel and epilog issue.
#[derive(Drop)]
pub(crate) struct Layout {
    /// The prolog's, from cycle 0 on.
    pub prolog: Laid,
    /// Those of the kernel's first pass.
    pub kernel: Laid,
    /// The epilog's, where the kernel isn't passed.
    pub epilog: Laid,
    /// The epilog's, where it is passed once.
    pub after: Laid,
}

/// What the rows of a loop issue. `None` where the text has fewer, or a cycle is too great.
///
/// # Errors
///
/// `AllocError` where memory ran out.
pub(crate) fn layout_of(alloc: Global, pipelined: &Pipelined) -> Result<Option<Layout>, AllocError>
    ensures { IfOk result (λ found. IfSome found (IsLayout (loop_of pipelined.now))) }
{
    let rows = &pipelined.rows;
    let kernel_row = pipelined.first as usize + pipelined.prolog as usize;
    let epilog_row = kernel_row + pipelined.kernel as usize;
    let count = pipelined.epilog as usize;
    let Some(prolog) = lay_out(
        alloc,
        rows,
        pipelined.first as usize,
        pipelined.prolog as usize,
        0,
    )?
    else {
        return Ok(None);
    };
    let Some(kernel) = lay_out(
        alloc,
        rows,
        kernel_row,
        pipelined.kernel as usize,
        prolog.end,
    )?
    else {
        return Ok(None);
    };
    let Some(epilog) = lay_out(alloc, rows, epilog_row, count, prolog.end)? else {
        return Ok(None);
    };
    let Some(after) = lay_out(alloc, rows, epilog_row, count, kernel.end)? else {
        return Ok(None);
    };
    Ok(Some(Layout {
        prolog,
        kernel,
        epilog,
        after,
    }))
}

/// The instructions above the label of a region, and those of the rest that are work.
#[derive(Drop)]
pub(crate) struct Works {
    pub before: Vec<SerialInsn>,
    pub body: Vec<SerialInsn>,
    pub behind: Vec<SerialInsn>,
}

pub(crate) fn works_of(alloc: Global, region: &Region) -> Result<Works, AllocError>
    ensures { IfOk result (IsWork (region_of region.now)) }
{
    Ok(Works {
        before: Vec::from_slice(alloc, &region.before)?,
        body: work_of(alloc, region.counter, &region.body)?,
        behind: work_of(alloc, region.counter, &region.behind)?,
    })
}

/// Whether a schedule holds this work, one for one.
pub(crate) fn holds_work(works: &Works, schedule: &Schedule, most: u8) -> bool
    ensures { OnTrue result (HoldsWork works.now.before.items works.now.body.items works.now.behind.items (schedule_of schedule.now) most) }
{
    stand_for(&works.before, &schedule.before)
        && are_stages_of(usize::from(most), &works.body, &schedule.stages)
        && stand_for(&works.behind, &schedule.behind)
}

/// What stands in the prolog.
fn in_prolog(
    alloc: Global,
    schedule: &Schedule,
    control: &Control,
) -> Result<Vec<Placed>, AllocError>
    ensures { IfOk result (λ placed. placed.items ≡ control.now.early.items ++ (schedule.now.before.items ++ flat_map (λ stage. stage.early.items) schedule.now.stages.items)) }
{
    let mut placed = Vec::from_slice(alloc, &control.early)?;
    placed.extend_from_slice(&schedule.before)?;
    for stage in &schedule.stages {
        placed.extend_from_slice(&stage.early)?;
    }
    Ok(placed)
}

/// The instances in the kernel.
fn kernels(alloc: Global, stages: &[Stage]) -> Result<Vec<Placed>, AllocError>
    ensures { IfOk result (λ placed. placed.items ≡ map (λ stage. stage.kernel) stages.now) }
{
    let mut placed = Vec::with_capacity(alloc, stages.len())?;
    for stage in stages {
        placed.push(stage.kernel)?;
    }
    Ok(placed)
}

/// What stands in the kernel.
fn in_kernel(
    alloc: Global,
    schedule: &Schedule,
    control: &Control,
) -> Result<Vec<Placed>, AllocError>
    ensures { IfOk result (λ placed. placed.items ≡ control.now.kernel.items ++ map (λ stage. stage.kernel) schedule.now.stages.items) }
{
    let mut placed = Vec::from_slice(alloc, &control.kernel)?;
    placed.extend_from_slice(&kernels(alloc, &schedule.stages)?)?;
    Ok(placed)
}

/// What stands in the epilog.
fn in_epilog(alloc: Global, schedule: &Schedule) -> Result<Vec<Placed>, AllocError>
    ensures { IfOk result (λ placed. placed.items ≡ flat_map (λ stage. stage.late.items) schedule.now.stages.items ++ schedule.now.behind.items) }
{
    let mut placed = Vec::new(alloc);
    for stage in &schedule.stages {
        placed.extend_from_slice(&stage.late)?;
    }
    placed.extend_from_slice(&schedule.behind)?;
    Ok(placed)
}

/// Whether the rows hold these, part by part.
fn hold_these(layout: &Layout, prolog: &[Placed], kernel: &[Placed], epilog: &[Placed]) -> bool
    ensures { OnTrue result (HoldThese layout.now prolog.now kernel.now epilog.now) }
{
    if !are_one_set(&layout.prolog.issued, prolog) {
        return false;
    }
    if !are_one_set(&layout.kernel.issued, kernel) {
        return false;
    }
    are_one_set(&layout.epilog.issued, epilog)
}

ghost use Rattle.c62_loop_match.specs.Decide.{HoldThese};

/// Whether the rows hold the schedule and the control, and nothing else.
pub(crate) fn holds_rows(
    alloc: Global,
    layout: &Layout,
    schedule: &Schedule,
    control: &Control,
) -> Result<bool, AllocError>
    ensures { IfOk result (λ holds. OnTrue holds (HoldsRows layout.now (schedule_of schedule.now) (control_of control.now))) }
{
    let prolog = in_prolog(alloc, schedule, control)?;
    let kernel = in_kernel(alloc, schedule, control)?;
    let epilog = in_epilog(alloc, schedule)?;
    Ok(hold_these(layout, &prolog, &kernel, &epilog))
}

/// Whether all has landed when the epilog is over, where the kernel is passed once.
pub(crate) fn has_landed(layout: &Layout) -> bool
    ensures { OnTrue result (HasLanded layout.now) }
{
    is_drained(layout.after.end, &layout.prolog.issued)
        && is_drained(layout.after.end, &layout.kernel.issued)
        && is_drained(layout.after.end, &layout.after.issued)
}

ghost use Rattle.c62_loop_match.specs.Decide.{HasLanded};

/// Whether so many cycles lie between two passes.
pub(crate) fn has_interval(layout: &Layout, schedule: &Schedule) -> bool
    ensures { OnTrue result (layout.now.prolog.end + schedule.now.interval ≡ layout.now.kernel.end) }
{
    layout.prolog.end.checked_add(schedule.interval) == Some(layout.kernel.end)
}

ghost use Rattle.std.specs.Prelude.{◌+◌};

/// Whether the schedule holds the work, its passes are as far apart as the kernel is long, and all has landed at the end.
fn fits(layout: &Layout, works: &Works, schedule: &Schedule, most: u8) -> bool
    ensures { OnTrue result (Fits layout.now works.now.before.items works.now.body.items works.now.behind.items (schedule_of schedule.now) most) }
{
    has_interval(layout, schedule) && holds_work(works, schedule, most) && has_landed(layout)
}

ghost use Rattle.c62_loop_match.specs.Decide.{Fits};

/// What the work uses.
pub(crate) fn uses_in(alloc: Global, works: &Works) -> Result<Work, AllocError>
    ensures { IfOk result (λ work. straights_of work ≡ record { before = insns_of_entries works.now.before.items; body = insns_of_entries works.now.body.items; behind = insns_of_entries works.now.behind.items }) }
{
    Ok(Work {
        before: uses_of(alloc, &works.before)?,
        body: uses_of(alloc, &works.body)?,
        behind: uses_of(alloc, &works.behind)?,
    })
}

ghost use Rattle.c62_loop.specs.Whole.{insns_in as insns_of_entries};
ghost use Rattle.c62_loop.specs.Stage.{Straights};
ghost use Rattle.c62_loop_match.specs.Path.{straights_of};

/// Whether the work, in whatever number of passes is asked, keeps its distances.
fn keeps(
    alloc: Global,
    works: &Works,
    schedule: &Schedule,
    promise: Promise,
    most: u8,
) -> Result<bool, AllocError>
    ensures { IfOk result (λ kept. OnTrue kept (Keeps (promises promise) works.now.before.items works.now.body.items works.now.behind.items (schedule_of schedule.now) most)) }
{
    let work = uses_in(alloc, works)?;
    match distances_of(alloc, &work, schedule, promise, most)? {
        Distances::Kept => Ok(true),
        _ => Ok(false),
    }
}

ghost use Rattle.c62_loop_match.specs.Decide.{Keeps};

/// Whether the packets pipeline the loop, where this stands so in them: prolog and epilog hold so many iterations of each
/// instruction, and each pass of the kernel one.
///
/// # Errors
///
/// `AllocError` where memory ran out.
fn is_pipelining(
    alloc: Global,
    region: &Region,
    pipelined: &Pipelined,
    schedule: &Schedule,
    control: &Control,
    promise: Promise,
    most: u8,
) -> Result<bool, AllocError>
    ensures same { IfOk result (λ same. OnTrue same (IsPipelining (promises promise) (region_of region.now) (loop_of pipelined.now) most)) }
    ensures interval { IfOk result (λ same. OnTrue same (schedule.now.interval ≡ interval (loop_of pipelined.now))) }
{
    let Some(layout) = layout_of(alloc, pipelined)? else {
        return Ok(false);
    };
    let works = works_of(alloc, region)?;
    if !fits(&layout, &works, schedule, most) {
        return Ok(false);
    }
    let rule = Rule {
        counter: region.counter,
        interval: schedule.interval,
        most,
    };
    if !is_steering(rule, layout.prolog.end, pipelined, control) {
        return Ok(false);
    }
    if !begins(region.counter, &schedule.before, control) {
        return Ok(false);
    }
    if !holds_rows(alloc, &layout, schedule, control)? {
        return Ok(false);
    }
    keeps(alloc, &works, schedule, promise, most)
}

/// Whether the loop counts, the rows are those of packets of it, and these pipeline it, where this stands so in them. A pass of the
/// kernel then takes the schedule's interval.
///
/// # Errors
///
/// `AllocError` where memory ran out.
pub fn decide(
    alloc: Global,
    region: &Region,
    pipelined: &Pipelined,
    schedule: &Schedule,
    control: &Control,
    promise: Promise,
    most: u8,
) -> Result<bool, AllocError>
    ensures same { IfOk result (λ same. OnTrue same (Decided (promises promise) (region_of region.now) (loop_of pipelined.now) most)) }
    ensures interval { IfOk result (λ same. OnTrue same (schedule.now.interval ≡ interval (loop_of pipelined.now))) }
{
    if !is_counted_loop(region) {
        return Ok(false);
    }
    if !is_pipelined(pipelined) {
        return Ok(false);
    }
    is_pipelining(alloc, region, pipelined, schedule, control, promise, most)
}
