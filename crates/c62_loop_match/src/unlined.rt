//! Instructions without their lines.

ghost use Rattle.std.specs.Prelude.{◌≡◌, map, IfOk};
ghost use Rattle.c62_loop_match.specs.Parts.{stage_of, schedule_of};
ghost use Rattle.c62_loop_match.specs.Reading.{unlined, entry_unlined, stage_unlined, schedule_unlined};

use crate::parts::{Schedule, Stage};
use c62_packet::Placed;
use c62_read::SerialInsn;
use std::alloc::{AllocError, Global};

fn entry_unlined(entry: &SerialInsn) -> SerialInsn
    ensures { result ≡ entry_unlined entry.now }
{
    SerialInsn {
        insn: entry.insn,
        line: 0,
    }
}

pub(crate) fn entries_unlined(
    alloc: Global,
    entries: &[SerialInsn],
) -> Result<Vec<SerialInsn>, AllocError>
    ensures { IfOk result (λ plain. plain.items ≡ map entry_unlined entries.now) }
{
    let mut plain = Vec::with_capacity(alloc, entries.len())?;
    for entry in entries {
        plain.push(entry_unlined(entry))?;
    }
    Ok(plain)
}

fn unlined(placed: &Placed) -> Placed
    ensures { result ≡ unlined placed.now }
{
    Placed { line: 0, ..*placed }
}

fn all_unlined(alloc: Global, placed: &[Placed]) -> Result<Vec<Placed>, AllocError>
    ensures { IfOk result (λ plain. plain.items ≡ map unlined placed.now) }
{
    let mut plain = Vec::with_capacity(alloc, placed.len())?;
    for each in placed {
        plain.push(unlined(each))?;
    }
    Ok(plain)
}

fn stage_unlined(alloc: Global, stage: &Stage) -> Result<Stage, AllocError>
    ensures { IfOk result (λ plain. stage_of plain ≡ stage_unlined (stage_of stage.now)) }
{
    Ok(Stage {
        early: all_unlined(alloc, &stage.early)?,
        kernel: unlined(&stage.kernel),
        late: all_unlined(alloc, &stage.late)?,
    })
}

fn stages_unlined(alloc: Global, stages: &[Stage]) -> Result<Vec<Stage>, AllocError>
    ensures { IfOk result (λ plain. map stage_of plain.items ≡ map (λ stage. stage_unlined (stage_of stage)) stages.now) }
{
    let mut plain = Vec::with_capacity(alloc, stages.len())?;
    for stage in stages {
        plain.push(stage_unlined(alloc, stage)?)?;
    }
    Ok(plain)
}

/// The schedule whose instances have no lines.
///
/// # Errors
///
/// `AllocError` where memory ran out.
pub(crate) fn schedule_unlined(alloc: Global, schedule: &Schedule) -> Result<Schedule, AllocError>
    ensures { IfOk result (λ plain. schedule_of plain ≡ schedule_unlined (schedule_of schedule.now)) }
{
    Ok(Schedule {
        before: all_unlined(alloc, &schedule.before)?,
        stages: stages_unlined(alloc, &schedule.stages)?,
        behind: all_unlined(alloc, &schedule.behind)?,
        interval: schedule.interval,
    })
}
