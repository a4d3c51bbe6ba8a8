//! Whether the work of a region stands in a schedule.

ghost use Rattle.std.specs.Prelude.{◌≡◌, ◌↔◌, All, IsTrue};
ghost use Rattle.std.specs.Bool.{OnTrue};
ghost use Rattle.c62_meaning.specs.Laws.{StandsAs};
ghost use Rattle.c62_loop.specs.Whole.{StandFor, IsStageOf, AreStagesOf};
ghost use Rattle.c62_loop_match.specs.Parts.{stage_of};
ghost use Rattle.std.specs.Prelude.{map};

use crate::parts::Stage;
use c62_packet::Placed;
use c62_read::SerialInsn;

/// Whether a placed instruction is this one of the text, with its line.
pub(crate) fn stands_as(entry: &SerialInsn, placed: &Placed) -> bool
    ensures { IsTrue result ↔ StandsAs entry.now placed.now }
{
    entry.insn.same_but_for_the_unit(&placed.insn) && entry.line == placed.line
}

/// Whether each of these is.
pub(crate) fn all_stand_as(entry: &SerialInsn, placed: &[Placed]) -> bool
    ensures { IsTrue result ↔ All (StandsAs entry.now) placed.now }
{
    placed.iter().all(|each| stands_as(entry, each))
}

/// Whether these stand for the instructions, one for one.
pub(crate) fn stand_for(entries: &[SerialInsn], placed: &[Placed]) -> bool
    ensures { OnTrue result (StandFor entries.now placed.now) }
{
    if entries.len() != placed.len() {
        return false;
    }
    for number in 0..entries.len() {
        if !stands_as(&entries[number], &placed[number]) {
            return false;
        }
    }
    true
}

/// Whether each instance is of this instruction, and prolog and epilog hold those of so many iterations.
fn is_stage_of(most: usize, entry: &SerialInsn, stage: &Stage) -> bool
    ensures { OnTrue result (IsStageOf most entry.now (stage_of stage.now)) }
{
    all_stand_as(entry, &stage.early)
        && stands_as(entry, &stage.kernel)
        && all_stand_as(entry, &stage.late)
        && stage.early.len().checked_add(stage.late.len()) == Some(most)
}

/// Whether it is so of each instruction of the loop.
pub(crate) fn are_stages_of(most: usize, entries: &[SerialInsn], stages: &[Stage]) -> bool
    ensures { OnTrue result (AreStagesOf most entries.now (map stage_of stages.now)) }
{
    if entries.len() != stages.len() {
        return false;
    }
    for number in 0..entries.len() {
        if !is_stage_of(most, &entries[number], &stages[number]) {
            return false;
        }
    }
    true
}
