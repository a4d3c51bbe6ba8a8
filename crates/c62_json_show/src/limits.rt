//! How short a schedule of a block can be at best, and why.

ghost use Rattle.std.specs.Prelude.{◌≡◌, map, codes};
ghost use Rattle.std.specs.List.{flat_map};
ghost use Rattle.c62_json.specs.Document.{Adds, count};
ghost use Rattle.c62_json_packets.specs.Member.{array_member, object_member};
ghost use Rattle.c62_json_show.specs.Limits.{step_members, step, path_told, need_members, units_member, known_members, unknown_members, limits_members};

use crate::words::shared_words;
use c62_bound::Need;
use c62_json::push_count;
use c62_json_packets::member::{
    begin_array, begin_object, push_null, push_number, push_signed, push_string,
};
use c62_show::words::{is_told, room_name};
use c62_show::{Limits, Step};
use json::Writer;
use std::alloc::{AllocError, Global};

/// Writes numbers of lines, one behind the other.
fn push_each_line(out: &mut Writer, lines: &[u32]) -> Result<(), AllocError>
    ensures { Adds result out.old out.new (map count lines.now) }
{
    for line in lines {
        push_count(out, u64::from(*line))?;
    }
    Ok(())
}

/// Writes the member of the lines of a path.
#[tactic(auto, unfolding(c62_json_packets::specs::Member::array_member))]
fn push_lines(out: &mut Writer, lines: &[u32]) -> Result<(), AllocError>
    ensures { Adds result out.old out.new (array_member (codes "lines") (map count lines.now)) }
{
    begin_array(out, "lines")?;
    push_each_line(out, lines)?;
    out.end_array()
}

/// Writes the members of a step: the next line, how many cycles it comes behind at least, and for what.
#[tactic(auto, unfolding(crate::specs::Limits::step_members))]
fn push_step_members(alloc: Global, out: &mut Writer, next: &Step) -> Result<(), AllocError>
    ensures { Adds result out.old out.new (step_members next.now) }
{
    let shared = shared_words(alloc, next.reason)?;
    push_number(out, "line", u64::from(next.line))?;
    push_signed(out, "cycles", i64::from(next.cycles))?;
    push_string(out, "shares", shared.as_str())
}

/// Writes a step of a path.
fn push_step(alloc: Global, out: &mut Writer, next: &Step) -> Result<(), AllocError>
    ensures { Adds result out.old out.new (step next.now) }
{
    out.begin_object()?;
    push_step_members(alloc, out, next)?;
    out.end_object()
}

/// Writes steps, one behind the other.
fn push_each_step(alloc: Global, out: &mut Writer, steps: &[Step]) -> Result<(), AllocError>
    ensures { Adds result out.old out.new (flat_map step steps.now) }
{
    for step in steps {
        push_step(alloc, out, step)?;
    }
    Ok(())
}

/// Writes the member of the steps of a path.
#[tactic(auto, unfolding(c62_json_packets::specs::Member::array_member))]
fn push_steps(alloc: Global, out: &mut Writer, steps: &[Step]) -> Result<(), AllocError>
    ensures { Adds result out.old out.new (array_member (codes "steps") (flat_map step steps.now)) }
{
    begin_array(out, "steps")?;
    push_each_step(alloc, out, steps)?;
    out.end_array()
}

/// Writes the member of the critical path.
#[tactic(auto, unfolding(crate::specs::Limits::path_told, c62_json_packets::specs::Member::object_member))]
fn push_path(alloc: Global, out: &mut Writer, limits: &Limits) -> Result<(), AllocError>
    ensures { Adds result out.old out.new (path_told limits.now) }
{
    begin_object(out, "path")?;
    push_number(out, "cycles", u64::from(limits.path_length))?;
    push_lines(out, &limits.path)?;
    push_steps(alloc, out, &limits.steps)?;
    out.end_object()
}

/// Writes the members of a need: its cycles, and how many instructions wait for what.
#[tactic(auto, unfolding(crate::specs::Limits::need_members))]
fn push_need_members(out: &mut Writer, need: Need) -> Result<(), AllocError>
    ensures { Adds result out.old out.new (need_members need) }
{
    push_number(out, "cycles", u64::from(need.cycles()))?;
    push_number(out, "count", u64::from(need.count))?;
    push_string(out, "on", room_name(need.kind, need.side))?;
    push_number(out, "behind", u64::from(need.tail))
}

/// Writes the member of a need.
#[tactic(auto, unfolding(c62_json_packets::specs::Member::object_member))]
fn push_need(out: &mut Writer, need: Need) -> Result<(), AllocError>
    ensures { Adds result out.old out.new (object_member (codes "units") (need_members need)) }
{
    begin_object(out, "units")?;
    push_need_members(out, need)?;
    out.end_object()
}

/// Writes the member of the greatest need, where it is told.
fn push_units(out: &mut Writer, need: Option<Need>) -> Result<(), AllocError>
    ensures { Adds result out.old out.new (units_member need) }
{
    match need {
        Some(need) if is_told(need) => push_need(out, need),
        _ => push_null(out, "units"),
    }
}

/// Writes the members of what is known.
#[tactic(auto, unfolding(crate::specs::Limits::known_members))]
fn push_known(alloc: Global, out: &mut Writer, limits: &Limits) -> Result<(), AllocError>
    ensures { Adds result out.old out.new (known_members limits.now) }
{
    push_number(out, "bound", u64::from(limits.least()))?;
    push_path(alloc, out, limits)?;
    push_units(out, limits.need)
}

/// Writes the members of what isn't known.
#[tactic(auto, unfolding(crate::specs::Limits::unknown_members))]
fn push_unknown(out: &mut Writer) -> Result<(), AllocError>
    ensures { Adds result out.old out.new unknown_members }
{
    push_null(out, "bound")?;
    push_null(out, "path")?;
    push_null(out, "units")
}

/// Writes the members of how short a schedule of a block can be at best, where that is known.
pub(crate) fn push_limits(
    alloc: Global,
    out: &mut Writer,
    limits: &Option<Limits>,
) -> Result<(), AllocError>
    ensures { Adds result out.old out.new (limits_members limits.now) }
{
    match limits {
        Some(limits) => push_known(alloc, out, limits),
        None => push_unknown(out),
    }
}
