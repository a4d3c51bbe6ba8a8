//! Why each instruction isn't issued a cycle earlier.

ghost use Rattle.std.specs.Prelude.{◌≡◌, codes};
ghost use Rattle.std.specs.List.{flat_map};
ghost use Rattle.c62_json.specs.Document.{Adds};
ghost use Rattle.c62_json_packets.specs.Member.{array_member, object_member};
ghost use Rattle.c62_json_show.specs.Causes.{held_members, held_member, taken_members, taken_member, one_taken, all_taken, all_taken_member, standing, cause};

use crate::shown::push_empty;
use crate::words::{reason_words, resource_words};
use c62_json_packets::member::{
    begin_array, begin_object, push_null, push_number, push_signed, push_string,
};
use c62_why::{Cause, Held, Shortage, Taken, Why};
use json::Writer;
use std::alloc::{AllocError, Global};

/// Writes the members of a dependence that an instruction would break a cycle earlier.
#[tactic(auto, unfolding(crate::specs::Causes::held_members))]
fn push_held_members(alloc: Global, out: &mut Writer, held: &Held) -> Result<(), AllocError>
    ensures { Adds result out.old out.new (held_members held.now) }
{
    let because = reason_words(alloc, held.reason)?;
    push_number(out, "after", u64::from(held.after))?;
    push_signed(out, "needs", i64::from(held.needs))?;
    push_string(out, "because", because.as_str())
}

/// Writes the member of such a dependence.
#[tactic(auto, unfolding(c62_json_packets::specs::Member::object_member))]
fn push_held_told(alloc: Global, out: &mut Writer, held: &Held) -> Result<(), AllocError>
    ensures { Adds result out.old out.new (object_member (codes "held") (held_members held.now)) }
{
    begin_object(out, "held")?;
    push_held_members(alloc, out, held)?;
    out.end_object()
}

/// Writes the member of such a dependence, where there is one.
fn push_held(alloc: Global, out: &mut Writer, cause: &Cause) -> Result<(), AllocError>
    ensures { Adds result out.old out.new (held_member cause.now) }
{
    match cause {
        Cause::Held(held) => push_held_told(alloc, out, held),
        Cause::First | Cause::Taken(_) | Cause::Nothing => push_null(out, "held"),
    }
}

/// Writes the members of what others have taken.
#[tactic(auto, unfolding(crate::specs::Causes::taken_members))]
fn push_taken_members(alloc: Global, out: &mut Writer, taken: &Taken) -> Result<(), AllocError>
    ensures { Adds result out.old out.new (taken_members taken.now) }
{
    let resource = resource_words(alloc, taken.resource)?;
    push_string(out, "resource", resource.as_str())?;
    push_number(out, "by", u64::from(taken.by))
}

/// Writes the member of what others have taken.
#[tactic(auto, unfolding(c62_json_packets::specs::Member::object_member))]
fn push_taken_told(alloc: Global, out: &mut Writer, taken: &Taken) -> Result<(), AllocError>
    ensures { Adds result out.old out.new (object_member (codes "taken") (taken_members taken.now)) }
{
    begin_object(out, "taken")?;
    push_taken_members(alloc, out, taken)?;
    out.end_object()
}

/// Writes the member of what others have taken first, where that keeps an instruction.
fn push_taken(alloc: Global, out: &mut Writer, cause: &Cause) -> Result<(), AllocError>
    ensures { Adds result out.old out.new (taken_member cause.now) }
{
    match cause {
        Cause::Taken(shortage) => push_taken_told(alloc, out, &shortage.first),
        Cause::First | Cause::Held(_) | Cause::Nothing => push_null(out, "taken"),
    }
}

/// Writes what others have taken, as an element.
#[tactic(auto, unfolding(crate::specs::Causes::one_taken))]
fn push_one_taken(alloc: Global, out: &mut Writer, taken: &Taken) -> Result<(), AllocError>
    ensures { Adds result out.old out.new (one_taken taken.now) }
{
    out.begin_object()?;
    push_taken_members(alloc, out, taken)?;
    out.end_object()
}

/// Writes such elements, one behind the other.
fn push_each_taken(alloc: Global, out: &mut Writer, more: &[Taken]) -> Result<(), AllocError>
    ensures { Adds result out.old out.new (flat_map one_taken more.now) }
{
    for taken in more {
        push_one_taken(alloc, out, taken)?;
    }
    Ok(())
}

/// Writes a member of all that others have taken.
#[tactic(auto, unfolding(c62_json_packets::specs::Member::array_member, crate::specs::Causes::all_taken))]
fn push_shortage(
    alloc: Global,
    out: &mut Writer,
    name: &str,
    shortage: &Shortage,
) -> Result<(), AllocError>
    ensures { Adds result out.old out.new (array_member name.now (all_taken shortage.now)) }
{
    begin_array(out, name)?;
    push_one_taken(alloc, out, &shortage.first)?;
    push_each_taken(alloc, out, &shortage.more)?;
    out.end_array()
}

/// Writes the member of all that others have taken, which is empty where nothing of that keeps an instruction.
fn push_all_taken(alloc: Global, out: &mut Writer, cause: &Cause) -> Result<(), AllocError>
    ensures { Adds result out.old out.new (all_taken_member cause.now) }
{
    match cause {
        Cause::Taken(shortage) => push_shortage(alloc, out, "all_taken", shortage),
        Cause::First | Cause::Held(_) | Cause::Nothing => push_empty(out, "all_taken"),
    }
}

/// Writes where an instruction stands.
#[tactic(auto, unfolding(crate::specs::Causes::standing))]
fn push_standing(out: &mut Writer, why: &Why) -> Result<(), AllocError>
    ensures { Adds result out.old out.new (standing why.now) }
{
    push_number(out, "line", u64::from(why.line))?;
    push_number(out, "cycle", u64::from(why.cycle))?;
    push_number(out, "slack", u64::from(why.slack))
}

/// Writes where an instruction stands, and what keeps it there.
#[tactic(auto, unfolding(crate::specs::Causes::cause))]
fn push_cause(alloc: Global, out: &mut Writer, why: &Why) -> Result<(), AllocError>
    ensures { Adds result out.old out.new (cause why.now) }
{
    out.begin_object()?;
    push_standing(out, why)?;
    push_held(alloc, out, &why.cause)?;
    push_taken(alloc, out, &why.cause)?;
    push_all_taken(alloc, out, &why.cause)?;
    out.end_object()
}

/// Writes causes, one behind the other.
fn push_each(alloc: Global, out: &mut Writer, whys: &[Why]) -> Result<(), AllocError>
    ensures { Adds result out.old out.new (flat_map cause whys.now) }
{
    for why in whys {
        push_cause(alloc, out, why)?;
    }
    Ok(())
}

/// Writes the member of why each instruction isn't issued a cycle earlier; it is empty where that wasn't asked for.
#[tactic(auto, unfolding(c62_json_packets::specs::Member::array_member))]
pub(crate) fn push_causes(alloc: Global, out: &mut Writer, whys: &[Why]) -> Result<(), AllocError>
    ensures { Adds result out.old out.new (array_member (codes "causes") (flat_map cause whys.now)) }
{
    begin_array(out, "causes")?;
    push_each(alloc, out, whys)?;
    out.end_array()
}
