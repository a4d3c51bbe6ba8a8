//! An instance that comes too early, as an object.

ghost use Rattle.std.specs.Prelude.{◌≡◌, ◌∷◌, codes};
ghost use Rattle.json.specs.Token.{key};
ghost use Rattle.c62_json.specs.Document.{Adds, object};
ghost use Rattle.c62_json_loops.specs.Loops.{early_cycles, early_distance, early_lines, early_members, early_value};

use crate::member::{push_cycles, push_number};
use c62_json::push_missing;
use c62_loop_match::Early;
use json::Writer;
use std::alloc::AllocError;

/// Its line and that of the other.
#[tactic(auto, unfolding(crate::specs::Loops::early_lines))]
fn push_lines(out: &mut Writer, early: &Early) -> Result<(), AllocError>
    ensures { Adds result out.old out.new (early_lines early.now) }
{
    push_number(out, "line", u64::from(early.line))?;
    push_number(out, "after", u64::from(early.after))
}

/// How many cycles must lie between them, and do.
#[tactic(auto, unfolding(crate::specs::Loops::early_cycles))]
fn push_gap(out: &mut Writer, early: &Early) -> Result<(), AllocError>
    ensures { Adds result out.old out.new (early_cycles early.now) }
{
    push_cycles(out, "needs", i64::from(early.needs))?;
    push_cycles(out, "has", early.has)
}

/// That, and how many iterations they are apart.
#[tactic(auto, unfolding(crate::specs::Loops::early_distance))]
fn push_distance(out: &mut Writer, early: &Early) -> Result<(), AllocError>
    ensures { Adds result out.old out.new (early_distance early.now) }
{
    push_gap(out, early)?;
    push_number(out, "apart", early.apart)
}

/// All that is told of it.
#[tactic(auto, unfolding(crate::specs::Loops::early_members))]
fn push_members(out: &mut Writer, early: &Early) -> Result<(), AllocError>
    ensures { Adds result out.old out.new (early_members early.now) }
{
    push_lines(out, early)?;
    push_distance(out, early)
}

fn push_object(out: &mut Writer, early: &Early) -> Result<(), AllocError>
    ensures { Adds result out.old out.new (object (early_members early.now)) }
{
    out.begin_object()?;
    push_members(out, early)?;
    out.end_object()
}

/// The member of an instance that comes too early, where there is one.
#[tactic(auto, unfolding(crate::specs::Loops::early_value))]
pub(crate) fn push_early(out: &mut Writer, early: Option<Early>) -> Result<(), AllocError>
    ensures { Adds result out.old out.new (key (codes "early") ∷ early_value early) }
{
    out.key("early")?;
    match early {
        Some(early) => push_object(out, &early),
        None => push_missing(out),
    }
}
