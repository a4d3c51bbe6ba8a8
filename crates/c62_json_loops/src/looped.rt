//! A loop, as an object.

ghost use Rattle.std.specs.Prelude.{◌≡◌, [], ◌∷◌, codes};
ghost use Rattle.json.specs.Token.{key, string};
ghost use Rattle.c62_json.specs.Document.{Adds, text};
ghost use Rattle.c62_json_loops.specs.Loops.{loop_members, loop_object, reason_members, trip_members, word_members, word_of};

use crate::but::push_but;
use crate::early::push_early;
use crate::member::push_maybe;
use crate::verdict::{but_of, cycles_of, early_of, line_of, trips_of, word_of};
use c62_check_loop::LoopVerdict;
use c62_check_loops::Reading;
use c62_json::push_text;
use c62_line::Label;
use c62_read::SerialInsn;
use json::Writer;
use std::alloc::{AllocError, Global};

/// The label of a loop, as a member.
fn push_label(alloc: Global, out: &mut Writer, label: &Label) -> Result<(), AllocError>
    ensures { Adds result out.old out.new (key (codes "loop") ∷ text label.now ∷ []) }
{
    out.key("loop")?;
    push_text(alloc, out, label.as_bytes())
}

/// The word of a verdict, as a member.
fn push_verdict(out: &mut Writer, verdict: LoopVerdict) -> Result<(), AllocError>
    ensures { Adds result out.old out.new (key (codes "verdict") ∷ string (word_of verdict) ∷ []) }
{
    out.key("verdict")?;
    out.string(word_of(verdict))
}

/// Which loop, and what is told of it.
#[tactic(auto, unfolding(crate::specs::Loops::word_members))]
fn push_word(
    alloc: Global,
    out: &mut Writer,
    label: &Label,
    verdict: LoopVerdict,
) -> Result<(), AllocError>
    ensures { Adds result out.old out.new (word_members label.now verdict) }
{
    push_label(alloc, out, label)?;
    push_verdict(out, verdict)
}

/// From how many trips on the packets do the same, and in how many cycles.
#[tactic(auto, unfolding(crate::specs::Loops::trip_members))]
fn push_trips(out: &mut Writer, verdict: LoopVerdict) -> Result<(), AllocError>
    ensures { Adds result out.old out.new (trip_members verdict) }
{
    push_maybe(out, "trips", trips_of(verdict))?;
    push_maybe(out, "cycles", cycles_of(verdict))
}

/// For which registers they don't, or why they don't.
#[tactic(auto, unfolding(crate::specs::Loops::reason_members))]
fn push_reason(
    alloc: Global,
    out: &mut Writer,
    block: &[SerialInsn],
    verdict: LoopVerdict,
    readings: &[Reading],
) -> Result<(), AllocError>
    ensures { Adds result out.old out.new (reason_members block.now verdict readings.now) }
{
    push_but(alloc, out, but_of(verdict), block, readings)?;
    push_maybe(out, "line", line_of(verdict))?;
    push_early(out, early_of(verdict))
}

#[tactic(auto, unfolding(crate::specs::Loops::loop_members))]
fn push_members(
    alloc: Global,
    out: &mut Writer,
    label: &Label,
    block: &[SerialInsn],
    verdict: LoopVerdict,
    readings: &[Reading],
) -> Result<(), AllocError>
    ensures { Adds result out.old out.new (loop_members label.now block.now verdict readings.now) }
{
    push_word(alloc, out, label, verdict)?;
    push_trips(out, verdict)?;
    push_reason(alloc, out, block, verdict, readings)
}

/// Writes the object of the loop of a label, whose block this is, where so much may read what it leaves otherwise.
///
/// # Errors
///
/// `AllocError` where memory ran out.
pub fn push_loop(
    alloc: Global,
    out: &mut Writer,
    label: &Label,
    block: &[SerialInsn],
    verdict: LoopVerdict,
    readings: &[Reading],
) -> Result<(), AllocError>
    ensures { Adds result out.old out.new (loop_object label.now block.now verdict readings.now) }
{
    out.begin_object()?;
    push_members(alloc, out, label, block, verdict, readings)?;
    out.end_object()
}
