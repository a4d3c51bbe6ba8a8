//! What is told of a block, as an object.

ghost use Rattle.std.specs.Prelude.{◌≡◌, [], ◌∷◌, codes};
ghost use Rattle.std.specs.List.{flat_map};
ghost use Rattle.json.specs.Token.{key, string};
ghost use Rattle.c62_json.specs.Document.{Adds, array, count, object, text};
ghost use Rattle.c62_reason.specs.Words.{reason_words};
ghost use Rattle.c62_json_check.specs.Blocks.{early_ends, early_lines, early_members, line_value, signed, told, verdict_object};

use crate::reason::reason_words;
use c62_check::{Early, Verdict};
use c62_json::{push_count, push_missing, push_signed, push_text};
use c62_reason::Reason;
use json::Writer;
use std::alloc::{AllocError, Global};

/// A member that is a number.
fn push_number(out: &mut Writer, name: &str, number: u64) -> Result<(), AllocError>
    ensures { Adds result out.old out.new (key name.now ∷ count number ∷ []) }
{
    out.key(name)?;
    push_count(out, number)
}

/// A member that is a number of cycles.
fn push_cycles(out: &mut Writer, name: &str, cycles: i32) -> Result<(), AllocError>
    ensures { Adds result out.old out.new (key name.now ∷ signed cycles ∷ []) }
{
    out.key(name)?;
    push_signed(out, i64::from(cycles))
}

/// Which lines an instruction that comes too early, and the other, have.
#[tactic(auto, unfolding(crate::specs::Blocks::early_lines))]
fn push_early_lines(out: &mut Writer, early: &Early) -> Result<(), AllocError>
    ensures { Adds result out.old out.new (early_lines early.now) }
{
    push_number(out, "line", u64::from(early.line))?;
    push_number(out, "after", u64::from(early.after))
}

/// Why it must come so late, in words.
fn push_because(alloc: Global, out: &mut Writer, reason: Reason) -> Result<(), AllocError>
    ensures { Adds result out.old out.new (key (codes "because") ∷ text (reason_words reason) ∷ []) }
{
    let words = reason_words(alloc, reason)?;
    out.key("because")?;
    push_text(alloc, out, &words)
}

/// How many cycles must lie between them, and do, and why.
#[tactic(auto, unfolding(crate::specs::Blocks::early_ends))]
fn push_early_ends(alloc: Global, out: &mut Writer, early: &Early) -> Result<(), AllocError>
    ensures { Adds result out.old out.new (early_ends early.now) }
{
    push_cycles(out, "needs", early.needs)?;
    push_cycles(out, "has", early.has)?;
    push_because(alloc, out, early.reason)
}

/// An instruction that comes too early.
#[tactic(auto, unfolding(crate::specs::Blocks::early_members))]
fn push_early(alloc: Global, out: &mut Writer, early: &Early) -> Result<(), AllocError>
    ensures { Adds result out.old out.new (object (early_members early.now)) }
{
    out.begin_object()?;
    push_early_lines(out, early)?;
    push_early_ends(alloc, out, early)?;
    out.end_object()
}

/// All that come too early.
fn push_all_early(alloc: Global, out: &mut Writer, early: &[Early]) -> Result<(), AllocError>
    ensures { Adds result out.old out.new (flat_map (λ each. object (early_members each)) early.now) }
{
    for each in early {
        push_early(alloc, out, each)?;
    }
    Ok(())
}

/// The line of which a verdict speaks, where it speaks of one, as a member.
#[tactic(auto, unfolding(crate::specs::Blocks::line_value))]
fn push_line(out: &mut Writer, line: Option<u32>) -> Result<(), AllocError>
    ensures { Adds result out.old out.new (key (codes "line") ∷ line_value line ∷ []) }
{
    out.key("line")?;
    match line {
        Some(line) => push_count(out, u64::from(line)),
        None => push_missing(out),
    }
}

/// The word of a verdict, as a member.
fn push_word(out: &mut Writer, word: &str) -> Result<(), AllocError>
    ensures { Adds result out.old out.new (key (codes "verdict") ∷ string word.now ∷ []) }
{
    out.key("verdict")?;
    out.string(word)
}

/// What comes too early of a block, as a member.
fn push_early_member(alloc: Global, out: &mut Writer, early: &[Early]) -> Result<(), AllocError>
    ensures { Adds result out.old out.new (key (codes "early") ∷ array (flat_map (λ each. object (early_members each)) early.now)) }
{
    out.key("early")?;
    out.begin_array()?;
    push_all_early(alloc, out, early)?;
    out.end_array()
}

/// Writes what is told of the block of this number: a word, a line where the word speaks of one, and what comes too early.
///
/// # Errors
///
/// `AllocError` where memory ran out.
#[tactic(auto, unfolding(crate::specs::Blocks::told_members))]
pub fn push_told(
    alloc: Global,
    out: &mut Writer,
    block: u64,
    word: &str,
    line: Option<u32>,
    early: &[Early],
) -> Result<(), AllocError>
    ensures { Adds result out.old out.new (told block word.now line early.now) }
{
    out.begin_object()?;
    push_number(out, "block", block)?;
    push_word(out, word)?;
    push_line(out, line)?;
    push_early_member(alloc, out, early)?;
    out.end_object()
}

/// Writes what is told of the block of this number.
///
/// # Errors
///
/// `AllocError` where memory ran out.
#[tactic(auto, unfolding(crate::specs::Blocks::verdict_object))]
pub fn push_verdict(
    alloc: Global,
    out: &mut Writer,
    block: u64,
    verdict: &Verdict,
) -> Result<(), AllocError>
    ensures { Adds result out.old out.new (verdict_object block verdict.now) }
{
    match verdict {
        Verdict::Same => push_told(alloc, out, block, "same", None, &[]),
        Verdict::Missing(line) => push_told(alloc, out, block, "missing", Some(*line), &[]),
        Verdict::Extra(line) => push_told(alloc, out, block, "extra", Some(*line), &[]),
        Verdict::TooEarly(early) => push_told(alloc, out, block, "early", None, early),
    }
}
