//! A text whose lines stand for those of another one.

ghost use Rattle.std.specs.Prelude.{◌≡◌, ◌++◌, ◌∷◌, [], IfOk, OnOk};
ghost use Rattle.c62_adopt_spell.specs.Line.{counts_below, names_below, spelled};
ghost use Rattle.c62_adopt_spell.specs.Text.{spelled_text, text_of};

use crate::line::{Spare, push_spelled};
use crate::local::Locals;
use crate::names::Setting;
use c62_op::InstructionSet;
use c62_read::first_line;
use std::alloc::{AllocError, Global};

/// Appends the line that stands for this one below these settings, and a line feed.
fn push_line(
    isa: InstructionSet,
    text: &mut Vec<u8>,
    names: &mut Vec<Setting>,
    locals: &mut Locals,
    spare: &mut Spare,
    line: &[u8],
) -> Result<(), AllocError>
    ensures text { OnOk result (text.new.items ≡ text.old.items ++ text_of (spelled isa names.old.items locals.old.mark.items (counts_below isa locals.old.counts.items line.now) line.now ∷ [])) }
    ensures names { OnOk result (names.new.items ≡ names_below isa names.old.items locals.old.mark.items (counts_below isa locals.old.counts.items line.now) line.now) }
    ensures counts { OnOk result (locals.new.counts.items ≡ counts_below isa locals.old.counts.items line.now) }
    ensures mark { locals.new.mark ≡ locals.old.mark }
{
    push_spelled(isa, text, names, locals, spare, line)?;
    text.extend_from_slice(b"\n")
}

/// A text whose lines say what those of this text do, in the spelling that the reader of lines has, each with a line feed behind it
/// (docs/ADOPT.md, "Other spellings", "Local labels" and "Set names"). A line that says something as it stands is the same, and so is one that can't be read in any
/// spelling. One that sets a name is empty.
#[tactic(auto, unfolding(crate::specs::Text::spelled_text), using(crate::proofs::SpellLemmas::line_more))]
pub fn spelled_text(isa: InstructionSet, alloc: Global, text: &[u8]) -> Result<Vec<u8>, AllocError>
    ensures { IfOk result (λ other. other.items ≡ spelled_text isa text.now) }
{
    let mut other = Vec::new(alloc);
    let mut names = Vec::new(alloc);
    let mut locals = Locals::new(alloc, text)?;
    let mut spare = Spare::new(alloc);
    let mut rest = text;
    while let Some((line, after)) = first_line(rest) {
        push_line(isa, &mut other, &mut names, &mut locals, &mut spare, line)?;
        rest = after;
    }
    Ok(other)
}
