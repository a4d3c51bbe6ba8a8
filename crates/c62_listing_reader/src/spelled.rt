//! Whether a line is spelled as a listing spells what it says.

ghost use Rattle.std.specs.Prelude.{◌≡◌, ◌++◌, [], OnOk, IfOk, codes, decimal, string_bytes};
ghost use Rattle.std.specs.Option.{option_copied};
ghost use Rattle.c62_line.specs.Line.{said_of};
ghost use Rattle.c62_listing_reader.specs.Said.{front_spelling, insn_line, spelled_line, is_text};

use crate::line::Front;
use c62_insn::Insn;
use c62_listing::{label_text, push_spelling};
use c62_read::{Label, What};
use itoa::Buffer;
use std::alloc::AllocError;

fn front_text(front: Front) -> &'static str
    ensures { result.now ≡ front_spelling front }
{
    match front {
        Front::Beside => "|| ",
        _ => "   ",
    }
}

/// Whether the line is spelled as this instruction on its unit.
fn is_issue(
    spelling: &mut String,
    line: &[u8],
    front: Front,
    insn: Insn,
    target: &str,
) -> Result<bool, AllocError>
    ensures { IfOk result (λ is. is ≡ is_text line.now (insn_line front target.now insn)) }
{
    let Some(unit) = insn.unit() else {
        return Ok(false);
    };
    spelling.clear();
    spelling.push_str(front_text(front))?;
    push_spelling(spelling, insn, unit, target)?;
    Ok(line == spelling.as_bytes())
}

fn is_pause(spelling: &mut String, line: &[u8], cycles: u8) -> Result<bool, AllocError>
    ensures { IfOk result (λ is. is ≡ is_text line.now (Some (codes "   NOP " ++ decimal cycles))) }
{
    let mut buffer = Buffer::new();
    spelling.clear();
    spelling.push_str("   NOP ")?;
    spelling.push_str(buffer.format(cycles))?;
    Ok(line == spelling.as_bytes())
}

fn is_heading(spelling: &mut String, line: &[u8], label: &Label) -> Result<bool, AllocError>
    ensures { IfOk result (λ is. is ≡ is_text line.now (Some (label.now ++ codes ":"))) }
{
    spelling.clear();
    spelling.push_str(label_text(label))?;
    spelling.push_str(":")?;
    Ok(line == spelling.as_bytes())
}

/// Whether a line is the one spelling of what it says behind a label, or without one. That is written to `spelling`, which
/// takes memory only where a line is longer than those before it.
///
/// # Errors
///
/// `AllocError` where memory ran out.
pub fn is_spelled(
    spelling: &mut String,
    line: &[u8],
    front: Front,
    label: &Option<Label>,
    what: &What,
) -> Result<bool, AllocError>
    ensures { IfOk result (λ is. is ≡ is_text line.now (spelled_line front label.now (said_of what.now))) }
{
    match (label, what) {
        (Some(label), What::Empty) => is_heading(spelling, line, label),
        (Some(_), _) => Ok(false),
        (None, What::Empty) => Ok(front == Front::Empty && line.is_empty()),
        (None, What::Nop(cycles)) => is_pause(spelling, line, *cycles),
        (None, What::Insn(insn)) => is_issue(spelling, line, front, *insn, ""),
        (None, What::Jump(insn, target)) => {
            is_issue(spelling, line, front, *insn, label_text(target))
        }
    }
}
