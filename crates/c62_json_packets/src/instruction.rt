//! An instruction of a packet.

ghost use Rattle.std.specs.Prelude.{◌≡◌, IfOk, codes, string_bytes};
ghost use Rattle.c62_insn.specs.Spelling.{spelling};
ghost use Rattle.c62_json.specs.Document.{Adds};
ghost use Rattle.c62_json_packets.specs.Member.{text_member};
ghost use Rattle.c62_json_packets.specs.Packets.{name_among, instruction};

use crate::labels::target_name;
use crate::member::{push_number, push_string};
use c62_grid::words::unit_name;
use c62_listing::push_spelling;
use c62_packet::Placed;
use c62_read::Label;
use json::Writer;
use std::alloc::{AllocError, Global};

/// An instruction as a listing spells it.
fn spelled(alloc: Global, labels: &[Option<Label>], placed: &Placed) -> Result<String, AllocError>
    ensures { IfOk result (λ text. string_bytes text ≡ spelling (name_among labels.now) placed.now.insn placed.now.unit) }
{
    let mut text = String::new(alloc);
    push_spelling(
        &mut text,
        placed.insn,
        placed.unit,
        target_name(labels, placed.insn),
    )?;
    Ok(text)
}

/// Writes the member `text` of an instruction.
fn push_spelled(
    alloc: Global,
    out: &mut Writer,
    labels: &[Option<Label>],
    placed: &Placed,
) -> Result<(), AllocError>
    ensures { Adds result out.old out.new (text_member (codes "text") (spelling (name_among labels.now) placed.now.insn placed.now.unit)) }
{
    let text = spelled(alloc, labels, placed)?;
    push_string(out, "text", text.as_str())
}

/// Writes an instruction: its line, its unit, and how a listing spells it.
#[tactic(auto, unfolding(crate::specs::Packets::instruction))]
pub(crate) fn push_instruction(
    alloc: Global,
    out: &mut Writer,
    labels: &[Option<Label>],
    placed: &Placed,
) -> Result<(), AllocError>
    ensures { Adds result out.old out.new (instruction (name_among labels.now) placed.now) }
{
    out.begin_object()?;
    push_number(out, "line", u64::from(placed.line))?;
    push_string(out, "unit", unit_name(placed.unit))?;
    push_spelled(alloc, out, labels, placed)?;
    out.end_object()
}
