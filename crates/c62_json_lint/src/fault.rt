//! A fault or a warning, as an object.

ghost use Rattle.std.specs.Prelude.{◌≡◌, [], ◌∷◌, ◌++◌, codes, Some, None, IfOk, OnOk};
ghost use Rattle.std.specs.Option.{option_copied};
ghost use Rattle.json.specs.Token.{key, string};
ghost use Rattle.c62_json.specs.Document.{Adds, count, text};
ghost use Rattle.c62_explain_packets.specs.Warned.{early_sentence};
ghost use Rattle.c62_json_lint.specs.Faults.{fault_told, finding_told, name_members, place_members, read_told, told_object};

use c62_explain::{PlacedFault, sentence_of};
use c62_explain_packets::{EarlyRead, PlacedFinding, PlacedRead, push_early_sentence};
use c62_json::{push_count, push_text};
use json::Writer;
use std::alloc::{AllocError, Global};

/// What is told of a line.
#[derive(Drop)]
struct Told<'a> {
    line: u32,
    column: usize,
    /// The name of a fault, and none of a warning.
    name: Option<&'a str>,
    says: &'a [u8],
}

/// A member that is a number.
fn push_number(out: &mut Writer, name: &str, number: u64) -> Result<(), AllocError>
    ensures { Adds result out.old out.new (key name.now ∷ count number ∷ []) }
{
    out.key(name)?;
    push_count(out, number)
}

/// A member that is a text of bytes.
fn push_bytes(alloc: Global, out: &mut Writer, name: &str, bytes: &[u8]) -> Result<(), AllocError>
    ensures { Adds result out.old out.new (key name.now ∷ text bytes.now ∷ []) }
{
    out.key(name)?;
    push_text(alloc, out, bytes)
}

/// A member that is a word.
fn push_word(out: &mut Writer, name: &str, word: &str) -> Result<(), AllocError>
    ensures { Adds result out.old out.new (key name.now ∷ string word.now ∷ []) }
{
    out.key(name)?;
    out.string(word)
}

/// The line and the column.
fn push_spot(out: &mut Writer, line: u32, column: usize) -> Result<(), AllocError>
    ensures { Adds result out.old out.new (key (codes "line") ∷ count line ∷ key (codes "column") ∷ count column ∷ []) }
{
    push_number(out, "line", u64::from(line))?;
    push_number(out, "column", column as u64)
}

/// The file, the line and the column.
#[tactic(auto, unfolding(crate::specs::Faults::place_members))]
fn push_place(
    alloc: Global,
    out: &mut Writer,
    file: &[u8],
    line: u32,
    column: usize,
) -> Result<(), AllocError>
    ensures { Adds result out.old out.new (place_members file.now line column) }
{
    push_bytes(alloc, out, "file", file)?;
    push_spot(out, line, column)
}

/// That it is a fault, and its name.
#[tactic(auto, unfolding(crate::specs::Faults::name_members))]
fn push_error(out: &mut Writer, name: &str) -> Result<(), AllocError>
    ensures { Adds result out.old out.new (name_members (Some name.now)) }
{
    push_word(out, "kind", "error")?;
    push_word(out, "name", name)
}

/// That it is a warning.
#[tactic(auto, unfolding(crate::specs::Faults::name_members))]
fn push_warning(out: &mut Writer) -> Result<(), AllocError>
    ensures { Adds result out.old out.new (name_members None) }
{
    push_word(out, "kind", "warning")?;
    out.key("name")?;
    out.null()
}

/// Whether it is a fault, which has a name, or a warning.
fn push_kind(out: &mut Writer, name: Option<&str>) -> Result<(), AllocError>
    ensures { Adds result out.old out.new (name_members (option_copied name.entry)) }
{
    match name {
        Some(name) => push_error(out, name),
        None => push_warning(out),
    }
}

/// The object of what is told of a line.
#[tactic(auto, unfolding(crate::specs::Faults::told_members))]
fn push_told(
    alloc: Global,
    out: &mut Writer,
    file: &[u8],
    told: &Told<'_>,
) -> Result<(), AllocError>
    ensures { Adds result out.old out.new (told_object file.now told.now.line told.now.column (option_copied told.now.name) told.now.says.now) }
{
    out.begin_object()?;
    push_place(alloc, out, file, told.line, told.column)?;
    push_kind(out, told.name)?;
    push_bytes(alloc, out, "sentence", told.says)?;
    out.end_object()
}

/// Writes the object of a fault of a serial text.
#[tactic(auto, unfolding(crate::specs::Faults::fault_told))]
pub(crate) fn push_fault(
    alloc: Global,
    out: &mut Writer,
    file: &[u8],
    placed: PlacedFault,
) -> Result<(), AllocError>
    ensures { Adds result out.old out.new (fault_told file.now placed) }
{
    push_told(
        alloc,
        out,
        file,
        &Told {
            line: placed.fault.line,
            column: placed.column,
            name: Some(placed.fault.cause.name()),
            says: sentence_of(placed.fault.cause),
        },
    )
}

/// Writes the object of a fault of packets.
#[tactic(auto, unfolding(crate::specs::Faults::finding_told))]
pub(crate) fn push_finding(
    alloc: Global,
    out: &mut Writer,
    file: &[u8],
    placed: PlacedFinding,
) -> Result<(), AllocError>
    ensures { Adds result out.old out.new (finding_told file.now placed) }
{
    push_told(
        alloc,
        out,
        file,
        &Told {
            line: placed.finding.line,
            column: placed.column,
            name: Some(placed.finding.what.name()),
            says: placed.finding.what.sentence(),
        },
    )
}

/// What is said of a read in a delay slot.
fn sentence(alloc: Global, early: EarlyRead) -> Result<Vec<u8>, AllocError>
    ensures { IfOk result (λ says. says.items ≡ early_sentence early) }
{
    let mut says = Vec::new(alloc);
    push_early_sentence(&mut says, early)?;
    Ok(says)
}

/// Writes the object of a read in a delay slot.
#[tactic(auto, unfolding(crate::specs::Faults::read_told))]
pub(crate) fn push_read(
    alloc: Global,
    out: &mut Writer,
    file: &[u8],
    read: PlacedRead,
) -> Result<(), AllocError>
    ensures { Adds result out.old out.new (read_told file.now read) }
{
    let says = sentence(alloc, read.early)?;
    push_told(
        alloc,
        out,
        file,
        &Told {
            line: read.early.line,
            column: read.column,
            name: None,
            says: &says,
        },
    )
}
