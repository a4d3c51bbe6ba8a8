//! What is taken of a text from a label on.

ghost use Rattle.std.specs.Prelude.{◌≡◌, ◌≤◌, ◌<◌, ◌+◌, ◌++◌, List, None, false, take, drop, length, slice_index_or, IfOk, OnOk, IfSome, MatchOption, MatchResult};
ghost use Rattle.c62_read.specs.Text.{lines_of};
ghost use Rattle.c62_adopt_code.specs.Role.{role_read};
ghost use Rattle.c62_adopt_cut.specs.declared.text.TheConstants.{MOST_BYTES};
ghost use Rattle.c62_reach.specs.Ended.{ended_lines};
ghost use Rattle.c62_reach.specs.declared.fault.ReachFault.TheVariants.{Memory};
ghost use Rattle.c62_reach.specs.Index.{Indexes};
ghost use Rattle.c62_reach.specs.Part.{Part, parts_of};
ghost use Rattle.c62_reach.specs.Taken.{stays, is_of_all, line_taken, here_at, below_at, text_taken, first_part, MarksFrom, IsTaken, IsTakenFrom, Lacks};

use crate::fault::ReachFault;
use crate::index::Index;
use crate::line::{first_ended, next_line};
use crate::part::read_parts;
use crate::search::reached_from;
use c62_adopt_code::{Role, label_in_front, read_role};
use c62_adopt_cut::MOST_BYTES;
use c62_adopt_spell::spelled_text;
use c62_line::Label;
use c62_op::InstructionSet;
use c62_rows::undotted;
use c62_token::number::is_label;
use std::alloc::{AllocError, Global};

/// Whether a directive for this may concern the lines of all parts below.
fn is_of_all(role: Role<'_>) -> bool
    ensures { result ≡ is_of_all (role_read role.entry) }
{
    matches!(role, Role::Begins(_, _) | Role::Unknown | Role::Refused)
}

/// Whether a line that is spelled so stays in each part.
fn stays(spelled: &[u8]) -> bool
    ensures { result ≡ stays spelled.now }
{
    match spelled {
        [] => true,
        [_, ..] => is_of_all(read_role(spelled)),
    }
}

/// Appends a line of a part that is taken, or what stands for it in another one.
fn push_line(text: &mut Vec<u8>, here: bool, spelled: &[u8], line: &[u8]) -> Result<(), AllocError>
    ensures { OnOk result (text.new.items ≡ text.old.items ++ line_taken here spelled.now line.now) }
{
    if here || stays(spelled) {
        text.extend_from_slice(line)
    } else {
        text.extend_from_slice(b"\n")
    }
}

/// Whether the part of a line is taken, and the marks of those below it.
#[derive(Clone, Copy)]
struct Site<'a> {
    here: bool,
    below: &'a [bool],
}

impl<'a> Site<'a> {
    /// In the first of the parts with these marks.
    fn first(marks: &'a [bool]) -> Site<'a>
        ensures here { result.here ≡ slice_index_or marks.now 0 false }
        ensures below { result.below.now ≡ drop 1 marks.now }
    {
        match marks {
            [] => Site {
                here: false,
                below: marks,
            },
            [here, below @ ..] => Site { here: *here, below },
        }
    }

    /// At the line that is spelled so.
    fn at(self, spelled: &[u8]) -> Site<'a>
        ensures here { result.here ≡ here_at spelled.now self.entry.here self.entry.below.now }
        ensures below { result.below.now ≡ below_at spelled.now self.entry.below.now }
    {
        if label_in_front(spelled).is_some() {
            Site::first(self.below)
        } else {
            self
        }
    }
}

/// What is taken of a text, the parts of which have these marks and whose lines are spelled as those of the other.
fn text_taken(
    alloc: Global,
    text: &[u8],
    spelled: &[u8],
    marks: &[bool],
) -> Result<Vec<u8>, AllocError>
    ensures { IfOk result (λ taken. taken.items ≡ text_taken marks.now (ended_lines text.now) (lines_of spelled.now)) }
{
    let mut taken = Vec::new(alloc);
    let mut site = Site::first(marks);
    let mut rest = text;
    let mut other = spelled;
    while let Some((line, after)) = first_ended(rest) {
        let (spelled, below) = next_line(other);
        site = site.at(spelled);
        push_line(&mut taken, site.here, spelled, line)?;
        rest = after;
        other = below;
    }
    Ok(taken)
}

/// The bytes of a text that show that it is too long.
fn too_long(alloc: Global, text: &[u8]) -> Result<Vec<u8>, ReachFault>
    requires { MOST_BYTES < length text.now }
    ensures { MatchResult result (λ other. other.items ≡ take (MOST_BYTES + 1) text.now) (λ fault. fault ≡ Memory) }
{
    let mut other = Vec::new(alloc);
    other.extend_from_slice(&text[..MOST_BYTES + 1])?;
    Ok(other)
}

/// The number of the first part that begins with the label of this name.
fn first_part(alloc: Global, index: &Index, name: &[u8]) -> Result<Option<usize>, AllocError>
    ensures part { (parts : List Part) → Indexes parts index.now → IfOk result (λ first. first ≡ first_part name.now parts) }
    ensures within { (parts : List Part) → Indexes parts index.now → IfOk result (λ first. IfSome first (λ k. k < length parts)) }
{
    let plain = undotted(alloc, name)?;
    if is_label(&plain) {
        Ok(index.part_named(&Label::new(&plain)))
    } else {
        Ok(None)
    }
}

/// Of each part of a text whose lines are spelled as the reader of lines has it, whether it is reached from the label of this name; nothing where no
/// line has that.
fn marks_from(
    isa: InstructionSet,
    alloc: Global,
    spelled: &[u8],
    name: &[u8],
) -> Result<Option<Vec<bool>>, AllocError>
    ensures { IfOk result (λ found. MatchOption found (first_part name.now (parts_of isa (lines_of spelled.now)) ≡ None) (λ marks. MarksFrom name.now (parts_of isa (lines_of spelled.now)) marks.items)) }
{
    let parts = read_parts(isa, alloc, spelled)?;
    let index = Index::new(alloc, &parts)?;
    match first_part(alloc, &index, name)? {
        Some(first) => Ok(Some(reached_from(alloc, &parts, &index, first)?)),
        None => Ok(None),
    }
}

/// What is taken of a text that is not too long.
fn taken_from(
    isa: InstructionSet,
    alloc: Global,
    text: &[u8],
    name: &[u8],
) -> Result<Vec<u8>, ReachFault>
    requires { length text.now ≤ MOST_BYTES }
    ensures { MatchResult result (λ other. IsTakenFrom isa name.now text.now other.items) (Lacks isa name.now text.now) }
{
    let spelled = spelled_text(isa, alloc, text)?;
    let Some(marks) = marks_from(isa, alloc, &spelled, name)? else {
        return Err(ReachFault::From);
    };
    Ok(text_taken(alloc, text, &spelled, &marks)?)
}

/// What is taken of a text of packets from the label of this name on, whose dots are read as `_` (docs/ADOPT.md, "Parts of a text"). A text has
/// a part for each label: all from there up to the next one. The part of the name is taken, and so is each to which one that is taken leads: as an
/// instruction of it names the label, or as it may run on into it. A name means the first part of its own file with the label, or else the first
/// one of all; a directive `.file` with a quoted name begins a file. The lines of these parts stay to the byte, and of the others those stay that
/// begin a section, set a name, or have a directive that isn't known. All other lines are empty, so that each line has the number that it had.
///
/// Of a text of more than [`MOST_BYTES`](c62_adopt_cut::MOST_BYTES) bytes those are taken that show it.
///
/// # Errors
///
/// `From` where no line has the label. `Memory` where memory ran out, which may come in place of any answer.
pub fn reached_text(
    isa: InstructionSet,
    alloc: Global,
    text: &[u8],
    name: &[u8],
) -> Result<Vec<u8>, ReachFault>
    ensures { MatchResult result (λ other. IsTaken isa name.now text.now other.items) (Lacks isa name.now text.now) }
{
    if MOST_BYTES < text.len() {
        too_long(alloc, text)
    } else {
        taken_from(isa, alloc, text, name)
    }
}
