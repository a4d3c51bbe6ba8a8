//! The code of a text of packets.

ghost use Rattle.std.specs.Prelude.{◌≡◌, ◌≤◌, ◌<◌, ◌+◌, ◌∷◌, ◌++◌, [], Ok, length, IfOk, OnOk, MatchResult};
ghost use Rattle.c62_read.specs.Text.{lines_of};
ghost use Rattle.c62_adopt_line.specs.Line.{line_says};
ghost use Rattle.c62_adopt_code.specs.Role.{role_read, role_of};
ghost use Rattle.c62_adopt_code.specs.Code.{text_section, section_behind, home_of, taken, line_taken, code_line, way_behind, plain_code, code_of, text_of};
ghost use Rattle.c62_adopt_code.specs.Told.{FailsWith, TakesLine, RefusesLine};

use crate::fault::{CodeCause, CodeFault};
use crate::role::{Role, read_role};
use crate::statement::is_readable;
use crate::way::Way;
use c62_adopt_cut::MOST_BYTES;
use c62_adopt_line::{LineFault, read_line};
use c62_adopt_spell::spelled_text;
use c62_op::InstructionSet;
use c62_read::first_line;
use std::alloc::{AllocError, Global};

/// Where a text begins.
const TEXT: &[u8] = b".text";

/// The section below a line for this, where it stands in that one.
fn section_behind<'a>(role: Role<'a>, section: &'a [u8]) -> &'a [u8]
    ensures { result.now ≡ section_behind (role_read role.entry) section.now }
{
    match role {
        Role::Begins(_, name) => name,
        _ => section,
    }
}

/// The section of the first instruction of a text.
fn home_of(text: &[u8]) -> &[u8]
    ensures { result.now ≡ home_of text_section (lines_of text.now) }
{
    let mut section = TEXT;
    let mut rest = text;
    while let Some((line, after)) = first_line(rest) {
        let role = read_role(line);
        if matches!(role, Role::Acts) {
            return section;
        }
        section = section_behind(role, section);
        rest = after;
    }
    TEXT
}

/// Whether a line for this is of the code, which may be here, or why the text is refused.
fn taken(here: bool, section: &[u8], way: Way, role: Role<'_>) -> Result<bool, CodeCause>
    ensures { result ≡ taken here section.now way (role_read role.entry) }
{
    match role {
        Role::Remark => Ok(false),
        Role::Silent | Role::Tells => Ok(here),
        Role::Acts => {
            if here {
                Ok(true)
            } else {
                Err(CodeCause::OtherSection)
            }
        }
        Role::Begins(labelled, name) => {
            if !labelled {
                Ok(false)
            } else if name == section {
                Ok(here)
            } else {
                Err(CodeCause::Directive)
            }
        }
        Role::Pads => {
            if here && !way.comes_nothing() {
                Err(CodeCause::Padding)
            } else {
                Ok(here)
            }
        }
        Role::Unknown => {
            if here {
                Ok(true)
            } else {
                Err(CodeCause::Directive)
            }
        }
        Role::Refused => Err(CodeCause::Directive),
    }
}

/// The same for a line; one that can't be read is left to the reader of lines.
fn line_taken(
    here: bool,
    line: &[u8],
    section: &[u8],
    way: Way,
    role: Role<'_>,
) -> Result<bool, CodeCause>
    requires { role_read role ≡ role_of line.now }
    ensures { result ≡ line_taken here line.now section.now way }
{
    if here && !is_readable(line) {
        Ok(true)
    } else {
        taken(here, section, way, role)
    }
}

/// What is kept of the lines above: the section of the code, the one that a line stands in, and the way through the code to there.
#[derive(Clone, Copy)]
struct Site<'a> {
    home: &'a [u8],
    section: &'a [u8],
    way: Way,
}

fn code_line(is: bool, line: &[u8]) -> &[u8]
    ensures { result.now ≡ code_line is line.now }
{
    if is { line } else { b"" }
}

/// The way below a line of the code.
fn way_behind(
    isa: InstructionSet,
    plain: &mut Vec<u8>,
    line: &[u8],
    way: Way,
) -> Result<Way, AllocError>
    requires { way.age ≤ 6 }
    ensures way { IfOk result (λ new. new ≡ way_behind (line_says isa line.now) way) }
    ensures young { IfOk result (λ new. new.age ≤ 6) }
{
    match read_line(isa, plain, line) {
        Ok(written) => Ok(way.on(&written)),
        Err(LineFault::Memory) => Err(AllocError),
        Err(LineFault::Read(_) | LineFault::UnitWanted) => Ok(way),
    }
}

fn push_line(code: &mut Vec<u8>, line: &[u8]) -> Result<(), AllocError>
    ensures { OnOk result (code.new.items ≡ code.old.items ++ text_of (line.now ∷ [])) }
{
    code.extend_from_slice(line)?;
    code.extend_from_slice(b"\n")
}

ghost use Rattle.c62_adopt_cut.specs.declared.text.TheConstants.{MOST_BYTES};

impl<'a> Site<'a> {
    /// Below a line of this number, which is appended to the code.
    #[tactic(auto, using(crate::proofs::CodeLemmas::taken_so, crate::proofs::CodeLemmas::refused_so))]
    fn behind_line(
        self,
        isa: InstructionSet,
        code: &mut Vec<u8>,
        plain: &mut Vec<u8>,
        number: u32,
        line: &'a [u8],
    ) -> Result<Site<'a>, CodeFault>
        requires { self.way.age ≤ 6 }
        ensures { MatchResult result (TakesLine isa number line.now self.entry code.old.items code.new.items) (RefusesLine isa number line.now self.entry) }
    {
        let role = read_role(line);
        let here = self.home == self.section;
        match line_taken(here, line, self.section, self.way, role) {
            Err(cause) => Err(CodeFault::At(number, cause)),
            Ok(is) => {
                let line = code_line(is, line);
                push_line(code, line)?;
                Ok(Site {
                    home: self.home,
                    section: section_behind(role, self.section),
                    way: way_behind(isa, plain, line, self.way)?,
                })
            }
        }
    }
}

/// The code of a text whose lines are in the spelling that the reader of lines has: its lines, each with a line feed behind it, in which those are
/// empty that say nothing.
#[tactic(auto, using(crate::proofs::CodeLemmas::refused_there))]
fn plain_code(isa: InstructionSet, alloc: Global, text: &[u8]) -> Result<Vec<u8>, CodeFault>
    requires { length text.now ≤ MOST_BYTES + 1 }
    ensures { MatchResult result (λ code. plain_code isa text.now ≡ Ok code.items) (λ fault. FailsWith fault (plain_code isa text.now)) }
{
    let mut code = Vec::new(alloc);
    let mut plain = Vec::new(alloc);
    let mut site = Site {
        home: home_of(text),
        section: TEXT,
        way: Way::new(),
    };
    let mut rest = text;
    let mut number = 1;
    while let Some((line, after)) = first_line(rest) {
        site = site.behind_line(isa, &mut code, &mut plain, number, line)?;
        number += 1;
        rest = after;
    }
    code.truncate(MOST_BYTES);
    Ok(code)
}

/// The code of a text of at most [`MOST_BYTES`](c62_adopt_cut::MOST_BYTES) bytes: its lines, each in the spelling that the reader of lines has and
/// with a line feed behind it, in which those are empty that say nothing, as they are comments or stand in other sections than the first with an
/// instruction (docs/ADOPT.md, "Sections" and "Other spellings"). So each line has the number that it has in the text. Text without directives
/// and comments, of which each line says something, is its own code. Where it has more bytes in that spelling than a text may have, the bytes that
/// show it are its code.
///
/// # Errors
///
/// `At` for the first line that keeps the text from having one: `OtherSection` for an instruction in another section, `Padding` for an alignment
/// whose padding may take cycles that code above runs through (docs/ADOPT.md, "Alignment"), and `Directive` for a directive that has another
/// statement behind it, or may lay something down. `Memory` where memory ran out, which may come in place of any answer.
#[tactic(auto, unfolding(crate::specs::Code::code_of))]
pub fn code_of(isa: InstructionSet, alloc: Global, text: &[u8]) -> Result<Vec<u8>, CodeFault>
    requires { length text.now ≤ MOST_BYTES }
    ensures { MatchResult result (λ code. code_of isa text.now ≡ Ok code.items) (λ fault. FailsWith fault (code_of isa text.now)) }
{
    let mut spelled = spelled_text(isa, alloc, text)?;
    if spelled.len() > MOST_BYTES + 1 {
        spelled.truncate(MOST_BYTES + 1);
        return Ok(spelled);
    }
    plain_code(isa, alloc, &spelled)
}
