//! The parts of a text, which begin at its labels.

ghost use Rattle.std.specs.Prelude.{◌≡◌, ◌<◌, ◌≤◌, ◌^◌, ◌+◌, ◌++◌, ◌∷◌, [], ℕ, List, map, is_some, not, IfOk, OnOk};
ghost use Rattle.std.specs.Option.{option_to_list};
ghost use Rattle.c62_line.specs.Line.{said_of};
ghost use Rattle.c62_read.specs.Text.{lines_of};
ghost use Rattle.c62_rows.specs.Read.{said_read};
ghost use Rattle.c62_rows.specs.Word.{row_says};
ghost use Rattle.c62_adopt_code.specs.Statement.{front_of, label_of};

use crate::file::begins_file;
use c62_adopt_code::{Way, label_in_front};
use c62_adopt_line::LineFault;
use c62_line::{Label, What};
use c62_op::InstructionSet;
use c62_read::first_line;
use c62_rows::{Said, read_said};
use std::alloc::{AllocError, Global};

/// A part of a text: all from one label up to the next, or what stands above all labels.
#[derive(Drop)]
pub(crate) struct Part {
    pub label: Option<Label>,
    /// How many files begin above its label.
    pub file: usize,
    /// The labels that its instructions name, to branch to them or for their words.
    pub names: Vec<Label>,
    /// Whether what runs in it may run on into the part below.
    pub runs_on: bool,
}

/// A part to which lines may be added.
#[derive(Drop)]
struct Growing {
    label: Option<Label>,
    file: usize,
    names: Vec<Label>,
    /// The way from its label on.
    way: Way,
}

ghost use Rattle.c62_reach.specs.File.{files_below};
ghost use Rattle.c62_reach.specs.Part.{target_in, new_part, with_said, with_line, closed, parts_of};
ghost use Rattle.c62_reach.specs.PartRead.{part_read, growing_read, parts_at, IsYoung, BeginsAt, AddsLine};

/// The label that a branch goes to.
fn target_in(what: What) -> Option<Label>
    ensures { result ≡ target_in (said_of what) }
{
    match what {
        What::Jump(_, target) => Some(target),
        What::Empty | What::Nop(_) | What::Insn(_) => None,
    }
}

fn push_name(names: &mut Vec<Label>, name: Option<Label>) -> Result<(), AllocError>
    ensures { OnOk result (names.new.items ≡ names.old.items ++ option_to_list name) }
{
    if let Some(name) = name {
        names.push(name)?;
    }
    Ok(())
}

impl Growing {
    /// Begins a part of this file at this label.
    fn new(alloc: Global, file: usize, label: Option<Label>) -> Growing
        ensures new { growing_read result ≡ new_part file label }
        ensures young { IsYoung result }
    {
        Growing {
            label,
            file,
            names: Vec::new(alloc),
            way: Way::labelled(),
        }
    }

    fn add_said(&mut self, said: Said) -> Result<(), AllocError>
        requires { IsYoung self.old }
        ensures said { OnOk result (growing_read self.new ≡ with_said (said_read said) (growing_read self.old)) }
        ensures young { OnOk result (IsYoung self.new) }
    {
        self.way = self.way.on(&said.line);
        push_name(&mut self.names, target_in(said.line.what))?;
        push_name(&mut self.names, said.word)
    }

    fn add_line(
        &mut self,
        isa: InstructionSet,
        alloc: Global,
        plain: &mut Vec<u8>,
        line: &[u8],
    ) -> Result<(), AllocError>
        requires { IsYoung self.old }
        ensures line { OnOk result (growing_read self.new ≡ with_line isa line.now (growing_read self.old)) }
        ensures young { OnOk result (IsYoung self.new) }
    {
        match read_said(isa, alloc, plain, line) {
            Ok(said) => self.add_said(said),
            Err(LineFault::Memory) => Err(AllocError),
            Err(LineFault::Read(_) | LineFault::UnitWanted) => Ok(()),
        }
    }

    fn closed(self) -> Part
        ensures { part_read result ≡ closed (growing_read self) }
    {
        Part {
            label: self.label,
            file: self.file,
            names: self.names,
            runs_on: !self.way.comes_nothing(),
        }
    }
}

/// How many files begin above the next line, where so many begin above this one.
#[tactic(auto, unfolding(crate::specs::File::files_below))]
fn files_below(files: usize, line: &[u8]) -> usize
    requires { files < 2 ^ 63 }
    ensures below { result ≡ files_below files line.now }
    ensures few { result ≤ files + 1 }
{
    if begins_file(line) { files + 1 } else { files }
}

/// The parts that are over, and the one to which the next line belongs where it has no label.
#[derive(Drop)]
struct Reader {
    done: Vec<Part>,
    last: Growing,
    /// How many files begin above the next line.
    files: usize,
}

impl Reader {
    fn new(isa: InstructionSet, alloc: Global) -> Reader
        ensures new { (lines : List (List ℕ)) → parts_at isa result lines ≡ parts_of isa lines }
        ensures young { IsYoung result.last }
        ensures files { result.files ≡ 0 }
    {
        Reader {
            done: Vec::new(alloc),
            last: Growing::new(alloc, 0, None),
            files: 0,
        }
    }

    /// Begins a part at a line with this label, where it has one.
    #[tactic(auto, using(crate::proofs::PartLemmas::begins, crate::proofs::PartLemmas::goes_on))]
    fn at_label(
        self,
        isa: InstructionSet,
        alloc: Global,
        label: Option<Label>,
    ) -> Result<Reader, AllocError>
        requires { IsYoung self.last }
        ensures { IfOk result (BeginsAt isa label self) }
    {
        if label.is_none() {
            return Ok(self);
        }
        let mut done = self.done;
        done.push(self.last.closed())?;
        Ok(Reader {
            done,
            last: Growing::new(alloc, self.files, label),
            files: self.files,
        })
    }

    fn add_line(
        self,
        isa: InstructionSet,
        alloc: Global,
        plain: &mut Vec<u8>,
        line: &[u8],
    ) -> Result<Reader, AllocError>
        requires young { IsYoung self.last }
        requires few { self.files < 2 ^ 63 }
        ensures { IfOk result (AddsLine isa line.now self) }
    {
        let mut reader = self.at_label(isa, alloc, label_in_front(line))?;
        reader.files = files_below(reader.files, line);
        reader.last.add_line(isa, alloc, plain, line)?;
        Ok(reader)
    }

    #[tactic(auto, using(crate::proofs::PartLemmas::all_parts))]
    fn parts(self, isa: InstructionSet) -> Result<Vec<Part>, AllocError>
        ensures { IfOk result (λ parts. map part_read parts.items ≡ parts_at isa self []) }
    {
        let mut parts = self.done;
        parts.push(self.last.closed())?;
        Ok(parts)
    }
}

/// The parts of a text.
pub(crate) fn read_parts(
    isa: InstructionSet,
    alloc: Global,
    text: &[u8],
) -> Result<Vec<Part>, AllocError>
    ensures { IfOk result (λ parts. map part_read parts.items ≡ parts_of isa (lines_of text.now)) }
{
    let mut reader = Reader::new(isa, alloc);
    let mut plain = Vec::new(alloc);
    let mut rest = text;
    while let Some((line, after)) = first_line(rest) {
        reader = reader.add_line(isa, alloc, &mut plain, line)?;
        rest = after;
    }
    reader.parts(isa)
}
