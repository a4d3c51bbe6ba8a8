//! Blocks as they are read.

ghost use Rattle.std.specs.Prelude.{◌≡◌, ◌≤◌, ◌+◌, ◌-◌, ◌==◌, length, OnOk, None};
ghost use Rattle.std.specs.List.{list_any};
ghost use Rattle.c62_line.specs.Line.{parts_of, said_of};
ghost use Rattle.c62_read.specs.Program.{label_is};
ghost use Rattle.c62_adopt_line.specs.Line.{line_written};

use crate::clock::Stand;
use c62_adopt_line::Written;
use c62_insn::Insn;
use c62_line::{Label, What};
use std::alloc::{AllocError, Global};

/// An instruction where it stands in its block.
#[derive(Drop)]
pub struct Issue {
    pub insn: Insn,
    /// The label that it branches to, if it branches to one.
    pub target: Option<Label>,
    /// Its line, counted from 1.
    pub line: u32,
    /// Its cycle, counted from the beginning of its block.
    pub cycle: u32,
}

/// A block: its label, the cycle of the text in which it begins, and its instructions in the order of their lines.
#[derive(Drop)]
pub struct Draft {
    pub label: Option<Label>,
    pub start: u32,
    pub issues: Vec<Issue>,
}

/// The blocks that are over, and the one that the next line may go on with.
#[derive(Drop)]
pub(crate) struct Drafts {
    pub done: Vec<Draft>,
    pub current: Option<Draft>,
}

ghost use Rattle.c62_adopt_cut.specs.Blocks.{no_drafts, all_drafts, new_draft, with_block, with_label, begins_at, opened, with_issue, add_issue, with_says, with_line};
ghost use Rattle.c62_adopt_cut.specs.Drafted.{issue_of, draft_of, drafts_of};

impl Draft {
    fn new(alloc: Global, label: Option<Label>, start: u32) -> Draft
        ensures { draft_of result ≡ new_draft label start }
    {
        Draft {
            label,
            start,
            issues: Vec::new(alloc),
        }
    }

    #[tactic(auto, using(std::proofs::lemmas::Grind::common_steps))]
    fn add(&mut self, issue: Issue) -> Result<(), AllocError>
        ensures { OnOk result (draft_of self.new ≡ with_issue (issue_of issue) (draft_of self.old)) }
    {
        self.issues.push(issue)?;
        Ok(())
    }
}

impl Drafts {
    pub(crate) fn new(alloc: Global) -> Drafts
        ensures { drafts_of result ≡ no_drafts }
    {
        Drafts {
            done: Vec::new(alloc),
            current: None,
        }
    }

    /// Begins a block.
    fn begin(&mut self, alloc: Global, label: Option<Label>, start: u32) -> Result<(), AllocError>
        ensures { OnOk result (drafts_of self.new ≡ with_block label start (drafts_of self.old)) }
    {
        if let Some(draft) = self.current.take() {
            self.done.push(draft)?;
        }
        self.current = Some(Draft::new(alloc, label, start));
        Ok(())
    }

    fn add_label(
        &mut self,
        alloc: Global,
        label: Option<Label>,
        start: u32,
    ) -> Result<(), AllocError>
        ensures { OnOk result (drafts_of self.new ≡ with_label label start (drafts_of self.old)) }
    {
        match label {
            Some(label) => self.begin(alloc, Some(label), start),
            None => Ok(()),
        }
    }

    /// Whether the block that is open began in this cycle.
    pub(crate) fn begins_at(&self, start: u32) -> bool
        ensures { result ≡ begins_at start (drafts_of self.now).current }
    {
        match &self.current {
            None => false,
            Some(draft) => draft.start == start,
        }
    }

    fn open(&mut self, alloc: Global, start: u32) -> Result<(), AllocError>
        ensures { OnOk result (drafts_of self.new ≡ opened start (drafts_of self.old)) }
    {
        if self.begins_at(start) {
            Ok(())
        } else {
            self.begin(alloc, None, start)
        }
    }

    fn add_issue(&mut self, issue: Issue) -> Result<(), AllocError>
        ensures { OnOk result (drafts_of self.new ≡ add_issue (issue_of issue) (drafts_of self.old)) }
    {
        match &mut self.current {
            None => Ok(()),
            Some(draft) => draft.add(issue),
        }
    }

    fn add_what(
        &mut self,
        alloc: Global,
        line: u32,
        stand: Stand,
        what: What,
    ) -> Result<(), AllocError>
        ensures { OnOk result (drafts_of self.new ≡ with_says line stand (said_of what) (drafts_of self.old)) }
    {
        let (insn, target) = match what {
            What::Empty | What::Nop(_) => return Ok(()),
            What::Insn(insn) => (insn, None),
            What::Jump(insn, label) => (insn, Some(label)),
        };
        self.open(alloc, stand.start)?;
        self.add_issue(Issue {
            insn,
            target,
            line,
            cycle: stand.cycle.saturating_sub(stand.start),
        })
    }

    /// Adds what a line of this number says that stands there.
    pub(crate) fn add(
        &mut self,
        alloc: Global,
        line: u32,
        stand: Stand,
        written: Written,
    ) -> Result<(), AllocError>
        ensures { OnOk result (drafts_of self.new ≡ with_line line stand (line_written written) (drafts_of self.old)) }
    {
        self.add_label(alloc, written.label, stand.cycle)?;
        self.add_what(alloc, line, stand, written.what)
    }

    /// How many blocks were begun.
    pub(crate) fn blocks(&self) -> usize
        ensures { result ≡ length (all_drafts (drafts_of self.now)) }
    {
        self.done.len() + usize::from(self.current.is_some())
    }
}
