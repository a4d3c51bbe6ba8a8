//! The blocks of a listing as they are read.

ghost use Rattle.std.specs.Prelude.{◌≡◌, ◌+◌, ◌≤◌, length, OnOk, IsTrue, is_some, true, false, None, Some, nat_le, if◌then◌else◌};
ghost use Rattle.c62_packet.specs.declared.limits.TheConstants.{MOST_CYCLES};
ghost use Rattle.c62_packet.specs.Packed.{StandAsWritten};
ghost use Rattle.std.specs.List.{list_any};
ghost use Rattle.std.specs.Option.{option_copied, option_to_list};
ghost use Rattle.c62_insn.specs.Insn.{unit_of};
ghost use Rattle.c62_line.specs.Line.{parts_of};
ghost use Rattle.c62_read.specs.Program.{label_is};

use c62_insn::Insn;
use c62_packet::Placed;
use c62_read::{Label, MOST_BLOCKS, label_is};
use std::alloc::{AllocError, Global};

/// A block as it is read: its label, the cycles that are written, and its instructions.
#[derive(Drop)]
pub struct OpenBlock {
    pub label: Option<Label>,
    pub cycles: u16,
    pub placed: Vec<Placed>,
    pub ghost as_written: { StandAsWritten placed.items },
}

/// The blocks that are over, and the one that the next line goes on with.
#[derive(Drop)]
pub struct Blocks {
    pub done: Vec<OpenBlock>,
    pub current: Option<OpenBlock>,
}

impl OpenBlock {
    ghost use Rattle.c62_listing_reader.specs.Said.{with_part, with_pause, with_label, opened};
    ghost use Rattle.c62_listing_reader.specs.Reading.{draft_open};

    fn new(alloc: Global) -> OpenBlock
        ensures { draft_open result ≡ opened None }
    {
        OpenBlock {
            label: None,
            cycles: 0,
            placed: Vec::new(alloc),
        }
    }

    /// Gives the block its label, where a line has one.
    pub fn add_label(&mut self, label: &Option<Label>)
        ensures { draft_open self.new ≡ with_label label.now (draft_open self.old) }
    {
        if let Some(label) = label {
            self.label = Some(label.copy());
        }
    }

    /// Adds so many cycles without instructions.
    pub fn add_pause(&mut self, cycles: u8)
        requires { self.old.cycles + cycles ≤ MOST_CYCLES }
        ensures { draft_open self.new ≡ with_pause cycles (draft_open self.old) }
    {
        self.cycles += u16::from(cycles);
    }

    /// Appends an instruction in the last cycle written.
    #[tactic(auto, using(std::proofs::lemmas::Grind::common_steps))]
    fn add_beside(&mut self, insn: Insn, line: u32) -> Result<(), AllocError>
        requires { IsTrue (is_some (unit_of insn)) }
        ensures { OnOk result (draft_open self.new ≡ with_part true (parts_of insn) line (draft_open self.old)) }
    {
        let Some(unit) = insn.unit() else {
            unreachable!()
        };
        self.placed.push(Placed {
            insn,
            line,
            cycle: self.cycles.saturating_sub(1),
            unit,
        })?;
        Ok(())
    }

    /// Appends an instruction in the next cycle.
    #[tactic(auto, using(std::proofs::lemmas::Grind::common_steps))]
    fn add_first(&mut self, insn: Insn, line: u32) -> Result<(), AllocError>
        requires unit { IsTrue (is_some (unit_of insn)) }
        requires short { self.old.cycles + 1 ≤ MOST_CYCLES }
        ensures { OnOk result (draft_open self.new ≡ with_part false (parts_of insn) line (draft_open self.old)) }
    {
        let Some(unit) = insn.unit() else {
            unreachable!()
        };
        self.placed.push(Placed {
            insn,
            line,
            cycle: self.cycles,
            unit,
        })?;
        self.cycles += 1;
        Ok(())
    }

    /// Adds an instruction, which has a unit: to the last packet where it stands beside that, and else as the first of the next.
    ///
    /// # Errors
    ///
    /// `AllocError` where memory ran out.
    pub fn add_insn(&mut self, beside: bool, insn: Insn, line: u32) -> Result<(), AllocError>
        requires unit { IsTrue (is_some (unit_of insn)) }
        requires short { self.old.cycles + (if beside then 0 else 1) ≤ MOST_CYCLES }
        ensures { OnOk result (draft_open self.new ≡ with_part beside (parts_of insn) line (draft_open self.old)) }
    {
        if beside {
            self.add_beside(insn, line)
        } else {
            self.add_first(insn, line)
        }
    }
}

impl Blocks {
    ghost use Rattle.c62_listing_reader.specs.Said.{opened, begun, ended, no_drafts};
    ghost use Rattle.c62_listing_reader.specs.Faults.{is_given, is_taken};
    ghost use Rattle.c62_listing_reader.specs.Reading.{draft_open, drafts_of};

    /// No block, and none that is open.
    pub fn new(alloc: Global) -> Blocks
        ensures { drafts_of result ≡ no_drafts }
    {
        Blocks {
            done: Vec::new(alloc),
            current: None,
        }
    }

    /// Ends the block that is open, if one is.
    ///
    /// # Errors
    ///
    /// `AllocError` where memory ran out.
    pub fn end_block(&mut self) -> Result<(), AllocError>
        ensures { OnOk result (drafts_of self.new ≡ ended (drafts_of self.old)) }
    {
        if let Some(block) = self.current.take() {
            self.done.push(block)?;
        }
        Ok(())
    }

    /// Opens a block where none is open.
    pub fn open_block(&mut self, alloc: Global)
        ensures { drafts_of self.new ≡ begun (drafts_of self.old) }
    {
        if self.current.is_none() {
            self.current = Some(OpenBlock::new(alloc));
        }
    }

    fn is_done(&self, label: &[u8]) -> bool
        ensures { result ≡ is_given label.now (drafts_of self.now).done }
    {
        any_labelled(&self.done, label)
    }

    fn is_current(&self, label: &[u8]) -> bool
        ensures { result ≡ is_given label.now (option_to_list (drafts_of self.now).current) }
    {
        match &self.current {
            Some(block) => label_is(label, &block.label),
            None => false,
        }
    }

    /// Whether a block has the label.
    pub fn is_taken(&self, label: Option<&[u8]>) -> bool
        ensures { result ≡ is_taken (option_copied label.entry) (drafts_of self.now) }
    {
        match label {
            Some(label) => self.is_done(label) || self.is_current(label),
            None => false,
        }
    }

    /// Whether as many blocks are over as there may be.
    pub fn is_full(&self) -> bool
        ensures { result ≡ nat_le MOST_BLOCKS (length (drafts_of self.now).done) }
    {
        MOST_BLOCKS <= self.done.len()
    }

    /// How many instructions the open block has.
    pub fn count(&self) -> usize
        ensures { result ≡ length (opened (drafts_of self.now).current).placed }
    {
        match &self.current {
            Some(block) => block.placed.len(),
            None => 0,
        }
    }

    /// How many cycles of the open block are written.
    pub fn cycles(&self) -> u16
        ensures { result ≡ (opened (drafts_of self.now).current).cycles }
    {
        match &self.current {
            Some(block) => block.cycles,
            None => 0,
        }
    }
}

fn any_labelled(blocks: &[OpenBlock], label: &[u8]) -> bool
    ensures { result ≡ list_any (λ block. label_is label.now block.label) blocks.now }
{
    blocks.iter().any(|block| label_is(label, &block.label))
}
