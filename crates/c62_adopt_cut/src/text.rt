//! The blocks of a text of packets.

ghost use Rattle.std.specs.Prelude.{◌≡◌, ◌⊎◌, ◌≤◌, ◌<◌, ◌^◌, ◌+◌, not, ◌&&◌, ◌||◌, ◌∷◌, [], ℕ, List, length, map, is_some, nat_lt, Ok, Err, Some, None, IfOk, IfSome, option_map};
ghost use Rattle.std.specs.List.{list_any};
ghost use Rattle.std.specs.Option.{option_to_list};
ghost use Rattle.c62_line.specs.Line.{said_of, parts_of};
ghost use Rattle.c62_read.specs.Program.{label_is};
ghost use Rattle.c62_read.specs.Walk.{is_instruction};
ghost use Rattle.c62_read.specs.Text.{lines_of};
ghost use Rattle.c62_adopt_line.specs.Line.{Line, line_written};
ghost use Rattle.c62_adopt_cut.specs.Cut.{stand_of};
ghost use Rattle.c62_adopt_cut.specs.Clock.{IsClockOf, HasClock};
ghost use Rattle.c62_adopt_cut.specs.Drafted.{draft_of, drafts_of};

use crate::clock::{Clock, Stand};
use crate::draft::{Draft, Drafts};
use crate::fault::{TextCause, TextFault};
use c62_adopt_line::{LineFault, Written, read_line};
use c62_insn::Insn;
use c62_line::{Cause, Label, What};
use c62_op::InstructionSet;
use c62_packet::MOST_CYCLES;
use c62_read::{MOST_BLOCKS, MOST_INSTRUCTIONS, first_line, label_is};
use std::alloc::{AllocError, Global};

/// The most bytes that a text of packets may have.
pub const MOST_BYTES: usize = 8_388_608;

/// What was read of a text.
#[derive(Drop)]
pub(crate) struct Reader {
    pub clock: Clock,
    pub drafts: Drafts,
}

/// What is read of a text of packets: its blocks as far as its first line with a fault, and that fault.
#[derive(Drop)]
pub struct Cut {
    /// The blocks of the lines above the fault, or of the whole text.
    pub drafts: Vec<Draft>,
    /// How many cycles those lines take.
    pub cycles: u32,
    /// The first fault that a line has by itself or because of the lines above it.
    pub fault: Option<TextFault>,
}

ghost use Rattle.c62_adopt_cut.specs.Text.{is_taken, end_of, ends_behind, is_too_late, begins_block, is_full, is_one_more, begins_one_more, hindrance, line_judged, cut_at, read_below, too_long, text_cut};
ghost use Rattle.c62_adopt_cut.specs.Added.{TellsCause, TellsOfWritten, TellsOfLine};
ghost use Rattle.c62_adopt_cut.specs.Blocks.{no_drafts, all_drafts};
ghost use Rattle.c62_adopt_cut.specs.Drafted.{refusal_of, cut_of};

pub(crate) fn is_given(label: &[u8], drafts: &[Draft]) -> bool
    ensures { result ≡ list_any (λ draft. label_is label.now draft.label) drafts.now }
{
    drafts.iter().any(|draft| label_is(label, &draft.label))
}

impl Drafts {
    fn is_done(&self, label: &[u8]) -> bool
        ensures { result ≡ list_any (λ draft. label_is label.now draft.label) (drafts_of self.now).done }
    {
        is_given(label, &self.done)
    }

    fn is_current(&self, label: &[u8]) -> bool
        ensures { result ≡ list_any (λ draft. label_is label.now draft.label) (option_to_list (drafts_of self.now).current) }
    {
        match &self.current {
            Some(draft) => label_is(label, &draft.label),
            None => false,
        }
    }

    /// Whether a block has the label.
    fn is_taken(&self, label: &Option<Label>) -> bool
        ensures { result ≡ is_taken label.now (drafts_of self.now) }
    {
        match label {
            Some(label) => self.is_done(label.as_bytes()) || self.is_current(label.as_bytes()),
            None => false,
        }
    }

    fn is_full(&self) -> bool
        ensures { result ≡ is_full (drafts_of self.now).current }
    {
        match &self.current {
            Some(draft) => MOST_INSTRUCTIONS <= draft.issues.len(),
            None => false,
        }
    }
}

/// The cycle before which all lands that an instruction writes which is issued in this cycle. A branch takes effect in it.
pub(crate) fn end_of(insn: Insn, cycle: u64) -> u64
    requires { cycle < 2 ^ 40 }
    ensures end { result ≡ end_of (parts_of insn) cycle }
    ensures near { result ≤ cycle + 256 }
{
    if insn.op().is_branch() {
        cycle + 6
    } else {
        cycle + u64::from(insn.greatest_delay()) + 1
    }
}

/// Whether something of the line is in flight behind the last cycle that its block may have.
fn is_too_late(stand: Stand, what: &What) -> bool
    ensures { result ≡ is_too_late stand (said_of what.now) }
{
    match what {
        What::Insn(insn) | What::Jump(insn, _) => {
            let last = u64::from(stand.start) + u64::from(MOST_CYCLES);
            last < end_of(*insn, u64::from(stand.cycle))
        }
        What::Empty | What::Nop(_) => false,
    }
}

fn is_instruction(what: &What) -> bool
    ensures { result ≡ is_instruction (said_of what.now) }
{
    matches!(what, What::Insn(_) | What::Jump(_, _))
}

impl Drafts {
    /// Whether a line that stands there begins a block.
    fn begins_block(&self, stand: Stand, line: &Written) -> bool
        ensures { result ≡ begins_block stand (line_written line.now) (drafts_of self.now) }
    {
        line.label.is_some() || is_instruction(&line.what) && !self.begins_at(stand.start)
    }

    /// Whether the line is an instruction of a block that has as many as it may.
    fn is_one_more(&self, stand: Stand, line: &Written) -> bool
        ensures { result ≡ is_one_more stand (line_written line.now) (drafts_of self.now) }
    {
        is_instruction(&line.what) && !self.begins_block(stand, line) && self.is_full()
    }

    /// Whether the line begins a block behind as many as there may be.
    fn begins_one_more(&self, stand: Stand, line: &Written) -> bool
        ensures { result ≡ begins_one_more stand (line_written line.now) (drafts_of self.now) }
    {
        self.begins_block(stand, line) && MOST_BLOCKS <= self.blocks()
    }
}

impl Reader {
    /// What stands against a line that says something by itself and stands there.
    #[tactic(auto, unfolding(crate::specs::Text::hindrance))]
    fn hindrance(&self, stand: Stand, line: &Written) -> Option<TextCause>
        ensures { (above : List Line) → IsClockOf self.now.clock above → stand ≡ stand_of above (line_written line.now)
            → result ≡ hindrance above (drafts_of self.now.drafts) (line_written line.now) }
    {
        let cause = if line.beside && !self.clock.has_packet() {
            Cause::ParallelBar
        } else if self.drafts.is_taken(&line.label) {
            Cause::DuplicateLabel
        } else if is_too_late(stand, &line.what) {
            return Some(TextCause::TooManyCycles);
        } else if self.drafts.is_one_more(stand, line) {
            Cause::TooManyInstructions
        } else if self.drafts.begins_one_more(stand, line) {
            Cause::TooManyBlocks
        } else {
            return None;
        };
        Some(TextCause::Line(LineFault::Read(cause)))
    }
}

impl Drafts {
    /// The blocks, of which the last is over.
    fn ended(self) -> Result<Vec<Draft>, AllocError>
        ensures { IfOk result (λ drafts. map draft_of drafts.items ≡ all_drafts (drafts_of self)) }
    {
        let mut drafts = self.done;
        if let Some(draft) = self.current {
            drafts.push(draft)?;
        }
        Ok(drafts)
    }
}

/// The fault of a line, where it doesn't say that memory ran out.
fn cause_of(fault: LineFault) -> Result<TextCause, AllocError>
    ensures { TellsCause fault result }
{
    match fault {
        LineFault::Memory => Err(AllocError),
        LineFault::Read(_) | LineFault::UnitWanted => Ok(TextCause::Line(fault)),
    }
}

impl Reader {
    fn new(alloc: Global) -> Reader
        ensures clock { IsClockOf result.clock [] }
        ensures drafts { drafts_of result.drafts ≡ no_drafts }
    {
        Reader {
            clock: Clock::new(),
            drafts: Drafts::new(alloc),
        }
    }

    /// Adds a line of this number that says something by itself. One with a fault is not added, and the fault is answered.
    fn add_written(
        &mut self,
        alloc: Global,
        number: u32,
        line: Written,
    ) -> Result<Option<TextCause>, AllocError>
        requires small { self.old.clock.now < 2 ^ 31 }
        requires clock { HasClock self.old.clock }
        ensures { (above : List Line) → IsClockOf self.old.clock above
            → IfOk result (TellsOfWritten above number (line_written line) self.old self.new) }
    {
        let mut clock = self.clock;
        let stand = clock.pass(&line);
        if let Some(cause) = self.hindrance(stand, &line) {
            return Ok(Some(cause));
        }
        self.drafts.add(alloc, number, stand, line)?;
        self.clock = clock;
        Ok(None)
    }

    /// Adds a line of this number. One with a fault is not added, and the fault is answered.
    fn add_line(
        &mut self,
        isa: InstructionSet,
        alloc: Global,
        text: &mut Vec<u8>,
        number: u32,
        bytes: &[u8],
    ) -> Result<Option<TextCause>, AllocError>
        requires small { self.old.clock.now < 2 ^ 31 }
        requires clock { HasClock self.old.clock }
        ensures { (above : List Line) → IsClockOf self.old.clock above
            → IfOk result (TellsOfLine isa above number bytes.now self.old self.new) }
    {
        match read_line(isa, text, bytes) {
            Ok(line) => self.add_written(alloc, number, line),
            Err(fault) => cause_of(fault).map(Some),
        }
    }

    /// What was read, as far as this fault.
    fn cut(self, fault: Option<TextFault>) -> Result<Cut, AllocError>
        ensures { (above : List Line) → IsClockOf self.clock above
            → IfOk result (λ cut. cut_of cut ≡ cut_at above (drafts_of self.drafts) (option_map refusal_of fault)) }
    {
        Ok(Cut {
            cycles: self.clock.cycles(),
            drafts: self.drafts.ended()?,
            fault,
        })
    }
}

/// What is read of a text that is not too long.
fn read_lines(isa: InstructionSet, alloc: Global, text: &[u8]) -> Result<Cut, AllocError>
    requires { length text.now ≤ MOST_BYTES }
    ensures { IfOk result (λ cut. cut_of cut ≡ read_below isa [] no_drafts 1 (lines_of text.now)) }
{
    let mut reader = Reader::new(alloc);
    let mut plain = Vec::new(alloc);
    let mut rest = text;
    let mut number = 1;
    while let Some((line, after)) = first_line(rest) {
        if let Some(cause) = reader.add_line(isa, alloc, &mut plain, number, line)? {
            return reader.cut(Some(TextFault::at(number, cause)));
        }
        number += 1;
        rest = after;
    }
    reader.cut(None)
}

/// What is read of a text that is too long.
fn too_long(alloc: Global) -> Result<Cut, AllocError>
    ensures { IfOk result (λ cut. cut_of cut ≡ too_long) }
{
    let cause = TextCause::Line(LineFault::Read(Cause::TextTooLong));
    Reader::new(alloc).cut(Some(TextFault::at(0, cause)))
}

/// What is read of a text of packets: its blocks, each with its label and its instructions where they stand (docs/ADOPT.md,
/// "Blocks"), as far as its first line with a fault by itself or below the lines above it, and that fault. Nothing of that line
/// is among the blocks.
///
/// A text with more than [`MOST_BYTES`] bytes has the fault `TextTooLong` with line 0, and no blocks.
///
/// # Errors
///
/// Where memory runs out.
#[tactic(auto, unfolding(crate::specs::Text::text_cut))]
pub fn read_cut(isa: InstructionSet, alloc: Global, text: &[u8]) -> Result<Cut, AllocError>
    ensures { IfOk result (λ cut. cut_of cut ≡ text_cut isa text.now) }
{
    if text.len() > MOST_BYTES {
        too_long(alloc)
    } else {
        read_lines(isa, alloc, text)
    }
}
