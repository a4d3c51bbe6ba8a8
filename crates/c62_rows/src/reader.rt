//! Reads the lines of a text of packets.

ghost use Rattle.std.specs.Prelude.{◌≡◌, ◌+◌, ◌*◌, ◌≤◌, ◌<◌, ◌^◌, ◌++◌, ◌∷◌, [], All, length, map, is_some, true, false, None, Some, IfOk, OnOk, IfSome, MatchOption};
ghost use Rattle.std.specs.Map.{lookup};
ghost use Rattle.std.specs.Str.{bytes_eq};
ghost use Rattle.c62_line.specs.Line.{Does, said_of, parts_of};
ghost use Rattle.c62_insn.specs.Insn.{unit_of};
ghost use Rattle.c62_adopt_line.specs.Laws.{HasUnit};
ghost use Rattle.c62_adopt_line.specs.Line.{line_written};
ghost use Rattle.c62_adopt_cut.specs.Cut.{begins_packet};

use crate::fault::RowsCause;
use crate::key::Key;
use crate::rows::{Row, breach};
use crate::word::{Said, read_said};
use c62_adopt_line::{LineFault, Written};
use c62_insn::Insn;
use c62_line::{Cause, Label, What, copied_label};
use c62_op::InstructionSet;
use c62_packet::Placed;
use indexmap::IndexMap;
use std::alloc::{AllocError, Global};

/// The most labels that branches and words may name.
pub const MOST_TARGETS: usize = 256;

/// What was read of a text: the rows that are over and the one that a line with bars goes on with, each label with its row, each
/// label that branches or words name with the first line of one, and the label of each line that takes the word of one.
#[derive(Drop)]
pub(crate) struct Reader {
    pub done: Vec<Row>,
    pub current: Option<Row>,
    pub labels: IndexMap<Key, u32>,
    pub targets: IndexMap<Key, u32>,
    pub words: IndexMap<u32, Label>,
}

ghost use Rattle.c62_rows.specs.Reading.{no_reading, all_rows, closed, with_label, begun, on_current, number_of, is_target, with_target, insns_above, numbered, IsPlaced, is_given, is_beyond, is_one_more, is_word_more, hindrance, at_line, with_named};
ghost use Rattle.c62_rows.specs.Named.{named};
ghost use Rattle.c62_rows.specs.Rows.{with_insn, with_idle, MayJoin, IsBreach};
ghost use Rattle.c62_rows.specs.Read.{reading_of, said_read, IsReady, TellsOfInsn, TellsOfSays, TellsOfSaid, TellsOfLine, TellsCause};

impl Reader {
    /// Above all lines.
    pub(crate) fn new(alloc: Global) -> Reader
        ensures { reading_of result ≡ no_reading }
    {
        Reader {
            done: Vec::new(alloc),
            current: None,
            labels: IndexMap::new(alloc),
            targets: IndexMap::new(alloc),
            words: IndexMap::new(alloc),
        }
    }

    /// The packet that is open is over.
    pub(crate) fn close(&mut self) -> Result<(), AllocError>
        ensures { OnOk result (reading_of self.new ≡ closed (reading_of self.old)) }
    {
        if let Some(row) = self.current.take() {
            self.done.push(row)?;
        }
        Ok(())
    }

    /// A label names the row behind those that are over.
    #[tactic(auto, using(crate::proofs::Labelled::inserted_row))]
    fn name_row(&mut self, label: Label) -> Result<(), AllocError>
        requires new { is_given (Some label) (reading_of self.old) ≡ false }
        requires few { length (reading_of self.old).done < 2 ^ 32 }
        ensures { OnOk result (reading_of self.new ≡ named label (reading_of self.old)) }
    {
        let row = self.done.len() as u32;
        self.labels.insert(Key::new(label), row)?;
        Ok(())
    }

    /// A label names the row that begins below it.
    #[tactic(auto, using(crate::proofs::Labelled::given_there, crate::proofs::Labelled::few_there, crate::proofs::Labelled::labelled))]
    fn add_label(&mut self, label: Option<Label>) -> Result<(), AllocError>
        requires new { is_given label (reading_of self.old) ≡ false }
        requires few { length (all_rows (reading_of self.old)) < 2 ^ 32 }
        ensures { OnOk result (reading_of self.new ≡ with_label label (reading_of self.old)) }
    {
        let Some(label) = label else { return Ok(()) };
        self.close()?;
        self.name_row(label)
    }

    /// A line begins a row, or goes on with the one that is open.
    fn begin(&mut self, alloc: Global, line: &Written) -> Result<(), AllocError>
        ensures { OnOk result (reading_of self.new ≡ begun (line_written line.now) (reading_of self.old)) }
    {
        let filled = !matches!(line.what, What::Empty);
        if filled && !line.beside {
            self.close()?;
            self.current = Some(Row::new(alloc));
        }
        Ok(())
    }

    /// A line's label names a row, and the line begins one or goes on with the one that is open.
    fn begin_at(&mut self, alloc: Global, line: &Written) -> Result<(), AllocError>
        requires new { is_given line.now.label (reading_of self.old) ≡ false }
        requires few { length (all_rows (reading_of self.old)) < 2 ^ 32 }
        ensures { OnOk result (reading_of self.new ≡ at_line (line_written line.now) (reading_of self.old)) }
    {
        self.add_label(copied_label(&line.label))?;
        self.begin(alloc, line)
    }

    fn put(&mut self, placed: Placed) -> Result<(), AllocError>
        ensures { OnOk result (reading_of self.new ≡ on_current (with_insn placed) (reading_of self.old)) }
    {
        match &mut self.current {
            None => Ok(()),
            Some(row) => row.put(placed),
        }
    }

    fn wait(&mut self, cycles: u32)
        requires { IfSome self.old.current (λ row. row.idle + cycles < 2 ^ 32) }
        ensures { reading_of self.new ≡ on_current (with_idle cycles) (reading_of self.old) }
    {
        if let Some(row) = &mut self.current {
            row.wait(cycles);
        }
    }
}

/// An instruction of a line on its written unit, in the first cycle of its row.
fn placed_at(insn: Insn, line: u32) -> Placed
    requires { is_some (unit_of insn) ≡ true }
    ensures placed { IsPlaced (numbered line (parts_of insn)) result }
    ensures cycle { result.cycle ≡ 0 }
{
    let Some(unit) = insn.unit() else {
        unreachable!()
    };
    Placed {
        insn,
        line,
        cycle: 0,
        unit,
    }
}

/// The fault of a line, where it doesn't say that memory ran out.
fn cause_of(fault: LineFault) -> Result<RowsCause, AllocError>
    ensures { TellsCause fault result }
{
    match fault {
        LineFault::Memory => Err(AllocError),
        LineFault::Read(_) | LineFault::UnitWanted => Ok(RowsCause::Line(fault)),
    }
}

impl Reader {
    fn is_given(&self, label: &Option<Label>) -> bool
        ensures { result ≡ is_given label.now (reading_of self.now) }
    {
        match label {
            Some(label) => self.labels.contains_key(&Key::new(label.copy())),
            None => false,
        }
    }

    fn is_target(&self, label: &Label) -> bool
        ensures { result ≡ is_target label.now (reading_of self.now) }
    {
        self.targets.contains_key(&Key::new(label.copy()))
    }

    /// Whether this is one label more than may be named.
    fn is_beyond(&self, label: &Label) -> bool
        ensures { result ≡ is_beyond label.now (reading_of self.now) }
    {
        !self.is_target(label) && MOST_TARGETS <= self.targets.len()
    }

    fn is_word_more(&self, word: &Option<Label>) -> bool
        ensures { result ≡ is_word_more word.now (reading_of self.now) }
    {
        match word {
            Some(label) => self.is_beyond(label),
            None => false,
        }
    }

    /// Whether the word of an instruction, or a branch, names one label more.
    fn is_one_more(&self, word: &Option<Label>, what: &What) -> bool
        ensures { result ≡ is_one_more word.now (said_of what.now) (reading_of self.now) }
    {
        match what {
            What::Insn(_) => self.is_word_more(word),
            What::Jump(_, target) => self.is_beyond(target),
            What::Empty | What::Nop(_) => false,
        }
    }

    /// What stands against a line that says something by itself, whatever its instruction is.
    #[tactic(auto, unfolding(crate::specs::Reading::hindrance))]
    fn hindrance(&self, said: &Said) -> Option<RowsCause>
        ensures { result ≡ hindrance (said_read said.now) (reading_of self.now) }
    {
        if said.line.beside && self.current.is_none() {
            Some(RowsCause::Line(LineFault::Read(Cause::ParallelBar)))
        } else if self.is_given(&said.line.label) {
            Some(RowsCause::Line(LineFault::Read(Cause::DuplicateLabel)))
        } else if self.is_one_more(&said.word, &said.line.what) {
            Some(RowsCause::TooManyTargets)
        } else {
            None
        }
    }

    /// The number under which branches go to a label: its place among those that are named, or the next.
    #[tactic(auto, using(crate::proofs::Tables::inserted, crate::proofs::Tables::place_found, crate::proofs::Tables::is_there, crate::proofs::Tables::is_new, crate::proofs::Tables::place_next))]
    fn number_of(&mut self, target: Label, line: u32) -> Result<u8, AllocError>
        requires few { length self.old.targets.entries ≤ 256 }
        requires room { is_target target (reading_of self.old) ≡ false → length self.old.targets.entries < 256 }
        ensures number { IfOk result (λ number. number ≡ number_of target (reading_of self.old)) }
        ensures added { OnOk result (reading_of self.new ≡ with_target target line (reading_of self.old)) }
    {
        let key = Key::new(target);
        if let Some(number) = self.targets.get_index_of(&key) {
            return Ok(number as u8);
        }
        let number = self.targets.len() as u8;
        self.targets.insert(key, line)?;
        Ok(number)
    }

    /// The instructions of the packet that is open.
    fn insns_above(&self) -> &[Placed]
        ensures { result.now ≡ insns_above (reading_of self.now) }
    {
        match &self.current {
            Some(row) => &row.insns,
            None => &[],
        }
    }

    /// What stands against an instruction in the packet that is open.
    fn against(&self, placed: &Placed) -> Option<RowsCause>
        requires cycles { All (λ p. p.cycle ≡ 0) (insns_above (reading_of self.now)) }
        requires cycle { placed.now.cycle ≡ 0 }
        ensures { MatchOption result (MayJoin (insns_above (reading_of self.now)) placed.now) (IsBreach (insns_above (reading_of self.now)) placed.now) }
    {
        breach(self.insns_above(), placed)
    }

    /// Adds an instruction to the packet that is open, where nothing there stands against it; what does is answered.
    #[tactic(auto, using(crate::proofs::AddLemmas::breaks_told, crate::proofs::AddLemmas::adds_told))]
    fn add_insn(&mut self, insn: Insn, line: u32) -> Result<Option<RowsCause>, AllocError>
        requires unit { is_some (unit_of insn) ≡ true }
        requires cycles { All (λ p. p.cycle ≡ 0) (insns_above (reading_of self.old)) }
        ensures { IfOk result (TellsOfInsn (numbered line (parts_of insn)) self.old self.new) }
    {
        let placed = placed_at(insn, line);
        if let Some(cause) = self.against(&placed) {
            return Ok(Some(cause));
        }
        self.put(placed)?;
        Ok(None)
    }

    /// The line of this number takes the word of a label, where one is named.
    #[tactic(auto, using(crate::proofs::AddLemmas::room_for))]
    fn add_word(&mut self, word: Option<Label>, line: u32) -> Result<(), AllocError>
        requires few { length self.old.targets.entries ≤ 256 }
        requires room { is_word_more word (reading_of self.old) ≡ false }
        ensures { OnOk result (reading_of self.new ≡ with_named word line (reading_of self.old)) }
    {
        let Some(label) = word else { return Ok(()) };
        self.number_of(label.copy(), line)?;
        self.words.insert(line, label)?;
        Ok(())
    }

    /// Adds an instruction, which may take the word of a label; what stands against it is answered.
    #[tactic(auto, using(crate::proofs::AddLemmas::worded_ok, crate::proofs::AddLemmas::named_insns))]
    fn add_worded(
        &mut self,
        line: u32,
        word: Option<Label>,
        insn: Insn,
    ) -> Result<Option<RowsCause>, AllocError>
        requires unit { is_some (unit_of insn) ≡ true }
        requires ready { IsReady (reading_of self.old) }
        requires room { is_word_more word (reading_of self.old) ≡ false }
        ensures { IfOk result (TellsOfSays line word (Does (parts_of insn)) self.old self.new) }
    {
        self.add_word(word, line)?;
        self.add_insn(insn, line)
    }

    /// Adds what stands behind a line's label and bars; what stands against it is answered.
    #[tactic(auto, using(crate::proofs::AddLemmas::jumps_ok, crate::proofs::AddLemmas::target_insns))]
    fn add_what(
        &mut self,
        line: u32,
        word: Option<Label>,
        what: What,
    ) -> Result<Option<RowsCause>, AllocError>
        requires unit { HasUnit (said_of what) }
        requires ready { IsReady (reading_of self.old) }
        requires room { is_one_more word (said_of what) (reading_of self.old) ≡ false }
        ensures { IfOk result (TellsOfSays line word (said_of what) self.old self.new) }
    {
        match what {
            What::Empty => Ok(None),
            What::Nop(cycles) => {
                self.wait(u32::from(cycles).saturating_sub(1));
                Ok(None)
            }
            What::Insn(insn) => self.add_worded(line, word, insn),
            What::Jump(insn, target) => {
                let number = self.number_of(target, line)?;
                self.add_insn(insn.aimed(number), line)
            }
        }
    }

    /// Adds a line that says something by itself; what stands against it is answered.
    #[tactic(auto, using(crate::proofs::AddLemmas::said_ok, crate::proofs::AddLemmas::label_new, crate::proofs::AddLemmas::ready_there, crate::proofs::AddLemmas::room_new))]
    fn add_said(
        &mut self,
        alloc: Global,
        number: u32,
        said: Said,
    ) -> Result<Option<RowsCause>, AllocError>
        requires unit { HasUnit (said_of said.line.what) }
        requires few { length (all_rows (reading_of self.old)) < 2 ^ 31 }
        requires ready { IsReady (reading_of self.old) }
        ensures { IfOk result (TellsOfSaid number (said_read said) self.old self.new) }
    {
        if let Some(cause) = self.hindrance(&said) {
            return Ok(Some(cause));
        }
        self.begin_at(alloc, &said.line)?;
        self.add_what(number, said.word, said.line.what)
    }

    /// Adds a line; its fault is answered.
    #[tactic(auto, using(crate::proofs::AddLemmas::line_ok, crate::proofs::AddLemmas::fault_refuses, crate::proofs::AddLemmas::unit_there))]
    pub(crate) fn add_line(
        &mut self,
        isa: InstructionSet,
        alloc: Global,
        text: &mut Vec<u8>,
        number: u32,
        bytes: &[u8],
    ) -> Result<Option<RowsCause>, AllocError>
        requires few { length (all_rows (reading_of self.old)) < 2 ^ 31 }
        requires ready { IsReady (reading_of self.old) }
        ensures { IfOk result (TellsOfLine isa number bytes.now self.old self.new) }
    {
        match read_said(isa, alloc, text, bytes) {
            Ok(said) => self.add_said(alloc, number, said),
            Err(fault) => cause_of(fault).map(Some),
        }
    }
}
