//! The rows of a text of packets.

ghost use Rattle.std.specs.Prelude.{◌≡◌, ◌≤◌, ◌+◌, ◌<◌, ℕ, List, length, map, MatchResult, IfOk};
ghost use Rattle.std.specs.Option.{option_copied};
ghost use Rattle.c62_rows.specs.Read.{reading_of};
ghost use Rattle.c62_rows.specs.Reading.{all_rows};

use crate::fault::{RowsCause, RowsFault};
use crate::half::set_words;
use crate::key::Key;
use crate::reader::Reader;
use crate::rows::{Row, Rows};
use crate::word::undotted;
use c62_adopt_cut::MOST_BYTES;
use c62_adopt_line::LineFault;
use c62_line::{Cause, Label};
use c62_op::InstructionSet;
use c62_read::first_line;
use c62_token::number::is_label;
use indexmap::IndexMap;
use std::alloc::{AllocError, Global};

/// A text of packets by rows, with the rows of its labels.
#[derive(Drop)]
pub struct RowsText {
    pub rows: Rows,
    labels: IndexMap<Key, u32>,
}

ghost use Rattle.c62_rows.specs.Sound.{IsSound};
ghost use Rattle.c62_rows.specs.Text.{row_from, first_row, IsReading, Refuses, RefusesFrom};
ghost use Rattle.c62_rows.specs.Word.{row_named};
ghost use Rattle.c62_rows.specs.Worded.{AreWorded};
ghost use Rattle.c62_rows.specs.Rows.{row_read};
ghost use Rattle.c62_rows.specs.Collected.{Collects};
ghost use Rattle.c62_rows.specs.Told.{names_of, LosesTarget, FindsAims, ReadsAs, BeginsAs};

impl RowsText {
    fn row_named(&self, label: Label) -> Option<u32>
        ensures { result ≡ row_named label (names_of self.now) }
    {
        self.labels.get(&Key::new(label)).copied()
    }

    /// The row that begins below the label of this name, whose dots are read as `_`, or the number of rows where none does. There
    /// is none where no line has the label.
    ///
    /// # Errors
    ///
    /// Where memory ran out.
    pub fn row_from(&self, alloc: Global, name: &[u8]) -> Result<Option<u32>, AllocError>
        ensures { IfOk result (λ row. row ≡ row_from name.now (names_of self.now)) }
    {
        let plain = undotted(alloc, name)?;
        if is_label(&plain) {
            Ok(self.row_named(Label::new(&plain)))
        } else {
            Ok(None)
        }
    }
}

/// The row of each label that branches and words name. The first of them that no line has is told by the first line that names it.
fn aims_of(
    alloc: Global,
    targets: &IndexMap<Key, u32>,
    labels: &IndexMap<Key, u32>,
) -> Result<Vec<u32>, RowsFault>
    ensures { MatchResult result (λ aims. FindsAims targets.now.entries labels.now.entries aims.items) (LosesTarget targets.now.entries labels.now.entries) }
{
    let mut aims = Vec::with_capacity(alloc, targets.len())?;
    for (target, line) in targets.iter() {
        match labels.get(target) {
            Some(row) => aims.push(*row)?,
            None => {
                let cause = RowsCause::Line(LineFault::Read(Cause::UnknownTarget));
                return Err(RowsFault::At(*line, cause));
            }
        }
    }
    Ok(aims)
}

/// The rows that are over with the words of labels.
#[tactic(auto, using(crate::proofs::Worded::rows_unworded))]
fn rows_of(done: Vec<Row>, words: &IndexMap<u32, Label>, labels: &IndexMap<Key, u32>) -> Vec<Row>
    ensures { AreWorded words.now.entries labels.now.entries (map row_read done.items) (map row_read result.items) }
{
    let mut rows = done;
    if !words.is_empty() {
        set_words(words, labels, &mut rows);
    }
    rows
}

/// The rows that are over, the rows of the labels that branches and words name, and those of all labels.
fn collected(alloc: Global, reader: Reader) -> Result<RowsText, RowsFault>
    ensures { MatchResult result (Collects (reading_of reader)) (LosesTarget (reading_of reader).targets (reading_of reader).labels) }
{
    let aims = aims_of(alloc, &reader.targets, &reader.labels)?;
    let labels = reader.labels;
    let words = reader.words;
    let rows = rows_of(reader.done, &words, &labels);
    Ok(RowsText {
        rows: Rows { rows, aims },
        labels,
    })
}

/// What is read of a text of which all lines are.
#[tactic(auto, using(crate::proofs::Finished::finish_told))]
fn finished(isa: InstructionSet, alloc: Global, reader: Reader) -> Result<RowsText, RowsFault>
    requires sound { IsSound (reading_of reader) }
    requires few { length (all_rows (reading_of reader)) ≤ MOST_BYTES }
    ensures { (text : List ℕ) → IsReading isa text (reading_of reader) → MatchResult result (ReadsAs isa text) (Refuses isa text) }
{
    let mut reader = reader;
    reader.close()?;
    collected(alloc, reader)
}

/// What is read of a text that is not too long.
#[tactic(auto, using(crate::proofs::ReadLemmas::none_read, crate::proofs::ReadLemmas::ready_so_far, crate::proofs::ReadLemmas::few_so_far, crate::proofs::ReadLemmas::number_so_far, crate::proofs::ReadLemmas::sound_so_far))]
fn read_lines(isa: InstructionSet, alloc: Global, text: &[u8]) -> Result<RowsText, RowsFault>
    requires { length text.now ≤ MOST_BYTES }
    ensures { MatchResult result (ReadsAs isa text.now) (Refuses isa text.now) }
{
    let mut reader = Reader::new(alloc);
    let mut plain = Vec::new(alloc);
    let mut rest = text;
    let mut number = 1;
    while let Some((line, after)) = first_line(rest) {
        if let Some(cause) = reader.add_line(isa, alloc, &mut plain, number, line)? {
            return Err(RowsFault::At(number, cause));
        }
        number += 1;
        rest = after;
    }
    finished(isa, alloc, reader)
}

/// The rows of a text of packets, as people and compilers write them (docs/EXEC.md): each packet with its cycles, each label that
/// branches and words name with its row, and the rows of all labels. MVKL and MVKH of a label have the halves of its address.
/// Nothing is asked of what is in flight from one row to another.
///
/// # Errors
///
/// `At` with the first line that has a fault by itself or because of the lines above it, and else with the first that names a
/// label, by a branch or for its word, that no line has. A text of more than [`MOST_BYTES`] bytes is `TextTooLong` with line 0. `Memory` where memory
/// ran out, which may come in place of any answer.
pub fn read_rows(isa: InstructionSet, alloc: Global, text: &[u8]) -> Result<RowsText, RowsFault>
    ensures { MatchResult result (ReadsAs isa text.now) (Refuses isa text.now) }
{
    if text.len() > MOST_BYTES {
        let cause = RowsCause::Line(LineFault::Read(Cause::TextTooLong));
        return Err(RowsFault::At(0, cause));
    }
    read_lines(isa, alloc, text)
}

/// The rows of a text, the one with which a run begins, and those of its labels.
#[derive(Drop)]
pub struct Begun {
    pub rows: Rows,
    pub first: u32,
    /// Each label with the row that begins below it, or the number of rows where none does, in the order of the text.
    pub labels: IndexMap<Key, u32>,
}

impl RowsText {
    /// The row of the label of this name, and the first where none is named.
    fn first_row(&self, alloc: Global, from: Option<&[u8]>) -> Result<Option<u32>, AllocError>
        ensures { IfOk result (λ row. row ≡ first_row (option_copied from.entry) (names_of self.now)) }
    {
        match from {
            Some(name) => self.row_from(alloc, name),
            None => Ok(Some(0)),
        }
    }
}

/// The rows of a text of packets, the row with which a run begins, and those of its labels. A run begins with the row of the label
/// of this name, whose dots are read as `_`, or with the first where none is named.
///
/// # Errors
///
/// Those of [`read_rows`], and else `From` where no line has the label.
#[tactic(auto, using(crate::proofs::FinishLemmas::begins_as, crate::proofs::FinishLemmas::lacks_start, crate::proofs::FinishLemmas::refuses_first))]
pub fn read_from(
    isa: InstructionSet,
    alloc: Global,
    text: &[u8],
    from: Option<&[u8]>,
) -> Result<Begun, RowsFault>
    ensures { MatchResult result (BeginsAs isa text.now (option_copied from.entry)) (RefusesFrom isa text.now (option_copied from.entry)) }
{
    let read = read_rows(isa, alloc, text)?;
    match read.first_row(alloc, from)? {
        Some(first) => Ok(Begun {
            rows: read.rows,
            first,
            labels: read.labels,
        }),
        None => Err(RowsFault::From),
    }
}
