//! The line that stands for another one.

ghost use Rattle.c62_line.specs.declared.limits.TheConstants.{MOST_LINE};
ghost use Rattle.std.specs.Prelude.{◌≡◌, ◌==◌, ◌≤◌, ◌++◌, length, drop, codes, true, false, not, Ok, IfOk, OnOk, IsTrue};
ghost use Rattle.std.specs.List.{list_any};
ghost use Rattle.std.specs.Option.{option_copied};
ghost use Rattle.c62_token.specs.Token.{begins, is_word_byte, tokens, words_left};
ghost use Rattle.c62_line.specs.Line.{said_of};
ghost use Rattle.c62_adopt_line.specs.Line.{behind_bars, line_says, line_written};
ghost use Rattle.c62_adopt_spell.specs.declared.comment.Place.TheVariants.{Code};
ghost use Rattle.c62_adopt_spell.specs.Comment.{blanked, is_remark};
ghost use Rattle.c62_adopt_spell.specs.Statement.{stated};
ghost use Rattle.c62_adopt_spell.specs.Line.{column_label, labelled, with_label, with_bars, respelled, is_readable, is_nothing, speaks, reads, if_better, set_by, spelled_plain, names_plain, last_byte, without_end, spelled, names_below, counts_below, with_locals, IsItself, IsPlain};
ghost use Rattle.c62_adopt_spell.specs.Local.{counted, local_of, named_locals};

use crate::comment::{all_end, is_remark, push_blanked};
use crate::local::Locals;
use crate::names::{Setting, setting_of};
use crate::operation::begins_instruction;
use crate::statement::{Words, has_pair, push_stated};
use c62_adopt_line::{LineFault, Written, behind_bars, behind_colon, label_of, read_line};
use c62_line::{Label, MOST_LINE, What};
use c62_op::InstructionSet;
use c62_token::number::is_label;
use c62_token::{Tokens, scan_line};
use std::alloc::{AllocError, Global};

fn is_letter(b: u8) -> bool
    ensures { result ≡ is_word_byte b }
{
    b.is_ascii_alphanumeric() || b == b'_' || b == b'$'
}

/// Whether a word begins in the first column.
fn begins_in_column(line: &[u8]) -> bool
    ensures { result ≡ begins is_word_byte line.now }
{
    match line {
        [] => false,
        [b, ..] => is_letter(*b),
    }
}

/// The word that stands in the first column, where it is a label and no instruction.
fn column_label(isa: InstructionSet, line: &[u8]) -> Option<&[u8]>
    ensures { option_copied result ≡ column_label isa line.now (tokens line.now) }
{
    let words = Tokens::new(line);
    let word = words.peek()?;
    if begins_in_column(line) && is_label(word) && !begins_instruction(isa, words) {
        Some(word)
    } else {
        None
    }
}

/// What stands behind the label in the first column.
fn behind_word<'a>(word: &[u8], line: &'a [u8]) -> &'a [u8]
    ensures { result.now ≡ drop (length word.now) line.now }
{
    if word.len() <= line.len() {
        &line[word.len()..]
    } else {
        b""
    }
}

/// Appends a label with its colon, and what stands behind it.
fn push_labelled(
    text: &mut Vec<u8>,
    words: &mut Words,
    names: &[Setting],
    label: &[u8],
    statement: &[u8],
) -> Result<(), AllocError>
    ensures { OnOk result (text.new.items ≡ text.old.items ++ label.now ++ codes ":" ++ stated names.now statement.now) }
{
    text.extend_from_slice(label)?;
    text.extend_from_slice(b":")?;
    push_stated(text, words, names, statement)
}

/// Appends a line without bars and without a colon behind a label.
fn push_plain_labelled(
    isa: InstructionSet,
    text: &mut Vec<u8>,
    words: &mut Words,
    names: &[Setting],
    line: &[u8],
) -> Result<(), AllocError>
    ensures { OnOk result (text.new.items ≡ text.old.items ++ labelled names.now line.now (column_label isa line.now (tokens line.now))) }
{
    match column_label(isa, line) {
        None => push_stated(text, words, names, line),
        Some(word) => push_labelled(text, words, names, word, behind_word(word, line)),
    }
}

/// Appends a line without bars that has this label.
fn push_with_label(
    isa: InstructionSet,
    text: &mut Vec<u8>,
    words: &mut Words,
    names: &[Setting],
    line: &[u8],
    label: &Option<Label>,
) -> Result<(), AllocError>
    ensures { OnOk result (text.new.items ≡ text.old.items ++ with_label isa names.now line.now label.now) }
{
    match label {
        None => push_plain_labelled(isa, text, words, names, line),
        Some(label) => push_labelled(text, words, names, label.as_bytes(), behind_colon(line)),
    }
}

/// Appends the line in the spelling that the reader of lines has, below these settings.
#[tactic(auto, unfolding(crate::specs::Line::respelled))]
fn push_respelled(
    isa: InstructionSet,
    text: &mut Vec<u8>,
    words: &mut Words,
    names: &[Setting],
    line: &[u8],
) -> Result<(), AllocError>
    requires { length line.now ≤ MOST_LINE }
    ensures { OnOk result (text.new.items ≡ text.old.items ++ respelled isa names.now line.now) }
{
    match behind_bars(line) {
        None => push_with_label(isa, text, words, names, line, &label_of(line)),
        Some(rest) => {
            text.extend_from_slice(b"||")?;
            push_stated(text, words, names, rest)
        }
    }
}

fn is_readable(line: &[u8]) -> bool
    ensures { result ≡ is_readable line.now }
{
    scan_line(line).allowed && line.len() <= MOST_LINE
}

fn is_nothing(what: &What) -> bool
    ensures { result ≡ is_nothing (said_of what.now) }
{
    matches!(what, What::Empty)
}

/// Whether a line has a label, or an instruction or cycles.
fn speaks(line: &Written) -> bool
    ensures { result ≡ speaks (Ok (line_written line.now)) }
{
    line.label.is_some() || !is_nothing(&line.what)
}

/// What is read of a line: whether it can be read, and whether it then says something.
fn read(isa: InstructionSet, plain: &mut Vec<u8>, line: &[u8]) -> Result<(bool, bool), AllocError>
    ensures { IfOk result (λ read. (read.0 ≡ reads (line_says isa line.now)) × (read.1 ≡ speaks (line_says isa line.now))) }
{
    match read_line(isa, plain, line) {
        Ok(written) => Ok((true, speaks(&written))),
        Err(LineFault::Memory) => Err(AllocError),
        Err(LineFault::Read(_) | LineFault::UnitWanted) => Ok((false, false)),
    }
}

/// Appends the one of two lines that stands for the first, of which is known whether it can be read.
fn push_better(
    isa: InstructionSet,
    text: &mut Vec<u8>,
    plain: &mut Vec<u8>,
    reading: bool,
    line: &[u8],
    other: &[u8],
) -> Result<(), AllocError>
    requires { reading ≡ reads (line_says isa line.now) }
    ensures { OnOk result (text.new.items ≡ text.old.items ++ if_better isa line.now other.now) }
{
    let better = !reading && (read(isa, plain, other)?.0 || has_pair(Tokens::new(line)));
    text.extend_from_slice(if better { other } else { line })
}

/// What a line without comments sets below these settings, of which is known whether it can be read as it stands.
fn set_by(isa: InstructionSet, reading: bool, names: &[Setting], line: &[u8]) -> Option<Setting>
    requires { reading ≡ reads (line_says isa line.now) }
    ensures { result ≡ set_by isa names.now line.now }
{
    if reading {
        None
    } else {
        setting_of(isa, names, begins_in_column(line), Tokens::new(line))
    }
}

/// Memory that is used again for each line.
#[derive(Drop)]
pub(crate) struct Spare {
    /// For the line of serial text that stands for one.
    read: Vec<u8>,
    /// For a line without its comments.
    blanked: Vec<u8>,
    /// For one in which local labels have names.
    named: Vec<u8>,
    /// For a word of it.
    word: Vec<u8>,
    /// For a line in another spelling.
    other: Vec<u8>,
    words: Words,
}

impl Spare {
    pub(crate) fn new(alloc: Global) -> Spare {
        Spare {
            read: Vec::new(alloc),
            blanked: Vec::new(alloc),
            named: Vec::new(alloc),
            word: Vec::new(alloc),
            other: Vec::new(alloc),
            words: Words::new(alloc),
        }
    }

    /// Counts the local label of a line, which is left without its comments.
    fn count(&mut self, locals: &mut Locals, line: &[u8]) -> Result<(), AllocError>
        ensures counts { OnOk result (locals.new.counts.items ≡ counted locals.old.counts.items (local_of (tokens (blanked Code line.now)))) }
        ensures mark { locals.new.mark ≡ locals.old.mark }
        ensures blanked { OnOk result (self.new.blanked.items ≡ blanked Code line.now) }
        ensures same { OnOk result (length self.new.blanked.items ≡ length line.now) }
    {
        self.blanked.clear();
        push_blanked(&mut self.blanked, line)?;
        locals.count(&self.blanked);
        Ok(())
    }

    /// Names the local labels of the line without its comments, where it can't be read as it stands.
    #[tactic(auto, unfolding(crate::specs::Line::with_locals))]
    fn name_locals(&mut self, isa: InstructionSet, locals: &Locals) -> Result<(), AllocError>
        requires { length self.old.blanked.items ≤ MOST_LINE }
        ensures named { OnOk result (self.new.named.items ≡ with_locals isa locals.now.mark.items locals.now.counts.items self.old.blanked.items) }
        ensures short { OnOk result (length self.new.named.items ≤ MOST_LINE) }
    {
        if !read(isa, &mut self.read, &self.blanked)?.0 {
            return locals.name(&mut self.named, &mut self.word, &self.blanked);
        }
        self.named.clear();
        self.named.extend_from_slice(&self.blanked)
    }

    /// Appends what stands for a line that was counted, whose comments end, and of which some can't be read or says nothing. What it sets goes to the
    /// settings.
    fn push_plain(
        &mut self,
        isa: InstructionSet,
        text: &mut Vec<u8>,
        names: &mut Vec<Setting>,
        locals: &Locals,
    ) -> Result<(), AllocError>
        requires { length self.old.blanked.items ≤ MOST_LINE }
        ensures text { OnOk result (text.new.items ≡ text.old.items ++ spelled_plain isa names.old.items (with_locals isa locals.now.mark.items locals.now.counts.items self.old.blanked.items)) }
        ensures names { OnOk result (names.new.items ≡ names_plain isa names.old.items (with_locals isa locals.now.mark.items locals.now.counts.items self.old.blanked.items)) }
    {
        self.name_locals(isa, locals)?;
        let reading = read(isa, &mut self.read, &self.named)?.0;
        match set_by(isa, reading, names, &self.named) {
            Some(setting) => {
                names.push(setting)?;
                Ok(())
            }
            None => {
                self.other.clear();
                push_respelled(isa, &mut self.other, &mut self.words, names, &self.named)?;
                push_better(isa, text, &mut self.read, reading, &self.named, &self.other)
            }
        }
    }
}

fn has_slash(line: &[u8]) -> bool
    ensures { result ≡ list_any (λ b. b == 47) line.now }
{
    line.iter().any(|b| *b == b'/')
}

fn last_byte(b: u8) -> u8
    ensures { result ≡ last_byte b }
{
    if b == b'\r' { 127 } else { b }
}

/// Appends a line that can't be read. Where a carriage return stands last, a byte that isn't allowed either stands for it, so that it is no part of
/// the line's end.
#[tactic(auto, using(crate::proofs::SpellLemmas::end_more))]
fn push_unreadable(text: &mut Vec<u8>, line: &[u8]) -> Result<(), AllocError>
    ensures { OnOk result (text.new.items ≡ text.old.items ++ without_end line.now) }
{
    match line.split_last() {
        None => Ok(()),
        Some((last, front)) => {
            text.extend_from_slice(front)?;
            text.push(last_byte(*last))?;
            Ok(())
        }
    }
}

/// Whether a line that says nothing stands as it is, of which is known whether it can be read.
#[tactic(auto, using(crate::proofs::SpellLemmas::reads_so, crate::proofs::SpellLemmas::open_so, crate::proofs::SpellLemmas::ended_so))]
fn stands(isa: InstructionSet, reading: bool, line: &[u8]) -> bool
    requires readable { IsTrue (is_readable line.now) }
    requires remark { is_remark line.now ≡ false }
    requires reading { reading ≡ reads (line_says isa line.now) }
    requires silent { false ≡ speaks (line_says isa line.now) }
    ensures itself { result ≡ true → IsItself isa line.now }
    ensures plain { result ≡ false → IsPlain isa line.now }
{
    if reading && !has_slash(line) {
        return true;
    }
    !all_end(line)
}

/// Appends the line that stands for this one below these settings and local labels, to which what it sets and its own go.
#[tactic(auto, using(crate::proofs::SpellLemmas::unreadable_so, crate::proofs::SpellLemmas::unreadable_sets, crate::proofs::SpellLemmas::unreadable_counts, crate::proofs::SpellLemmas::remark_so, crate::proofs::SpellLemmas::remark_sets, crate::proofs::SpellLemmas::remark_counts, crate::proofs::SpellLemmas::speaks_so, crate::proofs::SpellLemmas::saying_counts, crate::proofs::SpellLemmas::silent_counts, crate::proofs::SpellLemmas::itself_so, crate::proofs::SpellLemmas::itself_sets, crate::proofs::SpellLemmas::plain_so, crate::proofs::SpellLemmas::plain_sets))]
pub(crate) fn push_spelled(
    isa: InstructionSet,
    text: &mut Vec<u8>,
    names: &mut Vec<Setting>,
    locals: &mut Locals,
    spare: &mut Spare,
    line: &[u8],
) -> Result<(), AllocError>
    ensures text { OnOk result (text.new.items ≡ text.old.items ++ spelled isa names.old.items locals.old.mark.items (counts_below isa locals.old.counts.items line.now) line.now) }
    ensures names { OnOk result (names.new.items ≡ names_below isa names.old.items locals.old.mark.items (counts_below isa locals.old.counts.items line.now) line.now) }
    ensures counts { OnOk result (locals.new.counts.items ≡ counts_below isa locals.old.counts.items line.now) }
    ensures mark { locals.new.mark ≡ locals.old.mark }
{
    if !is_readable(line) {
        spare.count(locals, line)?;
        return push_unreadable(text, line);
    }
    if is_remark(line) {
        return text.extend_from_slice(line);
    }
    let (reading, speaking) = read(isa, &mut spare.read, line)?;
    if speaking {
        return text.extend_from_slice(line);
    }
    spare.count(locals, line)?;
    if stands(isa, reading, line) {
        return text.extend_from_slice(line);
    }
    spare.push_plain(isa, text, names, locals)
}
