//! Local labels: numbers that may be labels any number of times.

ghost use Rattle.std.specs.Prelude.{◌≡◌, ◌≤◌, ◌<◌, ◌+◌, ◌-◌, ◌++◌, ◌∷◌, [], length, replicate, decimal, codes, slice_index_or, IfOk, OnOk, IfSome};
ghost use Rattle.std.specs.Option.{option_copied};
ghost use Rattle.c62_token.specs.Token.{tokens, words_left};
ghost use Rattle.c62_line.specs.declared.limits.TheConstants.{MOST_LINE};
ghost use Rattle.c62_adopt_spell.specs.Local.{behind_local, small_number, local_of, counted, one_more, none_above, run_with, longest, mark_of, local_name, way_of, count_at, reference_of, renamed, is_name_byte, referring, names_goal, takes_goal, if_goes, behind_label, localized, localized_by, named_locals};

use crate::statement::is_branch;
use c62_adopt_line::{behind_colon, label_of};
use c62_line::MOST_LINE;
use c62_token::number::spells;
use c62_token::{Tokens, begins_with, is_mark};
use itoa::Buffer;
use std::alloc::{AllocError, Global};

/// How many numbers may be local labels: 0 to 999.
const NUMBERS: usize = 1000;

fn digit(b: u8) -> usize
    requires low { 48 ≤ b }
    ensures { result ≡ b - 48 }
{
    usize::from(b - b'0')
}

/// The number from 0 to 999 that a word is, without zeros in front.
fn small_number(word: &[u8]) -> Option<usize>
    ensures { result ≡ small_number word.now }
{
    match word {
        [d @ b'0'..=b'9'] => Some(digit(*d)),
        [c @ b'1'..=b'9', d @ b'0'..=b'9'] => Some(10 * digit(*c) + digit(*d)),
        [b @ b'1'..=b'9', c @ b'0'..=b'9', d @ b'0'..=b'9'] => Some(
            100 * digit(*b) + 10 * digit(*c) + digit(*d),
        ),
        _ => None,
    }
}

/// The number that is a line's label.
fn local_of(words: Tokens<'_>) -> Option<usize>
    ensures { result ≡ local_of (words_left words.entry) }
{
    let (word, behind) = words.split()?;
    if is_mark(b':', behind.peek()?) {
        small_number(word)
    } else {
        None
    }
}

/// What stands behind the local label of a line that has one.
pub fn behind_local(line: &[u8]) -> Option<&[u8]>
    ensures behind { option_copied result ≡ behind_local line.now }
    ensures shorter { IfSome result (λ rest. length rest.now ≤ length line.now) }
{
    local_of(Tokens::new(line))?;
    Some(behind_colon(line))
}

/// How many `$` stand next to one another, to 32, where so many stand before this byte.
fn run_with(run: usize, b: u8) -> usize
    ensures { result ≡ run_with run b }
{
    if b != b'$' {
        0
    } else if run < 32 {
        run + 1
    } else {
        32
    }
}

/// How many `$` stand next to one another at most, to 32.
fn longest_run(text: &[u8]) -> usize
    ensures is { result ≡ longest 0 0 text.now }
    ensures small { result ≤ 32 }
{
    let mut most = 0;
    let mut run = 0;
    let mut rest = text;
    while let [b, behind @ ..] = rest {
        run = run_with(run, *b);
        most = most.max(run);
        rest = behind;
    }
    most
}

/// Whether a reference with this byte at its end is to a label below.
fn way_of(b: u8) -> Option<bool>
    ensures { result ≡ way_of b }
{
    match b {
        b'b' => Some(false),
        b'f' => Some(true),
        _ => None,
    }
}

/// The number that a word refers to, and whether to a label below.
pub fn reference_of(word: &[u8]) -> Option<(usize, bool)>
    ensures { result ≡ reference_of word.now }
{
    let below = way_of(*word.last()?)?;
    Some((small_number(&word[..word.len() - 1])?, below))
}

fn one_more(count: u32) -> u32
    ensures { result ≡ one_more count }
{
    if count == 4_294_967_295 {
        count
    } else {
        count + 1
    }
}

fn is_name_byte(b: u8) -> bool
    ensures { result ≡ is_name_byte b }
{
    b.is_ascii_alphanumeric() || b == b'_' || b == b'$' || b == b'.'
}

fn names_goal(word: &[u8]) -> bool
    ensures { result ≡ names_goal word.now }
{
    is_branch(word) || spells(b"MVKL", word) || spells(b"MVKH", word)
}

/// Whether a statement takes a label as its operand.
fn takes_goal(words: Tokens<'_>) -> bool
    ensures { result ≡ takes_goal (words_left words.entry) }
{
    let mut left = words;
    while let Some((word, behind)) = left.split() {
        if names_goal(word) {
            return true;
        }
        if begins_with(b'.', word) {
            return false;
        }
        left = behind;
    }
    false
}

/// What stands behind the label of a line that has one.
fn behind_label(line: &[u8]) -> &[u8]
    requires { length line.now ≤ MOST_LINE }
    ensures { result.now ≡ behind_label line.now }
{
    match label_of(line) {
        Some(_) => behind_colon(line),
        None => line,
    }
}

/// The local labels above a line.
#[derive(Drop)]
pub(crate) struct Locals {
    /// What their names begin with, which stands nowhere in the text.
    pub(crate) mark: Vec<u8>,
    /// How many there are of each number.
    pub(crate) counts: Vec<u32>,
}

impl Locals {
    /// Above the first line of a text.
    pub(crate) fn new(alloc: Global, text: &[u8]) -> Result<Locals, AllocError>
        ensures mark { IfOk result (λ locals. locals.mark.items ≡ mark_of text.now) }
        ensures counts { IfOk result (λ locals. locals.counts.items ≡ none_above) }
    {
        Ok(Locals {
            mark: vec![in alloc; b'$'; longest_run(text) + 1]?,
            counts: vec![in alloc; 0; NUMBERS]?,
        })
    }

    fn count_of(&self, n: usize) -> u32
        ensures { result ≡ slice_index_or self.now.counts.items n 0 }
    {
        match self.counts.get(n) {
            Some(count) => *count,
            None => 0,
        }
    }

    /// The count of the last label of a number above, or of the next one below.
    fn count_at(&self, n: usize, below: bool) -> u64
        ensures { result ≡ count_at self.now.counts.items n below }
    {
        let count = u64::from(self.count_of(n));
        if below { count + 1 } else { count }
    }

    /// Below this line, which is without comments.
    pub(crate) fn count(&mut self, line: &[u8])
        ensures counts { self.new.counts.items ≡ counted self.old.counts.items (local_of (tokens line.now)) }
        ensures mark { self.new.mark ≡ self.old.mark }
    {
        if let Some(n) = local_of(Tokens::new(line)) {
            if n < self.counts.len() {
                self.counts[n] = one_more(self.count_of(n));
            }
        }
    }

    fn push_name(&self, text: &mut Vec<u8>, n: usize, count: u64) -> Result<(), AllocError>
        ensures { OnOk result (text.new.items ≡ text.old.items ++ local_name self.now.mark.items n count) }
    {
        let mut number = Buffer::new();
        let mut place = Buffer::new();
        text.extend_from_slice(&self.mark)?;
        text.extend_from_slice(number.format(n).as_bytes())?;
        text.extend_from_slice(b"$")?;
        text.extend_from_slice(place.format(count).as_bytes())
    }

    /// Appends a word, or the name of the local label to which it refers.
    fn push_renamed(&self, text: &mut Vec<u8>, word: &[u8]) -> Result<(), AllocError>
        ensures { OnOk result (text.new.items ≡ text.old.items ++ renamed self.now.mark.items self.now.counts.items word.now) }
    {
        match reference_of(word) {
            Some((n, below)) => self.push_name(text, n, self.count_at(n, below)),
            None => text.extend_from_slice(word),
        }
    }

    /// Appends bytes with names in place of what refers to local labels.
    fn push_referring(
        &self,
        text: &mut Vec<u8>,
        word: &mut Vec<u8>,
        bytes: &[u8],
    ) -> Result<(), AllocError>
        ensures { OnOk result (text.new.items ≡ text.old.items ++ referring self.now.mark.items self.now.counts.items [] bytes.now) }
    {
        word.clear();
        let mut rest = bytes;
        while let [b, behind @ ..] = rest {
            if is_name_byte(*b) {
                word.push(*b)?;
            } else {
                self.push_renamed(text, word)?;
                text.push(*b)?;
                word.clear();
            }
            rest = behind;
        }
        self.push_renamed(text, word)
    }

    /// The same where they are of a statement that takes a label, and else the bytes as they stand.
    fn push_if(
        &self,
        text: &mut Vec<u8>,
        word: &mut Vec<u8>,
        goes: bool,
        bytes: &[u8],
    ) -> Result<(), AllocError>
        ensures { OnOk result (text.new.items ≡ text.old.items ++ if_goes goes self.now.mark.items self.now.counts.items bytes.now) }
    {
        if goes {
            self.push_referring(text, word, bytes)
        } else {
            text.extend_from_slice(bytes)
        }
    }

    #[tactic(auto, unfolding(crate::specs::Local::localized))]
    fn push_localized(
        &self,
        text: &mut Vec<u8>,
        word: &mut Vec<u8>,
        line: &[u8],
    ) -> Result<(), AllocError>
        requires { length line.now ≤ MOST_LINE }
        ensures { OnOk result (text.new.items ≡ text.old.items ++ localized self.now.mark.items self.now.counts.items line.now) }
    {
        match local_of(Tokens::new(line)) {
            Some(n) => {
                let rest = behind_colon(line);
                self.push_name(text, n, self.count_at(n, false))?;
                text.extend_from_slice(b":")?;
                self.push_if(text, word, takes_goal(Tokens::new(rest)), rest)
            }
            None => self.push_if(
                text,
                word,
                takes_goal(Tokens::new(behind_label(line))),
                line,
            ),
        }
    }

    /// Writes a line without comments, with names in place of its local label and of those to which it refers.
    pub(crate) fn name(
        &self,
        text: &mut Vec<u8>,
        word: &mut Vec<u8>,
        line: &[u8],
    ) -> Result<(), AllocError>
        requires { length line.now ≤ MOST_LINE }
        ensures text { OnOk result (text.new.items ≡ named_locals self.now.mark.items self.now.counts.items line.now) }
        ensures short { OnOk result (length text.new.items ≤ MOST_LINE) }
    {
        text.clear();
        self.push_localized(text, word, line)?;
        if text.len() <= MOST_LINE {
            return Ok(());
        }
        text.clear();
        text.extend_from_slice(line)
    }
}
