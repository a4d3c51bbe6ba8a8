//! A statement in the spelling that the reader of lines has.

ghost use Rattle.std.specs.Prelude.{◌≡◌, ◌==◌, ◌&&◌, ◌++◌, ◌∷◌, [], false, if◌then◌else◌, OnOk};
ghost use Rattle.c62_token.specs.Token.{tokens, words_left};
ghost use Rattle.c62_adopt_line.specs.Plain.{names_branch, spaced};
ghost use Rattle.c62_adopt_spell.specs.Names.{value_named};
ghost use Rattle.c62_adopt_spell.specs.Statement.{begins_with_pair, has_pair, is_branch, goes, smooth_byte, smoothed, reckoned, registered, conditioned, stated};

use crate::bracket::push_unbracketed;
use crate::names::{Setting, Value, value_named};
use crate::sum::{push_register, push_sums, push_word};
use c62_token::number::{register, spells};
use c62_token::{Tokens, begins_with, is_mark};
use std::alloc::{AllocError, Global};

/// Whether a pair of registers stands first.
fn begins_with_pair(words: Tokens<'_>) -> bool
    ensures { result ≡ begins_with_pair (words_left words.entry) }
{
    let Some((one, behind)) = words.split() else {
        return false;
    };
    let Some((colon, behind)) = behind.split() else {
        return false;
    };
    match behind.peek() {
        None => false,
        Some(other) => {
            register(one).is_some() && is_mark(b':', colon) && register(other).is_some()
        }
    }
}

/// Whether a pair of registers stands anywhere, with a colon between.
pub(crate) fn has_pair(words: Tokens<'_>) -> bool
    ensures { result ≡ has_pair (words_left words.entry) }
{
    let mut left = words;
    while let Some((_, behind)) = left.split() {
        if begins_with_pair(left) {
            return true;
        }
        left = behind;
    }
    false
}

/// Whether it is another name of B.
pub(crate) fn names_branch(word: &[u8]) -> bool
    ensures { result ≡ names_branch word.now }
{
    spells(b"RET", word) || spells(b"CALL", word) || spells(b"CALLRET", word)
}

pub(crate) fn is_branch(word: &[u8]) -> bool
    ensures { result ≡ is_branch word.now }
{
    spells(b"B", word) || names_branch(word)
}

/// Whether a branch stands there, which goes to a label of any name.
fn goes(words: Tokens<'_>) -> bool
    ensures { result ≡ goes (words_left words.entry) }
{
    let mut left = words;
    while let Some((word, behind)) = left.split() {
        if is_branch(word) {
            return true;
        }
        left = behind;
    }
    false
}

fn smooth_byte(pair: bool, behind: bool, b: u8) -> u8
    ensures { result ≡ smooth_byte pair (if b == 46 && behind then 95 else b) }
{
    if b == b'.' && behind {
        b'_'
    } else if b == b':' && pair {
        b' '
    } else {
        b
    }
}

/// Appends a line with the dots of names as `_`, and the colon of a pair of registers as a blank.
fn push_smoothed(plain: &mut Vec<u8>, pair: bool, line: &[u8]) -> Result<(), AllocError>
    ensures { OnOk result (plain.new.items ≡ plain.old.items ++ smoothed pair line.now) }
{
    let mut names = false;
    let mut rest = line;
    while let [b, behind @ ..] = rest {
        plain.push(smooth_byte(pair, names, *b))?;
        names = *b == b'.' || names;
        rest = behind;
    }
    Ok(())
}

/// Appends a word, or the register that it stands for where it may stand for one.
fn push_registered(
    text: &mut Vec<u8>,
    names: &[Setting],
    may: bool,
    word: &[u8],
) -> Result<(), AllocError>
    ensures { OnOk result (text.new.items ≡ text.old.items ++ spaced ((if may then registered (value_named names.now word.now) word.now else word.now) ∷ [])) }
{
    if !may {
        return push_word(text, word);
    }
    match value_named(names, word) {
        Some(Value::Register(reg)) => push_register(text, reg),
        Some(Value::Constant(_)) | None => push_word(text, word),
    }
}

/// Appends the tokens of bytes with a blank behind each, and with the registers for which names stand up to the name of a branch.
fn push_conditioned(text: &mut Vec<u8>, names: &[Setting], bytes: &[u8]) -> Result<(), AllocError>
    ensures { OnOk result (text.new.items ≡ text.old.items ++ conditioned names.now bytes.now) }
{
    let mut before = true;
    let mut left = Tokens::new(bytes);
    while let Some((word, behind)) = left.split() {
        before = before && !is_branch(word);
        push_registered(text, names, before, word)?;
        left = behind;
    }
    Ok(())
}

/// Memory for the words of a statement on the way to another spelling, which is used again for each line.
#[derive(Drop)]
pub(crate) struct Words {
    smooth: Vec<u8>,
    sums: Vec<u8>,
}

impl Words {
    pub(crate) fn new(alloc: Global) -> Words {
        Words {
            smooth: Vec::new(alloc),
            sums: Vec::new(alloc),
        }
    }

    /// Appends a statement in which numbers that are added up or stand in brackets are one each.
    fn push_reckoned(
        &mut self,
        text: &mut Vec<u8>,
        names: &[Setting],
        pair: bool,
        bytes: &[u8],
    ) -> Result<(), AllocError>
        ensures { OnOk result (text.new.items ≡ text.old.items ++ reckoned names.now (smoothed pair bytes.now)) }
    {
        self.smooth.clear();
        push_smoothed(&mut self.smooth, pair, bytes)?;
        self.sums.clear();
        push_sums(&mut self.sums, names, &self.smooth)?;
        self.smooth.clear();
        push_unbracketed(&mut self.smooth, &self.sums)?;
        push_sums(text, names, &self.smooth)
    }

    /// Appends a branch, whose condition may have a name.
    fn push_branch(
        &mut self,
        text: &mut Vec<u8>,
        names: &[Setting],
        bytes: &[u8],
    ) -> Result<(), AllocError>
        ensures { OnOk result (text.new.items ≡ text.old.items ++ conditioned names.now (smoothed false bytes.now)) }
    {
        self.smooth.clear();
        push_smoothed(&mut self.smooth, false, bytes)?;
        push_conditioned(text, names, &self.smooth)
    }
}

/// Appends what stands behind the bars or the label of a line, in the spelling that the reader of lines has, below these settings.
#[tactic(auto, unfolding(crate::specs::Statement::stated))]
pub(crate) fn push_stated(
    text: &mut Vec<u8>,
    words: &mut Words,
    names: &[Setting],
    bytes: &[u8],
) -> Result<(), AllocError>
    ensures { OnOk result (text.new.items ≡ text.old.items ++ stated names.now bytes.now) }
{
    let tokens = Tokens::new(bytes);
    match tokens.peek() {
        None => text.extend_from_slice(bytes),
        Some(word) => {
            if begins_with(b'.', word) {
                text.extend_from_slice(bytes)
            } else if goes(tokens) {
                words.push_branch(text, names, bytes)
            } else {
                words.push_reckoned(text, names, has_pair(tokens), bytes)
            }
        }
    }
}
