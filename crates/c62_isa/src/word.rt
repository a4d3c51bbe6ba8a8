//! What the words of a command say of the set of its instructions.

ghost use Rattle.std.specs.Prelude.{◌≡◌, ◌++◌, IfOk, OnOk, map, option_map};
ghost use Rattle.std.specs.Option.{option_to_list};
ghost use Rattle.c62_isa.specs.Words.{assigned, lone, said, text_word, wanted_at_end, wants_after, wants_by, word_at};

use c62_files::{equals_parts, has_value};
use std::alloc::{AllocError, Global};
use std::convert::AsStr;

/// What a word is, by the one before it.
#[derive(Clone, Copy, PartialEq, Eq, Debug)]
pub enum Wants {
    /// The command: the first word.
    Command,
    /// What it says by itself.
    Nothing,
    /// The value of another option.
    Value,
    /// The name of the set.
    Set,
}

/// What a word says.
#[derive(Clone, Copy, PartialEq, Eq, Debug)]
pub enum Word<'a> {
    /// Something of the command.
    Other(&'a str),
    /// The name of the set.
    Set(&'a str),
}

/// What words say, and what the last of them wants of a word that isn't there.
#[derive(Drop)]
pub struct Said<'a> {
    pub words: Vec<Word<'a>>,
    pub wants: Wants,
}

/// What a word wants of the one behind it.
fn wants_by(word: &str) -> Wants
    ensures { result ≡ wants_by word.now }
{
    if word == "--isa" {
        Wants::Set
    } else if has_value(word) {
        Wants::Value
    } else {
        Wants::Nothing
    }
}

/// What it wants, behind one that wants this.
pub fn wants_after(wants: Wants, word: &str) -> Wants
    ensures { result ≡ wants_after wants word.now }
{
    match wants {
        Wants::Nothing => wants_by(word),
        Wants::Command | Wants::Value | Wants::Set => Wants::Nothing,
    }
}

/// What the word `OPTION=VALUE` says.
fn assigned<'a>(word: &'a str, option: &str, value: &'a str) -> Word<'a>
    ensures { text_word result ≡ assigned word.entry.now option.now value.entry.now }
{
    if option == "--isa" {
        Word::Set(value)
    } else {
        Word::Other(word)
    }
}

/// What a word says by itself.
fn lone<'a>(word: &'a str) -> Word<'a>
    ensures { text_word result ≡ lone word.entry.now }
{
    match equals_parts(word) {
        Some((option, value)) => assigned(word, option, value),
        None => Word::Other(word),
    }
}

/// What a word says, behind one that wants this. `--isa` is nothing without the word behind it.
fn word_at<'a>(wants: Wants, word: &'a str) -> Option<Word<'a>>
    ensures { option_map text_word result ≡ word_at wants word.entry.now }
{
    match wants {
        Wants::Command | Wants::Value => Some(Word::Other(word)),
        Wants::Set => Some(Word::Set(word)),
        Wants::Nothing => match wants_by(word) {
            Wants::Set => None,
            Wants::Value => Some(Word::Other(word)),
            Wants::Command | Wants::Nothing => Some(lone(word)),
        },
    }
}

fn push_some<'a>(words: &mut Vec<Word<'a>>, word: Option<Word<'a>>) -> Result<(), AllocError>
    ensures { OnOk result (words.new.items ≡ words.old.items ++ option_to_list word.entry) }
{
    match word {
        Some(word) => Ok(words.push(word)?),
        None => Ok(()),
    }
}

/// What these words say, behind one that wants this.
pub fn words_said<'a, S: AsStr>(
    alloc: Global,
    wants: Wants,
    words: &'a [S],
) -> Result<Said<'a>, AllocError>
    ensures words { IfOk result (λ s. map text_word s.words.items ≡ said wants (map S.text words.entry.now)) }
    ensures wants { IfOk result (λ s. s.wants ≡ wanted_at_end wants (map S.text words.entry.now)) }
{
    let mut said = Vec::new(alloc);
    let mut wants = wants;
    for word in words {
        let word = word.as_str();
        push_some(&mut said, word_at(wants, word))?;
        wants = wants_after(wants, word);
    }
    Ok(Said { words: said, wants })
}
