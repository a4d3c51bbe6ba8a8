//! Whether words ask for a set of instructions, for which, and the words that are left.

ghost use Rattle.std.specs.Prelude.{◌≡◌, ◌++◌, Some, IfOk, OnOk, fold, map, option_map, string_bytes};
ghost use Rattle.std.specs.List.{flat_map};
ghost use Rattle.c62_isa.specs.Words.{and_word, asked_set, asks, asks_at, asks_set, lacks, names_option, other_in, other_words, reads_text, set_named, text_word, with_set, with_word};
ghost use Rattle.c62_isa.specs.declared.word.Wants.TheVariants.{Nothing};

use crate::word::{Wants, Word, wants_after, words_said};
use c62_files::equals_parts;
use c62_op::InstructionSet;
use std::alloc::{AllocError, Global};
use std::convert::AsStr;

/// Whether a word is `--isa`, or begins with it and a `=`.
fn names_option(word: &str) -> bool
    ensures { result ≡ names_option word.now }
{
    if word == "--isa" {
        return true;
    }
    match equals_parts(word) {
        Some((option, _)) => option == "--isa",
        None => false,
    }
}

/// Whether a word is so, behind one that wants this.
fn asks_at(wants: Wants, word: &str) -> bool
    ensures { result ≡ asks_at wants word.now }
{
    match wants {
        Wants::Nothing => names_option(word),
        Wants::Command | Wants::Value | Wants::Set => false,
    }
}

/// Whether one of the words behind a command asks for a set.
fn asks<S: AsStr>(words: &[S]) -> bool
    ensures { result ≡ asks Nothing (map S.text words.now) }
{
    let mut wants = Wants::Nothing;
    for word in words {
        let word = word.as_str();
        if asks_at(wants, word) {
            return true;
        }
        wants = wants_after(wants, word);
    }
    false
}

/// Whether this is a command that reads a text or packets.
fn reads_text(command: &str) -> bool
    ensures { result ≡ reads_text command.now }
{
    command == "pack"
        || command == "show"
        || command == "run"
        || command == "serial"
        || command == "sim"
        || command == "exec"
        || command == "adopt"
        || command == "check"
        || command == "lint"
}

/// Whether the words ask for a set of instructions: a command that reads a text or packets, and behind it `--isa`, alone or with a `=`,
/// where that isn't the value of another option.
pub fn asks_set<S: AsStr>(words: &[S]) -> bool
    ensures { result ≡ asks_set (map S.text words.now) }
{
    match words {
        [] => false,
        [command, rest @ ..] => reads_text(command.as_str()) && asks(rest),
    }
}

/// Adds a word of the command.
fn push_other(alloc: Global, others: &mut Vec<String>, word: &Word<'_>) -> Result<(), AllocError>
    ensures { OnOk result (map string_bytes others.new.items ≡ map string_bytes others.old.items ++ other_in (text_word word.now)) }
{
    match word {
        Word::Other(word) => Ok(others.push(String::from_str(alloc, *word)?)?),
        Word::Set(_) => Ok(()),
    }
}

/// The words of the command among these.
fn others_in(alloc: Global, words: &[Word<'_>]) -> Result<Vec<String>, AllocError>
    ensures { IfOk result (λ others. map string_bytes others.items ≡ flat_map other_in (map text_word words.now)) }
{
    let mut others = Vec::new(alloc);
    for word in words {
        push_other(alloc, &mut others, word)?;
    }
    Ok(others)
}

/// The words of a command, without those that ask for a set.
///
/// # Errors
///
/// `AllocError` where memory ran out.
pub fn other_words<S: AsStr>(alloc: Global, words: &[S]) -> Result<Vec<String>, AllocError>
    ensures { IfOk result (λ others. map string_bytes others.items ≡ other_words (map S.text words.now)) }
{
    let said = words_said(alloc, Wants::Command, words)?;
    others_in(alloc, &said.words)
}

/// The set of this name.
fn set_named(name: &str) -> Option<InstructionSet>
    ensures { result ≡ set_named name.now }
{
    if name == "core" {
        Some(InstructionSet::Core)
    } else if name == "full" {
        Some(InstructionSet::Full)
    } else {
        None
    }
}

/// The set that is asked for, where none was before.
fn with_set(found: Option<InstructionSet>, name: &str) -> Option<Option<InstructionSet>>
    ensures { result ≡ with_set found name.now }
{
    match found {
        Some(_) => None,
        None => Some(Some(set_named(name)?)),
    }
}

/// What is asked for with a word more. None where that names no set, or says again what was said.
fn with_word(found: Option<InstructionSet>, word: &Word<'_>) -> Option<Option<InstructionSet>>
    ensures { result ≡ with_word found (text_word word.now) }
{
    match word {
        Word::Other(_) => Some(found),
        Word::Set(name) => with_set(found, *name),
    }
}

/// The same behind words of which one may be bad.
fn and_word(
    found: Option<Option<InstructionSet>>,
    word: &Word<'_>,
) -> Option<Option<InstructionSet>>
    ensures { result ≡ and_word found (text_word word.now) }
{
    with_word(found?, word)
}

/// What these words ask for.
fn found_in(words: &[Word<'_>]) -> Option<Option<InstructionSet>>
    ensures { result ≡ fold and_word (Some None) (map text_word words.now) }
{
    let mut found = Some(None);
    for word in words {
        found = and_word(found, word);
    }
    found
}

/// Whether `--isa` lacks its value.
fn lacks(wants: Wants) -> bool
    ensures { result ≡ lacks wants }
{
    matches!(wants, Wants::Set)
}

/// The set of instructions that words ask for, the first of which is the command: the core where they ask for none. None where they
/// are bad: `--isa` stands there twice, or lacks its value, or has one that isn't `core` or `full`.
///
/// # Errors
///
/// `AllocError` where memory ran out.
pub fn asked_set<S: AsStr>(alloc: Global, words: &[S]) -> Result<Option<InstructionSet>, AllocError>
    ensures { IfOk result (λ set. set ≡ asked_set (map S.text words.now)) }
{
    let said = words_said(alloc, Wants::Command, words)?;
    if lacks(said.wants) {
        return Ok(None);
    }
    match found_in(&said.words) {
        Some(found) => Ok(Some(found.unwrap_or(InstructionSet::Core))),
        None => Ok(None),
    }
}
