//! Whether words ask for labels that begin with a dot, and the words that are left.

ghost use Rattle.std.specs.Prelude.{◌≡◌, ◌++◌, IfOk, OnOk, fold, map, option_map, string_bytes};
ghost use Rattle.c62_gnu_labels.specs.Words.{asks_labels, found_after, found_by, found_in, is_other, left_in, other_in, other_words, reads_serial};

use std::alloc::{AllocError, Global};
use std::convert::AsStr;

/// What words say of labels.
#[derive(Clone, Copy, PartialEq, Eq, Debug)]
pub enum Found {
    /// Nothing.
    Unsaid,
    /// `--labels`, whose value stands behind them.
    Open,
    /// `--labels gnu`, once.
    Said,
    /// `--labels` twice, or with another value.
    Bad,
}

/// What a word says by itself.
fn found_by(word: &str) -> Found
    ensures { result ≡ found_by word.now }
{
    if word == "--labels" {
        Found::Open
    } else if word == "--labels=gnu" {
        Found::Said
    } else if word.as_bytes().starts_with(b"--labels=") {
        Found::Bad
    } else {
        Found::Unsaid
    }
}

/// What words say with this one more.
fn found_after(found: Found, word: &str) -> Found
    ensures { result ≡ found_after found word.now }
{
    match found {
        Found::Unsaid => found_by(word),
        Found::Open => {
            if word == "gnu" {
                Found::Said
            } else {
                Found::Bad
            }
        }
        Found::Said => {
            match found_by(word) {
                Found::Unsaid => Found::Said,
                Found::Open | Found::Said | Found::Bad => Found::Bad,
            }
        }
        Found::Bad => Found::Bad,
    }
}

/// What all words say.
fn found_in<S: AsStr>(words: &[S]) -> Found
    ensures { result ≡ found_in (map S.text words.now) }
{
    let mut found = Found::Unsaid;
    for word in words {
        found = found_after(found, word.as_str());
    }
    found
}

/// Whether this is a command that reads serial text.
fn reads_serial(command: &str) -> bool
    ensures { result ≡ reads_serial command.now }
{
    command == "pack"
        || command == "show"
        || command == "run"
        || command == "serial"
        || command == "check"
        || command == "lint"
}

/// Whether the words ask for labels that begin with a dot: a command that reads serial text, and behind it `--labels`, alone or with
/// a `=`.
pub fn asks_labels<S: AsStr>(words: &[S]) -> bool
    ensures { result ≡ asks_labels (map S.text words.now) }
{
    match words {
        [] => false,
        [command, ..] => {
            reads_serial(command.as_str()) && !matches!(found_in(words), Found::Unsaid)
        }
    }
}

/// Whether a word behind those that say this is one of the command.
fn is_other(found: Found, word: &str) -> bool
    ensures { result ≡ is_other found word.now }
{
    match found {
        Found::Unsaid | Found::Said => matches!(found_by(word), Found::Unsaid),
        Found::Open | Found::Bad => false,
    }
}

/// Adds the word, where it is one of the command.
fn push_other(
    alloc: Global,
    others: &mut Vec<String>,
    found: Found,
    word: &str,
) -> Result<(), AllocError>
    ensures { OnOk result (map string_bytes others.new.items ≡ map string_bytes others.old.items ++ other_in found word.now) }
{
    if is_other(found, word) {
        others.push(String::from_str(alloc, word)?)?;
    }
    Ok(())
}

/// The words of the command.
fn left_in<S: AsStr>(alloc: Global, words: &[S]) -> Result<Vec<String>, AllocError>
    ensures { IfOk result (λ others. map string_bytes others.items ≡ left_in (map S.text words.now)) }
{
    let mut others = Vec::new(alloc);
    let mut found = Found::Unsaid;
    for word in words {
        let word = word.as_str();
        push_other(alloc, &mut others, found, word)?;
        found = found_after(found, word);
    }
    Ok(others)
}

/// The words but those that ask for labels. None where these are bad: the option stands there twice, or has no value or one that isn't
/// `gnu`.
///
/// # Errors
///
/// `AllocError` where memory ran out.
pub fn other_words<S: AsStr>(alloc: Global, words: &[S]) -> Result<Option<Vec<String>>, AllocError>
    ensures { IfOk result (λ others. option_map (λ ws. map string_bytes ws.items) others ≡ other_words (map S.text words.now)) }
{
    match found_in(words) {
        Found::Said => Ok(Some(left_in(alloc, words)?)),
        Found::Unsaid | Found::Open | Found::Bad => Ok(None),
    }
}
