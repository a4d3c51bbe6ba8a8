//! What the words of `lint` ask for, and which words ask for explanations (docs/FAULTS.md).

ghost use Rattle.std.specs.Prelude.{◌≡◌, ◌≤◌, IfOk, IfSome, OnOk, ◌++◌, codes, map, option_map, string_bytes};
ghost use Rattle.std.specs.List.{list_any};
ghost use Rattle.std.specs.Str.{bytes_eq};
ghost use Rattle.c62_teach.specs.Words.{as_json, asks_apart, asks_strict, bad_among, is_json, other_word, other_words, behind_first, blame_of, changed, explains, first_bad, ill_valued, is_answered, is_explained, is_help, is_lint, is_of_memory, kind_of, lint_blame, linting_behind, linting_by, linting_of, most_by, most_of, is_strict, is_watched, names_apart, names_memory, plain_word, plain_words, makes_run, takes_no, unknown, values_of, wrong};

use c62_token::number::number;
use std::alloc::{AllocError, Global};

/// What a text is.
#[derive(Clone, Copy, PartialEq, Eq, Debug)]
pub enum Kind {
    /// Serial text, as `pack` reads it.
    Serial,
    /// A listing, as `sim` reads it.
    Listing,
    /// Packets as people and compilers write them, as `adopt` reads them.
    Packets,
}

/// What is wanted of `lint`.
#[derive(Clone, Copy, PartialEq, Eq, Debug)]
pub struct Linting {
    pub kind: Kind,
    /// How many faults are told at most, 1 to 1,000.
    pub most: usize,
    /// Whether they are told as a JSON document.
    pub json: bool,
}

/// What is wanted where nothing is said.
const DEFAULT: Linting = Linting {
    kind: Kind::Serial,
    most: 100,
    json: false,
};

/// Whether the words ask for `lint`.
pub fn is_lint(words: &[String]) -> bool
    ensures { result ≡ is_lint (map string_bytes words.now) }
{
    match words {
        [] => false,
        [command, ..] => command.as_str() == "lint",
    }
}

fn most_by(number: i64) -> Option<usize>
    ensures { result ≡ most_by number }
{
    if 1 <= number && number <= 1000 {
        Some(number as usize)
    } else {
        None
    }
}

/// How many faults are told at most, where the word says that.
fn most_of(word: &str) -> Option<usize>
    ensures { result ≡ most_of word.now }
{
    most_by(number(word.as_bytes())?)
}

/// The kind of text that the word names.
fn kind_of(word: &str) -> Option<Kind>
    ensures { result ≡ kind_of word.now }
{
    if word == "serial" {
        Some(Kind::Serial)
    } else if word == "listing" {
        Some(Kind::Listing)
    } else if word == "packets" {
        Some(Kind::Packets)
    } else {
        None
    }
}

/// What is wanted behind an option with this value.
fn changed(linting: Linting, option: &str, value: &str) -> Option<Linting>
    ensures { result ≡ changed linting option.now value.now }
{
    if option == "--most" {
        Some(Linting {
            kind: linting.kind,
            most: most_of(value)?,
            json: linting.json,
        })
    } else if option == "--as" {
        Some(Linting {
            kind: kind_of(value)?,
            most: linting.most,
            json: linting.json,
        })
    } else {
        None
    }
}

/// What is wanted behind a first option.
fn behind_first(linting: Linting, words: &[&str]) -> Option<Linting>
    ensures { result ≡ behind_first linting (map (λ word. word.now) words.now) }
{
    match words {
        [] => Some(linting),
        [option, value] => changed(linting, option, value),
        _ => None,
    }
}

/// What the words behind `lint` want.
#[tactic(auto, unfolding(crate::specs::Words::linting_by))]
fn linting_by(words: &[&str]) -> Option<Linting>
    ensures { result ≡ linting_by (map (λ word. word.now) words.now) }
{
    match words {
        [] => Some(DEFAULT),
        [_] => None,
        [option, value, rest @ ..] => { behind_first(changed(DEFAULT, option, value)?, rest) }
    }
}

/// Adds a word that isn't `--json`.
fn push_other<'a>(others: &mut Vec<&'a str>, word: &'a str) -> Result<(), AllocError>
    ensures { OnOk result (map (λ word. word.now) others.new.items ≡ map (λ word. word.now) others.old.items ++ other_word word.entry.now) }
{
    if word == "--json" {
        Ok(())
    } else {
        Ok(others.push(word)?)
    }
}

/// The words but `--json`.
fn other_words<'a>(alloc: Global, words: &'a [String]) -> Result<Vec<&'a str>, AllocError>
    ensures { IfOk result (λ others. map (λ word. word.now) others.items ≡ other_words (map string_bytes words.entry.now)) }
{
    let mut others = Vec::new(alloc);
    for word in words {
        push_other(&mut others, word.as_str())?;
    }
    Ok(others)
}

/// Whether a word is `--json`.
fn has_json(words: &[String]) -> bool
    ensures { result ≡ list_any (λ word. bytes_eq (string_bytes word) (codes "--json")) words.now }
{
    words.iter().any(|word| word.as_str() == "--json")
}

fn asks_json(words: &[String]) -> bool
    ensures { result ≡ list_any is_json (map string_bytes words.now) }
{
    has_json(words)
}

/// What is wanted, as a document or not.
fn as_json(json: bool, linting: Option<Linting>) -> Option<Linting>
    ensures { result ≡ option_map (as_json json) linting }
{
    let linting = linting?;
    Some(Linting {
        kind: linting.kind,
        most: linting.most,
        json,
    })
}

/// What the words behind `lint` want.
#[tactic(auto, unfolding(crate::specs::Words::linting_behind))]
fn linting_behind(alloc: Global, words: &[String]) -> Result<Option<Linting>, AllocError>
    ensures is { IfOk result (λ linting. linting ≡ linting_behind (map string_bytes words.now)) }
    ensures most { IfOk result (λ linting. IfSome linting (λ linting. 1 ≤ linting.most)) }
{
    let others = other_words(alloc, words)?;
    if words.len() <= others.len() + 1 {
        Ok(as_json(asks_json(words), linting_by(&others)))
    } else {
        Ok(None)
    }
}

/// What the words that begin with `lint` want: `--most N` and `--as KIND`, in any order, and `--json` anywhere among them. None for other words.
///
/// # Errors
///
/// `AllocError` where memory ran out.
pub fn linting_of(alloc: Global, words: &[String]) -> Result<Option<Linting>, AllocError>
    ensures is { IfOk result (λ linting. linting ≡ linting_of (map string_bytes words.now)) }
    ensures most { IfOk result (λ linting. IfSome linting (λ linting. 1 ≤ linting.most)) }
{
    match words {
        [] => Ok(None),
        [_, options @ ..] => linting_behind(alloc, options),
    }
}

/// The values that an option of `lint` takes.
fn values_of(option: &str) -> Option<&'static str>
    ensures { option_map (λ values. values.now) result ≡ values_of option.now }
{
    if option == "--as" {
        Some("'serial', 'listing' or 'packets'")
    } else if option == "--most" {
        Some("1 to 1000")
    } else {
        None
    }
}

/// The first option that asks for nothing, and its value, which is empty where none follows.
#[tactic(auto, unfolding(crate::specs::Words::first_bad))]
fn first_bad<'a>(words: &[&'a str]) -> Option<(&'a str, &'a str)>
    ensures { option_map (λ bad. (bad.0.now, bad.1.now)) result ≡ first_bad (map (λ word. word.now) words.now) }
{
    match words {
        [] => None,
        [option] => Some((*option, "")),
        [option, value, rest @ ..] => {
            if changed(DEFAULT, option, value).is_some() {
                first_bad(rest)
            } else {
                Some((*option, *value))
            }
        }
    }
}

/// The same of at most 1,000 words, as it goes over them by itself: of more an option is given too often in any case.
fn bad_among<'a>(words: &[&'a str]) -> Option<(&'a str, &'a str)>
    ensures { option_map (λ bad. (bad.0.now, bad.1.now)) result ≡ bad_among (map (λ word. word.now) words.now) }
{
    if words.len() <= 1000 {
        first_bad(words)
    } else {
        None
    }
}

/// Adds that `lint` takes something not.
#[tactic(auto, unfolding(crate::specs::Words::takes_no))]
fn push_takes_no(out: &mut Vec<u8>) -> Result<(), AllocError>
    ensures { OnOk result (out.new.items ≡ out.old.items ++ takes_no) }
{
    out.extend_from_slice(b"error: lint takes no '")
}

/// Adds that `lint` takes no such option.
#[tactic(auto, unfolding(crate::specs::Words::unknown))]
fn push_unknown(out: &mut Vec<u8>, option: &str) -> Result<(), AllocError>
    ensures { OnOk result (out.new.items ≡ out.old.items ++ unknown option.now) }
{
    push_takes_no(out)?;
    out.extend_from_slice(option.as_bytes())?;
    out.extend_from_slice(b"'\n\n")
}

/// Adds which values an option takes, and that this isn't one.
#[tactic(auto, unfolding(crate::specs::Words::ill_valued))]
fn push_values(out: &mut Vec<u8>, option: &str, values: &str, value: &str) -> Result<(), AllocError>
    ensures { OnOk result (out.new.items ≡ out.old.items ++ ill_valued option.now values.now value.now) }
{
    out.extend_from_slice(b"error: '")?;
    out.extend_from_slice(option.as_bytes())?;
    out.extend_from_slice(b"' takes ")?;
    out.extend_from_slice(values.as_bytes())?;
    out.extend_from_slice(b", not '")?;
    out.extend_from_slice(value.as_bytes())?;
    out.extend_from_slice(b"'\n\n")
}

/// Adds what is wrong with an option of `lint` and its value.
fn push_wrong(out: &mut Vec<u8>, option: &str, value: &str) -> Result<(), AllocError>
    ensures { OnOk result (out.new.items ≡ out.old.items ++ wrong option.now value.now (values_of option.now)) }
{
    match values_of(option) {
        None => push_unknown(out, option),
        Some(values) => push_values(out, option, values, value),
    }
}

/// Whether a word asks for help.
fn is_help(word: &str) -> bool
    ensures { result ≡ is_help word.now }
{
    word == "--help" || word == "-h"
}

/// Adds what is wrong with words of `lint` of which this option and value are the first that ask for nothing.
fn push_blame(out: &mut Vec<u8>, bad: Option<(&str, &str)>) -> Result<(), AllocError>
    ensures { OnOk result (out.new.items ≡ out.old.items ++ blame_of (option_map (λ pair. (pair.0.now, pair.1.now)) bad.entry)) }
{
    match bad {
        None => out.extend_from_slice(b"error: an option is given too often\n\n"),
        Some((option, value)) => {
            if is_help(option) {
                Ok(())
            } else {
                push_wrong(out, option, value)
            }
        }
    }
}

/// What is wrong with the words behind `lint`, which want nothing.
fn blame_behind(alloc: Global, words: &[String]) -> Result<Vec<u8>, AllocError>
    ensures { IfOk result (λ blame. blame.items ≡ blame_of (bad_among (other_words (map string_bytes words.now)))) }
{
    let others = other_words(alloc, words)?;
    let mut blame = Vec::new(alloc);
    push_blame(&mut blame, bad_among(&others))?;
    Ok(blame)
}

/// What is wrong with the words that begin with `lint`, where [`linting_of`] finds that they want nothing. No text where they ask for help.
///
/// # Errors
///
/// `AllocError` where memory ran out.
pub fn lint_blame(alloc: Global, words: &[String]) -> Result<Vec<u8>, AllocError>
    ensures { IfOk result (λ blame. blame.items ≡ lint_blame (map string_bytes words.now)) }
{
    match words {
        [] => Ok(Vec::new(alloc)),
        [_, options @ ..] => blame_behind(alloc, options),
    }
}

/// Whether a text is read for this command, and what is told of a fault can be explained.
fn is_answered(command: &str) -> bool
    ensures { result ≡ is_answered command.now }
{
    command == "pack"
        || command == "show"
        || command == "run"
        || command == "serial"
        || command == "sim"
        || command == "exec"
        || command == "adopt"
        || command == "check"
}

/// Whether a word is `--explain`.
fn has_explain(words: &[String]) -> bool
    ensures { result ≡ list_any (λ word. bytes_eq (string_bytes word) (codes "--explain")) words.now }
{
    words.iter().any(|word| word.as_str() == "--explain")
}

fn explains(words: &[String]) -> bool
    ensures { result ≡ explains (map string_bytes words.now) }
{
    has_explain(words)
}

/// Whether the words ask for an explanation of what a text is refused for.
pub fn is_explained(words: &[String]) -> bool
    ensures { result ≡ is_explained (map string_bytes words.now) }
{
    match words {
        [] => false,
        [command, rest @ ..] => is_answered(command.as_str()) && explains(rest),
    }
}

/// Whether a text is run for this command.
fn makes_run(command: &str) -> bool
    ensures { result ≡ makes_run command.now }
{
    command == "run" || command == "serial" || command == "sim" || command == "exec"
}

/// Whether a word is `--strict`.
fn has_strict(words: &[String]) -> bool
    ensures { result ≡ list_any (λ word. bytes_eq (string_bytes word) (codes "--strict")) words.now }
{
    words.iter().any(|word| word.as_str() == "--strict")
}

fn asks_strict(words: &[String]) -> bool
    ensures { result ≡ asks_strict (map string_bytes words.now) }
{
    has_strict(words)
}

/// Whether the words ask for a strict run.
pub fn is_strict(words: &[String]) -> bool
    ensures { result ≡ is_strict (map string_bytes words.now) }
{
    match words {
        [] => false,
        [command, rest @ ..] => makes_run(command.as_str()) && asks_strict(rest),
    }
}

/// Whether a word is a setting for which `--print`, `--dump` or `--base` stands.
pub fn is_of_memory(word: &str) -> bool
    ensures { result ≡ is_of_memory word.now }
{
    let bytes = word.as_bytes();
    bytes.starts_with(b"print=") || bytes.starts_with(b"dump=") || bytes.starts_with(b"base=")
}

/// Whether such a word is among these.
fn has_memory(words: &[String]) -> bool
    ensures { result ≡ list_any (λ word. is_of_memory (string_bytes word)) words.now }
{
    words.iter().any(|word| is_of_memory(word.as_str()))
}

/// Whether one of the words is a setting for which `--print`, `--dump` or `--base` stands.
pub fn names_memory(words: &[String]) -> bool
    ensures { result ≡ names_memory (map string_bytes words.now) }
{
    has_memory(words)
}

/// Whether a word names registers as apart.
fn has_apart(words: &[String]) -> bool
    ensures { result ≡ list_any (λ word. names_apart (string_bytes word)) words.now }
{
    words
        .iter()
        .any(|word| word.as_str().as_bytes().starts_with(b"--apart"))
}

fn asks_apart(words: &[String]) -> bool
    ensures { result ≡ asks_apart (map string_bytes words.now) }
{
    has_apart(words)
}

/// Whether the words ask for a serial run whose accesses are looked at.
pub fn is_watched(words: &[String]) -> bool
    ensures { result ≡ is_watched (map string_bytes words.now) }
{
    match words {
        [] => false,
        [command, rest @ ..] => command.as_str() == "serial" && asks_apart(rest),
    }
}

/// Adds a word that isn't `--explain`.
fn push_plain<'a>(plain: &mut Vec<&'a str>, word: &'a str) -> Result<(), AllocError>
    ensures { OnOk result (map (λ word. word.now) plain.new.items ≡ map (λ word. word.now) plain.old.items ++ plain_word word.entry.now) }
{
    if word == "--explain" {
        Ok(())
    } else {
        Ok(plain.push(word)?)
    }
}

/// The words without `--explain`.
pub fn plain_words<'a>(alloc: Global, words: &'a [String]) -> Result<Vec<&'a str>, AllocError>
    ensures { IfOk result (λ plain. map (λ word. word.now) plain.items ≡ plain_words (map string_bytes words.entry.now)) }
{
    let mut plain = Vec::new(alloc);
    for word in words {
        push_plain(&mut plain, word.as_str())?;
    }
    Ok(plain)
}
