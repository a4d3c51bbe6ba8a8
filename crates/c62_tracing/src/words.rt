//! Whether words ask for a trace of a run or for its waveform, what they ask for, and the words that are left.

ghost use Rattle.std.specs.Prelude.{◌≡◌, ◌++◌, Some, IfOk, OnOk, fold, map, option_and_then, option_map, string_bytes};
ghost use Rattle.std.specs.List.{flat_map};
ghost use Rattle.c62_tracing.specs.Words.{and_word, are_one_file, asked_in, asks, asks_at, at_least, count_by, destination_by, file_by, from_by, is_option, is_traced, lacks, makes_trace, names_option, nothing_asked, other_in, other_words, text_to, text_word, told_in, told_of, tracing_of, with_count, with_from, with_trace, with_vcd, with_word};
ghost use Rattle.c62_tracing.specs.declared.word.Wants.TheVariants.{Nothing};

use crate::word::{Wants, Word, wants_after, words_said};
use c62_files::equals_parts;
use c62_token::number::number;
use std::alloc::{AllocError, Global};
use std::convert::AsStr;

/// Where a trace goes.
#[derive(Clone, Copy, PartialEq, Eq, Debug)]
pub enum Destination<'a> {
    /// To standard error.
    Errors,
    /// To the file of this name.
    File(&'a str),
}

/// What is shown of a run: a trace, a waveform, or both.
#[derive(Clone, Copy, Debug)]
pub struct Tracing<'a> {
    pub trace: Option<Destination<'a>>,
    /// The name of the file that the waveform goes to.
    pub vcd: Option<&'a str>,
    /// The first cycle that is shown, 0 to 4,294,967,295.
    pub from: u64,
    /// How many cycles are shown, 1 to 4,294,967,295.
    pub count: u64,
}

/// What is asked for, where that is said.
#[derive(Clone, Copy, Debug)]
pub(crate) struct Found<'a> {
    pub trace: Option<Destination<'a>>,
    pub vcd: Option<&'a str>,
    pub from: Option<u64>,
    pub count: Option<u64>,
}

/// Whether a word is an option for a trace.
fn is_option(word: &str) -> bool
    ensures { result ≡ is_option word.now }
{
    word == "--trace" || word == "--vcd" || word == "--from-cycle" || word == "--cycles-traced"
}

/// Whether a word is such an option, or begins with one and a `=`.
fn names_option(word: &str) -> bool
    ensures { result ≡ names_option word.now }
{
    if is_option(word) {
        return true;
    }
    match equals_parts(word) {
        Some((option, _)) => is_option(option),
        None => false,
    }
}

/// Whether a word is such an option, behind one that wants this.
fn asks_at(wants: Wants, word: &str) -> bool
    ensures { result ≡ asks_at wants word.now }
{
    match wants {
        Wants::Nothing => names_option(word),
        Wants::Command | Wants::Value | Wants::Vcd | Wants::From | Wants::Count => false,
    }
}

/// Whether one of the words behind a command asks for a trace.
fn asks<S: AsStr>(words: &[S]) -> bool
    ensures { result ≡ asks Nothing (map S.text words.now) }
{
    let mut wants = Wants::Nothing;
    for word in words {
        let word = word.as_str();
        if asks_at(wants, word) {
            return true;
        }
        wants = wants_after(wants, word);
    }
    false
}

fn makes_trace(command: &str) -> bool
    ensures { result ≡ makes_trace command.now }
{
    command == "sim" || command == "exec"
}

/// Whether the words ask for a trace of a run, or for its waveform: `sim` or `exec`, and behind it `--trace`, `--vcd`, `--from-cycle` or
/// `--cycles-traced`, alone or with a `=`, where that isn't the value of another option.
pub fn is_traced<S: AsStr>(words: &[S]) -> bool
    ensures { result ≡ is_traced (map S.text words.now) }
{
    match words {
        [] => false,
        [command, rest @ ..] => makes_trace(command.as_str()) && asks(rest),
    }
}

/// Adds a word of the command.
fn push_other(alloc: Global, others: &mut Vec<String>, word: &Word<'_>) -> Result<(), AllocError>
    ensures { OnOk result (map string_bytes others.new.items ≡ map string_bytes others.old.items ++ other_in (text_word word.now)) }
{
    match word {
        Word::Other(word) => Ok(others.push(String::from_str(alloc, *word)?)?),
        Word::Trace(_) | Word::Vcd(_) | Word::From(_) | Word::Count(_) => Ok(()),
    }
}

/// The words of the command among these.
fn others_in(alloc: Global, words: &[Word<'_>]) -> Result<Vec<String>, AllocError>
    ensures { IfOk result (λ others. map string_bytes others.items ≡ flat_map other_in (map text_word words.now)) }
{
    let mut others = Vec::new(alloc);
    for word in words {
        push_other(alloc, &mut others, word)?;
    }
    Ok(others)
}

/// The words of a command, without those that ask for a trace.
///
/// # Errors
///
/// `AllocError` where memory ran out.
pub fn other_words<S: AsStr>(alloc: Global, words: &[S]) -> Result<Vec<String>, AllocError>
    ensures { IfOk result (λ others. map string_bytes others.items ≡ other_words (map S.text words.now)) }
{
    let said = words_said(alloc, Wants::Command, words)?;
    others_in(alloc, &said.words)
}

/// Where a trace goes that is written to this name.
fn destination_by<'a>(name: &'a str) -> Option<Destination<'a>>
    ensures { option_map text_to result ≡ destination_by name.entry.now }
{
    if name.is_empty() {
        None
    } else if name == "-" {
        Some(Destination::Errors)
    } else {
        Some(Destination::File(name))
    }
}

/// The file that a waveform goes to.
fn file_by<'a>(name: &'a str) -> Option<&'a str>
    ensures { option_map (λ name. name.now) result ≡ file_by name.entry.now }
{
    if name.is_empty() || name == "-" {
        None
    } else {
        Some(name)
    }
}

/// The number, where it isn't below 0.
fn from_zero(number: i64) -> Option<u64>
    ensures { result ≡ at_least 0 number }
{
    if 0 <= number {
        Some(number as u64)
    } else {
        None
    }
}

/// The number, where it isn't below 1.
fn from_one(number: i64) -> Option<u64>
    ensures { result ≡ at_least 1 number }
{
    if 1 <= number {
        Some(number as u64)
    } else {
        None
    }
}

/// The first cycle that a text says.
fn from_by(text: &str) -> Option<u64>
    ensures { result ≡ from_by text.now }
{
    from_zero(number(text.as_bytes())?)
}

/// How many cycles a text says.
fn count_by(text: &str) -> Option<u64>
    ensures { result ≡ count_by text.now }
{
    from_one(number(text.as_bytes())?)
}

fn with_trace<'a>(found: Found<'a>, to: Destination<'a>) -> Option<Found<'a>>
    ensures { option_map asked_in result ≡ with_trace (asked_in found.entry) (text_to to.entry) }
{
    if found.trace.is_some() {
        return None;
    }
    Some(Found {
        trace: Some(to),
        vcd: found.vcd,
        from: found.from,
        count: found.count,
    })
}

fn with_vcd<'a>(found: Found<'a>, name: &'a str) -> Option<Found<'a>>
    ensures { option_map asked_in result ≡ with_vcd (asked_in found.entry) name.entry.now }
{
    if found.vcd.is_some() {
        return None;
    }
    Some(Found {
        trace: found.trace,
        vcd: Some(name),
        from: found.from,
        count: found.count,
    })
}

fn with_from<'a>(found: Found<'a>, from: u64) -> Option<Found<'a>>
    ensures { option_map asked_in result ≡ with_from (asked_in found.entry) from }
{
    if found.from.is_some() {
        return None;
    }
    Some(Found {
        trace: found.trace,
        vcd: found.vcd,
        from: Some(from),
        count: found.count,
    })
}

fn with_count<'a>(found: Found<'a>, count: u64) -> Option<Found<'a>>
    ensures { option_map asked_in result ≡ with_count (asked_in found.entry) count }
{
    if found.count.is_some() {
        return None;
    }
    Some(Found {
        trace: found.trace,
        vcd: found.vcd,
        from: found.from,
        count: Some(count),
    })
}

/// What is asked for with a word more. None where that is bad, or says again what was said.
fn with_word<'a>(found: Found<'a>, word: &Word<'a>) -> Option<Found<'a>>
    ensures { option_map asked_in result ≡ with_word (asked_in found.entry) (text_word word.now) }
{
    match word {
        Word::Other(_) => Some(found),
        Word::Trace(name) => with_trace(found, destination_by(*name)?),
        Word::Vcd(name) => with_vcd(found, file_by(*name)?),
        Word::From(text) => with_from(found, from_by(*text)?),
        Word::Count(text) => with_count(found, count_by(*text)?),
    }
}

/// The same behind words of which one may be bad.
fn and_word<'a>(found: Option<Found<'a>>, word: &Word<'a>) -> Option<Found<'a>>
    ensures { option_map asked_in result ≡ and_word (option_map asked_in found.entry) (text_word word.now) }
{
    with_word(found?, word)
}

/// What these words ask for.
fn found_in<'a>(words: &[Word<'a>]) -> Option<Found<'a>>
    ensures { option_map asked_in result ≡ fold and_word (Some nothing_asked) (map text_word words.now) }
{
    let mut found = Some(Found {
        trace: None,
        vcd: None,
        from: None,
        count: None,
    });
    for word in words {
        found = and_word(found, word);
    }
    found
}

/// Whether a trace and a waveform go to one file.
fn are_one_file(trace: Option<Destination<'_>>, vcd: Option<&str>) -> bool
    ensures { result ≡ are_one_file (option_map text_to trace.entry) (option_map (λ name. name.now) vcd.entry) }
{
    match (trace, vcd) {
        (Some(Destination::File(trace)), Some(vcd)) => trace == vcd,
        (Some(Destination::Errors), Some(_)) | (Some(_), None) | (None, _) => false,
    }
}

/// What is shown, where that goes together.
fn told_of<'a>(found: Found<'a>) -> Option<Tracing<'a>>
    ensures { option_map told_in result ≡ told_of (asked_in found.entry) }
{
    if found.trace.is_none() && found.vcd.is_none() {
        return None;
    }
    if are_one_file(found.trace, found.vcd) {
        return None;
    }
    Some(Tracing {
        trace: found.trace,
        vcd: found.vcd,
        from: found.from.unwrap_or(0),
        count: found.count.unwrap_or(10_000),
    })
}

/// Whether an option for a trace lacks its value.
fn lacks(wants: Wants) -> bool
    ensures { result ≡ lacks wants }
{
    match wants {
        Wants::Vcd | Wants::From | Wants::Count => true,
        Wants::Command | Wants::Nothing | Wants::Value => false,
    }
}

fn tracing_in<'a>(words: &[Word<'a>]) -> Option<Tracing<'a>>
    ensures { option_map told_in result ≡ option_and_then told_of (fold and_word (Some nothing_asked) (map text_word words.now)) }
{
    told_of(found_in(words)?)
}

/// The trace and the waveform that words ask for, the first of which is the command. None where they are bad: an option stands there
/// twice, lacks its value or has one that is no number in its range, a file has no name or is standard output, both have one file, or
/// there is neither a trace nor a waveform.
///
/// # Errors
///
/// `AllocError` where memory ran out.
pub fn tracing_of<'a, S: AsStr>(
    alloc: Global,
    words: &'a [S],
) -> Result<Option<Tracing<'a>>, AllocError>
    ensures { IfOk result (λ tracing. option_map told_in tracing ≡ tracing_of (map S.text words.entry.now)) }
{
    let said = words_said(alloc, Wants::Command, words)?;
    if lacks(said.wants) {
        return Ok(None);
    }
    Ok(tracing_in(&said.words))
}
