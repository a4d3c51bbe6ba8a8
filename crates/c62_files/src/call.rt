//! Where the text of a call comes from, where its answer goes to, and which words are left for the command.

ghost use Rattle.std.specs.Prelude.{◌≡◌, ◌++◌, IfOk, OnOk, IfErr, Some, None, map, option_map, slice_get};
ghost use Rattle.std.specs.List.{flat_map};
ghost use Rattle.std.specs.Option.{option_to_list};
ghost use Rattle.c62_files.specs.Words.{dump_in, input_in, output_in, text_piece, texts};
ghost use Rattle.c62_files.specs.declared.call.CallError.TheVariants.{Memory};
ghost use Rattle.c62_files.specs.Call.{IsCall, IsMistake, IsSourceMistake, IsTargetMistake, is_standard, most_inputs, most_of, source_in, target_in, text_source};

use crate::dump::name_of;
use crate::piece::{Piece, pieces_of};
use crate::wanted::Wanted;
use std::alloc::{AllocError, Global};
use std::convert::AsStr;

/// Where the text of a call comes from.
#[derive(Clone, Copy, PartialEq, Eq, Debug)]
pub enum Source<'a> {
    Standard,
    /// The file of this name.
    File(&'a str),
    /// Standard input, whose text and listing are called by these names: the bytes of their files were read before. No words name it.
    Named(&'a str, &'a str),
    /// A text and a listing that is held against it: the files of these names, or standard input where one is `-`.
    Parts(&'a str, &'a str),
}

/// What a call asks for.
#[derive(Debug, Drop)]
pub struct Call<'a> {
    /// What its words are, in their order.
    pub words: Vec<Piece<'a>>,
    pub source: Source<'a>,
    /// The name of the file that the answer goes to, where that isn't standard output.
    pub target: Option<&'a str>,
    /// The names of files that memory goes to.
    pub dumps: Vec<&'a str>,
}

/// Why words make no call.
#[derive(Debug, Drop)]
pub enum CallError<'a> {
    /// Nothing stands behind this option, which wants the name of a file, or of `--print` and `--dump` what is printed or written.
    NoName(&'static str),
    /// The file of this name is one more than the command reads.
    TooManyInputs(&'a str),
    /// Standard input is named for both parts of a check.
    StandardTwice,
    /// The file of this name is a second one for the answer.
    TwoOutputs(&'a str),
    Memory,
}

impl From<AllocError> for CallError<'_> {
    ghost from_gives = { λ _ error. error ≡ Memory };

    fn from(_error: AllocError) -> Self {
        CallError::Memory
    }
}

/// Adds the name of a file that a text is in.
fn push_input<'a>(names: &mut Vec<&'a str>, piece: &Piece<'a>) -> Result<(), AllocError>
    ensures { OnOk result (texts names.new.items ≡ texts names.old.items ++ input_in (text_piece piece.now)) }
{
    match piece {
        Piece::Input(name) => Ok(names.push(*name)?),
        Piece::Plain(_)
        | Piece::Output(_)
        | Piece::Settings(_)
        | Piece::Load(_)
        | Piece::Print(_)
        | Piece::Dump(_)
        | Piece::Base(_) => Ok(()),
    }
}

/// The names of files that texts are in, among these pieces.
fn inputs_in<'a>(alloc: Global, pieces: &[Piece<'a>]) -> Result<Vec<&'a str>, AllocError>
    ensures { IfOk result (λ names. texts names.items ≡ flat_map input_in (map text_piece pieces.now)) }
{
    let mut names = Vec::new(alloc);
    for piece in pieces {
        push_input(&mut names, piece)?;
    }
    Ok(names)
}

/// Adds the name of a file that the answer goes to.
fn push_output<'a>(names: &mut Vec<&'a str>, piece: &Piece<'a>) -> Result<(), AllocError>
    ensures { OnOk result (texts names.new.items ≡ texts names.old.items ++ output_in (text_piece piece.now)) }
{
    match piece {
        Piece::Output(name) => Ok(names.push(*name)?),
        Piece::Plain(_)
        | Piece::Input(_)
        | Piece::Settings(_)
        | Piece::Load(_)
        | Piece::Print(_)
        | Piece::Dump(_)
        | Piece::Base(_) => Ok(()),
    }
}

/// The names of files that the answer goes to, among these pieces.
fn outputs_in<'a>(alloc: Global, pieces: &[Piece<'a>]) -> Result<Vec<&'a str>, AllocError>
    ensures { IfOk result (λ names. texts names.items ≡ flat_map output_in (map text_piece pieces.now)) }
{
    let mut names = Vec::new(alloc);
    for piece in pieces {
        push_output(&mut names, piece)?;
    }
    Ok(names)
}

/// Adds a name, where there is one.
fn push_some<'a>(names: &mut Vec<&'a str>, name: Option<&'a str>) -> Result<(), AllocError>
    ensures { OnOk result (texts names.new.items ≡ texts names.old.items ++ option_to_list (option_map (λ n. n.now) name.entry)) }
{
    match name {
        Some(name) => Ok(names.push(name)?),
        None => Ok(()),
    }
}

/// Adds the name of a file that memory goes to.
fn push_dump<'a>(names: &mut Vec<&'a str>, piece: &Piece<'a>) -> Result<(), AllocError>
    ensures { OnOk result (texts names.new.items ≡ texts names.old.items ++ dump_in (text_piece piece.now)) }
{
    match piece {
        Piece::Dump(word) => push_some(names, name_of(*word)),
        Piece::Plain(_)
        | Piece::Input(_)
        | Piece::Output(_)
        | Piece::Settings(_)
        | Piece::Load(_)
        | Piece::Print(_)
        | Piece::Base(_) => Ok(()),
    }
}

/// The names of files that memory goes to, among these pieces.
fn dumps_in<'a>(alloc: Global, pieces: &[Piece<'a>]) -> Result<Vec<&'a str>, AllocError>
    ensures { IfOk result (λ names. texts names.items ≡ flat_map dump_in (map text_piece pieces.now)) }
{
    let mut names = Vec::new(alloc);
    for piece in pieces {
        push_dump(&mut names, piece)?;
    }
    Ok(names)
}

/// How many files a command reads.
fn most_inputs(command: &str) -> usize
    ensures { result ≡ most_inputs command.now }
{
    if command == "check" { 2 } else { 1 }
}

/// How many files the command of these words reads.
fn most_of<S: AsStr>(words: &[S]) -> usize
    ensures { result ≡ most_of (map S.text words.now) }
{
    match words {
        [] => 1,
        [command, ..] => most_inputs(command.as_str()),
    }
}

fn is_standard(name: &str) -> bool
    ensures { result ≡ is_standard name.now }
{
    name == "-"
}

/// The source that these names are: none, one, or two of which not both are standard input.
#[tactic(auto, unfolding(crate::specs::Call::source_in))]
fn source_in<'a>(names: &[&'a str]) -> Option<Source<'a>>
    ensures { option_map text_source result ≡ source_in (texts names.now) }
{
    match names {
        [] => Some(Source::Standard),
        [name] => Some(if is_standard(name) {
            Source::Standard
        } else {
            Source::File(*name)
        }),
        [text, listing, ..] => {
            if is_standard(text) && is_standard(listing) {
                None
            } else {
                Some(Source::Parts(*text, *listing))
            }
        }
    }
}

/// The file that the answer goes to, where one is named and that isn't `-`.
#[tactic(auto, unfolding(crate::specs::Call::target_in))]
fn target_in<'a>(names: &[&'a str]) -> Option<&'a str>
    ensures { option_map (λ name. name.now) result ≡ target_in (texts names.now) }
{
    match names {
        [] => None,
        [name, ..] => { if is_standard(name) { None } else { Some(*name) } }
    }
}

/// The source that these names are, where they are no more than so many.
fn source_of<'a>(most: usize, names: &[&'a str]) -> Result<Source<'a>, CallError<'a>>
    ensures ok { IfOk result (λ source. (slice_get (texts names.now) most ≡ None) × (source_in (texts names.now) ≡ Some (text_source source))) }
    ensures err { IfErr result (IsSourceMistake most (texts names.now)) }
{
    if let Some(name) = names.get(most) {
        return Err(CallError::TooManyInputs(*name));
    }
    match source_in(names) {
        Some(source) => Ok(source),
        None => Err(CallError::StandardTwice),
    }
}

/// The file that the answer goes to, where no more than one is named.
fn target_of<'a>(names: &[&'a str]) -> Result<Option<&'a str>, CallError<'a>>
    ensures ok { IfOk result (λ target. (slice_get (texts names.now) 1 ≡ None)
        × (option_map (λ name. name.now) target ≡ target_in (texts names.now))) }
    ensures err { IfErr result (IsTargetMistake (texts names.now)) }
{
    match names.get(1) {
        Some(name) => Err(CallError::TwoOutputs(*name)),
        None => Ok(target_in(names)),
    }
}

/// What the words after the program's name ask for (docs/COMMANDS.md, "Files").
///
/// # Errors
///
/// Where nothing stands behind an option that wants something, more files are named than the command reads or the answer goes to, or memory ran out.
pub fn call_of<'a, S: AsStr>(alloc: Global, words: &'a [S]) -> Result<Call<'a>, CallError<'a>>
    ensures ok { IfOk result (IsCall (map S.text words.entry.now)) }
    ensures err { IfErr result (IsMistake (map S.text words.entry.now)) }
{
    let found = pieces_of(alloc, Wanted::Command, words)?;
    if let Some(option) = found.wanted.option() {
        return Err(CallError::NoName(option));
    }
    let inputs = inputs_in(alloc, &found.pieces)?;
    let outputs = outputs_in(alloc, &found.pieces)?;
    Ok(Call {
        source: source_of(most_of(words), &inputs)?,
        target: target_of(&outputs)?,
        dumps: dumps_in(alloc, &found.pieces)?,
        words: found.pieces,
    })
}
