//! What the words of the command line are: words for the command itself, or names of files.

ghost use Rattle.std.specs.Prelude.{◌≡◌, ◌==◌, ◌++◌, IfOk, OnOk, map, option_map};
ghost use Rattle.std.specs.Option.{option_to_list};
ghost use Rattle.std.specs.List.{list_any};
ghost use Rattle.c62_files.specs.Words.{is_name, text_piece, lone, piece_at, wanted_after, wanted_at_end, pieces};

use crate::wanted::Wanted;
use std::alloc::{AllocError, Global};
use std::convert::AsStr;

/// What a word of the command line is.
#[derive(Clone, Copy, PartialEq, Eq, Debug)]
pub enum Piece<'a> {
    /// A word for the command itself.
    Plain(&'a str),
    /// The name of the file that the text is in, or `-` for standard input.
    Input(&'a str),
    /// Behind `-o`: the name of the file that the answer goes to.
    Output(&'a str),
    /// Behind `--settings`: the name of a file whose words stand here.
    Settings(&'a str),
    /// Behind `--load`: `ADDRESS=NAME`, where the bytes of the file of this name are put into memory from this address on.
    Load(&'a str),
    /// Behind `--print`: `ADDRESS+LENGTH`, and how it is printed.
    Print(&'a str),
    /// Behind `--dump`: `ADDRESS+LENGTH=NAME`, where so many bytes of memory from this address on go to the file of this name.
    Dump(&'a str),
    /// Behind `--base`: the address at which memory begins.
    Base(&'a str),
}

/// What words are, and what the last of them wants of a word that isn't there.
#[derive(Debug, Drop)]
pub struct Pieces<'a> {
    pub pieces: Vec<Piece<'a>>,
    pub wanted: Wanted,
}

/// Whether there is a `=`.
fn has_equals(word: &[u8]) -> bool
    ensures { result ≡ list_any (λ b. b == 61) word.now }
{
    word.iter().any(|b| *b == b'=')
}

/// Whether a word names a file: it is no option and no setting.
#[tactic(auto, unfolding(crate::specs::Words::is_name))]
fn is_name(word: &[u8]) -> bool
    ensures { result ≡ is_name word.now }
{
    match word {
        [] => false,
        [b'-', rest @ ..] => rest.is_empty(),
        [_, ..] => !has_equals(word),
    }
}

/// What a word is by itself.
fn lone<'a>(word: &'a str) -> Piece<'a>
    ensures { text_piece result ≡ lone word.entry.now }
{
    if is_name(word.as_bytes()) {
        Piece::Input(word)
    } else {
        Piece::Plain(word)
    }
}

/// What a word is, behind one that wants this. An option that wants a word of its own is nothing without it.
fn piece_at<'a>(wanted: Wanted, word: &'a str) -> Option<Piece<'a>>
    ensures { option_map text_piece result ≡ piece_at wanted word.entry.now }
{
    match wanted {
        Wanted::Command | Wanted::Value | Wanted::Help => Some(Piece::Plain(word)),
        Wanted::Output => Some(Piece::Output(word)),
        Wanted::Settings => Some(Piece::Settings(word)),
        Wanted::Load => Some(Piece::Load(word)),
        Wanted::Print => Some(Piece::Print(word)),
        Wanted::Dump => Some(Piece::Dump(word)),
        Wanted::Base => Some(Piece::Base(word)),
        Wanted::Nothing => match Wanted::by(word) {
            Wanted::Output
            | Wanted::Settings
            | Wanted::Load
            | Wanted::Print
            | Wanted::Dump
            | Wanted::Base => None,
            Wanted::Value => Some(Piece::Plain(word)),
            Wanted::Command | Wanted::Nothing | Wanted::Help => Some(lone(word)),
        },
    }
}

/// What a word wants, behind one that wants this.
fn wanted_after(wanted: Wanted, word: &str) -> Wanted
    ensures { result ≡ wanted_after wanted word.now }
{
    match wanted {
        Wanted::Command => Wanted::by_command(word),
        Wanted::Help => Wanted::Help,
        Wanted::Value
        | Wanted::Output
        | Wanted::Settings
        | Wanted::Load
        | Wanted::Print
        | Wanted::Dump
        | Wanted::Base => Wanted::Nothing,
        Wanted::Nothing => Wanted::by(word),
    }
}

fn push_some<'a>(pieces: &mut Vec<Piece<'a>>, piece: Option<Piece<'a>>) -> Result<(), AllocError>
    ensures { OnOk result (pieces.new.items ≡ pieces.old.items ++ option_to_list piece.entry) }
{
    match piece {
        Some(piece) => Ok(pieces.push(piece)?),
        None => Ok(()),
    }
}

/// What these words are, behind one that wants this.
pub fn pieces_of<'a, S: AsStr>(
    alloc: Global,
    wanted: Wanted,
    words: &'a [S],
) -> Result<Pieces<'a>, AllocError>
    ensures pieces { IfOk result (λ p. map text_piece p.pieces.items ≡ pieces wanted (map S.text words.entry.now)) }
    ensures wanted { IfOk result (λ p. p.wanted ≡ wanted_at_end wanted (map S.text words.entry.now)) }
{
    let mut pieces = Vec::new(alloc);
    let mut wanted = wanted;
    for word in words {
        let word = word.as_str();
        push_some(&mut pieces, piece_at(wanted, word))?;
        wanted = wanted_after(wanted, word);
    }
    Ok(Pieces { pieces, wanted })
}
