//! Puts the words of files of settings into their places among the words of a call.

ghost use Rattle.std.specs.Prelude.{◌≡◌, ◌++◌, ◌∷◌, ◌≤◌, ◌<◌, ◌-◌, ◌+◌, ◌^◌, if◌then◌else◌, List, [], IfOk, IfErr, IfSome, OnOk, OnErr, codes, length, map, string_bytes};
ghost use Rattle.std.specs.Str.Lossy.{utf8_lossy};
ghost use Rattle.c62_files.specs.Words.{Text, text_piece};
ghost use Rattle.c62_files.specs.Settings.{settings_words};
ghost use Rattle.c62_files.specs.Expand.{Expands, Gives, IsStoppedAt, IsUnexpanded, begin_after, begin_among, begin_by, is_load, numbered};
ghost use Rattle.c62_files.specs.declared.folder.FileError.TheVariants.{Memory};

use crate::dump::extent_of;
use crate::folder::{FileError, Folder};
use crate::load::{Misfit, Stopped, address_of, push_load};
use crate::piece::Piece;
use crate::settings::settings_words;
use std::alloc::{AllocError, Global};
use std::io;

/// The most bytes of a file of settings.
pub const MOST_SETTINGS: usize = 1_048_576;

/// The file of this name isn't read.
#[derive(Debug, Drop)]
pub struct Unread<'a> {
    pub name: &'a str,
    pub error: FileError,
}

impl From<AllocError> for Unread<'_> {
    ghost from_gives = { λ _ unread. unread.error ≡ Memory };

    fn from(_error: AllocError) -> Self {
        Unread {
            name: "",
            error: FileError::Memory,
        }
    }
}

/// Why it isn't known what stands in the places of words.
#[derive(Debug, Drop)]
pub enum Unexpanded<'a> {
    Unread(Unread<'a>),
    /// The file that the load of this number, from 1, puts into memory doesn't fit there.
    Load(usize, Misfit),
}

/// Adds the words of a file of settings.
fn push_settings(alloc: Global, words: &mut Vec<String>, bytes: &[u8]) -> Result<(), AllocError>
    ensures { OnOk result (map string_bytes words.new.items ≡ map string_bytes words.old.items ++ map utf8_lossy (settings_words bytes.now)) }
{
    let read = settings_words(alloc, bytes)?;
    for word in &read {
        words.push(String::from_utf8_lossy(alloc, word)?)?;
    }
    Ok(())
}

/// What a file of settings holds.
fn settings_in<F: Folder>(alloc: Global, folder: &F, name: &str) -> Result<Vec<u8>, FileError>
    ensures held { IfOk result (λ bytes. IfSome (F.holds folder.now name.now) (λ all. bytes.items ≡ all)) }
    ensures short { IfOk result (λ bytes. length bytes.items ≤ MOST_SETTINGS) }
{
    let bytes = folder.read(alloc, name, MOST_SETTINGS)?;
    if bytes.len() > MOST_SETTINGS {
        return Err(FileError::from(io::Error::from(io::ErrorKind::FileTooLarge)));
    }
    Ok(bytes)
}

/// Adds a word.
fn push_word(alloc: Global, words: &mut Vec<String>, word: &str) -> Result<(), AllocError>
    ensures { OnOk result (map string_bytes words.new.items ≡ map string_bytes words.old.items ++ word.now ∷ []) }
{
    words.push(String::from_str(alloc, word)?)?;
    Ok(())
}

/// Adds the setting that puts a text behind a place.
fn push_setting(
    alloc: Global,
    words: &mut Vec<String>,
    place: &str,
    text: &str,
) -> Result<(), AllocError>
    ensures { OnOk result (map string_bytes words.new.items ≡ map string_bytes words.old.items ++ (place.now ++ text.now) ∷ []) }
{
    let mut setting = String::from_str(alloc, place)?;
    setting.push_str(text)?;
    words.push(setting)?;
    Ok(())
}

/// Adds what stands in the place of a word, where memory begins at a base.
fn push_words<'a, F: Folder>(
    alloc: Global,
    folder: &F,
    words: &mut Vec<String>,
    base: u64,
    piece: &Piece<'a>,
) -> Result<(), Stopped<'a>>
    ensures ok { OnOk result ((mine : List Text) × Gives base (F.holds folder.now) (text_piece piece.now) mine
        × (map string_bytes words.new.items ≡ map string_bytes words.old.items ++ mine)) }
    ensures stopped { IfErr result (IsStoppedAt base (F.holds folder.now) (text_piece piece.now)) }
{
    match piece {
        Piece::Plain(word) => Ok(push_word(alloc, words, *word)?),
        Piece::Settings(name) => match settings_in(alloc, folder, *name) {
            Ok(bytes) => Ok(push_settings(alloc, words, &bytes)?),
            Err(error) => Err(Stopped::Unread(Unread { name: *name, error })),
        },
        Piece::Load(word) => push_load(alloc, folder, words, base, *word),
        Piece::Print(word) => Ok(push_setting(alloc, words, "print=", *word)?),
        Piece::Dump(word) => Ok(push_setting(alloc, words, "dump=", extent_of(*word))?),
        Piece::Base(word) => Ok(push_setting(alloc, words, "base=", *word)?),
        Piece::Input(_) | Piece::Output(_) => Ok(()),
    }
}

/// The address at which a word lets memory begin.
fn begin_by(piece: &Piece<'_>) -> Option<u64>
    ensures { result ≡ begin_by (text_piece piece.now) }
{
    match piece {
        Piece::Base(word) => address_of(*word),
        Piece::Plain(_)
        | Piece::Settings(_)
        | Piece::Input(_)
        | Piece::Output(_)
        | Piece::Load(_)
        | Piece::Print(_)
        | Piece::Dump(_) => None,
    }
}

/// Where memory begins by this word, where it began at a base by those before it.
fn begin_after(base: u64, piece: &Piece<'_>) -> u64
    ensures { result ≡ begin_after base (text_piece piece.now) }
{
    match begin_by(piece) {
        Some(begin) => begin,
        None => base,
    }
}

/// Where memory begins by these words: where the last says that says it, and otherwise at 0.
fn begin_among(pieces: &[Piece<'_>]) -> u64
    ensures { result ≡ begin_among (map text_piece pieces.now) }
{
    let mut base = 0;
    for piece in pieces {
        base = begin_after(base, piece);
    }
    base
}

/// What stopped at a word, where that is the load of this number if it is one.
fn numbered<'a>(number: usize, stopped: Stopped<'a>) -> Unexpanded<'a>
    ensures { result ≡ numbered number stopped.entry }
{
    match stopped {
        Stopped::Unread(unread) => Unexpanded::Unread(unread),
        Stopped::Misfit(misfit) => Unexpanded::Load(number, misfit),
    }
}

/// How many loads there are with this word, where so many are before it.
fn loads_with(loads: usize, piece: &Piece<'_>) -> usize
    requires { loads < 2 ^ 64 - 1 }
    ensures { result ≡ (if is_load (text_piece piece.now) then loads + 1 else loads) }
{
    match piece {
        Piece::Load(_) => loads + 1,
        Piece::Plain(_)
        | Piece::Settings(_)
        | Piece::Input(_)
        | Piece::Output(_)
        | Piece::Print(_)
        | Piece::Dump(_)
        | Piece::Base(_) => loads,
    }
}

/// The words of a call, with those of its files of settings in their places, and with settings for the files that it loads, for what it
/// prints or writes to files, and for where memory begins. Files are loaded where `--base` lets it begin.
///
/// # Errors
///
/// Where such a file can't be read, one of settings is longer than [`MOST_SETTINGS`], one that is loaded doesn't fit, or memory
/// ran out.
pub fn expanded<'a, F: Folder>(
    alloc: Global,
    folder: &F,
    pieces: &[Piece<'a>],
) -> Result<Vec<String>, Unexpanded<'a>>
    ensures ok { IfOk result (λ words. Expands (F.holds folder.now) (map text_piece pieces.now) (map string_bytes words.items)) }
    ensures err { IfErr result (IsUnexpanded (F.holds folder.now) (map text_piece pieces.now)) }
{
    let base = begin_among(pieces);
    let mut words = Vec::new(alloc);
    let mut loads = 0;
    for piece in pieces {
        if let Err(stopped) = push_words(alloc, folder, &mut words, base, piece) {
            return Err(numbered(loads + 1, stopped));
        }
        loads = loads_with(loads, piece);
    }
    Ok(words)
}
