//! Files whose bytes are put into memory (docs/COMMANDS.md, "Files").

ghost use Rattle.std.specs.Prelude.{◌≡◌, ◌+◌, ◌++◌, nat_le, List, IfOk, IfErr, MatchOption, OnOk, codes, decimal, map, string_bytes};
ghost use Rattle.std.specs.List.{flat_map};
ghost use Rattle.c62_files.specs.Words.{Text, Loads};
ghost use Rattle.c62_files.specs.Expand.{IsStoppedAt};
ghost use Rattle.c62_files.specs.Load.{AreLoaded, IsNowhere, IsPlaced, address_of, fits, load_word, load_words, natural, numbers_behind};
ghost use Rattle.c62_files.specs.declared.expand.Unread.{Unread as Missing};
ghost use Rattle.c62_files.specs.declared.folder.FileError.TheVariants.{Memory};
ghost use Rattle.c62_files.specs.declared.load.Stopped.TheVariants.{Unread as NotRead};

use crate::expand::Unread;
use crate::folder::Folder;
use c62_token::number::number;
use itoa::Buffer;
use std::alloc::{AllocError, Global};

/// How many bytes memory has.
const MEMORY_BYTES: usize = 65_536;

/// Why a file isn't put into memory.
#[derive(Clone, Copy, PartialEq, Eq, Debug)]
pub enum Misfit {
    /// No address stands before a `=`.
    Bad,
    /// The bytes reach past the end of memory.
    PastEnd,
}

/// Why it isn't known what stands in the place of a word.
#[derive(Debug, Drop)]
pub(crate) enum Stopped<'a> {
    Unread(Unread<'a>),
    Misfit(Misfit),
}

impl From<AllocError> for Stopped<'_> {
    ghost from_gives = { λ _ stopped. (unread : Missing) × (stopped ≡ NotRead unread) × (unread.error ≡ Memory) };

    fn from(error: AllocError) -> Self {
        Stopped::Unread(Unread::from(error))
    }
}

/// The address and the name that are parted by the first `=`.
fn parts_of(word: &str) -> Option<(&str, &str)>
    ensures { MatchOption result (IsNowhere word.now) (λ parts. IsPlaced word.now parts.0.now parts.1.now) }
{
    word.split_once('=')
}

/// The number, where it isn't below 0.
fn natural(number: i64) -> Option<u64>
    ensures { result ≡ natural number }
{
    if 0 <= number {
        Some(number as u64)
    } else {
        None
    }
}

/// The address that a text says.
pub(crate) fn address_of(text: &str) -> Option<u64>
    ensures { result ≡ address_of text.now }
{
    natural(number(text.as_bytes())?)
}

/// Whether so many bytes from a place on lie in memory.
fn fits_behind(place: u64, count: usize) -> bool
    ensures { result ≡ nat_le (place + count) 65536 }
{
    let end = MEMORY_BYTES as u64;
    place <= end && count as u64 <= end - place
}

/// Whether so many bytes from an address on lie in memory that begins at a base.
fn fits(base: u64, address: u64, count: usize) -> bool
    ensures { result ≡ fits base address count }
{
    base <= address && fits_behind(address - base, count)
}

/// Adds a number.
fn push_number(word: &mut String, byte: u8) -> Result<(), AllocError>
    ensures { OnOk result (string_bytes word.new ≡ string_bytes word.old ++ decimal byte) }
{
    let mut buffer = Buffer::new();
    word.push_str(buffer.format(byte))
}

/// Adds numbers, each behind a comma.
fn push_numbers(word: &mut String, bytes: &[u8]) -> Result<(), AllocError>
    ensures { OnOk result (string_bytes word.new ≡ string_bytes word.old ++ numbers_behind bytes.now) }
{
    for byte in bytes {
        word.push_str(",")?;
        push_number(word, *byte)?;
    }
    Ok(())
}

/// The setting that puts a byte and those behind it into memory from an address on.
fn load_word(alloc: Global, address: &str, first: u8, rest: &[u8]) -> Result<String, AllocError>
    ensures { IfOk result (λ word. string_bytes word ≡ load_word address.now first rest.now) }
{
    let mut word = String::from_str(alloc, "@")?;
    word.push_str(address)?;
    word.push_str(":b=")?;
    push_number(&mut word, first)?;
    push_numbers(&mut word, rest)?;
    Ok(word)
}

/// Adds the setting that puts these bytes into memory from an address on; no bytes need none.
fn push_bytes(
    alloc: Global,
    words: &mut Vec<String>,
    address: &str,
    bytes: &[u8],
) -> Result<(), AllocError>
    ensures { OnOk result (map string_bytes words.new.items ≡ map string_bytes words.old.items ++ load_words address.now bytes.now) }
{
    match bytes {
        [] => Ok(()),
        [first, rest @ ..] => Ok(words.push(load_word(alloc, address, *first, rest)?)?),
    }
}

/// Adds the setting that stands for `ADDRESS=NAME` where memory begins at a base. Of a file longer than memory a byte more than that has is read.
///
/// # Errors
///
/// Where the file can't be read, its bytes don't fit, or memory ran out.
pub(crate) fn push_load<'a, F: Folder>(
    alloc: Global,
    folder: &F,
    words: &mut Vec<String>,
    base: u64,
    word: &'a str,
) -> Result<(), Stopped<'a>>
    ensures ok { OnOk result ((mine : List Text) × AreLoaded base (F.holds folder.now) word.entry.now mine
        × (map string_bytes words.new.items ≡ map string_bytes words.old.items ++ mine)) }
    ensures stopped { IfErr result (IsStoppedAt base (F.holds folder.now) (Loads word.entry.now)) }
{
    let Some((place, name)) = parts_of(word) else {
        return Err(Stopped::Misfit(Misfit::Bad));
    };
    let Some(address) = address_of(place) else {
        return Err(Stopped::Misfit(Misfit::Bad));
    };
    let bytes = match folder.read(alloc, name, MEMORY_BYTES) {
        Ok(bytes) => bytes,
        Err(error) => return Err(Stopped::Unread(Unread { name, error })),
    };
    if !fits(base, address, bytes.len()) {
        return Err(Stopped::Misfit(Misfit::PastEnd));
    }
    Ok(push_bytes(alloc, words, place, &bytes)?)
}
