//! The line of serial text that stands for a line of packets.

ghost use Rattle.c62_line.specs.declared.limits.TheConstants.{MOST_LINE};
ghost use Rattle.std.specs.Prelude.{◌≡◌, ◌<◌, ◌≤◌, ◌++◌, [], ◌∷◌, length, Some, None, MatchOption, OnOk, IfOk};
ghost use Rattle.std.specs.Fmt.{signed_decimal};
ghost use Rattle.c62_token.specs.Token.{begins, words_left};
ghost use Rattle.c62_op.specs.Shape.{is_load, is_store};
ghost use Rattle.c62_line.specs.Mnemonic.{operation_named};
ghost use Rattle.c62_adopt_line.specs.Plain.{undotted, moved_by, bytes_named, accesses_in, between_brackets, square, counted, in_accesses, operands_behind, names_branch, renamed, plain_words, spaced, FindsRound, PushesNext};

use arrayvec::ArrayVec;
use c62_line::MOST_LINE;
use c62_op::Op;
use c62_token::number::{number, spells};
use c62_token::{Tokens, begins_with, is_mark};
use itoa::Buffer;
use std::alloc::AllocError;

/// The line with `_` in place of the dots of names: of all, or where a unit's is yet to come, of all but the first.
pub(crate) fn undotted(behind: bool, line: &[u8]) -> ArrayVec<u8, MOST_LINE>
    requires { length line.now ≤ MOST_LINE }
    ensures { result.items ≡ undotted behind line.now }
{
    let mut names = behind;
    let mut bytes = ArrayVec::new();
    for b in line {
        bytes.push(if *b == b'.' && names { b'_' } else { *b });
        names = *b == b'.' || names;
    }
    bytes
}

#[tactic(auto, unfolding(c62_line::specs::Mnemonic::operation_named))]
fn operation_named(name: &[u8]) -> Option<Op>
    ensures { result ≡ operation_named name.now }
{
    Op::ALL
        .iter()
        .copied()
        .find(|op| spells(op.mnemonic().as_bytes(), name))
}

/// The bytes that an access moves.
fn moved_by(op: Op) -> Option<u8>
    ensures { result ≡ moved_by op }
{
    if op.is_load() || op.is_store() {
        Some(op.size())
    } else {
        None
    }
}

/// The bytes that an access of this name moves.
fn bytes_named(name: &[u8]) -> Option<u8>
    ensures { result ≡ bytes_named name.now }
{
    moved_by(operation_named(name)?)
}

/// So many bytes in accesses of this size, or -1 where they are no whole number of them.
fn accesses_in(size: u8, bytes: i64) -> i64
    requires { 0 < size }
    ensures { result ≡ accesses_in size bytes }
{
    match u64::try_from(bytes) {
        Ok(bytes) => {
            if bytes % u64::from(size) == 0 {
                (bytes / u64::from(size)) as i64
            } else {
                -1
            }
        }
        Err(_) => -1,
    }
}

fn push_word(text: &mut Vec<u8>, word: &[u8]) -> Result<(), AllocError>
    ensures { OnOk result (text.new.items ≡ text.old.items ++ spaced (word.now ∷ [])) }
{
    text.extend_from_slice(word)?;
    text.extend_from_slice(b" ")
}

/// Appends an offset between square brackets.
fn push_square(text: &mut Vec<u8>, offset: i64) -> Result<(), AllocError>
    ensures { OnOk result (text.new.items ≡ text.old.items ++ spaced (square offset)) }
{
    let mut buffer = Buffer::new();
    push_word(text, b"[")?;
    push_word(text, buffer.format(offset).as_bytes())?;
    push_word(text, b"]")
}

/// The number that stands first, between round brackets, and what follows it.
fn in_round_brackets<'a>(words: Tokens<'a>) -> Option<(i64, Tokens<'a>)>
    ensures { FindsRound result (words_left words.entry) }
{
    let (opening, behind) = words.split()?;
    let (word, behind) = behind.split()?;
    let (closing, behind) = behind.split()?;
    if is_mark(b'(', opening) && is_mark(b')', closing) {
        Some((number(word)?, behind))
    } else {
        None
    }
}

/// Appends the word that stands first, or an offset in bytes as one in accesses of this size, and gives what follows.
fn push_next<'a>(
    text: &mut Vec<u8>,
    size: u8,
    words: Tokens<'a>,
) -> Result<Option<Tokens<'a>>, AllocError>
    requires { 0 < size }
    ensures { IfOk result (λ next. PushesNext size text.old.items (words_left words.entry) text.new.items next) }
{
    if let Some((bytes, behind)) = in_round_brackets(words) {
        push_square(text, accesses_in(size, bytes))?;
        return Ok(Some(behind));
    }
    match words.split() {
        None => Ok(None),
        Some((word, behind)) => {
            push_word(text, word)?;
            Ok(Some(behind))
        }
    }
}

/// Appends operands, with offsets in bytes as offsets in accesses of this size.
fn push_counted(text: &mut Vec<u8>, size: u8, operands: Tokens<'_>) -> Result<(), AllocError>
    requires { 0 < size }
    ensures { OnOk result (text.new.items ≡ text.old.items ++ spaced (in_accesses size (words_left operands.entry))) }
{
    let mut left = operands;
    while let Some(behind) = push_next(text, size, left)? {
        left = behind;
    }
    Ok(())
}

fn push_all(text: &mut Vec<u8>, words: Tokens<'_>) -> Result<(), AllocError>
    ensures { OnOk result (text.new.items ≡ text.old.items ++ spaced (words_left words.entry)) }
{
    let mut left = words;
    while let Some((word, behind)) = left.split() {
        push_word(text, word)?;
        left = behind;
    }
    Ok(())
}

/// Appends what stands behind the unit of an instruction of this name.
fn push_operands(text: &mut Vec<u8>, name: &[u8], operands: Tokens<'_>) -> Result<(), AllocError>
    ensures { OnOk result (text.new.items ≡ text.old.items ++ spaced (operands_behind (bytes_named name.now) (words_left operands.entry))) }
{
    match bytes_named(name) {
        Some(size) => push_counted(text, size, operands),
        None => push_all(text, operands),
    }
}

/// Whether it is another name of B.
fn names_branch(word: &[u8]) -> bool
    ensures { result ≡ names_branch word.now }
{
    spells(b"RET", word) || spells(b"CALL", word) || spells(b"CALLRET", word)
}

fn renamed(word: &[u8]) -> &[u8]
    ensures { result.now ≡ renamed word.now }
{
    if names_branch(word) { b"B" } else { word }
}

/// Appends the words of an instruction of serial text that stands for this one, each with a blank behind.
pub(crate) fn push_plain(text: &mut Vec<u8>, words: Tokens<'_>) -> Result<(), AllocError>
    ensures { OnOk result (text.new.items ≡ text.old.items ++ spaced (plain_words [] (words_left words.entry))) }
{
    let mut last: &[u8] = &[];
    let mut left = words;
    while let Some((word, behind)) = left.split() {
        push_word(text, renamed(word))?;
        if begins_with(b'.', word) {
            return push_operands(text, last, behind);
        }
        last = word;
        left = behind;
    }
    Ok(())
}
