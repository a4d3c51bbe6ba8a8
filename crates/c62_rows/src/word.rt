//! Labels as words: MVKL and MVKH of a label.

ghost use Rattle.std.specs.Prelude.{◌≡◌, ◌==◌, ◌≤◌, ◌<◌, length, Ok, IfSome, IfOk, MatchResult};
ghost use Rattle.std.specs.List.{position};
ghost use Rattle.c62_token.specs.Token.{is_blank, tokens, words_left};
ghost use Rattle.c62_adopt_line.specs.Laws.{HasUnit};
ghost use Rattle.c62_line.specs.Line.{said_of};
ghost use Rattle.c62_adopt_line.specs.Line.{line_written, Fails};
ghost use Rattle.c62_rows.specs.Word.{undotted, is_name_byte, bytes_before, without_blanks, front, name_start, name_in, before_name, is_half, begins_with_unit, takes_half, is_bad_operand, label_in, zeroed, row_says};
ghost use Rattle.c62_rows.specs.Read.{said_read};

use c62_adopt_line::{LineFault, Written, read_line};
use c62_line::{Cause, Label};
use c62_op::InstructionSet;
use c62_token::number::{is_label, spells};
use c62_token::{Tokens, begins_with};
use std::alloc::{AllocError, Global};

/// What a line says.
#[derive(Drop)]
pub struct Said {
    /// With 0 where a label stands for its word.
    pub line: Written,
    /// The label whose word the instruction's constant is a half of.
    pub word: Option<Label>,
}

/// The name with `_` in place of dots.
pub fn undotted(alloc: Global, name: &[u8]) -> Result<Vec<u8>, AllocError>
    ensures { IfOk result (λ plain. plain.items ≡ undotted name.now) }
{
    let mut plain = Vec::with_capacity(alloc, name.len())?;
    for b in name {
        plain.push(if *b == b'.' { b'_' } else { *b })?;
    }
    Ok(plain)
}

fn is_blank(b: u8) -> bool
    ensures { result ≡ is_blank b }
{
    b == b' ' || b == b'\t'
}

fn is_name_byte(b: u8) -> bool
    ensures { result ≡ is_name_byte b }
{
    b.is_ascii_alphanumeric() || b == b'_' || b == b'$' || b == b'.'
}

/// The place of the first byte of this value.
fn place_of(byte: u8, bytes: &[u8]) -> Option<usize>
    ensures place { result ≡ position (λ b. b == byte) bytes.now }
    ensures within { IfSome result (λ place. place < length bytes.now) }
{
    bytes.iter().position(|b| *b == byte)
}

/// How many bytes stand before the first of this value.
#[tactic(auto, using(crate::proofs::Tables::place_is, crate::proofs::Tables::no_place_is))]
fn bytes_before(byte: u8, bytes: &[u8]) -> usize
    ensures before { result ≡ bytes_before byte bytes.now }
    ensures within { result ≤ length bytes.now }
{
    match place_of(byte, bytes) {
        Some(place) => place,
        None => bytes.len(),
    }
}

fn without_blanks(bytes: &[u8]) -> &[u8]
    ensures { result.now ≡ without_blanks bytes.now }
{
    let mut len = bytes.len();
    while len > 0 && is_blank(bytes[len - 1]) {
        len -= 1;
    }
    &bytes[..len]
}

/// What stands before the first comma, but for blanks just before that.
fn front(line: &[u8]) -> &[u8]
    ensures { result.now ≡ front line.now }
{
    without_blanks(&line[..bytes_before(b',', line)])
}

/// Where the name begins with which these bytes end.
fn name_start(bytes: &[u8]) -> usize
    ensures start { result ≡ name_start bytes.now }
    ensures within { result ≤ length bytes.now }
{
    let mut start = bytes.len();
    while start > 0 && is_name_byte(bytes[start - 1]) {
        start -= 1;
    }
    start
}

fn name_in(line: &[u8]) -> &[u8]
    ensures { result.now ≡ name_in line.now }
{
    let front = front(line);
    &front[name_start(front)..]
}

fn before_name(line: &[u8]) -> &[u8]
    ensures { result.now ≡ before_name line.now }
{
    let front = front(line);
    &front[..name_start(front)]
}

fn is_half(word: &[u8]) -> bool
    ensures { result ≡ is_half word.now }
{
    spells(b"MVKL", word) || spells(b"MVKH", word)
}

fn begins_with_unit(words: Tokens<'_>) -> bool
    ensures { result ≡ begins_with_unit (words_left words.entry) }
{
    match words.peek() {
        None => false,
        Some(word) => begins_with(b'.', word),
    }
}

/// Whether MVKL or MVKH stands there with a unit.
fn takes_half(words: Tokens<'_>) -> bool
    ensures { result ≡ takes_half (words_left words.entry) }
{
    let mut left = words;
    while let Some((word, behind)) = left.split() {
        if is_half(word) {
            return begins_with_unit(behind);
        }
        left = behind;
    }
    false
}

fn is_bad_operand(fault: LineFault) -> bool
    ensures { result ≡ is_bad_operand fault }
{
    matches!(fault, LineFault::Read(Cause::BadOperand))
}

/// The label that stands for a word in a line that by itself has this fault: the first operand of MVKL or MVKH.
fn label_in(alloc: Global, fault: LineFault, line: &[u8]) -> Result<Option<Label>, AllocError>
    ensures { IfOk result (λ label. label ≡ label_in fault line.now) }
{
    if !is_bad_operand(fault) || !takes_half(Tokens::new(before_name(line))) {
        return Ok(None);
    }
    let name = undotted(alloc, name_in(line))?;
    if is_label(&name) {
        Ok(Some(Label::new(&name)))
    } else {
        Ok(None)
    }
}

/// The line with 0 in place of the name.
fn zeroed(alloc: Global, line: &[u8]) -> Result<Vec<u8>, AllocError>
    ensures { IfOk result (λ plain. plain.items ≡ zeroed line.now) }
{
    let mut plain = Vec::new(alloc);
    plain.extend_from_slice(before_name(line))?;
    plain.extend_from_slice(b"0")?;
    plain.extend_from_slice(&line[bytes_before(b',', line)..])?;
    Ok(plain)
}

/// What a line of packets says that is without its end, by itself or with a label as a word (docs/EXEC.md, "Labels as words").
///
/// `text` is for the line of serial text that stands for this one.
///
/// # Errors
///
/// The first fault of the line that needs no other line. `Memory` may come in place of any answer.
#[tactic(auto, unfolding(crate::specs::Word::row_says))]
pub fn read_said(
    isa: InstructionSet,
    alloc: Global,
    text: &mut Vec<u8>,
    line: &[u8],
) -> Result<Said, LineFault>
    ensures { MatchResult result (λ said. row_says isa line.now ≡ Ok (said_read said)) (λ fault. Fails fault (row_says isa line.now)) }
{
    let fault = match read_line(isa, text, line) {
        Ok(line) => return Ok(Said { line, word: None }),
        Err(fault) => fault,
    };
    match label_in(alloc, fault, line)? {
        None => Err(fault),
        Some(label) => Ok(Said {
            line: read_line(isa, text, &zeroed(alloc, line)?)?,
            word: Some(label),
        }),
    }
}
