//! What a line is for.

ghost use Rattle.std.specs.Prelude.{◌≡◌, ◌<◌, ◌==◌, ◌||◌, length, is_some, IfSome};
ghost use Rattle.std.specs.List.{list_any, position};
ghost use Rattle.c62_token.specs.Number.{spells};
ghost use Rattle.c62_token.specs.Token.{is_blank, is_word_byte, tokens, words_left};

use crate::quote::parts;
use crate::statement::{behind_label, is_remark, label_in_front};
use c62_adopt_line::{behind_bars, from_solid, lays_nothing, names_section};
use c62_token::number::{number, spells};
use c62_token::{Tokens, begins_with};

/// What a line is for.
#[derive(Clone, Copy)]
pub enum Role<'a> {
    /// A comment.
    Remark,
    /// Nothing, or a label alone.
    Silent,
    /// An instruction, or what is meant as one.
    Acts,
    /// A directive that begins the section of this name, and whether it has a label.
    Begins(bool, &'a [u8]),
    /// An alignment whose padding may take cycles.
    Pads,
    /// Another directive that is known.
    Tells,
    /// A directive that isn't known.
    Unknown,
    /// A directive that is never taken.
    Refused,
}

ghost use Rattle.c62_adopt_code.specs.Role.{role_read, behind_name, up_to, name_written, section_named, begins_named, is_whole, most_for, is_small, pads_none, data_names, is_data, aligning, other_directive, is_bare, section_directive, statement_role, unbarred, role_of};

/// What lays data down, which sections without instructions may have.
const DATA: [&[u8]; 36] = [
    b".word",
    b".half",
    b".short",
    b".int",
    b".long",
    b".byte",
    b".char",
    b".string",
    b".ascii",
    b".asciz",
    b".cstring",
    b".space",
    b".skip",
    b".zero",
    b".fill",
    b".field",
    b".float",
    b".double",
    b".uword",
    b".uhalf",
    b".ushort",
    b".uint",
    b".ulong",
    b".uchar",
    b".ubyte",
    b".4byte",
    b".2byte",
    b".8byte",
    b".quad",
    b".bits",
    b".bss",
    b".comm",
    b".lcomm",
    b".scomm",
    b".uleb128",
    b".sleb128",
];

fn is_among(names: &[&[u8]], word: &[u8]) -> bool
    ensures { result ≡ list_any (λ name. spells name.now word.now) names.now }
{
    names.iter().any(|name| spells(name, word))
}

fn is_data(word: &[u8]) -> bool
    ensures { result ≡ is_data word.now }
{
    is_among(&DATA, word)
}

/// What stands behind a directive's name.
fn behind_name(bytes: &[u8]) -> &[u8]
    ensures { result.now ≡ behind_name bytes.now }
{
    let mut rest = bytes;
    while let [b, behind @ ..] = rest {
        if *b != b'.' && !is_word_byte(*b) {
            return rest;
        }
        rest = behind;
    }
    rest
}

fn is_word_byte(b: u8) -> bool
    ensures { result ≡ is_word_byte b }
{
    b.is_ascii_alphanumeric() || b == b'_' || b == b'$'
}

fn quote_in(bytes: &[u8]) -> Option<usize>
    ensures place { result ≡ position (λ b. b == 34) bytes.now }
    ensures within { IfSome result (λ place. place < length bytes.now) }
{
    bytes.iter().position(|b| *b == b'"')
}

fn up_to_quote(bytes: &[u8]) -> &[u8]
    ensures { result.now ≡ up_to (λ b. b == 34) bytes.now }
{
    match quote_in(bytes) {
        Some(end) => &bytes[..end],
        None => bytes,
    }
}

/// Whether a name ends before the byte.
fn ends_name(b: u8) -> bool
    ensures { result ≡ (b == 44 || b == 59 || is_blank b) }
{
    b == b',' || b == b';' || b == b' ' || b == b'\t'
}

fn mark_in(bytes: &[u8]) -> Option<usize>
    ensures place { result ≡ position (λ b. b == 44 || b == 59 || is_blank b) bytes.now }
    ensures within { IfSome result (λ place. place < length bytes.now) }
{
    bytes.iter().position(|b| ends_name(*b))
}

fn up_to_mark(bytes: &[u8]) -> &[u8]
    ensures { result.now ≡ up_to (λ b. b == 44 || b == 59 || is_blank b) bytes.now }
{
    match mark_in(bytes) {
        Some(end) => &bytes[..end],
        None => bytes,
    }
}

fn name_written(bytes: &[u8]) -> &[u8]
    ensures { result.now ≡ name_written bytes.now }
{
    match bytes {
        [] => bytes,
        [b'"', behind @ ..] => up_to_quote(behind),
        [_, ..] => up_to_mark(bytes),
    }
}

/// The section that a directive names.
fn section_named(statement: &[u8]) -> &[u8]
    ensures { result.now ≡ section_named statement.now }
{
    name_written(from_solid(behind_name(from_solid(statement))))
}

fn begins_named(labelled: bool, name: &[u8]) -> Role<'_>
    ensures { role_read result ≡ begins_named labelled name.now }
{
    match name {
        [] => Role::Refused,
        [_, ..] => Role::Begins(labelled, name),
    }
}

/// Whether a section is meant as a whole by what stands behind its name.
fn is_whole(words: Tokens<'_>) -> bool
    ensures { result ≡ is_whole (words_left words.entry) }
{
    match words.split() {
        None => true,
        Some((word, behind)) => spells(b"0", word) && behind.peek().is_none(),
    }
}

/// The greatest number behind an alignment for which no padding takes a cycle.
fn most_for(name: &[u8]) -> Option<i64>
    ensures { result ≡ most_for name.now }
{
    if spells(b".align", name) || spells(b".p2align", name) {
        Some(5)
    } else if spells(b".balign", name) {
        Some(32)
    } else {
        None
    }
}

fn is_small(most: i64, number: Option<i64>) -> bool
    ensures { result ≡ is_small most number }
{
    match number {
        None => false,
        Some(k) => k <= most,
    }
}

/// Whether no padding takes a cycle.
fn pads_none(most: i64, words: Tokens<'_>) -> bool
    ensures { result ≡ pads_none most (words_left words.entry) }
{
    match words.split() {
        None => true,
        Some((word, behind)) => behind.peek().is_none() && is_small(most, number(word)),
    }
}

/// What a directive is for that begins no section.
fn other_directive<'a>(words: Tokens<'_>) -> Role<'a>
    ensures { role_read result ≡ other_directive (words_left words.entry) }
{
    let Some((name, behind)) = words.split() else {
        return Role::Unknown;
    };
    match most_for(name) {
        Some(most) => {
            if pads_none(most, behind) {
                Role::Tells
            } else {
                Role::Pads
            }
        }
        None => {
            if is_data(name) || lays_nothing(words) {
                Role::Tells
            } else {
                Role::Unknown
            }
        }
    }
}

/// What a directive is for, which stands in a statement.
fn section_directive<'a>(labelled: bool, statement: &'a [u8], words: Tokens<'_>) -> Role<'a>
    ensures { role_read result ≡ section_directive labelled statement.now (words_left words.entry) }
{
    let Some((name, behind)) = words.split() else {
        return Role::Unknown;
    };
    if spells(b".text", name) {
        if is_whole(behind) {
            Role::Begins(labelled, b".text")
        } else {
            Role::Refused
        }
    } else if spells(b".data", name) {
        Role::Begins(labelled, b".data")
    } else if spells(b".bss", name) && behind.peek().is_none() {
        Role::Begins(labelled, b".bss")
    } else if names_section(name) {
        begins_named(labelled, section_named(statement))
    } else {
        other_directive(words)
    }
}

/// What is for a line that has this behind its label, where it has one.
#[tactic(auto, unfolding(crate::specs::Role::statement_role))]
fn statement_role(labelled: bool, statement: &[u8]) -> Role<'_>
    ensures { role_read result ≡ statement_role labelled statement.now (tokens statement.now) }
{
    let words = Tokens::new(statement);
    match words.peek() {
        None => Role::Silent,
        Some(word) => {
            if !begins_with(b'.', word) {
                Role::Acts
            } else if parts(statement) {
                Role::Refused
            } else {
                section_directive(labelled, statement, words)
            }
        }
    }
}

/// What a line is for.
#[tactic(auto, unfolding(crate::specs::Role::role_of))]
pub fn read_role(line: &[u8]) -> Role<'_>
    ensures { role_read result ≡ role_of line.now }
{
    if is_remark(line) {
        return Role::Remark;
    }
    if behind_bars(line).is_some() {
        return Role::Acts;
    }
    let label = label_in_front(line);
    statement_role(label.is_some(), behind_label(&label, line))
}
