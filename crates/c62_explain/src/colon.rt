//! What is told of a colon that ends no label.

use crate::help::Faulty;
use c62_line::first_label;
use c62_token::number::register;
use c62_token::{Tokens, begins_with};

fn is_register(word: &[u8]) -> bool {
    register(word).is_some()
}

/// Whether a colon parts two registers here.
fn parts_registers(front: Tokens<'_>, behind: Tokens<'_>) -> bool {
    let mut last: &[u8] = b"";
    let mut left = front;
    while let Some((word, rest)) = left.split() {
        last = word;
        left = rest;
    }
    is_register(last) && is_register(behind.peek().unwrap_or(b""))
}

/// What is told of a name in front of a colon that is no label.
fn name_help(name: &[u8]) -> &'static [u8] {
    if name.contains(&b'.') {
        b"no dots in labels of serial text"
    } else if is_register(name) {
        b"the name of a register is no label"
    } else {
        b"a label has at most 32 letters, digits, `_` and `$`, and no digit in front"
    }
}

/// What is told of a colon that ends no label, by what stands before it.
pub(crate) fn colon_help(at: Faulty<'_>) -> &'static [u8] {
    let front = &at.line[..at.place.start.min(at.line.len())];
    let name = front.trim_ascii();
    if parts_registers(Tokens::new(front), at.behind()) {
        b"register pairs are left out, as results of 40 bits are"
    } else if first_label(Tokens::new(at.line)).0.is_some() {
        b"one label a line: the others stand on lines of their own"
    } else if !name.iter().any(|b| b.is_ascii_whitespace()) {
        name_help(name)
    } else if begins_with(b'.', name) {
        b"a directive: `adopt` and `exec` read it"
    } else {
        b"a colon stands behind a label in front of the line, and nowhere else"
    }
}
