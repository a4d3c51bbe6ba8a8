//! What is told of a word that is no mnemonic.

ghost use Rattle.std.specs.Prelude.{OnOk};
ghost use Rattle.c62_explain.specs.Picture.{AddsHelp};

use crate::help::{COMMENT, Faulty};
use crate::names::{is_left_out, is_of_full_set, is_of_others, nearest_mnemonic};
use c62_line::first_mnemonic;
use c62_op::InstructionSet;
use c62_token::number::spells;
use c62_token::{Tokens, begins_with};
use std::alloc::AllocError;

/// Whether the first token is a mnemonic.
fn begins_with_mnemonic(isa: InstructionSet, rest: Tokens<'_>) -> bool {
    first_mnemonic(isa, rest).is_some()
}

/// What is told of the name of an instruction that the set lacks, or has by another name.
fn instruction_help(word: &[u8]) -> Option<&[u8]> {
    if is_of_full_set(word) {
        Some(b" is an instruction of the full set: write `--isa full`")
    } else if is_left_out(word) {
        Some(b" is an instruction of the C62x that c62 leaves out (docs/MACHINE.md)")
    } else if is_of_others(word) {
        Some(b" is an instruction of the C64x or the C67x")
    } else if spells(b"RET", word) || spells(b"CALL", word) || spells(b"CALLRET", word) {
        Some(b" is a branch: write B")
    } else {
        None
    }
}

/// Whether the token is a unit and no directive.
fn is_unit(word: &[u8]) -> bool {
    matches!(word, [b'.', _, b'1' | b'2', ..])
}

/// What is told of a name that stands in front of this token, where that is a directive.
fn directive_help(word: &[u8]) -> Option<&'static [u8]> {
    if !begins_with(b'.', word) || is_unit(word) {
        None
    } else if spells(b".macro", word) {
        Some(b"macros aren't read: write the lines that one stands for")
    } else if spells(b".equ", word) || spells(b".set", word) {
        Some(b"`adopt` and `exec` read names for numbers; in serial text write the number")
    } else {
        Some(b"`adopt` and `exec` read directives; serial text has none")
    }
}

/// What is told of a word that begins no line, or of the directive behind it.
fn beginning_help(at: Faulty<'_>) -> Option<&'static [u8]> {
    let word = at.word();
    if begins_with(b'#', word) || begins_with(b'/', word) || begins_with(b'*', word) {
        Some(COMMENT)
    } else {
        directive_help(at.behind().peek().unwrap_or(b""))
    }
}

/// Help for a word that is no mnemonic.
#[tactic(auto, using(crate::proofs::HintLemmas::adds_none, crate::proofs::HintLemmas::adds_behind_on))]
pub(crate) fn push_mnemonic_help(
    isa: InstructionSet,
    out: &mut Vec<u8>,
    at: Faulty<'_>,
) -> Result<(), AllocError>
    ensures { OnOk result (AddsHelp at.entry.fault.line out.old.items out.new.items) }
{
    let word = at.word();
    if word.is_empty() {
        return Ok(());
    }
    if let Some(says) = instruction_help(word) {
        return at.push(out, &[word, says]);
    }
    if let Some(says) = beginning_help(at) {
        return at.push(out, &[says]);
    }
    if let Some(name) = nearest_mnemonic(isa, word) {
        return at.push(out, &[b"the nearest mnemonic is ", name.as_bytes()]);
    }
    if begins_with_mnemonic(isa, at.behind()) {
        return at.push(out, &[b"a label ends in a colon: ", word, b":"]);
    }
    Ok(())
}
