//! Sums and differences of numbers.

ghost use Rattle.std.specs.Prelude.{◌≡◌, ◌++◌, [], ◌∷◌, OnOk, IfOk};
ghost use Rattle.std.specs.Fmt.{signed_decimal};
ghost use Rattle.c62_op.specs.Name.{file_letter, register_name};
ghost use Rattle.c62_token.specs.Token.{begins, is_sign, tokens, words_left};
ghost use Rattle.c62_adopt_line.specs.Plain.{spaced};
ghost use Rattle.c62_adopt_spell.specs.Number.{total};
ghost use Rattle.c62_adopt_spell.specs.Statement.{with_sums};

use crate::names::{Setting, Value, value_named};
use crate::number::{plain_name, total, value};
use c62_insn::{Reg, Side};
use c62_token::number::spells;
use c62_token::{Tokens, begins_with};
use itoa::Buffer;
use std::alloc::AllocError;

/// What stands before a word and may be of a sum with it.
#[derive(Clone, Copy)]
pub(crate) enum Sum {
    Nothing,
    /// Nothing of this operand, which begins there.
    Front,
    Number(i64),
    /// A number, and a sign behind it: whether that is a minus.
    Signed(i64, bool),
}

ghost use Rattle.c62_adopt_spell.specs.declared.sum.Sum.TheVariants.{Nothing, Front, Number as NumberSum, Signed as SignedSum};
ghost use Rattle.c62_adopt_spell.specs.Sum.{sign_word, flushed, summed_to, number_behind, signed_with, signed_by, opens_operand, sum_behind, word_behind, name_behind, step, summed, Steps};

pub(crate) fn push_word(text: &mut Vec<u8>, word: &[u8]) -> Result<(), AllocError>
    ensures { OnOk result (text.new.items ≡ text.old.items ++ spaced (word.now ∷ [])) }
{
    text.extend_from_slice(word)?;
    text.extend_from_slice(b" ")
}

pub(crate) fn push_number(text: &mut Vec<u8>, k: i64) -> Result<(), AllocError>
    ensures { OnOk result (text.new.items ≡ text.old.items ++ spaced (signed_decimal k ∷ [])) }
{
    let mut buffer = Buffer::new();
    push_word(text, buffer.format(k).as_bytes())
}

fn sign_word(minus: bool) -> &'static [u8]
    ensures { result.now ≡ sign_word minus }
{
    if minus { b"-" } else { b"+" }
}

/// Appends a sum that doesn't go on.
fn push_flushed(text: &mut Vec<u8>, sum: Sum) -> Result<(), AllocError>
    ensures { OnOk result (text.new.items ≡ text.old.items ++ spaced (flushed sum)) }
{
    match sum {
        Sum::Nothing | Sum::Front => Ok(()),
        Sum::Number(m) => push_number(text, m),
        Sum::Signed(m, minus) => {
            push_number(text, m)?;
            push_word(text, sign_word(minus))
        }
    }
}

/// Behind a number that the sum goes on with to this one, if it does.
fn push_total(text: &mut Vec<u8>, sum: Sum, found: Option<i64>, k: i64) -> Result<Sum, AllocError>
    ensures { IfOk result (Steps (summed_to sum found k) text.old.items text.new.items) }
{
    match found {
        Some(n) => Ok(Sum::Number(n)),
        None => {
            push_flushed(text, sum)?;
            Ok(Sum::Number(k))
        }
    }
}

/// Behind a number, which may have a sign of its own.
fn push_number_behind(text: &mut Vec<u8>, signed: bool, sum: Sum, k: i64) -> Result<Sum, AllocError>
    ensures { IfOk result (Steps (number_behind signed sum k) text.old.items text.new.items) }
{
    match sum {
        Sum::Nothing | Sum::Front => Ok(Sum::Number(k)),
        Sum::Number(m) => {
            let found = if signed { total(false, m, k) } else { None };
            push_total(text, sum, found, k)
        }
        Sum::Signed(m, minus) => push_total(text, sum, total(minus, m, k), k),
    }
}

/// A number with this sign behind it, if it is one.
fn signed_with(m: i64, word: &[u8]) -> Option<Sum>
    ensures { result ≡ signed_with m word.now }
{
    match word {
        b"-" => Some(Sum::Signed(m, true)),
        b"+" => Some(Sum::Signed(m, false)),
        _ => None,
    }
}

/// The sum that a sign behind it goes on with. One that stands in front of an operand is behind 0.
fn signed(sum: Sum, word: &[u8]) -> Option<Sum>
    ensures { result ≡ signed_by sum word.now }
{
    match sum {
        Sum::Front => signed_with(0, word),
        Sum::Number(m) => signed_with(m, word),
        Sum::Nothing | Sum::Signed(_, _) => None,
    }
}

/// Whether an operand begins behind a word.
fn opens_operand(word: &[u8]) -> bool
    ensures { result ≡ opens_operand word.now }
{
    begins_with(b'.', word) || spells(b",", word) || spells(b"(", word) || spells(b"[", word)
}

fn sum_behind(word: &[u8]) -> Sum
    ensures { result ≡ sum_behind word.now }
{
    if opens_operand(word) {
        Sum::Front
    } else {
        Sum::Nothing
    }
}

/// Behind a word that is no number.
fn push_word_behind(text: &mut Vec<u8>, sum: Sum, word: &[u8]) -> Result<Sum, AllocError>
    ensures { IfOk result (Steps (word_behind sum word.now) text.old.items text.new.items) }
{
    match signed(sum, word) {
        Some(next) => Ok(next),
        None => {
            push_flushed(text, sum)?;
            push_word(text, plain_name(word))?;
            Ok(sum_behind(word))
        }
    }
}

fn file_letter(side: Side) -> &'static [u8]
    ensures { result.now ≡ file_letter side }
{
    match side {
        Side::A => b"A",
        Side::B => b"B",
    }
}

pub(crate) fn push_register(text: &mut Vec<u8>, reg: Reg) -> Result<(), AllocError>
    ensures { OnOk result (text.new.items ≡ text.old.items ++ spaced (register_name reg ∷ [])) }
{
    let mut buffer = Buffer::new();
    text.extend_from_slice(file_letter(reg.side))?;
    push_word(text, buffer.format(reg.number).as_bytes())
}

/// Behind a word that is no number, with what it stands for where it is a name.
fn push_name_behind(
    text: &mut Vec<u8>,
    named: Option<Value>,
    sum: Sum,
    word: &[u8],
) -> Result<Sum, AllocError>
    ensures { IfOk result (Steps (name_behind named sum word.now) text.old.items text.new.items) }
{
    match named {
        None => push_word_behind(text, sum, word),
        Some(Value::Constant(k)) => push_number_behind(text, false, sum, k),
        Some(Value::Register(reg)) => {
            push_flushed(text, sum)?;
            push_register(text, reg)?;
            Ok(Sum::Nothing)
        }
    }
}

/// Whether a sign stands first.
fn begins_with_sign(word: &[u8]) -> bool
    ensures { result ≡ begins is_sign word.now }
{
    match word {
        [] => false,
        [b, ..] => *b == b'+' || *b == b'-',
    }
}

/// Appends what a word lets be written below these settings, and gives the sum behind it.
fn push_step(
    text: &mut Vec<u8>,
    names: &[Setting],
    sum: Sum,
    word: &[u8],
) -> Result<Sum, AllocError>
    ensures { IfOk result (Steps (step names.now sum word.now) text.old.items text.new.items) }
{
    match value(word) {
        Some(k) => push_number_behind(text, begins_with_sign(word), sum, k),
        None => push_name_behind(text, value_named(names, word), sum, word),
    }
}

/// Appends the tokens of bytes with a blank behind each, where each sum of numbers is one, below these settings.
#[tactic(auto, using(crate::proofs::SpacedLemmas::step_more))]
pub(crate) fn push_sums(
    text: &mut Vec<u8>,
    names: &[Setting],
    bytes: &[u8],
) -> Result<(), AllocError>
    ensures { OnOk result (text.new.items ≡ text.old.items ++ with_sums names.now bytes.now) }
{
    let mut sum = Sum::Nothing;
    let mut left = Tokens::new(bytes);
    while let Some((word, behind)) = left.split() {
        sum = push_step(text, names, sum, word)?;
        left = behind;
    }
    push_flushed(text, sum)
}
