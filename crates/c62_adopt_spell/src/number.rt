//! Numbers and registers as assemblers spell them.

ghost use Rattle.std.specs.Prelude.{◌≡◌, ◌≤◌, ◌<◌, ◌^◌, length, map, IsTrue};
ghost use Rattle.std.specs.Str.Parse.{digits_value};
ghost use Rattle.c62_token.specs.Number.{are_digits, number_of};
ghost use Rattle.c62_adopt_spell.specs.Number.{small_x, capital_of, total, bits_of, binary_of, signed_binary_of, written_of, with_sign, value_of, plain_name};

use arrayvec::ArrayVec;
use c62_token::number::{number, spells};

fn small_x(b: u8) -> u8
    ensures { result ≡ small_x b }
{
    if b == b'X' { b'x' } else { b }
}

/// The number of at most eleven bytes, with `x` in place of `X`.
fn small(word: &[u8]) -> Option<i64>
    requires { length word.now ≤ 11 }
    ensures { result ≡ number_of (map small_x word.now) }
{
    let mut small: ArrayVec<u8, 11> = ArrayVec::new();
    for b in word {
        small.push(small_x(*b));
    }
    number(&small)
}

/// The number of a word that may have `0X` in place of `0x`.
fn capital(word: &[u8]) -> Option<i64>
    ensures { result ≡ capital_of word.now }
{
    if word.len() <= 11 { small(word) } else { None }
}

/// The sum or the difference, which has to be a number.
pub(crate) fn total(minus: bool, m: i64, k: i64) -> Option<i64>
    ensures { result ≡ total minus m k }
{
    let sum = if minus {
        m.checked_sub(k)?
    } else {
        m.checked_add(k)?
    };
    if -2_147_483_648 <= sum && sum <= 4_294_967_295 {
        Some(sum)
    } else {
        None
    }
}

fn is_binary(digits: &[u8]) -> bool
    ensures { result ≡ are_digits 2 digits.now }
{
    digits.iter().all(|d| char::from(*d).is_digit(2))
}

/// The number that at most 32 binary digits write.
fn bits_value(digits: &[u8]) -> u64
    requires few { length digits.now ≤ 32 }
    requires digits { IsTrue (are_digits 2 digits.now) }
    ensures value { result ≡ digits_value 2 digits.now }
    ensures bound { result < 2 ^ 40 }
{
    let mut value = 0;
    for d in digits {
        let digit = char::from(*d).to_digit(2).unwrap();
        value = value * 2 + u64::from(digit);
    }
    value
}

/// The number of binary digits behind `0b`, of which there are some.
fn bits(digits: &[u8]) -> Option<i64>
    ensures { result ≡ bits_of digits.now }
{
    if !digits.is_empty() && digits.len() <= 32 && is_binary(digits) {
        Some(bits_value(digits) as i64)
    } else {
        None
    }
}

fn binary(word: &[u8]) -> Option<i64>
    ensures { result ≡ binary_of word.now }
{
    match word {
        [b'0', b'b' | b'B', digits @ ..] => bits(digits),
        _ => None,
    }
}

/// The number behind `0b`, with a sign or without.
fn signed_binary(word: &[u8]) -> Option<i64>
    ensures { result ≡ signed_binary_of word.now }
{
    match word {
        [b'-', digits @ ..] => total(true, 0, binary(digits)?),
        [b'+', digits @ ..] => binary(digits),
        _ => binary(word),
    }
}

fn written(word: &[u8]) -> Option<i64>
    ensures { result ≡ written_of word.now }
{
    if let Some(k) = number(word) {
        return Some(k);
    }
    if let Some(k) = capital(word) {
        return Some(k);
    }
    signed_binary(word)
}

/// A word of 32 bits as a number with a sign.
fn with_sign(k: i64) -> i64
    ensures { result ≡ with_sign k }
{
    if 0x8000_0000 <= k {
        k - 0x1_0000_0000
    } else {
        k
    }
}

/// The number that a word says, where it is one in any spelling.
pub(crate) fn value(word: &[u8]) -> Option<i64>
    ensures { result ≡ value_of word.now }
{
    Some(with_sign(written(word)?))
}

/// The word, or the register that SP, DP or FP stands for.
pub(crate) fn plain_name(word: &[u8]) -> &[u8]
    ensures { result.now ≡ plain_name word.now }
{
    if spells(b"SP", word) {
        b"B15"
    } else if spells(b"DP", word) {
        b"B14"
    } else if spells(b"FP", word) {
        b"A15"
    } else {
        word
    }
}
