//! What a word says as a number, as a register or as a label.

ghost use Rattle.std.specs.Prelude.{◌≡◌, ◌≤◌, ◌<◌, ◌^◌, length, IfSome, IsTrue, not};
ghost use Rattle.std.specs.List.{list_all};
ghost use Rattle.std.specs.Char.{is_ascii_digit};
ghost use Rattle.std.specs.Str.Parse.{digits_value};
ghost use Rattle.c62_token.specs.Token.{begins, is_word_byte};
ghost use Rattle.c62_token.specs.Number.{spells, are_digits, decimal_of, hexadecimal_of, magnitude_of, signed_of, in_range, number_of, numbered, file_of, register_of, pointer_of, ends_in_h, behind_zero, suffixed_magnitude, signed_suffixed, suffixed_of, is_label};

use crate::token::is_word_byte;
use c62_op::{Reg, Side};

/// Whether the word is this name, in either case.
pub fn spells(name: &[u8], word: &[u8]) -> bool
    ensures { result ≡ spells name.now word.now }
{
    word.eq_ignore_ascii_case(name)
}

fn are_digits(radix: u32, digits: &[u8]) -> bool
    requires low { 2 ≤ radix }
    requires high { radix ≤ 36 }
    ensures { result ≡ are_digits radix digits.now }
{
    digits.iter().all(|d| char::from(*d).is_digit(radix))
}

/// The number that at most ten digits write.
fn digits_value(radix: u32, digits: &[u8]) -> u64
    requires low { 2 ≤ radix }
    requires high { radix ≤ 16 }
    requires few { length digits.now ≤ 10 }
    requires digits { IsTrue (are_digits radix digits.now) }
    ensures value { result ≡ digits_value radix digits.now }
    ensures bound { result < 2 ^ 40 }
{
    let mut value = 0;
    for d in digits {
        let digit = char::from(*d).to_digit(radix).unwrap();
        value = value * u64::from(radix) + u64::from(digit);
    }
    value
}

#[tactic(auto, unfolding(crate::specs::Number::decimal_of))]
fn decimal(word: &[u8]) -> Option<u64>
    ensures value { result ≡ decimal_of word.now }
    ensures bound { IfSome result (λ n. n < 2 ^ 40) }
{
    let (first, others) = word.split_first()?;
    if others.len() <= 9 && (*first > b'0' || others.is_empty()) && are_digits(10, word) {
        Some(digits_value(10, word))
    } else {
        None
    }
}

#[tactic(auto, unfolding(crate::specs::Number::hexadecimal_of))]
fn hexadecimal(word: &[u8]) -> Option<u64>
    ensures value { result ≡ hexadecimal_of word.now }
    ensures bound { IfSome result (λ n. n < 2 ^ 40) }
{
    if !word.is_empty() && word.len() <= 8 && are_digits(16, word) {
        Some(digits_value(16, word))
    } else {
        None
    }
}

#[tactic(auto, unfolding(crate::specs::Number::magnitude_of))]
fn magnitude(word: &[u8]) -> Option<u64>
    ensures value { result ≡ magnitude_of word.now }
    ensures bound { IfSome result (λ n. n < 2 ^ 40) }
{
    match word.strip_prefix(b"0x") {
        Some(digits) => hexadecimal(digits),
        None => decimal(word),
    }
}

#[tactic(auto, unfolding(crate::specs::Number::signed_of))]
fn signed(word: &[u8]) -> Option<i64>
    ensures { result ≡ signed_of word.now }
{
    match word {
        [] => None,
        [b'-', digits @ ..] => Some(-(magnitude(digits)? as i64)),
        [b'+', digits @ ..] => Some(magnitude(digits)? as i64),
        [_, ..] => Some(magnitude(word)? as i64),
    }
}

/// A number from -2,147,483,648 to 4,294,967,295.
fn in_range(number: i64) -> Option<i64>
    ensures { result ≡ in_range number }
{
    if -2_147_483_648 <= number && number <= 4_294_967_295 {
        Some(number)
    } else {
        None
    }
}

/// The number that a word says, with or without a sign: a decimal one of at most ten digits without leading zeros, or `0x`
/// and at most eight hexadecimal digits, from -2,147,483,648 to 4,294,967,295. None for any other word.
#[tactic(auto, unfolding(crate::specs::Number::number_of))]
pub fn number(word: &[u8]) -> Option<i64>
    ensures { result ≡ number_of word.now }
{
    in_range(signed(word)?)
}

/// The register of this number in a file, where the file has one.
#[inline(always)]
#[tactic(auto, unfolding(crate::specs::Number::numbered))]
fn numbered(side: Side, number: u8) -> Option<Reg>
    ensures { result ≡ numbered side number }
{
    if number < 16 {
        Some(Reg { side, number })
    } else {
        None
    }
}

/// The file that a letter names, in either case.
#[inline(always)]
#[tactic(auto, unfolding(crate::specs::Number::file_of))]
fn file(letter: u8) -> Option<Side>
    ensures { result ≡ file_of letter }
{
    match letter {
        b'A' | b'a' => Some(Side::A),
        b'B' | b'b' => Some(Side::B),
        _ => None,
    }
}

/// The register that a word names, in either case: `A` or `B`, and a number from 0 to 15 without leading zeros.
#[inline(always)]
#[tactic(auto, unfolding(crate::specs::Number::register_of))]
pub fn register(word: &[u8]) -> Option<Reg>
    ensures { result ≡ register_of word.now }
{
    match word {
        [letter, digit @ b'0'..=b'9'] => numbered(file(*letter)?, *digit - b'0'),
        [letter, b'1', digit @ b'0'..=b'9'] => numbered(file(*letter)?, *digit - b'0' + 10),
        _ => None,
    }
}

/// The register that `SP`, `DP` or `FP` names, in either case: B15, B14 or A15.
#[tactic(auto, unfolding(crate::specs::Number::pointer_of))]
pub(crate) fn pointer(word: &[u8]) -> Option<Reg>
    ensures { result ≡ pointer_of word.now }
{
    if spells(b"SP", word) {
        numbered(Side::B, 15)
    } else if spells(b"DP", word) {
        numbered(Side::B, 14)
    } else if spells(b"FP", word) {
        numbered(Side::A, 15)
    } else {
        None
    }
}

fn begins_as_number(word: &[u8]) -> bool
    ensures { result ≡ begins is_ascii_digit word.now }
{
    match word {
        [] => false,
        [first, ..] => first.is_ascii_digit(),
    }
}

fn ends_in_h(word: &[u8]) -> bool
    ensures { result ≡ ends_in_h word.now }
{
    match word.last() {
        Some(b) => b.to_ascii_lowercase() == b'h',
        None => false,
    }
}

/// The digits behind a 0 in front, which a letter needs and which counts for nothing, where others follow it.
fn behind_zero(digits: &[u8]) -> &[u8]
    ensures { result.now ≡ behind_zero digits.now }
{
    match digits {
        [b'0', _, ..] => &digits[1..],
        _ => digits,
    }
}

#[tactic(auto, unfolding(crate::specs::Number::suffixed_magnitude))]
fn suffixed_magnitude(word: &[u8]) -> Option<u64>
    ensures value { result ≡ suffixed_magnitude word.now }
    ensures bound { IfSome result (λ n. n < 2 ^ 40) }
{
    if begins_as_number(word) && ends_in_h(word) {
        hexadecimal(behind_zero(&word[..word.len() - 1]))
    } else {
        None
    }
}

#[tactic(auto, unfolding(crate::specs::Number::signed_suffixed))]
fn signed_suffixed(word: &[u8]) -> Option<i64>
    ensures { result ≡ signed_suffixed word.now }
{
    match word {
        [] => None,
        [b'-', digits @ ..] => Some(-(suffixed_magnitude(digits)? as i64)),
        [b'+', digits @ ..] => Some(suffixed_magnitude(digits)? as i64),
        [_, ..] => Some(suffixed_magnitude(word)? as i64),
    }
}

/// The number that one to eight hexadecimal digits with an `h` behind them say, with or without a sign; within the bounds of
/// [`number`]. The first is a decimal digit: a letter has a 0 in front, which isn't one of the eight.
#[tactic(auto, unfolding(crate::specs::Number::suffixed_of))]
pub(crate) fn suffixed(word: &[u8]) -> Option<i64>
    ensures { result ≡ suffixed_of word.now }
{
    in_range(signed_suffixed(word)?)
}

fn begins_as_name(word: &[u8]) -> bool
    ensures { result ≡ begins (λ b. not (is_ascii_digit b)) word.now }
{
    match word {
        [] => false,
        [first, ..] => !first.is_ascii_digit(),
    }
}

fn is_word(word: &[u8]) -> bool
    ensures { result ≡ list_all is_word_byte word.now }
{
    word.iter().all(|b| is_word_byte(*b))
}

/// Whether the word may be a label.
#[tactic(auto, unfolding(crate::specs::Number::is_label))]
pub fn is_label(word: &[u8]) -> bool
    ensures { result ≡ is_label word.now }
{
    begins_as_name(word) && is_word(word) && word.len() <= 32 && register(word).is_none()
}
