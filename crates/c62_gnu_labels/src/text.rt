//! What stands in the place of labels that begin with a dot.

ghost use Rattle.std.specs.Prelude.{◌≡◌, false, IfOk};
ghost use Rattle.c62_token.specs.Token.{begins, is_blank, is_word_byte};
ghost use Rattle.c62_gnu_labels.specs.Labels.{behind_blanks, behind_word, byte_of, fits_behind, is_end, is_label_dot, is_led, place_by, relabelled, renamed, spare_in};
ghost use Rattle.c62_gnu_labels.specs.declared.text.Place.TheVariants.{Begin};

use std::alloc::{AllocError, Global};

/// The bytes that may stand in the place of the dot, in the order in which they are tried. A register begins with none of them.
pub const FRONTS: [u8; 50] = *b"_$cdefghijklmnopqrstuvwxyzCDEFGHIJKLMNOPQRSTUVWXYZ";

/// Where a byte stands in its line.
#[derive(Clone, Copy, PartialEq, Eq, Debug)]
pub enum Place {
    /// It is the first.
    Begin,
    /// Only blanks stand before it.
    Front,
    /// Only blanks stand between a colon and it.
    Colon,
    /// Something else stands directly before it.
    Beside,
    /// Blanks stand between something else and it.
    Gap,
    /// In a comment or behind a directive.
    Aside,
}

/// Letters, digits, `_` and `$`.
fn is_word_byte(b: u8) -> bool
    ensures { result ≡ is_word_byte b }
{
    b.is_ascii_alphanumeric() || b == b'_' || b == b'$'
}

fn is_blank(b: u8) -> bool
    ensures { result ≡ is_blank b }
{
    b == b' ' || b == b'\t'
}

/// The first byte behind blanks.
fn behind_blanks(text: &[u8]) -> Option<u8>
    ensures { result ≡ behind_blanks text.now }
{
    let mut rest = text;
    while let [b, behind @ ..] = rest {
        if !is_blank(*b) {
            return Some(*b);
        }
        rest = behind;
    }
    None
}

/// The first byte behind a word and blanks.
fn behind_word(text: &[u8]) -> Option<u8>
    ensures { result ≡ behind_word text.now }
{
    let mut rest = text;
    while let [b, behind @ ..] = rest {
        if !is_word_byte(*b) {
            break;
        }
        rest = behind;
    }
    behind_blanks(rest)
}

/// Whether a line ends before this byte, or a comment begins with it.
fn is_end(next: Option<u8>) -> bool
    ensures { result ≡ is_end next }
{
    matches!(next, None | Some(b'\n' | b'\r' | b';'))
}

/// Whether a word at this place is a label, by what stands behind it.
fn fits_behind(place: Place, next: Option<u8>) -> bool
    ensures { result ≡ fits_behind place next }
{
    match place {
        Place::Begin | Place::Front => next == Some(b':'),
        Place::Gap => is_end(next),
        Place::Colon | Place::Beside | Place::Aside => false,
    }
}

fn begins_word(text: &[u8]) -> bool
    ensures { result ≡ begins is_word_byte text.now }
{
    match text {
        [] => false,
        [first, ..] => is_word_byte(*first),
    }
}

/// Whether a byte is the dot of a label, by where it stands and by the text behind it.
fn is_label_dot(place: Place, b: u8, behind: &[u8]) -> bool
    ensures { result ≡ is_label_dot place b behind.now }
{
    b == b'.' && begins_word(behind) && fits_behind(place, behind_word(behind))
}

/// The byte, or in the place of a label's dot this front.
fn byte_of(front: u8, b: u8, dot: bool) -> u8
    ensures { result ≡ byte_of front b dot }
{
    if dot { front } else { b }
}

/// Where the byte behind this one stands, which is the dot of a label or not.
fn place_by(place: Place, b: u8, dot: bool) -> Place
    ensures { result ≡ place_by place b dot }
{
    match (place, b, dot) {
        (_, b'\n', _) => Place::Begin,
        (Place::Aside, _, _) | (_, b';', _) | (Place::Begin, b'*', _) => Place::Aside,
        (Place::Begin | Place::Front | Place::Colon, b'.', false) => Place::Aside,
        (_, b':', _) => Place::Colon,
        (Place::Begin | Place::Front, b' ' | b'\t', _) => Place::Front,
        (Place::Colon, b' ' | b'\t', _) => Place::Colon,
        (_, b' ' | b'\t', _) => Place::Gap,
        _ => Place::Beside,
    }
}

/// The text with a front in the place of each label's dot.
fn renamed(alloc: Global, front: u8, text: &[u8]) -> Result<Vec<u8>, AllocError>
    ensures { IfOk result (λ named. named.items ≡ renamed front Begin text.now) }
{
    let mut named = Vec::with_capacity(alloc, text.len())?;
    let mut place = Place::Begin;
    let mut rest = text;
    while let [b, behind @ ..] = rest {
        let dot = is_label_dot(place, *b, behind);
        named.push(byte_of(front, *b, dot))?;
        place = place_by(place, *b, dot);
        rest = behind;
    }
    Ok(named)
}

/// Whether a word of the text begins with this byte.
fn is_led(front: u8, text: &[u8]) -> bool
    ensures { result ≡ is_led front false text.now }
{
    let mut within = false;
    for b in text {
        if *b == front && !within {
            return true;
        }
        within = is_word_byte(*b);
    }
    false
}

/// The first of the fronts with which no word of the text begins.
#[tactic(auto, unfolding(crate::specs::Labels::spare_in))]
fn spare_in(text: &[u8]) -> Option<u8>
    ensures { result ≡ spare_in text.now }
{
    FRONTS.iter().copied().find(|front| !is_led(*front, text))
}

/// A text whose labels that begin with a dot have another byte in its place, the same in all of them, with which no word of the text
/// begins: `_` where none does. A label is the first word of a line with a colon behind it, or the last one with blanks and something else
/// before it, but for lines of directives. A text stays as it is where each byte is taken.
///
/// # Errors
///
/// `AllocError` where memory ran out.
pub fn relabelled(alloc: Global, text: &[u8]) -> Result<Vec<u8>, AllocError>
    ensures { IfOk result (λ named. named.items ≡ relabelled text.now) }
{
    match spare_in(text) {
        Some(front) => renamed(alloc, front, text),
        None => Vec::from_slice(alloc, text),
    }
}
