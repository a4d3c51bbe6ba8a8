//! The lines of a text, with their ends.

ghost use Rattle.std.specs.Prelude.{◌≡◌, ◌∷◌, [], ◌<◌, length, IfSome};
ghost use Rattle.c62_read.specs.Text.{without_return};
ghost use Rattle.c62_listing_reader.specs.Text.{lines_in, content, ends_in_return, is_ended, is_empty, begin_filled};
ghost use Rattle.c62_listing_reader.specs.Cut.{line_cut, CutsFirst};

use c62_read::without_return;
use memchr::memchr;

/// A line that is cut off a text, and the text behind it.
#[derive(Clone, Copy)]
pub struct Cut<'a> {
    bytes: &'a [u8],
    /// Whether a line feed ends the line.
    fed: bool,
    pub rest: &'a [u8],
}

/// The first line of a text.
pub fn first_line(text: &[u8]) -> Option<Cut<'_>>
    ensures found { CutsFirst text.now result }
    ensures shorter { IfSome result (λ cut. length cut.rest.now < length text.now) }
{
    if text.is_empty() {
        return None;
    }
    match memchr(b'\n', text) {
        Some(end) => Some(Cut {
            bytes: &text[..end],
            fed: true,
            rest: &text[end + 1..],
        }),
        None => Some(Cut {
            bytes: text,
            fed: false,
            rest: &[],
        }),
    }
}

#[tactic(auto, using(crate::proofs::TextLemmas::last_return))]
fn ends_in_return(line: &[u8]) -> bool
    ensures { result ≡ ends_in_return line.now }
{
    match line.split_last() {
        None => false,
        Some((last, _)) => *last == b'\r',
    }
}

/// The line without its end.
pub fn content<'a>(cut: &Cut<'a>) -> &'a [u8]
    ensures { result.now ≡ content (line_cut cut.now) }
{
    if cut.fed {
        without_return(cut.bytes)
    } else {
        cut.bytes
    }
}

/// Whether a line feed alone ends the line.
pub fn is_ended(cut: &Cut<'_>) -> bool
    ensures { result ≡ is_ended (line_cut cut.now) }
{
    if cut.fed {
        !ends_in_return(cut.bytes)
    } else {
        false
    }
}

/// Whether a text begins with a line that is not empty.
#[tactic(auto, using(crate::proofs::TextLemmas::begin_one, crate::proofs::TextLemmas::begin_two))]
pub fn begins_filled(text: &[u8]) -> bool
    ensures { result ≡ begin_filled (lines_in text.now) }
{
    match text {
        [] => false,
        [b] => *b != b'\n',
        [b, c, ..] => *b != b'\n' && (*b != b'\r' || *c != b'\n'),
    }
}
