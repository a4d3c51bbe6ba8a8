//! The first line of a text.

ghost use Rattle.std.specs.Prelude.{◌≡◌, ◌<◌, length, IfSome};
ghost use Rattle.c62_read.specs.Text.{lines_of};
ghost use Rattle.c62_reach.specs.Taken.{first_of, behind_first};
ghost use Rattle.c62_reach.specs.Told.{IsFirstEnded};

use c62_read::first_line;
use memchr::memchr;

/// The first line of a text, with its end, and the text behind it; none of a text that has no bytes.
pub(crate) fn first_ended(text: &[u8]) -> Option<(&[u8], &[u8])>
    ensures found { IsFirstEnded result text.now }
    ensures shorter { IfSome result (λ found. length found.1.now < length text.now) }
{
    if text.is_empty() {
        return None;
    }
    match memchr(b'\n', text) {
        Some(end) => Some((&text[..end + 1], &text[end + 1..])),
        None => Some((text, &[])),
    }
}

/// The first line of a text, without its end, and the text behind it; both have no bytes where the text has none.
pub(crate) fn next_line(text: &[u8]) -> (&[u8], &[u8])
    ensures first { result.0.now ≡ first_of (lines_of text.now) }
    ensures behind { lines_of result.1.now ≡ behind_first (lines_of text.now) }
{
    match first_line(text) {
        Some(found) => found,
        None => (b"", b""),
    }
}
