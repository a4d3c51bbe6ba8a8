//! Parts what is to be checked into a serial text and a listing (docs/CHECK.md, "Input").

ghost use Rattle.std.specs.Prelude.{MatchOption};
ghost use Rattle.c62_answer.specs.Parting.{HasNoParting, IsParted, IsEnded, NoEnd, IsBegun, NoneBegun};

use memchr::memchr;

/// The most bytes that are read of what is to be checked: the longest text, the line that parts it from the listing, with a
/// carriage return and a line feed, and the longest listing. Packets as they are written may be as long.
pub const MOST_BYTES: usize = 9_437_189;

/// The line that parts text and listing.
const PARTING: &[u8; 3] = b"---";

/// A serial text, and a listing that is held against it.
#[derive(Clone, Copy)]
pub struct Parts<'a> {
    pub text: &'a [u8],
    pub listing: &'a [u8],
}

/// What stands behind the end of a line, where these bytes begin with one.
fn behind_end(bytes: &[u8]) -> Option<&[u8]>
    ensures { MatchOption result (NoEnd bytes.now) (λ rest. IsEnded bytes.now rest.now) }
{
    match bytes {
        [] => Some(bytes),
        [b'\n', rest @ ..] => Some(rest),
        [b'\r', b'\n', rest @ ..] => Some(rest),
        [_, ..] => None,
    }
}

/// What stands behind the first line of these bytes, where that is `---`.
fn behind_parting(bytes: &[u8]) -> Option<&[u8]>
    ensures { MatchOption result (NoneBegun bytes.now) (λ rest. IsBegun bytes.now rest.now) }
{
    match bytes.strip_prefix(PARTING) {
        Some(end) => behind_end(end),
        None => None,
    }
}

/// What stands before the first line `---`, and what stands behind it. `None` where no line is `---`.
pub fn parts_of(input: &[u8]) -> Option<Parts<'_>>
    ensures { MatchOption result (HasNoParting input.now) (λ parts. IsParted input.now parts.text.now parts.listing.now) }
{
    let mut begin = 0;
    while begin < input.len() {
        let lines = &input[begin..];
        if let Some(listing) = behind_parting(lines) {
            let text = &input[..begin];
            return Some(Parts { text, listing });
        }
        match memchr(b'\n', lines) {
            Some(end) => begin += end + 1,
            None => return None,
        }
    }
    None
}
