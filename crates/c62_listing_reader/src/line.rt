//! How the lines of a listing begin.

ghost use Rattle.std.specs.Prelude.{◌≡◌, ◌==◌, not, take_while};
ghost use Rattle.std.specs.List.{list_all, list_any};
ghost use Rattle.c62_token.specs.Token.{is_allowed};
ghost use Rattle.c62_listing_reader.specs.Begin.{has_colon, is_label_line, front_of, rest_of};

use c62_insn::Unit;

/// How a line begins.
#[derive(Clone, Copy, PartialEq, Eq)]
pub enum Front {
    /// Nothing is in it.
    Empty,
    /// With three spaces.
    First,
    /// With bars and a space.
    Beside,
    /// A label line.
    Label,
    /// As no line of a listing.
    Stray,
}

/// What the line above says, as far as the next one asks.
#[derive(Clone, Copy)]
pub enum Above {
    /// Nothing, or there is none.
    Start,
    /// A label.
    Heading,
    /// So many cycles without an instruction.
    Pause(u8),
    /// An instruction.
    Issue(Option<Unit>),
}

/// Whether a colon stands before any comment.
pub fn has_colon(bytes: &[u8]) -> bool
    ensures { result ≡ has_colon bytes.now }
{
    bytes.iter().take_while(|b| **b != b';').any(|b| *b == b':')
}

/// Whether a line that begins otherwise is a label line: one with a colon before any comment.
fn is_label_line(bytes: &[u8]) -> bool
    ensures { result ≡ is_label_line bytes.now }
{
    match bytes {
        [] => false,
        [first, ..] => *first != b'*' && has_colon(bytes),
    }
}

/// What a line begins with (docs/LISTING.md, "Faults of a line").
pub fn beginning(bytes: &[u8]) -> Front
    ensures { result ≡ front_of bytes.now }
{
    if bytes.is_empty() {
        return Front::Empty;
    }
    if bytes.starts_with(b"   ") {
        return Front::First;
    }
    if bytes.starts_with(b"|| ") {
        return Front::Beside;
    }
    if is_label_line(bytes) {
        Front::Label
    } else {
        Front::Stray
    }
}

/// What stands behind the bars, which begins with a blank; of others the whole line.
pub fn rest(front: Front, bytes: &[u8]) -> &[u8]
    ensures { result.now ≡ rest_of front bytes.now }
{
    match front {
        Front::Beside => bytes.get(2..).unwrap_or(&[]),
        _ => bytes,
    }
}
