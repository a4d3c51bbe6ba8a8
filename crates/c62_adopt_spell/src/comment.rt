//! Comments between `/*` and `*/`, and lines that are comments.

ghost use Rattle.std.specs.Prelude.{◌≡◌, ◌==◌, ◌+◌, ◌++◌, not, [], length, OnOk};
ghost use Rattle.c62_adopt_spell.specs.declared.comment.Place.TheVariants.{Code};
ghost use Rattle.c62_adopt_spell.specs.Comment.{is_remark, code_behind, place_behind, is_opening, is_within, byte_of, blanked, place_at_end};

use c62_adopt_line::from_solid;
use c62_token::begins_with;
use std::alloc::AllocError;

/// Whether a line is a comment, which begins with `#` or `*`, be it behind blanks.
pub(crate) fn is_remark(line: &[u8]) -> bool
    ensures { result ≡ is_remark line.now }
{
    match from_solid(line) {
        [] => false,
        [b, ..] => *b == b'#' || *b == b'*',
    }
}

/// Where a byte of a line stands.
#[derive(Clone, Copy)]
enum Place {
    Code,
    /// At the star of a `/*`.
    Opening,
    /// In a comment.
    Inside,
    /// At the slash of a `*/`.
    Closing,
    /// Behind a `;`.
    Remark,
}

/// Behind a byte of the code, before this line.
fn code_behind(b: u8, line: &[u8]) -> Place
    ensures { result ≡ code_behind b line.now }
{
    if b == b';' {
        Place::Remark
    } else if b == b'/' && begins_with(b'*', line) {
        Place::Opening
    } else {
        Place::Code
    }
}

impl Place {
    fn behind(self, b: u8, line: &[u8]) -> Place
        ensures { result ≡ place_behind self b line.now }
    {
        match self {
            Place::Code => code_behind(b, line),
            Place::Opening => Place::Inside,
            Place::Inside => {
                if b == b'*' && begins_with(b'/', line) {
                    Place::Closing
                } else {
                    Place::Inside
                }
            }
            Place::Closing => Place::Code,
            Place::Remark => Place::Remark,
        }
    }

    fn is_opening(self) -> bool
        ensures { result ≡ is_opening self }
    {
        matches!(self, Place::Opening)
    }

    fn is_within(self) -> bool
        ensures { result ≡ is_within self }
    {
        matches!(self, Place::Opening | Place::Inside | Place::Closing)
    }
}

/// The byte, or a blank in its place, where it stands in a comment.
fn byte_of(place: Place, b: u8, line: &[u8]) -> u8
    ensures { result ≡ byte_of place b line.now }
{
    if place.is_within() || place.behind(b, line).is_opening() {
        b' '
    } else {
        b
    }
}

/// Whether all comments of a line end.
pub(crate) fn all_end(line: &[u8]) -> bool
    ensures { result ≡ not (is_within (place_at_end Code line.now)) }
{
    let mut place = Place::Code;
    let mut rest = line;
    while let [b, behind @ ..] = rest {
        place = place.behind(*b, behind);
        rest = behind;
    }
    !place.is_within()
}

/// Appends a line with blanks in place of its comments.
pub(crate) fn push_blanked(plain: &mut Vec<u8>, line: &[u8]) -> Result<(), AllocError>
    ensures blanked { OnOk result (plain.new.items ≡ plain.old.items ++ blanked Code line.now) }
    ensures same { OnOk result (length plain.new.items ≡ length plain.old.items + length line.now) }
{
    let mut place = Place::Code;
    let mut rest = line;
    while let [b, behind @ ..] = rest {
        plain.push(byte_of(place, *b, behind))?;
        place = place.behind(*b, behind);
        rest = behind;
    }
    Ok(())
}
