//! What stands in a line.

ghost use Rattle.std.specs.Prelude.{◌≡◌, ◌≤◌, length};
ghost use Rattle.c62_line.specs.declared.limits.TheConstants.{MOST_LINE};
ghost use Rattle.c62_adopt_code.specs.Statement.{is_remark, is_readable, front_of, label_of, behind_label};

use c62_adopt_line::{behind_colon, from_solid, label_of};
use c62_line::{Label, MOST_LINE};
use c62_token::scan_line;

/// Whether a line is a comment, which begins with `#` or `*`, be it behind blanks.
pub(crate) fn is_remark(line: &[u8]) -> bool
    ensures { result ≡ is_remark line.now }
{
    match from_solid(line) {
        [] => false,
        [b, ..] => *b == b'#' || *b == b'*',
    }
}

/// Whether the reader of lines may read it.
pub(crate) fn is_readable(line: &[u8]) -> bool
    ensures { result ≡ is_readable line.now }
{
    scan_line(line).allowed && line.len() <= MOST_LINE
}

/// The label of a line, of which no more is looked at than a line may have.
#[tactic(auto, using(std::proofs::lemmas::List::take_min))]
pub fn label_in_front(line: &[u8]) -> Option<Label>
    ensures { result ≡ label_of (front_of line.now) }
{
    label_of(&line[..MOST_LINE.min(line.len())])
}

/// What stands behind the label, where there is one.
pub(crate) fn behind_label<'a>(label: &Option<Label>, line: &'a [u8]) -> &'a [u8]
    ensures { result.now ≡ behind_label label.now line.now }
{
    match label {
        Some(_) => behind_colon(line),
        None => line,
    }
}
