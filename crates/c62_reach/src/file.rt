//! Where the files of a text begin.

ghost use Rattle.std.specs.Prelude.{◌≡◌};
ghost use Rattle.c62_token.specs.Token.{words_left};
ghost use Rattle.c62_reach.specs.File.{begins_quoted, names_file, begins_file};

use c62_adopt_code::label_in_front;
use c62_adopt_line::behind_colon;
use c62_token::Tokens;
use c62_token::number::spells;

fn begins_quoted(words: Tokens<'_>) -> bool
    ensures { result ≡ begins_quoted (words_left words.entry) }
{
    match words.peek() {
        None => false,
        Some(word) => spells(b"\"", word),
    }
}

/// Whether a directive of these words begins a file: `.file` with a name between quotes.
fn names_file(words: Tokens<'_>) -> bool
    ensures { result ≡ names_file (words_left words.entry) }
{
    match words.split() {
        None => false,
        Some((name, behind)) => spells(b".file", name) && begins_quoted(behind),
    }
}

/// Whether a line begins a file, with a label in front or without.
pub(crate) fn begins_file(line: &[u8]) -> bool
    ensures { result ≡ begins_file line.now }
{
    match label_in_front(line) {
        Some(_) => names_file(Tokens::new(behind_colon(line))),
        None => names_file(Tokens::new(line)),
    }
}
