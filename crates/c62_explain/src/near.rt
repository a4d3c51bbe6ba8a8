//! Names that are one letter off.

ghost use Rattle.std.specs.Prelude.{◌≡◌};
ghost use Rattle.c62_explain.specs.Near.{is_exchanged, is_near, off_here, same_letter};

use c62_token::number::spells;

fn same_letter(a: u8, b: u8) -> bool
    ensures { result ≡ same_letter a b }
{
    a.to_ascii_lowercase() == b.to_ascii_lowercase()
}

fn is_exchanged(name: &[u8], word: &[u8]) -> bool
    ensures { result ≡ is_exchanged name.now word.now }
{
    match name {
        [] | [_] => false,
        [a, b, rest @ ..] => match word {
            [] | [_] => false,
            [c, d, others @ ..] => {
                same_letter(*a, *d) && same_letter(*b, *c) && spells(rest, others)
            }
        },
    }
}

/// Whether the words are one letter off, of which the first letters differ.
fn off_here(name: &[u8], word: &[u8]) -> bool
    ensures { result ≡ off_here name.now word.now }
{
    match name {
        [] => matches!(word, [_]),
        [_, rest @ ..] => match word {
            [] => rest.is_empty(),
            [_, others @ ..] => {
                spells(rest, others)
                    || spells(rest, word)
                    || spells(name, others)
                    || is_exchanged(name, word)
            }
        },
    }
}

/// Whether the word is one letter off the name, in any case: a letter too many, one too few, one that is another, or two that
/// are exchanged.
#[tactic(auto, unfolding(crate::specs::Near::is_near))]
pub(crate) fn is_near(name: &[u8], word: &[u8]) -> bool
    ensures { result ≡ is_near name.now word.now }
{
    match name {
        [] => off_here(name, word),
        [a, rest @ ..] => match word {
            [] => off_here(name, word),
            [b, others @ ..] => if same_letter(*a, *b) {
                is_near(rest, others)
            } else {
                off_here(name, word)
            },
        },
    }
}
