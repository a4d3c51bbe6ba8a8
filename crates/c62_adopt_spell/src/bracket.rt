//! Numbers in round brackets.

ghost use Rattle.std.specs.Prelude.{◌≡◌, ◌<◌, ◌++◌, ◌∷◌, [], length, IfOk, OnOk};
ghost use Rattle.c62_token.specs.Token.{tokens, words_left};
ghost use Rattle.c62_adopt_line.specs.Plain.{FindsRound, spaced};
ghost use Rattle.c62_adopt_spell.specs.Bracket.{is_base, FindsLoose, PushesNext, unbracketed};
ghost use Rattle.c62_adopt_spell.specs.Statement.{without_brackets};

use crate::sum::{push_number, push_word};
use c62_token::number::{number, register, spells};
use c62_token::{Tokens, is_mark};
use std::alloc::AllocError;

/// Whether it is a register or a step, behind which an offset stands.
fn is_base(word: &[u8]) -> bool
    ensures { result ≡ is_base word.now }
{
    register(word).is_some() || spells(b"++", word) || spells(b"--", word)
}

/// The number that stands first, between round brackets, and what follows it.
fn in_brackets<'a>(words: Tokens<'a>) -> Option<(i64, Tokens<'a>)>
    ensures { FindsRound result (words_left words.entry) }
{
    let (opening, behind) = words.split()?;
    let (word, behind) = behind.split()?;
    let (closing, behind) = behind.split()?;
    if is_mark(b'(', opening) && is_mark(b')', closing) {
        Some((number(word)?, behind))
    } else {
        None
    }
}

/// The same where these are brackets of no offset.
fn in_loose_brackets<'a>(base: bool, words: Tokens<'a>) -> Option<(i64, Tokens<'a>)>
    ensures { FindsLoose base result (words_left words.entry) }
{
    if base { None } else { in_brackets(words) }
}

/// Appends the first word, or the number in brackets that stands first. Gives what follows, and whether that may be an offset.
fn push_next<'a>(
    text: &mut Vec<u8>,
    base: bool,
    words: Tokens<'a>,
) -> Result<Option<(bool, Tokens<'a>)>, AllocError>
    ensures { IfOk result (λ next. PushesNext base text.old.items (words_left words.entry) text.new.items next) }
{
    if let Some((k, behind)) = in_loose_brackets(base, words) {
        push_number(text, k)?;
        return Ok(Some((false, behind)));
    }
    match words.split() {
        None => Ok(None),
        Some((word, behind)) => {
            push_word(text, word)?;
            Ok(Some((is_base(word), behind)))
        }
    }
}

/// Appends the tokens of bytes with a blank behind each, where a number in brackets that is no offset stands without them.
pub(crate) fn push_unbracketed(text: &mut Vec<u8>, bytes: &[u8]) -> Result<(), AllocError>
    ensures { OnOk result (text.new.items ≡ text.old.items ++ without_brackets bytes.now) }
{
    let mut base = false;
    let mut left = Tokens::new(bytes);
    while let Some((next, behind)) = push_next(text, base, left)? {
        base = next;
        left = behind;
    }
    Ok(())
}
