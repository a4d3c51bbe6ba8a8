//! Units as they are written.

ghost use Rattle.std.specs.Prelude.{◌≡◌, Some, None, MatchOption};
ghost use Rattle.c62_token.specs.Token.{begins, words_left};

use crate::mnemonic::Mnemonic;
use c62_insn::{Letter, Side, Unit};
use c62_token::{Tokens, begins_with};

/// What is written behind a unit's number.
#[derive(Clone, Copy)]
pub enum Mark {
    Plain,
    /// `X`: an operand crosses.
    Cross,
    /// `T1` or `T2`: the data path.
    Path(Side),
}

/// A unit with its mark.
#[derive(Clone, Copy)]
pub struct WrittenUnit {
    pub unit: Unit,
    pub mark: Mark,
}

ghost use Rattle.c62_line.specs.Operand.{Finds, FindsBefore};
ghost use Rattle.c62_line.specs.Unit.{letter_of, side_numbered, mark_of, unit_split, is_dot, unit_front, is_access, mark_fits, unit_fits};

#[tactic(auto, unfolding(crate::specs::Unit::letter_of))]
fn letter_of(b: u8) -> Option<Letter>
    ensures { result ≡ letter_of b }
{
    match b {
        b'L' | b'l' => Some(Letter::L),
        b'S' | b's' => Some(Letter::S),
        b'M' | b'm' => Some(Letter::M),
        b'D' | b'd' => Some(Letter::D),
        _ => None,
    }
}

#[tactic(auto, unfolding(crate::specs::Unit::side_numbered))]
fn side_numbered(b: u8) -> Option<Side>
    ensures { result ≡ side_numbered b }
{
    match b {
        b'1' => Some(Side::A),
        b'2' => Some(Side::B),
        _ => None,
    }
}

/// The mark that these bytes begin with, and what is left behind it.
#[tactic(auto, unfolding(crate::specs::Unit::mark_of))]
fn mark_of(bytes: &[u8]) -> Option<(Mark, &[u8])>
    ensures { MatchOption result ((mark_of bytes.now).0 ≡ None) (λ found. mark_of bytes.now ≡ (Some found.0, found.1.now)) }
{
    match bytes {
        [b'X' | b'x', rest @ ..] => Some((Mark::Cross, rest)),
        [b'T' | b't', path @ b'0'..=b'9', rest @ ..] => {
            Some((Mark::Path(side_numbered(*path)?), rest))
        }
        _ => Some((Mark::Plain, bytes)),
    }
}

/// The unit that these bytes begin with, and what is left behind it.
#[inline(always)]
#[tactic(auto, unfolding(crate::specs::Unit::unit_split))]
fn unit_split(bytes: &[u8]) -> Option<(WrittenUnit, &[u8])>
    ensures { FindsBefore result (unit_split bytes.now) }
{
    match bytes {
        [_, letter, number, rest @ ..] => {
            let letter = letter_of(*letter)?;
            let side = side_numbered(*number)?;
            let (mark, left) = mark_of(rest)?;
            let unit = Unit { letter, side };
            Some((WrittenUnit { unit, mark }, left))
        }
        _ => None,
    }
}

/// The unit that is written first, where one is, and what follows it. There is none where a dot begins no unit.
#[inline(always)]
#[tactic(auto, unfolding(crate::specs::Unit::unit_front))]
pub(crate) fn first_unit(rest: Tokens<'_>) -> Option<(Option<WrittenUnit>, Tokens<'_>)>
    ensures { Finds result (unit_front (words_left rest.entry)) }
{
    let Some(word) = rest.peek() else {
        return Some((None, rest));
    };
    if !begins_with(b'.', word) {
        return Some((None, rest));
    }
    let (unit, left) = unit_split(word)?;
    Some((Some(unit), rest.from_left(left)))
}

impl Mnemonic {
    fn is_access(self) -> bool
        ensures { result ≡ is_access self }
    {
        match self {
            Mnemonic::Operation(op) => op.is_load() || op.is_store(),
            _ => false,
        }
    }
}

impl WrittenUnit {
    fn mark_fits(self, mnemonic: Mnemonic) -> bool
        ensures { result ≡ mark_fits mnemonic self.unit.letter self.mark }
    {
        match self.mark {
            Mark::Plain => true,
            Mark::Cross => self.unit.letter != Letter::D,
            Mark::Path(_) => self.unit.letter == Letter::D && mnemonic.is_access(),
        }
    }

    /// Whether the unit may be written behind the mnemonic.
    #[inline(always)]
    #[tactic(auto, unfolding(crate::specs::Unit::unit_fits))]
    pub(crate) fn fits(self, mnemonic: Mnemonic) -> bool
        ensures { result ≡ unit_fits mnemonic self }
    {
        mnemonic.stands_on(self.unit.letter) && self.mark_fits(mnemonic)
    }
}
