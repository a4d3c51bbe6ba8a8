//! What a token is, whatever the case of its letters.

ghost use Rattle.std.specs.Prelude.{◌≡◌, ◌<◌, ◌++◌, [], ◌∷◌, length, map, MatchOption};
ghost use Rattle.c62_token.specs.Number.{pointer_of, suffixed_of};
ghost use Rattle.c62_token.specs.Token.{tokens, words_left};

use crate::number::{number, pointer, register, suffixed};
use crate::token::{Tokens, from_token, token_len};
use arrayvec::ArrayVec;
use c62_op::{InstructionSet, Reg};

/// What a token is. A name tells by its bytes what it stands for.
#[derive(Clone, Copy, Default)]
pub enum Kind {
    /// `,`
    Comma,
    /// `*`
    Star,
    /// `[`
    Open,
    /// `]`
    Close,
    /// `!`
    Not,
    /// `+`
    Plus,
    /// `-`
    Minus,
    /// `++`
    Increment,
    /// `--`
    Decrement,
    Register(Reg),
    Number(i64),
    /// `SP`, `DP` or `FP`, to which the full set of instructions takes the register.
    Alias(Reg),
    /// A hexadecimal number with an `h` behind it, which that set alone takes.
    Suffixed(i64),
    /// Any other token, such as a mnemonic, a unit or a label.
    #[default]
    Name,
}

ghost use Rattle.c62_token.specs.Kind.{lone_mark, other_kind, read_in, single_mark, mark_of, kind_of, IsFirstKind, IsKindCutOff, HoldsKinds};

#[inline(always)]
#[tactic(auto, unfolding(crate::specs::Kind::single_mark))]
fn single_mark(b: u8) -> Option<Kind>
    ensures { result ≡ single_mark b }
{
    match b {
        b',' => Some(Kind::Comma),
        b'*' => Some(Kind::Star),
        b'[' => Some(Kind::Open),
        b']' => Some(Kind::Close),
        b'!' => Some(Kind::Not),
        b'+' => Some(Kind::Plus),
        b'-' => Some(Kind::Minus),
        _ => None,
    }
}

/// The mark that the token is, where it is one: a byte such as `,` or `[`, or `++` or `--`.
#[inline(always)]
#[tactic(auto, unfolding(crate::specs::Kind::mark_of))]
pub fn mark(word: &[u8]) -> Option<Kind>
    ensures { result ≡ mark_of word.now }
{
    match word {
        [b] => single_mark(*b),
        b"++" => Some(Kind::Increment),
        b"--" => Some(Kind::Decrement),
        _ => None,
    }
}

/// A register or a number by another spelling, or else a name.
fn other_kind(word: &[u8]) -> Kind
    ensures { result ≡ other_kind (pointer_of word.now) (suffixed_of word.now) }
{
    if let Some(reg) = pointer(word) {
        Kind::Alias(reg)
    } else if let Some(number) = suffixed(word) {
        Kind::Suffixed(number)
    } else {
        Kind::Name
    }
}

impl Kind {
    /// What the token of these bytes is.
    #[inline(always)]
    #[tactic(auto, unfolding(crate::specs::Kind::kind_of))]
    pub fn of(word: &[u8]) -> Kind
        ensures { result ≡ kind_of word.now }
    {
        if let Some(mark) = mark(word) {
            mark
        } else if let Some(reg) = register(word) {
            Kind::Register(reg)
        } else if let Some(number) = number(word) {
            Kind::Number(number)
        } else {
            other_kind(word)
        }
    }

    /// What the token is to the reader of a set: another spelling is what it stands for, where the set has it.
    pub fn read_in(self, set: InstructionSet) -> Kind
        ensures { result ≡ read_in set self }
    {
        match (set, self) {
            (InstructionSet::Full, Kind::Alias(reg)) => Kind::Register(reg),
            (InstructionSet::Full, Kind::Suffixed(number)) => Kind::Number(number),
            (_, kind) => kind,
        }
    }
}

/// The mark that is a token wherever it stands.
#[inline(always)]
fn lone_mark(b: u8) -> Option<Kind>
    ensures { result ≡ lone_mark b }
{
    match b {
        b',' => Some(Kind::Comma),
        b'*' => Some(Kind::Star),
        b'[' => Some(Kind::Open),
        b']' => Some(Kind::Close),
        b'!' => Some(Kind::Not),
        _ => None,
    }
}

/// What the first token of a line is, and what follows it.
#[inline(always)]
#[tactic(auto, using(crate::proofs::KindLemmas::lone_is))]
fn next_kind(line: &[u8]) -> Option<(Kind, &[u8])>
    ensures { IsFirstKind result (tokens line.now) }
{
    let start = from_token(line);
    let (first, rest) = start.split_first()?;
    if let Some(mark) = lone_mark(*first) {
        return Some((mark, rest));
    }
    let (word, rest) = start.split_at(token_len(start));
    Some((Kind::of(word), rest))
}

impl<'a> Tokens<'a> {
    /// What the first token is, and the others.
    #[inline(always)]
    #[tactic(auto, unfolding(crate::specs::Token::words_left))]
    pub fn split_kind(self) -> Option<(Kind, Tokens<'a>)>
        ensures { IsKindCutOff result self.entry }
    {
        let word = self.peek()?;
        Some((Kind::of(word), self.behind()))
    }

    /// Adds what the tokens are to the reader of a set. False where these are more than there is room for: no line has so many
    /// operands.
    #[inline(always)]
    #[tactic(auto, unfolding(crate::specs::Token::words_left))]
    pub fn add_kinds(self, set: InstructionSet, kinds: &mut ArrayVec<Kind, 8>) -> bool
        requires { kinds.old.items ≡ [] }
        ensures { HoldsKinds set result kinds.new.items (words_left self.entry) }
    {
        if self.first.is_empty() {
            return true;
        }
        kinds.push(Kind::of(self.first).read_in(set));
        let mut rest = self.rest;
        while let Some((kind, behind)) = next_kind(rest) {
            if kinds.is_full() {
                return false;
            }
            kinds.push(kind.read_in(set));
            rest = behind;
        }
        true
    }
}
