//! The tokens of a line.

ghost use Rattle.std.specs.Prelude.{◌≡◌, ◌==◌, ◌≤◌, ◌<◌, length, take, drop, MatchOption, IsTrue, false, [], ◌∷◌};
ghost use Rattle.std.specs.List.{list_all};
ghost use Rattle.c62_token.specs.Number.{spells};
ghost use Rattle.c62_token.specs.Token.{begins, is_blank, is_solid, is_word_byte, is_sign, is_double, joins, tokens, words_left, put_back, IsFirst, IsCutOff};

#[inline(always)]
fn is_blank(b: u8) -> bool
    ensures { result ≡ is_blank b }
{
    b == b' ' || b == b'\t'
}

// Each byte of a word stands at its own index, and a comma at every other.
static WORD_BYTES: [u8; 256] = *b"\
    ,,,,,,,,,,,,,,,,,,,,,,,,,,,,,,,,\
    ,,,,$,,,,,,,,,,,0123456789,,,,,,\
    ,ABCDEFGHIJKLMNOPQRSTUVWXYZ,,,,_\
    ,abcdefghijklmnopqrstuvwxyz,,,,,\
    ,,,,,,,,,,,,,,,,,,,,,,,,,,,,,,,,\
    ,,,,,,,,,,,,,,,,,,,,,,,,,,,,,,,,\
    ,,,,,,,,,,,,,,,,,,,,,,,,,,,,,,,,\
    ,,,,,,,,,,,,,,,,,,,,,,,,,,,,,,,,";

#[inline(always)]
pub(crate) fn is_word_byte(b: u8) -> bool
    ensures { result ≡ is_word_byte b }
{
    WORD_BYTES[usize::from(b)] != b','
}

fn is_sign(b: u8) -> bool
    ensures { result ≡ is_sign b }
{
    b == b'+' || b == b'-'
}

fn is_double(b: u8, c: u8) -> bool
    ensures { result ≡ is_double b c }
{
    b == c && (is_sign(b) || b == b'|')
}

/// Whether two neighbours are of one token that is no double.
#[inline(always)]
fn joins(b: u8, c: u8) -> bool
    ensures { result ≡ joins b c }
{
    is_word_byte(b) && is_word_byte(c)
        || is_sign(b) && c.is_ascii_digit()
        || b == b'.' && is_word_byte(c)
}

/// How many bytes of a word stand first.
#[inline(always)]
pub(crate) fn word_len(bytes: &[u8]) -> usize
    ensures within { result ≤ length bytes.now }
    ensures word { IsTrue (list_all is_word_byte (take result bytes.now)) }
    ensures ends { begins is_word_byte (drop result bytes.now) ≡ false }
{
    let mut len = 0;
    while len < bytes.len() && is_word_byte(bytes[len]) {
        len += 1;
    }
    len
}

/// How many bytes the token has that stands first.
#[inline(always)]
pub(crate) fn token_len(bytes: &[u8]) -> usize
    requires { 0 < length bytes.now → IsTrue (begins is_solid bytes.now) }
    ensures within { result ≤ length bytes.now }
    ensures some { 0 < length bytes.now → 0 < result }
    ensures token { 0 < length bytes.now → tokens bytes.now ≡ take result bytes.now ∷ tokens (drop result bytes.now) }
{
    match bytes {
        [] => 0,
        [_] => 1,
        [b, c, ..] => {
            if is_double(*b, *c) {
                2
            } else if joins(*b, *c) {
                1 + word_len(&bytes[1..])
            } else {
                1
            }
        }
    }
}

/// The line from its first token on, and nothing where it has none.
#[inline(always)]
pub(crate) fn from_token(line: &[u8]) -> &[u8]
    ensures same { tokens result.now ≡ tokens line.now }
    ensures solid { 0 < length result.now → IsTrue (begins is_solid result.now) }
{
    let mut start = line;
    while let [b, rest @ ..] = start {
        if !is_blank(*b) {
            return if *b == b';' { &[] } else { start };
        }
        start = rest;
    }
    start
}

/// The tokens of a line from some byte on, of which the first is cut off already: so each is cut off once. It is empty
/// where none is left.
#[derive(Clone, Copy)]
pub struct Tokens<'a> {
    pub(crate) first: &'a [u8],
    pub(crate) rest: &'a [u8],
}

impl<'a> Tokens<'a> {
    /// All tokens of a line.
    #[inline(always)]
    #[tactic(auto, using(crate::proofs::TokenLemmas::led_by_token), unfolding(crate::specs::Token::words_left))]
    pub fn new(line: &'a [u8]) -> Tokens<'a>
        ensures { words_left result ≡ tokens line.now }
    {
        let start = from_token(line);
        let (first, rest) = start.split_at(token_len(start));
        Tokens { first, rest }
    }

    /// The first token.
    #[inline(always)]
    #[tactic(auto, unfolding(crate::specs::Token::words_left))]
    pub fn peek(self) -> Option<&'a [u8]>
        ensures { IsFirst result self.entry.rest.now (words_left self.entry) }
    {
        if self.first.is_empty() {
            None
        } else {
            Some(self.first)
        }
    }

    /// What follows the first token.
    #[inline(always)]
    pub fn behind(self) -> Tokens<'a>
        ensures { words_left result ≡ tokens self.entry.rest.now }
    {
        Tokens::new(self.rest)
    }

    /// The first token, and the others.
    #[inline(always)]
    pub fn split(self) -> Option<(&'a [u8], Tokens<'a>)>
        ensures { IsCutOff result (words_left self.entry) }
    {
        let first = self.peek()?;
        Some((first, self.behind()))
    }

    /// What is left of the first token, and the others.
    #[inline(always)]
    #[tactic(auto, unfolding(crate::specs::Token::words_left))]
    pub fn from_left(self, left: &'a [u8]) -> Tokens<'a>
        ensures { words_left result ≡ put_back left.now (tokens self.entry.rest.now) }
    {
        if left.is_empty() {
            Tokens::new(self.rest)
        } else {
            Tokens {
                first: left,
                rest: self.rest,
            }
        }
    }
}

/// Whether this byte stands first.
pub fn begins_with(byte: u8, bytes: &[u8]) -> bool
    ensures { result ≡ begins (λ b. b == byte) bytes.now }
{
    match bytes {
        [] => false,
        [first, ..] => *first == byte,
    }
}

/// Whether the token is this mark.
pub fn is_mark(mark: u8, word: &[u8]) -> bool
    ensures { result ≡ spells (mark ∷ []) word.now }
{
    match word {
        [] => false,
        [b] => b.eq_ignore_ascii_case(&mark),
        [_, _, ..] => false,
    }
}
