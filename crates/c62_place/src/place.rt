//! Where a token stands in its line.

ghost use Rattle.std.specs.Prelude.{◌≡◌, ◌≤◌, ◌<◌, ◌^◌, length, drop, false, IfOk, IfSome};
ghost use Rattle.c62_token.specs.Token.{begins, is_allowed, is_blank, tokens};
ghost use Rattle.c62_place.specs.Place.{IsFirstToken, IsPlace, IsToken, faulty_token, first_refused};

use crate::token::faulty_token;
use c62_line::{Cause, MOST_LINE};
use c62_op::InstructionSet;
use c62_token::Tokens;
use std::alloc::{AllocError, Global};

/// A token, or another part of a line.
#[derive(Clone, Copy, PartialEq, Eq, Debug)]
pub struct Place {
    /// How many bytes of the line stand before it.
    pub start: usize,
    /// How many bytes it has, and none at the end of the line.
    pub len: usize,
}

fn is_blank(b: u8) -> bool
    ensures { result ≡ is_blank b }
{
    b == b' ' || b == b'\t'
}

fn is_allowed(b: u8) -> bool
    ensures { result ≡ is_allowed b }
{
    b == b'\t' || 32 <= b && b < 127
}

/// How many blanks stand first.
#[tactic(auto, using(crate::proofs::PlaceLemmas::blank_past))]
fn blanks(line: &[u8]) -> usize
    ensures within { result ≤ length line.now }
    ensures same { tokens (drop result line.now) ≡ tokens line.now }
    ensures ends { begins is_blank (drop result line.now) ≡ false }
{
    let mut count = 0;
    while count < line.len() && is_blank(line[count]) {
        count += 1;
    }
    count
}

/// The first token of a line, where it has one.
fn first_token(line: &[u8]) -> Option<Place>
    ensures { IsFirstToken line.now result }
{
    let start = blanks(line);
    let word = Tokens::new(&line[start..]).peek()?;
    Some(Place {
        start,
        len: word.len(),
    })
}

/// Where the token behind so many others stands; where the line has no more, the end of its last one.
pub fn token_at(line: &[u8], before: usize) -> Place
    ensures { IsToken line.now before result }
{
    let mut start = 0;
    let mut left = before;
    while let Some(place) = first_token(&line[start..]) {
        if left == 0 {
            return Place {
                start: start + place.start,
                len: place.len,
            };
        }
        start += place.start + place.len;
        left -= 1;
    }
    Place { start, len: 0 }
}

fn first_refused(line: &[u8]) -> Option<usize>
    ensures value { result ≡ first_refused line.now }
    ensures bound { IfSome result (λ index. index < length line.now) }
{
    line.iter().position(|b| !is_allowed(*b))
}

/// Where a fault of this line is found: at the token of its cause (docs/FAULTS.md, "Where a fault is found"), or at the byte
/// that isn't allowed or is too many. The line is without its end, and has this fault.
///
/// # Errors
///
/// `AllocError` where memory ran out.
#[tactic(auto, unfolding(crate::specs::Place::IsPlace))]
pub fn place_of(
    isa: InstructionSet,
    alloc: Global,
    fault: Cause,
    line: &[u8],
) -> Result<Place, AllocError>
    ensures place { IfOk result (λ place. IsPlace isa fault line.now place) }
    ensures bound { IfOk result (λ place. place.start < 2 ^ 63) }
{
    match fault {
        Cause::NotAscii => Ok(Place {
            start: first_refused(line).unwrap_or(0),
            len: 1,
        }),
        Cause::LineTooLong => Ok(Place {
            start: MOST_LINE,
            len: 1,
        }),
        Cause::TextTooLong | Cause::Memory => Ok(Place { start: 0, len: 0 }),
        _ => {
            let before = faulty_token(isa, alloc, fault, Tokens::new(line))?;
            Ok(token_at(line, before))
        }
    }
}
