//! Writes all of a text, or as much of it as a stream takes.

ghost use Rattle.std.specs.Prelude.{◌≤◌, ◌<◌, IfSome, MatchResult, OnOk, length, take};
ghost use Rattle.std.specs.Io.KnownBytes.{Appends, Keeps};
ghost use Rattle.c62_answer.specs.Message.{joined, told_of};

use std::fmt::Display;
use std::io::{ErrorKind, Write};

/// A stream took no more: a write failed, or took nothing of what it was given. Only [`offer`] and [`show`] make one, so whoever
/// answers it was refused by the stream.
#[derive(Debug, Drop)]
pub struct Refused(());

/// Offers these bytes, and gives back how many the stream took, one at least. A write that a signal interrupts took nothing, and
/// is made again.
fn offer<W: Write>(stream: &mut W, bytes: &[u8]) -> Result<usize, Refused>
    ensures { MatchResult result
        (λ count. (0 < count) × (count ≤ length bytes.now) × Appends (W.contents stream.old) (W.contents stream.new) (take count bytes.now))
        (λ _. Keeps (W.contents stream.old) (W.contents stream.new)) }
{
    for _ in 0..u64::MAX {
        match stream.write(bytes) {
            Ok(0) => return Err(Refused(())),
            Ok(count) => return Ok(count),
            Err(error) => {
                if error.kind() != ErrorKind::Interrupted {
                    return Err(Refused(()));
                }
            }
        }
    }
    Err(Refused(()))
}

/// Writes all of these bytes, one by one if the stream takes no more at a time.
///
/// # Errors
///
/// Where the stream takes no more. It has a front of the bytes then.
pub fn write_whole<W: Write>(stream: &mut W, bytes: &[u8]) -> Result<(), Refused>
    ensures { told_of result (W.contents stream.old) (W.contents stream.new) bytes.now }
{
    let mut taken = 0;
    while taken < bytes.len() {
        match offer(stream, &bytes[taken..]) {
            Ok(count) => taken += count,
            Err(refused) => return Err(refused),
        }
    }
    Ok(())
}

/// Writes all of these pieces, one behind the other.
///
/// # Errors
///
/// Where the stream takes no more. It has a front of them all then.
pub fn write_pieces<W: Write>(stream: &mut W, pieces: &[&str]) -> Result<(), Refused>
    ensures { told_of result (W.contents stream.old) (W.contents stream.new) (joined pieces.now) }
{
    for piece in pieces {
        match write_whole(stream, piece.as_bytes()) {
            Ok(()) => {}
            Err(refused) => return Err(refused),
        }
    }
    Ok(())
}

/// Writes what a value shows.
///
/// # Errors
///
/// Where it isn't written, be it that the stream takes no more.
pub fn show<W: Write, D: Display>(stream: &mut W, shown: &D) -> Result<(), Refused>
    ensures { OnOk result (IfSome (D.output shown.now) (Appends (W.contents stream.old) (W.contents stream.new))) }
{
    match write!(stream, "{shown}") {
        Ok(()) => Ok(()),
        Err(_) => Err(Refused(())),
    }
}
