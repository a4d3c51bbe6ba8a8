//! Writes a trace to a stream, or as much of it as that takes.

ghost use Rattle.c62_trace.specs.Stream.{IsTold, TellsMore};

use crate::offering::{Refused, offer};
use std::io::Write;

/// Writes all of these bytes, one by one if the stream takes no more at a time.
///
/// # Errors
///
/// Where the stream refused the next of them. It has those before.
fn write_whole<W: Write>(stream: &mut W, bytes: &[u8]) -> Result<(), Refused>
    ensures { IsTold result (W.contents stream.old) (W.contents stream.new) bytes.now }
{
    let mut taken = 0;
    while taken < bytes.len() {
        match offer(stream, &bytes[taken..]) {
            Ok(count) => taken += count,
            Err(refused) => return Err(refused),
        }
    }
    Ok(())
}

/// Writes these bytes behind others, where the stream took all of those.
///
/// # Errors
///
/// Where the stream refused some of both.
pub fn tell<W: Write>(
    stream: &mut W,
    whole: Result<(), Refused>,
    bytes: &[u8],
) -> Result<(), Refused>
    ensures { TellsMore whole result (W.contents stream.old) (W.contents stream.new) bytes.now }
{
    match whole {
        Ok(()) => write_whole(stream, bytes),
        Err(refused) => Err(refused),
    }
}
