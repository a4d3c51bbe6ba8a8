//! Offers bytes to a stream, which may refuse them.

ghost use Rattle.std.specs.Prelude.{◌≤◌, ◌<◌, MatchResult, length, take};
ghost use Rattle.std.specs.Io.KnownBytes.{Appends, Keeps};

use std::io::{ErrorKind, Write};

/// A stream took no more: a write failed, or took nothing of what it was given. Only [`offer`] makes one, so who has one was refused by a
/// stream.
#[derive(Clone, Copy, Debug)]
pub struct Refused(());

/// Offers these bytes, one at least, and gives back how many the stream took, one at least. A write that a signal interrupts took
/// nothing, and is made again.
///
/// # Errors
///
/// Where a write failed, or took nothing.
pub(crate) fn offer<W: Write>(stream: &mut W, bytes: &[u8]) -> Result<usize, Refused>
    requires { 0 < length bytes.now }
    ensures { MatchResult result
        (λ count. (0 < count) × (count ≤ length bytes.now) × Appends (W.contents stream.old) (W.contents stream.new) (take count bytes.now))
        (λ _. Keeps (W.contents stream.old) (W.contents stream.new)) }
{
    for _ in 0..u64::MAX {
        match stream.write(bytes) {
            Ok(0) => return Err(Refused(())),
            Ok(count) => return Ok(count),
            Err(error) => {
                if error.kind() != ErrorKind::Interrupted {
                    return Err(Refused(()));
                }
            }
        }
    }
    Err(Refused(()))
}
