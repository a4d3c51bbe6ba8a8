//! What is told of what came of a call.

ghost use Rattle.std.specs.Prelude.{◌≡◌, OnOk, IfOk};
ghost use Rattle.std.specs.Io.KnownBytes.{Appends};
ghost use Rattle.c62_refusals.specs.Telling.{output_of, note_of, status_of};

use crate::twice::Came;
use std::io;
use std::io::Write;

/// The status of what came: 3 where memory was refused to the call, or to what it is made on.
fn status_of(came: Option<Came>) -> u8
    ensures { result ≡ status_of came }
{
    match came {
        Some(Came::Answer(_) | Came::Again(_)) => 0,
        Some(Came::Changed) => 1,
        Some(Came::Memory) | None => 3,
    }
}

/// What goes to the error stream.
fn note_of(came: Option<Came>) -> &'static [u8]
    ensures { result.now ≡ note_of came }
{
    match came {
        Some(Came::Again(_)) => b"again\n",
        _ => b"",
    }
}

/// Writes the answer, or that something changed.
fn write_answer<W: Write>(output: &mut W, came: Option<Came>) -> io::Result<()>
    ensures { OnOk result (Appends (W.contents output.old) (W.contents output.new) (output_of came)) }
{
    match came {
        Some(Came::Answer(answer) | Came::Again(answer)) => writeln!(output, "{answer:x}"),
        Some(Came::Changed) => output.write_all(b"changed\n"),
        Some(Came::Memory) | None => output.write_all(b""),
    }
}

/// Tells what came of a call, and answers the status.
pub(crate) fn tell<W: Write, E: Write>(
    output: &mut W,
    errors: &mut E,
    came: Option<Came>,
) -> io::Result<u8>
    ensures status { IfOk result (λ status. status ≡ status_of came) }
    ensures output { OnOk result (Appends (W.contents output.old) (W.contents output.new) (output_of came)) }
    ensures errors { OnOk result (Appends (E.contents errors.old) (E.contents errors.new) (note_of came)) }
{
    errors.write_all(note_of(came))?;
    write_answer(output, came)?;
    Ok(status_of(came))
}
