//! The run over a reader and writers.

ghost use Rattle.std.specs.Prelude.{◌≡◌, ◌+◌, None, IfErr, IfOk, OnOk, map};
ghost use Rattle.std.specs.Io.KnownBytes.{Appends, Keeps};
ghost use Rattle.c62_answer.specs.Message.{Tells, told_of};
ghost use Rattle.c62_answer.specs.Run.{TakesAtMost, TakesAsked, Does, IsDone, Fails, HasFailed, IsRun, IsRunBy, IsRunOnBytes, limit_of, streams};
ghost use Rattle.c62_command.specs.CommandLine.{ask_told, asked};

use crate::answer::{limit_for, respond};
use crate::failure::Failure;
use crate::input::read_text;
use crate::message::{report, tell_outcome};
use crate::outcome::Outcome;
use crate::writing::{Refused, write_whole};
use c62_command::{Command, command_of};
use c62_op::InstructionSet;
use std::convert::AsStr;
use std::io::{Read, Write};
use std::sync::Wait;
use std::thread::Threads;

/// Writes all of these bytes. Where the output fails, a front of them is written.
fn write_out<W: Write>(output: &mut W, bytes: &[u8]) -> Result<(), Failure>
    ensures ok { OnOk result (Appends (W.contents output.old) (W.contents output.new) bytes.now) }
    ensures err { IfErr result (λ f. (f ≡ Failure.Output) × Tells (W.contents output.old) (W.contents output.new) bytes.now) }
{
    match write_whole(output, bytes) {
        Ok(()) => {}
        Err(_) => return Err(Failure::Output),
    }
    match output.flush() {
        Ok(()) => Ok(()),
        Err(_) => Err(Failure::Output),
    }
}

/// Reads a text, and writes the answer to it.
fn perform<H: AllocGlobal + Threads + Wait + Sync, R: Read, W: Write>(
    isa: InstructionSet,
    rt: &H,
    command: &Command,
    reader: &mut R,
    output: &mut W,
) -> Result<Outcome, Failure>
    ensures ok { IfOk result (λ outcome. Does isa (ask_told command.now) outcome (R.remaining reader.old)
        (W.contents output.old) (W.contents output.new)) }
    ensures err { IfErr result (Fails isa (ask_told command.now) (R.remaining reader.old) (W.contents output.old)
        (W.contents output.new)) }
    ensures most { TakesAtMost (limit_of (ask_told command.now) + 1) (R.remaining reader.old) (R.remaining reader.new) }
{
    let text = read_text(rt.alloc(), reader, limit_for(command))?;
    let reply = respond(isa, rt, command, &text)?;
    write_out(output, &reply.text)?;
    Ok(reply.outcome)
}

/// Does what the words ask for. They are judged before anything is read.
fn run<H: AllocGlobal + Threads + Wait + Sync, S: AsStr, R: Read, W: Write>(
    isa: InstructionSet,
    rt: &H,
    words: &[S],
    reader: &mut R,
    output: &mut W,
) -> Result<Outcome, Failure>
    ensures ok { IfOk result (λ outcome. IsDone isa (map S.text words.now) outcome (R.remaining reader.old)
        (W.contents output.old) (W.contents output.new)) }
    ensures err { IfErr result (HasFailed isa (map S.text words.now) (R.remaining reader.old) (W.contents output.old)
        (W.contents output.new)) }
    ensures unread { asked (map S.text words.now) ≡ None → Keeps (R.remaining reader.old) (R.remaining reader.new) }
    ensures most { TakesAsked (map S.text words.now) (R.remaining reader.old) (R.remaining reader.new) }
{
    let command = command_of(rt.alloc(), words)?;
    perform(isa, rt, &command, reader, output)
}

/// How a run ended: its status, and whether the error stream took all that was told.
#[derive(Debug, Drop)]
pub struct Ended {
    pub status: u8,
    pub told: Result<(), Refused>,
}

/// Runs the program as [`run_tool`] does. Where the error stream took all that it was offered, what is told is told whole, and else
/// a front of it.
fn run_telling<H: AllocGlobal + Threads + Wait + Sync, S: AsStr, R: Read, W: Write, E: Write>(
    isa: InstructionSet,
    rt: &H,
    words: &[S],
    reader: &mut R,
    output: &mut W,
    errors: &mut E,
) -> Ended
    ensures { let old = streams (R.remaining reader.old) (W.contents output.old) (E.contents errors.old) in
        let new = streams (R.remaining reader.new) (W.contents output.new) (E.contents errors.new) in
        IsRunBy isa (told_of result.told) (map S.text words.now) old new result.status }
{
    match run(isa, rt, words, reader, output) {
        Ok(outcome) => Ended {
            told: tell_outcome(errors, &outcome),
            status: outcome.status(),
        },
        Err(failure) => Ended {
            told: report(errors, &failure),
            status: failure.status(),
        },
    }
}

/// Runs the program on these words, which are those after its name, and answers its status. It may wait for its streams and,
/// for `pack`, `show` and `run` without `--turns`, for its own two workers. What answers the other commands is given no way to
/// wait, so that it is seen to end.
///
/// Where reader and output tell their bytes, a 0 means that the answer to the text was written, a 1 that the text is refused
/// by the fault that is told, and a 2 that the words are refused before anything is read. On a 0 nothing is told but how many
/// cycles were added to a text that was drained. Of a check a 0 means that every block of the packets is the same as the text's,
/// so that they run as the text does, and a 5 that some block isn't. Of a check of loops a 0 means that each loop is done by the
/// packets, from as many trips on as are sure, and that nothing else is left of both. A 4 means that a stream failed: what was written is
/// nothing or a front of the answer.
pub fn run_tool<H: AllocGlobal + Threads + Wait + Sync, S: AsStr, R: Read, W: Write, E: Write>(
    isa: InstructionSet,
    rt: &H,
    words: &[S],
    reader: &mut R,
    output: &mut W,
    errors: &mut E,
) -> u8
    ensures { let old = streams (R.remaining reader.old) (W.contents output.old) (E.contents errors.old) in
        let new = streams (R.remaining reader.new) (W.contents output.new) (E.contents errors.new) in
        IsRun isa (map S.text words.now) old new result }
{
    run_telling(isa, rt, words, reader, output, errors).status
}

/// What a run wrote to its output and its error stream, and its status.
#[derive(Debug, Drop)]
pub struct Ran {
    pub output: Vec<u8>,
    pub errors: Vec<u8>,
    pub status: u8,
}

/// Runs the program on these bytes. A 4 means that a stream failed, as the output does where memory runs out.
pub fn run_on_bytes<H: AllocGlobal + Threads + Wait + Sync, S: AsStr>(
    isa: InstructionSet,
    rt: &H,
    words: &[S],
    input: &[u8],
) -> Ran
    ensures { IsRunOnBytes isa (map S.text words.now) input.now result.output.items result.errors.items result.status }
{
    let mut reader = input;
    let mut output = Vec::new(rt.alloc());
    let mut errors = Vec::new(rt.alloc());
    let status = run_tool(isa, rt, words, &mut reader, &mut output, &mut errors);
    Ran {
        output,
        errors,
        status,
    }
}
