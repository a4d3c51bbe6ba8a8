//! Runs a command of which something is kept: memory that goes to files, or a report of which is said that its run ended by its limit.

ghost use Rattle.std.specs.Prelude.{◌≡◌, true, IfOk, IfErr, OnOk, OnErr, map, string_bytes};
ghost use Rattle.std.specs.Io.KnownBytes.{Keeps};
ghost use Rattle.c62_answer.specs.Run.{streams};
ghost use Rattle.c62_dumping.specs.Cut.{files_of};
ghost use Rattle.c62_files.specs.Words.{texts};
ghost use Rattle.c62_files.specs.Writing.{AreBegun, AreWritten};
ghost use Rattle.c62_teach.specs.Words.{plain_words};
ghost use Rattle.c62_program.specs.Program.{HasBegun, IsDelivered, IsKeptFor, IsKeptOf, RunsDumping, is_plain};
ghost use Rattle.c62_program.specs.Trouble.{IsCountTrouble, IsTroubleDumping, IsTroubleWithCall, IsTroubleWritingTo, is_early};

use crate::program::{is_made, run_words};
use crate::trouble::Trouble;
use crate::written::status_behind;
use c62_answer::write_whole;
use c62_command::{CommandError, command_of};
use c62_dumping::{counts_asked, files_of, limit_note, limit_said, parted};
use c62_files::{Call, Folder, write_files};
use c62_op::InstructionSet;
use c62_teach::plain_words;
use std::alloc::{AllocError, Global};
use std::io::{Read, Write};
use std::sync::Wait;
use std::thread::Threads;

/// What is kept of a run.
#[derive(Debug, Drop)]
pub(crate) struct Kept {
    /// How many bytes go to each file.
    pub counts: Vec<usize>,
    /// What is said if the run ends by its limit.
    pub note: Vec<u8>,
}

/// What is kept of what the words ask for, where its answer goes to a file or not. None where the words are refused.
fn kept_of(alloc: Global, to_file: bool, words: &[&str]) -> Result<Option<Kept>, AllocError>
    ensures { IfOk result (IsKeptOf to_file (map (λ word. word.now) words.now)) }
{
    match command_of(alloc, words) {
        Ok(command) => Ok(Some(Kept {
            counts: counts_asked(alloc, &command)?,
            note: limit_note(alloc, to_file, &command)?,
        })),
        Err(CommandError::Memory) => Err(AllocError),
        Err(_) => Ok(None),
    }
}

/// What is kept where so many files are named that memory goes to. Of words that are refused nothing is: their run says why.
pub(crate) fn kept_for<'a>(
    alloc: Global,
    names: usize,
    to_file: bool,
    words: &[String],
) -> Result<Kept, Trouble<'a>>
    ensures ok { IfOk result (IsKeptFor names to_file (plain_words (map string_bytes words.now))) }
    ensures err { IfErr result (IsCountTrouble names (plain_words (map string_bytes words.now))) }
{
    let plain = plain_words(alloc, words)?;
    match kept_of(alloc, to_file, &plain)? {
        None => Ok(Kept {
            counts: Vec::new(alloc),
            note: Vec::new(alloc),
        }),
        Some(kept) => {
            if kept.counts.len() == names {
                Ok(kept)
            } else {
                Err(Trouble::LooseDump)
            }
        }
    }
}

/// Whether a call keeps nothing of which more would be said or written than the command does.
pub(crate) fn is_plain(dumps: &[&str], note: &[u8]) -> bool
    ensures { result ≡ is_plain (texts dumps.now) note.now }
{
    dumps.is_empty() && note.is_empty()
}

/// Writes memory to files of these names, each with as many of the bytes as its count says.
fn write_memory<'a, F: Folder>(
    alloc: Global,
    folder: &mut F,
    names: &[&'a str],
    counts: &[usize],
    bytes: &[u8],
) -> Result<(), Trouble<'a>>
    ensures ok { OnOk result (AreWritten (F.holds folder.old) (files_of (texts names.now) counts.now bytes.now) (F.holds folder.new)) }
    ensures begun { OnErr result (AreBegun (F.holds folder.old) (files_of (texts names.now) counts.now bytes.now) (F.holds folder.new)) }
    ensures why { IfErr result (IsTroubleDumping (texts names.now)) }
{
    let files = files_of(alloc, names, counts, bytes)?;
    match write_files(alloc, folder, &files) {
        Ok(()) => Ok(()),
        Err(unwritten) => Err(Trouble::of_writing(unwritten.name, unwritten.error)),
    }
}

/// Writes a report to where it goes: the output, or the file of this name. Answers the status.
fn deliver<'a, F: Folder, W: Write, E: Write>(
    alloc: Global,
    folder: &mut F,
    target: Option<&'a str>,
    report: &[u8],
    status: u8,
    output: &mut W,
    errors: &mut E,
) -> Result<u8, Trouble<'a>>
    ensures ok { IfOk result (IsDelivered (F.holds folder.old) (F.holds folder.new) target.entry report.now status
        (W.contents output.old) (W.contents output.new) (E.contents errors.old) (E.contents errors.new)) }
    ensures kept { OnErr result (F.holds folder.new ≡ F.holds folder.old) }
    ensures err { OnErr result (Keeps (W.contents output.old) (W.contents output.new)) }
    ensures why { IfErr result (IsTroubleWritingTo target.entry) }
{
    match target {
        None => {
            let written = write_whole(output, report);
            Ok(status_behind(written, status, errors))
        }
        Some(name) => match folder.replace(alloc, name, report) {
            Ok(()) => Ok(status),
            Err(error) => Err(Trouble::of_writing(name, error)),
        },
    }
}

/// Runs a command of which something is kept. What goes to the files of a call is written first, and the report then says that it is.
pub(crate) fn run_dumping<
    'a,
    H: AllocGlobal + Threads + Wait + Sync,
    F: Folder,
    R: Read,
    W: Write,
    E: Write,
>(
    isa: InstructionSet,
    rt: &H,
    folder: &mut F,
    words: &[String],
    call: &Call<'a>,
    kept: &Kept,
    input: &mut R,
    output: &mut W,
    errors: &mut E,
) -> Result<u8, Trouble<'a>>
    ensures ok { let old = streams (R.remaining input.old) (W.contents output.old) (E.contents errors.old) in
        let new = streams (R.remaining input.new) (W.contents output.new) (E.contents errors.new) in
        IfOk result (RunsDumping isa (F.holds folder.old) (F.holds folder.new) (map string_bytes words.now) call.now kept.now old new) }
    ensures err { IfErr result (λ _. Keeps (W.contents output.old) (W.contents output.new)) }
    ensures silent { IfErr result (λ trouble. is_early trouble ≡ true → Keeps (E.contents errors.old) (E.contents errors.new)) }
    ensures kept { OnErr result (HasBegun (F.holds folder.old) (F.holds folder.new) (texts call.now.dumps.items)) }
    ensures why { IfErr result (IsTroubleWithCall call.now) }
{
    let mut answer = Vec::new(rt.alloc());
    let status = run_words(
        isa,
        rt,
        folder,
        words,
        call.source,
        input,
        &mut answer,
        errors,
    )?;
    if !is_made(words, status) {
        return Ok(status);
    }
    let (report, memory) = parted(&answer, &kept.counts);
    let _ = write_whole(errors, limit_said(&kept.note, report));
    write_memory(rt.alloc(), folder, &call.dumps, &kept.counts, memory)?;
    deliver(
        rt.alloc(),
        folder,
        call.target,
        report,
        status,
        output,
        errors,
    )
}
