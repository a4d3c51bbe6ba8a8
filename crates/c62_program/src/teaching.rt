//! Runs `lint`, and commands of which more is told.

ghost use Rattle.std.specs.Prelude.{◌≡◌, ℕ, List, [], Option, Some, IfOk, IfErr, map, string_bytes, if◌then◌else◌};
ghost use Rattle.std.specs.Io.KnownBytes.{Keeps};
ghost use Rattle.c62_answer.specs.Run.{streams};
ghost use Rattle.c62_files.specs.Call.{text_source};
ghost use Rattle.c62_command.specs.CommandLine.{ask_of, ask_told};
ghost use Rattle.c62_command.specs.declared.command.CommandError.TheVariants.{Setting};
ghost use Rattle.c62_program.specs.Program.{IsAsked, RunsLint, RunsTold, is_memory_setting, refusal_taught};
ghost use Rattle.c62_program.specs.Trouble.{IsTroubleWithSource};
ghost use Rattle.c62_program.specs.Teaching.{AreTold, IsLintRun, RunsMore, TeachesWanted, behind_text, behind_words, listing_name, status_by, status_with, text_name};

use crate::page::LINT;
use crate::program::given;
use crate::trouble::Trouble;
use crate::written::status_behind;
use c62_answer::{run_tool, write_whole};
use c62_command::{Command, CommandError, Request, command_of, setting_at};
use c62_files::{Folder, Source};
use c62_op::InstructionSet;
use c62_teach::{
    Linted, Names, Watched, apart_told, faults_told, is_explained, is_of_memory, lint_blame,
    lint_text, linting_of, plain_words, setting_taught, taught,
};
use std::alloc::{AllocError, Global};
use std::io::{Read, Write};
use std::sync::Wait;
use std::thread::Threads;

/// What the texts of a source are called in what is told of them: standard input is `-`.
fn names_of<'a>(source: Source<'a>) -> Names<'a>
    ensures text { result.text.now ≡ text_name (text_source source.entry) }
    ensures listing { result.listing.now ≡ listing_name (text_source source.entry) }
{
    match source {
        Source::Standard => Names {
            text: "-",
            listing: "-",
        },
        Source::File(name) => Names {
            text: name,
            listing: name,
        },
        Source::Named(text, listing) | Source::Parts(text, listing) => Names { text, listing },
    }
}

/// The status of `lint` where there is a fault, or none.
fn status_by(faulty: bool) -> u8
    ensures { result ≡ status_by faulty }
{
    if faulty { 1 } else { 0 }
}

/// Writes what `lint` finds, and answers its status.
#[tactic(auto, using(crate::proofs::Writing::is_written))]
fn print_lines<W: Write, E: Write>(linted: &Linted, output: &mut W, errors: &mut E) -> u8
    ensures { IsLintRun linted.now.lines.items linted.now.faulty (W.contents output.old) (W.contents output.new)
        (E.contents errors.old) (E.contents errors.new) result }
{
    let written = write_whole(output, &linted.lines);
    status_behind(written, status_by(linted.faulty), errors)
}

/// Runs `lint` on what its source gives.
#[tactic(auto, using(crate::proofs::Taught::lint_refused, crate::proofs::Taught::lint_found))]
pub fn run_lint<'a, H: AllocGlobal, F: Folder, R: Read, W: Write, E: Write>(
    isa: InstructionSet,
    rt: &H,
    folder: &F,
    words: &[String],
    source: Source<'a>,
    input: &mut R,
    output: &mut W,
    errors: &mut E,
) -> Result<u8, Trouble<'a>>
    ensures ok { let old = streams (R.remaining input.old) (W.contents output.old) (E.contents errors.old) in
        let new = streams (R.remaining input.new) (W.contents output.new) (E.contents errors.new) in
        IfOk result (RunsLint isa (F.holds folder.now) (map string_bytes words.now) (text_source source.entry) old new) }
    ensures err { IfErr result (λ _. Keeps (W.contents output.old) (W.contents output.new)) }
    ensures silent { IfErr result (λ _. Keeps (E.contents errors.old) (E.contents errors.new)) }
    ensures why { IfErr result (IsTroubleWithSource (text_source source.entry)) }
{
    let wanted = linting_of(rt.alloc(), words)?;
    let Some(linting) = wanted else {
        let mut why = lint_blame(rt.alloc(), words)?;
        why.extend_from_slice(LINT.as_bytes())?;
        let _ = write_whole(errors, &why);
        return Ok(2);
    };
    let bytes = given(rt.alloc(), folder, source, input)?;
    let found = lint_text(
        isa,
        rt.alloc(),
        linting,
        names_of(source).text.as_bytes(),
        &bytes,
    )?;
    Ok(print_lines(&found, output, errors))
}

/// What words ask for, or what explains why they ask for nothing.
#[derive(Drop)]
enum Asked {
    Known(Command),
    Unknown(Vec<u8>),
}

/// Whether the setting of this number is one for which an option of memory stands.
fn is_memory_setting(alloc: Global, words: &[&str], number: usize) -> Result<bool, AllocError>
    ensures { IfOk result (λ is. is ≡ is_memory_setting (map (λ word. word.now) words.now) number) }
{
    match setting_at(alloc, words, number)? {
        Some(word) => Ok(is_of_memory(word)),
        None => Ok(false),
    }
}

/// What explains why this setting is none, where that is wanted, or an option of memory stands for it.
fn setting_told(
    alloc: Global,
    wanted: bool,
    words: &[&str],
    number: usize,
) -> Result<Vec<u8>, AllocError>
    ensures { IfOk result (λ more. more.items ≡ refusal_taught wanted (map (λ word. word.now) words.now) (Setting number)) }
{
    let of_memory = is_memory_setting(alloc, words, number)?;
    if wanted || of_memory {
        setting_taught(alloc, words, number)
    } else {
        Ok(Vec::new(alloc))
    }
}

/// What words ask for; where they ask for nothing, they are refused.
#[tactic(auto, using(crate::proofs::Taught::refused_setting, crate::proofs::Taught::refused_promise, crate::proofs::Taught::refused_excluded, crate::proofs::Taught::refused_words))]
fn asked_of(alloc: Global, wanted: bool, words: &[&str]) -> Result<Asked, AllocError>
    ensures { IfOk result (IsAsked wanted (map (λ word. word.now) words.now)) }
{
    match command_of(alloc, words) {
        Ok(command) => Ok(Asked::Known(command)),
        Err(CommandError::Memory) => Err(AllocError),
        Err(CommandError::Setting(number)) => Ok(Asked::Unknown(setting_told(
            alloc, wanted, words, number,
        )?)),
        Err(CommandError::Promise(_)) => Ok(Asked::Unknown(Vec::new(alloc))),
        Err(CommandError::Excluded(_)) => Ok(Asked::Unknown(Vec::new(alloc))),
        Err(CommandError::Words(_)) => Ok(Asked::Unknown(Vec::new(alloc))),
    }
}

/// What is told behind words that are refused with this status.
fn behind_words(blamed: &[u8], status: u8) -> &[u8]
    ensures { result.now ≡ behind_words blamed.now status }
{
    match status {
        2 => blamed,
        _ => &[],
    }
}

/// Runs a command whose words ask for nothing, and tells more of why.
fn run_nothing<H: AllocGlobal + Threads + Wait + Sync, R: Read, W: Write, E: Write>(
    isa: InstructionSet,
    rt: &H,
    words: &[&str],
    blamed: &[u8],
    input: &mut R,
    output: &mut W,
    errors: &mut E,
) -> u8
    ensures { let old = streams (R.remaining input.old) (W.contents output.old) (E.contents errors.old) in
        let new = streams (R.remaining input.new) (W.contents output.new) (E.contents errors.new) in
        RunsMore isa (map (λ word. word.now) words.now) (behind_words blamed.now) old new result }
{
    let status = run_tool(isa, rt, words, input, output, errors);
    let _ = write_whole(errors, behind_words(blamed, status));
    status
}

/// What is told of a text.
#[derive(Drop)]
struct Told {
    /// Why it is refused, or what is told of a difference.
    refused: Vec<u8>,
    /// Where accesses meet that are to be apart.
    apart: Watched,
    /// The same, and behind it which accesses fault.
    faulted: Vec<u8>,
}

impl Told {
    /// What is told behind a run with this status.
    fn behind(&self, status: u8) -> &[u8]
        ensures { result.now ≡ behind_text self.now.refused.items self.now.apart.lines.items self.now.faulted.items status }
    {
        match status {
            0 | 6 => &self.apart.lines,
            1 | 5 => &self.refused,
            7 => &self.faulted,
            _ => &[],
        }
    }

    /// The status of a run that would have this one.
    fn status(&self, status: u8) -> u8
        ensures { result ≡ status_with self.now.apart.meets status }
    {
        if self.apart.meets && status == 0 {
            5
        } else {
            status
        }
    }
}

/// What explains why a text is refused, where that is wanted.
fn refusal_told(
    isa: InstructionSet,
    alloc: Global,
    wanted: bool,
    request: &Request,
    names: Names<'_>,
    text: &[u8],
) -> Result<Vec<u8>, AllocError>
    ensures { IfOk result (λ more. TeachesWanted isa wanted (ask_of request.now) names.entry.text.now names.entry.listing.now text.now more.items) }
{
    if wanted {
        taught(isa, alloc, request, names, text)
    } else {
        Ok(Vec::new(alloc))
    }
}

/// What is told of a text, for what a request asks of it.
fn request_told(
    isa: InstructionSet,
    alloc: Global,
    explained: bool,
    request: &Request,
    names: Names<'_>,
    text: &[u8],
) -> Result<Told, AllocError>
    ensures { IfOk result (λ told. AreTold isa explained (ask_of request.now) names.entry.text.now names.entry.listing.now text.now
        told.refused.items told.apart.lines.items told.faulted.items told.apart.meets) }
{
    let refused = refusal_told(isa, alloc, explained, request, names, text)?;
    let apart = apart_told(isa, alloc, request, text)?;
    let mut faulted = Vec::from_slice(alloc, &apart.lines)?;
    faulted.extend_from_slice(&faults_told(isa, alloc, request, text)?)?;
    Ok(Told {
        refused,
        apart,
        faulted,
    })
}

/// What is told of a text, for what is asked of it.
#[tactic(auto, using(crate::proofs::Taught::told_so))]
fn told_of(
    isa: InstructionSet,
    alloc: Global,
    explained: bool,
    command: &Command,
    names: Names<'_>,
    text: &[u8],
) -> Result<Told, AllocError>
    ensures { IfOk result (λ told. AreTold isa explained (ask_told command.now) names.entry.text.now names.entry.listing.now text.now
        told.refused.items told.apart.lines.items told.faulted.items told.apart.meets) }
{
    request_told(isa, alloc, explained, &command.request, names, text)
}

/// Runs a command on these bytes, and tells more of them behind it.
fn run_on<H: AllocGlobal + Threads + Wait + Sync, W: Write, E: Write>(
    isa: InstructionSet,
    rt: &H,
    words: &[&str],
    bytes: &[u8],
    told: &Told,
    output: &mut W,
    errors: &mut E,
) -> u8
    ensures { (left : Option (List ℕ)) × RunsMore isa (map (λ word. word.now) words.now)
        (behind_text told.now.refused.items told.now.apart.lines.items told.now.faulted.items)
        (streams (Some bytes.now) (W.contents output.old) (E.contents errors.old))
        (streams left (W.contents output.new) (E.contents errors.new)) result }
{
    let mut text = bytes;
    let status = run_tool(isa, rt, words, &mut text, output, errors);
    let _ = write_whole(errors, told.behind(status));
    status
}

/// Runs a command on what its source gives. Where that is asked for, it tells more behind a text that is refused and packets that aren't the
/// same. It tells more behind a serial run where accesses meet that are to be apart, and behind a strict run the accesses that fault. Files are
/// read only where the words ask for something.
pub fn run_told<'a, H: AllocGlobal + Threads + Wait + Sync, F: Folder, R: Read, W: Write, E: Write>(
    isa: InstructionSet,
    rt: &H,
    folder: &F,
    words: &[String],
    source: Source<'a>,
    input: &mut R,
    output: &mut W,
    errors: &mut E,
) -> Result<u8, Trouble<'a>>
    ensures ok { let old = streams (R.remaining input.old) (W.contents output.old) (E.contents errors.old) in
        let new = streams (R.remaining input.new) (W.contents output.new) (E.contents errors.new) in
        IfOk result (RunsTold isa (F.holds folder.now) (map string_bytes words.now) (text_source source.entry) old new) }
    ensures err { IfErr result (λ _. Keeps (W.contents output.old) (W.contents output.new)) }
    ensures silent { IfErr result (λ _. Keeps (E.contents errors.old) (E.contents errors.new)) }
    ensures why { IfErr result (IsTroubleWithSource (text_source source.entry)) }
{
    let explained = is_explained(words);
    let plain = plain_words(rt.alloc(), words)?;
    match asked_of(rt.alloc(), explained, &plain)? {
        Asked::Unknown(more) => Ok(run_nothing(isa, rt, &plain, &more, input, output, errors)),
        Asked::Known(command) => {
            let bytes = given(rt.alloc(), folder, source, input)?;
            let told = told_of(
                isa,
                rt.alloc(),
                explained,
                &command,
                names_of(source),
                &bytes,
            )?;
            let status = run_on(isa, rt, &plain, &bytes, &told, output, errors);
            Ok(told.status(status))
        }
    }
}
