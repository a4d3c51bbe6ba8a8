//! The program over files and streams.

ghost use Rattle.std.specs.Prelude.{◌≡◌, ◌⊎◌, None, Some, IfOk, IfErr, OnErr, true, false, map, string_bytes};
ghost use Rattle.std.specs.Io.KnownBytes.{Keeps};
ghost use Rattle.c62_answer.specs.Run.{streams};
ghost use Rattle.c62_files.specs.Call.{is_standard, text_source};
ghost use Rattle.c62_files.specs.Words.{texts};
ghost use Rattle.c62_answer.specs.Message.{Tells};
ghost use Rattle.c62_program.specs.Whole.{IsProgramRun};
ghost use Rattle.c62_program.specs.Trouble.{HasCallTrouble, IsTroubleWith, IsTroubleWithRun, IsTroubleWithSource, Says, is_early, status_of};
ghost use Rattle.c62_program.specs.Page.{page_asked, page_text};
ghost use Rattle.c62_program.specs.Teaching.{is_topic};
ghost use Rattle.c62_tracing.specs.Words.{is_traced};
ghost use Rattle.c62_drawing.specs.declared.run.Traced.TheVariants.{Nothing};
ghost use Rattle.c62_program.specs.Written.{IsWritten};
ghost use Rattle.c62_program.specs.Program.{AreParts, HasBegun, IsGiven, IsHeld, EndsCall, IsRefused, RunsCall, RunsFrom, RunsTarget, RunsTo, RunsWords, is_made};

use crate::dumping::{is_plain, kept_for, run_dumping};
use crate::ended::Ended;
use crate::joined::joined;
use crate::page::{Page, page_asked, write_page};
use crate::teaching::{run_lint, run_told};
use crate::topic::{is_topic, run_topic};
use crate::tracing::run_traced;
use crate::trouble::{Trouble, report};
use crate::written::status_behind;
use c62_answer::{InputError, MOST_BYTES, read_text, run_tool};
use c62_command::{CommandError, command_of};
use c62_drawing::Traced;
use c62_files::{Call, Folder, Source, call_of, expanded};
use c62_op::InstructionSet;
use c62_teach::{is_explained, is_lint, is_strict, is_watched, names_memory};
use c62_tracing::is_traced;
use std::alloc::{AllocError, Global};
use std::convert::AsStr;
use std::io::{Read, Write};
use std::sync::Wait;
use std::thread::Threads;

/// The bytes of the file of this name, or of standard input where it is `-`, but no more than one past the limit of all texts.
fn part_of<'a, F: Folder, R: Read>(
    alloc: Global,
    folder: &F,
    name: &'a str,
    input: &mut R,
) -> Result<Vec<u8>, Trouble<'a>>
    ensures held { IfOk result (λ bytes. IsHeld (F.holds folder.now) (R.remaining input.old) name.entry.now bytes.items) }
    ensures unread { is_standard name.entry.now ≡ false → R.remaining input.new ≡ R.remaining input.old }
    ensures err { IfErr result (IsTroubleWith name.entry.now) }
{
    if name == "-" {
        match read_text(alloc, input, MOST_BYTES) {
            Ok(text) => Ok(text),
            Err(InputError::Memory) => Err(Trouble::Memory),
            Err(InputError::Input) => Err(Trouble::Input),
        }
    } else {
        match folder.read(alloc, name, MOST_BYTES) {
            Ok(text) => Ok(text),
            Err(error) => Err(Trouble::of_reading(name, error)),
        }
    }
}

/// The stream of a check that two names stand for.
fn parts_of<'a, F: Folder, R: Read>(
    alloc: Global,
    folder: &F,
    text: &'a str,
    listing: &'a str,
    input: &mut R,
) -> Result<Vec<u8>, Trouble<'a>>
    ensures ok { IfOk result (λ bytes. AreParts (F.holds folder.now) (R.remaining input.old) text.entry.now listing.entry.now bytes.items) }
    ensures err { IfErr result (λ trouble. IsTroubleWith text.entry.now trouble ⊎ IsTroubleWith listing.entry.now trouble) }
{
    let text = part_of(alloc, folder, text, input)?;
    let listing = part_of(alloc, folder, listing, input)?;
    Ok(joined(alloc, &text, &listing)?)
}

/// The bytes that a source gives.
pub(crate) fn given<'a, F: Folder, R: Read>(
    alloc: Global,
    folder: &F,
    source: Source<'a>,
    input: &mut R,
) -> Result<Vec<u8>, Trouble<'a>>
    ensures ok { IfOk result (λ bytes. IsGiven (F.holds folder.now) (R.remaining input.old) (text_source source.entry) bytes.items) }
    ensures err { IfErr result (IsTroubleWithSource (text_source source.entry)) }
{
    match source {
        Source::Standard | Source::Named(_, _) => part_of(alloc, folder, "-", input),
        Source::File(name) => part_of(alloc, folder, name, input),
        Source::Parts(text, listing) => parts_of(alloc, folder, text, listing, input),
    }
}

/// Whether a command was asked for by words: where it wasn't, they are refused.
fn is_asked(alloc: Global, words: &[String]) -> Result<bool, AllocError>
    ensures { IfOk result (λ asked. asked ≡ false → IsRefused (map string_bytes words.now)) }
{
    match command_of(alloc, words) {
        Ok(_) => Ok(true),
        Err(CommandError::Memory) => Err(AllocError),
        Err(_) => Ok(false),
    }
}

/// Runs a command on what its source gives. Files are read only where the words ask for something.
fn run_from<'a, H: AllocGlobal + Threads + Wait + Sync, F: Folder, R: Read, W: Write, E: Write>(
    isa: InstructionSet,
    rt: &H,
    folder: &F,
    words: &[String],
    source: Source<'a>,
    input: &mut R,
    output: &mut W,
    errors: &mut E,
) -> Result<u8, Trouble<'a>>
    ensures ok { let old = streams (R.remaining input.old) (W.contents output.old) (E.contents errors.old) in
        let new = streams (R.remaining input.new) (W.contents output.new) (E.contents errors.new) in
        IfOk result (RunsFrom isa (F.holds folder.now) (map string_bytes words.now) (text_source source.entry) old new) }
    ensures err { IfErr result (λ _. Keeps (W.contents output.old) (W.contents output.new)) }
    ensures silent { IfErr result (λ _. Keeps (E.contents errors.old) (E.contents errors.new)) }
    ensures why { IfErr result (IsTroubleWithSource (text_source source.entry)) }
{
    if let Source::Standard = source {
        return Ok(run_tool(isa, rt, words, input, output, errors));
    }
    if !is_asked(rt.alloc(), words)? {
        return Ok(run_tool(isa, rt, words, input, output, errors));
    }
    let bytes = given(rt.alloc(), folder, source, input)?;
    let mut text = bytes.as_slice();
    Ok(run_tool(isa, rt, words, &mut text, output, errors))
}

/// Does what words ask for on what their source gives: `lint`, or a command of which more is told or not.
#[tactic(auto)]
pub(crate) fn run_words<
    'a,
    H: AllocGlobal + Threads + Wait + Sync,
    F: Folder,
    R: Read,
    W: Write,
    E: Write,
>(
    isa: InstructionSet,
    rt: &H,
    folder: &F,
    words: &[String],
    source: Source<'a>,
    input: &mut R,
    output: &mut W,
    errors: &mut E,
) -> Result<u8, Trouble<'a>>
    ensures ok { let old = streams (R.remaining input.old) (W.contents output.old) (E.contents errors.old) in
        let new = streams (R.remaining input.new) (W.contents output.new) (E.contents errors.new) in
        IfOk result (RunsWords isa (F.holds folder.now) (map string_bytes words.now) (text_source source.entry) old new) }
    ensures err { IfErr result (λ _. Keeps (W.contents output.old) (W.contents output.new)) }
    ensures silent { IfErr result (λ _. Keeps (E.contents errors.old) (E.contents errors.new)) }
    ensures why { IfErr result (IsTroubleWithSource (text_source source.entry)) }
{
    if is_lint(words) {
        return Ok(run_lint(isa, rt, folder, words, source, input, output, errors)?);
    }
    if is_explained(words) || is_strict(words) || is_watched(words) || names_memory(words) {
        return Ok(run_told(isa, rt, folder, words, source, input, output, errors)?);
    }
    Ok(run_from(isa, rt, folder, words, source, input, output, errors)?)
}

/// Whether a run of these words that ends with this status made an answer.
pub(crate) fn is_made(words: &[String], status: u8) -> bool
    ensures { result ≡ is_made (map string_bytes words.now) status }
{
    status == 0 || status >= 5 || is_lint(words) && status == 1
}

/// Runs a command whose answer goes to the file of this name.
fn run_to<'a, H: AllocGlobal + Threads + Wait + Sync, F: Folder, R: Read, E: Write>(
    isa: InstructionSet,
    rt: &H,
    folder: &mut F,
    words: &[String],
    source: Source<'a>,
    target: &'a str,
    input: &mut R,
    errors: &mut E,
) -> Result<u8, Trouble<'a>>
    ensures ok { let old = streams (R.remaining input.old) None (E.contents errors.old) in
        let new = streams (R.remaining input.new) None (E.contents errors.new) in
        IfOk result (RunsTo isa (F.holds folder.old) (F.holds folder.new) (map string_bytes words.now) (text_source source.entry) target.entry.now old new) }
    ensures silent { IfErr result (λ trouble. is_early trouble ≡ true → Keeps (E.contents errors.old) (E.contents errors.new)) }
    ensures kept { OnErr result (F.holds folder.new ≡ F.holds folder.old) }
    ensures why { IfErr result (IsTroubleWithRun (text_source source.entry) (Some target.entry)) }
{
    let mut answer = Vec::new(rt.alloc());
    let status = run_words(isa, rt, folder, words, source, input, &mut answer, errors)?;
    if !is_made(words, status) {
        return Ok(status);
    }
    match folder.replace(rt.alloc(), target, &answer) {
        Ok(()) => Ok(status),
        Err(error) => Err(Trouble::of_writing(target, error)),
    }
}

/// Runs a command whose answer goes to the output, or to the file of this name.
fn run_target<'a, H: AllocGlobal + Threads + Wait + Sync, F: Folder, R: Read, W: Write, E: Write>(
    isa: InstructionSet,
    rt: &H,
    folder: &mut F,
    words: &[String],
    call: &Call<'a>,
    input: &mut R,
    output: &mut W,
    errors: &mut E,
) -> Result<u8, Trouble<'a>>
    ensures ok { let old = streams (R.remaining input.old) (W.contents output.old) (E.contents errors.old) in
        let new = streams (R.remaining input.new) (W.contents output.new) (E.contents errors.new) in
        IfOk result (RunsTarget isa (F.holds folder.old) (F.holds folder.new) (map string_bytes words.now) (text_source call.now.source) call.now.target old new) }
    ensures err { IfErr result (λ _. Keeps (W.contents output.old) (W.contents output.new)) }
    ensures silent { IfErr result (λ trouble. is_early trouble ≡ true → Keeps (E.contents errors.old) (E.contents errors.new)) }
    ensures kept { OnErr result (F.holds folder.new ≡ F.holds folder.old) }
    ensures why { IfErr result (IsTroubleWithRun (text_source call.now.source) call.now.target) }
{
    match call.target {
        None => run_words(isa, rt, folder, words, call.source, input, output, errors),
        Some(target) => run_to(isa, rt, folder, words, call.source, target, input, errors),
    }
}

/// Does what a call asks for.
fn run_call<'a, H: AllocGlobal + Threads + Wait + Sync, F: Folder, R: Read, W: Write, E: Write>(
    isa: InstructionSet,
    rt: &H,
    folder: &mut F,
    call: &Call<'a>,
    input: &mut R,
    output: &mut W,
    errors: &mut E,
) -> Result<u8, Trouble<'a>>
    ensures ok { let old = streams (R.remaining input.old) (W.contents output.old) (E.contents errors.old) in
        let new = streams (R.remaining input.new) (W.contents output.new) (E.contents errors.new) in
        IfOk result (RunsCall isa (F.holds folder.old) (F.holds folder.new) call.now old new) }
    ensures err { IfErr result (λ _. Keeps (W.contents output.old) (W.contents output.new)) }
    ensures silent { IfErr result (λ trouble. is_early trouble ≡ true → Keeps (E.contents errors.old) (E.contents errors.new)) }
    ensures kept { OnErr result (HasBegun (F.holds folder.old) (F.holds folder.new) (texts call.now.dumps.items)) }
    ensures why { IfErr result (HasCallTrouble (F.holds folder.old) call.now) }
{
    let words = match expanded(rt.alloc(), folder, &call.words) {
        Ok(words) => words,
        Err(error) => return Err(Trouble::of_words(error)),
    };
    let kept = kept_for(rt.alloc(), call.dumps.len(), call.target.is_some(), &words)?;
    if is_plain(&call.dumps, &kept.note) {
        return run_target(isa, rt, folder, &words, call, input, output, errors);
    }
    run_dumping(isa, rt, folder, &words, call, &kept, input, output, errors)
}

/// Prints a page, and answers the status.
#[tactic(auto, using(crate::proofs::Writing::is_written))]
fn print_page<W: Write, E: Write>(page: Page, output: &mut W, errors: &mut E) -> u8
    ensures { IsWritten (page_text page) 0 (W.contents output.old) (W.contents output.new) (E.contents errors.old) (E.contents errors.new) result }
{
    let written = write_page(output, page);
    status_behind(written, 0, errors)
}

/// Says what the trouble is, and answers its status.
#[tactic(auto, using(crate::proofs::Failing::says_told))]
pub(crate) fn give_up<E: Write>(trouble: &Trouble<'_>, errors: &mut E) -> u8
    ensures status { result ≡ status_of trouble.now }
    ensures said { Says Tells trouble.now (E.contents errors.old) (E.contents errors.new) }
{
    let _ = report(errors, trouble);
    trouble.status()
}

/// Does what a call asks for, or says what the trouble is.
pub(crate) fn end_call<
    'a,
    H: AllocGlobal + Threads + Wait + Sync,
    F: Folder,
    R: Read,
    W: Write,
    E: Write,
>(
    isa: InstructionSet,
    rt: &H,
    folder: &mut F,
    call: &Call<'a>,
    input: &mut R,
    output: &mut W,
    errors: &mut E,
) -> u8
    ensures { let old = streams (R.remaining input.old) (W.contents output.old) (E.contents errors.old) in
        let new = streams (R.remaining input.new) (W.contents output.new) (E.contents errors.new) in
        EndsCall isa (F.holds folder.old) (F.holds folder.new) call.now old new result }
{
    match run_call(isa, rt, folder, call, input, output, errors) {
        Ok(status) => status,
        Err(trouble) => give_up(&trouble, errors),
    }
}

/// Does what words ask for that name neither a page nor a topic, and no trace.
fn run_others<
    H: AllocGlobal + Threads + Wait + Sync,
    F: Folder,
    S: AsStr,
    R: Read,
    W: Write,
    E: Write,
>(
    isa: InstructionSet,
    rt: &H,
    folder: &mut F,
    words: &[S],
    input: &mut R,
    output: &mut W,
    errors: &mut E,
) -> u8
    requires page { page_asked (map S.text words.now) ≡ None }
    requires topic { is_topic (map S.text words.now) ≡ false }
    requires traced { is_traced (map S.text words.now) ≡ false }
    ensures { let old = streams (R.remaining input.old) (W.contents output.old) (E.contents errors.old) in
        let new = streams (R.remaining input.new) (W.contents output.new) (E.contents errors.new) in
        IsProgramRun isa (F.holds folder.old) (F.holds folder.new) (map S.text words.now) old new result Nothing }
{
    let call = match call_of(rt.alloc(), words) {
        Ok(call) => call,
        Err(error) => return give_up(&Trouble::NoCall(error), errors),
    };
    match run_call(isa, rt, folder, &call, input, output, errors) {
        Ok(status) => status,
        Err(trouble) => give_up(&trouble, errors),
    }
}

/// Runs the program by this set of instructions on words that name no set.
pub(crate) fn run_with<
    H: AllocGlobal + Threads + Wait + Sync,
    F: Folder,
    S: AsStr,
    R: Read,
    W: Write,
    E: Write + Drop,
>(
    isa: InstructionSet,
    rt: &H,
    folder: &mut F,
    words: &[S],
    input: &mut R,
    output: &mut W,
    errors: E,
) -> Ended<E>
    ensures { let old = streams (R.remaining input.old) (W.contents output.old) (E.contents errors) in
        let new = streams (R.remaining input.new) (W.contents output.new) (E.contents result.errors) in
        IsProgramRun isa (F.holds folder.old) (F.holds folder.new) (map S.text words.now) old new result.status result.traced }
{
    let mut errors = errors;
    if let Some(page) = page_asked(words) {
        let status = print_page(page, output, &mut errors);
        return Ended {
            errors,
            status,
            traced: Traced::Nothing,
        };
    }
    if is_topic(words) {
        let status = run_topic(rt.alloc(), words, output, &mut errors);
        return Ended {
            errors,
            status,
            traced: Traced::Nothing,
        };
    }
    if is_traced(words) {
        return run_traced(isa, rt, folder, words, input, output, errors);
    }
    let status = run_others(isa, rt, folder, words, input, output, &mut errors);
    Ended {
        errors,
        status,
        traced: Traced::Nothing,
    }
}
