//! Labels that begin with a dot, which a call asks for (docs/SERIAL_TEXT.md, "Labels of GNU's compilers").

ghost use Rattle.std.specs.Prelude.{◌≡◌, IfOk, IfErr, false, map, option_map, string_bytes};
ghost use Rattle.c62_answer.specs.Message.{Tells};
ghost use Rattle.c62_answer.specs.Run.{streams};
ghost use Rattle.c62_files.specs.Call.{text_source};
ghost use Rattle.c62_program.specs.Labels.{AsksNothing, IsLabelledRun, IsReadRun, IsRenamed, IsTextRelabelled, RunsLabelled};
ghost use Rattle.c62_program.specs.Trouble.{IsTroubleWithSource};

use crate::ended::Ended;
use crate::joined::joined;
use crate::page::LABELS;
use crate::program::{give_up, given, run_with};
use crate::tracing::{answer_call, bytes_of, command_for, tell_trouble};
use crate::trouble::Trouble;
use c62_answer::{parts_of, write_whole};
use c62_drawing::Traced;
use c62_files::{Call, Folder, Source, call_of, expanded};
use c62_gnu_labels::{asks_labels, other_words, relabelled};
use c62_op::InstructionSet;
use c62_teach::{is_lint, linting_of};
use std::alloc::{AllocError, Global};
use std::convert::AsStr;
use std::io::{Read, Write};
use std::sync::Wait;
use std::thread::Threads;

/// Whether words ask for something that is done with a text.
#[tactic(auto, using(crate::proofs::Labelled::no_lint, crate::proofs::Labelled::no_command))]
fn asks_text(alloc: Global, words: &[String]) -> Result<bool, AllocError>
    ensures { IfOk result (λ asks. asks ≡ false → AsksNothing (map string_bytes words.now)) }
{
    if is_lint(words) {
        match linting_of(alloc, words)? {
            Some(_) => Ok(true),
            None => Ok(false),
        }
    } else {
        match command_for(alloc, words)? {
            Some(_) => Ok(true),
            None => Ok(false),
        }
    }
}

/// A text with its labels relabelled. Of a check this is so of the text alone: its listing has the names that were written.
#[tactic(auto, using(crate::proofs::Labelled::whole_renamed))]
fn renamed(alloc: Global, text: &[u8]) -> Result<Vec<u8>, AllocError>
    ensures { IfOk result (λ named. IsRenamed text.now named.items) }
{
    match parts_of(text) {
        Some(parts) => {
            let front = relabelled(alloc, parts.text)?;
            Ok(joined(alloc, &front, parts.listing)?)
        }
        None => Ok(relabelled(alloc, text)?),
    }
}

/// What a source gives, with its labels relabelled; none where the words ask for nothing.
#[tactic(auto, using(crate::proofs::Failing::memory_with, crate::proofs::Labelled::nothing_relabelled, crate::proofs::Labelled::text_relabelled))]
fn text_relabelled<'a, F: Folder, R: Read>(
    alloc: Global,
    folder: &F,
    words: &[String],
    source: Source<'a>,
    input: &mut R,
) -> Result<Option<Vec<u8>>, Trouble<'a>>
    ensures ok { IfOk result (λ text. IsTextRelabelled (F.holds folder.now) (map string_bytes words.now) (text_source source.entry)
        (R.remaining input.old) (R.remaining input.new) (option_map (λ bytes. bytes.items) text)) }
    ensures err { IfErr result (IsTroubleWithSource (text_source source.entry)) }
{
    if !asks_text(alloc, words)? {
        return Ok(None);
    }
    let text = given(alloc, folder, source, input)?;
    Ok(Some(renamed(alloc, &text)?))
}

/// Does what a call asks for with the labels of its text relabelled. Answers the status.
fn run_labelled<'a, H: AllocGlobal + Threads + Wait + Sync, F: Folder, R: Read, W: Write, E: Write>(
    isa: InstructionSet,
    rt: &H,
    folder: &mut F,
    call: &Call<'a>,
    input: &mut R,
    output: &mut W,
    errors: &mut E,
) -> u8
    ensures { let old = streams (R.remaining input.old) (W.contents output.old) (E.contents errors.old) in
        let new = streams (R.remaining input.new) (W.contents output.new) (E.contents errors.new) in
        RunsLabelled isa (F.holds folder.old) (F.holds folder.new) call.now old new result }
{
    let words = match expanded(rt.alloc(), folder, &call.words) {
        Ok(words) => words,
        Err(error) => return give_up(&Trouble::of_words(error), errors),
    };
    let text = match text_relabelled(rt.alloc(), folder, &words, call.source, input) {
        Ok(text) => text,
        Err(trouble) => return give_up(&trouble, errors),
    };
    let text = bytes_of(&text);
    answer_call(isa, rt, folder, call, &words, text, input, output, errors)
}

/// Says how labels are asked for.
fn tell_labels<E: Write>(errors: E) -> Ended<E>
    ensures status { result.status ≡ 2 }
    ensures said { Tells (E.contents errors) (E.contents result.errors) LABELS.now }
{
    let mut errors = errors;
    let _ = write_whole(&mut errors, LABELS.as_bytes());
    Ended {
        errors,
        status: 2,
        traced: Traced::Nothing,
    }
}

/// Does what words ask for that ask for such labels too.
fn run_by_labels<
    H: AllocGlobal + Threads + Wait + Sync,
    F: Folder,
    S: AsStr,
    R: Read,
    W: Write,
    E: Write + Drop,
>(
    isa: InstructionSet,
    rt: &H,
    folder: &mut F,
    words: &[S],
    input: &mut R,
    output: &mut W,
    errors: E,
) -> Ended<E>
    ensures { let old = streams (R.remaining input.old) (W.contents output.old) (E.contents errors) in
        let new = streams (R.remaining input.new) (W.contents output.new) (E.contents result.errors) in
        IsLabelledRun isa (F.holds folder.old) (F.holds folder.new) (map S.text words.now) old new result.status result.traced }
{
    let others = match other_words(rt.alloc(), words) {
        Ok(Some(others)) => others,
        Ok(None) => return tell_labels(errors),
        Err(_) => return tell_trouble(&Trouble::Memory, errors),
    };
    let call = match call_of(rt.alloc(), &others) {
        Ok(call) => call,
        Err(error) => return tell_trouble(&Trouble::NoCall(error), errors),
    };
    let mut errors = errors;
    let status = run_labelled(isa, rt, folder, &call, input, output, &mut errors);
    Ended {
        errors,
        status,
        traced: Traced::Nothing,
    }
}

/// Runs the program by this set of instructions on words that name no set, with labels that begin with a dot where they ask for those.
pub(crate) fn run_reading<
    H: AllocGlobal + Threads + Wait + Sync,
    F: Folder,
    S: AsStr,
    R: Read,
    W: Write,
    E: Write + Drop,
>(
    isa: InstructionSet,
    rt: &H,
    folder: &mut F,
    words: &[S],
    input: &mut R,
    output: &mut W,
    errors: E,
) -> Ended<E>
    ensures { let old = streams (R.remaining input.old) (W.contents output.old) (E.contents errors) in
        let new = streams (R.remaining input.new) (W.contents output.new) (E.contents result.errors) in
        IsReadRun isa (F.holds folder.old) (F.holds folder.new) (map S.text words.now) old new result.status result.traced }
{
    if asks_labels(words) {
        return run_by_labels(isa, rt, folder, words, input, output, errors);
    }
    run_with(isa, rt, folder, words, input, output, errors)
}
