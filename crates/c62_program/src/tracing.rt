//! Runs whose trace or waveform is written (docs/TRACE.md, docs/WAVE.md).

ghost use Rattle.std.specs.Prelude.{◌≡◌, ◌⊎◌, Some, IfOk, IfErr, OnErr, map, option_map, string_bytes};
ghost use Rattle.c62_answer.specs.Run.{streams};
ghost use Rattle.c62_files.specs.Call.{text_source};
ghost use Rattle.c62_files.specs.Words.{Plain, text_piece};
ghost use Rattle.c62_tracing.specs.Words.{other_words, text_to, told_in, tracing_of};
ghost use Rattle.c62_answer.specs.Message.{Tells};
ghost use Rattle.c62_program.specs.Trouble.{IsTroubleWriting, Says, status_of};
ghost use Rattle.c62_program.specs.Tracing.{AreTraced, EndsSheet, FindsCommand, EndsOn, EndsRead, IsCallOn, IsTextTraced, IsTracedRun, IsTracedTo, IsTroubleTracing, IsTroubleTracingTo, IsTroubleWavingTo, IsWavedTo, LeavesErrors, LeavesFiles, RunsTraced, DrawsToFile, read_source};

use crate::ended::Ended;
use crate::page::TRACE;
use crate::program::{end_call, give_up, given};
use crate::trouble::Trouble;
use c62_answer::write_whole;
use c62_command::{Command, CommandError, Request, command_of};
use c62_drawing::{Drawn, Traced, draw_text};
use c62_files::{Call, FileError, Folder, Piece, Source, call_of, end_sheet, expanded};
use c62_op::InstructionSet;
use c62_teach::plain_words;
use c62_trace::Window;
use c62_tracing::{Destination, Tracing, other_words, tracing_of};
use std::alloc::{AllocError, Global};
use std::convert::AsStr;
use std::io::{Read, Write};
use std::sync::Wait;
use std::thread::Threads;

/// So many bytes of a trace are kept before they go to a file.
const ROOM: usize = 65536;

/// Ends a sheet on which what is traced was written: it takes the place of the file of this name, where something is traced.
fn end_traced<F: Folder>(
    alloc: Global,
    folder: &mut F,
    name: &str,
    sheet: F::Sheet,
    traced: Traced,
) -> Result<(), FileError>
    ensures ok { IfOk result (λ _. EndsSheet F.is_known (F.holds folder.old) (F.holds folder.new) name.now (F.Sheet.contents sheet) traced) }
    ensures err { OnErr result (F.holds folder.new ≡ F.holds folder.old) }
{
    match traced {
        Traced::Nothing => {
            let _ = folder.discard(sheet);
            Ok(())
        }
        Traced::Whole => end_sheet(alloc, folder, name, sheet, true),
        Traced::Cut(_) => end_sheet(alloc, folder, name, sheet, false),
    }
}

/// Writes what is drawn of a run to the file of this name.
#[tactic(auto, using(crate::proofs::Traced::draws_to_file))]
fn draw_file<F: Folder>(
    isa: InstructionSet,
    alloc: Global,
    folder: &mut F,
    drawn: Drawn,
    name: &str,
    window: Window,
    request: &Request,
    text: &[u8],
) -> Result<(), FileError>
    ensures ok { IfOk result (λ _. DrawsToFile isa (F.holds folder.old) (F.holds folder.new) drawn window request.now text.now name.now) }
    ensures err { OnErr result (F.holds folder.new ≡ F.holds folder.old) }
{
    let sheet = folder.begin(alloc, name)?;
    let (sheet, traced) = draw_text(isa, alloc, drawn, request, window, ROOM, text, sheet);
    match traced {
        Ok(traced) => end_traced(alloc, folder, name, sheet, traced),
        Err(_) => {
            let _ = folder.discard(sheet);
            Err(FileError::Memory)
        }
    }
}

/// Writes what is drawn of a run to the file of this name. What goes wrong is told as the trouble of the call.
fn draw_to<'a, F: Folder>(
    isa: InstructionSet,
    alloc: Global,
    folder: &mut F,
    drawn: Drawn,
    name: &'a str,
    window: Window,
    request: &Request,
    text: &[u8],
) -> Result<(), Trouble<'a>>
    ensures ok { IfOk result (λ _. DrawsToFile isa (F.holds folder.old) (F.holds folder.new) drawn window request.now text.now name.entry.now) }
    ensures err { OnErr result (F.holds folder.new ≡ F.holds folder.old) }
    ensures why { IfErr result (IsTroubleWriting name.entry.now) }
{
    match draw_file(isa, alloc, folder, drawn, name, window, request, text) {
        Ok(()) => Ok(()),
        Err(error) => Err(Trouble::of_writing(name, error)),
    }
}

/// Writes the trace of a run to where it goes, if it is asked for. Gives back the stream of errors, and what that got of it.
fn trace_to<'a, F: Folder, E: Write + Drop>(
    isa: InstructionSet,
    alloc: Global,
    folder: &mut F,
    to: Option<Destination<'a>>,
    window: Window,
    request: &Request,
    text: &[u8],
    errors: E,
) -> (E, Result<Traced, Trouble<'a>>)
    ensures ok { IfOk result.1 (λ traced. IsTracedTo isa (F.holds folder.old) (F.holds folder.new) window request.now text.now
        (option_map text_to to.entry) (E.contents errors) (E.contents result.0) traced) }
    ensures files { OnErr result.1 (F.holds folder.new ≡ F.holds folder.old) }
    ensures errors { OnErr result.1 (LeavesErrors (option_map text_to to.entry) (E.contents errors) (E.contents result.0)) }
    ensures why { IfErr result.1 (IsTroubleTracingTo (option_map text_to to.entry)) }
{
    match to {
        None => (errors, Ok(Traced::Nothing)),
        Some(Destination::Errors) => {
            let drawn = Drawn::Trace;
            let (errors, traced) = draw_text(isa, alloc, drawn, request, window, 0, text, errors);
            match traced {
                Ok(traced) => (errors, Ok(traced)),
                Err(_) => (errors, Err(Trouble::Memory)),
            }
        }
        Some(Destination::File(name)) => {
            let written = draw_to(
                isa,
                alloc,
                folder,
                Drawn::Trace,
                name,
                window,
                request,
                text,
            );
            match written {
                Ok(()) => (errors, Ok(Traced::Nothing)),
                Err(trouble) => (errors, Err(trouble)),
            }
        }
    }
}

/// Writes its waveform to where that goes, if it is asked for.
fn wave_to<'a, F: Folder>(
    isa: InstructionSet,
    alloc: Global,
    folder: &mut F,
    to: Option<&'a str>,
    window: Window,
    request: &Request,
    text: &[u8],
) -> Result<(), Trouble<'a>>
    ensures ok { IfOk result (λ _. IsWavedTo isa (F.holds folder.old) (F.holds folder.new) window request.now text.now (option_map (λ name. name.now) to.entry)) }
    ensures err { OnErr result (F.holds folder.new ≡ F.holds folder.old) }
    ensures why { IfErr result (IsTroubleWavingTo (option_map (λ name. name.now) to.entry)) }
{
    match to {
        None => Ok(()),
        Some(name) => draw_to(isa, alloc, folder, Drawn::Wave, name, window, request, text),
    }
}

/// Writes what is asked for of a run: its trace, and then its waveform. Gives back the stream of errors, and what that got of the trace.
#[tactic(auto, using(crate::proofs::Traced::leaves_files, crate::proofs::Traced::leaves_errors))]
fn write_traced<'a, F: Folder, E: Write + Drop>(
    isa: InstructionSet,
    alloc: Global,
    folder: &mut F,
    tracing: &Tracing<'a>,
    request: &Request,
    text: &[u8],
    errors: E,
) -> (E, Result<Traced, Trouble<'a>>)
    ensures ok { IfOk result.1 (λ traced. AreTraced isa (F.holds folder.old) (F.holds folder.new) (told_in tracing.now) request.now text.now
        (E.contents errors) (E.contents result.0) traced) }
    ensures files { OnErr result.1 (LeavesFiles (F.holds folder.old) (F.holds folder.new) (told_in tracing.now).trace) }
    ensures errors { OnErr result.1 (LeavesErrors (told_in tracing.now).trace (E.contents errors) (E.contents result.0)) }
    ensures why { IfErr result.1 (λ trouble. IsTroubleTracingTo (told_in tracing.now).trace trouble ⊎ IsTroubleWavingTo (told_in tracing.now).vcd trouble) }
{
    let window = Window {
        from: tracing.from,
        count: tracing.count,
    };
    let (errors, traced) = trace_to(
        isa,
        alloc,
        folder,
        tracing.trace,
        window,
        request,
        text,
        errors,
    );
    let traced = match traced {
        Ok(traced) => traced,
        Err(trouble) => return (errors, Err(trouble)),
    };
    match wave_to(isa, alloc, folder, tracing.vcd, window, request, text) {
        Ok(()) => (errors, Ok(traced)),
        Err(trouble) => (errors, Err(trouble)),
    }
}

/// The command that words ask for; none where they are refused.
#[tactic(auto, using(crate::proofs::Traced::refused))]
pub(crate) fn command_for(alloc: Global, words: &[String]) -> Result<Option<Command>, AllocError>
    ensures { IfOk result (FindsCommand (map string_bytes words.now)) }
{
    let plain = plain_words(alloc, words)?;
    match command_of(alloc, &plain) {
        Ok(command) => Ok(Some(command)),
        Err(CommandError::Memory) => Err(AllocError),
        Err(_) => Ok(None),
    }
}

/// A source whose bytes were read.
fn read_source<'a>(source: Source<'a>) -> Source<'a>
    ensures { text_source result ≡ read_source (text_source source.entry) }
{
    match source {
        Source::File(name) => Source::Named(name, name),
        Source::Parts(text, listing) => Source::Named(text, listing),
        Source::Standard | Source::Named(_, _) => source,
    }
}

/// Words as words for the command.
fn plain_pieces<'a>(alloc: Global, words: &'a [String]) -> Result<Vec<Piece<'a>>, AllocError>
    ensures { IfOk result (λ pieces. map text_piece pieces.items ≡ map Plain (map string_bytes words.entry.now)) }
{
    let mut pieces = Vec::new(alloc);
    for word in words {
        pieces.push(Piece::Plain(word.as_str()))?;
    }
    Ok(pieces)
}

/// The call of these words on a source, whose answer and memory go where those of another call go.
fn call_on<'w, 'a: 'w>(
    alloc: Global,
    call: &Call<'a>,
    words: &'w [String],
    source: Source<'a>,
) -> Result<Call<'w>, AllocError>
    ensures { IfOk result (IsCallOn call.now (map string_bytes words.entry.now) (text_source source.entry)) }
{
    Ok(Call {
        words: plain_pieces(alloc, words)?,
        source,
        target: call.target,
        dumps: Vec::from_slice(alloc, &call.dumps)?,
    })
}

/// The text of a call of these words, whose trace is written; none where they ask for nothing. Gives back the stream of errors, and what
/// that got of the trace.
#[tactic(auto, using(crate::proofs::Traced::same_files, crate::proofs::Traced::same_errors))]
fn text_traced<'a, F: Folder, R: Read, E: Write + Drop>(
    isa: InstructionSet,
    alloc: Global,
    folder: &mut F,
    tracing: &Tracing<'a>,
    words: &[String],
    source: Source<'a>,
    input: &mut R,
    errors: E,
) -> (E, Result<(Option<Vec<u8>>, Traced), Trouble<'a>>)
    ensures ok { IfOk result.1 (λ read. IsTextTraced isa (F.holds folder.old) (F.holds folder.new) (told_in tracing.now) (map string_bytes words.now)
        (text_source source.entry) (R.remaining input.old) (R.remaining input.new) (option_map (λ bytes. bytes.items) read.0)
        (E.contents errors) (E.contents result.0) read.1) }
    ensures files { OnErr result.1 (LeavesFiles (F.holds folder.old) (F.holds folder.new) (told_in tracing.now).trace) }
    ensures errors { OnErr result.1 (LeavesErrors (told_in tracing.now).trace (E.contents errors) (E.contents result.0)) }
    ensures why { IfErr result.1 (IsTroubleTracing (told_in tracing.now) (text_source source.entry)) }
{
    let command = match command_for(alloc, words) {
        Ok(Some(command)) => command,
        Ok(None) => return (errors, Ok((None, Traced::Nothing))),
        Err(_) => return (errors, Err(Trouble::Memory)),
    };
    let text = match given(alloc, folder, source, input) {
        Ok(text) => text,
        Err(trouble) => return (errors, Err(trouble)),
    };
    let (errors, written) = write_traced(
        isa,
        alloc,
        folder,
        tracing,
        &command.request,
        &text,
        errors,
    );
    match written {
        Ok(traced) => (errors, Ok((Some(text), traced))),
        Err(trouble) => (errors, Err(trouble)),
    }
}

/// Does what a call asks for with these words on a source.
#[tactic(auto, using(crate::proofs::Traced::ends, crate::proofs::Traced::short))]
fn end_on<
    'w,
    'a: 'w,
    H: AllocGlobal + Threads + Wait + Sync,
    F: Folder,
    R: Read,
    W: Write,
    E: Write,
>(
    isa: InstructionSet,
    rt: &H,
    folder: &mut F,
    call: &Call<'a>,
    words: &'w [String],
    source: Source<'a>,
    input: &mut R,
    output: &mut W,
    errors: &mut E,
) -> u8
    ensures { let old = streams (R.remaining input.old) (W.contents output.old) (E.contents errors.old) in
        let new = streams (R.remaining input.new) (W.contents output.new) (E.contents errors.new) in
        EndsOn isa (F.holds folder.old) (F.holds folder.new) call.now (map string_bytes words.entry.now) (text_source source.entry) old new result }
{
    match call_on(rt.alloc(), call, words, source) {
        Ok(made) => end_call(isa, rt, folder, &made, input, output, errors),
        Err(_) => give_up(&Trouble::Memory, errors),
    }
}

/// Does what a call of these words asks for, on a text that was read, or on what its source gives.
#[tactic(auto, using(crate::proofs::Traced::unread, crate::proofs::Traced::read))]
pub(crate) fn answer_call<
    't,
    'w,
    'a: 'w,
    H: AllocGlobal + Threads + Wait + Sync,
    F: Folder,
    R: Read,
    W: Write,
    E: Write,
>(
    isa: InstructionSet,
    rt: &H,
    folder: &mut F,
    call: &Call<'a>,
    words: &'w [String],
    text: Option<&'t [u8]>,
    input: &mut R,
    output: &mut W,
    errors: &mut E,
) -> u8
    ensures { let old = streams (R.remaining input.old) (W.contents output.old) (E.contents errors.old) in
        let new = streams (R.remaining input.new) (W.contents output.new) (E.contents errors.new) in
        EndsRead isa (F.holds folder.old) (F.holds folder.new) call.now (map string_bytes words.entry.now) (option_map (λ bytes. bytes.now) text.entry) old new result }
{
    match text {
        None => end_on(
            isa,
            rt,
            folder,
            call,
            words,
            call.source,
            input,
            output,
            errors,
        ),
        Some(bytes) => {
            let mut bytes = bytes;
            let source = read_source(call.source);
            end_on(
                isa, rt, folder, call, words, source, &mut bytes, output, errors,
            )
        }
    }
}

/// The bytes of a text, where there is one.
pub(crate) fn bytes_of(text: &Option<Vec<u8>>) -> Option<&[u8]>
    ensures { option_map (λ bytes. bytes.now) result ≡ option_map (λ bytes. bytes.items) text.now }
{
    match text {
        Some(bytes) => Some(bytes),
        None => None,
    }
}

/// Says what the trouble is, and answers its status.
pub(crate) fn tell_trouble<E: Write>(trouble: &Trouble<'_>, errors: E) -> Ended<E>
    ensures status { result.status ≡ status_of trouble.now }
    ensures said { Says Tells trouble.now (E.contents errors) (E.contents result.errors) }
{
    let mut errors = errors;
    let status = give_up(trouble, &mut errors);
    Ended {
        errors,
        status,
        traced: Traced::Nothing,
    }
}

/// Does what a call asks for, and writes the trace of its run before.
fn run_call_traced<
    'a,
    H: AllocGlobal + Threads + Wait + Sync,
    F: Folder,
    R: Read,
    W: Write,
    E: Write + Drop,
>(
    isa: InstructionSet,
    rt: &H,
    folder: &mut F,
    tracing: &Tracing<'a>,
    call: &Call<'a>,
    input: &mut R,
    output: &mut W,
    errors: E,
) -> Ended<E>
    ensures { let old = streams (R.remaining input.old) (W.contents output.old) (E.contents errors) in
        let new = streams (R.remaining input.new) (W.contents output.new) (E.contents result.errors) in
        RunsTraced isa (F.holds folder.old) (F.holds folder.new) (told_in tracing.now) call.now old new result.status result.traced }
{
    let words = match expanded(rt.alloc(), folder, &call.words) {
        Ok(words) => words,
        Err(error) => return tell_trouble(&Trouble::of_words(error), errors),
    };
    let (mut errors, text) = text_traced(
        isa,
        rt.alloc(),
        folder,
        tracing,
        &words,
        call.source,
        input,
        errors,
    );
    let read = match text {
        Ok(read) => read,
        Err(trouble) => return tell_trouble(&trouble, errors),
    };
    let status = answer_call(
        isa,
        rt,
        folder,
        call,
        &words,
        bytes_of(&read.0),
        input,
        output,
        &mut errors,
    );
    Ended {
        errors,
        status,
        traced: read.1,
    }
}

/// Says what words for a trace are.
fn tell_words<E: Write>(errors: E) -> Ended<E>
    ensures status { result.status ≡ 2 }
    ensures said { Tells (E.contents errors) (E.contents result.errors) TRACE.now }
{
    let mut errors = errors;
    let _ = write_whole(&mut errors, TRACE.as_bytes());
    Ended {
        errors,
        status: 2,
        traced: Traced::Nothing,
    }
}

/// Does what words ask for that ask for a trace, and writes that before: to standard error or to a file, and the waveform to a file.
/// The text is read once.
pub fn run_traced<
    H: AllocGlobal + Threads + Wait + Sync,
    F: Folder,
    S: AsStr,
    R: Read,
    W: Write,
    E: Write + Drop,
>(
    isa: InstructionSet,
    rt: &H,
    folder: &mut F,
    words: &[S],
    input: &mut R,
    output: &mut W,
    errors: E,
) -> Ended<E>
    ensures { let old = streams (R.remaining input.old) (W.contents output.old) (E.contents errors) in
        let new = streams (R.remaining input.new) (W.contents output.new) (E.contents result.errors) in
        IsTracedRun isa (F.holds folder.old) (F.holds folder.new) (map S.text words.now) old new result.status result.traced }
{
    let tracing = match tracing_of(rt.alloc(), words) {
        Ok(Some(tracing)) => tracing,
        Ok(None) => return tell_words(errors),
        Err(_) => return tell_trouble(&Trouble::Memory, errors),
    };
    let others = match other_words(rt.alloc(), words) {
        Ok(others) => others,
        Err(_) => return tell_trouble(&Trouble::Memory, errors),
    };
    let call = match call_of(rt.alloc(), &others) {
        Ok(call) => call,
        Err(error) => return tell_trouble(&Trouble::NoCall(error), errors),
    };
    run_call_traced(isa, rt, folder, &tracing, &call, input, output, errors)
}
