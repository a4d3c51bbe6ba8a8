//! The set of instructions that a call asks for (docs/COMMANDS.md, "Options").

ghost use Rattle.std.specs.Prelude.{◌≡◌, Some, None, true, false, map, string_bytes};
ghost use Rattle.c62_answer.specs.Message.{Tells};
ghost use Rattle.c62_answer.specs.Run.{streams};
ghost use Rattle.c62_isa.specs.Words.{asked_set, asks_set, other_words};
ghost use Rattle.c62_program.specs.Sets.{IsRunBySet, IsSetRun};

use crate::ended::Ended;
use crate::labels::run_reading;
use crate::page::ISA;
use crate::tracing::tell_trouble;
use crate::trouble::Trouble;
use c62_answer::write_whole;
use c62_drawing::Traced;
use c62_files::Folder;
use c62_isa::{asked_set, asks_set, other_words};
use c62_op::InstructionSet;
use std::convert::AsStr;
use std::io::{Read, Write};
use std::sync::Wait;
use std::thread::Threads;

/// Says how a set is asked for.
fn tell_sets<E: Write>(errors: E) -> Ended<E>
    ensures status { result.status ≡ 2 }
    ensures said { Tells (E.contents errors) (E.contents result.errors) ISA.now }
{
    let mut errors = errors;
    let _ = write_whole(&mut errors, ISA.as_bytes());
    Ended {
        errors,
        status: 2,
        traced: Traced::Nothing,
    }
}

/// Does what words ask for that ask for a set of instructions too.
fn run_by_set<
    H: AllocGlobal + Threads + Wait + Sync,
    F: Folder,
    S: AsStr,
    R: Read,
    W: Write,
    E: Write + Drop,
>(rt: &H, folder: &mut F, words: &[S], input: &mut R, output: &mut W, errors: E) -> Ended<E>
    ensures { let old = streams (R.remaining input.old) (W.contents output.old) (E.contents errors) in
        let new = streams (R.remaining input.new) (W.contents output.new) (E.contents result.errors) in
        IsSetRun (F.holds folder.old) (F.holds folder.new) (map S.text words.now) old new result.status result.traced }
{
    let isa = match asked_set(rt.alloc(), words) {
        Ok(Some(isa)) => isa,
        Ok(None) => return tell_sets(errors),
        Err(_) => return tell_trouble(&Trouble::Memory, errors),
    };
    let others = match other_words(rt.alloc(), words) {
        Ok(others) => others,
        Err(_) => return tell_trouble(&Trouble::Memory, errors),
    };
    run_reading(isa, rt, folder, &others, input, output, errors)
}

/// Runs the program on these words, which are those after its name. Answers the status, the stream of errors, which is
/// taken since a trace may go through it, and whether that took all of a trace. Texts come from the files that the words name, or from the
/// reader, and the answer goes to the output or to a file (docs/COMMANDS.md, "Files"). They are read by the core of the instructions, or by
/// the set that `--isa` names.
///
/// What [`run_tool`](c62_answer::run_tool) promises of the bytes of a reader, it promises of the bytes that were read of a file. A file
/// that the answer goes to holds all of it where there is one, and else what it held. So do the files that memory goes to, which are
/// written before it.
pub fn run_program<
    H: AllocGlobal + Threads + Wait + Sync,
    F: Folder,
    S: AsStr,
    R: Read,
    W: Write,
    E: Write + Drop,
>(rt: &H, folder: &mut F, words: &[S], input: &mut R, output: &mut W, errors: E) -> Ended<E>
    ensures { let old = streams (R.remaining input.old) (W.contents output.old) (E.contents errors) in
        let new = streams (R.remaining input.new) (W.contents output.new) (E.contents result.errors) in
        IsRunBySet (F.holds folder.old) (F.holds folder.new) (map S.text words.now) old new result.status result.traced }
{
    if asks_set(words) {
        return run_by_set(rt, folder, words, input, output, errors);
    }
    run_reading(
        InstructionSet::Core,
        rt,
        folder,
        words,
        input,
        output,
        errors,
    )
}
