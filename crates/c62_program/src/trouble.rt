//! Why words and files make no run, its status, and what is said of it.

ghost use Rattle.std.specs.Prelude.{◌≡◌};
ghost use Rattle.c62_answer.specs.Message.{told_of};
ghost use Rattle.c62_program.specs.Trouble.{IsTroubleWith, IsTroubleWriting, Says, call_message, load_message, of_reading, of_words, reason_of, status_of, wanted_text};
ghost use Rattle.c62_program.specs.declared.trouble.Trouble.TheVariants.{Memory};

use c62_answer::{Refused, show, write_pieces, write_whole};
use c62_files::{CallError, FileError, Misfit, Reason, Unexpanded};
use itoa::Buffer;
use std::alloc::AllocError;
use std::io::Write;

/// Why words and files make no run.
#[derive(Debug, Drop)]
pub enum Trouble<'a> {
    /// The words make no call.
    NoCall(CallError<'a>),
    /// The file of this name can't be read.
    Unread(&'a str, Reason),
    /// The file of this name can't be written.
    Unwritten(&'a str, Reason),
    /// The file that the load of this number, from 1, puts into memory doesn't fit there.
    NoLoad(usize, Misfit),
    /// A word stands for `--dump`, and no file is named for it.
    LooseDump,
    /// Standard input can't be read.
    Input,
    /// Memory ran out.
    Memory,
}

impl From<AllocError> for Trouble<'_> {
    ghost from_gives = { λ _ trouble. trouble ≡ Memory };

    fn from(_error: AllocError) -> Self {
        Trouble::Memory
    }
}

impl<'a> Trouble<'a> {
    /// Why the file of this name isn't read.
    pub fn of_reading(name: &'a str, error: FileError) -> Trouble<'a>
        ensures is { result ≡ of_reading name.entry error }
        ensures with { IsTroubleWith name.entry.now result }
    {
        match error {
            FileError::Memory => Trouble::Memory,
            FileError::Failed(reason) => Trouble::Unread(name, reason),
        }
    }

    /// Why the file of this name isn't written.
    pub fn of_writing(name: &'a str, error: FileError) -> Trouble<'a>
        ensures { IsTroubleWriting name.entry.now result }
    {
        match error {
            FileError::Memory => Trouble::Memory,
            FileError::Failed(reason) => Trouble::Unwritten(name, reason),
        }
    }

    /// Why it isn't known what stands in the places of words.
    pub fn of_words(error: Unexpanded<'a>) -> Trouble<'a>
        ensures { result ≡ of_words error.entry }
    {
        match error {
            Unexpanded::Unread(unread) => Trouble::of_reading(unread.name, unread.error),
            Unexpanded::Load(number, misfit) => Trouble::NoLoad(number, misfit),
        }
    }

    /// The status that the program ends with.
    pub fn status(&self) -> u8
        ensures { result ≡ status_of self.now }
    {
        match self {
            Trouble::NoCall(CallError::Memory) | Trouble::Memory => 3,
            Trouble::NoCall(_) | Trouble::NoLoad(_, _) | Trouble::LooseDump => 2,
            Trouble::Unread(_, _) | Trouble::Unwritten(_, _) | Trouble::Input => 4,
        }
    }
}

/// What an option wants behind it.
fn wanted_text(option: &str) -> &'static str
    ensures { result.now ≡ wanted_text option.now }
{
    if option == "--print" {
        " wants ADDRESS+LENGTH behind it\n"
    } else if option == "--dump" {
        " wants ADDRESS+LENGTH=NAME behind it\n"
    } else if option == "--base" {
        " wants ADDRESS behind it\n"
    } else {
        " wants the name of a file behind it\n"
    }
}

/// Tells what is wrong with the words.
fn tell_call<E: Write>(errors: &mut E, error: &CallError<'_>) -> Result<(), Refused>
    ensures { told_of result (E.contents errors.old) (E.contents errors.new) (call_message error.now) }
{
    match error {
        CallError::NoName(option) => write_pieces(
            errors,
            &["error: ", *option, wanted_text(*option)],
        ),
        CallError::TooManyInputs(name) => write_pieces(
            errors,
            &[
                "error: ",
                *name,
                " is one file more than the command reads\n",
            ],
        ),
        CallError::StandardTwice => write_whole(
            errors,
            b"error: standard input can't be both the text and the listing\n",
        ),
        CallError::TwoOutputs(name) => write_pieces(
            errors,
            &["error: ", *name, " is a second file for the answer\n"],
        ),
        CallError::Memory => write_whole(errors, b"memory\n"),
    }
}

/// Why a file isn't put into memory.
fn reason_of(misfit: Misfit) -> &'static str
    ensures { result.now ≡ reason_of misfit }
{
    match misfit {
        Misfit::Bad => "bad",
        Misfit::PastEnd => "past the end",
    }
}

/// Prints that the file of a load doesn't fit.
fn print_load<E: Write>(errors: &mut E, number: usize, misfit: Misfit) -> Result<(), Refused>
    ensures { told_of result (E.contents errors.old) (E.contents errors.new) (load_message number misfit) }
{
    let mut buffer = Buffer::new();
    write_pieces(
        errors,
        &[
            "load ",
            buffer.format(number),
            ": ",
            reason_of(misfit),
            "\n",
        ],
    )
}

/// Tells `cannot read NAME: REASON`, or what else can't be done with the file. The reason may name another file first.
fn tell_file<E: Write>(
    errors: &mut E,
    what: &str,
    name: &str,
    reason: &Reason,
) -> Result<(), Refused> {
    write_pieces(errors, &[what, name, ": "])?;
    if let Some(file) = &reason.file {
        write_pieces(errors, &[file.as_str(), ": "])?;
    }
    show(errors, &reason.error)?;
    write_whole(errors, b"\n")
}

/// Tells why there is no run.
///
/// # Errors
///
/// Where the stream takes no more.
pub fn report<E: Write>(errors: &mut E, trouble: &Trouble<'_>) -> Result<(), Refused>
    ensures { Says (told_of result) trouble.now (E.contents errors.old) (E.contents errors.new) }
{
    match trouble {
        Trouble::NoCall(error) => tell_call(errors, error),
        Trouble::Unread(name, reason) => tell_file(errors, "cannot read ", *name, reason),
        Trouble::Unwritten(name, reason) => tell_file(errors, "cannot write ", *name, reason),
        Trouble::NoLoad(number, misfit) => print_load(errors, *number, *misfit),
        Trouble::LooseDump => write_whole(
            errors,
            b"error: dump= stands for --dump, which names a file\n",
        ),
        Trouble::Input => write_whole(errors, b"input\n"),
        Trouble::Memory => write_whole(errors, b"memory\n"),
    }
}
