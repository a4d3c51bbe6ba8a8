//! Files by their names.

ghost use Rattle.std.specs.Prelude.{◌≡◌, ◌+◌, ℕ, Bool, List, [], Option, Some, IfOk, IfSome, OnOk, OnErr, take, true};
ghost use Rattle.c62_files.specs.Writing.{IsFinished, IsReplaced};

use std::alloc::{AllocError, Global};
use std::io;
use std::io::Write;

/// Why the system doesn't read or write a file.
#[derive(Debug, Drop)]
pub struct Reason {
    /// The name of another file of which the system says it.
    pub file: Option<String>,
    pub error: io::Error,
}

/// Why a file was not read or written.
#[derive(Debug, Drop)]
pub enum FileError {
    Memory,
    /// The system says why.
    Failed(Reason),
}

impl From<AllocError> for FileError {
    fn from(_error: AllocError) -> FileError {
        FileError::Memory
    }
}

impl From<io::Error> for FileError {
    fn from(error: io::Error) -> FileError {
        if error.kind() == io::ErrorKind::OutOfMemory {
            FileError::Memory
        } else {
            FileError::Failed(Reason { file: None, error })
        }
    }
}

/// Where files are read and written by their names.
pub trait Folder {
    /// A file that is being written beside the one whose place it takes.
    type Sheet: Write + Drop;

    /// What the file of a name holds, where that is known.
    ghost holds: { Self → List ℕ → Option (List ℕ) };

    /// Whether it is known what sheets hold. It is where anything is known of a file that one took the place of.
    ghost is_known: { Bool };

    /// What the file of this name holds, but no more than one byte past this limit.
    ///
    /// # Errors
    ///
    /// Where there is no such file, it can't be read, or memory ran out.
    fn read(&self, alloc: Global, name: &str, limit: usize) -> Result<Vec<u8>, FileError>
        ensures { IfOk result (λ bytes. IfSome (holds self.now name.now) (λ all. bytes.items ≡ take (limit + 1) all)) };

    /// Makes a file of this name hold these bytes, be it there or not. What is known of files by other names is as it was.
    ///
    /// # Errors
    ///
    /// Where it can't be written, or memory ran out. All files are what they were then.
    fn replace(&mut self, alloc: Global, name: &str, bytes: &[u8]) -> Result<(), FileError>
        ensures ok { OnOk result (IsReplaced (holds self.old) name.now bytes.now (holds self.new)) }
        ensures err { OnErr result (holds self.new ≡ holds self.old) };

    /// Begins a sheet for the file of this name, which stays what it is until the sheet is finished. Nothing is written on it yet. It is
    /// written piece by piece, and ended by `finish` or `discard`.
    ///
    /// # Errors
    ///
    /// Where it can't be made, one for this name isn't ended yet, or memory ran out.
    fn begin(&mut self, alloc: Global, name: &str) -> Result<Self::Sheet, FileError>
        ensures blank { IfOk result (λ sheet. is_known ≡ true → Self.Sheet.contents sheet ≡ Some []) }
        ensures kept { holds self.new ≡ holds self.old };

    /// Puts a sheet in the place of the file for which it was begun, which has this name: that holds what the sheet holds then. What is
    /// known of files by other names is as it was.
    ///
    /// # Errors
    ///
    /// Where it can't be put there, or memory ran out. All files are what they were then, and the sheet is discarded.
    fn finish(&mut self, alloc: Global, name: &str, sheet: Self::Sheet) -> Result<(), FileError>
        ensures ok { OnOk result (IsFinished (holds self.old) name.now (Self.Sheet.contents sheet) (holds self.new)) }
        ensures known { OnOk result (IfSome (holds self.new name.now) (λ _. is_known ≡ true)) }
        ensures err { OnErr result (holds self.new ≡ holds self.old) };

    /// Lets a sheet go, and answers why not all was written on it, where the system says that. All files are what they were.
    fn discard(&mut self, sheet: Self::Sheet) -> Option<io::Error>
        ensures { holds self.new ≡ holds self.old };
}

/// Ends the sheet that was begun for the file of this name: puts it in its place where all was written on it, and discards it otherwise.
///
/// # Errors
///
/// Where not all was written, or it can't be put there. All files are what they were then.
pub fn end_sheet<F: Folder>(
    alloc: Global,
    folder: &mut F,
    name: &str,
    sheet: F::Sheet,
    is_whole: bool,
) -> Result<(), FileError>
    ensures whole { OnOk result (is_whole ≡ true) }
    ensures ok { OnOk result (IsFinished (F.holds folder.old) name.now (F.Sheet.contents sheet) (F.holds folder.new)) }
    ensures known { OnOk result (IfSome (F.holds folder.new name.now) (λ _. F.is_known ≡ true)) }
    ensures err { OnErr result (F.holds folder.new ≡ F.holds folder.old) }
{
    if is_whole {
        return folder.finish(alloc, name, sheet);
    }
    match folder.discard(sheet) {
        Some(error) => Err(FileError::from(error)),
        None => Err(FileError::from(io::Error::from(io::ErrorKind::WriteZero))),
    }
}
