//! Files that are written one after the other.

ghost use Rattle.std.specs.Prelude.{◌≡◌, IfErr, OnOk, OnErr, map};
ghost use Rattle.c62_files.specs.Writing.{AreBegun, AreWritten, IsNameIn, StopsAt, text_output};

use crate::folder::{FileError, Folder};
use std::alloc::Global;

/// A file that is to be written.
#[derive(Clone, Copy, Debug)]
pub struct Output<'a, 'b> {
    pub name: &'a str,
    /// What it is to hold.
    pub bytes: &'b [u8],
}

/// The file of this name isn't written.
#[derive(Debug, Drop)]
pub struct Unwritten<'a> {
    pub name: &'a str,
    pub error: FileError,
}

/// Writes files in their order, each whole or not at all. Of two that have one name the later one stands.
///
/// # Errors
///
/// `Unwritten` with the name of the first that can't be written, or at which memory ran out. Those before it are written, and it and the
/// others are what they were.
pub fn write_files<'a, F: Folder>(
    alloc: Global,
    folder: &mut F,
    files: &[Output<'a, '_>],
) -> Result<(), Unwritten<'a>>
    ensures ok { OnOk result (AreWritten (F.holds folder.old) (map text_output files.now) (F.holds folder.new)) }
    ensures begun { OnErr result (AreBegun (F.holds folder.old) (map text_output files.now) (F.holds folder.new)) }
    ensures stops { IfErr result (λ unwritten. StopsAt (F.holds folder.old) (map text_output files.now) unwritten.name.now (F.holds folder.new)) }
    ensures name { IfErr result (λ unwritten. IsNameIn unwritten.name.now (map text_output files.now)) }
{
    for file in files {
        if let Err(error) = folder.replace(alloc, file.name, file.bytes) {
            return Err(Unwritten {
                name: file.name,
                error,
            });
        }
    }
    Ok(())
}
