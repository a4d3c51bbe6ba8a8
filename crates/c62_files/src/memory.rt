//! A file in memory.

ghost use Rattle.std.specs.Prelude.{◌≡◌, ◌+◌, take, true, None, Some, if◌then◌else◌};
ghost use Rattle.std.specs.Str.{bytes_eq};

use crate::folder::{FileError, Folder};
use std::alloc::Global;
use std::io;

/// A folder that has one file, in memory: what that holds is known.
#[derive(Drop)]
pub struct MemoryFile {
    pub name: &'static str,
    pub bytes: Vec<u8>,
}

fn not_found() -> FileError {
    FileError::from(io::Error::from(io::ErrorKind::NotFound))
}

/// The bytes, but no more than one past this limit.
#[tactic(auto, using(std::proofs::lemmas::List::take_all))]
fn front(bytes: &[u8], limit: usize) -> &[u8]
    ensures { result.now ≡ take (limit + 1) bytes.now }
{
    if limit < bytes.len() {
        &bytes[..limit + 1]
    } else {
        bytes
    }
}

impl Folder for MemoryFile {
    type Sheet = Vec<u8>;

    ghost holds = { λ file name. if bytes_eq name file.name.now then Some file.bytes.items else None };

    ghost is_known = { true };

    fn read(&self, alloc: Global, name: &str, limit: usize) -> Result<Vec<u8>, FileError> {
        if name == self.name {
            Ok(Vec::from_slice(alloc, front(&self.bytes, limit))?)
        } else {
            Err(not_found())
        }
    }

    fn replace(&mut self, alloc: Global, name: &str, bytes: &[u8]) -> Result<(), FileError> {
        if name == self.name {
            self.bytes = Vec::from_slice(alloc, bytes)?;
            Ok(())
        } else {
            Err(not_found())
        }
    }

    fn begin(&mut self, alloc: Global, name: &str) -> Result<Vec<u8>, FileError> {
        if name == self.name {
            Ok(Vec::new(alloc))
        } else {
            Err(not_found())
        }
    }

    fn finish(&mut self, _alloc: Global, name: &str, sheet: Vec<u8>) -> Result<(), FileError> {
        if name == self.name {
            self.bytes = sheet;
            Ok(())
        } else {
            Err(not_found())
        }
    }

    fn discard(&mut self, _sheet: Vec<u8>) -> Option<io::Error> {
        None
    }
}
