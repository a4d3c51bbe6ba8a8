//! Reads a text that may be too long.

ghost use Rattle.std.specs.Prelude.{◌≢◌, ◌≤◌, ◌+◌, IfOk, IfErr};
ghost use Rattle.std.specs.Io.{ReadsAtMost};
ghost use Rattle.std.specs.Io.KnownBytes.{ReadConsumes};
ghost use Rattle.std.specs.IoError.{error_kind};
ghost use Rattle.c62_answer.specs.declared.parting.TheConstants.{MOST_BYTES};
ghost use Rattle.c62_answer.specs.Run.{TakesAtMost, BeginsAll};

use std::alloc::{AllocError, Global};
use std::io;
use std::io::{ErrorKind, Read};

/// Why a text was not read.
#[derive(Debug, Drop)]
pub enum InputError {
    /// Memory ran out.
    Memory,
    /// The reader failed.
    Input,
}

impl From<AllocError> for InputError {
    fn from(_e: AllocError) -> InputError {
        InputError::Memory
    }
}

const CHUNK: usize = 4096;

/// A read, made again where a signal interrupts it.
fn read_some<R: Read>(reader: &mut R, buf: &mut [u8]) -> io::Result<usize>
    ensures bound { ReadsAtMost result buf.new }
    ensures bytes { ReadConsumes (R.remaining reader.old) (R.remaining reader.new) result buf.new }
    ensures retried { IfErr result (λ e. error_kind e ≢ ErrorKind.Interrupted) }
{
    for _ in 0..u64::MAX {
        match reader.read(buf) {
            Ok(count) => return Ok(count),
            Err(error) => {
                if error.kind() != ErrorKind::Interrupted {
                    return Err(error);
                }
            }
        }
    }
    Err(io::Error::from(ErrorKind::Other))
}

/// All that the reader gives, but no more than one byte past this limit.
///
/// # Errors
///
/// `InputError::Input` where a read failed, `InputError::Memory` where memory ran out.
pub fn read_text<R: Read>(
    alloc: Global,
    reader: &mut R,
    limit: usize,
) -> Result<Vec<u8>, InputError>
    requires { limit ≤ MOST_BYTES }
    ensures front { IfOk result (λ text. BeginsAll limit (R.remaining reader.old) text.items) }
    ensures most { TakesAtMost (limit + 1) (R.remaining reader.old) (R.remaining reader.new) }
{
    let mut text = Vec::new(alloc);
    let mut chunk = [0u8; CHUNK];
    while text.len() <= limit {
        let room = CHUNK.min(limit + 1 - text.len());
        let Ok(count) = read_some(reader, &mut chunk[..room]) else {
            return Err(InputError::Input);
        };
        if count == 0 {
            return Ok(text);
        }
        text.extend_from_slice(&chunk[..count])?;
    }
    Ok(text)
}
