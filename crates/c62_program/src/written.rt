//! Texts that the program writes of its own.

ghost use Rattle.std.specs.Prelude.{◌≡◌};
ghost use Rattle.c62_program.specs.Written.{IsStatusBehind};

use c62_answer::{Refused, write_whole};
use std::io::Write;

/// The status behind a text that was written: this one, and 4 where the output took no more, which is said.
pub fn status_behind<E: Write>(written: Result<(), Refused>, done: u8, errors: &mut E) -> u8
    ensures { IsStatusBehind written done (E.contents errors.old) (E.contents errors.new) result }
{
    match written {
        Ok(()) => done,
        Err(_) => {
            let _ = write_whole(errors, b"output\n");
            4
        }
    }
}
