//! The program c62: packs serial text into execute packets, adopts packets as others write them, and runs text and packets,
//! with everything in flight.
#![tactic(auto)]

use c62_files::Disk;
use c62_program::run_program;
use std::process::ExitCode;
use std::{env, io};

/// The words after the program's name.
fn words_of(rt: &(impl std::rt::Env + AllocGlobal)) -> io::Result<Vec<String>> {
    Ok(env::args(rt)?.skip(1).collect(rt.alloc())?)
}

fn main(rt: HostRuntime) -> ExitCode {
    let words = match words_of(&rt) {
        Ok(words) => words,
        Err(error) if error.kind() == io::ErrorKind::OutOfMemory => {
            let _ = eprintln!(rt; "memory");
            return ExitCode::from(3);
        }
        Err(_) => {
            let _ = eprintln!(rt; "error: an argument is not UTF-8");
            return ExitCode::from(2);
        }
    };
    let ended = run_program(
        &rt,
        &mut Disk::new(&rt),
        words.as_slice(),
        &mut rt.stdin(),
        &mut rt.stdout(),
        rt.stderr(),
    );
    ExitCode::from(ended.status)
}
