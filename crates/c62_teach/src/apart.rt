//! What is told of accesses that are promised to be apart in a serial run.

ghost use Rattle.std.specs.Prelude.{◌≡◌, [], false, IfOk};
ghost use Rattle.c62_command.specs.CommandLine.{ask_of};
ghost use Rattle.c62_teach.specs.Apart.{TellsApart, WatchesRun, WatchesText, IsUntold};

use c62_answer::opening;
use c62_apart::{meetings_of, push_loops};
use c62_command::{Request, Start};
use c62_line::Cause;
use c62_op::{InstructionSet, Reg};
use c62_read::{Program, read_program};
use std::alloc::{AllocError, Global};

/// What is told of a run whose accesses are looked at.
#[derive(Debug, Drop)]
pub struct Watched {
    pub lines: Vec<u8>,
    /// Whether two of them met.
    pub meets: bool,
}

/// Nothing is told.
fn untold(alloc: Global) -> Watched
    ensures { IsUntold result.lines.items result.meets }
{
    Watched {
        lines: Vec::new(alloc),
        meets: false,
    }
}

/// What is told of a program's serial run.
fn watched_run(
    alloc: Global,
    program: &Program,
    start: &Start,
    apart: &[Reg],
) -> Result<Watched, AllocError>
    ensures { IfOk result (λ told. WatchesRun program.now start.now.settings.items start.now.course apart.now told.lines.items told.meets) }
{
    let mut state = opening(alloc, &start.settings)?;
    let base = state.base();
    let met = meetings_of(alloc, program, apart, &mut state, start.course.blocks)?;
    let mut lines = Vec::new(alloc);
    push_loops(&mut lines, alloc, base, program.blocks(), &met)?;
    let meets = !met.is_empty();
    Ok(Watched { lines, meets })
}

/// What is told of the run of a text.
#[tactic(auto, using(crate::proofs::Meets::program_some, crate::proofs::Meets::program_none))]
fn watched_text(
    isa: InstructionSet,
    alloc: Global,
    start: &Start,
    apart: &[Reg],
    text: &[u8],
) -> Result<Watched, AllocError>
    ensures { IfOk result (λ told. WatchesText isa start.now.settings.items start.now.course apart.now text.now told.lines.items told.meets) }
{
    let fault = match read_program(isa, alloc, text) {
        Ok(program) => return watched_run(alloc, &program, start, apart),
        Err(fault) => fault,
    };
    if let Cause::Memory = fault.cause {
        return Err(AllocError);
    }
    Ok(untold(alloc))
}

/// Where accesses from registers that `serial` names as apart meet in the run that is asked for, a line each, and a line for each other loop
/// (docs/CHECK.md, "A run that is looked at"). Nothing where something else is asked for.
///
/// # Errors
///
/// `AllocError` where memory ran out.
pub fn apart_told(
    isa: InstructionSet,
    alloc: Global,
    request: &Request,
    text: &[u8],
) -> Result<Watched, AllocError>
    ensures { IfOk result (λ told. TellsApart isa (ask_of request.now) text.now told.lines.items told.meets) }
{
    match request {
        Request::Serial(start, apart) if !apart.is_empty() => {
            watched_text(isa, alloc, start, apart, text)
        }
        _ => Ok(untold(alloc)),
    }
}
