//! Writes the report of a run of packets in flight (docs/EXEC.md, "The report").

ghost use Rattle.std.specs.Prelude.{◌≡◌, ◌++◌, IfOk, OnOk, decimal, codes};
ghost use Rattle.c62_op.specs.Name.{register_name};
ghost use Rattle.c62_report.specs.Report.{line};
ghost use Rattle.c62_report.specs.Flight.{lines_named, stop_line, flight_report};

use crate::report::{push_count, push_exit, push_machine, push_register};
use c62_flight::Stop;
use c62_insn::Reg;
use c62_serial::{End, State};
use itoa::Buffer;
use std::alloc::{AllocError, Global};

/// The lines of two instructions, and the end of the line.
fn push_lines(out: &mut Vec<u8>, first: u32, second: u32) -> Result<(), AllocError>
    ensures { OnOk result (out.new.items ≡ out.old.items ++ lines_named first second) }
{
    let mut buffer = Buffer::new();
    out.extend_from_slice(b" ")?;
    out.extend_from_slice(buffer.format(first).as_bytes())?;
    out.extend_from_slice(b" ")?;
    out.extend_from_slice(buffer.format(second).as_bytes())?;
    out.extend_from_slice(b"\n")
}

fn push_clash(out: &mut Vec<u8>, reg: Reg, first: u32, second: u32) -> Result<(), AllocError>
    ensures { OnOk result (out.new.items ≡ out.old.items ++ codes "exit clash " ++ register_name reg ++ lines_named first second) }
{
    out.extend_from_slice(b"exit clash ")?;
    push_register(out, reg)?;
    push_lines(out, first, second)
}

/// How the run stopped.
#[tactic(auto, unfolding(crate::specs::Flight::stop_line))]
fn push_stop(out: &mut Vec<u8>, stop: Stop) -> Result<(), AllocError>
    ensures { OnOk result (out.new.items ≡ out.old.items ++ stop_line stop) }
{
    match stop {
        Stop::End => push_exit(out, End::End),
        Stop::Limit => push_exit(out, End::Limit),
        Stop::Register(value) => push_exit(out, End::Register(value)),
        Stop::Clash(reg, first, second) => push_clash(out, reg, first, second),
        Stop::Branches(first, second) => {
            out.extend_from_slice(b"exit branches")?;
            push_lines(out, first, second)
        }
    }
}

/// The report of a run of packets in flight: how many cycles it took, how it stopped, and what the machine holds when all has
/// landed. The registers and words of memory that are 0 have no line.
///
/// # Errors
///
/// Where memory ran out.
#[tactic(auto, unfolding(crate::specs::Flight::flight_report))]
pub fn flight_report(
    alloc: Global,
    stop: Stop,
    cycles: u64,
    state: &State,
) -> Result<Vec<u8>, AllocError>
    ensures { IfOk result (λ report. report.items ≡ flight_report stop cycles state.now.machine) }
{
    let mut out = Vec::new(alloc);
    push_count(&mut out, b"cycles ", cycles)?;
    push_stop(&mut out, stop)?;
    push_machine(&mut out, state)?;
    Ok(out)
}
