//! What is told behind the line that refuses a text, and of packets that aren't the same.

ghost use Rattle.std.specs.Prelude.{◌≢◌, IfOk};
ghost use Rattle.c62_command.specs.CommandLine.{ask_of};
ghost use Rattle.c62_teach.specs.Taught.{Teaches, TeachesSerial};

use crate::other::push_serial_hint;
use crate::packets::{adopting_taught, check_taught, flight_taught, form_taught, loops_taught};
use c62_command::{Form, Request};
use c62_explain::explain;
use c62_line::Cause;
use c62_op::InstructionSet;
use c62_read::read_program;
use std::alloc::{AllocError, Global};

/// What a text is called, and of a check its listing.
#[derive(Clone, Copy, PartialEq, Eq, Debug)]
pub struct Names<'a> {
    pub text: &'a str,
    pub listing: &'a str,
}

/// What explains the fault of a serial text that has this name; nothing where the text has none.
#[tactic(auto, using(crate::proofs::Refusals::taught_by, crate::proofs::Refusals::taught_more))]
fn serial_taught(
    isa: InstructionSet,
    alloc: Global,
    name: &[u8],
    text: &[u8],
) -> Result<Vec<u8>, AllocError>
    ensures { IfOk result (λ more. TeachesSerial isa name.now text.now more.items) }
{
    let fault = match read_program(isa, alloc, text) {
        Ok(_) => return Ok(Vec::new(alloc)),
        Err(fault) => fault,
    };
    if let Cause::Memory = fault.cause {
        return Err(AllocError);
    }
    let mut more = explain(isa, alloc, name, text, fault)?;
    if fault.line == 0 {
        return Ok(more);
    }
    push_serial_hint(isa, &mut more, alloc, text, fault.line)?;
    Ok(more)
}

/// What is told behind the line that refuses a text, where that is asked to be explained: where the fault is found, the line with carets
/// under it, what is wrong, and what helps (docs/FAULTS.md). Of what is checked and isn't refused it is what is told of a difference, if there
/// is one (docs/CHECK.md, "What `--explain` adds"), and else nothing.
///
/// # Errors
///
/// `AllocError` where memory ran out.
pub fn taught(
    isa: InstructionSet,
    alloc: Global,
    request: &Request,
    names: Names<'_>,
    text: &[u8],
) -> Result<Vec<u8>, AllocError>
    ensures { IfOk result (λ more. Teaches isa (ask_of request.now) names.entry.text.now names.entry.listing.now text.now more.items) }
{
    let name = names.text.as_bytes();
    match request {
        Request::Pack(_) | Request::Show(_) | Request::Run(_, _) | Request::Serial(_, _) => {
            serial_taught(isa, alloc, name, text)
        }
        Request::PackLoops(_) | Request::ShowLoops(_, _) | Request::RunLoops(_, _) => {
            serial_taught(isa, alloc, name, text)
        }
        Request::Sim(form, _) => form_taught(isa, alloc, *form, name, text),
        Request::ShowListing(_) => form_taught(isa, alloc, Form::Listed, name, text),
        Request::Exec(start) => flight_taught(isa, alloc, name, text, start),
        Request::Adopt(adopting) => adopting_taught(isa, alloc, name, text, adopting),
        Request::ShowPackets(_) => form_taught(isa, alloc, Form::Written, name, text),
        Request::Check(form) => check_taught(isa, alloc, *form, names, text),
        Request::CheckLoops(promises) => loops_taught(isa, alloc, names, text, promises),
    }
}
