//! What is told of texts of packets that are refused, and of packets that are checked.

use crate::differing::blocks_told;
use crate::differing_loops::loops_told;
use crate::meant::Serial;
use crate::other::push_packets_hint;
use crate::teaching::Names;
use c62_adopt::{AdoptFault, adopt, read_code};
use c62_answer::parts_of;
use c62_check_loops::first_loopless;
use c62_command::{Adopting, FlightStart, Form, Promises};
use c62_explain::explain as explain_serial;
use c62_explain_packets::{Finding, explain, of_adopt, of_listing, of_rows};
use c62_line::{Cause, ReadFault};
use c62_listing_reader::{ListFault, read_listing};
use c62_op::InstructionSet;
use c62_packet::Packets;
use c62_reach::{ReachFault, reached_text};
use c62_read::read_program;
use c62_rows::{RowsFault, RowsText, read_from, read_rows};
use std::alloc::{AllocError, Global};

/// What explains a fault of packets, and which command wants the text.
fn found_taught(
    isa: InstructionSet,
    alloc: Global,
    name: &[u8],
    text: &[u8],
    found: Option<Finding>,
) -> Result<Vec<u8>, AllocError> {
    let Some(finding) = found else {
        return Ok(Vec::new(alloc));
    };
    let mut more = explain(isa, alloc, name, text, finding)?;
    if finding.line != 0 {
        push_packets_hint(isa, &mut more, alloc, text, finding.line)?;
    }
    Ok(more)
}

/// What explains the fault of a listing.
fn sim_taught(
    isa: InstructionSet,
    alloc: Global,
    name: &[u8],
    text: &[u8],
) -> Result<Vec<u8>, AllocError> {
    match read_listing(isa, alloc, text) {
        Ok(_) => Ok(Vec::new(alloc)),
        Err(ListFault::Memory) => Err(AllocError),
        Err(fault) => found_taught(isa, alloc, name, text, of_listing(isa, alloc, text, fault)?),
    }
}

/// What explains the fault of a text of packets, drained or as it stands.
fn adopt_taught(
    isa: InstructionSet,
    alloc: Global,
    name: &[u8],
    text: &[u8],
    drain: bool,
) -> Result<Vec<u8>, AllocError> {
    match adopt(isa, alloc, text, drain) {
        Ok(_) => Ok(Vec::new(alloc)),
        Err(AdoptFault::Memory) => Err(AllocError),
        Err(fault) => found_taught(isa, alloc, name, text, of_adopt(fault)),
    }
}

/// What explains the fault of what is taken of a text of packets from this label on.
fn adopt_taught_from(
    isa: InstructionSet,
    alloc: Global,
    name: &[u8],
    text: &[u8],
    from: &[u8],
    drain: bool,
) -> Result<Vec<u8>, AllocError> {
    match reached_text(isa, alloc, text, from) {
        Ok(taken) => adopt_taught(isa, alloc, name, &taken, drain),
        Err(ReachFault::Memory) => Err(AllocError),
        Err(ReachFault::From) => found_taught(isa, alloc, name, text, of_rows(RowsFault::From)),
    }
}

/// What explains the fault of a text of packets that is to be adopted so.
pub(crate) fn adopting_taught(
    isa: InstructionSet,
    alloc: Global,
    name: &[u8],
    text: &[u8],
    adopting: &Adopting,
) -> Result<Vec<u8>, AllocError> {
    match &adopting.from {
        Some(from) => adopt_taught_from(isa, alloc, name, text, from, adopting.drain),
        None => adopt_taught(isa, alloc, name, text, adopting.drain),
    }
}

/// What explains the fault of what is taken of a text of packets from this label on, and is to run in flight from there.
fn exec_taught_alone(
    isa: InstructionSet,
    alloc: Global,
    name: &[u8],
    text: &[u8],
    from: &[u8],
) -> Result<Vec<u8>, AllocError> {
    match reached_text(isa, alloc, text, from) {
        Ok(taken) => exec_taught(isa, alloc, name, &taken, Some(from)),
        Err(ReachFault::Memory) => Err(AllocError),
        Err(ReachFault::From) => found_taught(isa, alloc, name, text, of_rows(RowsFault::From)),
    }
}

/// What explains the fault of a text of packets that is to run in flight so.
pub(crate) fn flight_taught(
    isa: InstructionSet,
    alloc: Global,
    name: &[u8],
    text: &[u8],
    start: &FlightStart,
) -> Result<Vec<u8>, AllocError> {
    match &start.from {
        Some(from) if start.alone => exec_taught_alone(isa, alloc, name, text, from),
        Some(from) => exec_taught(isa, alloc, name, text, Some(from)),
        None => exec_taught(isa, alloc, name, text, None),
    }
}

/// What explains the fault of a text of packets that is to run in flight, from this label on.
fn exec_taught(
    isa: InstructionSet,
    alloc: Global,
    name: &[u8],
    text: &[u8],
    from: Option<&[u8]>,
) -> Result<Vec<u8>, AllocError> {
    let code = match read_code(isa, alloc, text) {
        Ok(code) => code,
        Err(AdoptFault::Memory) => return Err(AllocError),
        Err(fault) => return found_taught(isa, alloc, name, text, of_adopt(fault)),
    };
    match read_from(isa, alloc, &code, from) {
        Ok(_) => Ok(Vec::new(alloc)),
        Err(RowsFault::Memory) => Err(AllocError),
        Err(fault) => found_taught(isa, alloc, name, text, of_rows(fault)),
    }
}

/// What explains the fault of packets of this form.
pub(crate) fn form_taught(
    isa: InstructionSet,
    alloc: Global,
    form: Form,
    name: &[u8],
    text: &[u8],
) -> Result<Vec<u8>, AllocError> {
    match form {
        Form::Listed => sim_taught(isa, alloc, name, text),
        Form::Written => adopt_taught(isa, alloc, name, text, false),
    }
}

/// What explains the fault of the serial text of a check.
fn text_taught(
    isa: InstructionSet,
    alloc: Global,
    name: &[u8],
    text: &[u8],
    fault: ReadFault,
) -> Result<Vec<u8>, AllocError> {
    match fault.cause {
        Cause::Memory => Err(AllocError),
        _ => explain_serial(isa, alloc, name, text, fault),
    }
}

/// The packets that a text of this form says, if it says any.
fn packets_in(
    isa: InstructionSet,
    alloc: Global,
    form: Form,
    text: &[u8],
) -> Result<Option<Packets>, AllocError> {
    match form {
        Form::Listed => match read_listing(isa, alloc, text) {
            Ok(packets) => Ok(Some(packets)),
            Err(ListFault::Memory) => Err(AllocError),
            Err(_) => Ok(None),
        },
        Form::Written => match adopt(isa, alloc, text, false) {
            Ok(adopted) => Ok(Some(adopted.packets)),
            Err(AdoptFault::Memory) => Err(AllocError),
            Err(_) => Ok(None),
        },
    }
}

/// What explains the fault of what is to be checked: of its text, or else of its packets of this form. Where neither has one, what is told of
/// the blocks that differ.
pub(crate) fn check_taught(
    isa: InstructionSet,
    alloc: Global,
    form: Form,
    names: Names<'_>,
    input: &[u8],
) -> Result<Vec<u8>, AllocError> {
    let Some(parts) = parts_of(input) else {
        return Ok(Vec::new(alloc));
    };
    let name = names.text.as_bytes();
    let text = parts.text;
    let program = match read_program(isa, alloc, text) {
        Ok(program) => program,
        Err(fault) => return text_taught(isa, alloc, name, text, fault),
    };
    let serial = Serial {
        name,
        text,
        program: &program,
    };
    match packets_in(isa, alloc, form, parts.listing)? {
        Some(packets) => blocks_told(isa, alloc, serial, &packets),
        None => form_taught(isa, alloc, form, names.listing.as_bytes(), parts.listing),
    }
}

/// The rows that a text of packets says, if it says any.
fn rows_in(
    isa: InstructionSet,
    alloc: Global,
    text: &[u8],
) -> Result<Option<RowsText>, AllocError> {
    let code = match read_code(isa, alloc, text) {
        Ok(code) => code,
        Err(AdoptFault::Memory) => return Err(AllocError),
        Err(_) => return Ok(None),
    };
    match read_rows(isa, alloc, &code) {
        Ok(read) => Ok(Some(read)),
        Err(RowsFault::Memory) => Err(AllocError),
        Err(_) => Ok(None),
    }
}

/// The same of what is to be checked against loops, whose packets fly.
pub(crate) fn loops_taught(
    isa: InstructionSet,
    alloc: Global,
    names: Names<'_>,
    input: &[u8],
    promises: &Promises,
) -> Result<Vec<u8>, AllocError> {
    let Some(parts) = parts_of(input) else {
        return Ok(Vec::new(alloc));
    };
    let name = names.text.as_bytes();
    let text = parts.text;
    let program = match read_program(isa, alloc, text) {
        Ok(program) => program,
        Err(fault) => return text_taught(isa, alloc, name, text, fault),
    };
    let Some(read) = rows_in(isa, alloc, parts.listing)? else {
        return exec_taught(isa, alloc, names.listing.as_bytes(), parts.listing, None);
    };
    if first_loopless(program.blocks(), &promises.trips).is_some() {
        return Ok(Vec::new(alloc));
    }
    let serial = Serial {
        name,
        text,
        program: &program,
    };
    loops_told(isa, alloc, serial, &read, promises)
}
