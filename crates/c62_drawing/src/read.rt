//! What of a text runs.

ghost use Rattle.std.specs.Prelude.{◌≡◌, IfOk, IfSome, IsTrue, Some, option_map};
ghost use Rattle.std.specs.Option.{option_copied};
ghost use Rattle.c62_packet.specs.Packets.{is_closed};
ghost use Rattle.c62_command.specs.declared.command.Form.TheVariants.{Listed, Written};
ghost use Rattle.c62_drawing.specs.Found.{FindsCode, FindsFlight, FindsPackets, FindsRows, FindsTaken};

use c62_adopt::laws::texts_that_stand_lack_nothing;
use c62_adopt::{AdoptFault, adopt, read_code};
use c62_command::{FlightStart, Form};
use c62_listing_reader::{ListFault, read_listing};
use c62_op::InstructionSet;
use c62_packet::Packets;
use c62_reach::{ReachFault, reached_text};
use c62_rows::{Begun, RowsFault, read_from};
use std::alloc::{AllocError, Global};

/// The packets of a listing; none where it is refused.
#[tactic(auto, using(crate::proofs::Reading::listing_none))]
fn listed(isa: InstructionSet, alloc: Global, text: &[u8]) -> Result<Option<Packets>, AllocError>
    ensures found { IfOk result (FindsPackets isa Listed text.now) }
    ensures closed { IfOk result (λ found. IfSome found (λ packets. IsTrue (is_closed packets))) }
{
    let fault = match read_listing(isa, alloc, text) {
        Ok(packets) => return Ok(Some(packets)),
        Err(fault) => fault,
    };
    if let ListFault::Memory = fault {
        return Err(AllocError);
    }
    Ok(None)
}

/// The packets of a text as people and compilers write them; none where it is refused.
#[tactic(auto, using(crate::proofs::Reading::written_none))]
fn written(isa: InstructionSet, alloc: Global, text: &[u8]) -> Result<Option<Packets>, AllocError>
    ensures found { IfOk result (FindsPackets isa Written text.now) }
    ensures closed { IfOk result (λ found. IfSome found (λ packets. IsTrue (is_closed packets))) }
{
    // It tells that no cycle is added where the text isn't drained.
    texts_that_stand_lack_nothing();
    let fault = match adopt(isa, alloc, text, false) {
        Ok(adopted) => return Ok(Some(adopted.packets)),
        Err(fault) => fault,
    };
    if let AdoptFault::Memory = fault {
        return Err(AllocError);
    }
    Ok(None)
}

/// The packets that a text of this form says; none where it is refused.
///
/// # Errors
///
/// `AllocError` where memory ran out.
pub(crate) fn packets_in(
    isa: InstructionSet,
    alloc: Global,
    form: Form,
    text: &[u8],
) -> Result<Option<Packets>, AllocError>
    ensures found { IfOk result (FindsPackets isa form text.now) }
    ensures closed { IfOk result (λ found. IfSome found (λ packets. IsTrue (is_closed packets))) }
{
    match form {
        Form::Listed => listed(isa, alloc, text),
        Form::Written => written(isa, alloc, text),
    }
}

/// The rows of code, and where a run begins.
#[tactic(auto, using(crate::proofs::Reading::rows_none))]
fn rows_in(
    isa: InstructionSet,
    alloc: Global,
    from: Option<&[u8]>,
    code: &[u8],
) -> Result<Option<Begun>, AllocError>
    ensures { IfOk result (FindsRows isa (option_copied from.entry) code.now) }
{
    let fault = match read_from(isa, alloc, code, from) {
        Ok(begun) => return Ok(Some(begun)),
        Err(fault) => fault,
    };
    if let RowsFault::Memory = fault {
        return Err(AllocError);
    }
    Ok(None)
}

/// Those of a text's code.
#[tactic(auto, using(crate::proofs::Reading::code_some, crate::proofs::Reading::code_none))]
fn code_in(
    isa: InstructionSet,
    alloc: Global,
    from: Option<&[u8]>,
    text: &[u8],
) -> Result<Option<Begun>, AllocError>
    ensures { IfOk result (FindsCode isa (option_copied from.entry) text.now) }
{
    let fault = match read_code(isa, alloc, text) {
        Ok(code) => return rows_in(isa, alloc, from, &code),
        Err(fault) => fault,
    };
    if let AdoptFault::Memory = fault {
        return Err(AllocError);
    }
    Ok(None)
}

/// Those of what is taken of a text from this label on.
#[tactic(auto, using(crate::proofs::Reading::taken_some, crate::proofs::Reading::taken_none))]
fn taken_in(
    isa: InstructionSet,
    alloc: Global,
    name: &[u8],
    text: &[u8],
) -> Result<Option<Begun>, AllocError>
    ensures { IfOk result (FindsTaken isa name.now (Some name.now) text.now) }
{
    match reached_text(isa, alloc, text, name) {
        Ok(taken) => code_in(isa, alloc, Some(name), &taken),
        Err(ReachFault::Memory) => Err(AllocError),
        Err(ReachFault::From) => Ok(None),
    }
}

/// The rows of a text of packets in flight, as it is asked for; none where it is refused.
///
/// # Errors
///
/// `AllocError` where memory ran out.
pub(crate) fn flight_in(
    isa: InstructionSet,
    alloc: Global,
    start: &FlightStart,
    text: &[u8],
) -> Result<Option<Begun>, AllocError>
    ensures { IfOk result (FindsFlight isa start.now.alone (option_map (λ name. name.items) start.now.from) text.now) }
{
    match &start.from {
        Some(name) if start.alone => taken_in(isa, alloc, name, text),
        Some(name) => code_in(isa, alloc, Some(name), text),
        None => code_in(isa, alloc, None, text),
    }
}
