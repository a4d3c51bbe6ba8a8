//! Which command wants a text that another command refuses.

ghost use Rattle.std.specs.Prelude.{OnOk};
ghost use Rattle.c62_explain.specs.Picture.{AddsHelp};

use c62_adopt::{AdoptFault, adopt};
use c62_explain::push_hint;
use c62_line::{Cause, Mnemonic, first_condition, first_label, first_mnemonic, unit_behind};
use c62_listing_reader::{ListFault, read_listing};
use c62_op::InstructionSet;
use c62_read::{first_line, read_program};
use c62_token::Tokens;
use std::alloc::{AllocError, Global};

/// Whether the text is serial text.
fn is_serial(isa: InstructionSet, alloc: Global, text: &[u8]) -> Result<bool, AllocError> {
    match read_program(isa, alloc, text) {
        Ok(_) => Ok(true),
        Err(fault) => match fault.cause {
            Cause::Memory => Err(AllocError),
            _ => Ok(false),
        },
    }
}

/// Whether the text is a listing.
fn is_listing(isa: InstructionSet, alloc: Global, text: &[u8]) -> Result<bool, AllocError> {
    match read_listing(isa, alloc, text) {
        Ok(_) => Ok(true),
        Err(ListFault::Memory) => Err(AllocError),
        Err(_) => Ok(false),
    }
}

/// Whether the text is one of packets that are adopted.
fn is_adopted(isa: InstructionSet, alloc: Global, text: &[u8]) -> Result<bool, AllocError> {
    match adopt(isa, alloc, text, false) {
        Ok(_) => Ok(true),
        Err(AdoptFault::Memory) => Err(AllocError),
        Err(_) => Ok(false),
    }
}

/// Whether a line has what packets have: bars, a unit or a NOP.
fn is_of_packets(isa: InstructionSet, line: &[u8]) -> bool {
    let (_label, rest) = first_label(Tokens::new(line));
    match rest.peek() {
        Some([b'|', b'|']) => true,
        _ => names_unit(isa, rest).unwrap_or(false),
    }
}

/// Whether an instruction is a NOP or names its unit, where one stands here.
fn names_unit(isa: InstructionSet, rest: Tokens<'_>) -> Option<bool> {
    let (_cond, rest) = first_condition(rest)?;
    let (mnemonic, rest) = first_mnemonic(isa, rest)?;
    let (written, _rest) = unit_behind(mnemonic, rest)?;
    Some(matches!(mnemonic, Mnemonic::Nop) || written.is_some())
}

/// Whether some line of the text has what packets have.
fn has_packets(isa: InstructionSet, text: &[u8]) -> bool {
    let mut rest = text;
    while let Some((line, after)) = first_line(rest) {
        if is_of_packets(isa, line) {
            return true;
        }
        rest = after;
    }
    false
}

/// What helps where a text isn't serial text.
fn serial_hint(isa: InstructionSet, alloc: Global, text: &[u8]) -> Result<Vec<u8>, AllocError> {
    let mut hint = Vec::new(alloc);
    if is_listing(isa, alloc, text)? {
        hint.extend_from_slice(b"this is a listing: `sim` runs it")?;
    } else if has_packets(isa, text) && is_adopted(isa, alloc, text)? {
        hint.extend_from_slice(
            b"these are packets: `exec` runs them, and `adopt` makes their listing",
        )?;
    }
    Ok(hint)
}

/// Adds which command wants a text that isn't serial text; nothing where that isn't known.
pub(crate) fn push_serial_hint(
    isa: InstructionSet,
    more: &mut Vec<u8>,
    alloc: Global,
    text: &[u8],
    line: u32,
) -> Result<(), AllocError>
    ensures { OnOk result (AddsHelp line more.old.items more.new.items) }
{
    let hint = serial_hint(isa, alloc, text)?;
    if hint.is_empty() {
        return Ok(());
    }
    push_hint(more, line, &[&hint])
}

/// Adds which command wants a text that is no listing and no packets: serial text is run by others. Nothing where it has what packets have.
pub(crate) fn push_packets_hint(
    isa: InstructionSet,
    more: &mut Vec<u8>,
    alloc: Global,
    text: &[u8],
    line: u32,
) -> Result<(), AllocError> {
    if !has_packets(isa, text) && is_serial(isa, alloc, text)? {
        return push_hint(
            more,
            line,
            &[b"this is serial text: `run` packs and runs it"],
        );
    }
    Ok(())
}
