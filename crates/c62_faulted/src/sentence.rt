//! What is said of an access that faulted.

ghost use Rattle.std.specs.Prelude.{◌≡◌, ◌++◌, OnOk, decimal};
ghost use Rattle.std.specs.List.{flat_map};
ghost use Rattle.c62_faulted.specs.Sentence.{access_text, bytes_text, cause_text, fault_text, verb};
ghost use Rattle.c62_faulted.specs.declared.fault.Cause.TheVariants.{Misaligned};

use crate::fault::{Cause, Fault};
use itoa::Buffer;
use std::alloc::{AllocError, Global};

fn verb(stores: bool) -> &'static [u8]
    ensures { result.now ≡ verb stores }
{
    if stores { b" writes " } else { b" reads " }
}

fn push_bytes(out: &mut Vec<u8>, size: u8) -> Result<(), AllocError>
    ensures { OnOk result (out.new.items ≡ out.old.items ++ bytes_text size) }
{
    let mut buffer = Buffer::new();
    out.extend_from_slice(buffer.format(size).as_bytes())?;
    if size == 1 {
        out.extend_from_slice(b" byte")
    } else {
        out.extend_from_slice(b" bytes")
    }
}

/// `line L: STW writes 4 bytes`
fn push_access(out: &mut Vec<u8>, fault: Fault) -> Result<(), AllocError>
    ensures { OnOk result (out.new.items ≡ out.old.items ++ access_text fault) }
{
    let mut buffer = Buffer::new();
    out.extend_from_slice(b"line ")?;
    out.extend_from_slice(buffer.format(fault.line).as_bytes())?;
    out.extend_from_slice(b": ")?;
    out.extend_from_slice(fault.op.mnemonic().as_bytes())?;
    out.extend_from_slice(verb(fault.op.is_store()))?;
    push_bytes(out, fault.size)
}

/// Words, and a number behind them.
fn push_counted(out: &mut Vec<u8>, words: &[u8], number: u8) -> Result<(), AllocError>
    ensures { OnOk result (out.new.items ≡ out.old.items ++ words.now ++ decimal number) }
{
    let mut buffer = Buffer::new();
    out.extend_from_slice(words)?;
    out.extend_from_slice(buffer.format(number).as_bytes())
}

fn push_multiple(out: &mut Vec<u8>, size: u8) -> Result<(), AllocError>
    ensures { OnOk result (out.new.items ≡ out.old.items ++ cause_text Misaligned size) }
{
    push_counted(out, b", no multiple of ", size)
}

fn push_cause(out: &mut Vec<u8>, cause: Cause, size: u8) -> Result<(), AllocError>
    ensures { OnOk result (out.new.items ≡ out.old.items ++ cause_text cause size) }
{
    match cause {
        Cause::Misaligned => push_multiple(out, size),
        Cause::PastEnd => out.extend_from_slice(b", past the end of memory"),
    }
}

/// A line for this fault, where memory begins at a base.
fn push_fault(out: &mut Vec<u8>, alloc: Global, base: u32, fault: Fault) -> Result<(), AllocError>
    ensures { OnOk result (out.new.items ≡ out.old.items ++ fault_text base fault) }
{
    push_access(out, fault)?;
    let address = base.wrapping_add(fault.place);
    out.extend_from_slice(format!(in alloc; " at 0x{address:x}")?.as_bytes())?;
    push_cause(out, fault.cause, fault.size)?;
    out.extend_from_slice(b"\n")
}

/// A line `line L: LDH reads 2 bytes at 0x1, no multiple of 2` for each of these faults, where memory begins at a base.
///
/// # Errors
///
/// `AllocError` where memory ran out.
pub fn push_faults(
    out: &mut Vec<u8>,
    alloc: Global,
    base: u32,
    faults: &[Fault],
) -> Result<(), AllocError>
    ensures { OnOk result (out.new.items ≡ out.old.items ++ flat_map (fault_text base) faults.now) }
{
    for fault in faults {
        push_fault(out, alloc, base, *fault)?;
    }
    Ok(())
}
