//! Memory that settings ask to write to files.

ghost use Rattle.std.specs.Prelude.{◌≡◌, ◌++◌, ◌+◌, OnOk};
ghost use Rattle.std.specs.List.{flat_map};
ghost use Rattle.c62_printing.specs.Dumping.{byte_at, bytes_at, dumped, dumps};

use c62_command::{Dump, Setting};
use c62_serial::State;
use std::alloc::AllocError;

/// The byte so far behind a place.
fn byte_at(state: &State, place: u32, offset: u32) -> u8
    ensures { result ≡ byte_at state.now.machine (place + offset) }
{
    state.byte(((u64::from(place) + u64::from(offset)) % 65_536) as u16)
}

/// Adds so many bytes from a place on.
fn push_bytes(out: &mut Vec<u8>, state: &State, dump: Dump) -> Result<(), AllocError>
    ensures { OnOk result (out.new.items ≡ out.old.items ++ bytes_at state.now.machine dump.place dump.count) }
{
    for offset in 0..dump.count {
        out.push(byte_at(state, dump.place, offset))?;
    }
    Ok(())
}

/// Adds the bytes that a setting asks for.
fn push_dumped(out: &mut Vec<u8>, state: &State, setting: Setting) -> Result<(), AllocError>
    ensures { OnOk result (out.new.items ≡ out.old.items ++ dumped state.now.machine setting) }
{
    match setting {
        Setting::Dump(dump) => push_bytes(out, state, dump),
        Setting::Register(_, _)
        | Setting::Byte(_, _)
        | Setting::Half(_, _)
        | Setting::Word(_, _)
        | Setting::Print(_)
        | Setting::Base(_) => Ok(()),
    }
}

/// Adds the bytes of memory that settings ask to write to files, in their order, with nothing between them.
///
/// # Errors
///
/// `AllocError` where memory ran out.
pub fn push_dumps(out: &mut Vec<u8>, state: &State, settings: &[Setting]) -> Result<(), AllocError>
    ensures { OnOk result (out.new.items ≡ out.old.items ++ dumps state.now.machine settings.now) }
{
    for setting in settings {
        push_dumped(out, state, *setting)?;
    }
    Ok(())
}
