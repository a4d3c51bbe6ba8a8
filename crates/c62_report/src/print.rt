//! Memory that is printed below a report (docs/REPORT.md, "Memory that is printed").

ghost use Rattle.std.specs.Prelude.{◌≡◌, ◌++◌, ◌+◌, ◌*◌, ◌%◌, ◌^◌, OnOk, IsTrue};
ghost use Rattle.std.specs.Fmt.{signed_decimal};
ghost use Rattle.c62_serial.specs.Memory.{is_size};
ghost use Rattle.c62_report.specs.Report.{hex};
ghost use Rattle.c62_report.specs.Print.{print_line, print_lines, signed_value, value_at, value_text};

use crate::report::{push_address, push_hex};
use c62_serial::State;
use itoa::Buffer;
use std::alloc::AllocError;

/// The value of so many bytes at a place.
pub fn value_at(state: &State, place: u32, size: u8) -> u32
    requires { IsTrue (is_size size) }
    ensures { result ≡ value_at state.now.machine place size }
{
    match state.load_at(place, size) {
        Some(value) => value,
        None => 0,
    }
}

/// The low bytes of a value, so many of them, as a signed number.
pub fn signed_value(size: u8, value: u32) -> i32
    ensures { result ≡ signed_value size value }
{
    match size {
        1 => i32::from(((value & 0xff) as u8).cast_signed()),
        2 => i32::from(((value & 0xffff) as u16).cast_signed()),
        _ => value.cast_signed(),
    }
}

/// A value of so many bytes, as its hexadecimal digits or as a signed decimal.
fn push_value_text(out: &mut Vec<u8>, size: u8, signed: bool, value: u32) -> Result<(), AllocError>
    requires { IsTrue (is_size size) }
    ensures { OnOk result (out.new.items ≡ out.old.items ++ value_text size signed value) }
{
    if signed {
        let mut buffer = Buffer::new();
        out.extend_from_slice(buffer.format(signed_value(size, value)).as_bytes())
    } else {
        push_hex(out, size * 2, value)
    }
}

/// The line of a value: its address, and what it is.
fn push_line(
    out: &mut Vec<u8>,
    state: &State,
    place: u32,
    size: u8,
    signed: bool,
) -> Result<(), AllocError>
    requires { IsTrue (is_size size) }
    ensures { OnOk result (out.new.items ≡ out.old.items ++ print_line state.now.machine size signed place) }
{
    out.extend_from_slice(b"print ")?;
    push_address(out, state.base(), place)?;
    out.extend_from_slice(b" ")?;
    push_value_text(out, size, signed, value_at(state, place, size))?;
    out.extend_from_slice(b"\n")
}

/// Adds the lines of so many values from a place in memory on, each of so many bytes.
///
/// # Errors
///
/// `AllocError` where memory ran out.
pub fn push_print(
    out: &mut Vec<u8>,
    state: &State,
    place: u32,
    count: u32,
    size: u8,
    signed: bool,
) -> Result<(), AllocError>
    requires { IsTrue (is_size size) }
    ensures { OnOk result (out.new.items ≡ out.old.items ++ print_lines state.now.machine size signed count place) }
{
    let mut place = place;
    let mut left = count;
    while left > 0 {
        push_line(out, state, place, size, signed)?;
        place = place.wrapping_add(u32::from(size));
        left -= 1;
    }
    Ok(())
}
