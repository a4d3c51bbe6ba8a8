//! Why a word is no setting.

ghost use Rattle.std.specs.Prelude.{◌≡◌, ◌==◌, ◌++◌, true, false, codes, find, map, option_map, IfOk, OnOk};
ghost use Rattle.c62_command.specs.Settings.{parts, place_in};
ghost use Rattle.c62_token.specs.Number.{register_of};
ghost use Rattle.c62_teach.specs.Setting.{is_no_number, memory_reason, named_reason, no_address, no_number, no_room, reason, reason_at, register_reason, setting_taught, values_reason};

use c62_command::{Size, base_given, equals_sign, first_part, place_in, setting_at};
use c62_token::number::{number, register};
use std::alloc::{AllocError, Global};

fn push_no_number(out: &mut Vec<u8>, value: &[u8]) -> Result<(), AllocError>
    ensures { OnOk result (out.new.items ≡ out.old.items ++ no_number value.now) }
{
    out.extend_from_slice(value)?;
    out.extend_from_slice(b" is no number: decimal, or 0x and hexadecimal digits, in 32 bits")
}

/// The first of the values between commas that is no number.
fn bad_value(values: &[u8]) -> Option<&[u8]>
    ensures { option_map (λ value. value.now) result ≡ find is_no_number (parts values.now) }
{
    let mut rest = values;
    loop {
        let (value, behind) = first_part(rest);
        if number(value).is_none() {
            return Some(value);
        }
        rest = behind?;
    }
}

/// Where in memory that begins at 0 values of a size can be.
fn no_room_from_zero(size: Size) -> &'static [u8]
    ensures { result.now ≡ no_room true size }
{
    match size {
        Size::Byte => b"bytes of memory have addresses from 0 to 65535",
        Size::Half => b"halves of memory have addresses from 0 to 65534 that are multiples of 2",
        Size::Word => b"words of memory have addresses from 0 to 65532 that are multiples of 4",
    }
}

/// Where in memory that begins elsewhere values of a size can be.
fn no_room_from_base(size: Size) -> &'static [u8]
    ensures { result.now ≡ no_room false size }
{
    match size {
        Size::Byte => b"bytes of memory have addresses from --base on to 65535 behind it",
        Size::Half => {
            b"halves of memory have addresses from --base on to 65534 behind it that are multiples of 2"
        }
        Size::Word => {
            b"words of memory have addresses from --base on to 65532 behind it that are multiples of 4"
        }
    }
}

/// Where in memory values of a size can be, where it begins at 0 or elsewhere.
fn no_room(is_zero: bool, size: Size) -> &'static [u8]
    ensures { result.now ≡ no_room is_zero size }
{
    if is_zero {
        no_room_from_zero(size)
    } else {
        no_room_from_base(size)
    }
}

/// What addresses there are, where memory begins at 0 or elsewhere.
fn no_address(is_zero: bool) -> &'static [u8]
    ensures { result.now ≡ no_address is_zero }
{
    if is_zero {
        b" is no address: 0 to 65535, with :h behind it for halves or :b for bytes"
    } else {
        b" is no address: from --base on to 65535 behind it, with :h behind it for halves or :b for bytes"
    }
}

fn push_values_reason(
    out: &mut Vec<u8>,
    is_zero: bool,
    size: Size,
    values: &[u8],
) -> Result<(), AllocError>
    ensures { OnOk result (out.new.items ≡ out.old.items ++ values_reason is_zero size (find is_no_number (parts values.now))) }
{
    match bad_value(values) {
        Some(value) => push_no_number(out, value),
        None => out.extend_from_slice(no_room(is_zero, size)),
    }
}

/// Why these values can't be put into memory at this address.
fn push_memory_reason(
    out: &mut Vec<u8>,
    base: u32,
    place: &[u8],
    values: &[u8],
) -> Result<(), AllocError>
    ensures { OnOk result (out.new.items ≡ out.old.items ++ memory_reason (base == 0) place.now values.now (place_in base place.now)) }
{
    match place_in(base, place) {
        Some((_, size)) => push_values_reason(out, base == 0, size, values),
        None => {
            out.extend_from_slice(place)?;
            out.extend_from_slice(no_address(base == 0))
        }
    }
}

/// Why this value can't be put into the register of this name.
fn push_register_reason(out: &mut Vec<u8>, name: &[u8], value: &[u8]) -> Result<(), AllocError>
    ensures { OnOk result (out.new.items ≡ out.old.items ++ register_reason name.now value.now (register_of name.now)) }
{
    match register(name) {
        Some(_) => push_no_number(out, value),
        None => {
            out.extend_from_slice(name)?;
            out.extend_from_slice(b" is no register: A0 to A15 and B0 to B15, or @ and an address")
        }
    }
}

/// Why this value can't be put under this name: `print` prints, `dump` writes to a file, `base` is where memory begins, and any other
/// name is that of a register.
fn push_named_reason(out: &mut Vec<u8>, name: &[u8], value: &[u8]) -> Result<(), AllocError>
    ensures { OnOk result (out.new.items ≡ out.old.items ++ named_reason name.now value.now) }
{
    if name == b"print".as_slice() {
        out.extend_from_slice(
            b"ADDRESS+LENGTH is printed, whole words within memory; with :h, :b, :d, :hd or :bd behind it halves, bytes or decimals",
        )
    } else if name == b"dump".as_slice() {
        out.extend_from_slice(b"--dump ADDRESS+LENGTH=NAME writes bytes within memory to a file")
    } else if name == b"base".as_slice() {
        out.extend_from_slice(
            b"--base ADDRESS lets memory begin at a multiple of 4, 0 to 0xffff0000",
        )
    } else {
        push_register_reason(out, name, value)
    }
}

/// Why these values can't be put there.
fn push_reason_at(
    out: &mut Vec<u8>,
    base: u32,
    place: &[u8],
    values: &[u8],
) -> Result<(), AllocError>
    ensures { OnOk result (out.new.items ≡ out.old.items ++ reason_at base place.now values.now) }
{
    match place.strip_prefix(b"@") {
        Some(address) => push_memory_reason(out, base, address, values),
        None => push_named_reason(out, place, values),
    }
}

/// Why a word is no setting where memory begins at this base.
fn push_reason(out: &mut Vec<u8>, base: u32, word: &[u8]) -> Result<(), AllocError>
    ensures { OnOk result (out.new.items ≡ out.old.items ++ reason base word.now) }
{
    match equals_sign(word) {
        Some(equals) => push_reason_at(out, base, &word[..equals], &word[equals + 1..]),
        None => out.extend_from_slice(
            b"a setting is REG=NUMBER, or @ADDRESS=NUMBER,.. with :h or :b behind the address for halves or bytes",
        ),
    }
}

/// A word, and why it is no setting.
fn word_taught(alloc: Global, base: u32, word: &[u8]) -> Result<Vec<u8>, AllocError>
    ensures { IfOk result (λ more. more.items ≡ word.now ++ codes ": " ++ reason base word.now ++ codes "\n") }
{
    let mut more = Vec::new(alloc);
    more.extend_from_slice(word)?;
    more.extend_from_slice(b": ")?;
    push_reason(&mut more, base, word)?;
    more.extend_from_slice(b"\n")?;
    Ok(more)
}

/// The setting of this number, from 1, among the words of a command, and why it is none, on a line (docs/FAULTS.md). Nothing where there
/// are fewer settings.
///
/// # Errors
///
/// `AllocError` where memory ran out.
pub fn setting_taught(alloc: Global, words: &[&str], wanted: usize) -> Result<Vec<u8>, AllocError>
    ensures { IfOk result (λ more. more.items ≡ setting_taught (map (λ word. word.now) words.now) wanted) }
{
    let base = base_given(alloc, words)?.unwrap_or(0);
    match setting_at(alloc, words, wanted)? {
        Some(word) => word_taught(alloc, base, word.as_bytes()),
        None => Ok(Vec::new(alloc)),
    }
}
