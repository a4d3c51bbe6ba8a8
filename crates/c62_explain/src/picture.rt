//! The line of a fault, and carets under what is wrong.

ghost use Rattle.std.specs.Prelude.{◌≡◌, ◌<◌, ◌++◌, ◌^◌, OnOk, decimal, map, replicate};
ghost use Rattle.c62_token.specs.Token.{is_allowed};
ghost use Rattle.c62_explain.specs.Picture.{blank_byte, carets, lead, margin, marked, picture, position, quoted, shown, shown_byte};

use c62_place::Place;
use itoa::Buffer;
use std::alloc::AllocError;

/// How many bytes of a line are shown.
const MOST_SHOWN: usize = 256;

/// So many times this byte.
fn push_times(out: &mut Vec<u8>, count: usize, byte: u8) -> Result<(), AllocError>
    ensures { OnOk result (out.new.items ≡ out.old.items ++ replicate count byte) }
{
    for _ in 0..count {
        out.push(byte)?;
    }
    Ok(())
}

pub(crate) fn push_number(out: &mut Vec<u8>, number: u64) -> Result<(), AllocError>
    ensures { OnOk result (out.new.items ≡ out.old.items ++ decimal number) }
{
    let mut buffer = Buffer::new();
    out.extend_from_slice(buffer.format(number).as_bytes())
}

fn is_allowed(b: u8) -> bool
    ensures { result ≡ is_allowed b }
{
    b == b'\t' || 32 <= b && b < 127
}

fn shown_byte(b: u8) -> u8
    ensures { result ≡ shown_byte b }
{
    if is_allowed(b) { b } else { b'?' }
}

fn blank_byte(b: u8) -> u8
    ensures { result ≡ blank_byte b }
{
    if b == b'\t' { b'\t' } else { b' ' }
}

/// Bytes, with `?` for what may stand in no line.
fn push_allowed(out: &mut Vec<u8>, bytes: &[u8]) -> Result<(), AllocError>
    ensures { OnOk result (out.new.items ≡ out.old.items ++ map shown_byte bytes.now) }
{
    for b in bytes {
        out.push(shown_byte(*b))?;
    }
    Ok(())
}

/// The first bytes of a line, with `?` for what may stand in none.
#[tactic(auto, using(std::proofs::lemmas::List::take_min))]
fn push_shown(out: &mut Vec<u8>, line: &[u8]) -> Result<(), AllocError>
    ensures { OnOk result (out.new.items ≡ out.old.items ++ shown line.now) }
{
    push_allowed(out, &line[..MOST_SHOWN.min(line.len())])
}

/// Adds blanks as wide as these bytes: a tab for a tab, and a space for any other byte.
///
/// # Errors
///
/// `AllocError` where memory ran out.
pub fn push_blanks(out: &mut Vec<u8>, bytes: &[u8]) -> Result<(), AllocError>
    ensures { OnOk result (out.new.items ≡ out.old.items ++ map blank_byte bytes.now) }
{
    for b in bytes {
        out.push(blank_byte(*b))?;
    }
    Ok(())
}

/// What stands under the line before the carets.
fn push_lead(out: &mut Vec<u8>, line: &[u8], place: Place) -> Result<(), AllocError>
    ensures { OnOk result (out.new.items ≡ out.old.items ++ lead line.now place) }
{
    push_blanks(out, &line[..line.len().min(place.start)])
}

fn push_carets(out: &mut Vec<u8>, place: Place) -> Result<(), AllocError>
    ensures { OnOk result (out.new.items ≡ out.old.items ++ carets place) }
{
    push_times(out, place.len.max(1), b'^')
}

/// Blanks as wide as the number.
pub(crate) fn push_margin(out: &mut Vec<u8>, number: u32) -> Result<(), AllocError>
    ensures { OnOk result (out.new.items ≡ out.old.items ++ margin number) }
{
    let mut buffer = Buffer::new();
    push_times(out, buffer.format(number).len(), b' ')
}

/// Adds `FILE:LINE:COLUMN`, the column counted from 1.
///
/// # Errors
///
/// `AllocError` where memory ran out.
pub fn push_position(
    out: &mut Vec<u8>,
    name: &[u8],
    number: u32,
    place: Place,
) -> Result<(), AllocError>
    requires { place.start < 2 ^ 63 }
    ensures { OnOk result (out.new.items ≡ out.old.items ++ position name.now number place) }
{
    out.extend_from_slice(name)?;
    out.extend_from_slice(b":")?;
    push_number(out, u64::from(number))?;
    out.extend_from_slice(b":")?;
    push_number(out, place.start as u64 + 1)
}

/// Where a fault is found, and the line.
fn push_quoted(
    out: &mut Vec<u8>,
    name: &[u8],
    line: &[u8],
    number: u32,
    place: Place,
) -> Result<(), AllocError>
    requires { place.start < 2 ^ 63 }
    ensures { OnOk result (out.new.items ≡ out.old.items ++ quoted name.now line.now number place) }
{
    push_margin(out, number)?;
    out.extend_from_slice(b"--> ")?;
    push_position(out, name, number, place)?;
    out.extend_from_slice(b"\n")?;
    push_number(out, u64::from(number))?;
    out.extend_from_slice(b" | ")?;
    push_shown(out, line)?;
    out.extend_from_slice(b"\n")
}

/// The carets under a line, with what is said.
fn push_marked(
    out: &mut Vec<u8>,
    line: &[u8],
    number: u32,
    place: Place,
    says: &[u8],
) -> Result<(), AllocError>
    ensures { OnOk result (out.new.items ≡ out.old.items ++ marked line.now number place says.now) }
{
    push_margin(out, number)?;
    out.extend_from_slice(b" | ")?;
    push_lead(out, line, place)?;
    push_carets(out, place)?;
    out.extend_from_slice(b" ")?;
    out.extend_from_slice(says)?;
    out.extend_from_slice(b"\n")
}

/// Where a fault is found, the line of this number, and under it the carets with what is said of it.
///
/// # Errors
///
/// `AllocError` where memory ran out.
#[tactic(auto, unfolding(crate::specs::Picture::picture))]
pub fn push_picture(
    out: &mut Vec<u8>,
    name: &[u8],
    line: &[u8],
    number: u32,
    place: Place,
    says: &[u8],
) -> Result<(), AllocError>
    requires { place.start < 2 ^ 63 }
    ensures { OnOk result (out.new.items ≡ out.old.items ++ picture name.now line.now number place says.now) }
{
    push_quoted(out, name, line, number, place)?;
    push_marked(out, line, number, place, says)
}
