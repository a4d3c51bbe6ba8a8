//! Numbers and words in their columns.

ghost use Rattle.std.specs.Prelude.{◌≡◌, OnOk, decimal};
ghost use Rattle.std.specs.Fmt.{signed_decimal};
ghost use Rattle.c62_op.specs.Name.{file_letter, register_name};
ghost use Rattle.c62_listing.specs.Written.{AddsText};
ghost use Rattle.c62_grid.specs.Words.{spaces, left, right, counted, line, unit_name};

use c62_insn::{Letter, Reg, Side, Unit};
use itoa::Buffer;
use std::alloc::AllocError;

/// A number in decimal.
///
/// # Errors
///
/// Where memory ran out.
pub fn push_number(out: &mut String, number: u64) -> Result<(), AllocError>
    ensures { OnOk result (AddsText out.old (decimal number) out.new) }
{
    let mut buffer = Buffer::new();
    out.push_str(buffer.format(number))
}

/// A number in decimal, with its sign where it is negative.
///
/// # Errors
///
/// Where memory ran out.
pub fn push_signed(out: &mut String, number: i32) -> Result<(), AllocError>
    ensures { OnOk result (AddsText out.old (signed_decimal number) out.new) }
{
    let mut buffer = Buffer::new();
    out.push_str(buffer.format(number))
}

/// So many spaces.
///
/// # Errors
///
/// Where memory ran out.
pub fn push_spaces(out: &mut String, count: usize) -> Result<(), AllocError>
    ensures { OnOk result (AddsText out.old (spaces count) out.new) }
{
    for _ in 0..count {
        out.push(' ')?;
    }
    Ok(())
}

/// A word, and spaces behind it up to this width.
///
/// # Errors
///
/// Where memory ran out.
#[tactic(auto, unfolding(crate::specs::Words::left))]
pub fn push_left(out: &mut String, width: usize, word: &str) -> Result<(), AllocError>
    ensures { OnOk result (AddsText out.old (left width word.now) out.new) }
{
    out.push_str(word)?;
    push_spaces(out, width.saturating_sub(word.len()))
}

/// A word, and spaces before it up to this width.
///
/// # Errors
///
/// Where memory ran out.
#[tactic(auto, unfolding(crate::specs::Words::right))]
pub fn push_right(out: &mut String, width: usize, word: &str) -> Result<(), AllocError>
    ensures { OnOk result (AddsText out.old (right width word.now) out.new) }
{
    push_spaces(out, width.saturating_sub(word.len()))?;
    out.push_str(word)
}

/// A number, and spaces before it up to this width.
///
/// # Errors
///
/// Where memory ran out.
pub fn push_right_number(out: &mut String, width: usize, number: u64) -> Result<(), AllocError>
    ensures { OnOk result (AddsText out.old (right width (decimal number)) out.new) }
{
    let mut buffer = Buffer::new();
    push_right(out, width, buffer.format(number))
}

/// How many there are of something, as `1 cycle` or `2 cycles`.
///
/// # Errors
///
/// Where memory ran out.
#[tactic(auto, unfolding(crate::specs::Words::counted))]
pub fn push_counted(out: &mut String, count: u64, one: &str) -> Result<(), AllocError>
    ensures { OnOk result (AddsText out.old (counted count one.now) out.new) }
{
    push_number(out, count)?;
    out.push_str(" ")?;
    out.push_str(one)?;
    if count == 1 {
        Ok(())
    } else {
        out.push_str("s")
    }
}

/// A line, without the spaces at its end.
///
/// # Errors
///
/// Where memory ran out.
#[tactic(auto, unfolding(crate::specs::Words::line))]
pub fn push_line(out: &mut String, text: &str) -> Result<(), AllocError>
    ensures { OnOk result (AddsText out.old (line text.now) out.new) }
{
    out.push_str(text.trim_end())?;
    out.push_str("\n")
}

fn file_letter(side: Side) -> &'static str
    ensures { result.now ≡ file_letter side }
{
    match side {
        Side::A => "A",
        Side::B => "B",
    }
}

/// The name of a register.
///
/// # Errors
///
/// Where memory ran out.
pub fn push_register(out: &mut String, reg: Reg) -> Result<(), AllocError>
    ensures { OnOk result (AddsText out.old (register_name reg) out.new) }
{
    out.push_str(file_letter(reg.side))?;
    push_number(out, u64::from(reg.number))
}

pub fn unit_name(unit: Unit) -> &'static str
    ensures { result.now ≡ unit_name unit }
{
    match (unit.letter, unit.side) {
        (Letter::L, Side::A) => ".L1",
        (Letter::S, Side::A) => ".S1",
        (Letter::M, Side::A) => ".M1",
        (Letter::D, Side::A) => ".D1",
        (Letter::L, Side::B) => ".L2",
        (Letter::S, Side::B) => ".S2",
        (Letter::M, Side::B) => ".M2",
        (Letter::D, Side::B) => ".D2",
    }
}
