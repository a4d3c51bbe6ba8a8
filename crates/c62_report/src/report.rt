//! Writes the report of a run (docs/REPORT.md).

ghost use Rattle.std.specs.Prelude.{◌≡◌, ◌==◌, ◌++◌, ◌*◌, ◌<◌, ◌≤◌, not, if◌then◌else◌, IfOk, OnOk, decimal, codes};
ghost use Rattle.std.specs.List.{flat_map};
ghost use Rattle.c62_op.specs.Name.{file_letter, register_name};
ghost use Rattle.c62_report.specs.Report.{hex_digit, hex, address_text, line, value_line, register_line, file_lines, word_line, word_lines, fault_line, exit_line, machine_lines, serial_report, packet_report};

use c62_insn::{Reg, Side};
use c62_serial::{Chain, End, MEMORY_BYTES, State};
use itoa::Buffer;
use std::alloc::{AllocError, Global};

/// How many words memory has.
const MEMORY_WORDS: u32 = MEMORY_BYTES as u32 / 4;

fn hex_digit(digit: u8) -> u8
    requires { digit < 16 }
    ensures { result ≡ hex_digit digit }
{
    if digit < 10 {
        b'0' + digit
    } else {
        b'a' - 10 + digit
    }
}

/// Adds so many low hexadecimal digits of a value, in lower case.
///
/// # Errors
///
/// `AllocError` where memory ran out.
#[tactic(auto, unfolding(crate::specs::Report::hex))]
pub fn push_hex(out: &mut Vec<u8>, digits: u8, value: u32) -> Result<(), AllocError>
    ensures { OnOk result (out.new.items ≡ out.old.items ++ hex digits value) }
{
    if digits == 0 {
        return Ok(());
    }
    push_hex(out, digits - 1, value / 16)?;
    out.push(hex_digit((value % 16) as u8))?;
    Ok(())
}

/// What stands behind a name: its value, and the end of the line.
fn push_value(out: &mut Vec<u8>, value: u32) -> Result<(), AllocError>
    ensures { OnOk result (out.new.items ≡ out.old.items ++ codes " " ++ hex 8 value ++ codes "\n") }
{
    out.extend_from_slice(b" ")?;
    push_hex(out, 8, value)?;
    out.extend_from_slice(b"\n")
}

fn file_letter(side: Side) -> &'static [u8]
    ensures { result.now ≡ file_letter side }
{
    match side {
        Side::A => b"A",
        Side::B => b"B",
    }
}

pub(crate) fn push_register(out: &mut Vec<u8>, reg: Reg) -> Result<(), AllocError>
    ensures { OnOk result (out.new.items ≡ out.old.items ++ register_name reg) }
{
    let mut buffer = Buffer::new();
    out.extend_from_slice(file_letter(reg.side))?;
    out.extend_from_slice(buffer.format(reg.number).as_bytes())
}

/// Whether a value has a line: 0 has none.
fn is_reported(value: u32) -> bool
    ensures { result ≡ not (value == 0) }
{
    value != 0
}

/// The line of a register that isn't 0.
#[tactic(auto, unfolding(crate::specs::Report::value_line))]
fn push_register_line(out: &mut Vec<u8>, reg: Reg, value: u32) -> Result<(), AllocError>
    ensures { OnOk result (out.new.items ≡ out.old.items ++ value_line (register_name reg) value) }
{
    if !is_reported(value) {
        return Ok(());
    }
    push_register(out, reg)?;
    push_value(out, value)
}

/// The registers of a file.
fn push_file(out: &mut Vec<u8>, state: &State, side: Side) -> Result<(), AllocError>
    ensures { OnOk result (out.new.items ≡ out.old.items ++ file_lines state.now.machine side) }
{
    for number in 0..16 {
        let reg = Reg { side, number };
        push_register_line(out, reg, state.reg(reg))?;
    }
    Ok(())
}

/// How many digits the addresses of memory have that begins there.
fn address_digits(base: u32) -> u8
    ensures { result ≡ (if base == 0 then 4 else 8) }
{
    if base == 0 { 4 } else { 8 }
}

/// Adds the address of a place in memory that begins at a base: four digits where that is 0, and else eight.
///
/// # Errors
///
/// `AllocError` where memory ran out.
pub fn push_address(out: &mut Vec<u8>, base: u32, place: u32) -> Result<(), AllocError>
    ensures { OnOk result (out.new.items ≡ out.old.items ++ address_text base place) }
{
    push_hex(out, address_digits(base), base.wrapping_add(place))
}

/// The line of a word of memory that isn't 0.
#[tactic(auto, unfolding(crate::specs::Report::value_line))]
fn push_word_line(out: &mut Vec<u8>, base: u32, place: u32, value: u32) -> Result<(), AllocError>
    ensures { OnOk result (out.new.items ≡ out.old.items ++ value_line (codes "@" ++ address_text base place) value) }
{
    if !is_reported(value) {
        return Ok(());
    }
    out.extend_from_slice(b"@")?;
    push_address(out, base, place)?;
    push_value(out, value)
}

/// The first words of memory.
fn push_words(out: &mut Vec<u8>, state: &State, count: u32) -> Result<(), AllocError>
    requires { count ≤ MEMORY_WORDS }
    ensures { OnOk result (out.new.items ≡ out.old.items ++ word_lines state.now.machine count) }
{
    for k in 0..count {
        let Some(value) = state.load_at(4 * k, 4) else {
            unreachable!()
        };
        push_word_line(out, state.base(), 4 * k, value)?;
    }
    Ok(())
}

/// A line with a word and a number.
pub(crate) fn push_count(out: &mut Vec<u8>, word: &[u8], count: u64) -> Result<(), AllocError>
    ensures { OnOk result (out.new.items ≡ out.old.items ++ line (word.now ++ decimal count)) }
{
    let mut buffer = Buffer::new();
    out.extend_from_slice(word)?;
    out.extend_from_slice(buffer.format(count).as_bytes())?;
    out.extend_from_slice(b"\n")
}

/// The lines that faulted.
fn push_faults(out: &mut Vec<u8>, faults: &[u32]) -> Result<(), AllocError>
    ensures { OnOk result (out.new.items ≡ out.old.items ++ flat_map fault_line faults.now) }
{
    for number in faults {
        push_count(out, b"fault ", u64::from(*number))?;
    }
    Ok(())
}

/// How the run ended.
#[tactic(auto, unfolding(crate::specs::Report::exit_line))]
pub(crate) fn push_exit(out: &mut Vec<u8>, stop: End) -> Result<(), AllocError>
    ensures { OnOk result (out.new.items ≡ out.old.items ++ exit_line stop) }
{
    match stop {
        End::End => out.extend_from_slice(b"exit end\n"),
        End::Limit => out.extend_from_slice(b"exit limit\n"),
        End::Register(value) => {
            out.extend_from_slice(b"exit register ")?;
            push_hex(out, 8, value)?;
            out.extend_from_slice(b"\n")
        }
    }
}

/// What the machine holds at the end.
#[tactic(auto, unfolding(crate::specs::Report::machine_lines))]
pub(crate) fn push_machine(out: &mut Vec<u8>, state: &State) -> Result<(), AllocError>
    ensures { OnOk result (out.new.items ≡ out.old.items ++ machine_lines state.now.machine) }
{
    push_file(out, state, Side::A)?;
    push_file(out, state, Side::B)?;
    push_words(out, state, MEMORY_WORDS)?;
    push_faults(out, state.faults())
}

/// The report of a serial run (docs/REPORT.md, "The report"): how many blocks were run, how it ended, and what the machine holds
/// then. The registers and words of memory that are 0 have no line.
///
/// # Errors
///
/// `AllocError` where memory ran out.
#[tactic(auto, unfolding(crate::specs::Report::serial_report))]
pub fn serial_report(alloc: Global, chain: Chain, state: &State) -> Result<Vec<u8>, AllocError>
    ensures { IfOk result (λ report. report.items ≡ serial_report chain state.now.machine) }
{
    let mut out = Vec::new(alloc);
    push_count(&mut out, b"blocks ", u64::from(chain.blocks))?;
    push_exit(&mut out, chain.stop)?;
    push_machine(&mut out, state)?;
    Ok(out)
}

/// The report of a run of packets: that of the serial run, with a line for its cycles behind the first.
///
/// # Errors
///
/// `AllocError` where memory ran out.
#[tactic(auto, unfolding(crate::specs::Report::packet_report))]
pub fn packet_report(
    alloc: Global,
    chain: Chain,
    cycles: u64,
    state: &State,
) -> Result<Vec<u8>, AllocError>
    ensures { IfOk result (λ report. report.items ≡ packet_report chain cycles state.now.machine) }
{
    let mut out = Vec::new(alloc);
    push_count(&mut out, b"blocks ", u64::from(chain.blocks))?;
    push_count(&mut out, b"cycles ", cycles)?;
    push_exit(&mut out, chain.stop)?;
    push_machine(&mut out, state)?;
    Ok(out)
}
