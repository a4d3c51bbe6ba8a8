//! The text of a dump.

ghost use Rattle.std.specs.Prelude.{◌≡◌, ◌++◌, ◌+◌, ◌<◌, ◌≤◌, ◌∷◌, OnOk, length, min};
ghost use Rattle.c62_wave.specs.Value.{bits, digits_of, value_text};
ghost use Rattle.c62_wave.specs.Dump.{value_line, change, changes, rising_changes, falling_changes, time_line, rise, fall, cycle_text, last_mark};

use crate::signals::Signals;
use crate::value::Value;
use c62_trace::Window;
use itoa::Buffer;
use std::alloc::AllocError;

/// How many digits a word has without zeros in front: one at least.
fn digits_of(word: u32) -> u32
    ensures digits { result ≡ digits_of word }
    ensures within { result ≤ 32 }
{
    (32 - word.leading_zeros()).max(1)
}

/// The lowest binary digits of a number, so many of them.
#[tactic(auto, unfolding(crate::specs::Value::bits))]
fn push_bits(out: &mut Vec<u8>, count: u32, number: u32) -> Result<(), AllocError>
    requires { count ≤ 32 }
    ensures { OnOk result (out.new.items ≡ out.old.items ++ bits count number) }
{
    let mut left = count;
    while left > 0 {
        left -= 1;
        out.push(b'0' + ((number >> left) % 2) as u8)?;
    }
    Ok(())
}

#[tactic(auto, unfolding(crate::specs::Value::value_text))]
fn push_value(out: &mut Vec<u8>, value: Value) -> Result<(), AllocError>
    ensures { OnOk result (out.new.items ≡ out.old.items ++ value_text value) }
{
    match value {
        Value::Word(number) => {
            out.extend_from_slice(b"b")?;
            push_bits(out, digits_of(number), number)
        }
        Value::Idle => out.extend_from_slice(b"bz"),
        Value::Unknown => out.extend_from_slice(b"bx"),
    }
}

#[inline(never)]
fn push_value_line(out: &mut Vec<u8>, code: u8, value: Value) -> Result<(), AllocError>
    ensures { OnOk result (out.new.items ≡ out.old.items ++ value_line code value) }
{
    push_value(out, value)?;
    out.extend_from_slice(b" ")?;
    out.push(code)?;
    out.extend_from_slice(b"\n")
}

/// A signal whose value was another before, or whatever it was.
#[inline]
#[tactic(auto, unfolding(crate::specs::Dump::change))]
fn push_change(
    out: &mut Vec<u8>,
    each: bool,
    code: u8,
    before: Value,
    now: Value,
) -> Result<(), AllocError>
    ensures { OnOk result (out.new.items ≡ out.old.items ++ change each code before now) }
{
    if each || !before.is_same(now) {
        push_value_line(out, code, now)?;
    }
    Ok(())
}

/// Signals whose codes follow on each other.
fn push_changes(
    out: &mut Vec<u8>,
    each: bool,
    code: u8,
    before: &[Value],
    now: &[Value],
) -> Result<(), AllocError>
    requires alike { length before.now ≡ length now.now }
    requires codes { code + length now.now < 256 }
    ensures { OnOk result (out.new.items ≡ out.old.items ++ changes each code before.now now.now) }
{
    for (index, value) in now.iter().enumerate() {
        push_change(out, each, code + index as u8, before[index], *value)?;
    }
    Ok(())
}

/// The signals that change when the clock rises.
#[tactic(auto, unfolding(crate::specs::Dump::rising_changes))]
fn push_rising(
    out: &mut Vec<u8>,
    each: bool,
    before: &Signals,
    now: &Signals,
) -> Result<(), AllocError>
    ensures { OnOk result (out.new.items ≡ out.old.items ++ rising_changes each before.now now.now) }
{
    push_change(out, each, 38, before.line, now.line)?;
    push_change(
        out,
        each,
        39,
        Value::Word(before.packets),
        Value::Word(now.packets),
    )?;
    push_changes(out, each, 40, &before.units, &now.units)?;
    push_change(
        out,
        each,
        48,
        Value::Word(before.writes()),
        Value::Word(now.writes()),
    )?;
    push_change(
        out,
        each,
        49,
        Value::Word(before.loads.in_four()),
        Value::Word(now.loads.in_four()),
    )?;
    push_change(
        out,
        each,
        50,
        Value::Word(before.branches.in_five()),
        Value::Word(now.branches.in_five()),
    )
}

/// The signals that change when the clock falls.
#[tactic(auto, unfolding(crate::specs::Dump::falling_changes))]
fn push_falling(
    out: &mut Vec<u8>,
    each: bool,
    before: &Signals,
    now: &Signals,
) -> Result<(), AllocError>
    ensures { OnOk result (out.new.items ≡ out.old.items ++ falling_changes each before.now now.now) }
{
    push_changes(out, each, 51, &before.registers, &now.registers)?;
    push_change(out, each, 83, before.store_address, now.store_address)?;
    push_change(out, each, 84, before.store_data, now.store_data)
}

/// Ten times the cycle, and so many more.
#[tactic(auto, unfolding(crate::specs::Dump::time_line))]
fn push_time(out: &mut Vec<u8>, cycle: u64, more: u8) -> Result<(), AllocError>
    requires { more < 10 }
    ensures { OnOk result (out.new.items ≡ out.old.items ++ time_line cycle more) }
{
    let mut buffer = Buffer::new();
    out.extend_from_slice(b"#")?;
    out.extend_from_slice(buffer.format(cycle).as_bytes())?;
    out.push(b'0' + more)?;
    out.extend_from_slice(b"\n")
}

/// The clock rises. In the first cycle that is seen all signals are told.
#[tactic(auto, unfolding(crate::specs::Dump::rise))]
fn push_rise(
    out: &mut Vec<u8>,
    first: bool,
    cycle: u64,
    before: &Signals,
    now: &Signals,
) -> Result<(), AllocError>
    ensures { OnOk result (out.new.items ≡ out.old.items ++ rise first cycle before.now now.now) }
{
    push_time(out, cycle, 0)?;
    if first {
        out.extend_from_slice(b"$dumpvars\n")?;
        out.extend_from_slice(b"1!\n")?;
        push_rising(out, true, before, now)?;
        push_falling(out, true, before, before)?;
        out.extend_from_slice(b"$end\n")
    } else {
        out.extend_from_slice(b"1!\n")?;
        push_rising(out, false, before, now)
    }
}

/// The clock falls.
#[tactic(auto, unfolding(crate::specs::Dump::fall))]
fn push_fall(
    out: &mut Vec<u8>,
    cycle: u64,
    before: &Signals,
    now: &Signals,
) -> Result<(), AllocError>
    ensures { OnOk result (out.new.items ≡ out.old.items ++ fall cycle before.now now.now) }
{
    push_time(out, cycle, 5)?;
    out.extend_from_slice(b"0!\n")?;
    push_falling(out, false, before, now)
}

/// A cycle, where it is seen.
///
/// # Errors
///
/// `AllocError` where memory ran out.
#[tactic(auto, unfolding(crate::specs::Dump::cycle_text))]
pub(crate) fn push_cycle(
    out: &mut Vec<u8>,
    window: Window,
    cycle: u64,
    before: &Signals,
    now: &Signals,
) -> Result<(), AllocError>
    ensures { OnOk result (out.new.items ≡ out.old.items ++ cycle_text window cycle before.now now.now) }
{
    if !window.has(cycle) {
        return Ok(());
    }
    push_rise(out, cycle == window.from, cycle, before, now)?;
    push_fall(out, cycle, before, now)
}

/// The time behind so many cycles, or behind the last that is seen, where one is seen.
///
/// # Errors
///
/// `AllocError` where memory ran out.
#[tactic(auto, unfolding(crate::specs::Dump::last_mark))]
pub(crate) fn push_last_mark(
    out: &mut Vec<u8>,
    window: Window,
    cycles: u64,
) -> Result<(), AllocError>
    ensures { OnOk result (out.new.items ≡ out.old.items ++ last_mark window cycles) }
{
    if window.has(window.from) && window.from < cycles {
        push_time(out, last_time(window, cycles), 0)?;
    }
    Ok(())
}

/// The lesser of so many cycles, and of those to the end of the window.
fn last_time(window: Window, cycles: u64) -> u64
    ensures { result ≡ min cycles (window.from + window.count) }
{
    cycles.min(window.from.saturating_add(window.count))
}
