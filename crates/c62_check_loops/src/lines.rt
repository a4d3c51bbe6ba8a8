//! The lines of a text and packets that pipeline its loops (docs/CHECK.md, "All loops of a text").

ghost use Rattle.std.specs.Prelude.{◌≡◌, ◌++◌, ◌≤◌, ◌<◌, length, slice_get, OnOk};
ghost use Rattle.std.specs.List.{flat_map};
ghost use Rattle.std.specs.Option.{option_copied};
ghost use Rattle.c62_read.specs.declared.limits.TheConstants.{MOST_BLOCKS};
ghost use Rattle.c62_check_loops.specs.Lines.{label_in, line_at, loop_at, name_in, reading_line, reading_lines, reading_words, rows_line};

use crate::reading::{Reading, readings_of};
use crate::verdict::BlockVerdict;
use c62_check_loop::{LoopVerdict, push_loop, push_register};
use c62_check_rest::{RestVerdict, push_rest};
use c62_read::Block;
use itoa::Buffer;
use std::alloc::{AllocError, Global};

/// Adds what is told of the loop of the block of this number.
fn push_named(
    out: &mut Vec<u8>,
    blocks: &[Block],
    number: u8,
    verdict: LoopVerdict,
) -> Result<(), AllocError>
    ensures { OnOk result (out.new.items ≡ out.old.items ++ loop_at blocks.now number verdict) }
{
    let Some(block) = blocks.get(usize::from(number)) else {
        return push_rest(out, u64::from(number), &RestVerdict::Unchecked);
    };
    match block.label() {
        Some(label) => push_loop(out, label, block.insns(), verdict),
        None => push_rest(out, u64::from(number), &RestVerdict::Unchecked),
    }
}

/// Adds the label of a block, where it has one.
fn push_name(out: &mut Vec<u8>, block: Option<&Block>) -> Result<(), AllocError>
    ensures { OnOk result (out.new.items ≡ out.old.items ++ name_in (label_in (option_copied block.entry))) }
{
    let Some(block) = block else {
        return Ok(());
    };
    match block.label() {
        Some(label) => out.extend_from_slice(label.as_bytes()),
        None => Ok(()),
    }
}

/// Adds which line may read a register.
fn push_words(out: &mut Vec<u8>, reading: Reading) -> Result<(), AllocError>
    ensures { OnOk result (out.new.items ≡ out.old.items ++ reading_words reading) }
{
    let mut buffer = Buffer::new();
    out.extend_from_slice(b" but")?;
    push_register(out, reading.reg)?;
    out.extend_from_slice(b" read ")?;
    out.extend_from_slice(buffer.format(u64::from(reading.line)).as_bytes())
}

fn push_reading(
    out: &mut Vec<u8>,
    block: Option<&Block>,
    reading: Reading,
) -> Result<(), AllocError>
    ensures { OnOk result (out.new.items ≡ out.old.items ++ reading_line (label_in (option_copied block.entry)) reading) }
{
    out.extend_from_slice(b"loop ")?;
    push_name(out, block)?;
    push_words(out, reading)?;
    out.extend_from_slice(b"\n")
}

/// The same of the loop of the block of this number.
fn push_reading_at(
    out: &mut Vec<u8>,
    blocks: &[Block],
    number: u8,
    reading: Reading,
) -> Result<(), AllocError>
    ensures { OnOk result (out.new.items ≡ out.old.items ++ reading_line (label_in (slice_get blocks.now number)) reading) }
{
    push_reading(out, blocks.get(usize::from(number)), reading)
}

fn push_each_reading(
    out: &mut Vec<u8>,
    blocks: &[Block],
    number: u8,
    readings: &[Reading],
) -> Result<(), AllocError>
    ensures { OnOk result (out.new.items ≡ out.old.items ++ flat_map (reading_line (label_in (slice_get blocks.now number))) readings.now) }
{
    for reading in readings {
        push_reading_at(out, blocks, number, *reading)?;
    }
    Ok(())
}

/// Adds what of the text may read a register that the loop of the block of this number leaves otherwise.
fn push_readings(
    out: &mut Vec<u8>,
    alloc: Global,
    blocks: &[Block],
    number: u8,
    verdict: LoopVerdict,
) -> Result<(), AllocError>
    requires few { length blocks.now ≤ MOST_BLOCKS }
    requires within { number < 253 }
    ensures { OnOk result (out.new.items ≡ out.old.items ++ reading_lines blocks.now number verdict) }
{
    let readings = readings_of(alloc, blocks, number, verdict)?;
    push_each_reading(out, blocks, number, &readings)
}

/// Adds what is told of the loop of the block of this number.
fn push_loop_at(
    out: &mut Vec<u8>,
    alloc: Global,
    blocks: &[Block],
    number: u8,
    verdict: LoopVerdict,
) -> Result<(), AllocError>
    requires few { length blocks.now ≤ MOST_BLOCKS }
    requires within { number < 253 }
    ensures { OnOk result (out.new.items ≡ out.old.items ++ (loop_at blocks.now number verdict ++ reading_lines blocks.now number verdict)) }
{
    push_named(out, blocks, number, verdict)?;
    push_readings(out, alloc, blocks, number, verdict)
}

/// Adds what is told of the block of this number.
pub(crate) fn push_line(
    out: &mut Vec<u8>,
    alloc: Global,
    blocks: &[Block],
    number: u8,
    verdict: &BlockVerdict,
) -> Result<(), AllocError>
    requires few { length blocks.now ≤ MOST_BLOCKS }
    requires within { number < 253 }
    ensures { OnOk result (out.new.items ≡ out.old.items ++ line_at blocks.now number verdict.now) }
{
    match verdict {
        BlockVerdict::Loop(verdict) => push_loop_at(out, alloc, blocks, number, *verdict),
        BlockVerdict::Within => Ok(()),
        BlockVerdict::Rest(verdict) => push_rest(out, u64::from(number), verdict),
    }
}

/// Adds that some row is no block's, where that is so.
pub(crate) fn push_rows(out: &mut Vec<u8>, wanting: bool) -> Result<(), AllocError>
    ensures { OnOk result (out.new.items ≡ out.old.items ++ rows_line wanting) }
{
    if wanting {
        out.extend_from_slice(b"rows unchecked\n")
    } else {
        Ok(())
    }
}
