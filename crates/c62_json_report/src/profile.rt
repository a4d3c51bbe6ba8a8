//! How often each block was run, and what it took (docs/JSON.md, "The profile").

ghost use Rattle.std.specs.Prelude.{◌≡◌, ◌∷◌, ◌<◌, ◌≤◌, [], length};
ghost use Rattle.std.specs.List.{flat_map, range_with_len};
ghost use Rattle.std.specs.Option.{option_copied};
ghost use Rattle.c62_json.specs.Document.{Adds};
ghost use Rattle.c62_json_report.specs.Profile.{block_named, label, packet_row, packet_rows, ran, row, serial_row, serial_rows};

use crate::brackets::{close_array, close_object, open_array, open_object, push_number};
use c62_json::{push_missing, push_name, push_text};
use c62_packet::{PacketBlock, Packets};
use c62_profile::{Tally, thousandths};
use c62_read::{Block, Label, Program};
use json::Writer;
use std::alloc::{AllocError, Global};

/// A block, how often it was run, and what each run of it takes.
#[derive(Drop)]
struct Row<'a> {
    /// What each run takes: `cycles` or `instructions`.
    taken: &'a str,
    number: usize,
    label: Option<&'a Label>,
    runs: u32,
    each: u16,
}

/// The label of a block, where it has one.
fn push_label(alloc: Global, out: &mut Writer, name: Option<&Label>) -> Result<(), AllocError>
    ensures { Adds result out.old out.new (label (option_copied name.entry) ∷ []) }
{
    match name {
        Some(name) => push_text(alloc, out, name.as_bytes()),
        None => push_missing(out),
    }
}

/// Which block it is.
fn push_block(alloc: Global, out: &mut Writer, block: &Row<'_>) -> Result<(), AllocError>
    ensures { Adds result out.old out.new (block_named block.now.number (option_copied block.now.label)) }
{
    push_number(out, "block", block.number as u64)?;
    push_name(out, "label")?;
    push_label(alloc, out, block.label)
}

/// How often it was run, and what its runs took of a run that took so much.
fn push_ran(out: &mut Writer, block: &Row<'_>, whole: u64) -> Result<(), AllocError>
    ensures { Adds result out.old out.new (ran block.now.taken.now block.now.runs block.now.each whole) }
{
    let sum = u64::from(block.runs) * u64::from(block.each);
    push_number(out, "runs", u64::from(block.runs))?;
    push_number(out, block.taken, u64::from(block.each))?;
    push_number(out, "sum", sum)?;
    push_number(out, "thousandths", thousandths(sum, whole))?;
    Ok(())
}

/// The row of a block, in a run that took so much.
fn push_row(alloc: Global, out: &mut Writer, block: &Row<'_>, whole: u64) -> Result<(), AllocError>
    ensures { Adds result out.old out.new (row block.now.taken.now block.now.number (option_copied block.now.label) block.now.runs block.now.each whole) }
{
    open_object(out)?;
    push_block(alloc, out, block)?;
    push_ran(out, block, whole)?;
    close_object(out)?;
    Ok(())
}

/// How many instructions a block has, at most 256.
fn insns_of(block: &Block) -> u16
    ensures { result ≡ length block.now.insns }
{
    block.insns().len() as u16
}

/// The row of a block of packets.
fn push_packet_block(
    alloc: Global,
    out: &mut Writer,
    packets: &[PacketBlock],
    number: usize,
    tally: &Tally,
) -> Result<(), AllocError>
    requires inside { number < length packets.now }
    requires counted { number < length tally.now.visits.items }
    ensures { Adds result out.old out.new (packet_row packets.now tally.now number) }
{
    let block = &packets[number];
    let row = Row {
        taken: "cycles",
        number,
        label: block.label(),
        runs: tally.visits[number],
        each: block.length(),
    };
    push_row(alloc, out, &row, tally.taken)
}

/// The rows of all blocks of packets.
fn push_packet_blocks(
    alloc: Global,
    out: &mut Writer,
    packets: &[PacketBlock],
    tally: &Tally,
) -> Result<(), AllocError>
    requires { length tally.now.visits.items ≡ length packets.now }
    ensures { Adds result out.old out.new (flat_map (packet_row packets.now tally.now) (range_with_len 0 (length packets.now))) }
{
    for number in 0..packets.len() {
        push_packet_block(alloc, out, packets, number, tally)?;
    }
    Ok(())
}

/// The rows of a run of packets.
pub(crate) fn push_packet_rows(
    alloc: Global,
    out: &mut Writer,
    packets: &Packets,
    tally: &Tally,
) -> Result<(), AllocError>
    requires { length tally.now.visits.items ≡ length packets.now }
    ensures { Adds result out.old out.new (packet_rows packets.now tally.now) }
{
    open_array(out)?;
    push_packet_blocks(alloc, out, packets.blocks(), tally)?;
    close_array(out)
}

/// The row of a block of a program.
fn push_serial_block(
    alloc: Global,
    out: &mut Writer,
    program: &[Block],
    number: usize,
    tally: &Tally,
) -> Result<(), AllocError>
    requires inside { number < length program.now }
    requires counted { number < length tally.now.visits.items }
    ensures { Adds result out.old out.new (serial_row program.now tally.now number) }
{
    let block = &program[number];
    let row = Row {
        taken: "instructions",
        number,
        label: block.label(),
        runs: tally.visits[number],
        each: insns_of(block),
    };
    push_row(alloc, out, &row, tally.taken)
}

/// The rows of all blocks of a program.
fn push_serial_blocks(
    alloc: Global,
    out: &mut Writer,
    program: &[Block],
    tally: &Tally,
) -> Result<(), AllocError>
    requires { length tally.now.visits.items ≡ length program.now }
    ensures { Adds result out.old out.new (flat_map (serial_row program.now tally.now) (range_with_len 0 (length program.now))) }
{
    for number in 0..program.len() {
        push_serial_block(alloc, out, program, number, tally)?;
    }
    Ok(())
}

/// The rows of a serial run.
pub(crate) fn push_serial_rows(
    alloc: Global,
    out: &mut Writer,
    program: &Program,
    tally: &Tally,
) -> Result<(), AllocError>
    requires { length tally.now.visits.items ≡ length program.now }
    ensures { Adds result out.old out.new (serial_rows program.now tally.now) }
{
    open_array(out)?;
    push_serial_blocks(alloc, out, program.blocks(), tally)?;
    close_array(out)
}
