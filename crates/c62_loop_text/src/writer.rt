//! Writes the packets of a pipelined loop.

ghost use Rattle.std.specs.Prelude.{◌≡◌, ◌+◌, ◌≤◌, ◌++◌, OnOk, codes, map, length, string_bytes};
ghost use Rattle.c62_listing.specs.Listing.{pause_line, label_lines, text_of};
ghost use Rattle.c62_listing.specs.Written.{AddsText, AddsLines};
ghost use Rattle.c62_rows.specs.Rows.{row_read};
ghost use Rattle.c62_loop_text.specs.Packets.{insn_line, idle_lines, packet_lines, rows_lines, parted_text, loop_text};

use c62_line::Label;
use c62_listing::{label_text, push_spelling};
use c62_loop_match::Pipelined;
use c62_packet::Placed;
use c62_rows::Row;
use itoa::Buffer;
use std::alloc::AllocError;

/// Appends an instruction's line, behind these bytes.
fn push_line(out: &mut String, label: &str, front: &str, placed: &Placed) -> Result<(), AllocError>
    ensures { OnOk result (AddsText out.old (insn_line label.now front.now placed.now ++ codes "\n") out.new) }
{
    out.push_str(front)?;
    push_spelling(out, placed.insn, placed.unit, label)?;
    out.push_str("\n")
}

/// Appends a NOP of so many cycles, behind these bytes.
fn push_pause(out: &mut String, front: &str, cycles: u64) -> Result<(), AllocError>
    ensures { OnOk result (AddsText out.old ((front.now ++ decimal cycles) ++ codes "\n") out.new) }
{
    let mut buffer = Buffer::new();
    out.push_str(front)?;
    out.push_str(buffer.format(cycles))?;
    out.push_str("\n")
}

ghost use Rattle.std.specs.Prelude.{decimal};

/// Appends the cycles of a packet behind its first.
fn push_idle(out: &mut String, idle: u32) -> Result<(), AllocError>
    ensures { OnOk result (AddsLines out.old (idle_lines idle) out.new) }
{
    if idle == 0 {
        Ok(())
    } else {
        push_pause(out, "|| NOP ", u64::from(idle) + 1)
    }
}

/// Appends the instructions of a packet behind its first.
fn push_rest(out: &mut String, label: &str, rest: &[Placed]) -> Result<(), AllocError>
    ensures { OnOk result (AddsLines out.old (map (insn_line label.now (codes "|| ")) rest.now) out.new) }
{
    for placed in rest {
        push_line(out, label, "|| ", placed)?;
    }
    Ok(())
}

/// Appends a packet.
fn push_packet(out: &mut String, label: &str, insns: &[Placed], idle: u32) -> Result<(), AllocError>
    ensures { OnOk result (AddsLines out.old (packet_lines label.now insns.now idle) out.new) }
{
    match insns {
        [] => push_pause(out, "   NOP ", u64::from(idle) + 1),
        [first, rest @ ..] => {
            push_line(out, label, "   ", first)?;
            push_rest(out, label, rest)?;
            push_idle(out, idle)
        }
    }
}

/// Appends packets.
fn push_rows(out: &mut String, label: &str, rows: &[Row]) -> Result<(), AllocError>
    ensures { OnOk result (AddsLines out.old (rows_lines label.now (map row_read rows.now)) out.new) }
{
    for row in rows {
        push_packet(out, label, &row.insns, row.idle)?;
    }
    Ok(())
}

fn push_label(out: &mut String, label: &str) -> Result<(), AllocError>
    ensures { OnOk result (AddsLines out.old (label_lines (Some label.now)) out.new) }
{
    out.push_str(label)?;
    out.push_str(":\n")
}

ghost use Rattle.std.specs.Prelude.{Some};

/// Appends packets, a label on a line of its own, and packets.
fn push_parts(out: &mut String, label: &str, above: &[Row], below: &[Row]) -> Result<(), AllocError>
    ensures { OnOk result (AddsText out.old (parted_text label.now above.now below.now) out.new) }
{
    push_rows(out, label, above)?;
    push_label(out, label)?;
    push_rows(out, label, below)
}

/// Appends the packets of a loop: a line for each instruction, behind the first of a packet with bars, and NOPs. The label stands on a line of
/// its own above the kernel, and all branches to labels name it. A packet with no instructions takes at most nine cycles in a text that
/// is read again.
///
/// # Errors
///
/// `AllocError` where memory ran out; what was appended is then unspecified.
pub fn push_loop(out: &mut String, label: &Label, pipelined: &Pipelined) -> Result<(), AllocError>
    ensures { OnOk result (AddsText out.old (loop_text label.now pipelined.now) out.new) }
{
    let name = label_text(label);
    let kernel = pipelined.first as usize + pipelined.prolog as usize;
    match pipelined.rows.rows.split_at_checked(kernel) {
        Some((above, below)) => push_parts(out, name, above, below),
        None => push_parts(out, name, &pipelined.rows.rows, &[]),
    }
}
