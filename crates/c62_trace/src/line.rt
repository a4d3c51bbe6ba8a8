//! Lines of a trace.

ghost use Rattle.std.specs.Prelude.{◌≡◌, ◌∷◌, [], ◌++◌, ◌-◌, map, ◌*◌, ◌≤◌, ◌<◌, ◌^◌, OnOk, Some, IsTrue, codes, decimal};
ghost use Rattle.std.specs.List.{flat_map};
ghost use Rattle.c62_op.specs.Name.{file_letter, register_name};
ghost use Rattle.c62_insn.specs.Insn.{cond_of, operand_reads};
ghost use Rattle.c62_serial.specs.State.{word_in};
ghost use Rattle.c62_serial.specs.Memory.{is_good, is_size};
ghost use Rattle.c62_serial.specs.Effect.{runs};
ghost use Rattle.c62_pipe.specs.Flight.{act_at};
ghost use Rattle.c62_trace.specs.Event.{Landed, tested, with_words, events_at, entries, stored_by, stored_at, issue_of, IsSized};
ghost use Rattle.c62_trace.specs.Line.{blanks, left, right, cycle_text, insn_text, word_text, words_text, access_text, branch_text, from_line, stored_text, landed_text, line_in, event_line, event_text, trace_lines};

use crate::view::View;
use c62_insn::{Access, Action, Reg, Side};
use c62_listing::push_spelling;
use c62_packet::Placed;
use c62_pipe::Due;
use c62_report::{push_address, push_hex};
use c62_serial::{MEMORY_BYTES, State};
use itoa::Buffer;
use std::alloc::{AllocError, Global};

/// How wide the columns of a line are: of its cycle, of the line of the text, and of the instruction.
const CYCLE_WIDTH: usize = 9;

const LINE_WIDTH: usize = 6;

const INSN_WIDTH: usize = 32;

/// Room for most instructions as they are listed.
const INSN_ROOM: usize = 64;

fn push_blanks(out: &mut Vec<u8>, count: usize) -> Result<(), AllocError>
    ensures { OnOk result (out.new.items ≡ out.old.items ++ blanks count) }
{
    let mut left = count;
    while left > 0 {
        out.push(b' ')?;
        left -= 1;
    }
    Ok(())
}

/// A text at the right of a column.
#[tactic(auto, unfolding(crate::specs::Line::right))]
fn push_right(out: &mut Vec<u8>, width: usize, text: &[u8]) -> Result<(), AllocError>
    ensures { OnOk result (out.new.items ≡ out.old.items ++ right width text.now) }
{
    push_blanks(out, width.saturating_sub(text.len()))?;
    out.extend_from_slice(text)
}

/// A text at the left of a column.
#[tactic(auto, unfolding(crate::specs::Line::left))]
fn push_left(out: &mut Vec<u8>, width: usize, text: &[u8]) -> Result<(), AllocError>
    ensures { OnOk result (out.new.items ≡ out.old.items ++ left width text.now) }
{
    out.extend_from_slice(text)?;
    push_blanks(out, width.saturating_sub(text.len()))
}

#[tactic(auto, unfolding(crate::specs::Line::cycle_text))]
fn push_cycle(out: &mut Vec<u8>, cycle: u64) -> Result<(), AllocError>
    ensures { OnOk result (out.new.items ≡ out.old.items ++ cycle_text cycle) }
{
    let mut buffer = Buffer::new();
    push_right(out, CYCLE_WIDTH, buffer.format(cycle).as_bytes())?;
    out.extend_from_slice(b" ")
}

/// The line of the text, and the instruction as it is listed.
#[tactic(auto, unfolding(crate::specs::Line::insn_text))]
fn push_insn_text(
    out: &mut Vec<u8>,
    alloc: Global,
    view: &View,
    placed: &Placed,
) -> Result<(), AllocError>
    ensures { OnOk result (out.new.items ≡ out.old.items ++ insn_text view.now.names.items placed.now.line placed.now.unit placed.now.insn) }
{
    let mut buffer = Buffer::new();
    out.extend_from_slice(b"line ")?;
    push_left(out, LINE_WIDTH, buffer.format(placed.line).as_bytes())?;
    out.extend_from_slice(b" ")?;
    let mut text = String::with_capacity(alloc, INSN_ROOM)?;
    push_spelling(
        &mut text,
        placed.insn,
        placed.unit,
        view.target(placed.insn),
    )?;
    push_left(out, INSN_WIDTH, text.as_bytes())
}

fn file_letter(side: Side) -> &'static [u8]
    ensures { result.now ≡ file_letter side }
{
    match side {
        Side::A => b"A",
        Side::B => b"B",
    }
}

fn push_register(out: &mut Vec<u8>, reg: Reg) -> Result<(), AllocError>
    ensures { OnOk result (out.new.items ≡ out.old.items ++ register_name reg) }
{
    let mut buffer = Buffer::new();
    out.extend_from_slice(file_letter(reg.side))?;
    out.extend_from_slice(buffer.format(reg.number).as_bytes())
}

/// A register and its word.
fn push_word(out: &mut Vec<u8>, reg: Reg, state: &State) -> Result<(), AllocError>
    ensures { OnOk result (out.new.items ≡ out.old.items ++ word_text (reg, word_in state.now.machine reg)) }
{
    out.extend_from_slice(b" ")?;
    push_register(out, reg)?;
    out.extend_from_slice(b"=")?;
    push_hex(out, 8, state.reg(reg))
}

/// Registers and their words.
fn push_words(out: &mut Vec<u8>, regs: &[Reg], state: &State) -> Result<(), AllocError>
    ensures { OnOk result (out.new.items ≡ out.old.items ++ words_text (with_words (word_in state.now.machine) regs.now)) }
{
    for reg in regs {
        push_word(out, *reg, state)?;
    }
    Ok(())
}

/// The register that the condition tests, with its word.
fn push_tested(out: &mut Vec<u8>, placed: &Placed, state: &State) -> Result<(), AllocError>
    ensures { OnOk result (out.new.items ≡ out.old.items ++ words_text (with_words (word_in state.now.machine) (tested (cond_of placed.now.insn)))) }
{
    match placed.insn.cond() {
        Some(cond) => push_word(out, cond.reg, state),
        None => Ok(()),
    }
}

/// Whether an access lies on its size and within memory.
fn is_good(access: Access) -> bool
    requires { IsTrue (is_size access.size) }
    ensures { result ≡ is_good access.address access.size }
{
    let size = u32::from(access.size);
    access.address % size == 0 && access.address <= MEMORY_BYTES as u32 - size
}

/// Where an access lies, and whether it faults.
fn push_access(out: &mut Vec<u8>, base: u32, access: Option<Access>) -> Result<(), AllocError>
    requires { IsSized access }
    ensures { OnOk result (out.new.items ≡ out.old.items ++ access_text base access) }
{
    let Some(access) = access else { return Ok(()) };
    out.extend_from_slice(b" at ")?;
    if is_good(access) {
        push_address(out, base, access.address)
    } else {
        push_hex(out, 8, base.wrapping_add(access.address))?;
        out.extend_from_slice(b" faults")
    }
}

/// When a branch takes effect.
fn push_branch(out: &mut Vec<u8>, cycle: u64, placed: &Placed) -> Result<(), AllocError>
    requires { cycle < 2 ^ 63 }
    ensures { OnOk result (out.new.items ≡ out.old.items ++ branch_text cycle placed.now.insn) }
{
    if placed.insn.op().is_branch() {
        let mut buffer = Buffer::new();
        out.extend_from_slice(b" goes in ")?;
        out.extend_from_slice(buffer.format(cycle + 6).as_bytes())
    } else {
        Ok(())
    }
}

fn push_from_line(out: &mut Vec<u8>, number: u32) -> Result<(), AllocError>
    ensures { OnOk result (out.new.items ≡ out.old.items ++ from_line number) }
{
    let mut buffer = Buffer::new();
    out.extend_from_slice(b" from line ")?;
    out.extend_from_slice(buffer.format(number).as_bytes())
}

/// Whether an instruction runs, and what it accesses by its place in memory.
fn found(placed: &Placed, state: &State) -> (bool, Option<Access>)
    ensures runs { result.0 ≡ runs (word_in state.now.machine) placed.now.insn }
    ensures access { result.1 ≡ (act_at placed.now state.now.machine).access }
    ensures size { IsSized result.1 }
{
    match placed.insn.action(state.registers()) {
        None => (false, None),
        Some(Action::Transfer(transfer)) => {
            let access = Access {
                address: state.place(transfer.access.address),
                size: transfer.access.size,
                value: transfer.access.value,
            };
            (true, Some(access))
        }
        Some(Action::Write(_, _) | Action::Branch(_)) => (true, None),
    }
}

/// What an instruction reads, accesses and does when it runs.
fn push_running(
    out: &mut Vec<u8>,
    base: u32,
    cycle: u64,
    placed: &Placed,
    access: Option<Access>,
    state: &State,
) -> Result<(), AllocError>
    requires soon { cycle < 2 ^ 63 }
    requires size { IsSized access }
    ensures { OnOk result (out.new.items ≡ out.old.items
        ++ words_text (with_words (word_in state.now.machine) (tested (cond_of placed.now.insn) ++ operand_reads placed.now.insn))
        ++ access_text base access ++ branch_text cycle placed.now.insn) }
{
    push_tested(out, placed, state)?;
    push_words(out, placed.insn.reads().as_slice(), state)?;
    push_access(out, base, access)?;
    push_branch(out, cycle, placed)
}

/// The line of an instruction that is issued.
#[tactic(auto, unfolding(crate::specs::Line::event_text))]
fn push_issue(
    out: &mut Vec<u8>,
    alloc: Global,
    view: &View,
    cycle: u64,
    placed: &Placed,
    found: (bool, Option<Access>),
    state: &State,
) -> Result<(), AllocError>
    requires soon { cycle < 2 ^ 63 }
    requires size { IsSized found.1 }
    ensures { OnOk result (out.new.items ≡ out.old.items
        ++ event_line view.now cycle (issue_of (word_in state.now.machine) placed.now found.0 found.1)) }
{
    push_cycle(out, cycle)?;
    push_insn_text(out, alloc, view, placed)?;
    if found.0 {
        push_running(out, view.base, cycle, placed, found.1, state)?;
    } else {
        out.extend_from_slice(b" skipped")?;
        push_tested(out, placed, state)?;
    }
    out.extend_from_slice(b"\n")
}

/// The line of a store.
fn push_stored(
    out: &mut Vec<u8>,
    base: u32,
    cycle: u64,
    number: u32,
    place: u32,
    size: u8,
    value: u32,
) -> Result<(), AllocError>
    requires { IsTrue (is_size size) }
    ensures { OnOk result (out.new.items ≡ out.old.items ++ line_in cycle (stored_text base number place size value)) }
{
    push_cycle(out, cycle)?;
    out.extend_from_slice(b"stores ")?;
    push_address(out, base, place)?;
    out.extend_from_slice(b" = ")?;
    push_hex(out, size * 2, value)?;
    push_from_line(out, number)?;
    out.extend_from_slice(b"\n")
}

/// The line of a store, where an access is one that doesn't fault.
#[tactic(auto, unfolding(crate::specs::Line::event_text))]
fn push_store(
    out: &mut Vec<u8>,
    view: &View,
    cycle: u64,
    number: u32,
    access: Option<Access>,
) -> Result<(), AllocError>
    requires { IsSized access }
    ensures { OnOk result (out.new.items ≡ out.old.items ++ flat_map (event_line view.now cycle) (stored_by number access)) }
{
    let Some(access) = access else { return Ok(()) };
    let Some(value) = access.value else {
        return Ok(());
    };
    if is_good(access) {
        push_stored(
            out,
            view.base,
            cycle,
            number,
            access.address,
            access.size,
            value,
        )
    } else {
        Ok(())
    }
}

/// Adds the lines of an instruction that is issued in a cycle, where the cycle is seen: of its issue, and of its store.
///
/// # Errors
///
/// `AllocError` where memory ran out.
pub(crate) fn push_insn(
    out: &mut Vec<u8>,
    alloc: Global,
    view: &View,
    cycle: u64,
    placed: &Placed,
    state: &State,
) -> Result<(), AllocError>
    requires { cycle < 2 ^ 63 }
    ensures { OnOk result (out.new.items ≡ out.old.items ++ trace_lines view.now (entries cycle (events_at state.now.machine placed.now))) }
{
    if !view.window.has(cycle) {
        return Ok(());
    }
    let found = found(placed, state);
    push_issue(out, alloc, view, cycle, placed, found, state)?;
    push_store(out, view, cycle, placed.line, found.1)
}

/// The cycle in which a write was issued that lands in this one.
fn push_issued(out: &mut Vec<u8>, cycle: u64, delay: u8) -> Result<(), AllocError>
    ensures { OnOk result (out.new.items ≡ out.old.items ++ codes " issued " ++ decimal (cycle - delay)) }
{
    let mut buffer = Buffer::new();
    out.extend_from_slice(b" issued ")?;
    out.extend_from_slice(
        buffer
            .format(cycle.saturating_sub(u64::from(delay)))
            .as_bytes(),
    )
}

/// What is said of a write that lands.
#[tactic(auto, unfolding(crate::specs::Line::landed_text))]
fn push_landed_text(out: &mut Vec<u8>, cycle: u64, write: &Due) -> Result<(), AllocError>
    ensures { OnOk result (out.new.items ≡ out.old.items ++ landed_text cycle write.now) }
{
    out.extend_from_slice(b"lands ")?;
    push_register(out, write.reg)?;
    out.extend_from_slice(b" = ")?;
    push_hex(out, 8, write.word)?;
    push_from_line(out, write.line)?;
    push_issued(out, cycle, write.delay)
}

/// The line of a write that lands.
fn push_landed(out: &mut Vec<u8>, cycle: u64, write: &Due) -> Result<(), AllocError>
    ensures { OnOk result (out.new.items ≡ out.old.items ++ line_in cycle (landed_text cycle write.now)) }
{
    push_cycle(out, cycle)?;
    push_landed_text(out, cycle, write)?;
    out.extend_from_slice(b"\n")
}

/// The lines of writes that land.
fn push_all_landed(out: &mut Vec<u8>, cycle: u64, writes: &[Due]) -> Result<(), AllocError>
    ensures { OnOk result (out.new.items ≡ out.old.items ++ flat_map (λ write. line_in cycle (landed_text cycle write)) writes.now) }
{
    for write in writes {
        push_landed(out, cycle, write)?;
    }
    Ok(())
}

/// Adds the lines of the writes that land in a cycle, where the cycle is seen.
///
/// # Errors
///
/// `AllocError` where memory ran out.
pub(crate) fn push_landings(
    out: &mut Vec<u8>,
    view: &View,
    cycle: u64,
    writes: &[Due],
) -> Result<(), AllocError>
    ensures { OnOk result (out.new.items ≡ out.old.items ++ trace_lines view.now (entries cycle (map Landed writes.now))) }
{
    if !view.window.has(cycle) {
        return Ok(());
    }
    push_all_landed(out, cycle, writes)
}
