//! What the machine holds at the end of a run (docs/JSON.md, "The machine").

ghost use Rattle.std.specs.Prelude.{◌≡◌, ◌++◌, ◌+◌, ◌*◌, ◌<◌, ◌≤◌, ◌∷◌, [], OnOk, map};
ghost use Rattle.json.specs.Token.{key, string};
ghost use Rattle.c62_serial.specs.State.{byte_in};
ghost use Rattle.c62_serial.specs.Memory.{bytes_from};
ghost use Rattle.c62_report.specs.Report.{address_text};
ghost use Rattle.c62_json.specs.Document.{Adds, count};
ghost use Rattle.c62_json_report.specs.Machine.{digits, faults, file, machine_members, memory, register, registers, word, words};

use crate::brackets::{close_array, close_object, open_array, open_object};
use crate::words::register_name;
use c62_insn::{Reg, Side};
use c62_json::{push_count, push_key, push_name, push_text};
use c62_report::push_hex;
use c62_serial::{MEMORY_BYTES, State};
use json::Writer;
use std::alloc::{AllocError, Global};

/// How many words memory has.
const MEMORY_WORDS: u32 = MEMORY_BYTES as u32 / 4;

/// A register with its value.
fn push_register(alloc: Global, out: &mut Writer, state: &State, reg: Reg) -> Result<(), AllocError>
    ensures { Adds result out.old out.new (register state.now.machine reg.side reg.number) }
{
    push_name(out, register_name(alloc, reg)?.as_str())?;
    push_count(out, u64::from(state.reg(reg)))
}

/// The registers of a file.
fn push_file(alloc: Global, out: &mut Writer, state: &State, side: Side) -> Result<(), AllocError>
    ensures { Adds result out.old out.new (file state.now.machine side) }
{
    for number in 0..16 {
        push_register(alloc, out, state, Reg { side, number })?;
    }
    Ok(())
}

/// The registers.
#[tactic(auto, unfolding(crate::specs::Machine::registers))]
fn push_registers(alloc: Global, out: &mut Writer, state: &State) -> Result<(), AllocError>
    ensures { Adds result out.old out.new (registers state.now.machine) }
{
    push_name(out, "registers")?;
    open_object(out)?;
    push_file(alloc, out, state, Side::A)?;
    push_file(alloc, out, state, Side::B)?;
    close_object(out)?;
    Ok(())
}

/// The address of a place in memory that begins at a base, as the name of a member.
#[tactic(auto, using(crate::proofs::Ascii::address_stands))]
fn push_address(alloc: Global, out: &mut Writer, base: u32, place: u32) -> Result<(), AllocError>
    ensures { Adds result out.old out.new (key (address_text base place) ∷ []) }
{
    let mut name = Vec::new(alloc);
    c62_report::push_address(&mut name, base, place)?;
    push_key(alloc, out, &name)
}

/// Adds the digits of four bytes of memory from a place on.
#[tactic(auto, unfolding(crate::specs::Machine::digits))]
fn push_digits(out: &mut Vec<u8>, state: &State, place: u16) -> Result<(), AllocError>
    requires { place + 3 < 65536 }
    ensures { OnOk result (out.new.items ≡ out.old.items ++ digits (bytes_from (byte_in state.now.machine) place 4)) }
{
    push_hex(out, 2, u32::from(state.byte(place)))?;
    push_hex(out, 2, u32::from(state.byte(place + 1)))?;
    push_hex(out, 2, u32::from(state.byte(place + 2)))?;
    push_hex(out, 2, u32::from(state.byte(place + 3)))
}

/// Four bytes of memory from a place on, as a text of their digits.
#[tactic(auto, using(crate::proofs::Ascii::digits_stand))]
fn push_bytes(alloc: Global, out: &mut Writer, state: &State, place: u16) -> Result<(), AllocError>
    requires { place + 3 < 65536 }
    ensures { Adds result out.old out.new (string (digits (bytes_from (byte_in state.now.machine) place 4)) ∷ []) }
{
    let mut text = Vec::new(alloc);
    push_digits(&mut text, state, place)?;
    push_text(alloc, out, &text)
}

/// A word of memory that isn't 0.
#[tactic(auto, unfolding(crate::specs::Machine::word))]
fn push_word(alloc: Global, out: &mut Writer, state: &State, k: u32) -> Result<(), AllocError>
    requires { k < MEMORY_WORDS }
    ensures { Adds result out.old out.new (word state.now.machine k) }
{
    let place = 4 * k;
    let Some(value) = state.load_at(place, 4) else {
        unreachable!()
    };
    if value == 0 {
        return Ok(());
    }
    push_address(alloc, out, state.base(), place)?;
    push_bytes(alloc, out, state, place as u16)
}

/// The first words of memory that aren't 0.
fn push_words(alloc: Global, out: &mut Writer, state: &State, count: u32) -> Result<(), AllocError>
    requires { count ≤ MEMORY_WORDS }
    ensures { Adds result out.old out.new (words state.now.machine count) }
{
    for k in 0..count {
        push_word(alloc, out, state, k)?;
    }
    Ok(())
}

/// The words of memory that aren't 0.
#[tactic(auto, unfolding(crate::specs::Machine::memory))]
fn push_memory(alloc: Global, out: &mut Writer, state: &State) -> Result<(), AllocError>
    ensures { Adds result out.old out.new (memory state.now.machine) }
{
    push_name(out, "memory")?;
    open_object(out)?;
    push_words(alloc, out, state, MEMORY_WORDS)?;
    close_object(out)
}

/// Numbers of lines.
fn push_numbers(out: &mut Writer, numbers: &[u32]) -> Result<(), AllocError>
    ensures { Adds result out.old out.new (map count numbers.now) }
{
    for number in numbers {
        push_count(out, u64::from(*number))?;
    }
    Ok(())
}

/// The lines that faulted.
#[tactic(auto, unfolding(crate::specs::Machine::faults))]
fn push_faults(out: &mut Writer, state: &State) -> Result<(), AllocError>
    ensures { Adds result out.old out.new (faults state.now.machine) }
{
    push_name(out, "faults")?;
    open_array(out)?;
    push_numbers(out, state.faults())?;
    close_array(out)
}

/// The members that tell what the machine holds.
pub(crate) fn push_machine(alloc: Global, out: &mut Writer, state: &State) -> Result<(), AllocError>
    ensures { Adds result out.old out.new (machine_members state.now.machine) }
{
    push_registers(alloc, out, state)?;
    push_memory(alloc, out, state)?;
    push_faults(out, state)
}
