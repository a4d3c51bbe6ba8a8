//! The line of a loop (docs/CHECK.md, "How it is decided").

ghost use Rattle.std.specs.Prelude.{◌≡◌, ◌++◌, OnOk, decimal, codes};
ghost use Rattle.c62_op.specs.Name.{file_letter, register_name};
ghost use Rattle.c62_check_loop.specs.Laws.{loads_into, may_fault};
ghost use Rattle.c62_check_loop.specs.Lines.{same_words, words_of, loop_line, name_words, file_words, fault_words, but_words};

use crate::verdict::LoopVerdict;
use c62_insn::{Insn, Operands, Reg, Side};
use c62_line::Label;
use c62_loop_match::Early;
use c62_pair::RegSet;
use c62_read::SerialInsn;
use itoa::Buffer;
use std::alloc::AllocError;

/// Adds a word and a number.
fn push_number(out: &mut Vec<u8>, word: &[u8], number: u64) -> Result<(), AllocError>
    ensures { OnOk result (out.new.items ≡ out.old.items ++ (word.now ++ decimal number)) }
{
    out.extend_from_slice(word)?;
    let mut buffer = Buffer::new();
    out.extend_from_slice(buffer.format(number).as_bytes())
}

/// Adds a word and a line.
fn push_line(out: &mut Vec<u8>, word: &[u8], line: u32) -> Result<(), AllocError>
    ensures { OnOk result (out.new.items ≡ out.old.items ++ (word.now ++ decimal line)) }
{
    push_number(out, word, u64::from(line))
}

/// Adds from how many trips on the packets do the same, and in how many cycles a trip.
fn push_same(out: &mut Vec<u8>, trips: u64, cycles: u64) -> Result<(), AllocError>
    ensures { OnOk result (out.new.items ≡ out.old.items ++ same_words trips cycles) }
{
    push_number(out, b" same from ", trips)?;
    push_number(out, b" trips cycles ", cycles)
}

/// Adds a word and a number that may be less than 0.
fn push_signed(out: &mut Vec<u8>, word: &[u8], number: i64) -> Result<(), AllocError>
    ensures { OnOk result (out.new.items ≡ out.old.items ++ (word.now ++ signed_decimal number)) }
{
    out.extend_from_slice(word)?;
    let mut buffer = Buffer::new();
    out.extend_from_slice(buffer.format(number).as_bytes())
}

ghost use Rattle.std.specs.Fmt.{signed_decimal};

/// Adds the lines of an instance that comes too early and of the other.
fn push_pair(out: &mut Vec<u8>, early: &Early) -> Result<(), AllocError>
    ensures { OnOk result (out.new.items ≡ out.old.items ++ pair_words early.now) }
{
    push_number(out, b" early ", u64::from(early.line))?;
    push_number(out, b" after ", u64::from(early.after))
}

/// Adds how many cycles lie between them, and must.
fn push_cycles(out: &mut Vec<u8>, early: &Early) -> Result<(), AllocError>
    ensures { OnOk result (out.new.items ≡ out.old.items ++ cycles_words early.now) }
{
    push_signed(out, b" needs ", i64::from(early.needs))?;
    push_signed(out, b" has ", early.has)
}

/// Adds what is told of an instance that comes too early.
#[tactic(auto, unfolding(crate::specs::Lines::early_words))]
fn push_early(out: &mut Vec<u8>, early: &Early) -> Result<(), AllocError>
    ensures { OnOk result (out.new.items ≡ out.old.items ++ early_words early.now) }
{
    push_pair(out, early)?;
    push_cycles(out, early)?;
    push_number(out, b" apart ", early.apart)
}

ghost use Rattle.c62_check_loop.specs.Lines.{pair_words, cycles_words, early_words};

fn file_letter(side: Side) -> &'static [u8]
    ensures { result.now ≡ file_letter side }
{
    match side {
        Side::A => b"A",
        Side::B => b"B",
    }
}

/// Adds a space and the name of a register.
///
/// # Errors
///
/// `AllocError` where memory ran out; the bytes are then unspecified.
pub fn push_register(out: &mut Vec<u8>, reg: Reg) -> Result<(), AllocError>
    ensures { OnOk result (out.new.items ≡ out.old.items ++ (codes " " ++ register_name reg)) }
{
    out.extend_from_slice(b" ")?;
    push_number(out, file_letter(reg.side), u64::from(reg.number))
}

/// Adds the name of a register, where it is one of these.
fn push_name(out: &mut Vec<u8>, but: RegSet, reg: Reg) -> Result<(), AllocError>
    ensures { OnOk result (out.new.items ≡ out.old.items ++ name_words but reg.side reg.number) }
{
    if but.has(reg) {
        push_register(out, reg)
    } else {
        Ok(())
    }
}

/// Adds those of a file.
fn push_file(out: &mut Vec<u8>, but: RegSet, side: Side) -> Result<(), AllocError>
    ensures { OnOk result (out.new.items ≡ out.old.items ++ file_words but side) }
{
    for number in 0..16 {
        push_name(out, but, Reg { side, number })?;
    }
    Ok(())
}

/// Whether an instruction loads or stores one of these registers.
fn loads_into(but: RegSet, insn: &Insn) -> bool
    ensures { result ≡ loads_into but (operands_of insn.now) }
{
    match insn.operands() {
        Operands::Access { register, .. } => but.has(register),
        _ => false,
    }
}

ghost use Rattle.c62_insn.specs.Insn.{operands_of};

/// Whether it is a load into one of these registers.
fn may_fault(but: RegSet, entry: &SerialInsn) -> bool
    ensures { result ≡ may_fault but entry.now }
{
    !entry.insn.op().is_store() && loads_into(but, &entry.insn)
}

/// Adds the line of a load into one of these registers.
fn push_fault(out: &mut Vec<u8>, but: RegSet, entry: &SerialInsn) -> Result<(), AllocError>
    ensures { OnOk result (out.new.items ≡ out.old.items ++ fault_words but entry.now) }
{
    if may_fault(but, entry) {
        push_line(out, b" fault ", entry.line)
    } else {
        Ok(())
    }
}

/// Adds those of a block.
fn push_faults(out: &mut Vec<u8>, but: RegSet, block: &[SerialInsn]) -> Result<(), AllocError>
    ensures { OnOk result (out.new.items ≡ out.old.items ++ flat_map (fault_words but) block.now) }
{
    for entry in block {
        push_fault(out, but, entry)?;
    }
    Ok(())
}

ghost use Rattle.std.specs.List.{flat_map};

/// Adds the registers for which packets don't do the same, and the lines of loads into them.
#[tactic(auto, unfolding(crate::specs::Lines::but_words))]
fn push_but(out: &mut Vec<u8>, but: RegSet, block: &[SerialInsn]) -> Result<(), AllocError>
    ensures { OnOk result (out.new.items ≡ out.old.items ++ but_words but block.now) }
{
    out.extend_from_slice(b" but")?;
    push_file(out, but, Side::A)?;
    push_file(out, but, Side::B)?;
    push_faults(out, but, block)
}

/// Adds from how many trips on the packets do the same but for registers.
fn push_same_but(
    out: &mut Vec<u8>,
    trips: u64,
    cycles: u64,
    but: RegSet,
    block: &[SerialInsn],
) -> Result<(), AllocError>
    ensures { OnOk result (out.new.items ≡ out.old.items ++ (same_words trips cycles ++ but_words but block.now)) }
{
    push_same(out, trips, cycles)?;
    push_but(out, but, block)
}

/// Adds what is told of a loop.
#[tactic(auto, unfolding(crate::specs::Lines::words_of))]
fn push_words(
    out: &mut Vec<u8>,
    block: &[SerialInsn],
    verdict: LoopVerdict,
) -> Result<(), AllocError>
    ensures { OnOk result (out.new.items ≡ out.old.items ++ words_of block.now verdict) }
{
    match verdict {
        LoopVerdict::Same { trips, cycles, .. } => {
            push_same(out, u64::from(trips), u64::from(cycles))
        }
        LoopVerdict::SameBut {
            trips,
            cycles,
            but,
            ..
        } => push_same_but(out, u64::from(trips), u64::from(cycles), but, block),
        LoopVerdict::Missing(line) => push_line(out, b" missing ", line),
        LoopVerdict::Extra(line) => push_line(out, b" extra ", line),
        LoopVerdict::Uneven(line) => push_line(out, b" uneven ", line),
        LoopVerdict::Counter(line) => push_line(out, b" counter ", line),
        LoopVerdict::Early(early) => push_early(out, &early),
        LoopVerdict::Branch(line) => push_line(out, b" branch ", line),
        LoopVerdict::Outside => out.extend_from_slice(b" outside"),
    }
}

/// Adds what is told of the loop of a label, whose block this is, as one line.
///
/// # Errors
///
/// `AllocError` where memory ran out; the bytes are then unspecified.
pub fn push_loop(
    out: &mut Vec<u8>,
    label: &Label,
    block: &[SerialInsn],
    verdict: LoopVerdict,
) -> Result<(), AllocError>
    ensures { OnOk result (out.new.items ≡ out.old.items ++ loop_line label.now block.now verdict) }
{
    out.extend_from_slice(b"loop ")?;
    out.extend_from_slice(label.as_bytes())?;
    push_words(out, block, verdict)?;
    out.extend_from_slice(b"\n")
}
