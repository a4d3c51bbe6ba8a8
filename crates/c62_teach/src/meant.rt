//! What may be meant by an instruction that packets lack (docs/CHECK.md, "What `--explain` adds").

use c62_explain::{line_at, push_hint, push_picture};
use c62_grid::words::unit_name;
use c62_insn::{Insn, Letter, Op, Operands, Unit};
use c62_line::Cause;
use c62_listing::{label_text, push_spelling};
use c62_op::{InstructionSet, Reg};
use c62_packet::Placed;
use c62_pair::Uses;
use c62_place::place_of;
use c62_read::{Block, Program, SerialInsn};
use itoa::Buffer;
use std::alloc::{AllocError, Global};

/// The serial text of a check.
#[derive(Clone, Copy)]
pub(crate) struct Serial<'a> {
    /// What it is called.
    pub name: &'a [u8],
    pub text: &'a [u8],
    pub program: &'a Program,
}

/// An instruction as a listing spells it on this unit.
fn spelled(alloc: Global, blocks: &[Block], insn: Insn, unit: Unit) -> Result<String, AllocError> {
    let target = match insn.operands() {
        Operands::Block(number) => blocks.get(usize::from(number)),
        _ => None,
    };
    let label = match target.and_then(|block| block.label()) {
        Some(label) => label_text(label),
        None => "",
    };
    let mut text = String::new(alloc);
    push_spelling(&mut text, insn, unit, label)?;
    Ok(text)
}

/// The instruction on this line of the text.
fn entry_at(blocks: &[Block], line: u32) -> Option<SerialInsn> {
    for block in blocks {
        for entry in block.insns() {
            if entry.line == line {
                return Some(*entry);
            }
        }
    }
    None
}

/// How like two instructions are: 0 where they have neither a register that both write nor their operation in common.
fn likeness(one: &Insn, other: &Insn) -> u8 {
    let written = Uses::new(*one).written.meets(Uses::new(*other).written);
    match (written, one.op() == other.op()) {
        (true, true) => 3,
        (true, false) => 2,
        (false, true) => 1,
        (false, false) => 0,
    }
}

/// The first of these that is most like an instruction, if any is.
fn meant_by(insn: &Insn, left: &[Placed]) -> Option<Placed> {
    let mut meant = None;
    let mut most = 0;
    for placed in left {
        let like = likeness(insn, &placed.insn);
        if most < like {
            most = like;
            meant = Some(*placed);
        }
    }
    meant
}

/// The register that an instruction clears, where ZERO is read as it.
fn zeroed(insn: &Insn) -> Option<Reg> {
    match insn.operands() {
        Operands::Three(first, second, to) => {
            let is_cleared = insn.op() == Op::Sub && first == second && second == to;
            is_cleared.then_some(to)
        }
        Operands::Constant(constant, to) => {
            let is_cleared = insn.op() == Op::Mvk && constant == 0;
            is_cleared.then_some(to)
        }
        _ => None,
    }
}

/// Whether an instruction of packets is what ZERO is on its unit, and the other one what ZERO is on others.
fn is_other_zero(insn: &Insn, placed: &Placed) -> bool {
    match (zeroed(insn), zeroed(&placed.insn)) {
        (Some(one), Some(other)) => {
            let is_move = placed.insn.op() == Op::Mvk;
            one == other && is_move == (placed.unit.letter == Letter::S)
        }
        _ => false,
    }
}

/// How an instruction is like another, where it is.
fn like_words(likeness: u8) -> &'static str {
    match likeness {
        3 => " has the same operation and writes the same register",
        2 => " writes the same register",
        _ => " has the same operation",
    }
}

/// Adds that an instruction of packets may be meant by one of the text.
fn push_meant(
    out: &mut Vec<u8>,
    alloc: Global,
    blocks: &[Block],
    entry: &SerialInsn,
    placed: &Placed,
) -> Result<(), AllocError> {
    let like = like_words(likeness(&entry.insn, &placed.insn));
    let mut line = Buffer::new();
    let text = spelled(alloc, blocks, placed.insn, placed.unit)?;
    push_hint(
        out,
        entry.line,
        &[
            b"listing line ",
            line.format(placed.line).as_bytes(),
            like.as_bytes(),
            b", and may be meant: ",
            text.as_bytes(),
        ],
    )?;
    if !is_other_zero(&entry.insn, placed) {
        return Ok(());
    }
    let unit = unit_name(placed.unit).as_bytes();
    push_hint(
        out,
        entry.line,
        &[
            b"for that write ZERO ",
            unit,
            b": the unit decides which instruction ZERO is",
        ],
    )
}

/// Adds a line of the text, with what is said of its instruction.
pub(crate) fn push_at(
    isa: InstructionSet,
    out: &mut Vec<u8>,
    alloc: Global,
    serial: Serial<'_>,
    number: u32,
    says: &[u8],
) -> Result<(), AllocError> {
    let line = line_at(serial.text, number);
    // Such a fault is found where the instruction begins.
    let place = place_of(isa, alloc, Cause::TooManyInstructions, line)?;
    push_picture(out, serial.name, line, number, place, says)
}

/// Adds which instruction of this line of the text packets lack, and which of theirs may be meant by it: one of these, which stand for none
/// of the text.
///
/// # Errors
///
/// `AllocError` where memory ran out.
pub(crate) fn push_missing(
    isa: InstructionSet,
    out: &mut Vec<u8>,
    alloc: Global,
    serial: Serial<'_>,
    line: u32,
    left: &[Placed],
) -> Result<(), AllocError> {
    let blocks = serial.program.blocks();
    let Some(entry) = entry_at(blocks, line) else {
        return Ok(());
    };
    let units = entry.insn.units();
    let mut says = String::new(alloc);
    says.push_str("the packets lack ")?;
    if let Some(unit) = Unit::ALL.iter().copied().find(|unit| units.has(*unit)) {
        says.push_str(spelled(alloc, blocks, entry.insn, unit)?.as_str())?;
    }
    push_at(isa, out, alloc, serial, line, says.as_bytes())?;
    match meant_by(&entry.insn, left) {
        Some(placed) => push_meant(out, alloc, blocks, &entry, &placed),
        None => Ok(()),
    }
}
