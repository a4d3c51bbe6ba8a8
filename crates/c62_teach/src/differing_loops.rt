//! What is told of loops that packets aren't told to do (docs/CHECK.md, "What `--explain` adds").

use crate::meant::{Serial, push_at, push_missing};
use c62_check::Verdict;
use c62_check_loop::{LoopVerdict, check_loop, push_loop};
use c62_check_loops::{BlockVerdict, judge_loops, promise_of};
use c62_check_rest::RestVerdict;
use c62_command::Promises;
use c62_explain::push_hint;
use c62_grid::words::{push_number, push_register};
use c62_insn::{Operands, Reg};
use c62_op::InstructionSet;
use c62_packet::Placed;
use c62_pipeline::{Meeting, meeting_in};
use c62_read::{Block, SerialInsn};
use c62_rows::{Row, RowsText};
use std::alloc::{AllocError, Global};

/// The instructions of rows that are none of a text's, but for branches, whose labels have other numbers.
fn strange(alloc: Global, blocks: &[Block], rows: &[Row]) -> Result<Vec<Placed>, AllocError> {
    let mut all = Vec::new(alloc);
    for row in rows {
        for placed in &row.insns {
            let stands = blocks.iter().any(|block| block
                .insns()
                .iter()
                .any(|entry| entry.insn.same_but_for_the_unit(&placed.insn)));
            if !stands && !placed.insn.op().is_branch() {
                all.push(*placed)?;
            }
        }
    }
    Ok(all)
}

/// These registers, and behind them the other bases of these accesses.
fn with_bases(alloc: Global, given: &[Reg], insns: &[SerialInsn]) -> Result<Vec<Reg>, AllocError> {
    let mut bases = Vec::from_slice(alloc, given)?;
    for entry in insns {
        if let Operands::Access { base, .. } = entry.insn.operands()
            && !bases.iter().any(|one| *one == base)
        {
            bases.push(base)?;
        }
    }
    Ok(bases)
}

/// A loop of a text, and the packets that are held against it.
#[derive(Clone, Copy)]
struct Held<'a> {
    blocks: &'a [Block],
    number: u8,
    read: &'a RowsText,
}

/// What is told of a loop where accesses from two of these registers are apart, if it is the same then.
fn same_with(
    alloc: Global,
    held: Held<'_>,
    apart: &[Reg],
) -> Result<Option<LoopVerdict>, AllocError> {
    let promise = promise_of(apart);
    let verdict = check_loop(alloc, held.blocks, held.number, held.read, promise)?;
    Ok(match verdict {
        Some(LoopVerdict::Same { .. } | LoopVerdict::SameBut { .. }) => verdict,
        _ => None,
    })
}

/// Of these registers as few as will do for a loop to be the same: the first ones, and those of the others that can't be left out.
fn fewest(
    alloc: Global,
    held: Held<'_>,
    apart: Vec<Reg>,
    first: usize,
) -> Result<Vec<Reg>, AllocError> {
    let mut fewest = apart;
    let mut index = first;
    while index < fewest.len() {
        let mut fewer = Vec::from_slice(alloc, &fewest)?;
        fewer.remove(index);
        if same_with(alloc, held, &fewer)?.is_some() {
            fewest = fewer;
        } else {
            index += 1;
        }
    }
    Ok(fewest)
}

/// Those of these instructions that access memory from one of these registers.
fn accesses_from(
    alloc: Global,
    insns: &[SerialInsn],
    bases: &[Reg],
) -> Result<Vec<SerialInsn>, AllocError> {
    let mut all = Vec::new(alloc);
    for entry in insns {
        if let Operands::Access { base, .. } = entry.insn.operands()
            && bases.iter().any(|one| *one == base)
        {
            all.push(*entry)?;
        }
    }
    Ok(all)
}

/// Registers with commas between them.
fn named(alloc: Global, registers: &[Reg]) -> Result<String, AllocError> {
    let mut names = String::new(alloc);
    for reg in registers {
        if !names.is_empty() {
            names.push_str(",")?;
        }
        push_register(&mut names, *reg)?;
    }
    Ok(names)
}

/// Adds which two accesses would have to be promised apart, and what is told where accesses from these registers are.
fn push_meeting(
    isa: InstructionSet,
    out: &mut Vec<u8>,
    alloc: Global,
    serial: Serial<'_>,
    block: &Block,
    meeting: Meeting,
    apart: &[Reg],
    verdict: LoopVerdict,
) -> Result<(), AllocError> {
    let mut says = String::new(alloc);
    says.push_str("this access and that of line ")?;
    push_number(&mut says, u64::from(meeting.second))?;
    says.push_str(" aren't promised to be apart")?;
    push_at(isa, out, alloc, serial, meeting.first, says.as_bytes())?;
    let mut told = Vec::new(alloc);
    if let Some(label) = block.label() {
        push_loop(&mut told, label, block.insns(), verdict)?;
    }
    let names = named(alloc, apart)?;
    let line = match told.strip_suffix(b"\n") {
        Some(line) => line,
        None => &[],
    };
    push_hint(
        out,
        meeting.first,
        &[b"with --apart ", names.as_bytes(), b" it is ", line],
    )
}

/// Adds which promise a loop is the same with, if there is one.
fn push_promise(
    isa: InstructionSet,
    out: &mut Vec<u8>,
    alloc: Global,
    serial: Serial<'_>,
    held: Held<'_>,
    given: &[Reg],
) -> Result<(), AllocError> {
    let Some(block) = held.blocks.get(usize::from(held.number)) else {
        return Ok(());
    };
    let bases = with_bases(alloc, given, block.insns())?;
    if same_with(alloc, held, &bases)?.is_none() {
        return Ok(());
    }
    let apart = fewest(alloc, held, bases, given.len())?;
    let accesses = accesses_from(alloc, block.insns(), &apart)?;
    match (
        meeting_in(promise_of(given), &accesses),
        same_with(alloc, held, &apart)?,
    ) {
        (Some(meeting), Some(verdict)) => push_meeting(
            isa, out, alloc, serial, block, meeting, &apart, verdict,
        ),
        _ => Ok(()),
    }
}

/// Adds what is told of the block of this number.
fn push_block(
    isa: InstructionSet,
    out: &mut Vec<u8>,
    alloc: Global,
    serial: Serial<'_>,
    held: Held<'_>,
    given: &[Reg],
    verdict: &BlockVerdict,
) -> Result<(), AllocError> {
    match verdict {
        BlockVerdict::Loop(LoopVerdict::Same { .. } | LoopVerdict::SameBut { .. }) => Ok(()),
        BlockVerdict::Loop(LoopVerdict::Missing(line))
        | BlockVerdict::Rest(RestVerdict::Checked(Verdict::Missing(line))) => {
            let left = strange(alloc, held.blocks, &held.read.rows.rows)?;
            push_missing(isa, out, alloc, serial, *line, &left)
        }
        BlockVerdict::Loop(_) => push_promise(isa, out, alloc, serial, held, given),
        BlockVerdict::Within | BlockVerdict::Rest(_) => Ok(()),
    }
}

/// What is told of each loop, and each other block, that packets aren't told to do.
///
/// # Errors
///
/// `AllocError` where memory ran out.
pub(crate) fn loops_told(
    isa: InstructionSet,
    alloc: Global,
    serial: Serial<'_>,
    read: &RowsText,
    promises: &Promises,
) -> Result<Vec<u8>, AllocError> {
    let judged = judge_loops(alloc, serial.program, read, promises)?;
    let blocks = serial.program.blocks();
    let mut more = Vec::new(alloc);
    for (number, verdict) in judged.verdicts.iter().enumerate() {
        let held = Held {
            blocks,
            number: number as u8,
            read,
        };
        push_block(
            isa,
            &mut more,
            alloc,
            serial,
            held,
            &promises.apart,
            verdict,
        )?;
    }
    Ok(more)
}
