//! What may be meant by the instructions that packets lack (docs/CHECK.md, "What `--explain` adds").

use crate::meant::{Serial, push_missing};
use c62_check::{Verdict, judge};
use c62_op::InstructionSet;
use c62_packet::{Packets, Placed};
use c62_read::SerialInsn;
use std::alloc::{AllocError, Global};

/// The instructions of packets that stand for none of these.
fn unmatched(
    alloc: Global,
    insns: &[SerialInsn],
    placed: &[Placed],
) -> Result<Vec<Placed>, AllocError> {
    let mut left = Vec::from_slice(alloc, placed)?;
    for entry in insns {
        let same = left
            .iter()
            .position(|each| entry.insn.same_but_for_the_unit(&each.insn));
        if let Some(index) = same {
            left.remove(index);
        }
    }
    Ok(left)
}

/// Adds what may be meant by the first instruction of the block of this number that its packets lack.
fn push_hints(
    isa: InstructionSet,
    out: &mut Vec<u8>,
    alloc: Global,
    serial: Serial<'_>,
    packets: &Packets,
    number: usize,
    verdict: &Verdict,
) -> Result<(), AllocError> {
    let Verdict::Missing(line) = verdict else {
        return Ok(());
    };
    let block = serial.program.blocks().get(number);
    let listed = packets.blocks().get(number);
    let (Some(block), Some(listed)) = (block, listed) else {
        return Ok(());
    };
    let left = unmatched(alloc, block.insns(), listed.placed())?;
    push_missing(isa, out, alloc, serial, *line, &left)
}

/// What may be meant by the first instruction of each block that its packets lack.
///
/// # Errors
///
/// `AllocError` where memory ran out.
pub(crate) fn blocks_told(
    isa: InstructionSet,
    alloc: Global,
    serial: Serial<'_>,
    packets: &Packets,
) -> Result<Vec<u8>, AllocError> {
    let judged = judge(alloc, serial.program, packets)?;
    let mut more = Vec::new(alloc);
    for number in 0..judged.verdicts.len() {
        push_hints(
            isa,
            &mut more,
            alloc,
            serial,
            packets,
            number,
            &judged.verdicts[number],
        )?;
    }
    Ok(more)
}
