//! What several tests take of a text.

use crate::expect::{equal, equal_in};
use c62_depend::Plan;
use c62_insn::{Letter, Side, Unit};
use c62_op::InstructionSet;
use c62_read::{Block, read_program};
use std::alloc::Global;
use std::process::Abort;
use std::test::Fail;

/// The only block of a text.
pub(crate) fn block_of(rt: &impl Abort, alloc: Global, text: &str) -> Result<Block, Fail> {
    let mut blocks = read_program(InstructionSet::Core, alloc, text.as_bytes())?.into_blocks();
    equal_in(rt, &text, &blocks.len(), &1);
    Ok(blocks.pop().expect(rt, "a block"))
}

/// The plan of the only block of a text, made again from the block that comes back where memory is refused.
pub(crate) fn plan_of(rt: &impl Abort, alloc: Global, text: &str) -> Result<Plan, Fail> {
    let block = block_of(rt, alloc, text)?;
    let count = block.insns().len();
    let block = match Plan::new(alloc, block) {
        Ok(plan) => return Ok(plan),
        Err((block, _)) => block,
    };
    equal(rt, &block.insns().len(), &count);
    match Plan::new(alloc, block) {
        Ok(plan) => Ok(plan),
        Err((_, error)) => Err(error.into()),
    }
}

pub(crate) fn name_of(unit: Unit) -> &'static str {
    match (unit.letter, unit.side) {
        (Letter::L, Side::A) => "L1",
        (Letter::S, Side::A) => "S1",
        (Letter::M, Side::A) => "M1",
        (Letter::D, Side::A) => "D1",
        (Letter::L, Side::B) => "L2",
        (Letter::S, Side::B) => "S2",
        (Letter::M, Side::B) => "M2",
        (Letter::D, Side::B) => "D2",
    }
}
