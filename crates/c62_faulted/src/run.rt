//! A serial run that is looked at before each instruction.

ghost use Rattle.std.specs.Prelude.{◌≡◌, ◌<◌, ◌∷◌, [], length, map, None, IfOk};
ghost use Rattle.c62_read.specs.declared.block.SerialInsn.{SerialInsn as Entry};
ghost use Rattle.c62_serial.specs.Serial.{serial};
ghost use Rattle.c62_faulted.specs.Faulted.{FindsFaults, alone, faults_in, parted, with_faults};

use crate::fault::{Fault, note};
use c62_read::{Block, Program};
use c62_serial::{Exit, State, run_block};
use std::alloc::{AllocError, Global};

/// Each instruction of a block as a block of its own.
fn parted(alloc: Global, block: &Block) -> Result<Vec<Block>, AllocError>
    ensures { IfOk result (λ parts. parts.items ≡ parted block.now) }
{
    let mut parts = Vec::new(alloc);
    for entry in block.insns() {
        parts.push(Block::new(None, Vec::from_slice(alloc, &[*entry])?))?;
    }
    Ok(parts)
}

/// The same of each block of a program.
fn all_parted(alloc: Global, blocks: &[Block]) -> Result<Vec<Vec<Block>>, AllocError>
    ensures { IfOk result (λ all. map (λ parts. parts.items) all.items ≡ map parted blocks.now) }
{
    let mut all = Vec::new(alloc);
    for block in blocks {
        all.push(parted(alloc, block)?)?;
    }
    Ok(all)
}

/// Runs a block, and adds the first fault of each line that has one. Answers where it goes on.
fn run_noting(
    block: &Block,
    parts: &[Block],
    state: &mut State,
    faults: &mut Vec<Fault>,
) -> Result<Exit, AllocError>
    requires { parts.now ≡ parted block.now }
    ensures machine { IfOk result (λ _. state.new.machine ≡ (serial block.now.insns state.old.machine).machine) }
    ensures exit { IfOk result (λ exit. exit ≡ (serial block.now.insns state.old.machine).exit) }
    ensures faults { IfOk result (λ _. faults.new.items ≡ with_faults faults.old.items (faults_in state.old.machine block.now.insns)) }
{
    let mut exit = Exit::Next;
    let insns = block.insns();
    for index in 0..insns.len() {
        note(faults, &insns[index], state)?;
        exit = match run_block(&parts[index], state)? {
            Exit::Next => exit,
            taken => taken,
        };
    }
    Ok(exit)
}

/// The first fault of each line of a program that has one, where it is run serially from this state for so many blocks at
/// most, in the order in which they come (docs/REPORT.md, "Accesses that fault").
///
/// # Errors
///
/// `AllocError` where memory ran out.
pub fn faults_of(
    alloc: Global,
    program: &Program,
    state: &mut State,
    limit: u32,
) -> Result<Vec<Fault>, AllocError>
    ensures { IfOk result (λ faults. FindsFaults program.now state.old.machine limit faults.items) }
{
    let all = program.blocks();
    let parts = all_parted(alloc, all)?;
    let mut faults = Vec::new(alloc);
    let mut number = 0;
    let mut blocks = 0;
    while number < all.len() && blocks < limit {
        let exit = run_noting(&all[number], &parts[number], state, &mut faults)?;
        blocks += 1;
        number = match exit {
            Exit::Next => number + 1,
            Exit::Block(target) => usize::from(target),
            Exit::Register(_) => return Ok(faults),
        };
    }
    Ok(faults)
}
