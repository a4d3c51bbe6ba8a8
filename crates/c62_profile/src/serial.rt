//! A program that is run serially and counted.

ghost use Rattle.std.specs.Prelude.{◌≡◌, ◌++◌, ◌<◌, IfOk, OnOk, length};
ghost use Rattle.std.specs.Option.{option_copied};
ghost use Rattle.c62_serial.specs.Chain.{RunsProgram};
ghost use Rattle.c62_profile.specs.Visits.{CountsProgram};
ghost use Rattle.c62_profile.specs.Table.{serial_row, serial_table};

use crate::table::{Row, push_row};
use crate::tally::Tally;
use c62_read::{Block, Program};
use c62_serial::{Chain, End, Exit, State, run_block};
use std::alloc::{AllocError, Global};

/// How many instructions a block has, at most 256.
fn insns_of(block: &Block) -> u16
    ensures { result ≡ length block.now.insns }
{
    block.insns().len() as u16
}

/// Runs a program from its first block on, and at most so many blocks, and counts them. Answers the chain and the count.
fn count_serial(
    alloc: Global,
    program: &Program,
    state: &mut State,
    limit: u32,
) -> Result<(Chain, Tally), AllocError>
    ensures { IfOk result (λ ran. CountsProgram program.now state.old.machine limit ran.0 state.new.machine ran.1) }
{
    let all = program.blocks();
    let mut tally = Tally::new(alloc, all.len())?;
    let mut number = 0;
    while number < all.len() {
        if tally.blocks == limit {
            return Ok((tally.ended(End::Limit), tally));
        }
        let exit = run_block(&all[number], state)?;
        tally.add(number, insns_of(&all[number]));
        number = match exit {
            Exit::Next => number + 1,
            Exit::Block(target) => usize::from(target),
            Exit::Register(value) => return Ok((tally.ended(End::Register(value)), tally)),
        };
    }
    Ok((tally.ended(End::End), tally))
}

/// Runs a program as [`run_program`](c62_serial::run_program) does, and counts how often each block is run. Answers the chain,
/// and the count with the instructions that its blocks have together.
///
/// # Errors
///
/// `AllocError` where memory ran out.
pub fn run_serial(
    alloc: Global,
    program: &Program,
    state: &mut State,
    limit: u32,
) -> Result<(Chain, Tally), AllocError>
    ensures counts { IfOk result (λ ran. CountsProgram program.now state.old.machine limit ran.0 state.new.machine ran.1) }
    ensures runs { IfOk result (λ ran. RunsProgram program.now state.old.machine limit ran.0 state.new.machine) }
    ensures each { IfOk result (λ ran. length ran.1.visits.items ≡ length program.now) }
{
    let (chain, tally) = count_serial(alloc, program, state, limit)?;
    Ok((chain, tally))
}

/// Adds the row of a block of a program.
fn push_block(
    out: &mut Vec<u8>,
    program: &[Block],
    number: usize,
    tally: &Tally,
) -> Result<(), AllocError>
    requires inside { number < length program.now }
    requires counted { number < length tally.now.visits.items }
    ensures { OnOk result (out.new.items ≡ out.old.items ++ serial_row program.now tally.now number) }
{
    let block = &program[number];
    let row = Row {
        number,
        label: block.label(),
        runs: tally.visits[number],
        each: insns_of(block),
    };
    push_row(out, &row, tally.taken)
}

/// Adds the table of a serial run (docs/REPORT.md, "The profile").
///
/// # Errors
///
/// `AllocError` where memory ran out.
#[tactic(auto, unfolding(crate::specs::Table::serial_table))]
pub fn serial_table(out: &mut Vec<u8>, program: &Program, tally: &Tally) -> Result<(), AllocError>
    requires { length tally.now.visits.items ≡ length program.now }
    ensures { OnOk result (out.new.items ≡ out.old.items ++ serial_table program.now tally.now) }
{
    let all = program.blocks();
    out.extend_from_slice(b"block runs instructions sum share\n")?;
    for number in 0..all.len() {
        push_block(out, all, number, tally)?;
    }
    Ok(())
}
