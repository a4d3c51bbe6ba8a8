//! A program run as a chain of blocks.

ghost use Rattle.std.specs.Prelude.{IfOk, OnErr};

use crate::serial::{Exit, run_block};
use crate::state::State;
use c62_read::Program;
use std::alloc::AllocError;

/// How a chain ended.
#[derive(Clone, Copy, PartialEq, Eq, Debug)]
pub enum End {
    /// It went on past the last block.
    End,
    /// It branched to the value of a register.
    Register(u32),
    /// As many blocks were run as were allowed, and another would follow.
    Limit,
}

/// A run of blocks, each chosen by the exit of the one before it.
#[derive(Clone, Copy, PartialEq, Eq, Debug)]
pub struct Chain {
    /// How many blocks were run.
    pub blocks: u32,
    /// How the chain ended.
    pub stop: End,
}

ghost use Rattle.c62_serial.specs.Chain.{RunsProgram, LacksRoom};

/// Runs a program from its first block on, and at most so many blocks. After a block it goes on with
/// the next one or with the branch's; a branch to a register, or going on past the last block, ends
/// it. The limit is looked at before each block, the first too, so a chain that ends with its last
/// allowed block ends as it would without a limit.
///
/// Before each block the state makes room for a fault of each of its instructions, by its own
/// allocator.
///
/// # Errors
///
/// `AllocError` where that room was missing and memory runs out. The state is then that at the start
/// of a block of the chain, after fewer blocks than the limit.
pub fn run_program(program: &Program, state: &mut State, limit: u32) -> Result<Chain, AllocError>
    ensures ok { IfOk result (λ chain. RunsProgram program.now state.old.machine limit chain state.new.machine) }
    ensures err { OnErr result (LacksRoom program.now state.old.machine limit state.new) }
{
    let all = program.blocks();
    let mut number = 0;
    let mut blocks = 0;
    while number < all.len() {
        if blocks == limit {
            return Ok(Chain {
                blocks,
                stop: End::Limit,
            });
        }
        let exit = run_block(&all[number], state)?;
        blocks += 1;
        number = match exit {
            Exit::Next => number + 1,
            Exit::Block(target) => usize::from(target),
            Exit::Register(value) => return Ok(Chain {
                blocks,
                stop: End::Register(value),
            }),
        };
    }
    Ok(Chain {
        blocks,
        stop: End::End,
    })
}
