//! Calls that run blocks and programs.

use crate::answer::FAULT;
use crate::given::{block_of, packed, packets_in, program_of, whole_board};
use crate::opening::opening;
use crate::seen::{look_at, look_of};
use crate::twice::{Came, twice};
use c62_pipe::{Pipe, run_chain};
use c62_serial::{State, run_block, run_program};
use std::alloc::{AllocError, Global};
use std::fmt::Debug;

/// How many blocks a chain has at most.
const LIMIT: u32 = 6;

/// Makes a state.
pub(crate) fn begins(alloc: Global) -> Option<Came> {
    twice((), |_| {
        let state = State::new(alloc).ok()?;
        Some(look_at(&state))
    })
}

/// Makes room for faulted lines.
pub(crate) fn makes_room(alloc: Global) -> Option<Came> {
    twice(opening(alloc)?, |state| {
        state.room(100).ok()?;
        Some(look_at(state))
    })
}

/// Runs a block.
pub(crate) fn runs_block(alloc: Global, text: &str) -> Option<Came> {
    let block = block_of(alloc, text)?;
    twice(opening(alloc)?, |state| {
        let exit = run_block(&block, state).ok()?;
        Some(look_of(&exit, state))
    })
}

/// Runs packets.
pub(crate) fn runs_packets(alloc: Global, text: &str) -> Option<Came> {
    let block = packed(alloc, &whole_board(alloc, text)?)?;
    twice(opening(alloc)?, |state| {
        let ran = Pipe::run(&block, state).ok()?;
        Some(look_of(&ran, state))
    })
}

/// The looks of the states at the starts of a program's blocks, in the order of its chain.
fn starts_of(alloc: Global, text: &str) -> Option<Vec<u64>> {
    let program = program_of(alloc, text)?;
    let mut starts = Vec::new(alloc);
    for blocks in 0..LIMIT {
        let mut state = opening(alloc)?;
        run_program(&program, &mut state, blocks).ok()?;
        starts.push(look_at(&state)).ok()?;
    }
    Some(starts)
}

/// What a chain answered, and the state that it left. A refusal leaves the state at the start of a block.
fn chained<T: Debug + Drop>(
    answer: Result<T, AllocError>,
    state: &State,
    starts: &[u64],
) -> Option<u64> {
    if answer.is_err() && !starts.contains(&look_at(state)) {
        return Some(FAULT);
    }
    Some(look_of(&answer.ok()?, state))
}

/// Runs a program.
pub(crate) fn runs_program(alloc: Global, text: &str) -> Option<Came> {
    let program = program_of(alloc, text)?;
    let starts = starts_of(alloc, text)?;
    twice((), |_| {
        let mut state = opening(alloc)?;
        let answer = run_program(&program, &mut state, LIMIT);
        chained(answer, &state, &starts)
    })
}

/// Runs the packets of a program, which go through its states.
pub(crate) fn runs_chain(alloc: Global, text: &str) -> Option<Came> {
    let starts = starts_of(alloc, text)?;
    twice(packets_in(alloc, text)?, |packets| {
        let mut state = opening(alloc)?;
        if !packets.closed() {
            return None;
        }
        let answer = run_chain(packets, &mut state, LIMIT);
        chained(answer, &state, &starts)
    })
}
