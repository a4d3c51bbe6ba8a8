//! A block of packets whose events are told.

ghost use Rattle.std.specs.Prelude.{◌≡◌, ◌<◌, ◌≤◌, ◌^◌, IfOk, OnOk, List};
ghost use Rattle.c62_packet.specs.declared.limits.TheConstants.{MOST_CYCLES};
ghost use Rattle.c62_serial.specs.Serial.{exit_after};
ghost use Rattle.c62_trace.specs.Event.{Entry};
ghost use Rattle.c62_traced.specs.Chain.{IsBlockLog};

use c62_insn::Target;
use c62_packet::PacketBlock;
use c62_pipe::Pipe;
use c62_serial::{Exit, State};
use c62_trace::Watch;
use std::alloc::AllocError;

/// The exit of a block behind an instruction that goes there, where it is a branch that runs.
fn exit_after(exit: Exit, target: Option<Target>) -> Exit
    ensures { result ≡ exit_after exit target }
{
    match target {
        Some(target) => Exit::from(target),
        None => exit,
    }
}

/// Runs a block of packets as [`Pipe::run`] does, which begins in a cycle of the run, and tells of its events. Answers where it goes on.
pub(crate) fn run_told<T: Watch>(
    block: &PacketBlock,
    first: u64,
    state: &mut State,
    watch: &mut T,
) -> Result<Exit, AllocError>
    requires { first < 2 ^ 62 }
    ensures told { IfOk result (λ exit. (log : List Entry)
        × IsBlockLog block.now first state.old.machine state.new.machine exit log × T.tells watch.old watch.new log) }
    ensures short { OnOk result (block.now.cycles ≤ MOST_CYCLES) }
{
    let all = block.placed();
    let length = u64::from(block.length());
    state.room(all.len())?;
    // It tells what holds of every state.
    let _ = state.faults();
    let mut pipe = Pipe::new();
    let mut cycle = 0;
    let mut exit = Exit::Next;
    for placed in all {
        let start = u64::from(placed.cycle);
        while cycle < start {
            watch.landings(first + cycle, pipe.due(cycle))?;
            pipe.end_cycle(cycle, state);
            cycle += 1;
        }
        watch.insn(first + cycle, placed, state)?;
        exit = exit_after(exit, pipe.issue(cycle, placed, state));
    }
    while cycle < length {
        watch.landings(first + cycle, pipe.due(cycle))?;
        pipe.end_cycle(cycle, state);
        cycle += 1;
    }
    Ok(exit)
}
