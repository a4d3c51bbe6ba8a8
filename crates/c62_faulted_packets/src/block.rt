//! A block of packets that is looked at before each instruction is issued.

ghost use Rattle.std.specs.Prelude.{◌≡◌, IfOk, OnOk};
ghost use Rattle.std.specs.Option.{option_to_list};
ghost use Rattle.c62_serial.specs.Serial.{exit_after};
ghost use Rattle.c62_faulted.specs.Faulted.{with_faults};
ghost use Rattle.c62_faulted_packets.specs.Done.{fault_at, faults_at};
ghost use Rattle.c62_faulted_packets.specs.Chain.{RunsNoted};

use c62_faulted::{Fault, note};
use c62_insn::Target;
use c62_packet::{PacketBlock, Placed};
use c62_pipe::Pipe;
use c62_read::SerialInsn;
use c62_serial::{Exit, State};
use std::alloc::AllocError;

/// Adds the fault of what an instruction of packets does now, if it has one of a new line.
fn note_placed(faults: &mut Vec<Fault>, placed: &Placed, state: &State) -> Result<(), AllocError>
    ensures { OnOk result (faults.new.items ≡ with_faults faults.old.items (option_to_list (fault_at state.now.machine placed.now))) }
{
    let entry = SerialInsn {
        insn: placed.insn,
        line: placed.line,
    };
    note(faults, &entry, state)
}

/// The same of each instruction of a packet.
pub(crate) fn note_packet(
    faults: &mut Vec<Fault>,
    insns: &[Placed],
    state: &State,
) -> Result<(), AllocError>
    ensures { OnOk result (faults.new.items ≡ with_faults faults.old.items (faults_at state.now.machine insns.now)) }
{
    for placed in insns {
        note_placed(faults, placed, state)?;
    }
    Ok(())
}

/// The exit of a block behind an instruction that goes there, where it is a branch that runs.
fn exit_after(exit: Exit, target: Option<Target>) -> Exit
    ensures { result ≡ exit_after exit target }
{
    match target {
        Some(target) => Exit::from(target),
        None => exit,
    }
}

/// Runs a block of packets as [`Pipe::run`] does, and adds the first fault of each line that has one. Answers where it goes on.
pub(crate) fn run_noting(
    block: &PacketBlock,
    state: &mut State,
    faults: &mut Vec<Fault>,
) -> Result<Exit, AllocError>
    ensures { IfOk result (λ exit. RunsNoted block.now state.old.machine state.new.machine exit faults.old.items faults.new.items) }
{
    let all = block.placed();
    let length = u64::from(block.length());
    state.room(all.len())?;
    // It tells what holds of every state.
    let _ = state.faults();
    let mut pipe = Pipe::new();
    let mut cycle = 0;
    let mut exit = Exit::Next;
    for placed in all {
        let start = u64::from(placed.cycle);
        while cycle < start {
            pipe.end_cycle(cycle, state);
            cycle += 1;
        }
        note_placed(faults, placed, state)?;
        exit = exit_after(exit, pipe.issue(cycle, placed, state));
    }
    while cycle < length {
        pipe.end_cycle(cycle, state);
        cycle += 1;
    }
    Ok(exit)
}
