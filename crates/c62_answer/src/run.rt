//! Runs of programs and of packets, and their reports.

ghost use Rattle.std.specs.Prelude.{◌≡◌, true, false, IfOk, IsTrue};
ghost use Rattle.c62_packet.specs.Packets.{is_closed};
ghost use Rattle.c62_answer.specs.Run.{IsOpening, IsReport, IsPacketReport, TellsPackets, TellsSerial, is_limit, with_setting, with_settings};
ghost use Rattle.c62_pipe.specs.Chain.{RunsPackets};
ghost use Rattle.c62_serial.specs.Chain.{RunsProgram};

use crate::outcome::{Outcome, Reply};
use c62_command::{Course, Setting, Start};
use c62_packet::Packets;
use c62_pipe::run_chain;
use c62_printing::{push_dumps, push_prints};
use c62_profile::{packet_table, run_packets, run_serial, serial_table};
use c62_read::Program;
use c62_report::{packet_report, serial_report};
use c62_serial::{Chain, End, State, run_program};
use std::alloc::{AllocError, Global};

/// Sets what a setting says.
fn set(state: &mut State, setting: Setting)
    ensures { state.new.machine ≡ with_setting state.old.machine setting }
{
    match setting {
        Setting::Register(reg, value) => state.set(reg, value),
        Setting::Byte(place, value) => {
            let _ = state.store_at(place, 1, value);
        }
        Setting::Half(place, value) => {
            let _ = state.store_at(place, 2, value);
        }
        Setting::Word(place, value) => {
            let _ = state.store_at(place, 4, value);
        }
        Setting::Base(base) => state.set_base(base),
        // That sets nothing: it is printed, or goes to a file, when the run is over.
        Setting::Print(_) | Setting::Dump(_) => {}
    }
}

/// Sets what the settings say, in their order.
fn set_all(state: &mut State, settings: &[Setting])
    ensures { state.new.machine ≡ with_settings settings.now state.old.machine }
{
    for setting in settings {
        set(state, *setting);
    }
}

/// Zeros, and then these settings.
///
/// # Errors
///
/// `AllocError` where memory ran out.
pub fn opening(alloc: Global, settings: &[Setting]) -> Result<State, AllocError>
    ensures { IfOk result (λ state. IsOpening settings.now state.machine) }
{
    let mut state = State::new(alloc)?;
    set_all(&mut state, settings);
    // It tells what holds of every state.
    state.faults();
    Ok(state)
}

/// Whether a chain ended by its limit.
pub(crate) fn is_limit(stop: End) -> bool
    ensures { result ≡ is_limit stop }
{
    match stop {
        End::Limit => true,
        End::End | End::Register(_) => false,
    }
}

/// Runs a program serially, without a table.
fn run_plain(
    alloc: Global,
    program: &Program,
    limit: u32,
    state: &mut State,
) -> Result<(Chain, Vec<u8>), AllocError>
    ensures run { IfOk result (λ ran. RunsProgram program.now state.old.machine limit ran.0 state.new.machine) }
    ensures told { IfOk result (λ ran. TellsSerial false program.now state.old.machine limit ran.0 state.new.machine ran.1.items) }
{
    let chain = run_program(program, state, limit)?;
    Ok((chain, Vec::new(alloc)))
}

/// Runs a program serially, and writes the table of its blocks.
fn run_counted(
    alloc: Global,
    program: &Program,
    limit: u32,
    state: &mut State,
) -> Result<(Chain, Vec<u8>), AllocError>
    ensures run { IfOk result (λ ran. RunsProgram program.now state.old.machine limit ran.0 state.new.machine) }
    ensures told { IfOk result (λ ran. TellsSerial true program.now state.old.machine limit ran.0 state.new.machine ran.1.items) }
{
    let (chain, tally) = run_serial(alloc, program, state, limit)?;
    let mut table = Vec::new(alloc);
    serial_table(&mut table, program, &tally)?;
    Ok((chain, table))
}

/// Runs a program serially. Answers its chain, and the table of its blocks where one is asked for.
fn run_told(
    alloc: Global,
    program: &Program,
    course: Course,
    state: &mut State,
) -> Result<(Chain, Vec<u8>), AllocError>
    ensures run { IfOk result (λ ran. RunsProgram program.now state.old.machine course.blocks ran.0 state.new.machine) }
    ensures told { IfOk result (λ ran. TellsSerial course.profile program.now state.old.machine course.blocks ran.0 state.new.machine ran.1.items) }
{
    if course.profile {
        run_counted(alloc, program, course.blocks, state)
    } else {
        run_plain(alloc, program, course.blocks, state)
    }
}

/// The report of the serial run of a program, with the table of its blocks below it where one is asked for.
///
/// # Errors
///
/// Where memory ran out.
pub fn serial_run(alloc: Global, program: &Program, start: &Start) -> Result<Reply, AllocError>
    ensures { IfOk result (λ reply. IsReport program.now start.now.settings.items start.now.course reply.outcome reply.text.items) }
{
    let mut state = opening(alloc, &start.settings)?;
    let (chain, table) = run_told(alloc, program, start.course, &mut state)?;
    let mut text = serial_report(alloc, chain, &state)?;
    push_prints(&mut text, &state, &start.settings)?;
    text.extend_from_slice(&table)?;
    push_dumps(&mut text, &state, &start.settings)?;
    Ok(Reply {
        text,
        outcome: Outcome::of_run(start.course.strict, is_limit(chain.stop), state.faults()),
    })
}

/// Runs packets, without a table.
fn packets_plain(
    alloc: Global,
    packets: &Packets,
    limit: u32,
    state: &mut State,
) -> Result<(Chain, u64, Vec<u8>), AllocError>
    requires { IsTrue (is_closed packets.now) }
    ensures run { IfOk result (λ ran. RunsPackets packets.now state.old.machine limit ran.0 ran.1 state.new.machine) }
    ensures told { IfOk result (λ ran. TellsPackets false packets.now state.old.machine limit ran.0 state.new.machine ran.2.items) }
{
    let (chain, cycles) = run_chain(packets, state, limit)?;
    Ok((chain, cycles, Vec::new(alloc)))
}

/// Runs packets, and writes the table of their blocks.
fn packets_counted(
    alloc: Global,
    packets: &Packets,
    limit: u32,
    state: &mut State,
) -> Result<(Chain, u64, Vec<u8>), AllocError>
    requires { IsTrue (is_closed packets.now) }
    ensures run { IfOk result (λ ran. RunsPackets packets.now state.old.machine limit ran.0 ran.1 state.new.machine) }
    ensures told { IfOk result (λ ran. TellsPackets true packets.now state.old.machine limit ran.0 state.new.machine ran.2.items) }
{
    let (chain, tally) = run_packets(alloc, packets, state, limit)?;
    let mut table = Vec::new(alloc);
    packet_table(&mut table, packets, &tally)?;
    Ok((chain, tally.taken, table))
}

/// Runs packets. Answers their chain and its cycles, and the table of their blocks where one is asked for.
fn packets_told(
    alloc: Global,
    packets: &Packets,
    course: Course,
    state: &mut State,
) -> Result<(Chain, u64, Vec<u8>), AllocError>
    requires { IsTrue (is_closed packets.now) }
    ensures run { IfOk result (λ ran. RunsPackets packets.now state.old.machine course.blocks ran.0 ran.1 state.new.machine) }
    ensures told { IfOk result (λ ran. TellsPackets course.profile packets.now state.old.machine course.blocks ran.0 state.new.machine ran.2.items) }
{
    if course.profile {
        packets_counted(alloc, packets, course.blocks, state)
    } else {
        packets_plain(alloc, packets, course.blocks, state)
    }
}

/// The report of a run of packets, with the table of their blocks below it where one is asked for.
///
/// # Errors
///
/// Where memory ran out.
pub fn packet_run(alloc: Global, packets: &Packets, start: &Start) -> Result<Reply, AllocError>
    requires { IsTrue (is_closed packets.now) }
    ensures { IfOk result (λ reply. IsPacketReport packets.now start.now.settings.items start.now.course reply.outcome reply.text.items) }
{
    let mut state = opening(alloc, &start.settings)?;
    let (chain, cycles, table) = packets_told(alloc, packets, start.course, &mut state)?;
    let mut text = packet_report(alloc, chain, cycles, &state)?;
    push_prints(&mut text, &state, &start.settings)?;
    text.extend_from_slice(&table)?;
    push_dumps(&mut text, &state, &start.settings)?;
    Ok(Reply {
        text,
        outcome: Outcome::of_run(start.course.strict, is_limit(chain.stop), state.faults()),
    })
}
