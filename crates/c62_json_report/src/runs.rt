//! The documents of runs (docs/JSON.md, "Runs").

ghost use Rattle.std.specs.Prelude.{◌≡◌, IfOk, codes, length};
ghost use Rattle.std.specs.Option.{option_copied};
ghost use Rattle.c62_json.specs.Document.{Adds, document};
ghost use Rattle.c62_json_report.specs.Exit.{exit, stop};
ghost use Rattle.c62_json_report.specs.Profile.{asked, flight_rows, packet_rows, serial_rows};
ghost use Rattle.c62_json_report.specs.Runs.{FewCycles, OneEach, ended, flight_members, left_by, packet_members, profile, serial_members};

use crate::brackets::push_number;
use crate::exit::{push_exit, push_stop};
use crate::flights::push_flight_rows;
use crate::machine::push_machine;
use crate::prints::push_prints;
use crate::profile::{push_packet_rows, push_serial_rows};
use c62_command::Setting;
use c62_exec::Count;
use c62_flight::Stop;
use c62_json::{begin, end, push_missing, push_name};
use c62_packet::Packets;
use c62_profile::Tally;
use c62_read::Program;
use c62_rows::Key;
use c62_serial::{Chain, End, State};
use indexmap::IndexMap;
use json::Writer;
use std::alloc::{AllocError, Global};

/// What a run left, and the settings that say what of it is printed.
#[derive(Clone, Copy)]
pub struct Left<'a> {
    pub state: &'a State,
    pub settings: &'a [Setting],
}

/// A run of packets.
#[derive(Clone, Copy)]
pub struct PacketRun<'a> {
    pub packets: &'a Packets,
    pub chain: Chain,
    pub cycles: u64,
}

/// A run of a text of packets with everything in flight.
#[derive(Clone, Copy)]
pub struct FlightRun<'a> {
    /// The labels of the text with their rows, in its order.
    pub labels: &'a IndexMap<Key, u32>,
    pub stop: Stop,
    pub cycles: u64,
}

/// How a chain of blocks ended.
fn push_ended(out: &mut Writer, stop: End) -> Result<(), AllocError>
    ensures { Adds result out.old out.new (ended (exit stop)) }
{
    push_name(out, "exit")?;
    push_exit(out, stop)
}

/// How a run in flight stopped.
fn push_stopped(alloc: Global, out: &mut Writer, stopped: Stop) -> Result<(), AllocError>
    ensures { Adds result out.old out.new (ended (stop stopped)) }
{
    push_name(out, "exit")?;
    push_stop(alloc, out, stopped)
}

/// What the machine holds, and what of it is printed.
#[tactic(auto, unfolding(crate::specs::Runs::left_by))]
fn push_left(alloc: Global, out: &mut Writer, left: &Left<'_>) -> Result<(), AllocError>
    ensures { Adds result out.old out.new (left_by left.now.state.now.machine left.now.settings.now) }
{
    push_machine(alloc, out, left.state)?;
    push_name(out, "prints")?;
    push_prints(out, left.state, left.settings)
}

/// What was counted of the blocks of a program, where a profile is asked for.
fn push_serial_table(
    alloc: Global,
    out: &mut Writer,
    program: &Program,
    tally: Option<&Tally>,
) -> Result<(), AllocError>
    requires { OneEach (length program.now) (option_copied tally) }
    ensures { Adds result out.old out.new (asked (serial_rows program.now) (option_copied tally.entry)) }
{
    match tally {
        Some(tally) => push_serial_rows(alloc, out, program, tally),
        None => push_missing(out),
    }
}

/// The same, with its name.
fn push_serial_profile(
    alloc: Global,
    out: &mut Writer,
    program: &Program,
    tally: Option<&Tally>,
) -> Result<(), AllocError>
    requires { OneEach (length program.now) (option_copied tally) }
    ensures { Adds result out.old out.new (profile (asked (serial_rows program.now) (option_copied tally.entry))) }
{
    push_name(out, "profile")?;
    push_serial_table(alloc, out, program, tally)
}

/// The members of the document of a serial run.
fn push_serial(
    alloc: Global,
    out: &mut Writer,
    program: &Program,
    chain: Chain,
    left: &Left<'_>,
    tally: Option<&Tally>,
) -> Result<(), AllocError>
    requires { OneEach (length program.now) (option_copied tally) }
    ensures { Adds result out.old out.new
        (serial_members program.now chain left.now.state.now.machine left.now.settings.now (option_copied tally.entry)) }
{
    push_number(out, "blocks", u64::from(chain.blocks))?;
    push_ended(out, chain.stop)?;
    push_left(alloc, out, left)?;
    push_serial_profile(alloc, out, program, tally)?;
    Ok(())
}

/// The document of a serial run (docs/JSON.md, "Runs"). There is a tally where a profile is asked for.
///
/// # Errors
///
/// `AllocError` where memory ran out.
pub fn serial_document(
    alloc: Global,
    program: &Program,
    chain: Chain,
    left: &Left<'_>,
    tally: Option<&Tally>,
) -> Result<Vec<u8>, AllocError>
    requires { OneEach (length program.now) (option_copied tally) }
    ensures { IfOk result (λ text. text.items ≡ document (codes "serial")
        (serial_members program.now chain left.now.state.now.machine left.now.settings.now (option_copied tally.entry))) }
{
    let mut out = begin(alloc, "serial")?;
    push_serial(alloc, &mut out, program, chain, left, tally)?;
    end(out)
}

/// What was counted of blocks of packets, where a profile is asked for.
fn push_packet_table(
    alloc: Global,
    out: &mut Writer,
    packets: &Packets,
    tally: Option<&Tally>,
) -> Result<(), AllocError>
    requires { OneEach (length packets.now) (option_copied tally) }
    ensures { Adds result out.old out.new (asked (packet_rows packets.now) (option_copied tally.entry)) }
{
    match tally {
        Some(tally) => push_packet_rows(alloc, out, packets, tally),
        None => push_missing(out),
    }
}

/// The same, with its name.
fn push_packet_profile(
    alloc: Global,
    out: &mut Writer,
    packets: &Packets,
    tally: Option<&Tally>,
) -> Result<(), AllocError>
    requires { OneEach (length packets.now) (option_copied tally) }
    ensures { Adds result out.old out.new (profile (asked (packet_rows packets.now) (option_copied tally.entry))) }
{
    push_name(out, "profile")?;
    push_packet_table(alloc, out, packets, tally)
}

/// The members of the document of a run of packets.
fn push_packets(
    alloc: Global,
    out: &mut Writer,
    run: &PacketRun<'_>,
    left: &Left<'_>,
    tally: Option<&Tally>,
) -> Result<(), AllocError>
    requires { OneEach (length run.now.packets.now) (option_copied tally) }
    ensures { Adds result out.old out.new
        (packet_members run.now.packets.now run.now.chain run.now.cycles left.now.state.now.machine left.now.settings.now (option_copied tally.entry)) }
{
    push_number(out, "blocks", u64::from(run.chain.blocks))?;
    push_number(out, "cycles", run.cycles)?;
    push_ended(out, run.chain.stop)?;
    push_left(alloc, out, left)?;
    push_packet_profile(alloc, out, run.packets, tally)?;
    Ok(())
}

/// The document of a command that runs packets (docs/JSON.md, "Runs"). There is a tally where a profile is asked for.
///
/// # Errors
///
/// `AllocError` where memory ran out.
pub fn packet_document(
    alloc: Global,
    command: &str,
    run: &PacketRun<'_>,
    left: &Left<'_>,
    tally: Option<&Tally>,
) -> Result<Vec<u8>, AllocError>
    requires { OneEach (length run.now.packets.now) (option_copied tally) }
    ensures { IfOk result (λ text. text.items ≡ document command.now
        (packet_members run.now.packets.now run.now.chain run.now.cycles left.now.state.now.machine left.now.settings.now (option_copied tally.entry))) }
{
    let mut out = begin(alloc, command)?;
    push_packets(alloc, &mut out, run, left, tally)?;
    end(out)
}

/// What was counted of the rows of a text, where a profile is asked for.
fn push_flight_table(
    alloc: Global,
    out: &mut Writer,
    run: &FlightRun<'_>,
    counts: Option<&[Count]>,
) -> Result<(), AllocError>
    requires { FewCycles (option_copied counts) }
    ensures { Adds result out.old out.new (asked (flight_rows run.now.labels.now.entries run.now.cycles) (option_copied counts.entry)) }
{
    match counts {
        Some(counts) => push_flight_rows(alloc, out, run.labels, counts, run.cycles),
        None => push_missing(out),
    }
}

/// The same, with its name.
fn push_flight_profile(
    alloc: Global,
    out: &mut Writer,
    run: &FlightRun<'_>,
    counts: Option<&[Count]>,
) -> Result<(), AllocError>
    requires { FewCycles (option_copied counts) }
    ensures { Adds result out.old out.new (profile (asked (flight_rows run.now.labels.now.entries run.now.cycles) (option_copied counts.entry))) }
{
    push_name(out, "profile")?;
    push_flight_table(alloc, out, run, counts)
}

/// The members of the document of a run in flight.
fn push_flight(
    alloc: Global,
    out: &mut Writer,
    run: &FlightRun<'_>,
    left: &Left<'_>,
    counts: Option<&[Count]>,
) -> Result<(), AllocError>
    requires { FewCycles (option_copied counts) }
    ensures { Adds result out.old out.new
        (flight_members run.now.labels.now.entries run.now.stop run.now.cycles left.now.state.now.machine left.now.settings.now (option_copied counts.entry)) }
{
    push_number(out, "cycles", run.cycles)?;
    push_stopped(alloc, out, run.stop)?;
    push_left(alloc, out, left)?;
    push_flight_profile(alloc, out, run, counts)?;
    Ok(())
}

/// The document of a command that runs a text of packets with everything in flight (docs/JSON.md, "Runs"). Where a profile is asked
/// for, there are counts of each row, and last of those behind all.
///
/// # Errors
///
/// `AllocError` where memory ran out.
pub fn flight_document(
    alloc: Global,
    command: &str,
    run: &FlightRun<'_>,
    left: &Left<'_>,
    counts: Option<&[Count]>,
) -> Result<Vec<u8>, AllocError>
    requires { FewCycles (option_copied counts) }
    ensures { IfOk result (λ text. text.items ≡ document command.now
        (flight_members run.now.labels.now.entries run.now.stop run.now.cycles left.now.state.now.machine left.now.settings.now (option_copied counts.entry))) }
{
    let mut out = begin(alloc, command)?;
    push_flight(alloc, &mut out, run, left, counts)?;
    end(out)
}
