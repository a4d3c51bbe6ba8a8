//! Runs of packets that write their trace, or their waveform.

ghost use Rattle.std.specs.Prelude.{◌≡◌, ◌+◌, IfOk, IsOkAnd, IsTrue, Ok};
ghost use Rattle.c62_packet.specs.Packets.{is_closed};
ghost use Rattle.c62_flight.specs.Text.{IsIssuable};
ghost use Rattle.c62_rows.specs.Rows.{text_of};
ghost use Rattle.c62_answer.specs.Run.{IsOpening};
ghost use Rattle.c62_drawing.specs.Traced.{DrawsFlight, DrawsPackets};
ghost use Rattle.c62_drawing.specs.declared.draw.Drawn.TheVariants as drawing;

use c62_answer::opening;
use c62_command::{FlightStart, Setting, Start};
use c62_exec::Flown;
use c62_line::Label;
use c62_packet::Packets;
use c62_rows::Begun;
use c62_serial::State;
use c62_trace::{Lines, Refused, View, Window};
use c62_traced::{fly_traced, names_of_packets, names_of_rows, run_chain_traced};
use c62_wave::Wave;
use std::alloc::{AllocError, Global};
use std::io::Write;

/// What is written of a run.
#[derive(Clone, Copy, PartialEq, Eq, Debug)]
pub enum Drawn {
    /// A line an event.
    Trace,
    /// A value change dump.
    Wave,
}

/// In how many cycles behind the last of a flight all lands.
const LANDING_CYCLES: u64 = 4;

/// The machine with which a run begins, and what branches go to.
fn opened(
    alloc: Global,
    settings: &[Setting],
    names: Result<Vec<Option<Label>>, AllocError>,
) -> Result<(State, Vec<Option<Label>>), AllocError>
    ensures { IfOk result (λ opened. IsOpening settings.now opened.0.machine × (Ok opened.1 ≡ names)) }
{
    let state = opening(alloc, settings)?;
    Ok((state, names?))
}

/// The cycle behind the last in which something of a flight lands.
fn last_cycle(flown: Result<Flown, AllocError>) -> Result<u64, AllocError>
    ensures { IfOk result (λ cycles. IsOkAnd flown (λ flown. cycles ≡ flown.cycles + 4)) }
{
    // No run has as many cycles as there are numbers.
    flown?.cycles.checked_add(LANDING_CYCLES).ok_or(AllocError)
}

/// Runs packets as they stand, and writes the trace of the run. Answers whether the stream took all.
fn trace_packets<W: Write + Drop>(
    alloc: Global,
    packets: &Packets,
    start: &Start,
    window: Window,
    room: usize,
    stream: W,
) -> (W, Result<Result<(), Refused>, AllocError>)
    requires { IsTrue (is_closed packets.now) }
    ensures { IfOk result.1 (λ whole. DrawsPackets drawing.Trace window packets.now start.now.course start.now.settings.items whole
        (W.contents stream) (W.contents result.0)) }
{
    let (mut state, names) = match opened(
        alloc,
        &start.settings,
        names_of_packets(alloc, packets),
    ) {
        Ok(opened) => opened,
        Err(error) => return (stream, Err(error)),
    };
    let view = View {
        window,
        names,
        base: state.base(),
    };
    let mut lines = Lines::new(alloc, view, room, stream);
    let ran = run_chain_traced(packets, start.course.blocks, &mut state, &mut lines);
    let (stream, whole) = lines.end();
    match ran {
        Ok(_) => (stream, Ok(whole)),
        Err(error) => (stream, Err(error)),
    }
}

/// Runs a text of packets in flight, and writes the trace of the run. Answers whether the stream took all.
fn trace_flight<W: Write + Drop>(
    alloc: Global,
    begun: &Begun,
    start: &FlightStart,
    window: Window,
    room: usize,
    stream: W,
) -> (W, Result<Result<(), Refused>, AllocError>)
    requires { IsIssuable (text_of begun.now.rows) }
    ensures { IfOk result.1 (λ whole. DrawsFlight drawing.Trace window (text_of begun.now.rows) begun.now.labels.entries begun.now.first
        start.now.course start.now.settings.items whole (W.contents stream) (W.contents result.0)) }
{
    let names = names_of_rows(alloc, &begun.rows, &begun.labels);
    let (mut state, names) = match opened(alloc, &start.settings, names) {
        Ok(opened) => opened,
        Err(error) => return (stream, Err(error)),
    };
    let view = View {
        window,
        names,
        base: state.base(),
    };
    let mut lines = Lines::new(alloc, view, room, stream);
    let flown = fly_traced(
        &begun.rows,
        begun.first,
        start.course.cycles,
        &mut state,
        &mut lines,
    );
    let (stream, whole) = lines.end();
    match flown {
        Ok(_) => (stream, Ok(whole)),
        Err(error) => (stream, Err(error)),
    }
}

/// Runs packets as they stand, and writes the waveform of the run. Answers whether the stream took all.
fn wave_packets<W: Write + Drop>(
    alloc: Global,
    packets: &Packets,
    start: &Start,
    window: Window,
    room: usize,
    stream: W,
) -> (W, Result<Result<(), Refused>, AllocError>)
    requires { IsTrue (is_closed packets.now) }
    ensures { IfOk result.1 (λ whole. DrawsPackets drawing.Wave window packets.now start.now.course start.now.settings.items whole
        (W.contents stream) (W.contents result.0)) }
{
    let mut state = match opening(alloc, &start.settings) {
        Ok(state) => state,
        Err(error) => return (stream, Err(error)),
    };
    let mut wave = match Wave::new(alloc, window, &state, room, stream) {
        Ok(wave) => wave,
        Err(stream) => return (stream, Err(AllocError)),
    };
    match run_chain_traced(packets, start.course.blocks, &mut state, &mut wave) {
        Ok((_, cycles)) => wave.end(cycles),
        Err(error) => (wave.stream, Err(error)),
    }
}

/// Runs a text of packets in flight, and writes the waveform of the run. Answers whether the stream took all.
fn wave_flight<W: Write + Drop>(
    alloc: Global,
    begun: &Begun,
    start: &FlightStart,
    window: Window,
    room: usize,
    stream: W,
) -> (W, Result<Result<(), Refused>, AllocError>)
    requires { IsIssuable (text_of begun.now.rows) }
    ensures { IfOk result.1 (λ whole. DrawsFlight drawing.Wave window (text_of begun.now.rows) begun.now.labels.entries begun.now.first
        start.now.course start.now.settings.items whole (W.contents stream) (W.contents result.0)) }
{
    let mut state = match opening(alloc, &start.settings) {
        Ok(state) => state,
        Err(error) => return (stream, Err(error)),
    };
    let mut wave = match Wave::new(alloc, window, &state, room, stream) {
        Ok(wave) => wave,
        Err(stream) => return (stream, Err(AllocError)),
    };
    let flown = fly_traced(
        &begun.rows,
        begun.first,
        start.course.cycles,
        &mut state,
        &mut wave,
    );
    match last_cycle(flown) {
        Ok(cycles) => wave.end(cycles),
        Err(error) => (wave.stream, Err(error)),
    }
}

/// Runs packets as they stand, and writes what is drawn of the run. Answers whether the stream took all.
///
/// # Errors
///
/// `AllocError` where memory ran out.
pub(crate) fn draw_packets<W: Write + Drop>(
    alloc: Global,
    drawn: Drawn,
    packets: &Packets,
    start: &Start,
    window: Window,
    room: usize,
    stream: W,
) -> (W, Result<Result<(), Refused>, AllocError>)
    requires { IsTrue (is_closed packets.now) }
    ensures { IfOk result.1 (λ whole. DrawsPackets drawn window packets.now start.now.course start.now.settings.items whole
        (W.contents stream) (W.contents result.0)) }
{
    match drawn {
        Drawn::Trace => trace_packets(alloc, packets, start, window, room, stream),
        Drawn::Wave => wave_packets(alloc, packets, start, window, room, stream),
    }
}

/// Runs a text of packets in flight, and writes what is drawn of the run. Answers whether the stream took all.
///
/// # Errors
///
/// `AllocError` where memory ran out.
pub(crate) fn draw_flight<W: Write + Drop>(
    alloc: Global,
    drawn: Drawn,
    begun: &Begun,
    start: &FlightStart,
    window: Window,
    room: usize,
    stream: W,
) -> (W, Result<Result<(), Refused>, AllocError>)
    requires { IsIssuable (text_of begun.now.rows) }
    ensures { IfOk result.1 (λ whole. DrawsFlight drawn window (text_of begun.now.rows) begun.now.labels.entries begun.now.first
        start.now.course start.now.settings.items whole (W.contents stream) (W.contents result.0)) }
{
    match drawn {
        Drawn::Trace => trace_flight(alloc, begun, start, window, room, stream),
        Drawn::Wave => wave_flight(alloc, begun, start, window, room, stream),
    }
}
