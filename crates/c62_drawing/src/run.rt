//! Runs that are asked for by words, of which a trace or a waveform is written.

ghost use Rattle.std.specs.Prelude.{◌≡◌, IfOk, IsOkAnd, option_map};
ghost use Rattle.c62_drawing.specs.Traced.{DrawsFlying, DrawsRequest, DrawsStanding, of_whole};

use crate::draw::{Drawn, draw_flight, draw_packets};
use crate::read::{flight_in, packets_in};
use c62_command::{FlightStart, Form, Request, Start};
use c62_op::InstructionSet;
use c62_trace::{Refused, Window};
use std::alloc::{AllocError, Global};
use std::io::Write;

/// What a stream got of a run.
#[derive(Clone, Copy, Debug)]
pub enum Traced {
    /// Nothing was to be written: the text is refused, or no packets are run.
    Nothing,
    /// All of it.
    Whole,
    /// A front of it, as it refused what follows.
    Cut(Refused),
}

/// All was taken, or a front.
fn of_whole(whole: Result<(), Refused>) -> Traced
    ensures { result ≡ of_whole whole }
{
    match whole {
        Ok(()) => Traced::Whole,
        Err(refused) => Traced::Cut(refused),
    }
}

/// The same where memory may have run out.
fn of_taken(whole: Result<Result<(), Refused>, AllocError>) -> Result<Traced, AllocError>
    ensures { IfOk result (λ traced. IsOkAnd whole (λ whole. traced ≡ of_whole whole)) }
{
    Ok(of_whole(whole?))
}

/// Draws the run of packets of this form, as they stand.
#[tactic(auto, using(crate::proofs::Tracing::standing_some, crate::proofs::Tracing::standing_none))]
fn draw_standing<W: Write + Drop>(
    isa: InstructionSet,
    alloc: Global,
    drawn: Drawn,
    form: Form,
    start: &Start,
    window: Window,
    room: usize,
    text: &[u8],
    stream: W,
) -> (W, Result<Traced, AllocError>)
    ensures { IfOk result.1 (λ traced. DrawsStanding isa drawn window form start.now.course start.now.settings.items text.now traced
        (W.contents stream) (W.contents result.0)) }
{
    match packets_in(isa, alloc, form, text) {
        Err(error) => (stream, Err(error)),
        Ok(None) => (stream, Ok(Traced::Nothing)),
        Ok(Some(packets)) => {
            let (stream, whole) = draw_packets(alloc, drawn, &packets, start, window, room, stream);
            (stream, of_taken(whole))
        }
    }
}

/// Draws the run of a text of packets in flight.
#[tactic(auto, using(crate::proofs::Tracing::flying_some, crate::proofs::Tracing::flying_none, crate::proofs::Tracing::issuable))]
fn draw_flying<W: Write + Drop>(
    isa: InstructionSet,
    alloc: Global,
    drawn: Drawn,
    start: &FlightStart,
    window: Window,
    room: usize,
    text: &[u8],
    stream: W,
) -> (W, Result<Traced, AllocError>)
    ensures { IfOk result.1 (λ traced. DrawsFlying isa drawn window start.now.alone (option_map (λ name. name.items) start.now.from)
        start.now.course start.now.settings.items text.now traced (W.contents stream) (W.contents result.0)) }
{
    match flight_in(isa, alloc, start, text) {
        Err(error) => (stream, Err(error)),
        Ok(None) => (stream, Ok(Traced::Nothing)),
        Ok(Some(begun)) => {
            let (stream, whole) = draw_flight(alloc, drawn, &begun, start, window, room, stream);
            (stream, of_taken(whole))
        }
    }
}

/// Runs the packets of a text as they are asked for, and writes what a window shows of the run to a stream, as it goes: a line an event
/// (docs/TRACE.md), or a value change dump (docs/WAVE.md). So many bytes are kept before they are sent; with 0 those of each cycle are
/// sent when it ends.
///
/// The run is that of which the report tells. Nothing is written where the text is refused, or where what is asked for isn't a run of
/// packets as they stand or in flight.
///
/// Gives back the stream, and what it got.
///
/// # Errors
///
/// `AllocError` where memory ran out. The stream may have got a front then.
pub fn draw_text<W: Write + Drop>(
    isa: InstructionSet,
    alloc: Global,
    drawn: Drawn,
    request: &Request,
    window: Window,
    room: usize,
    text: &[u8],
    stream: W,
) -> (W, Result<Traced, AllocError>)
    ensures { IfOk result.1 (λ traced. DrawsRequest isa drawn window request.now text.now traced (W.contents stream) (W.contents result.0)) }
{
    match request {
        Request::Sim(form, start) => draw_standing(
            isa, alloc, drawn, *form, start, window, room, text, stream,
        ),
        Request::Exec(start) => draw_flying(isa, alloc, drawn, start, window, room, text, stream),
        _ => (stream, Ok(Traced::Nothing)),
    }
}
