//! What is said of a run that ended by its limit, where something of it is printed or goes to a file (docs/COMMANDS.md, "Files").

ghost use Rattle.std.specs.Prelude.{◌≡◌, ◌++◌, IfOk, OnOk, option_map};
ghost use Rattle.std.specs.List.{list_any};
ghost use Rattle.c62_command.specs.CommandLine.{ask_of, ask_told};
ghost use Rattle.c62_dumping.specs.Limit.{contains, ends_by_limit, is_kept, limit_line, limit_note, limit_of, limit_said, line_of, of_that_moment, was_ended};

use crate::counts::settings_of;
use c62_command::{Command, Request, Setting};
use itoa::Buffer;
use std::alloc::{AllocError, Global};

/// Whether a setting prints memory, or writes it to a file.
fn is_kept(setting: Setting) -> bool
    ensures { result ≡ is_kept setting }
{
    match setting {
        Setting::Print(_) | Setting::Dump(_) => true,
        Setting::Register(_, _)
        | Setting::Byte(_, _)
        | Setting::Half(_, _)
        | Setting::Word(_, _)
        | Setting::Base(_) => false,
    }
}

/// Whether one of the settings does.
fn keeps(settings: &[Setting]) -> bool
    ensures { result ≡ list_any is_kept settings.now }
{
    settings.iter().any(|setting| is_kept(*setting))
}

/// How far a run that is asked for goes, and in what that is counted. None where no run is asked for.
fn limit_of(request: &Request) -> Option<(u32, &'static str)>
    ensures { option_map (λ limit. (limit.0, limit.1.now)) result ≡ limit_of (ask_of request.now) }
{
    match request {
        Request::Run(_, start) | Request::Serial(start, _) | Request::Sim(_, start) => {
            Some((start.course.blocks, "blocks"))
        }
        Request::Exec(start) => Some((start.course.cycles, "cycles")),
        Request::RunLoops(_, flight) => Some((flight.course.cycles, "cycles")),
        Request::Pack(_)
        | Request::Show(_)
        | Request::ShowListing(_)
        | Request::ShowPackets(_)
        | Request::Adopt(_)
        | Request::Check(_)
        | Request::CheckLoops(_)
        | Request::PackLoops(_)
        | Request::ShowLoops(_, _) => None,
    }
}

/// Adds that a run was ended.
#[tactic(auto, unfolding(crate::specs::Limit::was_ended))]
fn push_ended(out: &mut Vec<u8>) -> Result<(), AllocError>
    ensures { OnOk result (out.new.items ≡ out.old.items ++ was_ended) }
{
    out.extend_from_slice(b"run ended by its limit of ")
}

/// Adds of which moment is what is written.
#[tactic(auto, unfolding(crate::specs::Limit::of_that_moment))]
fn push_moment(out: &mut Vec<u8>) -> Result<(), AllocError>
    ensures { OnOk result (out.new.items ≡ out.old.items ++ of_that_moment) }
{
    out.extend_from_slice(b"): what is written is of that moment\n")
}

/// Adds what is said of a run that ended by this limit.
#[tactic(auto, unfolding(crate::specs::Limit::line_of))]
fn push_line(out: &mut Vec<u8>, limit: u32, unit: &str) -> Result<(), AllocError>
    ensures { OnOk result (out.new.items ≡ out.old.items ++ line_of limit unit.now) }
{
    let mut buffer = Buffer::new();
    push_ended(out)?;
    out.extend_from_slice(buffer.format(limit).as_bytes())?;
    out.extend_from_slice(b" ")?;
    out.extend_from_slice(unit.as_bytes())?;
    out.extend_from_slice(b" (--")?;
    out.extend_from_slice(unit.as_bytes())?;
    push_moment(out)
}

/// What is said of what a request asks for, if that ends by its limit.
fn note_of(alloc: Global, request: &Request) -> Result<Vec<u8>, AllocError>
    ensures { IfOk result (λ note. note.items ≡ limit_line (limit_of (ask_of request.now))) }
{
    let mut note = Vec::new(alloc);
    if let Some((limit, unit)) = limit_of(request) {
        push_line(&mut note, limit, unit)?;
    }
    Ok(note)
}

/// What is said of a run that is asked for, if it ends by its limit: a line where its answer goes to a file, or memory is printed or goes
/// to one. Nothing where neither is so, or no run is asked for.
///
/// # Errors
///
/// `AllocError` where memory ran out.
#[tactic(auto, using(crate::proofs::Limited::limit_told))]
pub fn limit_note(alloc: Global, to_file: bool, command: &Command) -> Result<Vec<u8>, AllocError>
    ensures { IfOk result (λ note. note.items ≡ limit_note to_file (ask_told command.now)) }
{
    if to_file || keeps(settings_of(&command.request)) {
        note_of(alloc, &command.request)
    } else {
        Ok(Vec::new(alloc))
    }
}

/// Whether these bytes are somewhere in a text.
fn contains(text: &[u8], bytes: &[u8]) -> bool
    ensures { result ≡ contains bytes.now text.now }
{
    let mut rest = text;
    loop {
        if rest.starts_with(bytes) {
            return true;
        }
        match rest {
            [] => return false,
            [_, behind @ ..] => rest = behind,
        }
    }
}

/// Whether a report, or its document, says that the run ended by its limit.
fn ends_by_limit(report: &[u8]) -> bool
    ensures { result ≡ ends_by_limit report.now }
{
    contains(report, b"\nexit limit\n") || contains(report, b"\"exit\":{\"by\":\"limit\"}")
}

/// What is said behind a report: the note, if the run ended by its limit.
pub fn limit_said<'a>(note: &'a [u8], report: &[u8]) -> &'a [u8]
    ensures { result.now ≡ limit_said note.entry.now report.now }
{
    if ends_by_limit(report) { note } else { &[] }
}
