//! How many bytes go to each file.

ghost use Rattle.std.specs.Prelude.{◌≡◌, ◌++◌, IfOk, OnOk};
ghost use Rattle.std.specs.List.{flat_map};
ghost use Rattle.c62_command.specs.CommandLine.{ask_of, ask_told};
ghost use Rattle.c62_dumping.specs.Counts.{count_in, counts_asked, counts_in, settings_asked};

use c62_command::{Command, Request, Setting};
use std::alloc::{AllocError, Global};

/// Adds how many bytes a setting writes to a file, where it does.
fn push_count(counts: &mut Vec<usize>, setting: Setting) -> Result<(), AllocError>
    ensures { OnOk result (counts.new.items ≡ counts.old.items ++ count_in setting) }
{
    match setting {
        Setting::Dump(dump) => Ok(counts.push(dump.count as usize)?),
        Setting::Register(_, _)
        | Setting::Byte(_, _)
        | Setting::Half(_, _)
        | Setting::Word(_, _)
        | Setting::Print(_)
        | Setting::Base(_) => Ok(()),
    }
}

/// How many bytes go to each file that settings ask for, in their order.
fn counts_in(alloc: Global, settings: &[Setting]) -> Result<Vec<usize>, AllocError>
    ensures { IfOk result (λ counts. counts.items ≡ counts_in settings.now) }
{
    let mut counts = Vec::new(alloc);
    for setting in settings {
        push_count(&mut counts, *setting)?;
    }
    Ok(counts)
}

/// The settings of what a request asks for, which has some only as a run.
pub(crate) fn settings_of(request: &Request) -> &[Setting]
    ensures { result.now ≡ settings_asked (ask_of request.now) }
{
    match request {
        Request::Run(_, start) | Request::Serial(start, _) | Request::Sim(_, start) => {
            &start.settings
        }
        Request::Exec(start) => &start.settings,
        Request::RunLoops(_, flight) => &flight.settings,
        Request::Pack(_)
        | Request::Show(_)
        | Request::ShowListing(_)
        | Request::ShowPackets(_)
        | Request::Adopt(_)
        | Request::Check(_)
        | Request::CheckLoops(_)
        | Request::PackLoops(_)
        | Request::ShowLoops(_, _) => &[],
    }
}

/// How many bytes go to each file of a run that is asked for, in the order of its settings. What is no run has none.
///
/// # Errors
///
/// `AllocError` where memory ran out.
#[tactic(auto, using(crate::proofs::Counted::counts_told))]
pub fn counts_asked(alloc: Global, command: &Command) -> Result<Vec<usize>, AllocError>
    ensures { IfOk result (λ counts. counts.items ≡ counts_asked (ask_told command.now)) }
{
    counts_in(alloc, settings_of(&command.request))
}
