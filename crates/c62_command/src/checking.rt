//! What the words of a check ask for, and what is promised of loops.

ghost use Rattle.std.specs.Prelude.{◌≡◌, ◌∷◌, map, option_map, Some, IfOk, IfErr, false, codes};
ghost use Rattle.clap.specs.Words.{app_of, rule_of, first_of};
ghost use Rattle.c62_command.specs.CommandLine.{IsLocal, IsLoopsError, apart_rule, ask_of, check_asked, found_rows, loops_rule, pipeline_rule, trips_rule, with_loops, with_pipeline, with_promises};
ghost use Rattle.c62_command.specs.Promises.{IsPromiseErrorIn, IsTripsError, all_trips, apart_of, trips_of, trips_words};

use crate::command::{Request, form_in, is_set};
use crate::promise::{BadPromise, PromiseError, Promises, Trips, apart_in, read_trips};
use c62_op::Reg;
use clap::{Arg, ArgAction, ArgMatches, Command};
use std::alloc::{AllocError, Global};

fn loops_flag<'a>(alloc: Global) -> Arg<'a>
    ensures rule { rule_of result ≡ loops_rule }
    ensures local { result.global ≡ false }
{
    Arg::new(alloc, "loops")
        .long("loops")
        .action(ArgAction::SetTrue)
        .help("Reads packets in flight, and tells whether they do what the text's loops do")
}

fn trips_option<'a>(alloc: Global) -> Arg<'a>
    ensures rule { rule_of result ≡ trips_rule }
    ensures local { result.global ≡ false }
{
    Arg::new(alloc, "trips")
        .long("trips")
        .value_name("L=N")
        .action(ArgAction::Append)
        .help("A promise: the loop of label L is entered with at least N trips")
}

pub(crate) fn apart_option<'a>(alloc: Global) -> Arg<'a>
    ensures rule { rule_of result ≡ apart_rule }
    ensures local { result.global ≡ false }
{
    Arg::new(alloc, "apart")
        .long("apart")
        .value_name("REG,REG,..")
        .help(
            "A promise: accesses from two of these registers never touch one byte in two iterations",
        )
}

/// The command with what may be promised of loops.
fn with_promises<'a>(alloc: Global, command: Command<'a>) -> Result<Command<'a>, AllocError>
    ensures app { IfOk result (λ c. app_of c ≡ with_promises (app_of command.entry)) }
    ensures local { IsLocal command.entry → IfOk result IsLocal }
{
    command.arg(trips_option(alloc))?.arg(apart_option(alloc))
}

/// The command with whether loops are checked, and what may be promised of them.
pub(crate) fn with_loops<'a>(alloc: Global, command: Command<'a>) -> Result<Command<'a>, AllocError>
    ensures app { IfOk result (λ c. app_of c ≡ with_loops (app_of command.entry)) }
    ensures local { IsLocal command.entry → IfOk result IsLocal }
{
    with_promises(alloc, command.arg(loops_flag(alloc))?)
}

fn pipeline_flag<'a>(alloc: Global) -> Arg<'a>
    ensures rule { rule_of result ≡ pipeline_rule }
    ensures local { result.global ≡ false }
{
    Arg::new(alloc, "pipeline")
        .long("pipeline")
        .action(ArgAction::SetTrue)
        .help("Pipelines the loops of which trips enough are promised")
}

/// The command with whether loops are pipelined, and what may be promised of them.
pub(crate) fn with_pipeline<'a>(
    alloc: Global,
    command: Command<'a>,
) -> Result<Command<'a>, AllocError>
    ensures app { IfOk result (λ c. app_of c ≡ with_pipeline (app_of command.entry)) }
    ensures local { IsLocal command.entry → IfOk result IsLocal }
{
    with_promises(alloc, command.arg(pipeline_flag(alloc))?)
}

/// The trips that are promised, in their order.
fn trips_in(alloc: Global, matches: &ArgMatches<'_>) -> Result<Vec<Trips>, PromiseError>
    ensures ok { IfOk result (λ trips. all_trips (trips_words (found_rows matches.now)) ≡ Some (map trips_of trips.items)) }
    ensures err { IfErr result (IsTripsError (trips_words (found_rows matches.now))) }
{
    match matches.get_strs("trips") {
        Some(texts) => read_trips(alloc, texts),
        None => Ok(Vec::new(alloc)),
    }
}

/// The registers that are promised to be apart, where each is one.
fn regs_in(alloc: Global, matches: &ArgMatches<'_>) -> Result<Option<Vec<Reg>>, AllocError>
    ensures { IfOk result (λ regs. option_map (λ regs. regs.items) regs ≡ apart_of (found_rows matches.now)) }
{
    match matches.get_str("apart") {
        Some(text) => apart_in(alloc, text.as_bytes()),
        None => Ok(Some(Vec::new(alloc))),
    }
}

/// What is promised of loops.
pub(crate) fn promises_in(alloc: Global, matches: &ArgMatches<'_>) -> Result<Promises, PromiseError>
    ensures trips { IfOk result (λ promises. all_trips (trips_words (found_rows matches.now)) ≡ Some (map trips_of promises.trips.items)) }
    ensures apart { IfOk result (λ promises. apart_of (found_rows matches.now) ≡ Some promises.apart.items) }
    ensures err { IfErr result (IsPromiseErrorIn (found_rows matches.now)) }
{
    let trips = trips_in(alloc, matches)?;
    match regs_in(alloc, matches)? {
        Some(apart) => Ok(Promises { trips, apart }),
        None => Err(PromiseError::Bad(BadPromise::Apart)),
    }
}

/// What `check` asks for.
pub(crate) fn check_in(alloc: Global, matches: &ArgMatches<'_>) -> Result<Request, PromiseError>
    ensures ok { IfOk result (λ request. check_asked (found_rows matches.now) ≡ Some (ask_of request)) }
    ensures err { IfErr result (IsLoopsError (found_rows matches.now)) }
{
    if is_set(matches, "loops") {
        Ok(Request::CheckLoops(promises_in(alloc, matches)?))
    } else {
        Ok(Request::Check(form_in(matches)))
    }
}
