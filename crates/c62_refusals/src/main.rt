//! The program c62_refusals: makes a call of c62's crates on a text, and again where memory was refused.
//!
//! Its words are the call, the name of the text, and for `worker` and `schedule` the most turns of a worker, for `schedule` also
//! the most ejections. `take` is refused so often as the third word says, and each time leaves so much less of its answer, 7, as
//! the fourth says. It prints a number that stands for the answer; `again` on standard error where that is the answer to the second
//! call; and `changed`, with status 1, where a refused call left something else than before. Status 3 means that memory was refused
//! to what the call is made on, or to both calls, and that all stayed as it was.
#![tactic(auto)]

mod answer;
mod given;
mod opening;
mod packing;
mod placing;
mod reading;
mod running;
mod seen;
mod sharing;
mod taking;
mod telling;
mod texts;
mod twice;
mod working;

use c62_work::Options;
use std::alloc::Global;
use std::env;
use std::process::ExitCode;
use std::rt::Env;
use std::sync::Wait;
use std::thread::Threads;
use telling::tell;
use texts::text_of;
use twice::Came;

/// A call on what no other thread sees.
fn alone(alloc: Global, call: &str, text: &'static str) -> Option<Came> {
    match call {
        "read_program" => reading::reads_program(alloc, text),
        "read_listing" => reading::reads_listing(alloc, text),
        "list" => reading::lists(alloc, text),
        "Plan::new" => reading::plans(alloc, text),
        "Plan::copy" => reading::copies(alloc, text),
        "check" => reading::checks(alloc, text),
        "Board::new" => placing::begins(alloc, text),
        "ahead" => placing::looks_ahead(alloc, text),
        "room" => placing::makes_room(alloc, text),
        "place" => placing::places(alloc, text),
        "commit" => placing::commits(alloc, text),
        "withdraw" => placing::withdraws(alloc, text),
        "step" => placing::steps(alloc, text),
        "replay" => placing::replays(alloc, text),
        "turns" => placing::turns_taken(alloc, text),
        "finish" => placing::finishes(alloc, text),
        "packets_of" => packing::packs(alloc, text),
        "packets_at" => packing::packs_at(alloc, text),
        "push" => packing::pushes(alloc, text),
        "State::new" => running::begins(alloc),
        "State::room" => running::makes_room(alloc),
        "run_block" => running::runs_block(alloc, text),
        "run_program" => running::runs_program(alloc, text),
        "Pipe::run" => running::runs_packets(alloc, text),
        "run_chain" => running::runs_chain(alloc, text),
        _ => None,
    }
}

/// What comes of a call. `None` where memory was refused before, and where there is no such call.
fn made<R: AllocGlobal + Threads + Wait + Sync>(
    rt: &R,
    call: &str,
    text: &'static str,
    options: Options,
) -> Option<Came> {
    match call {
        "desk_of" => sharing::opens(rt, rt.alloc(), text),
        "Desk::step" => sharing::steps(rt, rt.alloc(), text),
        "Desk::commit" => sharing::commits(rt, rt.alloc(), text),
        "worker" => working::works(rt, rt.alloc(), text, options.turns),
        "schedule" => working::schedules(rt, rt.alloc(), text, options),
        "take" => Some(taking::takes(options)),
        _ => alone(rt.alloc(), call, text),
    }
}

fn word_at(words: &[String], index: usize) -> &str {
    match words.get(index) {
        Some(word) => word.as_str(),
        None => "",
    }
}

/// What comes of the call that the words ask for.
fn asked<R: Env + AllocGlobal + Threads + Wait + Sync>(rt: &R) -> Option<Came> {
    let words: Vec<String> = env::args(rt).ok()?.skip(1).collect(rt.alloc()).ok()?;
    let options = Options {
        turns: word_at(&words, 2).parse().unwrap_or(100_000),
        budget: word_at(&words, 3).parse().unwrap_or(given::BUDGET),
    };
    made(
        rt,
        word_at(&words, 0),
        text_of(word_at(&words, 1))?,
        options,
    )
}

fn main(rt: HostRuntime) -> ExitCode {
    let came = asked(&rt);
    let told = tell(&mut rt.stdout(), &mut rt.stderr(), came);
    ExitCode::from(told.unwrap_or(4))
}
