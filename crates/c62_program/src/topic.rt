//! Says what a fault or a packet rule is.

ghost use Rattle.std.specs.Prelude.{◌≡◌, Some, map, option_map};
ghost use Rattle.c62_program.specs.Teaching.{IsTopicRun, is_option, is_topic, name_asked};

use crate::page::EXPLAIN;
use crate::written::status_behind;
use c62_answer::{write_pieces, write_whole};
use c62_explain::page;
use std::alloc::Global;
use std::convert::AsStr;
use std::io::Write;

/// Whether the words ask what a name means.
pub fn is_topic<S: AsStr>(words: &[S]) -> bool
    ensures { result ≡ is_topic (map S.text words.now) }
{
    match words {
        [] => false,
        [command, ..] => command.as_str() == "explain",
    }
}

/// Whether a word is an option.
fn is_option(word: &[u8]) -> bool
    ensures { result ≡ is_option word.now }
{
    match word {
        [] => false,
        [first, ..] => *first == b'-',
    }
}

/// The name that the words ask for.
fn name_asked<S: AsStr>(words: &[S]) -> Option<&str>
    ensures { option_map (λ name. name.now) result ≡ name_asked (map S.text words.now) }
{
    match words {
        [_, name] => {
            let name = name.as_str();
            if is_option(name.as_bytes()) {
                None
            } else {
                Some(name)
            }
        }
        _ => None,
    }
}

/// Prints what is said of a name, where it is one of a fault or a rule, and answers the status.
#[tactic(auto, using(crate::proofs::Writing::is_written, crate::proofs::Writing::known, crate::proofs::Writing::unknown, crate::proofs::Writing::short))]
fn print_topic<W: Write, E: Write>(alloc: Global, name: &str, output: &mut W, errors: &mut E) -> u8
    ensures { IsTopicRun (Some name.now) (W.contents output.old) (W.contents output.new) (E.contents errors.old) (E.contents errors.new) result }
{
    match page(alloc, name.as_bytes()) {
        Ok(Some(text)) => {
            let written = write_whole(output, &text);
            status_behind(written, 0, errors)
        }
        Ok(None) => {
            let _ = write_pieces(
                errors,
                &[
                    "error: ",
                    name,
                    " is no fault and no rule: docs/FAULTS.md has them\n",
                ],
            );
            2
        }
        Err(_) => {
            let _ = write_whole(errors, b"memory\n");
            3
        }
    }
}

/// Prints what the name behind `explain` means, and answers the status.
#[tactic(auto, using(crate::proofs::Writing::unasked))]
pub fn run_topic<S: AsStr, W: Write, E: Write>(
    alloc: Global,
    words: &[S],
    output: &mut W,
    errors: &mut E,
) -> u8
    ensures { IsTopicRun (name_asked (map S.text words.now)) (W.contents output.old) (W.contents output.new) (E.contents errors.old) (E.contents errors.new) result }
{
    match name_asked(words) {
        Some(name) => print_topic(alloc, name, output, errors),
        None => {
            let _ = write_whole(errors, EXPLAIN.as_bytes());
            2
        }
    }
}
