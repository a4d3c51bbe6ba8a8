//! The setting that a refusal blames.

ghost use Rattle.std.specs.Prelude.{◌≡◌, ◌-◌, IfOk, map, option_map, slice_get};
ghost use Rattle.clap.specs.Words.{subcommand_rows_of};
ghost use Rattle.c62_command.specs.Blamed.{base_given, setting_at, settings_among};
ghost use Rattle.c62_command.specs.CommandLine.{words_of};
ghost use Rattle.c62_command.specs.Settings.{base_among};

use crate::command::matches_of;
use crate::setting::base_among;
use clap::ArgMatches;
use clap::error::ErrorKind;
use std::alloc::{AllocError, Global};
use std::convert::AsStr;

/// The word at this index.
fn word_at<'a>(words: &[&'a str], index: usize) -> Option<&'a str>
    ensures { option_map (λ word. word.now) result ≡ slice_get (map (λ word. word.now) words.entry.now) index }
{
    if index < words.len() {
        Some(words[index])
    } else {
        None
    }
}

/// The setting of this number, from 1, among what clap found for the arguments of a command.
fn setting_of<'a>(found: &ArgMatches<'a>, number: usize) -> Option<&'a str>
    ensures { option_map (λ word. word.now) result ≡ slice_get (words_of found.entry.now) (number - 1) }
{
    match found.get_strs("settings") {
        Some(words) => word_at(words, number.saturating_sub(1)),
        None => None,
    }
}

/// The setting of this number, from 1, of the subcommand.
fn setting_in<'a>(matches: &ArgMatches<'a>, number: usize) -> Option<&'a str>
    ensures { option_map (λ word. word.now) result ≡ slice_get (settings_among (subcommand_rows_of matches.entry.now)) (number - 1) }
{
    match matches.subcommand() {
        Some((_, found)) => setting_of(found, number),
        None => None,
    }
}

/// Where memory begins by what clap found for the arguments of a command.
fn base_of(found: &ArgMatches<'_>) -> u32
    ensures { result ≡ base_among (words_of found.now) }
{
    match found.get_strs("settings") {
        Some(words) => base_among(words),
        None => 0,
    }
}

/// Where memory begins by the settings of the subcommand.
fn base_in(matches: &ArgMatches<'_>) -> u32
    ensures { result ≡ base_among (settings_among (subcommand_rows_of matches.now)) }
{
    match matches.subcommand() {
        Some((_, found)) => base_of(found),
        None => 0,
    }
}

/// Where memory begins by the settings among the words after the program's name. None where clap doesn't take the words.
///
/// # Errors
///
/// `AllocError` where memory ran out.
pub fn base_given<'a, S: AsStr>(alloc: Global, words: &'a [S]) -> Result<Option<u32>, AllocError>
    ensures { IfOk result (λ base. base ≡ base_given (map S.text words.entry.now)) }
{
    match matches_of(alloc, words) {
        Ok(matches) => Ok(Some(base_in(&matches))),
        Err(error) if error.kind() == ErrorKind::OutOfMemory => Err(AllocError),
        Err(_) => Ok(None),
    }
}

/// The word that [`CommandError::Setting`](crate::CommandError::Setting) blames by this number, from 1, among the words after the
/// program's name. None where there are fewer settings, or clap doesn't take the words.
///
/// # Errors
///
/// `AllocError` where memory ran out.
pub fn setting_at<'a, S: AsStr>(
    alloc: Global,
    words: &'a [S],
    number: usize,
) -> Result<Option<&'a str>, AllocError>
    ensures { IfOk result (λ found. option_map (λ word. word.now) found ≡ setting_at (map S.text words.entry.now) number) }
{
    match matches_of(alloc, words) {
        Ok(matches) => Ok(setting_in(&matches, number)),
        Err(error) if error.kind() == ErrorKind::OutOfMemory => Err(AllocError),
        Err(_) => Ok(None),
    }
}
