//! Runs of packets in flight, as they are asked for.

ghost use Rattle.std.specs.Prelude.{◌≡◌};
ghost use Rattle.c62_command.specs.CommandLine.{flight_course_of, found_rows};

use crate::command::{cycles_in, is_set};
use crate::setting::Setting;
use clap::ArgMatches;

/// How far a run of packets in flight goes, and what is told of it beside its report.
#[derive(Clone, Copy, PartialEq, Eq, Debug)]
pub struct FlightCourse {
    /// How many cycles it has at most.
    pub cycles: u32,
    /// Whether a table tells where its cycles went.
    pub profile: bool,
    /// Whether a run that ends by its limit, or in which an access faults, has a status of its own.
    pub strict: bool,
}

/// Where a run of packets in flight begins, and how it goes.
#[derive(Debug, Drop)]
pub struct FlightStart {
    pub course: FlightCourse,
    /// The label of the row that it begins with, where that isn't the first one.
    pub from: Option<Vec<u8>>,
    /// Whether of the text only what that label reaches is read.
    pub alone: bool,
    pub settings: Vec<Setting>,
}

/// How a run of packets in flight goes, by the options of its subcommand.
pub(crate) fn flight_course_in(matches: &ArgMatches<'_>) -> FlightCourse
    ensures { result ≡ flight_course_of (found_rows matches.now) }
{
    FlightCourse {
        cycles: cycles_in(matches),
        profile: is_set(matches, "profile"),
        strict: is_set(matches, "strict"),
    }
}
