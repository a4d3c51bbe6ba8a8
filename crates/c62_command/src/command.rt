//! What the words of the command line ask for.

ghost use Rattle.std.specs.Prelude.{◌≡◌, IfOk, IfErr, Some, false, map, [], codes, option_map};
ghost use Rattle.std.specs.Str.{bytes_eq};
ghost use Rattle.clap.specs.Words.{first_of, subcommand_of, subcommand_rows_of, fault_of};
ghost use Rattle.c62_command.specs.CommandLine.{form_of, tool_app, is_set, blocks_of, cycles_of, budget_of, packing_of, showing_of, show_asked, found_rows, words_of, named_rows, ask_in, ask_of, ask_told, drawing_of, is_page, exclusion_of, limits_blocks, names_two_ways, what_in, rendering_of, plain_packing, Listing, pipelined_asked, plain_asked, asked, IsBadIn, IsBlame, IsRefusal, IsWordsError, IsSettingError, IsPromiseError, IsRefusalIn, course_of, choices_of, asks_shortest, flight_course_of, report_asked, SerialReport};
ghost use Rattle.c62_command.specs.Promises.{IsPromiseErrorIn, all_trips, apart_of, trips_of, trips_words};
ghost use Rattle.c62_command.specs.Settings.{AreSettings, IsBadAmong, settings_of};

use crate::arguments::tool_command;
use crate::checking::{check_in, promises_in};
use crate::flight::{FlightCourse, FlightStart, flight_course_in};
use crate::promise::{BadPromise, PromiseError, Promises};
use crate::setting::{Setting, SettingError, read_settings};
use c62_op::Reg;
use clap::error::ErrorKind;
use clap::{ArgMatches, Error};
use std::alloc::{AllocError, Global};
use std::convert::AsStr;

/// How many blocks a run has at most, where nothing is said.
const DEFAULT_BLOCKS: u32 = 1000;

/// How many cycles a run of packets in flight has at most, where nothing is said.
const DEFAULT_CYCLES: u32 = 1_000_000;

/// How blocks are packed.
#[derive(Clone, Copy, PartialEq, Eq, Debug)]
pub struct Packing {
    /// By turns of both sides on one thread, and otherwise by a worker for each side on a thread of its own.
    pub turns: bool,
    /// How many ejections there may be in a block.
    pub budget: u16,
    /// Whether the shortest schedule of each block is taken that is found.
    pub shortest: bool,
    /// By how many choices a block's shortest schedule is searched for at most.
    pub choices: u16,
}

/// How blocks are shown.
#[derive(Clone, Copy, PartialEq, Eq, Debug)]
pub struct Showing {
    pub packing: Packing,
    /// Whether it is told why each instruction isn't issued a cycle earlier.
    pub why: bool,
    /// Whether it is told which registers are live, and which are free.
    pub registers: bool,
    /// Whether the head of each block is shown alone.
    pub summary: bool,
    /// Whether it is shown as a page of HTML, with why and the registers.
    pub page: bool,
}

/// How far a run goes, and what is told of it beside its report.
#[derive(Clone, Copy, PartialEq, Eq, Debug)]
pub struct Course {
    /// How many blocks it has at most.
    pub blocks: u32,
    /// Whether a table tells how often each block was run, and what it took.
    pub profile: bool,
    /// Whether a run that ends by its limit, or in which an access faults, has a status of its own.
    pub strict: bool,
}

/// Where a run begins, and how it goes.
#[derive(Debug, Drop)]
pub struct Start {
    pub course: Course,
    pub settings: Vec<Setting>,
}

/// How a text of packets is adopted.
#[derive(Debug, Drop)]
pub struct Adopting {
    /// The label of which what it reaches is adopted, where it isn't the whole text.
    pub from: Option<Vec<u8>>,
    /// Whether the cycles are added that lack.
    pub drain: bool,
}

/// How the packets of a text are written.
#[derive(Clone, Copy, PartialEq, Eq, Debug)]
pub enum Form {
    /// As a listing.
    Listed,
    /// As people and compilers write them for an assembler. They are adopted as they stand.
    Written,
}

/// How the loops of a text are pipelined.
#[derive(Debug, Drop)]
pub struct Looping {
    /// How its blocks are packed.
    pub packing: Packing,
    pub promises: Promises,
    /// Whether it is told what became of each loop.
    pub verbose: bool,
}

/// A run of packets in flight from their first on.
#[derive(Debug, Drop)]
pub struct Flight {
    pub course: FlightCourse,
    pub settings: Vec<Setting>,
}

/// What was asked for.
#[derive(Debug, Drop)]
pub enum Request {
    /// The listing of a serial text.
    Pack(Packing),
    /// The picture of a serial text's blocks.
    Show(Showing),
    /// The picture of a listing's blocks, as they stand.
    ShowListing(Showing),
    /// The picture of the blocks of a text of packets as people and compilers write them, as they stand.
    ShowPackets(Showing),
    /// The report of a run of the packets of a serial text.
    Run(Packing, Start),
    /// The report of the serial run of a serial text, and where accesses from two of these registers touch one byte in two iterations.
    Serial(Start, Vec<Reg>),
    /// The report of a run of packets as they stand in a text of this form.
    Sim(Form, Start),
    /// The report of a run of a text of packets, with everything in flight.
    Exec(FlightStart),
    /// The listing of a text of packets as people and compilers write them.
    Adopt(Adopting),
    /// What each block of packets in a text of this form is, held against a serial text that stands before it.
    Check(Form),
    /// What packets are that pipeline the loops of a serial text, where so much is promised of these.
    CheckLoops(Promises),
    /// The packets of a serial text whose loops are pipelined.
    PackLoops(Looping),
    /// The picture of the loops of such packets, or a page of it.
    ShowLoops(Looping, Drawing),
    /// The report of a run of such packets.
    RunLoops(Looping, Flight),
}

/// How a picture is drawn.
#[derive(Clone, Copy, PartialEq, Eq, Debug)]
pub enum Drawing {
    /// In the columns of a terminal.
    Columns,
    /// As a page of HTML.
    Page,
}

/// How what is asked for is told.
#[derive(Clone, Copy, PartialEq, Eq, Debug)]
pub enum Rendering {
    /// As the text that the pages of the commands tell of.
    Text,
    /// As a JSON document.
    Json,
}

/// What was asked for, and how it is to be told.
#[derive(Debug, Drop)]
pub struct Command {
    pub request: Request,
    pub rendering: Rendering,
}

/// Options of one command that exclude each other.
#[derive(Clone, Copy, PartialEq, Eq, Debug)]
pub enum Exclusion {
    /// A page, and a document or the heads alone.
    Page,
    /// Pipelined loops and a limit of blocks: such a run has a limit of cycles.
    Blocks,
}

/// Why words ask for nothing.
#[derive(Debug, Drop)]
pub enum CommandError {
    /// clap doesn't take the words.
    Words(Error),
    /// The setting with this number, from 1, is none.
    Setting(usize),
    /// This promise says nothing.
    Promise(BadPromise),
    /// Two options exclude each other.
    Excluded(Exclusion),
    /// Memory ran out.
    Memory,
}

impl From<Error> for CommandError {
    ghost from_gives = { λ clap_error error. IsWordsError clap_error error };

    fn from(error: Error) -> CommandError {
        if error.kind() == ErrorKind::OutOfMemory {
            CommandError::Memory
        } else {
            CommandError::Words(error)
        }
    }
}

impl From<SettingError> for CommandError {
    ghost from_gives = { λ setting_error error. IsSettingError setting_error error };

    fn from(error: SettingError) -> CommandError {
        match error {
            SettingError::Memory => CommandError::Memory,
            SettingError::Bad(number) => CommandError::Setting(number),
        }
    }
}

impl From<PromiseError> for CommandError {
    ghost from_gives = { λ promise_error error. IsPromiseError promise_error error };

    fn from(error: PromiseError) -> CommandError {
        match error {
            PromiseError::Memory => CommandError::Memory,
            PromiseError::Bad(bad) => CommandError::Promise(bad),
        }
    }
}

/// What no words ask for: packing by turns, without ejections.
const PLAIN: Packing = Packing {
    turns: true,
    budget: 0,
    shortest: false,
    choices: 0,
};

/// What clap reads of the words.
pub(crate) fn matches_of<'a, S: AsStr>(
    alloc: Global,
    words: &'a [S],
) -> Result<ArgMatches<'a>, Error>
    ensures ok { IfOk result (λ m. subcommand_rows_of m ≡ subcommand_of tool_app (map S.text words.entry.now)) }
    ensures taken { IfOk result (λ _. fault_of tool_app (map S.text words.entry.now) ≡ []) }
    ensures err { IfErr result (IsBlame (map S.text words.entry.now)) }
{
    let command = tool_command(alloc)?;
    command.try_get_matches_from(words)
}

/// Whether a flag was set.
pub(crate) fn is_set(matches: &ArgMatches<'_>, flag: &str) -> bool
    ensures { result ≡ is_set flag.now (found_rows matches.now) }
{
    match matches.get_str(flag) {
        Some(text) => text == "true",
        None => false,
    }
}

/// The limit of blocks.
fn blocks_in(matches: &ArgMatches<'_>) -> u32
    ensures { result ≡ blocks_of (found_rows matches.now) }
{
    match matches.get_str("blocks") {
        Some(text) => text.parse().unwrap_or(DEFAULT_BLOCKS),
        None => DEFAULT_BLOCKS,
    }
}

/// The limit of cycles.
pub(crate) fn cycles_in(matches: &ArgMatches<'_>) -> u32
    ensures { result ≡ cycles_of (found_rows matches.now) }
{
    match matches.get_str("cycles") {
        Some(text) => text.parse().unwrap_or(DEFAULT_CYCLES),
        None => DEFAULT_CYCLES,
    }
}

/// The bytes of a text.
fn bytes_of(alloc: Global, text: &str) -> Result<Vec<u8>, AllocError>
    ensures { IfOk result (λ bytes. bytes.items ≡ text.now) }
{
    let mut bytes = Vec::new(alloc);
    bytes.extend_from_slice(text.as_bytes())?;
    Ok(bytes)
}

/// The label that is named, where one is.
fn from_in(alloc: Global, matches: &ArgMatches<'_>) -> Result<Option<Vec<u8>>, AllocError>
    ensures { IfOk result (λ from. option_map (λ name. name.items) from ≡ first_of (codes "from") (found_rows matches.now)) }
{
    match matches.get_str("from") {
        Some(text) => Ok(Some(bytes_of(alloc, text)?)),
        None => Ok(None),
    }
}

/// How many ejections a block may have.
fn budget_in(matches: &ArgMatches<'_>) -> u16
    ensures { result ≡ budget_of (found_rows matches.now) }
{
    match matches.get_str("eject") {
        Some(text) => text.parse().unwrap_or(0),
        None => 0,
    }
}

/// By how many choices a schedule is searched for.
fn choices_in(matches: &ArgMatches<'_>) -> u16
    ensures { result ≡ choices_of (found_rows matches.now) }
{
    match matches.get_str("search") {
        Some(text) => text.parse().unwrap_or(0),
        None => 0,
    }
}

/// Whether the shortest schedules are asked for. A search asks for them too.
fn asks_shortest(matches: &ArgMatches<'_>) -> bool
    ensures { result ≡ asks_shortest (found_rows matches.now) }
{
    match matches.get_str("search") {
        Some(_) => true,
        None => is_set(matches, "shortest"),
    }
}

fn packing_in(matches: &ArgMatches<'_>) -> Packing
    ensures { result ≡ packing_of (found_rows matches.now) }
{
    Packing {
        turns: is_set(matches, "turns"),
        budget: budget_in(matches),
        shortest: asks_shortest(matches),
        choices: choices_in(matches),
    }
}

/// The settings, in their order.
fn settings_in(alloc: Global, matches: &ArgMatches<'_>) -> Result<Vec<Setting>, SettingError>
    ensures ok { IfOk result (λ settings. AreSettings (words_of matches.now) settings.items) }
    ensures err { IfErr result (IsBadAmong (words_of matches.now)) }
{
    match matches.get_strs("settings") {
        Some(texts) => read_settings(alloc, texts),
        None => Ok(Vec::new(alloc)),
    }
}

/// How a run goes, by the options of its subcommand.
fn course_in(matches: &ArgMatches<'_>) -> Course
    ensures { result ≡ course_of (found_rows matches.now) }
{
    Course {
        blocks: blocks_in(matches),
        profile: is_set(matches, "profile"),
        strict: is_set(matches, "strict"),
    }
}

/// Where a run begins, by the options of its subcommand.
fn start_in(alloc: Global, matches: &ArgMatches<'_>) -> Result<Start, SettingError>
    ensures course { IfOk result (λ start. start.course ≡ course_of (found_rows matches.now)) }
    ensures settings { IfOk result (λ start. AreSettings (words_of matches.now) start.settings.items) }
    ensures err { IfErr result (IsBadAmong (words_of matches.now)) }
{
    Ok(Start {
        course: course_in(matches),
        settings: settings_in(alloc, matches)?,
    })
}

/// Where a run of packets in flight begins, by the options of its subcommand.
fn flight_in(alloc: Global, matches: &ArgMatches<'_>) -> Result<FlightStart, SettingError>
    ensures course { IfOk result (λ start. start.course ≡ flight_course_of (found_rows matches.now)) }
    ensures from { IfOk result (λ start. option_map (λ name. name.items) start.from ≡ first_of (codes "from") (found_rows matches.now)) }
    ensures alone { IfOk result (λ start. start.alone ≡ is_set (codes "alone") (found_rows matches.now)) }
    ensures settings { IfOk result (λ start. AreSettings (words_of matches.now) start.settings.items) }
    ensures err { IfErr result (IsBadAmong (words_of matches.now)) }
{
    Ok(FlightStart {
        course: flight_course_in(matches),
        from: from_in(alloc, matches)?,
        alone: is_set(matches, "alone"),
        settings: settings_in(alloc, matches)?,
    })
}

/// How a text is adopted, by the options of the subcommand.
fn adopting_in(alloc: Global, matches: &ArgMatches<'_>) -> Result<Adopting, AllocError>
    ensures from { IfOk result (λ adopting. option_map (λ name. name.items) adopting.from ≡ first_of (codes "from") (found_rows matches.now)) }
    ensures drain { IfOk result (λ adopting. adopting.drain ≡ is_set (codes "drain") (found_rows matches.now)) }
{
    let from = from_in(alloc, matches)?;
    Ok(Adopting {
        from,
        drain: is_set(matches, "drain"),
    })
}

/// Whether a page is asked for.
fn is_page(matches: &ArgMatches<'_>) -> bool
    ensures { result ≡ is_page (found_rows matches.now) }
{
    is_set(matches, "html")
}

/// How a picture is drawn, by the options of the subcommand.
fn drawing_in(matches: &ArgMatches<'_>) -> Drawing
    ensures { result ≡ drawing_of (found_rows matches.now) }
{
    if is_page(matches) {
        Drawing::Page
    } else {
        Drawing::Columns
    }
}

/// How blocks are shown, by the options of the subcommand.
fn showing_in(matches: &ArgMatches<'_>) -> Showing
    ensures { result ≡ showing_of (found_rows matches.now) }
{
    Showing {
        packing: packing_in(matches),
        why: is_set(matches, "why") || is_page(matches),
        registers: is_set(matches, "registers") || is_page(matches),
        summary: is_set(matches, "summary"),
        page: is_page(matches),
    }
}

/// What `show` asks for.
fn show_in(matches: &ArgMatches<'_>) -> Request
    ensures { ask_of result ≡ show_asked (found_rows matches.now) }
{
    let showing = showing_in(matches);
    if is_set(matches, "listing") {
        Request::ShowListing(showing)
    } else if is_set(matches, "packets") {
        Request::ShowPackets(showing)
    } else {
        Request::Show(showing)
    }
}

/// How the packets are written that a subcommand reads, by its options.
pub(crate) fn form_in(matches: &ArgMatches<'_>) -> Form
    ensures { result ≡ form_of (found_rows matches.now) }
{
    if is_set(matches, "packets") {
        Form::Written
    } else {
        Form::Listed
    }
}

/// What `run`, `sim` and `exec` ask for.
fn report_named(alloc: Global, name: &str, found: &ArgMatches<'_>) -> Result<Request, SettingError>
    ensures ok { IfOk result (λ request. option_map (report_asked name.now (found_rows found.now)) (settings_of (words_of found.now)) ≡ Some (ask_of request)) }
    ensures err { IfErr result (IsBadAmong (words_of found.now)) }
{
    if name == "run" {
        let start = start_in(alloc, found)?;
        return Ok(Request::Run(packing_in(found), start));
    }
    if name == "sim" {
        let start = start_in(alloc, found)?;
        return Ok(Request::Sim(form_in(found), start));
    }
    Ok(Request::Exec(flight_in(alloc, found)?))
}

/// What `serial` asks for, where these registers are promised to be apart.
fn serial_in(
    alloc: Global,
    apart: Vec<Reg>,
    found: &ArgMatches<'_>,
) -> Result<Request, SettingError>
    ensures ok { IfOk result (λ request. option_map (λ settings. SerialReport (course_of (found_rows found.now)) settings apart.items)
        (settings_of (words_of found.now)) ≡ Some (ask_of request)) }
    ensures err { IfErr result (IsBadAmong (words_of found.now)) }
{
    let start = start_in(alloc, found)?;
    Ok(Request::Serial(start, apart))
}

/// What the subcommand of this name, which is neither `check` nor `adopt`, asks for where its loops aren't pipelined.
fn request_named(alloc: Global, name: &str, found: &ArgMatches<'_>) -> Result<Request, CommandError>
    requires check { bytes_eq name.now (codes "check") ≡ false }
    requires adopt { bytes_eq name.now (codes "adopt") ≡ false }
    ensures ok { IfOk result (λ request. plain_asked name.now (found_rows found.now) ≡ Some (ask_of request)) }
    ensures err { IfErr result (IsRefusalIn (named_rows name.now found.now)) }
{
    if name == "pack" {
        return Ok(Request::Pack(packing_in(found)));
    }
    if name == "show" {
        return Ok(show_in(found));
    }
    if name == "serial" {
        let promises = promises_in(alloc, found)?;
        return Ok(serial_in(alloc, promises.apart, found)?);
    }
    Ok(report_named(alloc, name, found)?)
}

/// A run of packets whose loops are pipelined, by the options of its subcommand.
fn loop_flight_in(alloc: Global, matches: &ArgMatches<'_>) -> Result<Flight, SettingError>
    ensures course { IfOk result (λ flight. flight.course ≡ flight_course_of (found_rows matches.now)) }
    ensures settings { IfOk result (λ flight. AreSettings (words_of matches.now) flight.settings.items) }
    ensures err { IfErr result (IsBadAmong (words_of matches.now)) }
{
    Ok(Flight {
        course: flight_course_in(matches),
        settings: settings_in(alloc, matches)?,
    })
}

/// How loops are pipelined, by the options of a subcommand.
fn looping_in(alloc: Global, matches: &ArgMatches<'_>) -> Result<Looping, PromiseError>
    ensures packing { IfOk result (λ looping. looping.packing ≡ packing_of (found_rows matches.now)) }
    ensures verbose { IfOk result (λ looping. looping.verbose ≡ is_set (codes "verbose") (found_rows matches.now)) }
    ensures trips { IfOk result (λ looping. all_trips (trips_words (found_rows matches.now)) ≡ Some (map trips_of looping.promises.trips.items)) }
    ensures apart { IfOk result (λ looping. apart_of (found_rows matches.now) ≡ Some looping.promises.apart.items) }
    ensures err { IfErr result (IsPromiseErrorIn (found_rows matches.now)) }
{
    Ok(Looping {
        packing: packing_in(matches),
        promises: promises_in(alloc, matches)?,
        verbose: is_set(matches, "verbose"),
    })
}

/// What such a subcommand asks for where its loops are pipelined.
fn pipelined_named(
    alloc: Global,
    name: &str,
    found: &ArgMatches<'_>,
    looping: Looping,
) -> Result<Request, SettingError>
    requires check { bytes_eq name.now (codes "check") ≡ false }
    requires adopt { bytes_eq name.now (codes "adopt") ≡ false }
    requires packing { looping.packing ≡ packing_of (found_rows found.now) }
    requires verbose { looping.verbose ≡ is_set (codes "verbose") (found_rows found.now) }
    ensures ok { IfOk result (λ request. pipelined_asked name.now (found_rows found.now) (map trips_of looping.promises.trips.items)
        looping.promises.apart.items ≡ Some (ask_of request)) }
    ensures err { IfErr result (IsBadIn (named_rows name.now found.now)) }
{
    if name == "pack" {
        return Ok(Request::PackLoops(looping));
    }
    if name == "show" {
        return Ok(Request::ShowLoops(looping, drawing_in(found)));
    }
    let flight = loop_flight_in(alloc, found)?;
    Ok(Request::RunLoops(looping, flight))
}

/// What any subcommand asks for.
fn request_of(alloc: Global, name: &str, found: &ArgMatches<'_>) -> Result<Request, CommandError>
    ensures ok { IfOk result (λ request. what_in (named_rows name.now found.now) ≡ Some (ask_of request)) }
    ensures err { IfErr result (IsRefusalIn (named_rows name.now found.now)) }
{
    if name == "check" {
        return Ok(check_in(alloc, found)?);
    }
    if name == "adopt" {
        return match adopting_in(alloc, found) {
            Ok(adopting) => Ok(Request::Adopt(adopting)),
            Err(_) => Err(CommandError::Memory),
        };
    }
    if is_set(found, "pipeline") {
        let looping = looping_in(alloc, found)?;
        return Ok(pipelined_named(alloc, name, found, looping)?);
    }
    request_named(alloc, name, found)
}

/// What no words ask for.
fn plain_command() -> Command
    ensures { ask_told result ≡ Listing plain_packing }
{
    Command {
        request: Request::Pack(PLAIN),
        rendering: Rendering::Text,
    }
}

/// How it is told what a subcommand asks for, by its options.
fn rendering_found(matches: &ArgMatches<'_>) -> Rendering
    ensures { result ≡ rendering_of (found_rows matches.now) }
{
    if is_set(matches, "json") {
        Rendering::Json
    } else {
        Rendering::Text
    }
}

/// Whether two ways are named to tell the same.
fn names_two_ways(matches: &ArgMatches<'_>) -> bool
    ensures { result ≡ names_two_ways (found_rows matches.now) }
{
    is_page(matches) && (is_set(matches, "json") || is_set(matches, "summary"))
}

/// Whether a limit of blocks is named.
fn limits_blocks(matches: &ArgMatches<'_>) -> bool
    ensures { result ≡ limits_blocks (found_rows matches.now) }
{
    match matches.get_str("blocks") {
        Some(_) => true,
        None => false,
    }
}

/// Which options exclude each other.
fn exclusion_of(matches: &ArgMatches<'_>) -> Option<Exclusion>
    ensures { result ≡ exclusion_of (found_rows matches.now) }
{
    if names_two_ways(matches) {
        Some(Exclusion::Page)
    } else if is_set(matches, "pipeline") && limits_blocks(matches) {
        Some(Exclusion::Blocks)
    } else {
        None
    }
}

/// What any subcommand asks for, and how it is to be told.
#[tactic(auto, using(crate::proofs::Asking::told_so))]
fn command_named(alloc: Global, name: &str, found: &ArgMatches<'_>) -> Result<Command, CommandError>
    ensures ok { IfOk result (λ command. ask_in (named_rows name.now found.now) ≡ Some (ask_told command)) }
    ensures err { IfErr result (IsRefusalIn (named_rows name.now found.now)) }
{
    match exclusion_of(found) {
        Some(exclusion) => Err(CommandError::Excluded(exclusion)),
        None => Ok(Command {
            request: request_of(alloc, name, found)?,
            rendering: rendering_found(found),
        }),
    }
}

/// What the subcommand that was read asks for.
#[tactic(auto, using(crate::proofs::Asking::none_told))]
fn command_in(alloc: Global, matches: &ArgMatches<'_>) -> Result<Command, CommandError>
    ensures ok { IfOk result (λ command. ask_in (subcommand_rows_of matches.now) ≡ Some (ask_told command)) }
    ensures err { IfErr result (IsRefusalIn (subcommand_rows_of matches.now)) }
{
    match matches.subcommand() {
        None => Ok(plain_command()),
        Some((name, found)) => command_named(alloc, name, found),
    }
}

/// What the words after the program's name ask for (README.md, "Command line"). No words ask for `pack --turns`.
///
/// # Errors
///
/// `Words` only where clap doesn't take the words, `Excluded` only where clap takes them and two options exclude each other,
/// `Setting` only where clap takes them and that setting is the first bad one, `Promise` only where clap takes them and that promise
/// is the first bad one, and `Memory` where memory ran out, which may come
/// whatever the words are.
pub fn command_of<'a, S: AsStr>(alloc: Global, words: &'a [S]) -> Result<Command, CommandError>
    ensures asked { IfOk result (λ command. asked (map S.text words.entry.now) ≡ Some (ask_told command)) }
    ensures refused { IfErr result (λ error. IsRefusal error (map S.text words.entry.now)) }
{
    if words.is_empty() {
        return Ok(plain_command());
    }
    let matches = matches_of(alloc, words)?;
    command_in(alloc, &matches)
}
