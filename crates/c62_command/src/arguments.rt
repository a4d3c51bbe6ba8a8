//! The words that the program takes, as clap is told of them.

ghost use Rattle.std.specs.Prelude.{◌≡◌, IfOk, false};
ghost use Rattle.clap.specs.Words.{app_of, rule_of};
ghost use Rattle.c62_command.specs.CommandLine.{turns_rule, eject_rule, blocks_rule, settings_rule, cycles_rule, from_rule, alone_rule, drain_rule, why_rule, registers_rule, listing_rule, packets_rule, with_forms, pack_app, show_app, run_app, serial_app, sim_app, exec_app, adopt_app, check_app, bare_app, listing_app, packing_app, running_app, tool_app, with_packing, with_start, IsLocal, profile_rule, strict_rule, with_reach, with_flight, summary_rule, with_details, with_renderings, shortest_rule, search_rule, verbose_rule, json_rule, html_rule, with_pipelined_run, with_told_pipeline, with_report};

use crate::checking::{apart_option, with_loops, with_pipeline};
use clap::{Arg, ArgAction, Command, value_parser};
use std::alloc::{AllocError, Global};

/// What each help ends with: an example, and where more is said.
macro_rules! closing {
    ($($above:literal,)* ; $example:literal) => {
        concat!(
            $($above,)*
            "Example:\n  ",
            $example,
            "\n\n`c62 help status` tells where texts come from, and what each status means."
        )
    };
}

/// The same of a command. These options, and those above them, are read before clap reads the others.
macro_rules! ending {
    ($($above:literal,)* ; $example:literal) => {
        closing!(
            $($above,)*
            "Options of each command that reads a text:\n",
            "      --isa <SET>        Takes the instructions of this set, core or full; core where none is given\n",
            "      --explain          Says below the line that refuses a text what is wrong, and what helps\n",
            "      --settings <FILE>  Takes the words of a file, in its place\n",
            "  -o <FILE>              Writes the answer to a file\n\n",
            ; $example
        )
    };
}

/// The same of a command that runs a text.
macro_rules! ending_run {
    ($($above:literal,)* ; $example:literal) => {
        ending!(
            "Options of memory:\n",
            "      --load <ADDRESS=FILE>         Puts the bytes of a file into memory\n",
            "      --base <ADDRESS>              Begins memory at this address, a multiple of 4; at 0 where none is given\n",
            "      --print <ADDRESS+LENGTH>      Prints words of memory below the report; with :h, :b, :d, :hd or :bd halves, bytes or decimals\n",
            "      --dump <ADDRESS+LENGTH=FILE>  Writes memory to a file, as it is at the end of the run\n\n",
            $($above,)*
            ; $example
        )
    };
}

/// The same of a command that reads serial text.
macro_rules! ending_serial {
    ($example:literal) => {
        ending!(
            "Options of each command that reads serial text:\n",
            "      --labels <STYLE>   With gnu, takes labels that begin with a dot too\n\n",
            ; $example
        )
    };
}

/// The same of a command that runs serial text.
macro_rules! ending_serial_run {
    ($example:literal) => {
        ending_run!(
            "Options of each command that reads serial text:\n",
            "      --labels <STYLE>   With gnu, takes labels that begin with a dot too\n\n",
            ; $example
        )
    };
}

/// The same of a command whose run can be shown as it goes.
macro_rules! ending_traced {
    ($example:literal) => {
        ending_run!(
            "To show the run as it goes:\n",
            "      --trace[=<FILE>]     Writes a line an event, to standard error or to a file\n",
            "      --vcd <FILE>         Writes a waveform, which GTKWave opens\n",
            "      --from-cycle <N>     The first cycle that is shown; 0 where none is given\n",
            "      --cycles-traced <N>  How many cycles are shown; 10000 where none is given\n\n",
            ; $example
        )
    };
}

fn turns_flag<'a>(alloc: Global) -> Arg<'a>
    ensures rule { rule_of result ≡ turns_rule }
    ensures local { result.global ≡ false }
{
    Arg::new(alloc, "turns")
        .long("turns")
        .action(ArgAction::SetTrue)
        .help("Packs on one thread, one side after the other")
}

fn eject_option<'a>(alloc: Global) -> Arg<'a>
    ensures rule { rule_of result ≡ eject_rule }
    ensures local { result.global ≡ false }
{
    Arg::new(alloc, "eject")
        .long("eject")
        .value_name("N")
        .value_parser(value_parser!(u16).range(0..=1000))
        .help("Ejects at most N placed instructions of a block, 0 to 1000; 0 where none is given")
}

fn shortest_flag<'a>(alloc: Global) -> Arg<'a>
    ensures rule { rule_of result ≡ shortest_rule }
    ensures local { result.global ≡ false }
{
    Arg::new(alloc, "shortest")
        .long("shortest")
        .action(ArgAction::SetTrue)
        .help("Takes the shortest schedule of each block that further lists find")
}

fn search_option<'a>(alloc: Global) -> Arg<'a>
    ensures rule { rule_of result ≡ search_rule }
    ensures local { result.global ≡ false }
{
    Arg::new(alloc, "search")
        .long("search")
        .value_name("N")
        .value_parser(value_parser!(u16).range(0..=10_000))
        .help("The same, and searches by at most N choices for each block, 0 to 10000")
}

fn blocks_option<'a>(alloc: Global) -> Arg<'a>
    ensures rule { rule_of result ≡ blocks_rule }
    ensures local { result.global ≡ false }
{
    Arg::new(alloc, "blocks")
        .long("blocks")
        .value_name("N")
        .value_parser(value_parser!(u32).range(1..=1_000_000))
        .help("Runs at most N blocks, 1 to 1000000; 1000 where none is given")
}

fn verbose_flag<'a>(alloc: Global) -> Arg<'a>
    ensures rule { rule_of result ≡ verbose_rule }
    ensures local { result.global ≡ false }
{
    Arg::new(alloc, "verbose")
        .long("verbose")
        .action(ArgAction::SetTrue)
        .help("With --pipeline: tells of each loop how it is pipelined, or why it isn't")
}

fn cycles_option<'a>(alloc: Global) -> Arg<'a>
    ensures rule { rule_of result ≡ cycles_rule }
    ensures local { result.global ≡ false }
{
    Arg::new(alloc, "cycles")
        .long("cycles")
        .value_name("N")
        .value_parser(value_parser!(u32).range(1..=1_000_000_000))
        .help("Runs at most N cycles, 1 to 1000000000; 1000000 where none is given")
}

fn from_option<'a>(alloc: Global) -> Arg<'a>
    ensures rule { rule_of result ≡ from_rule }
    ensures local { result.global ≡ false }
{
    Arg::new(alloc, "from").long("from").value_name("NAME").help(
        "Begins with the packet below this label; with the first where none is given",
    )
}

fn alone_flag<'a>(alloc: Global) -> Arg<'a>
    ensures rule { rule_of result ≡ alone_rule }
    ensures local { result.global ≡ false }
{
    Arg::new(alloc, "alone")
        .long("alone")
        .action(ArgAction::SetTrue)
        .help("Reads of the text only what the label of --from reaches")
}

/// The option of the same name where what the label reaches is taken.
fn reach_option<'a>(alloc: Global) -> Arg<'a>
    ensures rule { rule_of result ≡ from_rule }
    ensures local { result.global ≡ false }
{
    Arg::new(alloc, "from").long("from").value_name("NAME").help(
        "Takes of the text only what this label reaches; the whole text where none is given",
    )
}

fn drain_flag<'a>(alloc: Global) -> Arg<'a>
    ensures rule { rule_of result ≡ drain_rule }
    ensures local { result.global ≡ false }
{
    Arg::new(alloc, "drain")
        .long("drain")
        .action(ArgAction::SetTrue)
        .help(
            "Adds the NOPs that lack before labels and at the end, says how many cycles, and what they may change",
        )
}

fn why_flag<'a>(alloc: Global) -> Arg<'a>
    ensures rule { rule_of result ≡ why_rule }
    ensures local { result.global ≡ false }
{
    Arg::new(alloc, "why")
        .long("why")
        .action(ArgAction::SetTrue)
        .help("Tells why each instruction isn't issued a cycle earlier, and its slack")
}

fn registers_flag<'a>(alloc: Global) -> Arg<'a>
    ensures rule { rule_of result ≡ registers_rule }
    ensures local { result.global ≡ false }
{
    Arg::new(alloc, "registers")
        .long("registers")
        .action(ArgAction::SetTrue)
        .help("Tells how many registers of each side are live at most, and which are free")
}

fn listing_flag<'a>(alloc: Global) -> Arg<'a>
    ensures rule { rule_of result ≡ listing_rule }
    ensures local { result.global ≡ false }
{
    Arg::new(alloc, "listing")
        .long("listing")
        .action(ArgAction::SetTrue)
        .help("Reads a listing, and shows the schedule that stands there")
}

fn packets_flag<'a>(alloc: Global) -> Arg<'a>
    ensures rule { rule_of result ≡ packets_rule }
    ensures local { result.global ≡ false }
{
    Arg::new(alloc, "packets")
        .long("packets")
        .action(ArgAction::SetTrue)
        .help("Reads packets as they are written, and shows the schedule that stands there")
}

/// The same flag where packets as they are written may stand in the place of a listing.
fn written_flag<'a>(alloc: Global) -> Arg<'a>
    ensures rule { rule_of result ≡ packets_rule }
    ensures local { result.global ≡ false }
{
    Arg::new(alloc, "packets")
        .long("packets")
        .action(ArgAction::SetTrue)
        .help("Reads packets as they are written in place of a listing")
}

fn summary_flag<'a>(alloc: Global) -> Arg<'a>
    ensures rule { rule_of result ≡ summary_rule }
    ensures local { result.global ≡ false }
{
    Arg::new(alloc, "summary")
        .long("summary")
        .action(ArgAction::SetTrue)
        .help("Shows of each block its length alone, and how short one can be")
}

fn profile_flag<'a>(alloc: Global) -> Arg<'a>
    ensures rule { rule_of result ≡ profile_rule }
    ensures local { result.global ≡ false }
{
    Arg::new(alloc, "profile")
        .long("profile")
        .action(ArgAction::SetTrue)
        .help("Adds a table of how often each block was run, and what it took")
}

fn strict_flag<'a>(alloc: Global) -> Arg<'a>
    ensures rule { rule_of result ≡ strict_rule }
    ensures local { result.global ≡ false }
{
    Arg::new(alloc, "strict")
        .long("strict")
        .action(ArgAction::SetTrue)
        .help("Ends with status 7 where an access faults, and else with 6 at the limit")
}

fn json_flag<'a>(alloc: Global) -> Arg<'a>
    ensures rule { rule_of result ≡ json_rule }
    ensures local { result.global ≡ false }
{
    Arg::new(alloc, "json")
        .long("json")
        .action(ArgAction::SetTrue)
        .help("Writes the same as a JSON document")
}

fn html_flag<'a>(alloc: Global) -> Arg<'a>
    ensures rule { rule_of result ≡ html_rule }
    ensures local { result.global ≡ false }
{
    Arg::new(alloc, "html")
        .long("html")
        .action(ArgAction::SetTrue)
        .help("Writes a page for a browser, with why and the registers")
}

fn settings_words<'a>(alloc: Global) -> Arg<'a>
    ensures rule { rule_of result ≡ settings_rule }
    ensures local { result.global ≡ false }
{
    Arg::new(alloc, "settings")
        .value_name("SETTING")
        .action(ArgAction::Append)
        .help(
            "REG=NUMBER sets a register, @ADDRESS=NUMBER,.. words of memory; with :h or :b halves or bytes",
        )
}

/// The command with the options of packing.
fn with_packing<'a>(alloc: Global, command: Command<'a>) -> Result<Command<'a>, AllocError>
    ensures app { IfOk result (λ c. app_of c ≡ with_packing (app_of command.entry)) }
    ensures local { IsLocal command.entry → IfOk result IsLocal }
{
    command
        .arg(turns_flag(alloc))?
        .arg(eject_option(alloc))?
        .arg(shortest_flag(alloc))?
        .arg(search_option(alloc))
}

/// The command with what is told of a run beside its report, how it is told, and the settings.
fn with_report<'a>(alloc: Global, command: Command<'a>) -> Result<Command<'a>, AllocError>
    ensures app { IfOk result (λ c. app_of c ≡ with_report (app_of command.entry)) }
    ensures local { IsLocal command.entry → IfOk result IsLocal }
{
    command
        .arg(profile_flag(alloc))?
        .arg(strict_flag(alloc))?
        .arg(json_flag(alloc))?
        .arg(settings_words(alloc))
}

/// The command with whether loops are pipelined, what may be promised of them, and whether it is told what became of them.
fn with_told_pipeline<'a>(alloc: Global, command: Command<'a>) -> Result<Command<'a>, AllocError>
    ensures app { IfOk result (λ c. app_of c ≡ with_told_pipeline (app_of command.entry)) }
    ensures local { IsLocal command.entry → IfOk result IsLocal }
{
    with_pipeline(alloc, command)?.arg(verbose_flag(alloc))
}

/// The same, and the limit of cycles.
fn with_pipelined_run<'a>(alloc: Global, command: Command<'a>) -> Result<Command<'a>, AllocError>
    ensures app { IfOk result (λ c. app_of c ≡ with_pipelined_run (app_of command.entry)) }
    ensures local { IsLocal command.entry → IfOk result IsLocal }
{
    with_told_pipeline(alloc, command)?.arg(cycles_option(alloc))
}

/// The command with the limit of blocks, what is told beside the report, and the settings.
fn with_start<'a>(alloc: Global, command: Command<'a>) -> Result<Command<'a>, AllocError>
    ensures app { IfOk result (λ c. app_of c ≡ with_start (app_of command.entry)) }
    ensures local { IsLocal command.entry → IfOk result IsLocal }
{
    with_report(alloc, command.arg(blocks_option(alloc))?)
}

/// The command with the label to begin with, and whether only what it reaches is read.
fn with_reach<'a>(alloc: Global, command: Command<'a>) -> Result<Command<'a>, AllocError>
    ensures app { IfOk result (λ c. app_of c ≡ with_reach (app_of command.entry)) }
    ensures local { IsLocal command.entry → IfOk result IsLocal }
{
    command.arg(from_option(alloc))?.arg(alone_flag(alloc))
}

/// The command with the limit of cycles, the label to begin with, what is told beside the report, and the settings.
fn with_flight<'a>(alloc: Global, command: Command<'a>) -> Result<Command<'a>, AllocError>
    ensures app { IfOk result (λ c. app_of c ≡ with_flight (app_of command.entry)) }
    ensures local { IsLocal command.entry → IfOk result IsLocal }
{
    let command = with_reach(alloc, command.arg(cycles_option(alloc))?)?;
    with_report(alloc, command)
}

/// The command with the forms of text that are shown as they stand.
fn with_forms<'a>(alloc: Global, command: Command<'a>) -> Result<Command<'a>, AllocError>
    ensures app { IfOk result (λ c. app_of c ≡ with_forms (app_of command.entry)) }
    ensures local { IsLocal command.entry → IfOk result IsLocal }
{
    command.arg(listing_flag(alloc))?.arg(packets_flag(alloc))
}

/// The command with how a picture is told: as a document, or as a page.
fn with_renderings<'a>(alloc: Global, command: Command<'a>) -> Result<Command<'a>, AllocError>
    ensures app { IfOk result (λ c. app_of c ≡ with_renderings (app_of command.entry)) }
    ensures local { IsLocal command.entry → IfOk result IsLocal }
{
    command.arg(json_flag(alloc))?.arg(html_flag(alloc))
}

/// The command with what is told of each block beside its picture, or that its head stands alone, and with how it is told.
fn with_details<'a>(alloc: Global, command: Command<'a>) -> Result<Command<'a>, AllocError>
    ensures app { IfOk result (λ c. app_of c ≡ with_details (app_of command.entry)) }
    ensures local { IsLocal command.entry → IfOk result IsLocal }
{
    let command = command
        .arg(why_flag(alloc))?
        .arg(registers_flag(alloc))?
        .arg(summary_flag(alloc))?;
    with_renderings(alloc, command)
}

fn pack_command<'a>(alloc: Global) -> Result<Command<'a>, AllocError>
    ensures app { IfOk result (λ c. app_of c ≡ pack_app) }
    ensures local { IfOk result IsLocal }
{
    let command = Command::new(alloc, "pack")
        .about("Reads serial text and writes its listing")
        .override_usage(
            "c62 pack [--turns] [--eject <N>] [--shortest] [--search <N>] [--json] [-o <FILE>] [FILE]\n       c62 pack --pipeline [--trips <L=N>]... [--apart <REG,REG,..>] [--verbose] [--json] [-o <FILE>] [FILE]",
        )
        .after_help(ending_serial!("c62 pack --pipeline --trips LOOP=8 kernel.s"));
    with_told_pipeline(alloc, with_packing(alloc, command)?)?.arg(json_flag(alloc))
}

fn show_command<'a>(alloc: Global) -> Result<Command<'a>, AllocError>
    ensures app { IfOk result (λ c. app_of c ≡ show_app) }
    ensures local { IfOk result IsLocal }
{
    let command = Command::new(alloc, "show")
        .about("Packs serial text and shows each block's schedule, and how short one can be")
        .override_usage(
            "c62 show [--why] [--registers] [--summary] [--turns] [--eject <N>] [--shortest] [--search <N>] [--json|--html] [-o <FILE>] [FILE]\n       c62 show --pipeline [--trips <L=N>]... [--apart <REG,REG,..>] [--json|--html] [-o <FILE>] [FILE]\n       c62 show --listing|--packets [--why] [--registers] [--summary] [--json|--html] [-o <FILE>] [FILE]",
        )
        .after_help(ending_serial!("c62 show --why kernel.s"));
    let command = with_pipeline(alloc, with_packing(alloc, command)?)?;
    with_details(alloc, with_forms(alloc, command)?)
}

fn run_command<'a>(alloc: Global) -> Result<Command<'a>, AllocError>
    ensures app { IfOk result (λ c. app_of c ≡ run_app) }
    ensures local { IfOk result IsLocal }
{
    let command = Command::new(alloc, "run")
        .about("Packs serial text, runs the packets and reports the end")
        .override_usage(
            "c62 run [--turns] [--eject <N>] [--shortest] [--search <N>] [--blocks <N>] [--profile] [--strict] [--json] [-o <FILE>] [FILE] [SETTING]...\n       c62 run --pipeline [--trips <L=N>]... [--apart <REG,REG,..>] [--verbose] [--cycles <N>] [--profile] [--strict] [--json] [-o <FILE>] [FILE] [SETTING]...",
        )
        .after_help(ending_serial_run!("c62 run kernel.s A4=8 @8=99"));
    with_start(
        alloc,
        with_pipelined_run(alloc, with_packing(alloc, command)?)?,
    )
}

fn serial_command<'a>(alloc: Global) -> Result<Command<'a>, AllocError>
    ensures app { IfOk result (λ c. app_of c ≡ serial_app) }
    ensures local { IfOk result IsLocal }
{
    let command = Command::new(alloc, "serial")
        .about("Runs serial text, one instruction after the other, and reports the end")
        .override_usage(
            "c62 serial [--apart <REG,REG,..>] [--blocks <N>] [--profile] [--strict] [--json] [-o <FILE>] [FILE] [SETTING]...",
        )
        .after_help(ending_serial_run!("c62 serial kernel.s A4=8 @8=99"));
    with_start(alloc, command.arg(apart_option(alloc))?)
}

fn sim_command<'a>(alloc: Global) -> Result<Command<'a>, AllocError>
    ensures app { IfOk result (λ c. app_of c ≡ sim_app) }
    ensures local { IfOk result IsLocal }
{
    let command = Command::new(alloc, "sim")
        .about("Reads a listing, runs its packets and reports the end")
        .override_usage(
            "c62 sim [--packets] [--blocks <N>] [--profile] [--strict] [--trace[=<FILE>]] [--vcd <FILE>] [--json] [-o <FILE>] [FILE] [SETTING]...",
        )
        .after_help(ending_traced!("c62 sim kernel.lst A4=8 @8=99"));
    with_start(alloc, command.arg(written_flag(alloc))?)
}

fn exec_command<'a>(alloc: Global) -> Result<Command<'a>, AllocError>
    ensures app { IfOk result (λ c. app_of c ≡ exec_app) }
    ensures local { IfOk result IsLocal }
{
    let command = Command::new(alloc, "exec")
        .about(
            "Runs packets as they are written, with branches and loads in flight, and reports the end",
        )
        .override_usage(
            "c62 exec [--cycles <N>] [--from <NAME> [--alone]] [--profile] [--strict] [--trace[=<FILE>]] [--vcd <FILE>] [--json] [-o <FILE>] [FILE] [SETTING]...",
        )
        .after_help(ending_traced!("c62 exec hand.asm --from loop A4=8"));
    with_flight(alloc, command)
}

fn adopt_command<'a>(alloc: Global) -> Result<Command<'a>, AllocError>
    ensures app { IfOk result (λ c. app_of c ≡ adopt_app) }
    ensures local { IfOk result IsLocal }
{
    Command::new(alloc, "adopt")
        .about("Reads packets as they are written for an assembler and writes their listing")
        .override_usage("c62 adopt [--from <NAME>] [--drain] [--json] [-o <FILE>] [FILE]")
        .after_help(ending!(;
            "c62 adopt hand.asm --drain  (4 cycles added; A5 was read below line 2 before it landed)"
        ))
        .arg(reach_option(alloc))?
        .arg(drain_flag(alloc))?
        .arg(json_flag(alloc))
}

fn check_command<'a>(alloc: Global) -> Result<Command<'a>, AllocError>
    ensures app { IfOk result (λ c. app_of c ≡ check_app) }
    ensures local { IfOk result IsLocal }
{
    let command = Command::new(alloc, "check")
        .about("Reads serial text, a line `---` and a listing, and compares their blocks")
        .override_usage(
            "c62 check [--packets] [--json] [-o <FILE>] <TEXT> <LISTING>\n       c62 check [--packets] [--json] [-o <FILE>] [FILE]  (both in one, with a line `---` between them)\n       c62 check --loops [--trips <L=N>]... [--apart <REG,REG,..>] [--json] [-o <FILE>] <TEXT> <PACKETS>",
        )
        .after_help(ending_serial!("c62 check kernel.s hand.lst"))
        .arg(written_flag(alloc))?;
    with_loops(alloc, command)?.arg(json_flag(alloc))
}

/// The program with no subcommand yet.
fn bare_command<'a>(alloc: Global) -> Command<'a>
    ensures app { app_of result ≡ bare_app }
    ensures local { IsLocal result }
{
    Command::new(alloc, "c62")
        .about("Packs and runs TMS320C62x instructions")
        .override_usage("c62 <COMMAND>\n       c62              (this is c62 pack --turns)")
        .after_help(closing!(
            "More commands:\n",
            "  lint     Prints the first fault of each faulty line of a text\n",
            "  explain  Prints what a fault, a packet rule, or a word of check or show is\n\n",
            "`c62 help COMMAND` lists the options of a command. --explain says what is wrong with its text, and\n",
            "--isa full takes all instructions of the C62x's integer core: without it c62 knows 41 of them.\n\n",
            ; "c62 run kernel.s A4=8"
        ))
        .no_binary_name(true)
        .subcommand_required(true)
}

/// The program with the subcommands that pack and write what is packed.
fn listing_command<'a>(alloc: Global) -> Result<Command<'a>, AllocError>
    ensures app { IfOk result (λ c. app_of c ≡ listing_app) }
    ensures local { IfOk result IsLocal }
{
    bare_command(alloc)
        .subcommand(pack_command(alloc)?)?
        .subcommand(show_command(alloc)?)
}

/// The program with the subcommands that pack.
fn packing_command<'a>(alloc: Global) -> Result<Command<'a>, AllocError>
    ensures app { IfOk result (λ c. app_of c ≡ packing_app) }
    ensures local { IfOk result IsLocal }
{
    listing_command(alloc)?.subcommand(run_command(alloc)?)
}

/// The program with the subcommands that pack or run.
fn running_command<'a>(alloc: Global) -> Result<Command<'a>, AllocError>
    ensures app { IfOk result (λ c. app_of c ≡ running_app) }
    ensures local { IfOk result IsLocal }
{
    packing_command(alloc)?
        .subcommand(serial_command(alloc)?)?
        .subcommand(sim_command(alloc)?)?
        .subcommand(exec_command(alloc)?)
}

pub(crate) fn tool_command<'a>(alloc: Global) -> Result<Command<'a>, AllocError>
    ensures { IfOk result (λ c. app_of c ≡ tool_app) }
{
    running_command(alloc)?
        .subcommand(adopt_command(alloc)?)?
        .subcommand(check_command(alloc)?)
}
