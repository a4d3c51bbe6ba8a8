//! The pages that the program tells of itself.

ghost use Rattle.std.specs.Prelude.{◌≡◌, map};
ghost use Rattle.c62_answer.specs.Message.{told_of};
ghost use Rattle.c62_program.specs.Page.{help_page, page_asked, page_text};

use c62_answer::{Refused, write_pieces, write_whole};
use c62_json::VERSION;
use std::convert::AsStr;
use std::io::Write;

/// The toolchain that proves this version and builds it.
const TOOLCHAIN: &str = "rattle-kit-13f";

/// Where texts come from and go to, and what the statuses are (docs/COMMANDS.md).
const STATUS: &str = "\
The text is read from the file that is named, or from standard input where none is or it
is `-`. The answer goes to standard output, or to the file behind -o, which is made whole
or not at all, as in: c62 pack kernel.s -o kernel.lst
Settings can stand in a file, as in: c62 run kernel.s --settings kernel.settings
and the bytes of a file in memory, as in: c62 run kernel.s --load 0x100=table.bin
Memory is printed below the report, as in: c62 run kernel.s --print 0x300+16:hd
and written to a file, as in: c62 run kernel.s --dump 0x300+64=out.bin
A run of sim or exec is told cycle by cycle, as in: c62 exec hand.asm --trace
`c62 help trace` tells how.

Status, and what standard error says:
  0  done, and nothing is said but how many cycles were added to drain packets, or that a run
     ended by its limit, where -o, --dump or --print keeps something of it
  1  the text is refused: `line 7: BadUnit` names its first faulty line and the fault;
     of a listing also `block 0: NotDrained`, or `block 0 cycle 3: P5` and the packet rule;
     of packets to be adopted also `line 7: NotDrained`, or `line 7: P5` and the packet rule;
     of packets in flight also `line 7: TwoBranches`, and `from: UnknownTarget`;
     of a check it is `text line 7: BadUnit` or `listing line 7: Shape`, each part counted from 1
  2  the words are refused, by a text that says why, or `setting 2: bad`, or `load 2: past the end`
  3  no memory: `memory`
  4  a stream failed: `input` or `output`; or a file: `cannot read NAME: REASON`, `cannot write NAME: REASON`
  5  checked, and not each block is the same: the output tells, and --explain says more; or with
     serial --apart, accesses met: lines behind the report tell where
  6  with --strict, a run ended by its limit; 7, an access faulted: the report tells
docs/SERIAL_TEXT.md, docs/LISTING.md, docs/ADOPT.md, docs/EXEC.md and docs/CHECK.md tell what each fault is.
";

/// How `lint` is used (docs/FAULTS.md).
pub const LINT: &str = "\
Prints the first fault of each faulty line of a text, as FILE:LINE:COLUMN: error: NAME: SENTENCE

Usage: c62 lint [--as <KIND>] [--most <N>] [--json] [-o <FILE>] [FILE]

Options:
      --as <KIND>        What the text is: serial (as pack reads it), listing (as sim reads it) or
                         packets (as adopt reads them, with reads in delay slots as warnings);
                         serial where none is given
      --most <N>         Prints at most N faults, 1 to 1000; 100 where none is given
      --json             Writes the same as a JSON document
      --isa <SET>        Takes the instructions of this set, core or full; core where none is given
      --labels <STYLE>   With gnu, takes labels that begin with a dot too
      --settings <FILE>  Takes the words of a file, in its place
  -o <FILE>              Writes the answer to a file

The status is 1 where the text is refused for a fault, and else 0.

Example:
  c62 lint kernel.s
";

/// How `explain` is used.
pub const EXPLAIN: &str = "\
Prints what a fault, a packet rule, or a word of check or show is, with an example

Usage: c62 explain <NAME>

Example:
  c62 explain BadUnit
";

/// What is told where no set of instructions is named.
pub const ISA: &str = "\
error: '--isa' takes 'core' or 'full', once

For more information, try '--help'.
";

/// What is told where labels are asked for in no way that is known.
pub const LABELS: &str = "\
error: '--labels' takes 'gnu', once

For more information, try '--help'.
";

/// How a run is traced (docs/TRACE.md).
pub const TRACE: &str = "\
Tells cycle by cycle what a run of packets does, beside its report

Usage: c62 sim  [--trace[=FILE]] [--vcd <FILE>] [--from-cycle <N>] [--cycles-traced <N>] ..
       c62 exec [--trace[=FILE]] [--vcd <FILE>] [--from-cycle <N>] [--cycles-traced <N>] ..

Options:
      --trace[=FILE]       Writes a line for each instruction that is issued, each store, and each
                           write when it lands: to standard error, or to a file
      --vcd <FILE>         Writes the run as a waveform, which GTKWave reads, to a file
      --from-cycle <N>     Both begin with cycle N, 0 to 4294967295; 0 where none is given
      --cycles-traced <N>  Both show N cycles, 1 to 4294967295; 10000 where none is given

Example:
  c62 exec hand.asm --trace --from-cycle 40 --cycles-traced 20
";

/// A page that the program tells of itself.
#[derive(Clone, Copy, PartialEq, Eq, Debug)]
pub enum Page {
    /// Name, version and toolchain: `--version`.
    Version,
    /// The streams and the statuses: `help status`.
    Status,
    /// How `lint` is used: `help lint`.
    Lint,
    /// How `explain` is used: `help explain`.
    Explain,
    /// How a run is traced: `help trace`.
    Trace,
}

/// The page that this word asks for behind `help`.
fn help_page(page: &str) -> Option<Page>
    ensures { result ≡ help_page page.now }
{
    if page == "status" {
        Some(Page::Status)
    } else if page == "lint" {
        Some(Page::Lint)
    } else if page == "explain" {
        Some(Page::Explain)
    } else if page == "trace" {
        Some(Page::Trace)
    } else {
        None
    }
}

/// The page that the words ask for.
pub fn page_asked<S: AsStr>(words: &[S]) -> Option<Page>
    ensures { result ≡ page_asked (map S.text words.now) }
{
    match words {
        [word] if word.as_str() == "--version" => Some(Page::Version),
        [word, page] if word.as_str() == "help" => help_page(page.as_str()),
        _ => None,
    }
}

/// Writes a page.
pub fn write_page<W: Write>(output: &mut W, page: Page) -> Result<(), Refused>
    ensures { told_of result (W.contents output.old) (W.contents output.new) (page_text page) }
{
    match page {
        Page::Version => write_pieces(output, &["c62 ", VERSION, " (", TOOLCHAIN, ")\n"]),
        Page::Status => write_whole(output, STATUS.as_bytes()),
        Page::Lint => write_whole(output, LINT.as_bytes()),
        Page::Explain => write_whole(output, EXPLAIN.as_bytes()),
        Page::Trace => write_whole(output, TRACE.as_bytes()),
    }
}
