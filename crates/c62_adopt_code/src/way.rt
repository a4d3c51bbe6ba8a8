//! Whether what runs above comes to a line.

ghost use Rattle.std.specs.Prelude.{◌≡◌, ◌≤◌, ◌&&◌, is_none};
ghost use Rattle.c62_op.specs.Shape.{is_branch};
ghost use Rattle.c62_insn.specs.Insn.{op_of, cond_of};
ghost use Rattle.c62_line.specs.Line.{said_of};
ghost use Rattle.c62_adopt_line.specs.Line.{line_written};
ghost use Rattle.c62_adopt_cut.specs.Cut.{cycles_said, cycles_added, begins_packet};

use c62_adopt_line::Written;
use c62_insn::Insn;
use c62_line::What;

/// What is known of the lines above.
#[derive(Clone, Copy)]
pub struct Way {
    /// None of them has a label, an instruction or a NOP.
    untouched: bool,
    /// The cycles that the last packet has come to; six are as many as any more.
    age: u32,
    /// The cycles until a branch without a condition takes effect that no label stands below.
    left: Option<u32>,
}

ghost use Rattle.c62_adopt_code.specs.Way.{first_way, labelled_way, goes_away, is_silent, sooner, with_branch, at_label, age_behind, with_cycles, way_on, comes_nothing};

fn cycles_said(what: &What) -> u32
    ensures cycles { result ≡ cycles_said (said_of what.now) }
    ensures few { result ≤ 255 }
{
    match what {
        What::Empty => 0,
        What::Nop(cycles) => u32::from(*cycles),
        What::Insn(_) | What::Jump(_, _) => 1,
    }
}

/// The cycles that a line adds to those above it.
fn cycles_added(line: &Written) -> u32
    ensures cycles { result ≡ cycles_added (line_written line.now) }
    ensures few { result ≤ 255 }
{
    let cycles = cycles_said(&line.what);
    if line.beside {
        cycles.saturating_sub(1)
    } else {
        cycles
    }
}

fn is_silent(what: &What) -> bool
    ensures { result ≡ is_silent (said_of what.now) }
{
    matches!(what, What::Empty)
}

fn begins_packet(line: &Written) -> bool
    ensures { result ≡ begins_packet (line_written line.now) }
{
    !is_silent(&line.what) && !line.beside
}

fn is_away(insn: Insn) -> bool
    ensures { result ≡ (is_branch (op_of insn) && is_none (cond_of insn)) }
{
    insn.op().is_branch() && insn.cond().is_none()
}

/// Whether it is a branch without a condition.
fn goes_away(what: &What) -> bool
    ensures { result ≡ goes_away (said_of what.now) }
{
    match what {
        What::Insn(insn) | What::Jump(insn, _) => is_away(*insn),
        What::Empty | What::Nop(_) => false,
    }
}

fn age_behind(line: &Written, age: u32) -> u32
    requires { age ≤ 6 }
    ensures { result ≡ age_behind (line_written line.now) age }
{
    let before = if begins_packet(line) { 0 } else { age };
    (before + cycles_added(line)).min(6)
}

impl Way {
    /// Above all lines.
    pub fn new() -> Way
        ensures new { result ≡ first_way }
        ensures young { result.age ≤ 6 }
    {
        Way {
            untouched: true,
            age: 0,
            left: None,
        }
    }

    /// At a label, to which what is above may run on, and jump.
    pub fn labelled() -> Way
        ensures new { result ≡ labelled_way }
        ensures young { result.age ≤ 6 }
    {
        Way {
            untouched: false,
            age: 0,
            left: None,
        }
    }

    fn at_label(self, line: &Written) -> Way
        ensures { result ≡ at_label (line_written line.now) self }
    {
        if line.label.is_some() {
            Way {
                untouched: false,
                age: self.age,
                left: None,
            }
        } else {
            self
        }
    }

    fn with_cycles(self, line: &Written) -> Way
        requires { self.age ≤ 6 }
        ensures { result ≡ with_cycles (line_written line.now) self }
    {
        let left = match self.left {
            None => None,
            Some(left) => Some(left.saturating_sub(cycles_added(line))),
        };
        Way {
            untouched: self.untouched && is_silent(&line.what),
            age: age_behind(line, self.age),
            left,
        }
    }

    fn with_branch(self, what: &What) -> Way
        requires { self.age ≤ 6 }
        ensures { result ≡ with_branch (said_of what.now) self }
    {
        if !goes_away(what) {
            return self;
        }
        let cycles = 6 - self.age;
        let left = match self.left {
            None => cycles,
            Some(left) => cycles.min(left),
        };
        Way {
            untouched: self.untouched,
            age: self.age,
            left: Some(left),
        }
    }

    /// Below a line.
    pub fn on(self, line: &Written) -> Way
        requires { self.age ≤ 6 }
        ensures on { result ≡ way_on (line_written line.now) self }
        ensures young { result.age ≤ 6 }
    {
        self.at_label(line)
            .with_cycles(line)
            .with_branch(&line.what)
    }

    /// Whether nothing above runs on to here.
    pub fn comes_nothing(self) -> bool
        ensures { result ≡ comes_nothing self }
    {
        self.untouched || matches!(self.left, Some(0))
    }
}
