//! Where a line stands below others.

ghost use Rattle.std.specs.Prelude.{◌≡◌, ◌≤◌, ◌<◌, ◌+◌, ◌-◌, ◌*◌, ◌^◌, ◌∷◌, [], ℕ, List, length, is_some};
ghost use Rattle.c62_line.specs.Line.{said_of};
ghost use Rattle.c62_adopt_line.specs.Line.{Line, line_written};
ghost use Rattle.c62_adopt_cut.specs.Cut.{cycles_of, cycles_said, cycles_added, is_filled, begins_packet, is_branching, last_packet, start_of, stand_of, with_cut};
ghost use Rattle.c62_adopt_cut.specs.Clock.{AreCuts, IsClockOf, IsClockAt, IsClockBehind, HasClock, packet_below};

use c62_adopt_line::Written;
use c62_line::What;

/// Where a line stands: its cycle, and the one in which its block begins, both counted from the beginning of the text.
#[derive(Clone, Copy, PartialEq, Eq, Debug)]
pub struct Stand {
    pub cycle: u32,
    pub start: u32,
}

/// What is kept of the lines above: how many cycles they take, where the block began, where the last cut is, which may be yet to
/// come, and where the last packet stands.
#[derive(Clone, Copy)]
pub(crate) struct Clock {
    now: u32,
    start: u32,
    last: u32,
    packet: Option<Stand>,
}

fn cycles_said(what: &What) -> u32
    ensures cycles { result ≡ cycles_said (said_of what.now) }
    ensures few { result ≤ 255 }
{
    match what {
        What::Empty => 0,
        What::Nop(cycles) => u32::from(*cycles),
        What::Insn(_) | What::Jump(_, _) => 1,
    }
}

/// The cycles that a line adds to those above it.
fn cycles_added(line: &Written) -> u32
    ensures cycles { result ≡ cycles_added (line_written line.now) }
    ensures few { result ≤ 255 }
{
    let cycles = cycles_said(&line.what);
    if line.beside {
        cycles.saturating_sub(1)
    } else {
        cycles
    }
}

fn is_branching(what: &What) -> bool
    ensures { result ≡ is_branching (said_of what.now) }
{
    match what {
        What::Insn(insn) | What::Jump(insn, _) => insn.op().is_branch(),
        What::Empty | What::Nop(_) => false,
    }
}

fn begins_packet(line: &Written) -> bool
    ensures { result ≡ begins_packet (line_written line.now) }
{
    let filled = !matches!(line.what, What::Empty);
    filled && !line.beside
}

impl Clock {
    /// Above all lines.
    pub(crate) fn new() -> Clock
        ensures { IsClockOf result [] }
    {
        Clock {
            now: 0,
            start: 0,
            last: 0,
            packet: None,
        }
    }

    /// A block begins here.
    fn cut(self) -> Clock
        ensures cuts { (cuts : List ℕ) → AreCuts self.now self.start self.last cuts → AreCuts result.now result.start result.last (self.now ∷ cuts) }
        ensures now { result.now ≡ self.now }
        ensures packet { result.packet ≡ self.packet }
    {
        Clock {
            start: self.now,
            last: self.last.max(self.now),
            ..self
        }
    }

    /// At a line: its label begins a block.
    fn at(self, line: &Written) -> Clock
        ensures at { (above : List Line) → IsClockOf self above → IsClockAt result above (line_written line.now) }
        ensures now { result.now ≡ self.now }
    {
        if line.label.is_some() {
            self.cut()
        } else {
            self
        }
    }

    /// Where a packet stands that begins here.
    fn here(self) -> Stand
        ensures cycle { result.cycle ≡ self.now }
        ensures start { (cuts : List ℕ) → AreCuts self.now self.start self.last cuts → result.start ≡ start_of self.now cuts }
    {
        Stand {
            cycle: self.now,
            start: if self.last <= self.now {
                self.last
            } else {
                self.start
            },
        }
    }

    /// Where the line stands that the clock is at.
    fn stand(self, line: &Written) -> Stand
        ensures stand { (above : List Line) → IsClockAt self above (line_written line.now) → result ≡ stand_of above (line_written line.now) }
        ensures early { (above : List Line) → IsClockAt self above (line_written line.now) → result.cycle ≤ self.now }
    {
        if line.beside {
            self.packet.unwrap_or(self.here())
        } else {
            self.here()
        }
    }

    /// Behind a branch in this cycle, where no cut is yet to come then.
    fn cut_behind(self, cycle: u32) -> Clock
        requires past { cycle ≤ self.now }
        requires small { self.now < 2 ^ 32 - 6 }
        ensures cuts { (cuts : List ℕ) → AreCuts self.now self.start self.last cuts
            → AreCuts result.now result.start result.last (with_cut cycle cuts) }
        ensures now { result.now ≡ self.now }
        ensures packet { result.packet ≡ self.packet }
    {
        if self.last <= cycle {
            Clock {
                start: self.last,
                last: cycle + 6,
                ..self
            }
        } else {
            self
        }
    }

    /// Behind what the line says that stands there.
    fn behind(self, line: &Written, stand: Stand) -> Clock
        requires past { stand.cycle ≤ self.now }
        requires small { self.now < 2 ^ 31 }
        ensures behind { (above : List Line) → IsClockAt self above (line_written line.now) → stand ≡ stand_of above (line_written line.now)
            → IsClockBehind result above (line_written line.now) }
        ensures now { result.now ≡ self.now }
    {
        if is_branching(&line.what) {
            self.cut_behind(stand.cycle)
        } else {
            self
        }
    }

    /// Where the last packet stands, below a line that stands here.
    fn packet_below(self, line: &Written, stand: Stand) -> Option<Stand>
        ensures { result ≡ packet_below self.packet stand (line_written line.now) }
    {
        if begins_packet(line) {
            Some(stand)
        } else if line.label.is_some() {
            None
        } else {
            self.packet
        }
    }

    /// Below the line that stands there.
    fn below(self, line: &Written, stand: Stand) -> Clock
        requires past { stand.cycle ≤ self.now }
        requires small { self.now < 2 ^ 31 }
        ensures { (above : List Line) → self.now ≤ 255 * length above → IsClockBehind self above (line_written line.now) → stand ≡ stand_of above (line_written line.now)
            → IsClockOf result (line_written line.now ∷ above) }
    {
        Clock {
            now: self.now + cycles_added(line),
            packet: self.packet_below(line, stand),
            ..self
        }
    }

    /// How many cycles have passed.
    pub(crate) fn cycles(self) -> u32
        ensures { (above : List Line) → IsClockOf self above → result ≡ cycles_of above }
    {
        self.now
    }

    /// Whether something stands above that a line with bars may stand beside.
    pub(crate) fn has_packet(self) -> bool
        ensures { (above : List Line) → IsClockOf self above → result ≡ is_some (last_packet above) }
    {
        self.packet.is_some()
    }

    /// Where the next line stands, which is passed.
    pub(crate) fn pass(&mut self, line: &Written) -> Stand
        requires small { self.old.now < 2 ^ 31 }
        requires clock { HasClock self.old }
        ensures stand { (above : List Line) → IsClockOf self.old above → result ≡ stand_of above (line_written line.now) }
        ensures clock { (above : List Line) → IsClockOf self.old above → IsClockOf self.new (line_written line.now ∷ above) }
    {
        let at = self.at(line);
        let stand = at.stand(line);
        *self = at.behind(line, stand).below(line, stand);
        stand
    }
}
