//! A run on its way, from one row to the next.

ghost use Rattle.std.specs.Prelude.{◌≡◌, ◌+◌, ◌-◌, ◌<◌, ◌≤◌, ◌^◌, length};
ghost use Rattle.c62_serial.specs.State.{line_capacity};
ghost use Rattle.c62_pipe.specs.Flight.{due};
ghost use Rattle.c62_exec.specs.Step.{Fit, issuing, issue_all, breach, with_turn, on_way, gone, row_goes, row_passes, end_of, clash_from, settled, flown_from};
ghost use Rattle.c62_exec.specs.Ground.{IsOnGround};
ghost use Rattle.c62_exec.specs.declared.taken.Taken.TheVariants.{Nothing};

use crate::clash::first_clash;
use crate::run::Flown;
use crate::taken::Taken;
use crate::turns::Turns;
use c62_flight::Stop;
use c62_insn::Target;
use c62_packet::Placed;
use c62_pipe::Pipe;
use c62_serial::State;

/// How a row went.
#[derive(Clone, Copy, PartialEq, Eq, Debug)]
pub enum Passed {
    /// It was over in this cycle, in which a branch took effect, if one did.
    Over(u64, Option<Target>),
    /// This cycle broke the run.
    Broken(u64, Stop),
}

/// What is in flight before a cycle.
#[derive(Drop)]
pub struct Underway {
    pub pipe: Pipe,
    pub turns: Turns,
}

impl Underway {
    /// Nothing in flight.
    pub fn new() -> Underway
        ensures { IsOnGround result }
    {
        Underway {
            pipe: Pipe::new(),
            turns: Turns::new(),
        }
    }

    /// Issues the instructions of a packet in a cycle. Answers the branches among them that ran.
    pub fn issue(&mut self, insns: &[Placed], cycle: u64, state: &mut State) -> Taken
        requires soon { cycle < 2 ^ 63 }
        requires fit { Fit cycle insns.now self.old.pipe state.old.machine }
        requires room { length insns.now ≤ state.old.room }
        ensures issued { issuing self.new.pipe state.new.machine result
            ≡ issue_all cycle (issuing self.old.pipe state.old.machine Nothing) insns.now }
        ensures turns { self.new.turns ≡ self.old.turns }
        ensures capacity { line_capacity state.new ≡ line_capacity state.old }
    {
        let mut taken = Taken::Nothing;
        let mut rest = insns;
        while let [placed, others @ ..] = rest {
            taken = taken.with(self.pipe.issue(cycle, placed, state), placed.line);
            rest = others;
        }
        taken
    }

    /// The branches of a packet are in flight. Answers what breaks the cycle, if something does: two
    /// of them, or writes that land.
    pub fn turn(&mut self, taken: Taken, cycle: u64) -> Option<Stop>
        ensures broken { result ≡ breach taken (due self.old.pipe.slots cycle) }
        ensures turns { self.new ≡ record self.old { turns = with_turn cycle taken self.old.turns } }
    {
        match taken {
            Taken::Nothing => first_clash(self.pipe.due(cycle)),
            Taken::One(target, _) => {
                self.turns.add(cycle, target);
                first_clash(self.pipe.due(cycle))
            }
            Taken::Two(first, second) => Some(Stop::Branches(first, second)),
        }
    }

    /// Ends this cycle of a row and those behind it, of which the row has so many left, up to one that
    /// is broken or in which a branch takes effect.
    pub fn pass(&mut self, idle: u32, broken: Option<Stop>, start: u64, state: &mut State) -> Passed
        requires soon { start < 2 ^ 62 }
        ensures passed { gone result (on_way self.new.pipe self.new.turns state.new.machine)
            ≡ row_goes broken idle start (on_way self.old.pipe self.old.turns state.old.machine) }
        ensures end { end_of result ≤ start + idle + 1 }
        ensures capacity { line_capacity state.new ≡ line_capacity state.old }
    {
        let mut cycle = start;
        let mut left = idle;
        let mut broken = broken;
        loop {
            self.pipe.end_cycle(cycle, state);
            if let Some(stop) = broken {
                return Passed::Broken(cycle, stop);
            }
            cycle += 1;
            let turn = self.turns.take(cycle);
            if left == 0 || turn.is_some() {
                return Passed::Over(cycle, turn);
            }
            left -= 1;
            broken = first_clash(self.pipe.due(cycle));
        }
    }

    /// Runs a row that begins in a cycle, of these instructions and of so many cycles behind its first,
    /// until it is over or its run is broken. It takes no memory.
    pub(crate) fn run_row(
        &mut self,
        insns: &[Placed],
        idle: u32,
        start: u64,
        state: &mut State,
    ) -> Passed
        requires soon { start < 2 ^ 62 }
        requires fit { Fit start insns.now self.old.pipe state.old.machine }
        requires room { length insns.now ≤ state.old.room }
        ensures passed { gone result (on_way self.new.pipe self.new.turns state.new.machine)
            ≡ row_passes insns.now idle start (on_way self.old.pipe self.old.turns state.old.machine) }
        ensures end { end_of result ≤ start + idle + 1 }
        ensures capacity { line_capacity state.new ≡ line_capacity state.old }
    {
        let taken = self.issue(insns, start, state);
        let broken = self.turn(taken, start);
        self.pass(idle, broken, start, state)
    }

    /// The first of so many cycles from one on in which writes clash, and how.
    fn clash_from(&self, cycle: u64, count: u8) -> Option<(u64, Stop)>
        requires { cycle < 2 ^ 63 }
        ensures { result ≡ clash_from count cycle self.now.pipe.slots }
    {
        let mut now = cycle;
        let mut left = count;
        while left > 0 {
            if let Some(stop) = first_clash(self.pipe.due(now)) {
                return Some((now, stop));
            }
            now += 1;
            left -= 1;
        }
        None
    }

    /// Lets what is in flight land in so many cycles from one on.
    pub fn settle(&mut self, cycle: u64, count: u64, state: &mut State)
        requires cycle { cycle < 2 ^ 62 }
        requires count { count < 2 ^ 62 }
        ensures { on_way self.new.pipe self.new.turns state.new.machine
            ≡ settled count cycle (on_way self.old.pipe self.old.turns state.old.machine) }
    {
        let mut now = cycle;
        let mut left = count;
        while left > 0 {
            self.pipe.end_cycle(now, state);
            now += 1;
            left -= 1;
        }
    }

    /// Stops a run so, in a cycle before which it stands, or by a clash of what still lands. All that
    /// is in flight lands, in cycles that no longer count.
    pub fn come_down(&mut self, stop: Stop, end: u64, state: &mut State) -> Flown
        requires { end < 2 ^ 62 }
        ensures flown { result ≡ flown_from stop end (clash_from 4 end self.old.pipe.slots) }
        ensures landed { on_way self.new.pipe self.new.turns state.new.machine
            ≡ settled 4 end (on_way self.old.pipe self.old.turns state.old.machine) }
    {
        let stop = match self.clash_from(end, 4) {
            Some((_, clash)) => clash,
            None => stop,
        };
        self.settle(end, 4, state);
        Flown { stop, cycles: end }
    }
}
