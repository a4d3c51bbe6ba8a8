//! A dump that is written as a run goes.

ghost use Rattle.std.specs.Prelude.{◌≡◌, ℕ, ◌++◌, [], List, Option, OnOk, IfOk};
ghost use Rattle.c62_trace.specs.Stream.{IsTold, IsWritten, WritesMore};
ghost use Rattle.c62_wave.specs.Wave.{course_at, text_before, end_text, BeginsWave, TellsWave};
ghost use Rattle.c62_wave.specs.Waves.{wave_nothing, wave_more};

use crate::course::Course;
use crate::dump::push_last_mark;
use crate::header::head;
use c62_packet::Placed;
use c62_pipe::Due;
use c62_serial::State;
use c62_trace::{Refused, Watch, Window, tell};
use std::alloc::{AllocError, Global};
use std::io::Write;

/// The dump of a run's events, which goes to a stream.
#[derive(Drop)]
pub struct Wave<W> {
    /// The cycles that are written.
    pub window: Window,
    pub course: Course,
    /// So many bytes are kept before they are sent, but for the last ones of a cycle.
    room: usize,
    /// What isn't sent yet.
    pub unsent: Vec<u8>,
    /// Whether the stream took all that was sent, or refused some.
    pub whole: Result<(), Refused>,
    pub stream: W,
}

impl<W: Write> Wave<W> {
    /// Sends what isn't sent yet.
    fn send(&mut self)
        ensures told { WritesMore self.old.whole (W.contents self.old.stream) self.old.unsent.items self.new.whole (W.contents self.new.stream) self.new.unsent.items [] }
        ensures window { self.new.window ≡ self.old.window }
        ensures course { self.new.course ≡ self.old.course }
        ensures unsent { self.new.unsent.items ≡ [] }
    {
        self.whole = tell(&mut self.stream, self.whole, &self.unsent);
        self.unsent.clear();
    }

    /// Sends what isn't sent yet, where there is no more room for it.
    fn send_full(&mut self)
        ensures told { WritesMore self.old.whole (W.contents self.old.stream) self.old.unsent.items self.new.whole (W.contents self.new.stream) self.new.unsent.items [] }
        ensures window { self.new.window ≡ self.old.window }
        ensures course { self.new.course ≡ self.old.course }
    {
        if self.unsent.len() > self.room {
            self.send();
        }
    }

    /// All cycles before this one end.
    fn run_to(&mut self, cycle: u64) -> Result<(), AllocError>
        ensures told { OnOk result (WritesMore self.old.whole (W.contents self.old.stream) self.old.unsent.items self.new.whole (W.contents self.new.stream) self.new.unsent.items
            (text_before self.old.window cycle self.old.course)) }
        ensures window { self.new.window ≡ self.old.window }
        ensures course { OnOk result (self.new.course ≡ course_at cycle self.old.course) }
    {
        self.course.run_to(&mut self.unsent, self.window, cycle)?;
        self.send_full();
        Ok(())
    }
}

impl<W: Write + Drop> Wave<W> {
    /// The dump of a run on this machine: its head is written, and nothing is sent yet. So many bytes are kept before they are sent.
    ///
    /// # Errors
    ///
    /// The stream again, where memory ran out.
    pub fn new(
        alloc: Global,
        window: Window,
        state: &State,
        room: usize,
        stream: W,
    ) -> Result<Wave<W>, W>
        ensures { IfOk result (λ wave. BeginsWave (W.contents stream) window state.now.machine.base state.now.machine.registers
            wave.window wave.course wave.whole (W.contents wave.stream) wave.unsent.items) }
    {
        let mut unsent = Vec::new(alloc);
        match unsent.extend_from_slice(head()) {
            Ok(()) => {}
            Err(_) => return Err(stream),
        }
        Ok(Wave {
            window,
            course: Course::opening(state),
            room,
            unsent,
            whole: Ok(()),
            stream,
        })
    }

    /// Writes what is left of so many cycles, and sends it.
    fn finish(&mut self, cycles: u64) -> Result<(), AllocError>
        ensures { OnOk result ((opening : Option (List ℕ)) (text : List ℕ)
            → IsWritten opening self.old.whole (W.contents self.old.stream) self.old.unsent.items text
            → IsTold self.new.whole opening (W.contents self.new.stream) (text ++ end_text self.old.window cycles self.old.course)) }
    {
        self.run_to(cycles)?;
        push_last_mark(&mut self.unsent, self.window, self.course.cycle)?;
        self.send();
        Ok(())
    }

    /// Writes what is left of so many cycles, and sends it. Gives back the stream, and whether it took all; if it refused some, it
    /// has a front of what was written. Where memory ran out it has a front too.
    pub fn end(self, cycles: u64) -> (W, Result<Result<(), Refused>, AllocError>)
        ensures { IfOk result.1 (λ whole. (opening : Option (List ℕ)) (text : List ℕ)
            → IsWritten opening self.whole (W.contents self.stream) self.unsent.items text
            → IsTold whole opening (W.contents result.0) (text ++ end_text self.window cycles self.course)) }
    {
        let mut wave = self;
        let done = wave.finish(cycles);
        let Wave { whole, stream, .. } = wave;
        match done {
            Ok(()) => (stream, Ok(whole)),
            Err(error) => (stream, Err(error)),
        }
    }
}

impl<W: Write> Watch for Wave<W> {
    ghost tells = { λ old new log. TellsWave log old.window old.course old.whole (W.contents old.stream) old.unsent.items
        new.window new.course new.whole (W.contents new.stream) new.unsent.items };

    fn insn(&mut self, cycle: u64, placed: &Placed, state: &State) -> Result<(), AllocError> {
        self.run_to(cycle)?;
        self.course.issue(placed, state);
        Ok(())
    }

    fn landings(&mut self, cycle: u64, writes: &[Due]) -> Result<(), AllocError> {
        if writes.is_empty() {
            return Ok(());
        }
        self.run_to(cycle)?;
        self.course.land(writes);
        Ok(())
    }

    ghost nothing = { λ watch. wave_nothing watch.window watch.course watch.whole (W.contents watch.stream) watch.unsent.items };

    ghost more = { λ old middle new told others first second. wave_more told others
        old.window middle.window new.window old.course middle.course new.course old.whole middle.whole new.whole
        (W.contents old.stream) (W.contents middle.stream) (W.contents new.stream)
        old.unsent.items middle.unsent.items new.unsent.items first second };
}
