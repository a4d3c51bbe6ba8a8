//! A trace that is written as a run goes.

ghost use Rattle.std.specs.Prelude.{◌≡◌, ℕ, [], IsOk, List, Option, refl};
ghost use Rattle.c62_trace.specs.Line.{trace_lines};
ghost use Rattle.c62_trace.specs.Stream.{IsTold, IsWritten, WritesMore};
ghost use Rattle.c62_trace.specs.Written.{writes_none, told_on};

use crate::line::{push_insn, push_landings};
use crate::offering::Refused;
use crate::stream::tell;
use crate::view::View;
use crate::watch::Watch;
use c62_packet::Placed;
use c62_pipe::Due;
use c62_serial::State;
use std::alloc::{AllocError, Global};
use std::io::Write;

/// The lines of a run's events, which go to a stream.
#[derive(Drop)]
pub struct Lines<W> {
    alloc: Global,
    pub view: View,
    /// So many bytes are kept before they are sent, but for the last ones of a cycle.
    room: usize,
    /// What isn't sent yet.
    pub unsent: Vec<u8>,
    /// Whether the stream took all that was sent, or refused some.
    pub whole: Result<(), Refused>,
    pub stream: W,
}

impl<W: Write> Lines<W> {
    /// Sends what isn't sent yet.
    fn send(&mut self)
        ensures told { WritesMore self.old.whole (W.contents self.old.stream) self.old.unsent.items self.new.whole (W.contents self.new.stream) self.new.unsent.items [] }
        ensures view { self.new.view ≡ self.old.view }
        ensures unsent { self.new.unsent.items ≡ [] }
    {
        self.whole = tell(&mut self.stream, self.whole, &self.unsent);
        self.unsent.clear();
    }

    /// Sends what isn't sent yet, where there is no more room for it.
    fn send_full(&mut self)
        ensures told { WritesMore self.old.whole (W.contents self.old.stream) self.old.unsent.items self.new.whole (W.contents self.new.stream) self.new.unsent.items [] }
        ensures view { self.new.view ≡ self.old.view }
    {
        if self.unsent.len() > self.room {
            self.send();
        }
    }
}

impl<W: Write> Lines<W> {
    /// Nothing is written yet. So many bytes are kept before they are sent; with 0 the lines of each cycle are sent when it ends.
    pub fn new(alloc: Global, view: View, room: usize, stream: W) -> Lines<W>
        ensures view { result.view ≡ view }
        ensures whole { IsOk result.whole }
        ensures written { IsWritten (W.contents stream) result.whole (W.contents result.stream) result.unsent.items [] }
    {
        Lines {
            alloc,
            view,
            room,
            unsent: Vec::new(alloc),
            whole: Ok(()),
            stream,
        }
    }

    /// Sends what isn't sent yet. Gives back the stream, and whether it took all; if it refused some, it has a front of what was written.
    pub fn end(self) -> (W, Result<(), Refused>)
        ensures { (opening : Option (List ℕ)) (text : List ℕ) → IsWritten opening self.whole (W.contents self.stream) self.unsent.items text
            → IsTold result.1 opening (W.contents result.0) text }
    {
        let mut lines = self;
        lines.send();
        let Lines { whole, stream, .. } = lines;
        (stream, whole)
    }
}

impl<W: Write> Watch for Lines<W> {
    ghost tells = { λ old new log. (new.view ≡ old.view)
        × WritesMore old.whole (W.contents old.stream) old.unsent.items new.whole (W.contents new.stream) new.unsent.items (trace_lines old.view log) };

    fn insn(&mut self, cycle: u64, placed: &Placed, state: &State) -> Result<(), AllocError> {
        push_insn(
            &mut self.unsent,
            self.alloc,
            &self.view,
            cycle,
            placed,
            state,
        )
    }

    fn landings(&mut self, cycle: u64, writes: &[Due]) -> Result<(), AllocError> {
        push_landings(&mut self.unsent, &self.view, cycle, writes)?;
        self.send_full();
        Ok(())
    }

    ghost nothing = { λ watch. (refl, writes_none watch.whole (W.contents watch.stream) watch.unsent.items) };

    ghost more = { λ old middle new told others first second. told_on old.view middle.view new.view old.whole middle.whole new.whole
        (W.contents old.stream) (W.contents middle.stream) (W.contents new.stream)
        old.unsent.items middle.unsent.items new.unsent.items told others first second };
}
