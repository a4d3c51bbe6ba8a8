//! Who touched a byte first in a stay, and which accesses met.

ghost use Rattle.std.specs.Prelude.{◌≡◌, ◌≤◌, ◌<◌, ◌++◌, ◌==◌, [], ◌∷◌, length, slice_set, slice_index, All, IfOk, OnOk, Some, None};
ghost use Rattle.c62_serial.specs.declared.state.TheConstants.{MEMORY_BYTES as bytes};
ghost use Rattle.c62_apart.specs.Marks.{IsWatched, Sees, no_mark, other_than, said_in, with_touch};
ghost use Rattle.c62_apart.specs.Met.{has_line, meeting_with, with_meetings, with_meeting};
ghost use Rattle.std.specs.Option.{option_to_list};

use crate::touch::Touch;
use c62_insn::Reg;
use c62_serial::MEMORY_BYTES;
use std::alloc::{AllocError, Global};

/// Two accesses that are promised to be apart, and touch one byte in two iterations of a loop.
#[derive(Clone, Copy, PartialEq, Eq, Debug)]
pub struct Meeting {
    pub earlier: Touch,
    pub later: Touch,
}

/// Who touched a byte.
#[derive(Clone, Copy, Debug)]
pub(crate) struct Mark {
    /// The first that did so in its stay.
    pub(crate) first: Option<Touch>,
    /// The first from another register than that.
    pub(crate) other: Option<Touch>,
}

const UNTOUCHED: Mark = Mark {
    first: None,
    other: None,
};

impl Mark {
    /// What it says in this stay.
    fn said_in(self, stay: u32) -> Mark
        ensures { result ≡ said_in stay self }
    {
        match self.first {
            Some(first) if first.visit.stay == stay => self,
            _ => UNTOUCHED,
        }
    }

    /// The first touch from another register.
    fn other_than(self, base: Reg) -> Option<Touch>
        ensures { result ≡ other_than base self }
    {
        match self.first {
            Some(first) => if first.base == base {
                self.other
            } else {
                Some(first)
            },
            None => None,
        }
    }

    /// It after one touch more.
    fn with(self, touch: Touch) -> Mark
        ensures { result ≡ with_touch touch self }
    {
        match (self.first, self.other) {
            (None, _) => Mark {
                first: Some(touch),
                other: None,
            },
            (Some(first), None) => if touch.base == first.base {
                self
            } else {
                Mark {
                    first: Some(first),
                    other: Some(touch),
                }
            },
            (Some(_), Some(_)) => self,
        }
    }
}

/// The meeting of a touch with this one, where that was in an iteration before.
fn meeting_with(one: Option<Touch>, touch: Touch) -> Option<Meeting>
    ensures { result ≡ meeting_with one touch }
{
    match one {
        Some(one) => if one.visit.iteration < touch.visit.iteration {
            Some(Meeting {
                earlier: one,
                later: touch,
            })
        } else {
            None
        },
        None => None,
    }
}

/// Whether a meeting of this later line is among these.
fn has_line(met: &[Meeting], line: u32) -> bool
    ensures { result ≡ has_line line met.now }
{
    met.iter().any(|meeting| line == meeting.later.line)
}

/// Adds a meeting, where none of its later line is there.
fn add_meeting(met: &mut Vec<Meeting>, meeting: Meeting) -> Result<(), AllocError>
    ensures { OnOk result (met.new.items ≡ with_meeting met.old.items meeting) }
{
    if has_line(met, meeting.later.line) {
        return Ok(());
    }
    met.push(meeting)?;
    Ok(())
}

/// Adds a meeting, where there is one.
fn add_met(met: &mut Vec<Meeting>, meeting: Option<Meeting>) -> Result<(), AllocError>
    ensures { OnOk result (met.new.items ≡ with_meetings met.old.items (option_to_list meeting)) }
{
    match meeting {
        Some(meeting) => add_meeting(met, meeting),
        None => Ok(()),
    }
}

/// What was seen of a run so far.
#[derive(Drop)]
pub(crate) struct Watch {
    /// Of each byte of memory.
    marks: Vec<Mark>,
    /// The meetings, of each later line the first.
    pub(crate) met: Vec<Meeting>,
}

impl Watch {
    /// Nothing was seen.
    #[tactic(auto, using(crate::proofs::Watching::watched_none))]
    pub(crate) fn new(alloc: Global) -> Result<Watch, AllocError>
        ensures { IfOk result (λ watch. IsWatched [] 0 watch.marks.items watch.met.items) }
    {
        Ok(Watch {
            marks: vec![in alloc; UNTOUCHED; MEMORY_BYTES]?,
            met: Vec::new(alloc),
        })
    }

    /// Sees a touch, behind those that were seen.
    #[tactic(auto, using(crate::proofs::Watching::sees_one))]
    fn see(&mut self, touch: Touch) -> Result<(), AllocError>
        requires size { length self.old.marks.items ≡ bytes }
        requires byte { touch.byte < bytes }
        ensures size { OnOk result (length self.new.marks.items ≡ bytes) }
        ensures sees { OnOk result (Sees touch.visit.stay (touch ∷ []) self.old.marks.items self.old.met.items self.new.marks.items self.new.met.items) }
    {
        let byte = touch.byte as usize;
        let mark = self.marks[byte].said_in(touch.visit.stay);
        let meeting = meeting_with(mark.other_than(touch.base), touch);
        self.marks[byte] = mark.with(touch);
        add_met(&mut self.met, meeting)
    }

    /// Sees these touches of one visit.
    #[tactic(auto, using(crate::proofs::Watching::sees_none, crate::proofs::Watching::sees_more))]
    pub(crate) fn see_all(&mut self, stay: u32, touches: &[Touch]) -> Result<(), AllocError>
        requires size { length self.old.marks.items ≡ bytes }
        requires stay { All (λ touch. touch.visit.stay ≡ stay) touches.now }
        requires bytes { All (λ touch. touch.byte < bytes) touches.now }
        ensures size { OnOk result (length self.new.marks.items ≡ bytes) }
        ensures sees { OnOk result (Sees stay touches.now self.old.marks.items self.old.met.items self.new.marks.items self.new.met.items) }
    {
        for touch in touches {
            self.see(*touch)?;
        }
        Ok(())
    }
}
