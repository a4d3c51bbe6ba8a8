//! How a worker learns that there may be something for it to do.

ghost use Rattle.std.specs.Prelude.{◌≡◌, ◌↔◌, IsTrue, MatchOption};
ghost use Rattle.c62_work.specs.Turns.{other_side};
ghost use Rattle.c62_work.specs.Bells.{HasNews, IsCalled};

use c62_board::{Board, Turn};
use c62_insn::Side;
use c62_view::Desk;
use std::hint::spin_loop;
use std::sync::atomic::{AtomicU64, Ordering};
use std::sync::{MutexGuard, Wait};
use std::time::Duration;

/// Nothing has come since this worker was idle.
pub const QUIET: u64 = 0;

/// The other worker called: there may be something to place.
pub const RUNG: u64 = 1;

/// Nothing has come, and this worker sleeps.
pub const ASLEEP: u64 = 2;

/// The other worker has ended, or there is none: nobody is waited for.
pub const ALONE: u64 = 3;

/// How often a worker looks before it sleeps. It never leaves its processor without sleeping: where all processors are busy
/// it would get that back late, and one that sleeps is put on when it is called.
const LOOKS: u32 = 100;

/// How many milliseconds it sleeps at most. A call wakes it before.
const NAP_MILLIS: u64 = 2;

/// What wakes the worker of one side.
#[derive(Drop)]
pub struct Bell {
    /// [`QUIET`], [`RUNG`], [`ASLEEP`] or [`ALONE`].
    pub word: AtomicU64,
}

impl Bell {
    fn new() -> Bell {
        Bell {
            word: AtomicU64::new(RUNG),
        }
    }

    /// Writes what the worker is to find, and wakes it.
    fn tell(&self, what: u64) {
        if self.word.swap(what, Ordering::SeqCst) == ASLEEP {
            self.word.wake_one();
        }
    }

    /// Calls the worker, where it is not called already and has somebody to wait for.
    pub fn ring(&self) {
        let seen = self.word.load(Ordering::SeqCst);
        if seen == QUIET || seen == ASLEEP {
            self.tell(RUNG);
        }
    }

    /// Writes `to` where the word is `from`.
    fn turns_to(&self, from: u64, to: u64) -> bool {
        self.word
            .compare_exchange(from, to, Ordering::SeqCst, Ordering::SeqCst)
            .is_ok()
    }

    /// Waits until the worker is called, where there is another one that may call it, and not for longer than it looks
    /// and naps.
    pub fn wait<R: Wait>(&self, rt: &R, nap: Duration) {
        for _ in 0..LOOKS {
            if self.word.load(Ordering::SeqCst) != QUIET {
                return;
            }
            spin_loop();
        }
        if self.turns_to(QUIET, ASLEEP) {
            self.word.park_timeout(rt, ASLEEP as u32, nap);
            self.turns_to(ASLEEP, QUIET);
        }
    }
}

/// What a worker owes behind its turn: a call of the other one, or nothing. It has no `Drop`, so it ends in
/// [`Owed::pay`]; and only [`Bells::leave`] gives one away, once the lock is free and what the turn placed is published.
pub(crate) struct Owed<'a> {
    bells: &'a Bells,
    /// Whose worker is to be called.
    called: Option<Side>,
}

impl Owed<'_> {
    /// Makes the call, where one is owed.
    pub(crate) fn pay(self) {
        let Owed { bells, called } = self;
        if let Some(side) = called {
            bells.of(side).ring();
        }
    }
}

/// A bell for each of two workers.
#[derive(Drop)]
pub struct Bells {
    /// That of side A.
    pub first: Bell,
    /// That of side B.
    pub second: Bell,
}

fn other(side: Side) -> Side
    ensures { result ≡ other_side side }
{
    match side {
        Side::A => Side::B,
        Side::B => Side::A,
    }
}

/// Whether the other side's worker may wait for what is on the board: there is something to place for it, or all is
/// placed.
fn has_news(side: Side, board: &Board) -> bool
    ensures { IsTrue result ↔ HasNews side board.now }
{
    board.pick(other(side)).is_some() || board.complete()
}

/// Whether the other side's worker is to be called behind a side's turn that came to this, and left this board.
fn is_called(side: Side, came: Turn, board: &Board) -> bool
    ensures { IsTrue result ↔ IsCalled side came board.now }
{
    match came {
        Turn::Placed(_, _) | Turn::Ejected(_, _, _) => has_news(side, board),
        Turn::Idle | Turn::Done | Turn::NoRoom(_) | Turn::Memory => false,
    }
}

impl Bells {
    /// For two workers that are both called.
    pub fn new() -> Bells {
        Bells {
            first: Bell::new(),
            second: Bell::new(),
        }
    }

    fn of(&self, side: Side) -> &Bell {
        match side {
            Side::A => &self.first,
            Side::B => &self.second,
        }
    }

    /// What a side owes behind a turn that came to this and left this board, while the lock is held: a call of the
    /// other side's worker, exactly where that is to be called. An idle turn has seen all that was placed up to then, so
    /// that the calls of before are taken back.
    fn owed(&self, side: Side, came: Turn, board: &Board) -> Owed<'_>
        ensures { MatchOption result.called (IsCalled side came board.now → ⊥)
            (λ called. IsCalled side came board.now × (called ≡ other_side side)) }
    {
        if came == Turn::Idle {
            self.of(side).turns_to(RUNG, QUIET);
        }
        let called = if is_called(side, came, board) {
            Some(other(side))
        } else {
            None
        };
        Owed {
            bells: self,
            called,
        }
    }

    /// Lets the lock go behind a side's turn, which came to this on the desk behind it, and answers what the side owes
    /// then. A call made before would come too early: the other worker would sleep for the lock.
    pub(crate) fn leave(&self, side: Side, came: Turn, guard: MutexGuard<'_, Desk>) -> Owed<'_> {
        let owed = self.owed(side, came, guard.board());
        MutexGuard::unlock(guard);
        owed
    }

    /// A side's worker that was idle waits a while.
    pub(crate) fn rest<R: Wait>(&self, rt: &R, side: Side) {
        self.of(side).wait(rt, Duration::from_millis(NAP_MILLIS));
    }

    /// A side's worker has ended, or there is none.
    pub fn ended(&self, side: Side) {
        self.of(other(side)).tell(ALONE);
    }
}
