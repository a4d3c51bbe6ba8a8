//! How often each row of a text is begun in a run, and how many of its cycles are the row's.

ghost use Rattle.std.specs.Prelude.{◌≡◌, ◌+◌, ◌<◌, ◌≤◌, ◌^◌, All, IfOk, length};
ghost use Rattle.c62_exec.specs.Counts.{AreBelow, IsFresh, closed, with_run};

use std::alloc::{AllocError, Global};

/// How often a row was begun, and how many cycles were its own: each cycle is one of the row that was begun last.
#[derive(Clone, Copy, PartialEq, Eq, Debug)]
pub struct Count {
    pub runs: u64,
    pub cycles: u64,
}

const NOTHING: Count = Count { runs: 0, cycles: 0 };

/// What has been counted of a run.
#[derive(Drop)]
pub(crate) struct Tally {
    /// Of each row, and of all rows behind the last; none where nothing is counted.
    pub counts: Vec<Count>,
    /// The row that was begun last. Before the first is, it has no count.
    pub row: usize,
    /// The cycle in which it was begun.
    pub start: u64,
}

impl Tally {
    /// Of so many rows none was begun yet.
    pub(crate) fn new(alloc: Global, rows: usize) -> Result<Tally, AllocError>
        ensures { IfOk result (IsFresh rows) }
    {
        Ok(Tally {
            counts: vec![in alloc; NOTHING; rows]?,
            row: rows,
            start: 0,
        })
    }

    /// Nothing is counted.
    pub(crate) fn none(alloc: Global) -> Tally
        ensures { IsFresh 0 result }
    {
        Tally {
            counts: Vec::new(alloc),
            row: 0,
            start: 0,
        }
    }

    /// The cycles before this one were those of the row that was begun last.
    pub(crate) fn close(&mut self, cycle: u64)
        requires { All (λ count. count.cycles ≤ self.old.start) self.old.counts.items }
        ensures counts { self.new.counts.items ≡ closed cycle self.old }
        ensures row { self.new.row ≡ self.old.row }
        ensures start { self.new.start ≡ self.old.start }
    {
        if self.row < self.counts.len() {
            self.counts[self.row].cycles += cycle.saturating_sub(self.start);
        }
    }

    /// This row is begun in this cycle.
    #[tactic(auto, using(crate::proofs::Tallies::below_next, crate::proofs::Tallies::below_closed))]
    pub(crate) fn begin(&mut self, row: usize, cycle: u64)
        requires below { AreBelow cycle self.old }
        requires soon { cycle < 2 ^ 63 }
        ensures counts { self.new.counts.items ≡ with_run row (closed cycle self.old) }
        ensures row { self.new.row ≡ row }
        ensures start { self.new.start ≡ cycle }
        ensures below { AreBelow (cycle + 1) self.new }
    {
        self.close(cycle);
        if row < self.counts.len() {
            self.counts[row].runs += 1;
        }
        self.row = row;
        self.start = cycle;
    }
}
