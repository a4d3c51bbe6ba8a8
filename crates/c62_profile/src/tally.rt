//! What has been counted of a run.

ghost use Rattle.std.specs.Prelude.{◌≡◌, ◌+◌, ◌<◌, ◌≤◌, ◌*◌, [], IfOk, length, slice_set, slice_index_or};
ghost use Rattle.c62_profile.specs.Visits.{AreVisits};

use c62_serial::{Chain, End};
use std::alloc::{AllocError, Global};

/// A run of blocks, and how often each of them was run.
#[derive(Debug, Drop)]
pub struct Tally {
    /// How many blocks were run.
    pub blocks: u32,
    /// What they took together: the cycles of packets, or the instructions of serial blocks.
    pub taken: u64,
    /// How often each block was run, by its number.
    pub visits: Vec<u32>,
}

impl Tally {
    /// Nothing has been run of so many blocks.
    pub(crate) fn new(alloc: Global, count: usize) -> Result<Tally, AllocError>
        ensures blocks { IfOk result (λ tally. tally.blocks ≡ 0) }
        ensures taken { IfOk result (λ tally. tally.taken ≡ 0) }
        ensures visits { IfOk result (λ tally. AreVisits count [] tally.visits.items) }
    {
        Ok(Tally {
            blocks: 0,
            taken: 0,
            visits: vec![in alloc; 0; count]?,
        })
    }

    /// The block of this number was run, and took so much.
    pub(crate) fn add(&mut self, number: usize, taken: u16)
        requires inside { number < length self.old.visits.items }
        requires blocks { self.old.blocks < 4_294_967_295 }
        requires few { slice_index_or self.old.visits.items number 0 ≤ self.old.blocks }
        requires total { self.old.taken ≤ 65_535 * self.old.blocks }
        ensures blocks { self.new.blocks ≡ self.old.blocks + 1 }
        ensures taken { self.new.taken ≡ self.old.taken + taken }
        ensures visits { self.new.visits.items ≡ slice_set self.old.visits.items number (slice_index_or self.old.visits.items number 0 + 1) }
    {
        self.blocks += 1;
        self.taken += u64::from(taken);
        self.visits[number] += 1;
    }

    /// The chain of the blocks that were run, where it ended so.
    pub(crate) fn ended(&self, stop: End) -> Chain
        ensures { result ≡ record { blocks = self.now.blocks; stop = stop } }
    {
        Chain {
            blocks: self.blocks,
            stop,
        }
    }
}
