//! Blocks of the rows of a text that is run with everything in flight, and how often these rows were begun.

ghost use Rattle.std.specs.Prelude.{◌≡◌, ◌-◌, ◌<◌, ◌≤◌, ◌^◌, take, drop};
ghost use Rattle.c62_profile.specs.Flights.{block_of, counts_in, cycles_of, is_told, runs_of};

use c62_exec::Count;
use c62_rows::Key;

/// The rows from one to the one above another.
#[derive(Drop)]
pub struct Block<'a> {
    /// The label of the first, if it has one.
    pub label: Option<&'a Key>,
    pub first: usize,
    pub behind: usize,
}

/// How often the first of these rows was begun.
pub fn runs_of(counts: &[Count]) -> u64
    ensures { result ≡ runs_of counts.now }
{
    match counts {
        [] => 0,
        [count, ..] => count.runs,
    }
}

/// How many cycles were those of these rows.
pub fn cycles_of(counts: &[Count]) -> u64
    requires { cycles_of counts.now < 2 ^ 64 }
    ensures { result ≡ cycles_of counts.now }
{
    let mut sum = 0;
    for count in counts {
        sum += count.cycles;
    }
    sum
}

/// The counts from a place on.
pub fn from_place(counts: &[Count], place: usize) -> &[Count]
    ensures { result.now ≡ drop place counts.now }
{
    if place < counts.len() {
        &counts[place..]
    } else {
        &[]
    }
}

/// At most so many of the counts.
fn at_most(counts: &[Count], most: usize) -> &[Count]
    ensures { result.now ≡ take most counts.now }
{
    if most < counts.len() {
        &counts[..most]
    } else {
        counts
    }
}

/// The counts of a block's rows.
pub fn counts_in<'a>(counts: &'a [Count], block: &Block<'_>) -> &'a [Count]
    ensures { result.now ≡ counts_in counts.now (block_of block.now) }
{
    at_most(
        from_place(counts, block.first),
        block.behind.saturating_sub(block.first),
    )
}

/// Whether a block is told: what is above the first label is where it has a row.
pub fn is_told(block: &Block<'_>) -> bool
    ensures { result ≡ is_told (block_of block.now) }
{
    block.label.is_some() || block.first < block.behind
}
