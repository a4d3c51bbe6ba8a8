//! Sets of instructions of a block, by their numbers.

ghost use Rattle.std.specs.Prelude.{◌≡◌, ◌==◌, ◌<◌, ◌||◌, ◌&&◌, ℕ, false};

use c62_read::MOST_INSTRUCTIONS;

/// A set of numbers of instructions, with a bit for each number that a block may have.
#[derive(Clone, Copy)]
pub(crate) struct NumberSet {
    words: [u64; 4],
}

impl NumberSet {
    ghost use Rattle.c62_depend.specs.NumberSet.{number_in, IsNext};

    /// The set without numbers.
    pub fn new() -> NumberSet
        ensures { (k : ℕ) → number_in result k ≡ false }
    {
        NumberSet { words: [0; 4] }
    }

    /// The set with number `k` added.
    pub fn with(self, k: usize) -> NumberSet
        requires { k < MOST_INSTRUCTIONS }
        ensures { (other : ℕ) → number_in result other ≡ (number_in self other || (other == k)) }
    {
        let mut words = self.words;
        words[k / 64] |= 1 << (k % 64);
        NumberSet { words }
    }

    /// The set with number `k` added, where that applies.
    pub fn with_if(self, k: usize, applies: bool) -> NumberSet
        requires { k < MOST_INSTRUCTIONS }
        ensures { (other : ℕ) → number_in result other ≡ (number_in self other || (applies && (other == k))) }
    {
        if applies { self.with(k) } else { self }
    }

    /// The numbers of both sets.
    pub fn joined(self, other: NumberSet) -> NumberSet
        ensures { (k : ℕ) → number_in result k ≡ (number_in self k || number_in other k) }
    {
        let [a, b, c, d] = self.words;
        let [p, q, r, s] = other.words;
        NumberSet {
            words: [a | p, b | q, c | r, d | s],
        }
    }

    /// Whether number `k` is in the set.
    pub fn has(self, k: usize) -> bool
        requires { k < MOST_INSTRUCTIONS }
        ensures { result ≡ number_in self k }
    {
        (self.words[k / 64] >> (k % 64)) % 2 == 1
    }

    /// The least number of the set from this one on, if there is one.
    pub fn next(self, from: usize) -> Option<usize>
        ensures { IsNext self from result }
    {
        let mut at = from;
        while at < MOST_INSTRUCTIONS {
            let rest = self.words[at / 64] >> (at % 64);
            if rest != 0 {
                return Some(at + rest.trailing_zeros() as usize);
            }
            at = (at / 64 + 1) * 64;
        }
        None
    }
}
