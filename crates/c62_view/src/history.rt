//! The one history of a desk. It exists in the proofs alone: what runs is a word with its length, and counts.
ghost use Rattle.std.specs.Prelude.{◌≡◌, ◌+◌, ◌<◌, ◌^◌, ◌++◌, ◌∷◌, ◌↔◌, [], length, IsTrue, MatchBool};
ghost use Rattle.std.specs.Bool.{OnTrue};
ghost use mathlib.Core.List.{IsPrefix};
ghost use Rattle.c62_view.specs.Past.{head_of};

use c62_board::Entry;
use logbook::{Gain, Offer, Plain, Play, Rule, Seen, Start, Word};
use std::marker::Model;
use std::sync::Wait;

/// The rule of the history.
pub struct Growth;

impl Rule<Entry, u64> for Growth {
    ghost use Rattle.std.specs.Prelude.{[]};
    ghost use base.Fml.{ftrue};
    ghost use Rattle.c62_view.specs.Past.{IsCounted};

    ghost holds = { λ cells log. IsCounted cells log };

    ghost first = { [] };

    ghost hinted = { λ n log. Unit {0} };

    ghost shows = { λ log. [] };

    ghost keeps = { λ names log. ftrue };

    ghost moves = { λ ask before after answer. Unit {0} };
}

/// A step that trades nothing with its client.
pub struct NoTrade;

impl Gain<Entry, u64> for NoTrade {
    ghost use base.Fml.{ftrue};

    ghost after = { λ names about answer. ftrue };
}

/// A step that adds an entry to the history.
pub struct AddEntry;

impl Play<Entry, u64> for AddEntry {
    ghost use Rattle.c62_view.specs.Past.{Adds};

    ghost then = { Adds };
}

/// What a step asks for: the entry.
impl Plain<Entry, Entry, u64> for AddEntry {
    ghost use Rattle.std.specs.Prelude.{None};

    ghost ask = { λ entry. entry };

    ghost state = { λ entry. None };
}

/// The word with the length of the history.
pub type Head = Word<Entry, u64, Growth>;

/// A beginning of a desk's history. Contracts see it as its `Past`.
#[derive(Drop)]
pub struct Front {
    count: u64,
    seen: Seen<Entry, u64, Growth>,
}

impl Model for Front {
    ghost use Rattle.std.specs.Prelude.{◌≡◌, length};
    ghost use Rattle.c62_view.specs.Past.{Past};

    ghost Value = { Past };

    ghost view = { λ f. record { book = f.seen.book; log = f.seen.log } };

    ghost invariant = { λ f. f.count ≡ length f.seen.log };
}

/// A new history, which is empty.
pub fn open() -> (Head, Front)
    ensures head { result.0 ≡ head_of result.1.book }
    ensures empty { result.1.log ≡ [] }
{
    let (seen, mut first, _second) = Seen::open(Start::alone(), 0, 0);
    let head = Word::tracked(0, &mut first);
    (head, Front { count: 0, seen })
}

impl Front {
    /// A copy.
    pub fn again(&self) -> Front
        ensures { result ≡ self.now }
    {
        Front {
            count: self.count,
            seen: self.seen.again(),
        }
    }

    /// How many entries it has.
    pub fn len(&self) -> u64
        ensures { result ≡ length self.now.log }
    {
        self.count
    }

    /// Whether this beginning of a history begins another one of the same history, as it does where the two are equal. If not,
    /// the other one begins it.
    pub fn begins(&self, other: &Front) -> bool
        requires { other.now.book ≡ self.now.book }
        ensures begins { IsTrue result ↔ IsPrefix self.now.log other.now.log }
        ensures begun { MatchBool result (IsPrefix self.now.log other.now.log) (IsPrefix other.now.log self.now.log) }
    {
        let mut both = self.seen.again();
        both.learn(&other.seen);
        self.count <= other.count
    }

    // It did not where the history is longer.
    fn add(&mut self, head: &Head, entry: Entry) -> bool
        requires head { head.now ≡ head_of self.old.book }
        requires room { length self.old.log + 1 < 2 ^ 64 }
        ensures book { self.new.book ≡ self.old.book }
        ensures added { OnTrue result (self.new.log ≡ self.old.log ++ entry ∷ []) }
    {
        let mut seen = self.seen.again();
        let mut offer: Offer<Entry, u64, Growth, NoTrade> = seen.plain::<NoTrade, Entry, AddEntry>(
            &entry,
        );
        let mut pen = seen.no_pen();
        let count = self.count;
        let found = head.compare_exchange::<AddEntry, NoTrade>(
            count,
            count + 1,
            &mut seen,
            &mut offer,
            &mut pen,
        );
        if found == count {
            *self = Front {
                count: count + 1,
                seen,
            };
            true
        } else {
            false
        }
    }

    /// Adds an entry to the history. The owner of the word is the only one that adds, so the first try does it.
    pub fn added<R: Wait>(self, rt: &R, head: &Head, entry: Entry) -> Front
        requires head { head.now ≡ head_of self.book }
        requires room { length self.log + 1 < 2 ^ 64 }
        ensures book { result.book ≡ self.book }
        ensures added { result.log ≡ self.log ++ entry ∷ [] }
    {
        for _ in rt.forever() {
            let mut next = self.again();
            if next.add(head, entry) {
                return next;
            }
        }
        unreachable!()
    }

    /// Adds these entries to the history.
    pub fn added_all<R: Wait>(self, rt: &R, head: &Head, entries: &[Entry]) -> Front
        requires head { head.now ≡ head_of self.book }
        requires room { length self.log + length entries.now < 2 ^ 64 }
        ensures book { result.book ≡ self.book }
        ensures added { result.log ≡ self.log ++ entries.now }
    {
        let mut front = self;
        for k in 0..entries.len() {
            front = front.added(rt, head, entries[k]);
        }
        front
    }

    /// Adds what a list has beyond its beginning that this is.
    pub fn caught_up<R: Wait>(self, rt: &R, head: &Head, entries: &[Entry]) -> Front
        requires head { head.now ≡ head_of self.book }
        requires begins { IsPrefix self.log entries.now }
        requires room { length entries.now < 2 ^ 64 }
        ensures book { result.book ≡ self.book }
        ensures caught_up { result.log ≡ entries.now }
    {
        let from = self.count as usize;
        self.added_all(rt, head, &entries[from..])
    }
}
