//! How much of each resource the instructions of a cycle take: a field of four bits for each resource, sixteen in a word, so
//! that whether one more instruction fits is an addition and a mask.

ghost use Rattle.std.specs.Prelude.{◌≡◌, ◌↔◌, ℕ, ◌+◌, ◌-◌, ◌<◌, ◌≤◌, ◌==◌, min, if◌then◌else◌, IsTrue, MatchOption};
ghost use Rattle.c62_rules.specs.Resource.{place_of};
ghost use Rattle.c62_row.specs.Fields.{count_at};
ghost use Rattle.c62_row.specs.Fields.{field_at, EachField, EachPlace, IsClear, IsFirstHigh, AreBelow};

use c62_insn::{Insn, Unit};
use c62_rules::{CycleRule, Resource, taken_by};

/// The highest bit of each field of a word.
const GUARDS: u64 = 0x8888_8888_8888_8888;

/// Where nothing is taken: so far below 8 that more than there is makes 8.
const START: [u64; 3] = [
    0x3333_6666_6666_6666,
    0x3333_3333_3333_3333,
    0x0000_3333_3333_3333,
];

/// The sum of two words of which no field carries.
fn sum(one: u64, other: u64) -> u64
    requires { EachField (λ j. count_at one j + count_at other j < 16) }
    ensures { EachField (λ j. count_at result j ≡ count_at one j + count_at other j) }
{
    one + other
}

/// The difference of two words of which no field borrows.
fn difference(one: u64, other: u64) -> u64
    requires { EachField (λ j. count_at other j ≤ count_at one j) }
    ensures { EachField (λ j. count_at result j ≡ count_at one j - count_at other j) }
{
    one - other
}

/// A word with one more in a field.
fn one_more(word: u64, field: u8) -> u64
    requires within { field < 16 }
    requires few { EachField (λ j. count_at word j < 15) }
    ensures { EachField (λ j. count_at result j ≡ count_at word j + (if field == j then 1 else 0)) }
{
    sum(word, 1 << (4 * field))
}

/// A word with 8 in each field that has more.
fn capped(word: u64) -> u64
    ensures { EachField (λ j. count_at result j ≡ min 8 (count_at word j)) }
{
    let high = word & GUARDS;
    word & !(high - (high >> 3))
}

/// Whether all fields of three words are below 8.
fn are_clear(one: u64, two: u64, three: u64) -> bool
    ensures { IsTrue result ↔ (IsClear one × IsClear two × IsClear three) }
{
    (one | two | three) & GUARDS == 0
}

/// The first field of a word that is 8 or more.
fn first_high(word: u64) -> Option<u8>
    ensures { MatchOption result (IsClear word) (IsFirstHigh word) }
{
    let high = word & GUARDS;
    if high == 0 {
        None
    } else {
        Some((high.trailing_zeros() / 4) as u8)
    }
}

/// One more of a resource.
fn add(words: &mut [u64; 3], resource: Resource)
    requires { AreBelow 15 words.old }
    ensures { EachPlace (λ place. field_at words.new place ≡ field_at words.old place + (if place_of resource == place then 1 else 0)) }
{
    let place = resource.place();
    let at = usize::from(place / 16);
    words[at] = one_more(words[at], place % 16);
}

/// How much an instruction issued on a unit takes of each resource.
#[derive(Clone, Copy)]
pub struct Uses {
    words: [u64; 3],
    /// No instruction takes more than seven of a resource.
    pub ghost few: { AreBelow 8 words },
}

impl Uses {
    ghost use Rattle.c62_row.specs.Row.{AreUses};

    /// What an instruction issued on a unit takes.
    pub fn of(insn: Insn, unit: Unit) -> Uses
        ensures { AreUses result insn unit }
    {
        let mut words = [0; 3];
        for resource in taken_by(insn, unit).as_slice() {
            add(&mut words, *resource);
        }
        Uses { words }
    }
}

/// What the instructions of a cycle take, beside what there is.
#[derive(Clone, Copy)]
pub struct Row {
    words: [u64; 3],
    /// More than there is is 8.
    pub ghost small: { AreBelow 9 words },
}

impl Row {
    ghost use Rattle.c62_row.specs.Row.{IsUnused, Fits, Tells, IsWith, IsWithout, IsWithin};

    /// What no instruction takes.
    pub fn new() -> Row
        ensures { IsUnused result }
    {
        Row { words: START }
    }

    /// Whether there is enough for an instruction that takes so much too.
    pub fn fits(&self, uses: &Uses) -> bool
        ensures { IsTrue result ↔ Fits self.now uses.now }
    {
        are_clear(
            sum(self.words[0], uses.words[0]),
            sum(self.words[1], uses.words[1]),
            sum(self.words[2], uses.words[2]),
        )
    }

    /// The first packet rule that is broken together with an instruction that takes so much.
    pub fn rule_against(&self, uses: &Uses) -> Option<CycleRule>
        ensures { Tells self.now uses.now result }
    {
        if let Some(place) = first_high(sum(self.words[0], uses.words[0])) {
            return Some(CycleRule::at(place));
        }
        if let Some(place) = first_high(sum(self.words[1], uses.words[1])) {
            return Some(CycleRule::at(16 + place));
        }
        if let Some(place) = first_high(sum(self.words[2], uses.words[2])) {
            return Some(CycleRule::at(32 + place));
        }
        None
    }

    /// Takes so much too.
    pub fn add(&mut self, uses: &Uses)
        ensures { IsWith self.old self.new uses.now }
    {
        let words = [
            capped(sum(self.words[0], uses.words[0])),
            capped(sum(self.words[1], uses.words[1])),
            capped(sum(self.words[2], uses.words[2])),
        ];
        *self = Row { words };
    }

    /// Frees so much, of what is taken.
    pub fn remove(&mut self, uses: &Uses)
        requires { IsWithin self.old uses.now }
        ensures { IsWithout self.old self.new uses.now }
    {
        let words = [
            difference(self.words[0], uses.words[0]),
            difference(self.words[1], uses.words[1]),
            difference(self.words[2], uses.words[2]),
        ];
        *self = Row { words };
    }
}
