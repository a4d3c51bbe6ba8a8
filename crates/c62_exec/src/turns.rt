//! Branches in flight, by the cycle in which they take effect.

ghost use Rattle.std.specs.Prelude.{◌≡◌, ℕ, ◌%◌, ◌<◌, ◌^◌, None, Some, length, slice_set, slice_index_or, is_some};
ghost use Rattle.std.specs.List.{list_any};

use c62_insn::Target;
use std::marker::Model;

/// A branch takes effect six cycles behind its issue, so those in flight do in six cycles.
const CYCLES: u64 = 6;

/// Where a branch goes, for each of six cycles in turn: a cycle's place is that of its number modulo six.
#[derive(Drop)]
pub struct Turns {
    places: [Option<Target>; CYCLES as usize],
}

impl Model for Turns {
    ghost use Rattle.std.specs.Prelude.{◌≡◌, List, Option, length};
    ghost use Rattle.c62_insn.specs.declared.effect.Target.{Target as Goes};

    ghost Value = { List (Option Goes) };

    ghost view = { λ turns. turns.places };

    ghost invariant = { λ turns. length turns.places ≡ 6 };
}

/// The place of a cycle.
fn place_of(cycle: u64) -> usize
    ensures { result ≡ cycle % 6 }
{
    (cycle % CYCLES) as usize
}

impl Turns {
    /// No branch in flight.
    pub(crate) fn new() -> Turns
        ensures none { (cycle : ℕ) → slice_index_or result (cycle % 6) None ≡ None }
        ensures size { length result ≡ 6 }
    {
        Turns {
            places: [None; CYCLES as usize],
        }
    }

    /// A branch is issued in this cycle. It takes effect six cycles on, which has the same place.
    pub(crate) fn add(&mut self, cycle: u64, target: Target)
        ensures { self.new ≡ slice_set self.old (cycle % 6) (Some target) }
    {
        self.places[place_of(cycle)] = Some(target);
    }

    /// Takes out where the branch goes that takes effect in this cycle, if one does.
    pub(crate) fn take(&mut self, cycle: u64) -> Option<Target>
        ensures turn { result ≡ slice_index_or self.old (cycle % 6) None }
        ensures rest { self.new ≡ slice_set self.old (cycle % 6) None }
    {
        self.places[place_of(cycle)].take()
    }

    /// Whether a branch is in flight.
    pub fn any(&self) -> bool
        ensures { result ≡ list_any is_some self.now }
    {
        self.places.iter().any(|place| place.is_some())
    }
}
