//! What is promised of the trips of loops (docs/CHECK.md, "The command").

ghost use Rattle.std.specs.Prelude.{◌≡◌, ◌≤◌, length, map, not};
ghost use Rattle.std.specs.List.{list_any, position};
ghost use Rattle.std.specs.Option.{option_copied};
ghost use Rattle.c62_read.specs.declared.limits.TheConstants.{MOST_BLOCKS};
ghost use Rattle.c62_command.specs.Promises.{trips_of};
ghost use Rattle.c62_check_loops.specs.Granted.{first_loopless, has_label, is_enough, is_granted, is_granted_by, is_loop_named, names_loop};

use crate::covered::is_loop;
use c62_command::Trips;
use c62_read::Block;

/// Whether so many trips are promised of the loop of a label.
fn is_granted_by(trips: &Trips, label: &[u8], least: u32) -> bool
    ensures { result ≡ is_granted_by label.now least (trips_of trips.now) }
{
    trips.label.as_slice() == label && least <= trips.least
}

/// Whether one of these promises so many trips of the loop of a label.
fn any_grants(trips: &[Trips], label: &[u8], least: u32) -> bool
    ensures { result ≡ list_any (λ each. is_granted_by label.now least (trips_of each)) trips.now }
{
    trips.iter().any(|each| is_granted_by(each, label, least))
}

/// Whether one of these promises at least so many trips of the loop of a label (docs/CHECK.md, "The command").
fn is_granted(trips: &[Trips], label: &[u8], least: u32) -> bool
    ensures { result ≡ is_granted (map trips_of trips.now) label.now least }
{
    any_grants(trips, label, least)
}

/// Whether so many trips of the loop of a label are sure: where the text sets its counter to a constant, that counts, and else what is
/// promised (docs/CHECK.md, "The command").
pub fn is_enough(trips: &[Trips], label: &[u8], constant: Option<u32>, least: u32) -> bool
    ensures { result ≡ is_enough (map trips_of trips.now) label.now constant least }
{
    match constant {
        Some(made) => least <= made,
        None => is_granted(trips, label, least),
    }
}

/// Whether there is a block, and has this label.
fn has_label(block: Option<&Block>, label: &[u8]) -> bool
    ensures { result ≡ has_label (option_copied block.entry) label.now }
{
    match block {
        Some(block) => match block.label() {
            Some(own) => own.as_bytes() == label,
            None => false,
        },
        None => false,
    }
}

/// Whether the block of this number is a loop of this label.
fn is_loop_named(blocks: &[Block], number: u8, label: &[u8]) -> bool
    ensures { result ≡ is_loop_named blocks.now label.now number }
{
    is_loop(blocks, number) && has_label(blocks.get(usize::from(number)), label)
}

/// Whether one of the blocks is a loop of this label.
#[tactic(auto, using(crate::proofs::Granting::names_next))]
fn names_loop(blocks: &[Block], label: &[u8]) -> bool
    requires { length blocks.now ≤ MOST_BLOCKS }
    ensures { result ≡ names_loop blocks.now label.now (length blocks.now) }
{
    let mut found = false;
    for number in 0..blocks.len() {
        found = found || is_loop_named(blocks, number as u8, label);
    }
    found
}

/// The index of the first of these whose label is that of no loop.
fn loopless_at(blocks: &[Block], trips: &[Trips]) -> Option<usize>
    requires { length blocks.now ≤ MOST_BLOCKS }
    ensures { result ≡ position (λ each. not (names_loop blocks.now each.label.items (length blocks.now))) trips.now }
{
    trips
        .iter()
        .position(|each| !names_loop(blocks, &each.label))
}

/// The number, from 1, of the first of these whose label is that of no loop.
pub fn first_loopless(blocks: &[Block], trips: &[Trips]) -> Option<usize>
    requires { length blocks.now ≤ MOST_BLOCKS }
    ensures { result ≡ first_loopless blocks.now (map trips_of trips.now) }
{
    match loopless_at(blocks, trips) {
        Some(index) => Some(index + 1),
        None => None,
    }
}
