//! Instances of iterations past the last, which the serial loop lacks (docs/CHECK.md, "Past the end").

ghost use Rattle.std.specs.Prelude.{◌≡◌, ◌+◌, ◌<◌, ◌≤◌, ℕ, map, length, slice_get, slice_index_or, All, Contains, IfOk, IfSome, IsFalse};
ghost use Rattle.std.specs.Bool.{OnTrue};
ghost use Rattle.c62_op.specs.Shape.{is_store};
ghost use Rattle.c62_insn.specs.Insn.{op_of};
ghost use Rattle.c62_loop_match.specs.Parts.{stage_of};
ghost use Rattle.c62_loop_match.specs.Beyond.{instance_in, IsBegun, AreBegun, HoldsNumbers, IsHeldAt};

use crate::parts::Stage;
use crate::path::{Instance, instance_of};
use crate::stands::{all_stand_as, stands_as};
use c62_read::SerialInsn;
use std::alloc::{AllocError, Global};

/// An instance of an iteration past the last.
#[derive(Clone, Copy, PartialEq, Eq)]
pub struct Beyond {
    /// The place of its instruction in the work of the loop's block.
    pub place: usize,
    /// The number of its iteration, where the kernel isn't passed at all.
    pub number: u8,
}

/// The instruction at a place, and another one where there is none.
fn entry_at(work: &[SerialInsn], place: usize, other: SerialInsn) -> SerialInsn
    ensures { result ≡ slice_index_or work.now place other }
{
    match work.get(place) {
        Some(entry) => *entry,
        None => other,
    }
}

/// The instructions of these.
///
/// # Errors
///
/// `AllocError` where memory ran out.
pub(crate) fn past_work(
    alloc: Global,
    work: &[SerialInsn],
    beyond: &[Beyond],
    other: SerialInsn,
) -> Result<Vec<SerialInsn>, AllocError>
    ensures { IfOk result (λ past. past.items ≡ map (λ one. slice_index_or work.now one.place other) beyond.now) }
{
    beyond
        .iter()
        .map(|one| entry_at(work, one.place, other))
        .collect(alloc)
}

fn stores(entry: &SerialInsn) -> bool
    ensures { result ≡ is_store (op_of entry.now.insn) }
{
    entry.insn.op().is_store()
}

/// Whether none of these instructions stores.
pub(crate) fn store_nothing(past: &[SerialInsn]) -> bool
    ensures { OnTrue result (All (λ entry. IsFalse (is_store (op_of entry.insn))) past.now) }
{
    for entry in past {
        if stores(entry) {
            return false;
        }
    }
    true
}

/// The instance, where the kernel is passed so often.
fn instance_in(stages: &[Stage], interval: u16, passes: u8, one: &Beyond) -> Instance
    ensures { result ≡ instance_in interval passes one.now.number (slice_get stages.now one.now.place) }
{
    match stages.get(one.place) {
        Some(stage) => instance_of(
            stage,
            interval,
            u16::from(passes),
            u16::from(passes) + u16::from(one.number),
        ),
        None => Instance { cycle: 0, line: 0 },
    }
}

/// The instances of these.
///
/// # Errors
///
/// `AllocError` where memory ran out.
pub(crate) fn past_instances(
    alloc: Global,
    stages: &[Stage],
    interval: u16,
    passes: u8,
    beyond: &[Beyond],
) -> Result<Vec<Instance>, AllocError>
    ensures { IfOk result (λ past. past.items ≡ map (λ one. instance_in interval passes one.number (slice_get stages.now one.place)) beyond.now) }
{
    beyond
        .iter()
        .map(|one| instance_in(stages, interval, passes, one))
        .collect(alloc)
}

/// How many iterations prolog and epilog hold of an instruction, where they are few.
fn held_in(stage: &Stage) -> Option<u8>
    ensures { IfSome result (λ held. held ≡ length stage.now.early.items + length stage.now.late.items) }
{
    match stage.early.len().checked_add(stage.late.len()) {
        Some(held) => u8::try_from(held).ok(),
        None => None,
    }
}

/// Whether prolog and epilog hold an iteration of this number of an instruction.
fn holds_number(stage: &Stage, number: u8) -> bool
    ensures { OnTrue result (number < length stage.now.early.items + length stage.now.late.items) }
{
    match held_in(stage) {
        Some(held) => number < held,
        None => false,
    }
}

/// Whether there is an instruction at its place, of which they hold its iteration.
fn is_begun(stages: &[Stage], one: &Beyond) -> bool
    ensures { OnTrue result (IsBegun stages.now one.now) }
{
    match stages.get(one.place) {
        Some(stage) => holds_number(stage, one.number),
        None => false,
    }
}

/// Whether it is so of each of these.
pub(crate) fn are_begun(stages: &[Stage], beyond: &[Beyond]) -> bool
    ensures { OnTrue result (AreBegun stages.now beyond.now) }
{
    beyond.iter().all(|one| is_begun(stages, one))
}

/// Whether this is among them.
fn holds_one(beyond: &[Beyond], place: usize, number: u8) -> bool
    ensures { OnTrue result (Contains beyond.now (record { place = place; number = number })) }
{
    beyond.iter().any(|one| *one == Beyond { place, number })
}

/// Whether those of this place with these numbers are.
fn holds_numbers(beyond: &[Beyond], place: usize, from: u8, to: u8) -> bool
    ensures { OnTrue result (HoldsNumbers beyond.now place from to) }
{
    for number in from..to {
        if !holds_one(beyond, place, number) {
            return false;
        }
    }
    true
}

/// Whether these are all past the last iteration that are held of the instruction at a place.
fn holds_past(most: u8, stage: &Stage, beyond: &[Beyond], place: usize) -> bool
    ensures { OnTrue result (HoldsPast most stage.now beyond.now place) }
{
    match held_in(stage) {
        Some(held) => most <= held && holds_numbers(beyond, place, most, held),
        None => false,
    }
}

ghost use Rattle.c62_loop_match.specs.Beyond.{HoldsPast};

/// Whether each instance is of the instruction at a place. Prolog and epilog hold those of as many iterations, and the prolog no
/// more than `deep`; these are all that are past the last.
fn is_held_at(
    most: u8,
    deep: u8,
    entry: &SerialInsn,
    stage: &Stage,
    beyond: &[Beyond],
    place: usize,
) -> bool
    ensures { OnTrue result (IsHeldAt most deep beyond.now place entry.now stage.now) }
{
    all_stand_as(entry, &stage.early)
        && stands_as(entry, &stage.kernel)
        && all_stand_as(entry, &stage.late)
        && stage.early.len() <= usize::from(deep)
        && holds_past(most, stage, beyond, place)
}

/// Whether it is so of each instruction of the loop.
pub(crate) fn are_held(
    most: u8,
    deep: u8,
    entries: &[SerialInsn],
    stages: &[Stage],
    beyond: &[Beyond],
) -> bool
    ensures { OnTrue result (AreHeld most deep beyond.now entries.now stages.now) }
{
    if entries.len() != stages.len() {
        return false;
    }
    for place in 0..entries.len() {
        if !is_held_at(most, deep, &entries[place], &stages[place], beyond, place) {
            return false;
        }
    }
    true
}

ghost use Rattle.c62_loop_match.specs.Beyond.{AreHeld};
