//! What an instruction lacks in the cycle before its own.

ghost use Rattle.std.specs.Prelude.{◌≡◌, ◌≤◌, [], length, find, fold, MatchOption, IfOk, OnOk};
ghost use Rattle.std.specs.List.{list_any};
ghost use Rattle.c62_read.specs.declared.limits.TheConstants.{MOST_INSTRUCTIONS};
ghost use Rattle.c62_rules.specs.Resource.{capacity_of, taken_by};
ghost use Rattle.c62_rules.specs.Capacity.{uses, used};
ghost use Rattle.c62_packet.specs.Packed.{issued};
ghost use Rattle.c62_why.specs.Taken.{times, uses_at, holds, is_lacking, is_of, taken_at, with_taken, IsEnoughFor, IsLacking, FindsTaken};

use c62_insn::{Insn, Unit};
use c62_packet::Placed;
use c62_rules::{Resource, taken_by};
use std::alloc::{AllocError, Global};

/// What the instructions of a cycle leave too little of for one more.
#[derive(Clone, Copy)]
pub struct Taken {
    /// What there is too little of: a unit, a cross path, a data path, or reads of a register.
    pub resource: Resource,
    /// The line of the first instruction of that cycle that takes of it.
    pub by: u32,
}

/// How much of a resource there is in a cycle.
fn capacity(resource: Resource) -> usize
    ensures { result ≡ capacity_of resource }
{
    match resource {
        Resource::OnUnit(_) | Resource::CrossPath(_) | Resource::DataPath(_) => 1,
        Resource::ReadsOf(_) => 4,
    }
}

/// How many of these resources have a place.
fn times(place: u8, taken: &[Resource]) -> usize
    ensures times { result ≡ times place taken.now }
    ensures few { result ≤ length taken.now }
{
    taken.iter().filter(|each| each.place() == place).count()
}

/// How much of a resource an instruction issued on a unit takes.
fn uses(resource: Resource, insn: Insn, unit: Unit) -> usize
    ensures uses { result ≡ uses resource insn unit }
    ensures few { result ≤ 6 }
{
    let taken = taken_by(insn, unit);
    times(resource.place(), taken.as_slice())
}

/// How much of it an instruction takes of a cycle.
fn uses_at(resource: Resource, cycle: u16, placed: &Placed) -> usize
    ensures uses { result ≡ uses_at resource cycle placed.now }
    ensures few { result ≤ 6 }
{
    if placed.cycle == cycle {
        uses(resource, placed.insn, placed.unit)
    } else {
        0
    }
}

/// How much of it all take of a cycle.
fn used(resource: Resource, cycle: u16, placed: &[Placed]) -> usize
    requires { length placed.now ≤ MOST_INSTRUCTIONS }
    ensures used { result ≡ used resource cycle (issued placed.now) }
    ensures few { result ≤ 1536 }
{
    let mut sum = 0;
    for each in placed {
        sum += uses_at(resource, cycle, each);
    }
    sum
}

/// Whether an instruction takes of it in a cycle.
fn holds(resource: Resource, cycle: u16, placed: &Placed) -> bool
    ensures { result ≡ holds resource cycle placed.now }
{
    0 < uses_at(resource, cycle, placed)
}

/// The first that does.
fn holder(resource: Resource, cycle: u16, placed: &[Placed]) -> Option<Placed>
    ensures { result ≡ find (holds resource cycle) placed.now }
{
    placed
        .iter()
        .copied()
        .find(|each| holds(resource, cycle, each))
}

/// Whether the cycle before an instruction's has too little of a resource for it.
fn is_lacking(placed: &[Placed], one: &Placed, resource: Resource) -> bool
    requires { length placed.now ≤ MOST_INSTRUCTIONS }
    ensures { result ≡ is_lacking placed.now one.now resource }
{
    let before = one.cycle.saturating_sub(1);
    let all = used(resource, before, placed) + uses(resource, one.insn, one.unit);
    capacity(resource) < all
}

/// What the cycle before an instruction's has too little of for it, where that is this resource.
fn taken_of(placed: &[Placed], one: &Placed, resource: Resource) -> Option<Taken>
    requires { length placed.now ≤ MOST_INSTRUCTIONS }
    ensures { MatchOption result (IsEnoughFor placed.now one.now resource) (IsLacking placed.now one.now resource) }
{
    if !is_lacking(placed, one, resource) {
        return None;
    }
    match holder(resource, one.cycle.saturating_sub(1), placed) {
        Some(holder) => Some(Taken {
            resource,
            by: holder.line,
        }),
        None => unreachable!(),
    }
}

/// The first resource that an instruction takes of which the cycle before its own has too little for it: its unit, its cross
/// path, its data path, the registers that it reads.
pub(crate) fn first_taken(placed: &[Placed], one: &Placed) -> Option<Taken>
    requires { length placed.now ≤ MOST_INSTRUCTIONS }
    ensures { FindsTaken placed.now one.now result }
{
    let takes = taken_by(one.insn, one.unit);
    for resource in takes.as_slice() {
        if let Some(taken) = taken_of(placed, one, *resource) {
            return Some(taken);
        }
    }
    None
}

/// A resource, and the line of the first instruction of the cycle before an instruction's that takes of it.
fn taken_at(placed: &[Placed], one: &Placed, resource: Resource) -> Taken
    ensures { result ≡ taken_at placed.now one.now resource }
{
    let by = match holder(resource, one.cycle.saturating_sub(1), placed) {
        Some(holder) => holder.line,
        None => 0,
    };
    Taken { resource, by }
}

/// Whether this is a resource.
fn is_of(resource: Resource, taken: &Taken) -> bool
    ensures { result ≡ is_of resource taken.now }
{
    taken.resource.place() == resource.place()
}

/// Whether one of these is.
fn is_among(resource: Resource, taken: &[Taken]) -> bool
    ensures { result ≡ list_any (is_of resource) taken.now }
{
    taken.iter().any(|each| is_of(resource, each))
}

/// Adds a resource to others, where the cycle before an instruction's has too little of it, and it is none of them.
fn push_taken(
    more: &mut Vec<Taken>,
    placed: &[Placed],
    one: &Placed,
    first: Taken,
    resource: Resource,
) -> Result<(), AllocError>
    requires { length placed.now ≤ MOST_INSTRUCTIONS }
    ensures { OnOk result (more.new.items ≡ with_taken placed.now one.now first more.old.items resource) }
{
    if is_of(resource, &first) || is_among(resource, more) {
        return Ok(());
    }
    if !is_lacking(placed, one, resource) {
        return Ok(());
    }
    more.push(taken_at(placed, one, resource))?;
    Ok(())
}

/// What else the cycle before an instruction's has too little of for it, each resource once.
pub(crate) fn more_taken(
    alloc: Global,
    placed: &[Placed],
    one: &Placed,
    first: Taken,
) -> Result<Vec<Taken>, AllocError>
    requires { length placed.now ≤ MOST_INSTRUCTIONS }
    ensures { IfOk result (λ more. more.items ≡ fold (with_taken placed.now one.now first) [] (taken_by one.now.insn one.now.unit)) }
{
    let mut more = Vec::new(alloc);
    let takes = taken_by(one.insn, one.unit);
    for resource in takes.as_slice() {
        push_taken(&mut more, placed, one, first, *resource)?;
    }
    Ok(more)
}
