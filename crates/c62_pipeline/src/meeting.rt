//! Accesses that may touch one byte in two iterations (docs/SCHEDULING.md, "Loops of a program").

ghost use Rattle.std.specs.Prelude.{◌≡◌, find};
ghost use Rattle.c62_insn.specs.Insn.{operands_of};
ghost use Rattle.c62_loop_match.specs.Promise.{base_in};
ghost use Rattle.c62_pipeline.specs.Meeting.{has_partner, may_meet, meeting_of, partner_of};

use c62_insn::{Insn, Operands, Reg};
use c62_loop_match::Promise;
use c62_pair::RegSet;
use c62_read::SerialInsn;

/// The base of a load or store.
fn base_in(insn: &Insn) -> Option<Reg>
    ensures { result ≡ base_in (operands_of insn.now) }
{
    match insn.operands() {
        Operands::Access { base, .. } => Some(base),
        _ => None,
    }
}

/// Whether two accesses with two bases, of which one stores at least, may touch one byte in two iterations.
fn may_meet(promise: Promise, first: &Insn, second: &Insn) -> bool
    ensures { result ≡ may_meet promise first.now second.now }
{
    match (base_in(first), base_in(second)) {
        (Some(one), Some(other)) => {
            let stores = first.op().is_store() || second.op().is_store();
            let apart = promise.bases.has(one) && promise.bases.has(other);
            one != other && stores && !apart
        }
        _ => false,
    }
}

/// The line of the first of these that an access may meet.
#[tactic(auto, unfolding(crate::specs::Meeting::partner_of))]
fn partner_of(promise: Promise, insns: &[SerialInsn], one: &SerialInsn) -> Option<u32>
    ensures { result ≡ partner_of promise insns.now one.now }
{
    let other = insns
        .iter()
        .find(|other| may_meet(promise, &one.insn, &other.insn))?;
    Some(other.line)
}

/// Whether an access may meet one of these.
#[tactic(auto, unfolding(crate::specs::Meeting::has_partner))]
fn has_partner(promise: Promise, insns: &[SerialInsn], one: &SerialInsn) -> bool
    ensures { result ≡ has_partner promise insns.now one.now }
{
    partner_of(promise, insns, one).is_some()
}

/// The first of these that may meet another one.
fn first_with(promise: Promise, insns: &[SerialInsn]) -> Option<SerialInsn>
    ensures { result ≡ find (has_partner promise insns.now) insns.now }
{
    insns
        .iter()
        .copied()
        .find(|one| has_partner(promise, insns, one))
}

/// The lines of two accesses that may meet.
#[derive(Clone, Copy)]
pub struct Meeting {
    pub first: u32,
    pub second: u32,
}

/// The first two of these that may meet.
pub fn meeting_in(promise: Promise, insns: &[SerialInsn]) -> Option<Meeting>
    ensures { result ≡ meeting_of promise insns.now }
{
    let one = first_with(promise, insns)?;
    let second = partner_of(promise, insns, &one)?;
    Some(Meeting {
        first: one.line,
        second,
    })
}

/// The promise that all of these are apart.
pub(crate) fn all_apart(insns: &[SerialInsn]) -> Promise {
    let mut bases = RegSet::new();
    for entry in insns {
        if let Some(base) = base_in(&entry.insn) {
            bases = bases.with(base);
        }
    }
    Promise { bases }
}
