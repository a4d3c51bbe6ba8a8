//! Dependences between the instructions of an iteration and of the two behind it (docs/MACHINE.md, "Dependences").

ghost use Rattle.std.specs.Prelude.{◌≡◌, ◌<◌, ◌≤◌, ◌-◌, ◌*◌, ◌++◌, List, [], length, All, IfOk, OnOk, IfSome};
ghost use Rattle.c62_op.specs.declared.register.Reg.{Reg as Register};
ghost use Rattle.c62_rules.specs.Exclusive.{is_written_by};
ghost use Rattle.c62_pair.specs.declared.uses.Uses.{Uses as AUses};
ghost use Rattle.c62_pair.specs.Uses.{insns_in};
ghost use Rattle.c62_pair.specs.RegSet.{reg_in};
ghost use Rattle.c62_loop.specs.Stage.{insns_of};
ghost use Rattle.c62_loop_match.specs.Promise.{promises};
ghost use Rattle.c62_loop_bound.specs.Circle.{alone, IsDependence};
ghost use Rattle.c62_read.specs.declared.limits.TheConstants.{MOST_INSTRUCTIONS};
ghost use Rattle.c62_loop_bound.specs.Steps.{IsThrice, with_one};

use crate::needs::{is_excused, latency};
use c62_loop_match::Promise;
use c62_pair::{RegSet, Uses};
use c62_read::MOST_INSTRUCTIONS;
use std::alloc::{AllocError, Global};

/// An instruction must come behind another one, of the same iteration or an earlier one.
#[derive(Clone, Copy)]
pub struct Dependence {
    /// The number of the earlier instruction.
    pub from: u16,
    /// The number of the later one.
    pub to: u16,
    /// How many iterations later that is.
    pub apart: u16,
    /// How many cycles later it must be at least. It may be fewer than 0.
    pub latency: i32,
}

/// What three iterations of this work use, in serial order.
fn thrice(alloc: Global, work: &[Uses]) -> Result<Vec<Uses>, AllocError>
    ensures { IfOk result (λ path. IsThrice work.now path.items) }
{
    let mut path = Vec::from_slice(alloc, work)?;
    path.extend_from_slice(work)?;
    path.extend_from_slice(work)?;
    Ok(path)
}

/// The dependence of instruction `j` of three iterations on instruction `i` of the first, if there is one. These registers are written
/// from `i` on and before `j`.
fn between(
    path: &[Uses],
    promise: Promise,
    count: usize,
    written: RegSet,
    i: usize,
    j: usize,
) -> Option<Dependence>
    requires few { count ≤ MOST_INSTRUCTIONS }
    requires thrice { length path.now ≡ 3 * count }
    requires before { i < j }
    requires within { j < length path.now }
    requires written { (reg : Register) → reg_in written reg ≡ is_written_by (insns_in path.now) i (j - i) reg }
    ensures { (work : List AUses) → IsThrice work path.now → IfSome result (IsDependence (promises promise) (insns_in work)) }
{
    let first = &path[i];
    let second = &path[j];
    if count <= i || second.branches {
        return None;
    }
    let apart = j / count;
    let excused = is_excused(promise, apart, &first.insn, &second.insn);
    let latency = latency(first, second, written, excused)?;
    Some(Dependence {
        from: i as u16,
        to: (j % count) as u16,
        apart: apart as u16,
        latency,
    })
}

/// Adds a dependence, if there is one.
fn push(found: &mut Vec<Dependence>, one: Option<Dependence>) -> Result<(), AllocError>
    ensures { OnOk result (found.new.items ≡ with_one found.old.items one) }
{
    if let Some(one) = one {
        found.push(one)?;
    }
    Ok(())
}

/// The dependences of instruction `j` of three iterations on those of the first.
///
/// # Errors
///
/// `AllocError` where memory ran out.
fn add_behind(
    found: &mut Vec<Dependence>,
    path: &[Uses],
    promise: Promise,
    count: usize,
    j: usize,
) -> Result<(), AllocError>
    requires few { count ≤ MOST_INSTRUCTIONS }
    requires thrice { length path.now ≡ 3 * count }
    requires within { j < length path.now }
    ensures { (work : List AUses) → IsThrice work path.now → All (IsDependence (promises promise) (insns_in work)) found.old.items
        → OnOk result (All (IsDependence (promises promise) (insns_in work)) found.new.items) }
{
    let mut written = RegSet::new();
    let mut i = j;
    while i > 0 {
        i -= 1;
        written = written.joined(path[i].written);
        push(found, between(path, promise, count, written, i, j))?;
    }
    Ok(())
}

/// All dependences of an iteration and the two behind it on instructions of the first. Of two instructions of two iterations of which
/// there is a promise none is of memory.
///
/// # Errors
///
/// `AllocError` where memory ran out.
pub(crate) fn dependences_of(
    alloc: Global,
    work: &[Uses],
    promise: Promise,
) -> Result<Vec<Dependence>, AllocError>
    requires { length work.now ≤ MOST_INSTRUCTIONS }
    ensures { IfOk result (λ found. All (IsDependence (promises promise) (insns_in work.now)) found.items) }
{
    let path = thrice(alloc, work)?;
    let mut found = Vec::new(alloc);
    for j in 0..path.len() {
        add_behind(&mut found, &path, promise, work.len(), j)?;
    }
    Ok(found)
}
