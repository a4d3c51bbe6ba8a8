//! How few cycles may lie between two passes of any kernel of a loop.

ghost use Rattle.std.specs.Prelude.{◌<◌, ◌≤◌, Bool, List, length, All, IfOk, IfSome};
ghost use Rattle.c62_op.specs.declared.register.Reg.{Reg as Register};
ghost use Rattle.c62_insn.specs.declared.insn.Insn.{Insn};
ghost use Rattle.c62_read.specs.declared.limits.TheConstants.{MOST_INSTRUCTIONS};
ghost use Rattle.c62_loop_match.specs.Parts.{region_of};
ghost use Rattle.c62_loop_match.specs.Promise.{promises};
ghost use Rattle.c62_loop_bound.specs.Circle.{IsDependence};
ghost use Rattle.c62_loop_bound.specs.Least.{body_of, IsByCircle, IsAsked};

use crate::circle::more_than;
use crate::dependence::{Dependence, dependences_of};
use crate::search::circle_above;
use crate::shares::by_shares;
use crate::work::work_of;
use c62_loop_match::{Promise, Region};
use c62_read::MOST_INSTRUCTIONS;
use std::alloc::{AllocError, Global};

/// More cycles than these, if a circle is found of the dependences of so many instructions that asks for them.
fn next_of(
    alloc: Global,
    dependences: &[Dependence],
    count: usize,
    least: u16,
) -> Result<Option<u16>, AllocError>
    ensures { (promised : Insn → Insn → Bool) (body : List Insn) → All (IsDependence promised body) dependences.now
        → IfOk result (λ more. IfSome more (λ more. (least < more) × IsByCircle promised body more)) }
{
    let circle = circle_above(alloc, dependences, count, least)?;
    Ok(more_than(least, &circle))
}

/// The most that circles of these dependences are found to ask for, where shares ask for so many cycles.
fn by_circles(
    alloc: Global,
    dependences: &[Dependence],
    count: usize,
    shares: u16,
) -> Result<u16, AllocError>
    ensures { (promised : Insn → Insn → Bool) (counter : Register) (body : List Insn) → All (IsDependence promised body) dependences.now
        → IsAsked promised counter body shares → IfOk result (IsAsked promised counter body) }
{
    let mut least = shares;
    for _ in shares..u16::MAX {
        let found = next_of(alloc, dependences, count, least)?;
        let Some(more) = found else {
            return Ok(least);
        };
        least = more;
    }
    Ok(least)
}

/// How few cycles may lie between two passes of any kernel of a loop: the most that a share of a cycle or a circle of dependences asks for.
/// No packets that pipeline the loop have a shorter interval ([`crate::laws::no_interval_is_shorter`]); that some have this one isn't said,
/// and neither that no circle asks for more.
///
/// # Errors
///
/// `AllocError` where memory ran out.
pub fn least_interval(alloc: Global, region: &Region, promise: Promise) -> Result<u16, AllocError>
    requires { length region.now.body.items ≤ MOST_INSTRUCTIONS }
    ensures { IfOk result (IsAsked (promises promise) region.now.counter (body_of (region_of region.now))) }
{
    let work = work_of(alloc, region.counter, &region.body)?;
    let dependences = dependences_of(alloc, &work, promise)?;
    let shares = by_shares(region.counter, &work) as u16;
    by_circles(alloc, &dependences, work.len(), shares)
}
