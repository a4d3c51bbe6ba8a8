//! What asks for the least interval of a loop.

ghost use Rattle.std.specs.Prelude.{◌≡◌, ◌≤◌, Bool, List, length, All, IfOk, IfSome, IsTrue};
ghost use Rattle.c62_op.specs.declared.register.Reg.{Reg as Register};
ghost use Rattle.c62_insn.specs.declared.insn.Insn.{Insn as AnInsn};
ghost use Rattle.c62_read.specs.declared.limits.TheConstants.{MOST_INSTRUCTIONS};
ghost use Rattle.c62_pair.specs.Uses.{insns_in};
ghost use Rattle.c62_loop_match.specs.Parts.{region_of};
ghost use Rattle.c62_loop_match.specs.Promise.{promises};
ghost use Rattle.c62_loop_bound.specs.Cause.{IsCauseOf, asks};
ghost use Rattle.c62_loop_bound.specs.Circle.{IsDependence};
ghost use Rattle.c62_loop_bound.specs.Least.{body_of};

use crate::circle::iterations_asking;
use crate::dependence::{Dependence, dependences_of};
use crate::search::circle_above;
use crate::share::Share;
use crate::work::work_of;
use bitflags::Flags;
use c62_insn::{Reg, Side, UnitSet};
use c62_loop_match::{Promise, Region};
use c62_pair::Uses;
use c62_read::MOST_INSTRUCTIONS;
use std::alloc::{AllocError, Global};

/// How many shares there are: sets of units, two paths of each side, and reads of each register.
const SHARES: u16 = 256 + 4 + 32;

/// What asks for so many cycles between two passes of a kernel.
#[derive(Drop)]
pub enum Cause {
    /// What a cycle has so many of.
    Share(Share),
    /// Dependences in a circle.
    Circle {
        /// The last one first.
        steps: Vec<Dependence>,
        /// How many iterations they go over.
        iterations: u64,
    },
}

/// The side of a number that is even for side A.
fn side_of(number: u16) -> Side {
    if number % 2 == 0 { Side::A } else { Side::B }
}

/// The share of a number. A set of units has a greater number than each of its parts.
fn share_at(number: u16) -> Share {
    let side = side_of(number);
    if number < 256 {
        Share::Units(UnitSet::from_bits_retain(number as u8))
    } else if number < 258 {
        Share::CrossPath(side)
    } else if number < 260 {
        Share::DataPath(side)
    } else {
        Share::Reads(Reg {
            side,
            number: (number / 2 % 16) as u8,
        })
    }
}

/// Whether a share asks for so many cycles.
fn asks(share: Share, counter: Reg, work: &[Uses], cycles: u16) -> bool
    requires { length work.now ≤ MOST_INSTRUCTIONS }
    ensures { result ≡ asks counter (insns_in work.now) cycles share }
{
    if share.width() == 0 {
        return false;
    }
    share.cycles(counter, work) == usize::from(cycles)
}

/// The first share that asks for so many cycles.
fn share_asking(counter: Reg, work: &[Uses], cycles: u16) -> Option<Share>
    requires { length work.now ≤ MOST_INSTRUCTIONS }
    ensures { IfSome result (λ share. IsTrue (asks counter (insns_in work.now) cycles share)) }
{
    for number in 0..SHARES {
        let share = share_at(number);
        if asks(share, counter, work, cycles) {
            return Some(share);
        }
    }
    None
}

/// A circle of the dependences of so many instructions that asks for so many cycles, if one is found.
fn circle_asking(
    alloc: Global,
    dependences: &[Dependence],
    count: usize,
    cycles: u16,
) -> Result<Option<Cause>, AllocError>
    ensures { (promised : AnInsn → AnInsn → Bool) (counter : Register) (body : List AnInsn) → All (IsDependence promised body) dependences.now
        → IfOk result (λ cause. IfSome cause (IsCauseOf promised counter body cycles)) }
{
    let steps = circle_above(alloc, dependences, count, cycles.saturating_sub(1))?;
    match iterations_asking(&steps, cycles) {
        Some(iterations) => Ok(Some(Cause::Circle { steps, iterations })),
        None => Ok(None),
    }
}

/// What asks for so many cycles between two passes of any kernel of a loop, as they are the most that is asked for
/// ([`crate::least_interval`]): a share of a cycle where one does, and else a circle.
///
/// # Errors
///
/// `AllocError` where memory ran out.
pub fn cause_of(
    alloc: Global,
    region: &Region,
    promise: Promise,
    cycles: u16,
) -> Result<Option<Cause>, AllocError>
    requires { length region.now.body.items ≤ MOST_INSTRUCTIONS }
    ensures { IfOk result (λ cause. IfSome cause (IsCauseOf (promises promise) region.now.counter (body_of (region_of region.now)) cycles)) }
{
    let work = work_of(alloc, region.counter, &region.body)?;
    if let Some(share) = share_asking(region.counter, &work, cycles) {
        return Ok(Some(Cause::Share(share)));
    }
    let dependences = dependences_of(alloc, &work, promise)?;
    circle_asking(alloc, &dependences, work.len(), cycles)
}
