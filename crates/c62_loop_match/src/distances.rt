//! Whether instances keep their distances, in as many passes as are asked (docs/MACHINE.md, "Dependences").

ghost use Rattle.std.specs.Prelude.{◌≡◌, ◌<◌, ◌≤◌, ◌+◌, ℕ, IfOk};
ghost use Rattle.c62_loop.specs.Stage.{placed_of};
ghost use Rattle.c62_loop_match.specs.Parts.{schedule_of};
ghost use Rattle.c62_loop_match.specs.Path.{straights_of};
ghost use Rattle.c62_loop_match.specs.Promise.{promises};
ghost use Rattle.c62_loop_match.specs.Early.{AreFound, AreFoundOfAll};

use crate::borders::Borders;
use crate::early::{Early, first_early};
use crate::parts::Schedule;
use crate::path::{Instance, Work, instances_of, path_of};
use crate::promise::Promise;
use c62_pair::Uses;
use std::alloc::{AllocError, Global};

/// What is found of distances.
#[derive(Clone, Copy)]
pub(crate) enum Distances {
    /// All are kept.
    Kept,
    /// This is the first that isn't.
    TooEarly(Early),
    /// The schedule doesn't hold the work one for one.
    Unlike,
}

/// What is found of the instances of a path of so many iterations.
pub(crate) fn found_in(
    work: &Work,
    path: &[Uses],
    instances: &[Instance],
    promise: Promise,
    trips: u16,
) -> Distances
    requires { insns_in path.now ≡ insns_of (straights_of work.now) trips }
    ensures { (placed : List Placed) → instances.now ≡ map instance placed → AreFound (promises promise) (straights_of work.now) trips placed result }
{
    if instances.len() != path.len() || path.len() < work.behind.len() {
        return Distances::Unlike;
    }
    let borders = Borders {
        begin: work.before.len(),
        body: work.body.len(),
        trips,
        end: path.len() - work.behind.len(),
    };
    match first_early(path, instances, promise, borders) {
        None => Distances::Kept,
        Some(early) => Distances::TooEarly(early),
    }
}

ghost use Rattle.std.specs.Prelude.{List, map};
ghost use Rattle.c62_packet.specs.declared.placed.Placed.{Placed};
ghost use Rattle.c62_pair.specs.Uses.{insns_in};
ghost use Rattle.c62_loop.specs.Stage.{insns_of};
ghost use Rattle.c62_loop_match.specs.Path.{instance};

/// What is found where the kernel is passed so often, and so many iterations are made.
///
/// # Errors
///
/// `AllocError` where memory ran out.
fn in_passes(
    alloc: Global,
    work: &Work,
    schedule: &Schedule,
    promise: Promise,
    trips: u16,
    passes: u16,
) -> Result<Distances, AllocError>
    ensures { IfOk result (AreFound (promises promise) (straights_of work.now) trips (placed_of (schedule_of schedule.now) trips passes)) }
{
    let path = path_of(alloc, work, trips)?;
    let instances = instances_of(alloc, schedule, trips, passes)?;
    let found = found_in(work, &path, &instances, promise, trips);
    Ok(found)
}

/// What is found where it is passed once to three times more than prolog and epilog hold iterations.
///
/// # Errors
///
/// `AllocError` where memory ran out.
pub(crate) fn distances_of(
    alloc: Global,
    work: &Work,
    schedule: &Schedule,
    promise: Promise,
    most: u8,
) -> Result<Distances, AllocError>
    ensures { IfOk result (AreFoundOfAll (promises promise) (straights_of work.now) (schedule_of schedule.now) most) }
{
    for passes in 1..u16::from(most) + 4 {
        let trips = u16::from(most) + passes;
        match in_passes(alloc, work, schedule, promise, trips, passes)? {
            Distances::Kept => {}
            found => return Ok(found),
        }
    }
    Ok(Distances::Kept)
}
