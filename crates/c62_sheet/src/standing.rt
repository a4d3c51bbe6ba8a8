//! What was placed last at each spot.

ghost use Rattle.std.specs.Prelude.{◌≡◌, length, IfOk};
ghost use Rattle.c62_depend.specs.Plan.{insns_of};
ghost use Rattle.c62_sheet.specs.Lawful.{nothing_placed};
ghost use Rattle.c62_sheet.specs.Standing.{place_of, AreStanding};

use crate::entry::Spot;
use c62_depend::Plan;
use std::alloc::{AllocError, Global};

/// The place of a spot in a list with eight units for each cycle.
pub(crate) fn place_of(spot: Spot) -> usize
    ensures { result ≡ place_of spot }
{
    8 * usize::from(spot.cycle) + usize::from(spot.unit.index())
}

/// The list while nothing is placed.
pub(crate) fn none_standing(alloc: Global, plan: &Plan) -> Result<Vec<u16>, AllocError>
    ensures { IfOk result (λ standing. AreStanding (insns_of plan.now) (nothing_placed (length (insns_of plan.now))) standing.items) }
{
    let standing = vec![in alloc; 0u16; 40 * usize::from(plan.len())]?;
    Ok(standing)
}
