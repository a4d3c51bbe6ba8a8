//! How long each schedule of a block is at least, by raised heights.

ghost use Rattle.c62_depend.specs.Plan.{insns_of};
ghost use Rattle.c62_raised.specs.Raised.{IsRaisedLength};

use crate::height::{Found, heights, raised};
use crate::lead::at_once;
use crate::room::all_waits;
use c62_depend::Plan;

/// How many cycles each schedule of a block takes at least: its first one, and what follows behind it by raised heights;
/// and 0 where it has no instruction.
pub fn raised_length(plan: &Plan) -> u32
    ensures { IsRaisedLength (insns_of plan.now) result }
{
    if plan.len() == 0 {
        return 0;
    }
    let waits = all_waits(plan);
    let Found { heights, order } = heights(plan, &waits);
    let leads = at_once(plan);
    raised(
        plan,
        order.as_slice(),
        &waits,
        leads.as_slice(),
        &heights,
        0,
    ) + 1
}
