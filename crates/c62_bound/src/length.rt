//! How long each schedule of a block is at least.

ghost use Rattle.c62_depend.specs.Plan.{insns_of};
ghost use Rattle.c62_bound.specs.Length.{IsLeastLength};

use crate::greatest::bound;
use crate::path::path_length;
use c62_depend::Plan;

/// How many cycles each schedule of a block takes at least: the greater of the length of the critical path and the cycles
/// of the greatest need, and 0 where there is no instruction. No schedule is shorter
/// ([`crate::laws::no_schedule_is_shorter`]); that one is as short isn't said.
pub fn least_length(plan: &Plan) -> u32
    ensures { IsLeastLength (insns_of plan.now) result }
{
    let path = u32::from(path_length(plan));
    match bound(plan) {
        Some(need) => path.max(need.cycles()),
        None => path,
    }
}
