//! The index of a set of placements: of each instruction, how many that it depends on directly are not placed.

ghost use Rattle.std.specs.Prelude.{◌≡◌, ℕ, ◌+◌, ◌<◌, ◌≤◌, ◌^◌, length, slice_index, IfOk};
ghost use Rattle.c62_depend.specs.Plan.{insns_of};
ghost use Rattle.c62_depend.specs.Direct.{direct_followers};
ghost use Rattle.c62_sheet.specs.Lawful.{nothing_placed};
ghost use Rattle.c62_sheet.specs.Index.{times, lacking, IsFirstIndex, AreLower, AreHigher};

use c62_depend::Plan;
use std::alloc::{AllocError, Global};

/// How many others instruction `j` depends on directly.
fn count_needs(plan: &Plan, j: u16) -> u16
    requires { j < length plan.now.insns }
    ensures { result ≡ lacking (insns_of plan.now) (nothing_placed (length (insns_of plan.now))) j }
{
    plan.needs(j).len() as u16
}

/// The index while nothing is placed.
pub(crate) fn all_missing(alloc: Global, plan: &Plan) -> Result<Vec<u16>, AllocError>
    ensures { IfOk result (λ missing. IsFirstIndex (insns_of plan.now) missing.items) }
{
    let mut missing = Vec::with_capacity(alloc, usize::from(plan.len()))?;
    for j in 0..plan.len() {
        missing.push(count_needs(plan, j))?;
    }
    Ok(missing)
}

/// Makes an index the one while nothing is placed.
pub(crate) fn reset(plan: &Plan, missing: &mut [u16])
    requires { length missing.old ≡ length (insns_of plan.now) }
    ensures { IsFirstIndex (insns_of plan.now) missing.new }
{
    for j in 0..plan.len() {
        missing[usize::from(j)] = count_needs(plan, j);
    }
}

/// Counts one less for each instruction that depends directly on instruction `i`.
pub(crate) fn lower_followers(plan: &Plan, missing: &mut [u16], i: u16)
    requires sized { length missing.old ≡ length (insns_of plan.now) }
    requires in_plan { i < length plan.now.insns }
    requires counted { (j : ℕ) → times j (direct_followers (insns_of plan.now) i) ≤ slice_index missing.old j }
    ensures { AreLower (direct_followers (insns_of plan.now) i) missing.old missing.new }
{
    let followers = plan.followers(i);
    for link in followers {
        missing[usize::from(link.number)] -= 1;
    }
}

/// Counts one more for each instruction that depends directly on instruction `i`.
pub(crate) fn raise_followers(plan: &Plan, missing: &mut [u16], i: u16)
    requires sized { length missing.old ≡ length (insns_of plan.now) }
    requires in_plan { i < length plan.now.insns }
    requires room { (j : ℕ) → slice_index missing.old j + times j (direct_followers (insns_of plan.now) i) < 2 ^ 16 }
    ensures { AreHigher (direct_followers (insns_of plan.now) i) missing.old missing.new }
{
    let followers = plan.followers(i);
    for link in followers {
        missing[usize::from(link.number)] += 1;
    }
}
