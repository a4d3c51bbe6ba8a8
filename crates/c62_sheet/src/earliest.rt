//! The first cycle that the direct dependences of each instruction allow, kept while instructions are placed and taken out.

ghost use Rattle.std.specs.Prelude.{◌≡◌, ◌<◌, length, None};
ghost use Rattle.c62_depend.specs.declared.limits.TheConstants.{ISSUE_CYCLES};
ghost use Rattle.c62_depend.specs.Plan.{insns_of};
ghost use Rattle.c62_sheet.specs.Lawful.{spot_at, placed, nothing_placed, IsLawful};
ghost use Rattle.c62_sheet.specs.Early.{AreEarly, AreEarlyBut};

use crate::early::{direct_early, first_after};
use crate::entry::Spot;
use c62_depend::Plan;

/// Raises the cycle of each instruction that depends directly on instruction `i`, which is to stand at a spot.
pub(crate) fn raise_followers(
    plan: &Plan,
    spots: &[Option<Spot>],
    earliest: &mut [u16],
    i: u16,
    spot: Spot,
)
    requires sized { length spots.now ≡ length (insns_of plan.now) }
    requires kept { AreEarly (insns_of plan.now) spots.now earliest.old }
    requires in_plan { i < length plan.now.insns }
    requires free { spot_at spots.now i ≡ None }
    requires within { spot.cycle < ISSUE_CYCLES }
    ensures { AreEarly (insns_of plan.now) (placed spots.now i spot) earliest.new }
{
    let followers = plan.followers(i);
    for link in followers {
        let number = usize::from(link.number);
        let first = first_after(spot.cycle, *link);
        earliest[number] = earliest[number].max(first);
    }
}

/// Finds the cycle anew of each instruction that depends directly on instruction `i`, which was taken out.
pub(crate) fn find_followers(plan: &Plan, spots: &[Option<Spot>], earliest: &mut [u16], i: u16)
    requires lawful { IsLawful (insns_of plan.now) spots.now }
    requires others { AreEarlyBut (insns_of plan.now) i spots.now earliest.old }
    requires in_plan { i < length plan.now.insns }
    ensures { AreEarly (insns_of plan.now) spots.now earliest.new }
{
    let followers = plan.followers(i);
    for link in followers {
        let number = u16::from(link.number);
        let cycle = direct_early(plan, spots, number);
        earliest[usize::from(number)] = cycle;
    }
}

/// Makes each cycle the one while nothing is placed.
pub(crate) fn reset(plan: &Plan, earliest: &mut [u16])
    requires { length earliest.old ≡ length (insns_of plan.now) }
    ensures { AreEarly (insns_of plan.now) (nothing_placed (length (insns_of plan.now))) earliest.new }
{
    for cycle in earliest.iter_mut() {
        *cycle = 0;
    }
}
