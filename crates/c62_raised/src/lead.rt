//! How many cycles instructions come behind another one at least.

ghost use Rattle.std.specs.Prelude.{◌≡◌, ◌<◌, ◌≤◌, length, None};
ghost use Rattle.c62_depend.specs.Latency.{greater};
ghost use Rattle.c62_depend.specs.Plan.{insns_of};
ghost use Rattle.c62_raised.specs.Chain.{IsLongest, AreLongest, lead_in};
ghost use Rattle.c62_raised.specs.Raised.{AreAtOnce};
ghost use Rattle.c62_raised.specs.Steps.{begun, behind_by, IsSmall, AreLongestBelow};

use arrayvec::ArrayVec;
use c62_depend::Plan;
use c62_read::MOST_INSTRUCTIONS;

/// Of each instruction how many cycles it comes behind another one at least: `None` where it isn't bound to.
pub(crate) type Leads = ArrayVec<Option<i32>, MOST_INSTRUCTIONS>;

/// How many cycles instruction `k` comes behind instruction `i`, which itself comes none behind.
fn begun(leads: &[Option<i32>], i: u16, k: u16) -> Option<i32>
    requires { k < length leads.now }
    ensures { result ≡ begun leads.now i k }
{
    if k == i {
        Some(0)
    } else {
        leads[usize::from(k)]
    }
}

/// So many cycles, and a latency more.
fn behind_by(latency: i8, before: Option<i32>) -> Option<i32>
    requires { IsSmall before }
    ensures { result ≡ behind_by latency before }
{
    match before {
        Some(cycles) => Some(cycles + i32::from(latency)),
        None => None,
    }
}

/// The greater of two, of which there may be none.
fn greater(one: Option<i32>, other: Option<i32>) -> Option<i32>
    ensures { result ≡ greater one other }
{
    match (one, other) {
        (Some(x), Some(y)) => Some(x.max(y)),
        (Some(x), None) => Some(x),
        (None, y) => y,
    }
}

/// The length of the longest chain of dependences from instruction `i` to instruction `j`, found by those to what comes before.
fn lead(plan: &Plan, i: u16, leads: &[Option<i32>], j: u16) -> Option<i32>
    requires few { length (insns_of plan.now) ≤ MOST_INSTRUCTIONS }
    requires within { j < length plan.now.insns }
    requires long { length leads.now ≡ j }
    requires leads { AreLongestBelow (insns_of plan.now) i j leads.now }
    ensures { IsLongest (insns_of plan.now) i j result }
{
    let mut most = None;
    for link in plan.needs(j) {
        let before = begun(leads, i, u16::from(link.number));
        most = greater(most, behind_by(link.latency, before));
    }
    most
}

/// The length of the longest chain of dependences from instruction `i` to each instruction.
pub(crate) fn leads(plan: &Plan, i: u16) -> Leads
    ensures long { length result.items ≡ length (insns_of plan.now) }
    ensures are { AreLongest (insns_of plan.now) i (lead_in result.items) }
{
    let mut leads = ArrayVec::new();
    for j in 0..plan.len() {
        let lead = lead(plan, i, leads.as_slice(), j);
        leads.push(lead);
    }
    leads
}

/// Each instruction comes at once behind the begin of a block, or later.
pub(crate) fn at_once(plan: &Plan) -> Leads
    ensures long { length result.items ≡ length (insns_of plan.now) }
    ensures are { AreAtOnce (insns_of plan.now) (lead_in result.items) }
{
    let mut leads = ArrayVec::new();
    for _j in 0..plan.len() {
        leads.push(Some(0));
    }
    leads
}
