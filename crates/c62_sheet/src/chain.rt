//! Chains of dependences, found along the lists of a plan.

ghost use Rattle.std.specs.Prelude.{◌≡◌, ◌<◌, false, length, All, slice_index_or};
ghost use Rattle.std.specs.List.{list_any};
ghost use Rattle.c62_depend.specs.Plan.{insns_of};
ghost use Rattle.c62_sheet.specs.Chain.{Leads, Marks};

use c62_depend::{Link, Plan};
use c62_read::MOST_INSTRUCTIONS;

/// One mark for each number that a block may have.
pub type Chained = [bool; MOST_INSTRUCTIONS];

/// Whether the other end of some dependence is marked.
fn is_any_marked(links: &[Link], marks: &[bool]) -> bool
    requires { All (λ link. link.number < length marks.now) links.now }
    ensures { result ≡ list_any (λ link. slice_index_or marks.now link.number false) links.now }
{
    links.iter().any(|link| marks[link.number as usize])
}

/// Marks the numbers to which a chain of dependences leads from number `i`.
pub fn led_from(plan: &Plan, i: u16) -> Chained
    requires { i < length plan.now.insns }
    ensures { Marks (insns_of plan.now) (Leads (insns_of plan.now) i) result }
{
    let n = plan.len();
    let mut marks = [false; MOST_INSTRUCTIONS];
    marks[i as usize] = true;
    for j in i + 1..n {
        marks[j as usize] = is_any_marked(plan.needs(j), &marks);
    }
    marks
}

/// Marks the numbers from which a chain of dependences leads to number `i`.
pub(crate) fn leading_to(plan: &Plan, i: u16) -> Chained
    requires { i < length plan.now.insns }
    ensures { Marks (insns_of plan.now) (λ k. Leads (insns_of plan.now) k i) result }
{
    let n = plan.len();
    let mut marks = [false; MOST_INSTRUCTIONS];
    marks[i as usize] = true;
    for k in (0..i).rev() {
        marks[k as usize] = is_any_marked(plan.followers(k), &marks);
    }
    marks
}
