//! Lists and searches of blocks worked by hand.

use crate::common::plan_of;
use crate::expect::{equal, equal_in};
use c62_depend::Plan;
use c62_refute::{Search, search_for};
use c62_sheet::are_lawful;
use c62_tries::{Order, Way, listed, spots_in};
use std::alloc::Global;
use std::process::Abort;
use std::test::Fail;

/// Blocks, and how many cycles the lists from the first and from the last cycle take.
const LISTS: [(&str, u16, u16); 5] = [
    ("MVK 1,A1", 1, 1),
    // From the first cycle on the branch comes last, and finds .S1 taken. From the last one back it comes first.
    ("L1: MVK 1,A1\nMVK 2,A2\nB .S1 L1", 8, 6),
    // The sum leaves .L1 to the comparison.
    ("ADD A1,A2,A3\nCMPEQ A1,A2,A4\nSUB A3,A4,A5", 2, 2),
    // Both want 1X, and the second one has more behind it.
    ("ADD A1,B1,A2\nMPY A1,B1,A3\nMPY A3,A3,A4", 4, 4),
    // The branch waits for the difference, and has .S1 in the next cycle where it comes first.
    ("L1: SUB A1,1,A1\nMVK 7,A7\nMVK 8,A8\n[A1] B .S1 L1", 8, 7),
];

/// Blocks, and how many cycles their shortest schedules take. That fewer do is refuted without a choice.
const SHORTEST: [(&str, u16); 7] = [
    ("MVK 1,A1", 1),
    ("MVK 5,A1\nMVK 7,A2\nADD A1,A2,A3", 3),
    // One on .L, two on .L and .S, three on .D too.
    (
        "CMPEQ A1,A2,A4\nADD2 A1,A2,A5\nADD A1,A2,A3\nADD A1,A2,A6",
        2,
    ),
    // A load, a sum, and a store over one data path.
    ("LDW *A4,A5\nADD A5,A6,A6\nSTW A6,*A4", 7),
    // The constants land before the branch takes effect.
    ("L1: MVK 1,A1\nMVK 2,A2\nB .S1 L1", 6),
    // Both constants and the branch want .S1, and the branch waits for the difference.
    ("L1: SUB A1,1,A1\nMVK 7,A7\nMVK 8,A8\n[A1] B .S1 L1", 7),
    // Four products on one unit, and a sum of the last.
    (
        "MPY A1,A2,A3\nMPY A1,A3,A4\nMPY A1,A2,A5\nMPY A1,A2,A6\nADD A4,A6,A7",
        5,
    ),
];

/// How many cycles a schedule takes that a list finds. It is to keep all rules.
fn length(rt: &impl Abort, alloc: Global, plan: &Plan, order: &Order) -> Result<u16, Fail> {
    let cycles = listed(alloc, plan, order)?;
    let spots = spots_in(alloc, plan, &cycles)?;
    assert!(rt; are_lawful(plan, &spots));
    let mut length = 0;
    for i in 0..plan.len() {
        let cycle = cycles.get(usize::from(i)).copied().unwrap_or(0);
        length = length.max(cycle.saturating_add(u16::from(plan.insn(i).delay()) + 1));
    }
    Ok(length)
}

#[test]
fn lists_from_both_ends(rt: HostRuntime) -> Result<(), Fail> {
    for (text, forward, backward) in &LISTS {
        let plan = plan_of(&rt, rt.alloc(), text)?;
        let order = Order::by_height(rt.alloc(), &plan)?;
        equal_in(&rt, text, &length(&rt, rt.alloc(), &plan, &order)?, forward);
        let order = Order::by_depth(rt.alloc(), &plan)?;
        equal_in(
            &rt,
            text,
            &length(&rt, rt.alloc(), &plan, &order)?,
            backward,
        );
    }
    // Two products on one unit: the first in the order, and neither before its first cycle.
    let plan = plan_of(&rt, rt.alloc(), "MPY A1,A2,A3\nMPY A1,A2,A4")?;
    let mut order = Order::by_cycle(rt.alloc(), &[1, 0], Way::Forward)?;
    let cycles = listed(rt.alloc(), &plan, &order)?;
    equal(&rt, &cycles.as_slice(), &[1, 0].as_slice());
    order.least.push(4)?;
    order.least.push(3)?;
    let cycles = listed(rt.alloc(), &plan, &order)?;
    equal(&rt, &cycles.as_slice(), &[4, 3].as_slice());
    Ok(())
}

#[test]
fn fewer_cycles_are_refuted(rt: HostRuntime) -> Result<(), Fail> {
    for (text, least) in &SHORTEST {
        let plan = plan_of(&rt, rt.alloc(), text)?;
        let mut left = 0;
        match search_for(rt.alloc(), &plan, least.saturating_sub(1), &mut left)? {
            Search::Refuted => {}
            Search::Found(_) | Search::Open => assert!(rt; false, "{text} may take fewer"),
        }
        match search_for(rt.alloc(), &plan, *least, &mut left)? {
            Search::Found(spots) => assert!(rt; are_lawful(&plan, &spots), "{text}"),
            Search::Refuted | Search::Open => assert!(rt; false, "{text} isn't found"),
        }
    }
    Ok(())
}
