//! Texts of one block, and what their plans tell.

use crate::common::{name_of, plan_of};
use crate::expect::{equal, equal_in};
use c62_bound::bound;
use c62_depend::Plan;
use c62_insn::{Side, Unit};
use std::alloc::Global;
use std::process::Abort;
use std::test::Fail;

/// Texts, what their plans are asked, and what they tell: all dependences as `earlier>later:latency` and the heights, the direct
/// dependences and how many there are, the sides of the instructions, their units, or the greatest need by its kind, side, count and tail.
const TOLD: [&str; 73] = [
    "MVK 3,A1\nADD A5,A1,A2\nLDW *A4,A5 | dependences | 0>1:1 1>2:-4 ; 1 0 4",
    "LDW *A4,A5\nADD A5,A5,A6 | dependences | 0>1:5 ; 5 0",
    "ADD A5,A1,A2\nLDW *A4,A5 | dependences | 0>1:-4 ; 0 4",
    "LDW *A4,A5\nMVK 1,A5 | dependences | 0>1:5 ; 5 0",
    "LDW *A4,A5\nSTW B1,*B4 | dependences | 0>1:0 ; 4 0",
    "L1:\nMVK 0,A0\nMVK 1,A1\nMVK 2,A2\nMVK 3,A3\nMVK 4,A4\nMVK 5,A5\nMVK 6,A6\nMVK 7,A7\nB L1 | dependences | 0>8:-5 1>8:-5 2>8:-5 3>8:-5 4>8:-5 5>8:-5 6>8:-5 7>8:-5 ; 0 0 0 0 0 0 0 0 5",
    "L1: MPY A1,A2,A3\nB L1 | dependences | 0>1:-4 ; 1 5",
    "LDW *B4,B5\nADD B2,A2,B3\nADD A1,B1,A3\nADD A3,A3,A4\nMPY A5,B1,A2\nMPY A2,A2,A6 | dependences | 1>4:-1 2>3:1 4>5:2 ; 4 2 1 0 3 1",
    "LDW *A4++,A4\nADD A4,A4,A5 | dependences | 0>1:5 ; 5 0",
    "MVK 1,A4\nLDW *A4++,A4 | dependences | 0>1:1 ; 5 4",
    "LDW *A4++,A4\nLDW *A4++,A4 | dependences | 0>1:5 ; 9 4",
    "LDW *A4++,A5\nMVK 1,A4 | dependences | 0>1:1 ; 4 0",
    "STW A1,*A4\nLDW *B4,B5 | dependences | 0>1:1 ; 5 4",
    "LDW *B4,B5\nSTW A1,*A4 | dependences | 0>1:0 ; 4 0",
    "STW A1,*A4\nSTH B1,*B4 | dependences | 0>1:1 ; 1 0",
    "LDW *A4,A5\nLDW *A4,A6 | dependences | ; 4 4",
    "L1: SUB A1,1,A1\n[A1] B L1 | dependences | 0>1:1 ; 6 5",
    "MVK 1,A1\nMVKLH 2,A1\nADDK 3,A1\nLDW *A4,A1 | dependences | 0>1:1 0>2:1 0>3:-3 1>2:1 1>3:-3 2>3:-3 ; 3 2 1 4",
    "[B0] MVK 1,A1\nMVK 2,B0\n[!A1] LDW *A4,B0\nB B0 | dependences | 0>1:0 0>2:1 0>3:-5 1>2:-3 1>3:1 2>3:5 ; 11 7 10 5",
    // Of two writers under opposite conditions at most one runs, while what they test keeps its value.
    "[A1] ADD A3,A4,A2\n[!A1] SUB A3,A4,A2 | dependences | ; 0 0",
    "[A1] LDW *A4,A5\n[!A1] MVK 1,A5 | dependences | ; 4 0",
    "[A1] MVK 1,A5\nSUB A1,1,A1\n[!A1] MVK 2,A5 | dependences | 0>1:0 0>2:1 1>2:1 ; 1 1 0",
    "[A1] MVK 1,A5\n[!A1] MVK 2,A5\n[A1] MVK 3,A5 | dependences | 0>2:1 ; 1 0 0",
    "[A1] LDW *A4,A1\n[!A1] MVK 1,A1 | dependences | 0>1:5 ; 5 0",
    "[!A1] MVK 2,A5\n[A1] SUB A1,1,A5 | dependences | ; 0 0",
    "[A1] ADD A5,A3,A5\n[!A1] MVK 2,A5 | dependences | 0>1:0 ; 0 0",
    // Accesses from one base, whose bytes meet or do not.
    "MPY A1,A2,A3\nSTW A3,*A4\nLDW *+A4[1],A5\nADD A5,A5,A6 | dependences | 0>1:2 2>3:5 ; 2 0 5 0",
    "STW A1,*A4\nLDW *-A4[1],A5 | dependences | ; 0 4",
    "STH A1,*+A4[1]\nLDW *A4,A5 | dependences | 0>1:1 ; 5 4",
    "STB A1,*+A4[4]\nLDW *A4,A5 | dependences | ; 0 4",
    "STW A1,*A4++\nLDW *A4,A5 | dependences | 0>1:1 ; 5 4",
    "STW A1,*A4\nLDW *++A4[1],A5 | dependences | 0>1:0 ; 4 4",
    "STW A1,*+A4[1]\nLDW *A4++,A5 | dependences | 0>1:0 ; 4 4",
    "STW A1,*+A4[A2]\nLDW *A4,A5 | dependences | 0>1:1 ; 5 4",
    "STW A1,*A4\nLDW *A6,A5 | dependences | 0>1:1 ; 5 4",
    "LDW *A4,A5\nSTW A1,*+A4[1] | dependences | ; 4 0",
    "STW A1,*A4\nSTW A2,*+A4[1] | dependences | ; 0 0",
    // A read is bound by the last write.
    "MVK 1,A1\nMVK 2,A1\nADD A1,A2,A3 | direct | 0>1:1 1>2:1 ; 2",
    // A write before it is bound by the last write, and by what reads that.
    "MVK 1,A1\nADD A1,A2,A3\nMVK 2,A1\nADD A1,A2,A4\nMVK 3,A1 | direct | 0>1:1 0>2:1 1>2:0 2>3:1 2>4:1 3>4:0 ; 6",
    // A write under a condition settles nothing: the one before it binds too.
    "MVK 1,A5\n[A1] MVK 2,A5\nADD A5,A3,A4 | direct | 0>1:1 0>2:1 1>2:1 ; 3",
    // Nor does one that is exclusive to the later write.
    "MVK 1,A5\n[A1] MVK 2,A5\n[!A1] MVK 3,A5 | direct | 0>1:1 0>2:1 ; 2",
    // A store at another base passes the stores before it.
    "STW A1,*A4\nSTW A1,*B4\nLDW *A4,A5 | direct | 0>1:1 1>2:1 ; 2",
    // One that is disjoint doesn't.
    "STW A1,*A4\nSTW A1,*+A4[1]\nLDW *A4,A5 | direct | 0>2:1 ; 1",
    // The branch waits for what nothing before it lands behind.
    "L: LDW *A4,A5\nADD A5,A6,A7\nMVK 1,B1\nB L | direct | 0>1:5 1>3:-5 2>3:-5 ; 3",
    // What lands sooner leaves the load to be awaited.
    "L: LDW *A4++,A5\nADDK 1,A4\nB L | direct | 0>1:1 0>2:-1 1>2:-5 ; 3",
    // One register of two is enough.
    "LDW *A4++,A5\nMVK 1,A4\nADD A4,A5,A6 | direct | 0>1:1 0>2:5 1>2:1 ; 3",
    "L1:\nMVK 0,A0\nMVK 1,A1\nMVK 2,A2\nMVK 3,A3\nMVK 4,A4\nMVK 5,A5\nMVK 6,A6\nMVK 7,A7\nB L1 | sides | AAAAAAAAB",
    "L1: MPY A1,A2,A3\nB L1 | sides | AB",
    "L1: MVK 1,B1\nLDW *B4,A5\nB L1 | sides | BBA",
    "L1: MVK 1,A1\nSTW A1,*B4\nB L1 | sides | ABB",
    "L1: MVK 1,B1\nADD .L2X A1,B1,B2\nB .S2 L1 | sides | BBB",
    "ADD A1,A2,A3 | units | L1 S1 D1 ;",
    "ADD .S1 A1,A2,A3\nADD .L2X B1,A2,B3 | units | S1 ; L2 ;",
    "LDW *A4,B5\nSTW A1,*B4 | units | D1 ; D2 ;",
    "L: MPY A1,A2,A3\nB L | units | M1 ; S2 ;",
    "L: ADD B1,B2,B3\nB L | units | L2 S2 D2 ; S1 ;",
    "L: MVK 1,A1\nMVK 1,B1\nB L | units | S1 ; S2 ; S2 ;",
    "L: MVK 1,A1\nB .S1 L | units | S1 ; S1 ;",
    "L: MVK 1,B1\nB .S2 L | units | S2 ; S2 ;",
    "MVK 1,B1\nB B3 | units | S2 ; S2 ;",
    "L: B L | units | S2 ;",
    // Needs whose instructions find room in one cycle: no picture tells them.
    // Of .S1, of .L1 and .S1, and of all three: the first of the kinds.
    "MVK 1,A1 | need | S A 1 0",
    // A load's delay is 4. Its data path is needed as much as .D1, which comes first.
    "LDW *A4,A5 | need | D A 1 4",
    // The delay of a branch is 5. One to a block stands on .S1 or .S2, and so waits for neither.
    "L1: B L1 | need | L A 0 5",
    "L1: B .S1 L1 | need | L A 0 5",
    // One to a register stands on .S2.
    "B B3 | need | S B 1 5",
    // With B on .S1 in cycle 0 there are 6 cycles, as the load has to land with the branch.
    "L: MVK 100,B4\nLDW *B4,B5\nADD A1,A1,A1\nADD A2,A2,A2\nB L | need | S B 1 5",
    // The branch reads A1 a cycle later: the height of SUB is 1 + 5, and it stands on .L1, .S1 or .D1.
    "L1: SUB A1,1,A1\n[A1] B L1 | need | Lsd A 1 6",
    // Two follow a cycle behind the first, and the path goes on with the one that stands first.
    "MVK 1,A1\nADD A1,A1,A2\nADD A1,A1,A3 | need | S A 1 1",
    // Where .L2 is written both may stand on .L2, .S2 and .D2 all the same.
    "ADD .L2 B1,B2,B3\nADD .L2 B1,B2,B4 | need | Lsd B 2 0",
    // The heights are 4, 2, 1, 0, 3, 1: the load alone takes longer than what waits for .M1, or than the products' path.
    "LDW *B4,B5\nADD B2,A2,B3\nADD A1,B1,A3\nADD A3,A3,A4\nMPY A5,B1,A2\nMPY A2,A2,A6 | need | D B 1 4",
    // The first sum reads the product two cycles later, which is the height of the product.
    "MPY A1,A2,A3\nADD A3,A4,A5\nADD A1,A2,A6 | need | M A 1 2",
    "L1: | need | ",
];

/// Two texts of one block, and whether their plans are the same.
const SAME: [(&str, &str, bool); 6] = [
    ("L: MVK 1,A1", "L: MVK 1,A1 ; as above", true),
    ("L: MVK 1,A1", "L: MVK 2,A1", false),
    ("L: MVK 1,A1", "M: MVK 1,A1", false),
    ("L: MVK 1,A1", "MVK 1,A1", false),
    ("L: MVK 1,A1", "L:\nMVK 1,A1", false),
    ("L: MVK 1,A1", "L: MVK 1,A1\nMVK 1,A1", false),
];

/// Lines that make long blocks when they are repeated: of which few depend on one another, most, and some though their bases or
/// conditions are written between them.
const REPEATED: [&str; 4] = [
    "ADD A1,A2,A3\nMPY B1,B2,B3\nSUB A4,A5,A6\nXOR B7,B8,B9\nMVK 5,A10\n",
    "ADD A1,A2,A1\nADD A1,A3,A2\nSUB A2,A1,A3\nMPY A1,A2,A1\nMVK 1,A2\n",
    "LDW *A4++,A5\nADD A5,A6,A6\nSTW A6,*B4++\nLDW *+B5[1],B6\nSTW B6,*+B5[2]\n",
    "[A1] MVK 1,A2\n[!A1] MVK 2,A2\n[A1] ADD A2,A3,A3\n[!A1] STW A3,*+A4[1]\nLDW *+A4[3],A5\n",
];

/// All dependences, and the heights.
fn dependences(alloc: Global, plan: &Plan) -> Result<String, Fail> {
    let mut all = String::new(alloc);
    for i in 0..plan.len() {
        for j in 0..plan.len() {
            if let Some(latency) = plan.latency(i, j) {
                all.push_str(&format!(in alloc; "{i}>{j}:{latency} ")?)?;
            }
        }
    }
    all.push(';')?;
    for i in 0..plan.len() {
        all.push_str(&format!(in alloc; " {}", plan.height(i))?)?;
    }
    Ok(all)
}

/// The direct dependences, from the lists of what depends directly on each instruction, and their number, from the lists of what
/// each depends on directly.
fn direct(alloc: Global, plan: &Plan) -> Result<String, Fail> {
    let mut all = String::new(alloc);
    let mut count = 0;
    for i in 0..plan.len() {
        count = plan.needs(i).len().saturating_add(count);
        for link in plan.followers(i) {
            all.push_str(&format!(in alloc; "{i}>{}:{} ", link.number, link.latency)?)?;
        }
    }
    all.push_str(&format!(in alloc; "; {count}")?)?;
    Ok(all)
}

fn sides(alloc: Global, plan: &Plan) -> Result<String, Fail> {
    let mut all = String::new(alloc);
    for i in 0..plan.len() {
        all.push(match plan.side(i) {
            Side::A => 'A',
            Side::B => 'B',
        })?;
    }
    Ok(all)
}

fn units(alloc: Global, plan: &Plan) -> Result<String, Fail> {
    let mut all = String::new(alloc);
    for i in 0..plan.len() {
        for unit in Unit::ALL {
            if plan.units(i).has(unit) {
                all.push_str(name_of(unit))?;
                all.push(' ')?;
            }
        }
        all.push_str("; ")?;
    }
    Ok(all)
}

fn need(alloc: Global, plan: &Plan) -> Result<String, Fail> {
    match bound(plan) {
        None => Ok(String::new(alloc)),
        Some(need) => {
            Ok(format!(in alloc;
                "{:?} {:?} {} {}",
                need.kind, need.side, need.count, need.tail
            )?)
        }
    }
}

fn told(alloc: Global, asked: &str, plan: &Plan) -> Result<String, Fail> {
    match asked {
        "dependences" => dependences(alloc, plan),
        "direct" => direct(alloc, plan),
        "sides" => sides(alloc, plan),
        "units" => units(alloc, plan),
        _ => need(alloc, plan),
    }
}

/// Each direct dependence is one, with its latency, and each dependence is implied by a chain of direct ones.
fn are_implied(rt: &impl Abort, plan: &Plan, text: &str) -> Result<(), Fail> {
    for i in 0..plan.len() {
        let mut reached = [None; 256];
        reached[usize::from(i)] = Some(0);
        for k in i..plan.len() {
            let Some(before) = reached[usize::from(k)] else {
                continue;
            };
            for link in plan.followers(k) {
                let latency = i32::from(link.latency);
                let number = u16::from(link.number);
                assert!(rt; number < plan.len(), "{text}");
                equal_in(rt, &text, &plan.latency(k, number), &Some(latency));
                let at = usize::from(number);
                let sum: i32 = latency.saturating_add(before);
                let known = reached[at];
                reached[at] = match known {
                    Some(other) if other > sum => Some(other),
                    _ => Some(sum),
                };
            }
        }
        for j in i + 1..plan.len() {
            if let Some(latency) = plan.latency(i, j) {
                let Some(sum) = reached[usize::from(j)] else {
                    panic!(rt; "{text}: {i} to {j}");
                };
                assert!(rt; sum >= latency, "{text}: {i} to {j}");
            }
        }
    }
    Ok(())
}

#[test]
fn plans_are_told(rt: HostRuntime) -> Result<(), Fail> {
    for row in &TOLD {
        let (text, rest) = row.split_once(" | ").expect(&rt, "a text");
        let (asked, want) = rest.split_once(" | ").expect(&rt, "what is asked");
        let plan = plan_of(&rt, rt.alloc(), text)?;
        let found = told(rt.alloc(), asked, &plan)?;
        equal_in(&rt, row, &found.as_str().trim_end(), &want);
        are_implied(&rt, &plan, text)?;
    }
    for (text, other, want) in &SAME {
        let plan = plan_of(&rt, rt.alloc(), text)?;
        let other = plan_of(&rt, rt.alloc(), other)?;
        equal_in(&rt, text, &plan.same(&other), want);
        assert!(rt; plan.same(&plan.copy(rt.alloc())?), "{text}");
    }
    Ok(())
}

/// Long blocks, and one of as many instructions as there may be.
#[test]
fn long_blocks(rt: HostRuntime) -> Result<(), Fail> {
    for lines in &REPEATED {
        let text = lines.repeat(rt.alloc(), 16)?;
        let plan = plan_of(&rt, rt.alloc(), &text)?;
        equal(&rt, &plan.len(), &80);
        are_implied(&rt, &plan, lines)?;
    }
    let text = "MVK 1,A1\n".repeat(rt.alloc(), 256)?;
    let plan = plan_of(&rt, rt.alloc(), &text)?;
    equal(&rt, &plan.len(), &256);
    equal(&rt, &plan.height(0), &255);
    equal(&rt, &plan.height(255), &0);
    equal(&rt, &plan.latency(0, 255), &Some(1));
    assert!(rt; plan.depends(0, 255) && !plan.depends(255, 0));
    equal(&rt, &plan.needs(255).len(), &1);
    equal(&rt, &plan.needs(255)[0].number, &254);
    equal(&rt, &plan.followers(0).len(), &1);
    assert!(rt; plan.side(9) == Side::A);
    equal(&rt, &plan.block().insns()[9].line, &10);
    let copy = plan.copy(rt.alloc())?;
    assert!(rt; copy.same(&plan));
    equal(&rt, &copy.len(), &256);
    equal(&rt, &copy.height(0), &255);
    equal(&rt, &copy.needs(255).len(), &1);
    Ok(())
}
