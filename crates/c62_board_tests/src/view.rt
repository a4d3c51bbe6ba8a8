//! Worked blocks: what viewers plan, learn and find stale.

ghost use Rattle.std.specs.Prelude.{◌≡◌};

use crate::expect::{equal, equal_in};
use crate::made::{D1, D2, L1, L2, M1, ONE_PATH, S1, SIX, SUM, desk_on, has_entries};
use c62_board::{Spot, Turn, Who};
use c62_insn::{Side, Unit};
use c62_view::{CommitFault, Desk, Proposal, Told, Viewer};
use std::process::Abort;
use std::sync::Wait;

/// A proposal: a number, its cycle and unit, and how many entries were seen.
type Proposed = (u16, u16, Unit, usize);

/// What goes on at a desk.
enum Deed {
    /// A proposal is committed.
    Commit(Proposed, Who),
    /// The sides take two turns each, A first.
    Turns,
    /// Side A ejects number 2 for number 4.
    Ejects,
}

/// What a viewer plans for side A, what goes on then, and two proposals of side A that are refused behind that.
struct Round {
    plan: Proposed,
    deed: Deed,
    refused: [(Proposed, CommitFault); 2],
}

/// Of no block here.
const NOTHING: (Proposed, CommitFault) = ((9, 0, L1, 0), CommitFault::NotReady);

/// A block and its ejections; what a second viewer plans for side B at first; two rounds of a viewer, and what it plans for side A
/// behind them; and the entries then.
const VIEWED: [(
    &str,
    u16,
    Option<Proposed>,
    [Round; 2],
    Option<Proposed>,
    &str,
); 3] = [
    // A viewer learns that its proposal was committed, and plans on.
    (
        SUM,
        0,
        None,
        [
            Round {
                plan: (0, 0, S1, 0),
                deed: Deed::Commit((0, 0, S1, 0), Who::A),
                refused: [
                    ((0, 0, S1, 0), CommitFault::NotReady),
                    ((1, 0, S1, 0), CommitFault::Stale(1)),
                ],
            },
            Round {
                plan: (1, 1, S1, 1),
                deed: Deed::Commit((1, 1, S1, 1), Who::A),
                refused: [NOTHING, NOTHING],
            },
        ],
        Some((2, 2, L1, 2)),
        "+0@0.S1A +1@1.S1A ",
    ),
    // Two viewers propose loads of one file at one cycle. The second that is committed is stale, until its viewer learned.
    (
        ONE_PATH,
        0,
        Some((1, 0, D2, 0)),
        [
            Round {
                plan: (0, 0, D1, 0),
                deed: Deed::Commit((1, 0, D2, 0), Who::B),
                refused: [((0, 0, D1, 0), CommitFault::Stale(1)), NOTHING],
            },
            Round {
                plan: (0, 1, D1, 1),
                deed: Deed::Commit((0, 1, D1, 1), Who::A),
                refused: [NOTHING, NOTHING],
            },
        ],
        None,
        "+1@0.D2B +0@1.D1A ",
    ),
    // What was planned before an ejection is refused behind it, and the viewer learns of all its three entries.
    (
        SIX,
        1,
        Some((0, 0, D2, 0)),
        [
            Round {
                plan: (2, 0, L1, 0),
                deed: Deed::Turns,
                refused: [NOTHING, NOTHING],
            },
            Round {
                plan: (4, 1, M1, 4),
                deed: Deed::Ejects,
                refused: [
                    ((4, 1, M1, 4), CommitFault::NotReady),
                    ((2, 0, L1, 0), CommitFault::Stale(7)),
                ],
            },
        ],
        Some((2, 1, L1, 7)),
        "+2@0.L1A +0@0.D2B +3@1.L1A +1@0.L2B -3A -2A +4@0.M1A ",
    ),
];

fn proposal((number, cycle, unit, seen): Proposed) -> Proposal {
    Proposal {
        number,
        spot: Spot { cycle, unit },
        seen,
    }
}

/// What a viewer plans for a side.
fn planned(viewer: &mut Viewer, side: Side) -> Option<Proposed>
    ensures { viewer.new.desk ≡ viewer.old.desk }
{
    match viewer.plan(side) {
        Some(Proposal { number, spot, seen }) => Some((number, spot.cycle, spot.unit, seen)),
        None => None,
    }
}

/// What a desk tells once it has committed a proposal.
fn committed<R: Abort + Wait>(rt: &R, desk: &mut Desk, proposed: Proposed, who: Who) -> Told
    ensures told { result.book ≡ desk.new.name }
    ensures name { desk.new.name ≡ desk.old.name }
{
    match desk.commit(rt, &proposal(proposed), who) {
        Ok((_, Some(told))) => told,
        _ => panic!(rt; "{proposed:?} is not told"),
    }
}

/// What a desk tells of a turn that comes to this.
fn stepped<R: Abort + Wait>(rt: &R, desk: &mut Desk, side: Side, wanted: Turn) -> Told
    ensures told { result.book ≡ desk.new.name }
    ensures name { desk.new.name ≡ desk.old.name }
{
    match desk.step(rt, side) {
        (turn, Some(told)) => {
            equal(rt, &turn, &wanted);
            told
        }
        (turn, None) => panic!(rt; "{turn:?} is not told"),
    }
}

/// What a desk tells of what goes on at last.
fn told_of<R: Abort + Wait>(rt: &R, desk: &mut Desk, deed: &Deed) -> Told
    ensures told { result.book ≡ desk.new.name }
    ensures name { desk.new.name ≡ desk.old.name }
{
    match deed {
        Deed::Commit(proposed, who) => committed(rt, desk, *proposed, *who),
        Deed::Turns => {
            desk.step(rt, Side::A);
            desk.step(rt, Side::B);
            desk.step(rt, Side::A);
            let spot = Spot { cycle: 0, unit: L2 };
            stepped(rt, desk, Side::B, Turn::Placed(1, spot))
        }
        Deed::Ejects => {
            let spot = Spot { cycle: 0, unit: M1 };
            stepped(rt, desk, Side::A, Turn::Ejected(2, 4, spot))
        }
    }
}

/// A desk refuses a proposal of side A, and tells nothing.
fn refuses<R: Abort + Wait>(rt: &R, desk: &mut Desk, refused: (Proposed, CommitFault))
    ensures { desk.new.name ≡ desk.old.name }
{
    let (proposed, fault) = refused;
    let found = desk.commit(rt, &proposal(proposed), Who::A).err();
    equal_in(rt, &proposed, &found, &Some(fault));
}

/// A viewer plans, and learns of what goes on then.
fn goes_round<R: Abort + Wait>(rt: &R, desk: &mut Desk, viewer: &mut Viewer, round: &Round)
    requires { viewer.old.desk ≡ desk.old.name }
    ensures { viewer.new.desk ≡ desk.new.name }
{
    equal(rt, &planned(viewer, Side::A), &Some(round.plan));
    let told = told_of(rt, desk, &round.deed);
    let refused = round.refused;
    let [first, second] = refused;
    refuses(rt, desk, first);
    refuses(rt, desk, second);
    viewer.learn(told);
}

#[test]
fn viewers_plan_and_learn(rt: HostRuntime) {
    for (text, budget, of_b, rounds, last, journal) in &VIEWED {
        let [one, two] = rounds;
        let (mut desk, mut first, mut second) = desk_on(&rt, rt.alloc(), text, *budget);
        equal_in(&rt, text, &planned(&mut second, Side::B), of_b);
        goes_round(&rt, &mut desk, &mut first, one);
        goes_round(&rt, &mut desk, &mut first, two);
        equal_in(&rt, text, &planned(&mut first, Side::A), last);
        let board = desk.close(&rt);
        has_entries(&rt, rt.alloc(), board.journal(), journal);
        // Of a desk that is closed nothing is planned.
        let plans = (planned(&mut first, Side::A), planned(&mut second, Side::A));
        equal_in(&rt, text, &plans, &(None, None));
    }
}
