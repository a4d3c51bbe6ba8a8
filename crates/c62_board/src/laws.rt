//! Laws of boards, in the words of the rules.

ghost use Rattle.std.specs.Prelude.{◌≡◌, ℕ, ◌+◌, ◌*◌, ◌<◌, ◌≤◌, List, length};
ghost use Rattle.c62_op.specs.declared.register.Side.{Side as SideOf};
ghost use Rattle.c62_insn.specs.declared.insn.Insn.{Insn};
ghost use Rattle.c62_sheet.specs.Lawful.{Spots, IsAt};
ghost use Rattle.c62_sheet.specs.Counts.{set_length};
ghost use Rattle.c62_depend.specs.Plan.{insns_of};
ghost use Rattle.c62_sheet.specs.Least.{IsPick, IsComplete};
ghost use Rattle.c62_board.specs.Laws.{HasOneTurn, HasTurn, HasWithdrawals, HasOnlyPlaces, LandsWithin};
ghost use Rattle.c62_board.specs.State.{IsReadyNow, IsLeastNow};

use crate::board::Board;
use crate::turn::Turn;
use crate::withdrawal::going_with;
use c62_insn::Side;
use c62_sheet::Spot;

/// A side has one turn at most: what it does, the entries that it adds and the ejections that it leaves are determined.
/// [`Board::step`] finds it.
pub fn has_one_turn()
    ensures { (block : List Insn) (set : Spots) (budget : ℕ) (side : SideOf) → HasOneTurn block set budget side }
{}

/// Each side of every board has a turn, however little room there is for its entries: this one. So a side has exactly one.
pub fn has_a_turn(board: &Board, side: Side) -> Turn
    ensures { HasTurn (insns_of board.now.plan) board.now.spots board.now.budget side result }
{
    board.turn_of(side)
}

/// Whatever room there is, some entries withdraw an instruction with all that goes with it.
pub fn has_withdrawals(board: &Board, i: u16)
    requires { i < length board.now.plan.insns }
    ensures { HasWithdrawals (insns_of board.now.plan) board.now.spots i }
{
    going_with(board.sheet(), i);
}

/// On a board that is not complete some side has a pick, so its turn is not [`Turn::Idle`]: this one.
pub fn has_a_pick(board: &Board) -> Side
    requires { IsComplete (insns_of board.now.plan) board.now.spots → ⊥ }
    ensures { (i : ℕ) × IsPick (insns_of board.now.plan) board.now.spots result i }
{
    if let Some(_) = board.pick(Side::A) {
        return Side::A;
    }
    let Some(_) = board.pick(Side::B) else {
        unreachable!()
    };
    Side::B
}

/// Two boards of one plan with equal journals have equal placements.
pub fn same_journal_same_spots(first: &Board, second: &Board)
    requires plan { first.now.plan ≡ second.now.plan }
    requires journal { first.now.journal ≡ second.now.journal }
    ensures { first.now.spots ≡ second.now.spots }
{
    first.plan();
    second.plan();
}

/// Where nothing was withdrawn, each ready instruction has a least spot, in cycle 5·k or before: k were placed so far.
pub fn least_without_withdrawals(board: &Board, i: u16) -> Spot
    requires ready { IsReadyNow board.now i }
    requires only_places { HasOnlyPlaces board.now.journal }
    ensures least { IsLeastNow board.now i result }
    ensures soon { result.cycle ≤ 5 * length board.now.journal }
{
    board.plan();
    let Some(spot) = board.least(i) else {
        unreachable!()
    };
    spot
}

/// On a complete board each instruction has its spot, this one. It has landed when the board's length ends, and that is at
/// most five cycles for each instruction and five more.
pub fn complete_board_has_length(board: &Board, i: u16) -> Spot
    requires complete { IsComplete (insns_of board.now.plan) board.now.spots }
    requires in_plan { i < length board.now.plan.insns }
    ensures spot { IsAt board.now.spots i result }
    ensures lands { LandsWithin (insns_of board.now.plan) board.now.spots i result }
    ensures short { set_length (insns_of board.now.plan) board.now.spots ≤ 5 * length board.now.plan.insns + 5 }
{
    board.plan();
    let Some(spot) = board.spot_of(i) else {
        unreachable!()
    };
    spot
}
