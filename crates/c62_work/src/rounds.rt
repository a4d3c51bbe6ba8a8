//! What planning comes to, round after round.

ghost use Rattle.std.specs.Prelude.{◌≡◌, ◌+◌, ◌++◌, ◌∷◌, [], IfSome};
ghost use mathlib.Core.List.{IsPrefix};
ghost use Rattle.c62_sheet.specs.declared.entry.Entry.TheVariants.{Place};
ghost use Rattle.c62_board.specs.Who.{who_of};
ghost use Rattle.c62_view.specs.Course.{IsPlanned};
ghost use Rattle.c62_view.specs.Knows.{known};
ghost use Rattle.c62_work.specs.Worker.{AddsPlacings};

use c62_board::{Who, who_of};
use c62_insn::Side;
use c62_view::{Desk, Proposal, Viewer};
use std::sync::Wait;

/// Commits a proposal for a side. Where that is published, the viewer learns it and plans again, from a list that begins with
/// all that it knew and with the journal as it is then. `None` where the commit is refused, where it was not published, and
/// where there is nothing to place.
pub fn follow_up<R: Wait>(
    rt: &R,
    desk: &mut Desk,
    viewer: &mut Viewer,
    proposal: &Proposal,
    side: Side,
) -> Option<Proposal>
    requires own { viewer.old.desk ≡ desk.old.name }
    ensures own { viewer.new.desk ≡ desk.new.name }
    ensures begins { IsPrefix viewer.old.entries viewer.new.entries }
    ensures journal { IsPrefix desk.old.board.journal desk.new.board.journal }
    ensures placed { IfSome result (λ p. desk.new.board.journal ≡ desk.old.board.journal ++ Place proposal.now.number proposal.now.spot (who_of side) ∷ []) }
    ensures told { IfSome result (λ p. IsPrefix desk.new.board.journal viewer.new.entries) }
    ensures planned { IfSome result (λ p. IsPlanned (known viewer.new) side p.number p.spot p.seen) }
{
    let Ok((_, Some(told))) = desk.commit(rt, proposal, who_of(side)) else {
        return None;
    };
    viewer.learn(told);
    viewer.plan(side)
}

/// So many rounds of plan, commit and learn for a side, and one more, each of which places something for that side. The
/// last proposal is the side's pick and its least spot on the replay of a list. That begins with all that the viewer knew
/// at first, and with the whole journal as it is now. `None` where a round came to nothing, as [`follow_up`] says.
pub fn serve<R: Wait>(
    rt: &R,
    desk: &mut Desk,
    viewer: &mut Viewer,
    side: Side,
    rounds: u32,
) -> Option<Proposal>
    requires own { viewer.old.desk ≡ desk.old.name }
    ensures own { viewer.new.desk ≡ desk.new.name }
    ensures begins { IsPrefix viewer.old.entries viewer.new.entries }
    ensures journal { IsPrefix desk.old.board.journal desk.new.board.journal }
    ensures placed { IfSome result (λ p. AddsPlacings side (rounds + 1) desk.old.board.journal desk.new.board.journal) }
    ensures told { IfSome result (λ p. IsPrefix desk.new.board.journal viewer.new.entries) }
    ensures planned { IfSome result (λ p. IsPlanned (known viewer.new) side p.number p.spot p.seen) }
{
    let mut proposal = viewer.plan(side)?;
    for _round in 0..rounds {
        proposal = follow_up(rt, desk, viewer, &proposal, side)?;
    }
    follow_up(rt, desk, viewer, &proposal, side)
}

/// Commits a proposal to two desks. Each desk's own viewer learns what that desk told, and knows no less than before.
pub fn serve_two<R: Wait>(
    rt: &R,
    desk: &mut Desk,
    viewer: &mut Viewer,
    other: &mut Desk,
    stranger: &mut Viewer,
    proposal: &Proposal,
)
    requires first { viewer.old.desk ≡ desk.old.name }
    requires second { stranger.old.desk ≡ other.old.name }
    ensures first { (viewer.new.desk ≡ desk.new.name) × IsPrefix viewer.old.entries viewer.new.entries }
    ensures second { (stranger.new.desk ≡ other.new.name) × IsPrefix stranger.old.entries stranger.new.entries }
{
    if let Ok((_, Some(told))) = desk.commit(rt, proposal, Who::Tail) {
        viewer.learn(told);
    }
    if let Ok((_, Some(told))) = other.commit(rt, proposal, Who::Tail) {
        stranger.learn(told);
    }
}
