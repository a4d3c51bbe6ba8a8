//! A board whose changes are published.
ghost use Rattle.std.specs.Prelude.{◌≡◌, ◌<◌, ◌^◌, ◌∷◌, ◌++◌, [], drop, fold, length, IfOk, IfErr, OnOk, OnErr, IfSome, MatchOption};
ghost use Rattle.std.specs.Bool.{OnTrue};
ghost use mathlib.Core.List.{IsPrefix};
ghost use Rattle.left_right.specs.Sides.{view};
ghost use Rattle.c62_board.specs.State.{Adds, IsReadyNow, IsLeastNow, IsAhead, GainsRoom};
ghost use Rattle.c62_view.specs.Course.{course, held, gone_on, IsLegalCourse};
ghost use Rattle.c62_view.specs.Batches.{played};
ghost use Rattle.c62_view.specs.Past.{head_of};
ghost use Rattle.c62_view.specs.Knows.{IsOf, plan_seen};
ghost use Rattle.c62_view.specs.Changing.{Stays, IsDeskFault, IsDeskStep, IsQuiet, IsTold};
ghost use Rattle.c62_sheet.specs.declared.entry.Entry.TheVariants.{Place};

use crate::history::{Front, Head, open};
use crate::rule::{Looks, Notes, VersionWriter};
use crate::version::{Change, Version};
use crate::viewer::{Told, Viewer};
use c62_board::{Board, CommitFault, Entry, Proposal, Spot, Turn, Who};
use c62_insn::Side;
use core::mem::replace_with;
use smallvec::SmallVec;
use std::alloc::{AllocError, Global};
use std::marker::Model;
use std::sync::Wait;

/// Why there is no desk.
#[derive(Clone, Copy, Debug, PartialEq, Eq)]
pub enum DeskFault {
    /// Memory ran out, or the first publish was refused.
    Memory,
    /// A viewer had no place.
    NoSeat,
}

/// A board, the writer of what viewers see of it, and the history that its journal is. Contracts see it as its `DeskState`.
pub struct Desk {
    board: Board,
    writer: VersionWriter,
    head: Head,
    front: Front,
}

impl Model for Desk {
    ghost use Rattle.c62_view.specs.ViewDesk.{DeskState, state_of, IsKept};

    ghost Value = { DeskState };

    ghost view = { state_of };

    ghost invariant = { IsKept };
}

// Publishes all that is pending, with the history as far as it goes.
fn publish<R: Wait>(
    rt: &R,
    mut writer: VersionWriter,
    front: &Front,
) -> (VersionWriter, Option<Told>)
    requires legal { IsLegalCourse (fold played (held writer.desk.shown.value) (drop writer.behind writer.log.items)).0 }
    requires noted { front.now.log ≡ (fold played (held writer.desk.shown.value) (drop writer.behind writer.log.items)).0.1 }
    requires named { writer.desk.shown.value.past.book ≡ front.now.book }
    ensures kept { (fold played (held result.0.desk.shown.value) (drop result.0.behind result.0.log.items)).0 ≡ (fold played (held writer.desk.shown.value) (drop writer.behind writer.log.items)).0 }
    ensures named { result.0.desk.shown.value.past.book ≡ front.now.book }
    ensures told { MatchOption result.1 (result.0.desk.shown.value ≡ writer.desk.shown.value)
        (λ t. (t ≡ front.now) × (course result.0.desk.shown.value ≡ (fold played (held writer.desk.shown.value) (drop writer.behind writer.log.items)).0)) }
{
    let Ok(()) = writer.append(Change::Note(front.again())) else {
        return (writer, None);
    };
    let (writer, published) = writer.publish_as::<Looks, R>(rt);
    match published {
        Ok(()) => (writer, Some(Told::of(front.again()))),
        Err(_) => (writer, None),
    }
}

// Hands a batch to the writer.
fn hand_over(writer: &mut VersionWriter, entries: SmallVec<Entry, 4>) -> Result<(), AllocError>
    ensures desk { writer.new.desk ≡ writer.old.desk }
    ensures ok { OnOk result ((fold played (held writer.new.desk.shown.value) (drop writer.new.behind writer.new.log.items)).0
        ≡ gone_on (fold played (held writer.old.desk.shown.value) (drop writer.old.behind writer.old.log.items)).0 entries.items) }
    ensures err { OnErr result ((fold played (held writer.new.desk.shown.value) (drop writer.new.behind writer.new.log.items)).0
        ≡ (fold played (held writer.old.desk.shown.value) (drop writer.old.behind writer.old.log.items)).0) }
{
    match writer.append(Change::Entries(entries)) {
        Ok(()) => Ok(()),
        Err(_) => Err(AllocError),
    }
}

// Commits a proposal to the board, and hands that to the writer.
fn place_proposed(
    board: &mut Board,
    writer: &mut VersionWriter,
    proposal: &Proposal,
    who: Who,
) -> Result<(), CommitFault>
    requires { (fold played (held writer.old.desk.shown.value) (drop writer.old.behind writer.old.log.items)).0 ≡ (board.old.plan, board.old.journal) }
    ensures followed { (fold played (held writer.new.desk.shown.value) (drop writer.new.behind writer.new.log.items)).0 ≡ (board.new.plan, board.new.journal) }
    ensures desk { writer.new.desk ≡ writer.old.desk }
    ensures ready { OnOk result (IsReadyNow board.old proposal.now.number) }
    ensures least { OnOk result (IsLeastNow board.old proposal.now.number proposal.now.spot) }
    ensures added { OnOk result (Adds board.old (Place proposal.now.number proposal.now.spot who ∷ []) board.new) }
    ensures fault { IfErr result (IsDeskFault board.old proposal.now) }
    ensures stays { OnErr result (Stays board.old board.new) }
{
    let entries = board.proposed(proposal, who)?;
    let Ok(()) = board.room(1) else {
        return Err(CommitFault::Memory);
    };
    let Ok(()) = hand_over(writer, entries) else {
        return Err(CommitFault::Memory);
    };
    board.put(proposal.number, proposal.spot, who);
    Ok(())
}

// Takes a side's turn on the board, and hands that to the writer.
fn take_turn(board: &mut Board, writer: &mut VersionWriter, side: Side) -> Turn
    requires { (fold played (held writer.old.desk.shown.value) (drop writer.old.behind writer.old.log.items)).0 ≡ (board.old.plan, board.old.journal) }
    ensures followed { (fold played (held writer.new.desk.shown.value) (drop writer.new.behind writer.new.log.items)).0 ≡ (board.new.plan, board.new.journal) }
    ensures desk { writer.new.desk ≡ writer.old.desk }
    ensures step { IsDeskStep board.old side result board.new }
    ensures begins { IsPrefix board.old.journal board.new.journal }
{
    let Ok((turn, entries)) = board.ahead(side) else {
        return Turn::Memory;
    };
    if entries.is_empty() {
        return turn;
    }
    let Ok(()) = board.room(entries.len()) else {
        return Turn::Memory;
    };
    let Ok(()) = hand_over(writer, entries) else {
        return Turn::Memory;
    };
    board.step(side)
}

// The desk once its board was changed, all of it published where that goes.
fn catch_up<R: Wait>(
    rt: &R,
    board: Board,
    writer: VersionWriter,
    head: Head,
    front: Front,
) -> (Desk, Option<Told>)
    requires head { head ≡ head_of front.book }
    requires begins { IsPrefix front.log board.journal }
    requires followed { (fold played (held writer.desk.shown.value) (drop writer.behind writer.log.items)).0 ≡ (board.plan, board.journal) }
    requires named { writer.desk.shown.value.past.book ≡ front.book }
    ensures name { result.0.name ≡ front.book }
    ensures board { result.0.board ≡ board }
    ensures told { MatchOption result.1 (result.0.shown ≡ writer.desk.shown.value) (IsTold result.0) }
{
    let front = front.caught_up(rt, &head, board.journal());
    let (writer, told) = publish(rt, writer, &front);
    let desk = Desk {
        board,
        writer,
        head,
        front,
    };
    (desk, told)
}

fn commit_by<R: Wait>(
    desk: Desk,
    rt: &R,
    proposal: &Proposal,
    who: Who,
) -> (Desk, Result<(Spot, Option<Told>), CommitFault>)
    ensures name { result.0.name ≡ desk.name }
    ensures ready { OnOk result.1 (IsReadyNow desk.board proposal.now.number) }
    ensures least { OnOk result.1 (IsLeastNow desk.board proposal.now.number proposal.now.spot) }
    ensures spot { IfOk result.1 (λ t. t.0 ≡ proposal.now.spot) }
    ensures added { IfOk result.1 (λ t. Adds desk.board (Place proposal.now.number t.0 who ∷ []) result.0.board) }
    ensures told { IfOk result.1 (λ t. MatchOption t.1 (result.0.shown ≡ desk.shown) (IsTold result.0)) }
    ensures fault { IfErr result.1 (IsDeskFault desk.board proposal.now) }
    ensures stays { OnErr result.1 (Stays desk.board result.0.board × (result.0.shown ≡ desk.shown)) }
{
    let Desk {
        mut board,
        mut writer,
        head,
        front,
    } = desk;
    match place_proposed(&mut board, &mut writer, proposal, who) {
        Ok(()) => {
            let (desk, told) = catch_up(rt, board, writer, head, front);
            (desk, Ok((proposal.spot, told)))
        }
        Err(fault) => {
            let desk = Desk {
                board,
                writer,
                head,
                front,
            };
            (desk, Err(fault))
        }
    }
}

fn step_by<R: Wait>(desk: Desk, rt: &R, side: Side) -> (Desk, (Turn, Option<Told>))
    ensures name { result.0.name ≡ desk.name }
    ensures step { IsDeskStep desk.board side result.1.0 result.0.board }
    ensures told { MatchOption result.1.1 (result.0.shown ≡ desk.shown) (IsTold result.0) }
    ensures quiet { IsQuiet desk result.0 result.1.1 }
{
    let Desk {
        mut board,
        mut writer,
        head,
        front,
    } = desk;
    let turn = take_turn(&mut board, &mut writer, side);
    if board.journal().len() as u64 > front.len() {
        let (desk, told) = catch_up(rt, board, writer, head, front);
        return (desk, (turn, told));
    }
    let desk = Desk {
        board,
        writer,
        head,
        front,
    };
    (desk, (turn, None))
}

impl Desk {
    /// The board as the last call left it.
    pub fn board(&self) -> &Board
        ensures { result.now ≡ self.now.board }
    {
        &self.board
    }

    /// Places an instruction as proposed, where the spot is its least spot on the board as it is now, and publishes that. It
    /// may wait for viewers. Answers the spot, and what is told where the whole journal is published. Where nothing is told,
    /// what is published is as before, and the entry goes with the next publish.
    ///
    /// # Errors
    ///
    /// `NotReady` and `Stale` where [`Board::commit`] answers them, and `Memory` where the proposal may be committed and
    /// memory ran out. The board is as before, but that it may have more room, and nothing was published.
    pub fn commit<R: Wait>(
        &mut self,
        rt: &R,
        proposal: &Proposal,
        who: Who,
    ) -> Result<(Spot, Option<Told>), CommitFault>
        ensures name { self.new.name ≡ self.old.name }
        ensures ready { OnOk result (IsReadyNow self.old.board proposal.now.number) }
        ensures least { OnOk result (IsLeastNow self.old.board proposal.now.number proposal.now.spot) }
        ensures spot { IfOk result (λ t. t.0 ≡ proposal.now.spot) }
        ensures added { IfOk result (λ t. Adds self.old.board (Place proposal.now.number t.0 who ∷ []) self.new.board) }
        ensures told { IfOk result (λ t. MatchOption t.1 (self.new.shown ≡ self.old.shown) (IsTold self.new)) }
        ensures fault { IfErr result (IsDeskFault self.old.board proposal.now) }
        ensures stays { OnErr result (Stays self.old.board self.new.board × (self.new.shown ≡ self.old.shown)) }
    {
        replace_with(self, rt, |desk, rt| commit_by(desk, rt, proposal, who))
    }

    /// Takes a side's turn on the board, and publishes its entries as one batch. It may wait for viewers. What is told is as
    /// for [`Desk::commit`]; a turn that adds nothing tells nothing, and publishes nothing. [`Turn::Memory`] comes only where
    /// the side's turn has entries to add; the board is then as before, but that it may have more room.
    pub fn step<R: Wait>(&mut self, rt: &R, side: Side) -> (Turn, Option<Told>)
        ensures name { self.new.name ≡ self.old.name }
        ensures step { IsDeskStep self.old.board side result.0 self.new.board }
        ensures told { MatchOption result.1 (self.new.shown ≡ self.old.shown) (IsTold self.new) }
        ensures quiet { IsQuiet self.old self.new result.1 }
    {
        replace_with(self, rt, |desk, rt| step_by(desk, rt, side))
    }

    /// Ends the desk, and hands back its board as the last call left it. It may wait for viewers, which are given nothing
    /// from then on.
    pub fn close<R: Wait>(self, rt: &R) -> Board
        ensures { result ≡ self.board }
    {
        let Desk {
            board,
            writer,
            head: _head,
            front: _front,
        } = self;
        writer.take(rt);
        board
    }
}

fn version_of(alloc: Global, board: &Board, front: &Front) -> Result<Version, AllocError>
    ensures { IfOk result (λ v. held v ≡ ((board.now.plan, board.now.journal), front.now)) }
{
    let sheet = board.sheet().copy(alloc)?;
    let entries = Vec::from_slice(alloc, board.journal())?;
    Ok(Version::new(sheet, entries, front.again()))
}

// A viewer that knows what the writer knows.
fn seat(writer: &mut VersionWriter, front: &Front) -> Option<Viewer>
    requires { IsOf front.now.book (view writer.old.desk.place) }
    ensures shown { writer.new.desk.shown ≡ writer.old.desk.shown }
    ensures pending { drop writer.new.behind writer.new.log.items ≡ drop writer.old.behind writer.old.log.items }
    ensures knows { view writer.new.desk.place ≡ view writer.old.desk.place }
    ensures viewer { IfSome result (λ v. v ≡ record { desk = front.now.book; plan = plan_seen (view writer.old.desk.place); entries = front.now.log }) }
{
    let Ok(mut reader) = writer.factory().reader() else {
        return None;
    };
    let note = writer.tell::<Notes>();
    reader.learn::<Notes>(note);
    Some(Viewer::of(reader, front.again()))
}

// A writer of a board, which knows what it shows.
fn writer_of<R: Wait>(
    rt: &R,
    alloc: Global,
    board: &Board,
    front: &Front,
) -> Result<VersionWriter, AllocError>
    requires { front.now.log ≡ board.now.journal }
    ensures shown { IfOk result (λ w. held w.desk.shown.value ≡ ((board.now.plan, board.now.journal), front.now)) }
    ensures pending { IfOk result (λ w. drop w.behind w.log.items ≡ []) }
    ensures knows { IfOk result (λ w. view w.desk.place ≡ (front.now.book, (board.now.plan, board.now.journal)) ∷ []) }
{
    // By this call it is known here that the journal is legal and replays to the placements.
    board.budget();
    let first = version_of(alloc, board, front)?;
    let second = version_of(alloc, board, front)?;
    let writer = VersionWriter::new(alloc, first, second, 2)?;
    let (writer, published) = writer.publish_as::<Looks, R>(rt);
    match published {
        Ok(()) => Ok(writer),
        Err(_) => {
            writer.take(rt);
            Err(AllocError)
        }
    }
}

/// A desk of a board, and two viewers of what it publishes, which know the board's journal. It publishes once, and may wait.
///
/// # Errors
///
/// `Memory` where memory ran out or the first publish was refused, and `NoSeat` where a viewer had no place. The board comes
/// back.
pub fn desk_of<R: Wait>(
    rt: &R,
    alloc: Global,
    board: Board,
) -> Result<(Desk, Viewer, Viewer), (Board, DeskFault)>
    ensures first { IfOk result (λ t. t.1 ≡ record { desk = t.0.name; plan = board.plan; entries = board.journal }) }
    ensures second { IfOk result (λ t. t.2 ≡ record { desk = t.0.name; plan = board.plan; entries = board.journal }) }
    ensures board { IfOk result (λ t. t.0.board ≡ board) }
    ensures shown { IfOk result (λ t. course t.0.shown ≡ (board.plan, board.journal)) }
    ensures back { IfErr result (λ e. e.0 ≡ board) }
{
    let (head, front) = open();
    // By this call it is known here that the journal is shorter than 2^64 entries.
    let _count = board.journal().len();
    let front = front.added_all(rt, &head, board.journal());
    let Ok(mut writer) = writer_of(rt, alloc, &board, &front) else {
        return Err((board, DeskFault::Memory));
    };
    let Some(first) = seat(&mut writer, &front) else {
        writer.take(rt);
        return Err((board, DeskFault::NoSeat));
    };
    let Some(second) = seat(&mut writer, &front) else {
        writer.take(rt);
        return Err((board, DeskFault::NoSeat));
    };
    let desk = Desk {
        board,
        writer,
        head,
        front,
    };
    Ok((desk, first, second))
}
