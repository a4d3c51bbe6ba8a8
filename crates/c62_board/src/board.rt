//! The board.

ghost use Rattle.std.specs.Prelude.{◌≡◌, ◌≢◌, ◌<◌, ◌≤◌, ◌↔◌, None, List, [], ◌∷◌, length, IsTrue, IsSome, IfOk, IfErr, OnOk, OnErr};
ghost use Rattle.c62_depend.specs.Plan.{insns_of, IsPlan};
ghost use Rattle.c62_sheet.specs.Lawful.{spot_at, IsLawful};
ghost use Rattle.c62_sheet.specs.Least.{IsReady, FindsLeast, IsPick, Picks, IsComplete};
ghost use Rattle.c62_sheet.specs.Check.{Judges};
ghost use Rattle.c62_sheet.specs.Counts.{AreCounts, set_length};
ghost use Rattle.c62_sheet.specs.Journal.{IsLegal, replayed};
ghost use Rattle.c62_board.specs.Replay.{IsFirstBad};
ghost use Rattle.c62_sheet.specs.declared.entry.Spot.{Spot as SpotOf};
ghost use Rattle.c62_board.specs.Withdrawal.{MarksGoing, marked_below};
ghost use Rattle.c62_sheet.specs.Victim.{FindsVictim};
ghost use Rattle.c62_board.specs.Ejection.{IsEjected, FindsEjected};
ghost use Rattle.c62_board.specs.Turn.{IsChoice, IsPlaced, EjectsTo};
ghost use Rattle.c62_board.specs.Laws.{HasTurn};

use crate::fault::{CommitFault, PlaceFault, ReplayFault, WithdrawFault};
use crate::turn::{Choice, Proposal, Turn, who_of};
use crate::withdrawal;
use c62_depend::Plan;
use c62_insn::Side;
use c62_read::MOST_INSTRUCTIONS;
use c62_sheet::{Counts, Entry, Sheet, Spot, Unlawful, Who, least_in};
use smallvec::SmallVec;
use std::alloc::{AllocError, Global};
use std::marker::Model;

/// Placements of the instructions of a plan, with the journal of how they came about and the ejections that are left.
///
/// By its type a board is lawful, its journal is legal, and the journal replayed from nothing gives its placements. A call
/// on a number asks that it is below the plan's `len`. Only [`Board::new`], [`Board::replay`] and what adds to the journal
/// take memory; each refusal leaves the board as it was.
#[derive(Drop)]
pub struct Board {
    sheet: Sheet,
    journal: Vec<Entry>,
    budget: u16,
}

impl Model for Board {
    ghost use Rattle.c62_board.specs.State.{BoardState};

    ghost Value = { BoardState };

    ghost use Rattle.c62_board.specs.View.{state_of, IsKept};

    ghost view = { state_of };

    ghost invariant = { IsKept };
}

impl Board {
    ghost use Rattle.c62_board.specs.State.{BoardState, IsSound, Adds, Has, IsCleared, IsPlaceFault, IsCommitFault, IsWithdrawal, IsWithdrawFault, IsReplayFault, IsStep, HasNoRoomFor, IsReadyNow, IsLeastNow, GainsRoom, IsAhead, HasManyEntries, nothing_of};
    ghost use Rattle.c62_sheet.specs.declared.entry.Entry.TheVariants.{Place};
    ghost use Rattle.c62_board.specs.declared.turn.Turn.TheVariants.{Memory};
    ghost use Rattle.c62_board.specs.declared.fault.CommitFault.TheVariants.{Memory as NoMemory};

    /// An empty board.
    ///
    /// # Errors
    ///
    /// The plan as it was, where memory ran out.
    pub fn new(alloc: Global, plan: Plan, budget: u16) -> Result<Board, (Plan, AllocError)>
        ensures empty { IfOk result (Has plan [] budget) }
        ensures back { IfErr result (λ back. back.0 ≡ plan) }
    {
        let sheet = Sheet::new(alloc, plan)?;
        Ok(Board {
            sheet,
            journal: Vec::new(alloc),
            budget,
        })
    }

    /// The board that entries lead to from nothing, with those entries as its journal.
    ///
    /// # Errors
    ///
    /// The plan as it was, with the index of the first entry that is not legal, or where memory ran out.
    pub fn replay(
        alloc: Global,
        plan: Plan,
        budget: u16,
        entries: &[Entry],
    ) -> Result<Board, (Plan, ReplayFault)>
        ensures legal { IfOk result (λ board. IsLegal (insns_of plan) (nothing_of plan) entries.now) }
        ensures board { IfOk result (Has plan entries.now budget) }
        ensures back { IfErr result (λ back. back.0 ≡ plan) }
        ensures fault { IfErr result (λ back. IsReplayFault plan entries.now back.1) }
    {
        let Ok(journal) = Vec::from_slice(alloc, entries) else {
            return Err((plan, ReplayFault::Memory));
        };
        let mut sheet = match Sheet::new(alloc, plan) {
            Ok(sheet) => sheet,
            Err((plan, _)) => return Err((plan, ReplayFault::Memory)),
        };
        if let Err(k) = play(&mut sheet, entries) {
            return Err((sheet.into_plan(), ReplayFault::BadEntry(k)));
        }
        Ok(Board {
            sheet,
            journal,
            budget,
        })
    }

    /// The plan whose instructions are placed.
    pub fn plan(&self) -> &Plan
        ensures plan { result.now ≡ self.now.plan }
        ensures sound { IsSound self.now }
    {
        self.sheet.plan()
    }

    /// How the placements came about.
    pub fn journal(&self) -> &[Entry]
        ensures journal { result.now ≡ self.now.journal }
        ensures sound { IsSound self.now }
    {
        &self.journal
    }

    /// How many ejections are left.
    pub fn budget(&self) -> u16
        ensures budget { result ≡ self.now.budget }
        ensures sound { IsSound self.now }
    {
        self.budget
    }

    /// The placements alone, without the journal and the budget.
    pub fn sheet(&self) -> &Sheet
        ensures sheet { result.now ≡ record { plan = self.now.plan; spots = self.now.spots } }
        ensures sound { IsSound self.now }
    {
        &self.sheet
    }

    /// Where instruction `i` stands, if it is placed.
    pub fn spot_of(&self, i: u16) -> Option<Spot>
        requires { i < length self.now.plan.insns }
        ensures { result ≡ spot_at self.now.spots i }
    {
        self.sheet.spot_of(i)
    }

    /// Whether instruction `i` may be placed at a spot: it is not placed, and the set with it is lawful.
    ///
    /// # Errors
    ///
    /// The first rule against it, in the order of [`Rule`](c62_sheet::Rule), with its cycle.
    pub fn check(&self, i: u16, spot: Spot) -> Result<(), Unlawful>
        requires { i < length self.now.plan.insns }
        ensures { Judges (insns_of self.now.plan) self.now.spots i spot result }
    {
        self.sheet.check(i, spot)
    }

    /// Whether instruction `i` is ready: it is not placed, and all that it depends on is.
    pub fn ready(&self, i: u16) -> bool
        requires { i < length self.now.plan.insns }
        ensures { IsTrue result ↔ IsReady (insns_of self.now.plan) self.now.spots i }
    {
        self.sheet.ready(i)
    }

    /// The least spot of a ready instruction: the first cycle, and there the first unit in the order L, S, M, D, at which
    /// the set with it is lawful. `None` where there is none below the limit of five cycles an instruction.
    pub fn least(&self, i: u16) -> Option<Spot>
        requires in_plan { i < length self.now.plan.insns }
        requires ready { IsReady (insns_of self.now.plan) self.now.spots i }
        ensures { FindsLeast (insns_of self.now.plan) self.now.spots i result }
    {
        self.sheet.least(i)
    }

    /// The ready instruction of a side that is greatest in height, for a tie the lowest. `None` where none is ready.
    pub fn pick(&self, side: Side) -> Option<u16>
        ensures { Picks (insns_of self.now.plan) self.now.spots side result }
    {
        self.sheet.pick(side)
    }

    /// How many instructions of each side are placed, and how many are ready.
    pub fn counts(&self) -> Counts
        ensures { AreCounts (insns_of self.now.plan) self.now.spots result }
    {
        self.sheet.counts()
    }

    /// Whether all instructions are placed.
    pub fn complete(&self) -> bool
        ensures { IsTrue result ↔ IsComplete (insns_of self.now.plan) self.now.spots }
    {
        self.sheet.complete()
    }

    /// The cycles that what is placed takes: where a branch is placed, six from its issue, and else until the last landing,
    /// a store landing in its issue cycle; 0 where nothing is placed.
    pub fn length(&self) -> u16
        ensures { result ≡ set_length (insns_of self.now.plan) self.now.spots }
    {
        self.sheet.length()
    }

    /// The victim of a ready instruction that has a least spot: of the less urgent instructions that keep it from its early
    /// cycle, and on which it does not depend, the one of least height, for a tie of greatest number. Each keeps it from
    /// that cycle where without it alone some unit of the instruction would keep the packet rules there.
    pub fn blocks_least(&self, i: u16) -> Option<u16>
        requires in_plan { i < length self.now.plan.insns }
        requires ready { IsReady (insns_of self.now.plan) self.now.spots i }
        requires has_spot { (s : SpotOf) × IsLeastNow self.now i s }
        ensures { FindsVictim (insns_of self.now.plan) self.now.spots i result }
    {
        self.sheet.blocks_least(i)
    }

    /// Room for so many more entries. With room no call that adds them answers that memory ran out.
    ///
    /// # Errors
    ///
    /// Where the journal could not grow. The board is as it was.
    pub fn room(&mut self, entries: usize) -> Result<(), AllocError>
        ensures room { OnOk result (GainsRoom self.old entries self.new) }
        ensures full { OnErr result (self.old.room < entries) }
        ensures unchanged { OnErr result (self.new ≡ self.old) }
    {
        self.journal.reserve(entries)
    }

    /// Room for so many more entries.
    fn make_room(&mut self, entries: u16) -> Result<(), AllocError>
        ensures room { OnOk result (GainsRoom self.old entries self.new) }
        ensures full { OnErr result (self.old.room < entries) }
        ensures err { OnErr result (self.new ≡ self.old) }
    {
        self.room(usize::from(entries))
    }

    /// Places a ready instruction at its least spot, where the journal has room for that.
    pub fn put(&mut self, i: u16, spot: Spot, who: Who)
        requires ready { IsReadyNow self.old i }
        requires least { IsLeastNow self.old i spot }
        requires room { 0 < self.old.room }
        ensures { Adds self.old (Place i spot who ∷ []) self.new }
    {
        let Ok(()) = self.journal.push(Entry::Place(i, spot, who)) else {
            unreachable!()
        };
        self.sheet.put(i, spot);
    }

    /// Withdraws what goes with an instruction, which is marked.
    fn withdraw_marked(&mut self, marks: &[bool], i: u16, who: Who)
        requires marked { MarksGoing (insns_of self.old.plan) self.old.spots i marks.now }
        requires many { length self.old.plan.insns ≤ length marks.now }
        requires room { marked_below marks.now (length self.old.plan.insns) ≤ self.old.room }
        ensures withdrawn { IsWithdrawal self.old i who (marked_below marks.now (length self.old.plan.insns)) self.new }
        ensures sound { IsSound self.new }
    {
        withdrawal::take_out_marked(&mut self.sheet, &mut self.journal, marks, i, who);
    }

    /// Places a ready instruction at its least spot.
    ///
    /// # Errors
    ///
    /// Where it is not ready, where it has no least spot, and where the journal could not grow.
    pub fn place(&mut self, i: u16, who: Who) -> Result<Spot, PlaceFault>
        requires { i < length self.old.plan.insns }
        ensures ready { OnOk result (IsReady (insns_of self.old.plan) self.old.spots i) }
        ensures least { IfOk result (IsLeastNow self.old i) }
        ensures placed { IfOk result (λ s. Adds self.old (Place i s who ∷ []) self.new) }
        ensures fault { IfErr result (IsPlaceFault self.old i) }
        ensures unchanged { OnErr result (self.new ≡ self.old) }
    {
        if !self.ready(i) {
            return Err(PlaceFault::NotReady);
        }
        let Some(spot) = self.least(i) else {
            return Err(PlaceFault::NoRoom);
        };
        let Ok(()) = self.make_room(1) else {
            return Err(PlaceFault::Memory);
        };
        self.put(i, spot, who);
        Ok(spot)
    }

    /// Whether a proposal may be committed, however little room there is.
    fn judge(&self, proposal: &Proposal) -> Result<(), CommitFault>
        ensures ready { OnOk result (IsReadyNow self.now proposal.now.number) }
        ensures least { OnOk result (IsLeastNow self.now proposal.now.number proposal.now.spot) }
        ensures fault { IfErr result (IsCommitFault self.now proposal.now) }
        ensures judged { IfErr result (λ fault. fault ≢ NoMemory) }
    {
        let i = proposal.number;
        if i >= self.sheet.plan().len() || !self.ready(i) {
            return Err(CommitFault::NotReady);
        }
        if !is_spot(self.least(i), proposal.spot) {
            return Err(CommitFault::Stale(self.journal.len()));
        }
        Ok(())
    }

    /// The entry that [`Board::commit`] adds for a proposal, where the journal has room for it. Nothing is changed, and no
    /// memory is taken.
    ///
    /// # Errors
    ///
    /// Those of [`Board::commit`] but `Memory`.
    pub fn proposed(&self, proposal: &Proposal, who: Who) -> Result<SmallVec<Entry, 4>, CommitFault>
        ensures ready { OnOk result (IsReadyNow self.now proposal.now.number) }
        ensures least { OnOk result (IsLeastNow self.now proposal.now.number proposal.now.spot) }
        ensures entry { IfOk result (λ entries. entries.items ≡ Place proposal.now.number proposal.now.spot who ∷ []) }
        ensures fault { IfErr result (IsCommitFault self.now proposal.now) }
        ensures judged { IfErr result (λ fault. fault ≢ NoMemory) }
    {
        self.judge(proposal)?;
        let mut entries = SmallVec::new(*self.journal.allocator());
        entries.push_reserved(Entry::Place(proposal.number, proposal.spot, who));
        Ok(entries)
    }

    /// Places an instruction as proposed, where the spot is its least spot now. What the proposer saw is not looked at.
    ///
    /// # Errors
    ///
    /// Where it is not ready, also where no instruction has its number; where its least spot is another one now, with the
    /// length of the journal; and where the journal could not grow.
    pub fn commit(&mut self, proposal: &Proposal, who: Who) -> Result<Spot, CommitFault>
        ensures ready { OnOk result (IsReadyNow self.old proposal.now.number) }
        ensures least { OnOk result (IsLeastNow self.old proposal.now.number proposal.now.spot) }
        ensures spot { IfOk result (λ s. s ≡ proposal.now.spot) }
        ensures placed { IfOk result (λ s. Adds self.old (Place proposal.now.number s who ∷ []) self.new) }
        ensures fault { IfErr result (IsCommitFault self.old proposal.now) }
        ensures unchanged { OnErr result (self.new ≡ self.old) }
    {
        self.judge(proposal)?;
        let Ok(()) = self.make_room(1) else {
            return Err(CommitFault::Memory);
        };
        self.put(proposal.number, proposal.spot, who);
        Ok(proposal.spot)
    }

    /// Withdraws an instruction and all placed ones that depend on it, directly or through others, highest number first.
    /// Answers how many.
    ///
    /// # Errors
    ///
    /// Where it is not placed, and where the journal could not grow.
    pub fn withdraw(&mut self, i: u16, who: Who) -> Result<u16, WithdrawFault>
        requires { i < length self.old.plan.insns }
        ensures taken { OnOk result (IsSome (spot_at self.old.spots i)) }
        ensures withdrawn { IfOk result (λ count. IsWithdrawal self.old i who count self.new) }
        ensures fault { IfErr result (IsWithdrawFault self.old i who) }
        ensures unchanged { OnErr result (self.new ≡ self.old) }
    {
        if self.spot_of(i).is_none() {
            return Err(WithdrawFault::NotPlaced);
        }
        let marks = withdrawal::going_with(&self.sheet, i);
        let count = withdrawal::count_marked(&marks, self.sheet.plan().len());
        let Ok(()) = self.make_room(count) else {
            return Err(WithdrawFault::Memory);
        };
        self.withdraw_marked(&marks, i, who);
        Ok(count)
    }

    /// The instruction that is ejected for a pick, where one is.
    fn ejected_for(&self, i: u16, least: Spot) -> Option<u16>
        requires ready { IsReadyNow self.now i }
        requires least { IsLeastNow self.now i least }
        ensures { FindsEjected (insns_of self.now.plan) self.now.spots self.now.budget i result }
    {
        if self.budget == 0 || least.cycle <= self.sheet.early(i) {
            return None;
        }
        self.blocks_least(i)
    }

    /// What a side is about to do.
    fn choose(&self, side: Side) -> Choice
        ensures { IsChoice (insns_of self.now.plan) self.now.spots self.now.budget side result }
    {
        if self.complete() {
            return Choice::Finished;
        }
        let Some(i) = self.pick(side) else {
            return Choice::Wait;
        };
        let Some(spot) = self.least(i) else {
            return Choice::Stop(i);
        };
        match self.ejected_for(i, spot) {
            Some(q) => Choice::Eject(q, i),
            None => Choice::Put(i, spot),
        }
    }

    /// Places the pick of a side at its least spot.
    fn take_place(&mut self, i: u16, spot: Spot, side: Side) -> Turn
        requires { IsPlaced (insns_of self.old.plan) self.old.spots self.old.budget side i spot }
        ensures { IsStep self.old side result self.new }
    {
        let Ok(()) = self.make_room(1) else {
            return Turn::Memory;
        };
        self.put(i, spot, who_of(side));
        Turn::Placed(i, spot)
    }

    /// Withdraws the victim of a side's pick with all that goes with it, and places the pick.
    fn eject(&mut self, q: u16, i: u16, side: Side) -> Turn
        requires pick { IsPick (insns_of self.old.plan) self.old.spots side i }
        requires ejected { IsEjected (insns_of self.old.plan) self.old.spots self.old.budget i q }
        ensures { IsStep self.old side result self.new }
    {
        let marks = withdrawal::going_with(&self.sheet, q);
        let count = withdrawal::count_marked(&marks, self.sheet.plan().len());
        let Ok(()) = self.make_room(count + 1) else {
            return Turn::Memory;
        };
        self.withdraw_marked(&marks, q, who_of(side));
        let Some(spot) = self.least(i) else {
            unreachable!()
        };
        self.put(i, spot, who_of(side));
        self.budget -= 1;
        Turn::Ejected(q, i, spot)
    }

    /// Takes a side's turn (`docs/SCHEDULING.md`, "A step of a side"), and answers what it did. All room that it needs is
    /// made before the first change.
    pub fn step(&mut self, side: Side) -> Turn
        ensures { IsStep self.old side result self.new }
    {
        match self.choose(side) {
            Choice::Finished => Turn::Done,
            Choice::Wait => Turn::Idle,
            Choice::Stop(i) => Turn::NoRoom(i),
            Choice::Put(i, spot) => self.take_place(i, spot, side),
            Choice::Eject(q, i) => self.eject(q, i, side),
        }
    }

    /// Where the pick of a side goes once its victim is out with all that goes with it, which is marked.
    fn spot_without(&self, marks: &[bool], q: u16, i: u16, side: Side) -> Spot
        requires marked { MarksGoing (insns_of self.now.plan) self.now.spots q marks.now }
        requires many { length self.now.plan.insns ≤ length marks.now }
        requires pick { IsPick (insns_of self.now.plan) self.now.spots side i }
        requires ejected { IsEjected (insns_of self.now.plan) self.now.spots self.now.budget i q }
        ensures { EjectsTo (insns_of self.now.plan) self.now.spots self.now.budget side q i result }
    {
        let plan = self.sheet.plan();
        let count = usize::from(plan.len());
        let mut rest = [None; MOST_INSTRUCTIONS];
        withdrawal::copy_left(&self.sheet, marks, q, &mut rest);
        let Some(spot) = least_in(plan, &rest[..count], i) else {
            unreachable!()
        };
        spot
    }

    /// The turn that a side has, however little room there is.
    pub(crate) fn turn_of(&self, side: Side) -> Turn
        ensures { HasTurn (insns_of self.now.plan) self.now.spots self.now.budget side result }
    {
        match self.choose(side) {
            Choice::Finished => Turn::Done,
            Choice::Wait => Turn::Idle,
            Choice::Stop(i) => Turn::NoRoom(i),
            Choice::Put(i, spot) => Turn::Placed(i, spot),
            Choice::Eject(q, i) => {
                let marks = withdrawal::going_with(&self.sheet, q);
                Turn::Ejected(q, i, self.spot_without(&marks, q, i, side))
            }
        }
    }

    /// The turn of a side that ejects, and the entries that it adds.
    fn ejection_ahead(
        &self,
        q: u16,
        i: u16,
        side: Side,
    ) -> Result<(Turn, SmallVec<Entry, 4>), AllocError>
        requires pick { IsPick (insns_of self.now.plan) self.now.spots side i }
        requires ejected { IsEjected (insns_of self.now.plan) self.now.spots self.now.budget i q }
        ensures ahead { IfOk result (λ t. IsAhead self.now side t.0 t.1.items) }
        ensures many { OnErr result (HasManyEntries self.now side) }
    {
        let marks = withdrawal::going_with(&self.sheet, q);
        let n = self.sheet.plan().len();
        let count = withdrawal::count_marked(&marks, n);
        let mut entries = SmallVec::new(*self.journal.allocator());
        entries.reserve(usize::from(count) + 1)?;
        let spot = self.spot_without(&marks, q, i, side);
        let placing = Entry::Place(i, spot, who_of(side));
        withdrawal::list_marked(&mut entries, &marks, n, who_of(side));
        entries.push_reserved(placing);
        Ok((Turn::Ejected(q, i, spot), entries))
    }

    /// The turn that a side has, and the entries that its step adds, where the journal has room for them. Nothing is
    /// changed. It takes memory only for more than four entries.
    ///
    /// # Errors
    ///
    /// Where there are more than four entries, and memory ran out.
    pub fn ahead(&self, side: Side) -> Result<(Turn, SmallVec<Entry, 4>), AllocError>
        ensures ahead { IfOk result (λ t. IsAhead self.now side t.0 t.1.items) }
        ensures many { OnErr result (HasManyEntries self.now side) }
    {
        let mut entries = SmallVec::new(*self.journal.allocator());
        match self.choose(side) {
            Choice::Finished => Ok((Turn::Done, entries)),
            Choice::Wait => Ok((Turn::Idle, entries)),
            Choice::Stop(i) => Ok((Turn::NoRoom(i), entries)),
            Choice::Put(i, spot) => {
                entries.push_reserved(Entry::Place(i, spot, who_of(side)));
                Ok((Turn::Placed(i, spot), entries))
            }
            Choice::Eject(q, i) => self.ejection_ahead(q, i, side),
        }
    }

    /// Takes out all instructions and all entries. The plan, the budget and the room stay.
    pub fn clear(&mut self)
        ensures { IsCleared self.old self.new }
    {
        self.sheet.clear();
        self.journal.clear();
    }
}

/// Makes the changes of entries one after another. Where one is not legal, answers the index of the first such.
fn play(sheet: &mut Sheet, entries: &[Entry]) -> Result<(), usize>
    ensures plan { sheet.new.plan ≡ sheet.old.plan }
    ensures legal { OnOk result (IsLegal (insns_of sheet.old.plan) sheet.old.spots entries.now) }
    ensures played { OnOk result (sheet.new.spots ≡ replayed sheet.old.spots entries.now) }
    ensures bad { IfErr result (λ k. IsFirstBad (insns_of sheet.old.plan) sheet.old.spots entries.now k) }
{
    for k in 0..entries.len() {
        if !sheet.apply(&entries[k]) {
            return Err(k);
        }
    }
    Ok(())
}

/// Whether this spot was found.
fn is_spot(found: Option<Spot>, spot: Spot) -> bool
    ensures { IsTrue result ↔ (found ≡ Some spot) }
{
    match found {
        Some(least) => least == spot,
        None => false,
    }
}
