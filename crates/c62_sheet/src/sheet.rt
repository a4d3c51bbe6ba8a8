//! A lawful set of placements.

ghost use Rattle.std.specs.Prelude.{◌≡◌, ◌↔◌, ℕ, ◌*◌, ◌<◌, ◌≤◌, length, None, IsTrue, IsSome, IfOk, IfErr};
ghost use Rattle.std.specs.Bool.{OnTrue, OnFalse};
ghost use Rattle.c62_depend.specs.Plan.{insns_of, IsPlan};
ghost use Rattle.c62_sheet.specs.Lawful.{IsAt, spot_at, placed, withdrawn, nothing_placed, empty_sheet, IsLawful};
ghost use Rattle.c62_sheet.specs.Least.{IsReady, IsAfter, IsEarly, FindsLeast, Picks, IsLast, IsComplete, FitsWithout};
ghost use Rattle.c62_sheet.specs.Victim.{FindsVictim};
ghost use Rattle.c62_sheet.specs.Check.{IsOpen, Judges};
ghost use Rattle.c62_sheet.specs.Counts.{AreCounts, set_length};
ghost use Rattle.c62_sheet.specs.Journal.{after, PermitsPlace, PermitsWithdraw, Permits};

use crate::entry::{Counts, Entry, Spot, Unlawful};
use crate::ready::ReadyLists;
use crate::{counts, earliest, early, index, judge, ready, rows, standing, victim};
use c62_depend::Plan;
use c62_insn::Side;
use c62_row::Row;
use std::alloc::{AllocError, Global};
use std::marker::Model;

/// A lawful set of placements of the instructions of a plan: by its type no other can be had. A call on a number asks
/// that it is below the plan's `len`. Only [`Sheet::new`] and [`Sheet::copy`] take memory.
#[derive(Drop)]
pub struct Sheet {
    plan: Plan,
    spots: Vec<Option<Spot>>,
    missing: Vec<u16>,
    earliest: Vec<u16>,
    ready: ReadyLists,
    rows: Vec<Row>,
    standing: Vec<u16>,
}

impl Model for Sheet {
    ghost use Rattle.c62_sheet.specs.Lawful.{Placements};

    ghost Value = { Placements };

    ghost use Rattle.c62_sheet.specs.View.{placements_of, IsKept};

    ghost view = { placements_of };

    ghost invariant = { IsKept };
}

/// Leaves nothing placed.
fn take_out_all(spots: &mut [Option<Spot>])
    ensures { spots.new ≡ nothing_placed (length spots.old) }
{
    for spot in spots.iter_mut() {
        *spot = None;
    }
}

impl Sheet {
    /// Nothing placed, with room for all instructions of the plan.
    ///
    /// # Errors
    ///
    /// The plan as it was, where memory ran out.
    pub fn new(alloc: Global, plan: Plan) -> Result<Sheet, (Plan, AllocError)>
        ensures ok { IfOk result (λ sheet. sheet ≡ empty_sheet plan) }
        ensures back { IfErr result (λ back. back.0 ≡ plan) }
    {
        let Ok(spots) = vec![in alloc; None; usize::from(plan.len())] else {
            return Err((plan, AllocError));
        };
        let Ok(missing) = index::all_missing(alloc, &plan) else {
            return Err((plan, AllocError));
        };
        let Ok(earliest) = vec![in alloc; 0u16; usize::from(plan.len())] else {
            return Err((plan, AllocError));
        };
        let Ok(mut ready) = ready::no_lists(alloc, &plan) else {
            return Err((plan, AllocError));
        };
        ready::add_all(&plan, &spots, &missing, &mut ready);
        let Ok(standing) = standing::none_standing(alloc, &plan) else {
            return Err((plan, AllocError));
        };
        match rows::all_rows(alloc, &plan) {
            Ok(rows) => Ok(Sheet {
                plan,
                spots,
                missing,
                earliest,
                ready,
                rows,
                standing,
            }),
            Err(error) => Err((plan, error)),
        }
    }

    /// An equal sheet.
    ///
    /// # Errors
    ///
    /// Where memory ran out.
    pub fn copy(&self, alloc: Global) -> Result<Sheet, AllocError>
        ensures { IfOk result (λ sheet. sheet ≡ self.now) }
    {
        Ok(Sheet {
            plan: self.plan.copy(alloc)?,
            spots: Vec::from_slice(alloc, &self.spots)?,
            missing: Vec::from_slice(alloc, &self.missing)?,
            earliest: Vec::from_slice(alloc, &self.earliest)?,
            ready: ready::copy(alloc, &self.plan, &self.ready)?,
            rows: Vec::from_slice(alloc, &self.rows)?,
            standing: Vec::from_slice(alloc, &self.standing)?,
        })
    }

    /// The plan whose instructions are placed. By this call a caller learns what holds of every sheet: what is placed is
    /// lawful (`docs/SCHEDULING.md`, "Lawful").
    pub fn plan(&self) -> &Plan
        ensures plan { result.now ≡ self.now.plan }
        ensures known { IsPlan (insns_of self.now.plan) }
        ensures lawful { IsLawful (insns_of self.now.plan) self.now.spots }
    {
        &self.plan
    }

    /// Where instruction `i` stands, if it is placed.
    pub fn spot_of(&self, i: u16) -> Option<Spot>
        requires { i < length self.now.plan.insns }
        ensures { result ≡ spot_at self.now.spots i }
    {
        let number = usize::from(i);
        self.spots[number]
    }

    /// Whether instruction `i` may be placed at a spot: it is not placed, and the set with it is lawful.
    ///
    /// # Errors
    ///
    /// The first rule against it, in the order of [`Rule`](crate::Rule), with its cycle.
    pub fn check(&self, i: u16, spot: Spot) -> Result<(), Unlawful>
        requires { i < length self.now.plan.insns }
        ensures { Judges (insns_of self.now.plan) self.now.spots i spot result }
    {
        let first = self.early(i);
        judge::check(
            &self.plan,
            &self.spots,
            &self.missing,
            &self.rows,
            first,
            i,
            spot,
        )
    }

    /// Whether instruction `i` is ready: it is not placed, and all that it depends on is.
    pub fn ready(&self, i: u16) -> bool
        requires { i < length self.now.plan.insns }
        ensures { IsTrue result ↔ IsReady (insns_of self.now.plan) self.now.spots i }
    {
        judge::is_ready(&self.plan, &self.spots, &self.missing, i)
    }

    /// The first cycle, from 0, that the dependences of instruction `i` on placed ones allow.
    pub fn early(&self, i: u16) -> u16
        requires { i < length self.now.plan.insns }
        ensures { IsEarly (insns_of self.now.plan) self.now.spots i result }
    {
        let number = usize::from(i);
        if self.missing[number] == 0 {
            self.earliest[number]
        } else {
            early::early(&self.plan, &self.spots, i)
        }
    }

    /// The least spot of a ready instruction: the first cycle, and there the first unit in the order L, S, M, D, at which
    /// the set with it is lawful. `None` where there is none below the limit of five cycles an instruction.
    pub fn least(&self, i: u16) -> Option<Spot>
        requires in_plan { i < length self.now.plan.insns }
        requires ready { IsReady (insns_of self.now.plan) self.now.spots i }
        ensures { FindsLeast (insns_of self.now.plan) self.now.spots i result }
    {
        judge::least(&self.plan, &self.spots, &self.rows, self.early(i), i)
    }

    /// The ready instruction of a side that is greatest in height, for a tie the lowest. `None` where none is ready.
    pub fn pick(&self, side: Side) -> Option<u16>
        ensures { Picks (insns_of self.now.plan) self.now.spots side result }
    {
        self.ready.of(side).first().copied()
    }

    /// Whether a ready instruction keeps the packet rules in a cycle that its dependences allow, on some unit that it may
    /// stand on, once instruction `q` alone is taken out.
    pub fn fits_without(&self, i: u16, cycle: u16, q: u16) -> bool
        requires in_plan { i < length self.now.plan.insns }
        requires ready { IsReady (insns_of self.now.plan) self.now.spots i }
        requires after { IsAfter (insns_of self.now.plan) self.now.spots i cycle }
        requires other { q < length self.now.plan.insns }
        ensures { IsTrue result ↔ FitsWithout (insns_of self.now.plan) self.now.spots i cycle q }
    {
        judge::fits_without(&self.plan, &self.spots, &self.rows, i, cycle, q)
    }

    /// The victim of a ready instruction: of the less urgent instructions that keep it from its early cycle, and on which it
    /// does not depend, the one of least height, for a tie of greatest number. Each keeps it from that cycle where without it
    /// alone some unit of the instruction would keep the packet rules there.
    pub fn blocks_least(&self, i: u16) -> Option<u16>
        requires in_plan { i < length self.now.plan.insns }
        requires ready { IsReady (insns_of self.now.plan) self.now.spots i }
        ensures { FindsVictim (insns_of self.now.plan) self.now.spots i result }
    {
        victim::victim(self, i)
    }

    /// The instruction that was placed last at a spot, which is the one that stands there, where one does. Where none was
    /// placed there, it is any.
    pub(crate) fn last_at(&self, spot: Spot) -> u16
        requires { spot.cycle < 5 * length self.now.plan.insns }
        ensures in_plan { result < length self.now.plan.insns }
        ensures stands { (q : ℕ) → IsAt self.now.spots q spot → result ≡ q }
    {
        let place = standing::place_of(spot);
        self.standing[place]
    }

    /// How many instructions of each side are placed, and how many are ready.
    pub fn counts(&self) -> Counts
        ensures { AreCounts (insns_of self.now.plan) self.now.spots result }
    {
        counts::counts(&self.plan, &self.spots, &self.ready)
    }

    /// Whether all instructions are placed: none is ready then, and only then.
    pub fn complete(&self) -> bool
        ensures { IsTrue result ↔ IsComplete (insns_of self.now.plan) self.now.spots }
    {
        self.ready.is_empty()
    }

    /// The cycles that what is placed takes: where a branch is placed, six from its issue, and else until the last landing,
    /// a store landing in its issue cycle; 0 where nothing is placed.
    pub fn length(&self) -> u16
        ensures { result ≡ set_length (insns_of self.now.plan) self.now.spots }
    {
        counts::length(&self.plan, &self.spots)
    }

    /// Whether no placed instruction depends on instruction `i`.
    pub fn is_last(&self, i: u16) -> bool
        requires { i < length self.now.plan.insns }
        ensures { IsTrue result ↔ IsLast (insns_of self.now.plan) self.now.spots i }
    {
        judge::is_last(&self.plan, &self.spots, i)
    }

    /// Places instruction `i` at a spot where it may be placed.
    pub fn put(&mut self, i: u16, spot: Spot)
        requires in_plan { i < length self.old.plan.insns }
        requires may { IsOpen (insns_of self.old.plan) self.old.spots i spot }
        ensures { self.new ≡ record self.old { spots = placed self.old.spots i spot } }
    {
        ready::take_off(&self.plan, &mut self.ready, i);
        index::lower_followers(&self.plan, &mut self.missing, i);
        earliest::raise_followers(&self.plan, &self.spots, &mut self.earliest, i, spot);
        rows::take(&self.plan, &self.spots, &mut self.rows, i, spot);
        self.standing[standing::place_of(spot)] = i;
        self.spots[usize::from(i)] = Some(spot);
        ready::add_followers(&self.plan, &self.spots, &self.missing, &mut self.ready, i);
    }

    /// Takes out placed instruction `i`, on which no placed one depends.
    pub fn take_out(&mut self, i: u16)
        requires in_plan { i < length self.old.plan.insns }
        requires taken { IsSome (spot_at self.old.spots i) }
        requires last { IsLast (insns_of self.old.plan) self.old.spots i }
        ensures { self.new ≡ record self.old { spots = withdrawn self.old.spots i } }
    {
        ready::drop_followers(&self.plan, &self.spots, &self.missing, &mut self.ready, i);
        ready::add(&self.plan, &mut self.ready, i);
        index::raise_followers(&self.plan, &mut self.missing, i);
        rows::free(&self.plan, &self.spots, &mut self.rows, i);
        self.spots[usize::from(i)] = None;
        earliest::find_followers(&self.plan, &self.spots, &mut self.earliest, i);
    }

    fn permits_place(&self, i: u16, spot: Spot) -> bool
        ensures { IsTrue result ↔ PermitsPlace (insns_of self.now.plan) self.now.spots i spot }
    {
        i < self.plan.len()
            && self.ready(i)
            && judge::is_least(&self.plan, &self.spots, &self.rows, self.early(i), i, spot)
    }

    fn permits_withdraw(&self, i: u16) -> bool
        ensures { IsTrue result ↔ PermitsWithdraw (insns_of self.now.plan) self.now.spots i }
    {
        i < self.plan.len() && self.spots[usize::from(i)].is_some() && self.is_last(i)
    }

    /// Whether an entry is legal: it places a ready instruction at its least spot, or withdraws a placed one on which no
    /// placed one depends. Any entry may be asked.
    pub fn permits(&self, entry: &Entry) -> bool
        ensures { IsTrue result ↔ Permits (insns_of self.now.plan) self.now.spots entry.now }
    {
        match *entry {
            Entry::Place(i, spot, _) => self.permits_place(i, spot),
            Entry::Withdraw(i, _) => self.permits_withdraw(i),
        }
    }

    /// Makes the change of an entry, where it is legal, and tells whether it was. Any entry may be given.
    pub fn apply(&mut self, entry: &Entry) -> bool
        ensures done { OnTrue result (self.new ≡ record self.old { spots = after self.old.spots entry.now }) }
        ensures legal { IsTrue result ↔ Permits (insns_of self.old.plan) self.old.spots entry.now }
        ensures refused { OnFalse result (self.new ≡ self.old) }
    {
        if !self.permits(entry) {
            return false;
        }
        match *entry {
            Entry::Place(i, spot, _) => self.put(i, spot),
            Entry::Withdraw(i, _) => self.take_out(i),
        }
        true
    }

    /// Takes out all instructions.
    pub fn clear(&mut self)
        ensures { self.new ≡ record self.old { spots = nothing_placed (length self.old.plan.insns) } }
    {
        index::reset(&self.plan, &mut self.missing);
        earliest::reset(&self.plan, &mut self.earliest);
        rows::free_all(&self.plan, &mut self.rows);
        take_out_all(&mut self.spots);
        ready::take_all_off(&mut self.ready);
        ready::add_all(&self.plan, &self.spots, &self.missing, &mut self.ready);
    }

    /// The plan alone.
    pub fn into_plan(self) -> Plan
        ensures { result ≡ self.plan }
    {
        self.plan
    }
}
