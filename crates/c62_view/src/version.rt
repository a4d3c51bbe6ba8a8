//! A version: a sheet with the entries that led to it, and the beginning of the history that they are.
ghost use Rattle.std.specs.Prelude.{◌≡◌, ◌++◌, ◌≤◌, length, take, IfOk, IfErr, OnOk, OnErr};
ghost use Rattle.c62_depend.specs.Plan.{insns_of};
ghost use Rattle.c62_board.specs.State.{nothing_of};
ghost use Rattle.c62_sheet.specs.Journal.{replayed, IsLegal};
ghost use Rattle.c62_view.specs.Course.{course, held, gone_on, left_by, IsLegalCourse};
ghost use Rattle.c62_view.specs.Batches.{played};

use crate::history::Front;
use c62_board::{Entry, Sheet};
use c62_depend::Plan;
use left_right::Absorb;
use smallvec::SmallVec;
use std::alloc::AllocError;
use std::marker::Model;

/// What goes to readers: entries that were added together, or how far the history goes.
#[derive(Drop)]
pub enum Change {
    Entries(SmallVec<Entry, 4>),
    Note(Front),
}

/// A sheet, with the entries that led to it. Contracts see it as its `Version`.
#[derive(Drop)]
pub struct Version {
    sheet: Sheet,
    entries: Vec<Entry>,
    front: Front,
}

impl Model for Version {
    ghost use Rattle.c62_view.specs.Course.{Version as Seen};

    ghost Value = { Seen };

    ghost use Rattle.c62_view.specs.ViewVersion.{version_of, IsKept};

    ghost view = { version_of };

    ghost invariant = { IsKept };
}

// Plays the entries. Where all are legal, the sheet is then their replay.
fn follow(sheet: &mut Sheet, entries: &[Entry])
    ensures plan { sheet.new.plan ≡ sheet.old.plan }
    ensures spots { IsLegal (insns_of sheet.old.plan) sheet.old.spots entries.now → sheet.new.spots ≡ replayed sheet.old.spots entries.now }
{
    for k in 0..entries.len() {
        sheet.apply(&entries[k]);
    }
}

impl Version {
    /// The sheet that these entries led to.
    pub fn new(sheet: Sheet, entries: Vec<Entry>, front: Front) -> Version
        requires { sheet.spots ≡ replayed (nothing_of sheet.plan) entries.items }
        ensures { held result ≡ ((sheet.plan, entries.items), front) }
    {
        Version {
            sheet,
            entries,
            front,
        }
    }

    /// The placements that are published.
    pub fn sheet(&self) -> &Sheet
        ensures plan { result.now.plan ≡ self.now.plan }
        ensures spots { IsLegalCourse (course self.now) → result.now.spots ≡ left_by (course self.now) }
    {
        &self.sheet
    }

    /// How many entries led to it.
    pub fn seen(&self) -> usize
        ensures { result ≡ length self.now.entries }
    {
        self.entries.len()
    }

    /// The beginning of the history that they are.
    pub fn front(&self) -> &Front
        ensures { result.now ≡ self.now.past }
    {
        &self.front
    }

    fn go_on(&mut self, batch: &[Entry]) -> Result<(), AllocError>
        ensures past { self.new.past ≡ self.old.past }
        ensures ok { OnOk result (course self.new ≡ gone_on (course self.old) batch.now) }
        ensures err { OnErr result (course self.new ≡ course self.old) }
    {
        self.entries.extend_from_slice(batch)?;
        follow(&mut self.sheet, batch);
        Ok(())
    }

    fn note(&mut self, front: Front)
        ensures { self.new ≡ record self.old { past = front } }
    {
        self.front = front;
    }
}

impl Absorb<Change> for Version {
    // A clause reads an array as a list, of any length.
    type State = ((Plan, [Entry; 0]), Front);

    ghost state = { held };

    ghost applied = { played };

    fn absorb_first(&mut self, operation: &Change, _other: &Version) -> Result<(), AllocError> {
        match operation {
            Change::Entries(entries) => self.go_on(entries.as_slice()),
            Change::Note(front) => {
                self.note(front.again());
                Ok(())
            }
        }
    }
}
