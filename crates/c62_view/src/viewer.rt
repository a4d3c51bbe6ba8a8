//! What plans on versions.
ghost use Rattle.std.specs.Prelude.{◌≡◌, ◌∷◌, ◌++◌, ◌⊎◌, [], None};
ghost use mathlib.Core.List.{IsPrefix};
ghost use Rattle.left_right.specs.Sides.{view};
ghost use Rattle.c62_view.specs.Course.{course, IsLegalCourse};
ghost use Rattle.c62_view.specs.Knows.{known, plan_seen, IsOf};
ghost use Rattle.c62_view.specs.Planning.{Answers};

use crate::history::Front;
use crate::rule::{Looks, VersionReader};
use crate::version::Version;
use c62_board::Proposal;
use c62_insn::Side;
use core::mem::replace_with;
use std::marker::Model;

/// What a desk published: its journal then. It has no bytes but a count.
#[derive(Drop)]
pub struct Told {
    front: Front,
}

impl Model for Told {
    ghost use Rattle.c62_view.specs.Past.{Past};

    ghost Value = { Past };

    ghost view = { λ t. t.front };
}

/// Plans on what a desk published. Contracts see it as what it `Knows`.
#[derive(Drop)]
pub struct Viewer {
    reader: VersionReader,
    front: Front,
}

impl Model for Viewer {
    ghost use Rattle.left_right.specs.Sides.{view as seen_by};
    ghost use Rattle.c62_view.specs.Knows.{Knows, plan_seen, IsOf};

    ghost Value = { Knows };

    ghost view = { λ v. record { desk = v.front.book; plan = plan_seen (seen_by v.reader.place); entries = v.front.log } };

    ghost invariant = { λ v. IsOf v.front.book (seen_by v.reader.place) };
}

fn pick_on(version: &Version, side: Side) -> Option<Proposal>
    requires { IsLegalCourse (course version.now) }
    ensures { Answers (course version.now) side result }
{
    let sheet = version.sheet();
    let Some(number) = sheet.pick(side) else {
        return None;
    };
    let Some(spot) = sheet.least(number) else {
        return None;
    };
    Some(Proposal {
        number,
        spot,
        seen: version.seen(),
    })
}

fn plan_by(viewer: Viewer, side: Side) -> (Viewer, Option<Proposal>)
    ensures desk { result.0.desk ≡ viewer.desk }
    ensures plan { result.0.plan ≡ viewer.plan }
    ensures begins { IsPrefix viewer.entries result.0.entries }
    ensures answer { (IsLegalCourse (known result.0) × Answers (known result.0) side result.1)
        ⊎ ((result.0 ≡ viewer) × (result.1 ≡ None)) }
{
    let Viewer { reader, front } = viewer;
    match reader.enter_as::<Looks>() {
        Ok(reading) => {
            let version = reading.get();
            if !front.begins(version.front()) {
                let reader = reading.leave();
                return (Viewer { reader, front }, None);
            }
            let proposal = pick_on(version, side);
            let front = version.front().again();
            let reader = reading.leave();
            (Viewer { reader, front }, proposal)
        }
        Err(reader) => (Viewer { reader, front }, None),
    }
}

impl Viewer {
    /// A viewer that knows what its reader and this front know.
    pub(crate) fn of(reader: VersionReader, front: Front) -> Viewer
        requires { IsOf front.book (view reader.place) }
        ensures { result ≡ record { desk = front.book; plan = plan_seen (view reader.place); entries = front.log } }
    {
        Viewer { reader, front }
    }

    /// The pick of a side and its least spot on what the desk published last, with the number of entries that led there. It
    /// takes no memory and waits for nobody. `None` where there is no pick or no least spot; and where the viewer is given
    /// nothing, as after the desk was closed, or less than it knows, which no run does. It then knows what it knew.
    pub fn plan(&mut self, side: Side) -> Option<Proposal>
        ensures desk { self.new.desk ≡ self.old.desk }
        ensures plan { self.new.plan ≡ self.old.plan }
        ensures begins { IsPrefix self.old.entries self.new.entries }
        ensures answer { (IsLegalCourse (known self.new) × Answers (known self.new) side result)
            ⊎ ((self.new ≡ self.old) × (result ≡ None)) }
    {
        replace_with(self, side, |viewer, side| plan_by(viewer, side))
    }

    /// Takes in what the viewer's own desk told, on no less than which it plans from then on. It takes no memory and waits for
    /// nobody.
    pub fn learn(&mut self, told: Told)
        requires { told.book ≡ self.old.desk }
        ensures desk { self.new.desk ≡ self.old.desk }
        ensures plan { self.new.plan ≡ self.old.plan }
        ensures told { IsPrefix told.log self.new.entries }
        ensures begins { IsPrefix self.old.entries self.new.entries }
        ensures one { (self.new.entries ≡ told.log) ⊎ (self.new.entries ≡ self.old.entries) }
    {
        let Told { front } = told;
        if self.front.begins(&front) {
            self.front = front;
        }
    }
}

impl Told {
    pub(crate) fn of(front: Front) -> Told
        ensures { result ≡ front }
    {
        Told { front }
    }
}
