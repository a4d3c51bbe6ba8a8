//! What the instructions of a cycle share: how much of it there is, and what each of them takes.

ghost use Rattle.std.specs.Prelude.{◌≡◌, ◌≤◌, ◌<◌, length, Some};
ghost use Rattle.c62_rules.specs.Capacity.{rank_of};
ghost use Rattle.c62_rules.specs.Resource.{rule_name, place_of, rule_at, side_number, cross_path_taken, data_path_taken, paths_taken, taken_by};

use arrayvec::ArrayVec;
use c62_insn::{Insn, Reg, Side, Unit};
use std::error::Error;
use std::fmt;

/// A rule of execute packets that asks of one cycle (`docs/MACHINE.md`, "Packet rules"; SPRU189, "Resource Constraints").
#[derive(Clone, Copy, PartialEq, Eq, Debug)]
pub enum CycleRule {
    /// One instruction for each unit.
    P1,
    /// At most one user of each cross path.
    P2,
    /// Two accesses use different data paths.
    P3,
    /// At most four reads of a register.
    P4,
}

impl fmt::Display for CycleRule {
    ghost output = { λ rule. Some (rule_name rule) };

    fn fmt<W: fmt::Write>(&self, f: &mut fmt::Formatter<W>) -> fmt::Result {
        f.write_str(self.name())
    }
}

impl Error for CycleRule {}

/// What a cycle has so many of.
#[derive(Clone, Copy)]
pub enum Resource {
    /// A functional unit.
    OnUnit(Unit),
    /// The cross path to the units of a side.
    CrossPath(Side),
    /// The data path of a register file.
    DataPath(Side),
    /// Reads of a register.
    ReadsOf(Reg),
}

/// What fills the unused entries of an array.
impl Default for Resource {
    fn default() -> Resource {
        Resource::CrossPath(Side::A)
    }
}

impl Resource {
    /// Its place among all resources: the units, then the cross paths, the data paths and the reads of each register.
    pub fn place(self) -> u8
        ensures place { result ≡ place_of self }
        ensures within { result < 44 }
    {
        match self {
            Resource::OnUnit(unit) => unit.index(),
            Resource::CrossPath(side) => 8 + side as u8,
            Resource::DataPath(side) => 10 + side as u8,
            Resource::ReadsOf(reg) => 12 + reg.index(),
        }
    }
}

impl CycleRule {
    /// Its name.
    pub fn name(self) -> &'static str
        ensures { result.now ≡ rule_name self }
    {
        match self {
            CycleRule::P1 => "P1",
            CycleRule::P2 => "P2",
            CycleRule::P3 => "P3",
            CycleRule::P4 => "P4",
        }
    }

    /// Its position in the order in which rules are told.
    pub fn rank(self) -> u8
        ensures rank { result ≡ rank_of self }
        ensures few { result < 16 }
    {
        match self {
            CycleRule::P1 => 0,
            CycleRule::P2 => 1,
            CycleRule::P3 => 2,
            CycleRule::P4 => 3,
        }
    }

    /// The rule of the resource at a place.
    pub fn at(place: u8) -> CycleRule
        ensures { result ≡ rule_at place }
    {
        if place < 8 {
            CycleRule::P1
        } else if place < 10 {
            CycleRule::P2
        } else if place < 12 {
            CycleRule::P3
        } else {
            CycleRule::P4
        }
    }
}

/// What an instruction issued on a unit takes of its cycle, but for reads.
fn paths_taken(insn: Insn, unit: Unit) -> ArrayVec<Resource, 6>
    ensures items { result.items ≡ paths_taken insn unit }
    ensures few { length result.items ≤ 3 }
{
    let mut taken = ArrayVec::new();
    taken.push(Resource::OnUnit(unit));
    if insn.crosses(unit) {
        taken.push(Resource::CrossPath(unit.side));
    }
    if let Some(side) = insn.data_path() {
        taken.push(Resource::DataPath(side));
    }
    taken
}

/// All that an instruction issued on a unit takes of its cycle, each resource as often as it takes it.
pub fn taken_by(insn: Insn, unit: Unit) -> ArrayVec<Resource, 6>
    ensures { result.items ≡ taken_by insn unit }
{
    let mut taken = paths_taken(insn, unit);
    for reg in insn.reads().as_slice() {
        taken.push(Resource::ReadsOf(*reg));
    }
    taken
}
